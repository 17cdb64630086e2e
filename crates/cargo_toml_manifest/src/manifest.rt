//! A manifest, and how it is read from a text.
ghost use Rattle.std.specs.Prelude.{◌≡◌, Option, Some, None, option_map};
ghost use Rattle.toml.specs.Data.{Data, no_members};
ghost use Rattle.toml.specs.View.{view, table_view};
ghost use Rattle.cargo_toml_parts.specs.Reads.{IsReading};
ghost use Rattle.cargo_toml_parts.specs.Readings.{Goes};
ghost use Rattle.cargo_toml_manifest.specs.Manifests.{ManifestMeaning, manifest_meaning, held};
ghost use Rattle.cargo_toml_manifest.specs.Manifests.{manifest_of, ManifestFaults, manifest_reads};
ghost use Rattle.cargo_toml_manifest.specs.Manifests.{ManifestRefuses, zero_rule_applies};
ghost use Rattle.cargo_toml_manifest.specs.Manifests.{by_zero_rule};
ghost use Rattle.cargo_toml_package.specs.Packages.{package_meaning, held_package};
ghost use Rattle.cargo_toml_manifest.specs.Texts.{IsFromText, IsFromBytes, any_tree, AnyRefuses};
ghost use Rattle.cargo_toml_manifest.specs.Texts.{IsTree, IsTreeOfBytes};

mod questions;

use crate::heap::keep_heap;
use cargo_toml_package::feature::take_features;
use cargo_toml_package::{
    DepsSet, FeatureDetails, FeatureSet, Package, PatchSet, TargetDepsSet, Workspace,
};
use cargo_toml_parts::copying::Copying;
use cargo_toml_parts::floats::table_has_no_float;
use cargo_toml_parts::read::{Read, into_table};
use cargo_toml_parts::reading::{Reading, put_fault};
use cargo_toml_parts::value::floats_unsupported;
use cargo_toml_parts::{
    Badges, Error, FromValue, Inheritable, LintGroups, Product, Profiles, Publish,
};
use std::alloc::{AllocError, Global};
use std::collections::BTreeMap;
use std::str;
use toml::{Table, Value};

/// A `Cargo.toml`: a package, a workspace or both, with what they depend on and
/// what is built of them.
///
/// `Metadata` is what the free tables `package.metadata` and `workspace.metadata` are read as:
/// any tree, where no type is named. Where a field's name has `_`, its key has `-`. A list or a map
/// whose key is missing is empty, and any other field is then `None`, unless another value is
/// named at the field. Keys that are not listed here are ignored, such as those of Cargo's
/// unstable features.
///
/// What is read is what stands in the text alone: libraries and binaries that Cargo finds by their
/// place among the files are not in it, nor is what a package leaves to its workspace.
#[derive(Debug, PartialEq, Drop)]
pub struct Manifest<Metadata = Value> {
    /// The package. One that would have the version 0.0.0 and be published everywhere is read as
    /// published nowhere.
    pub package: Option<Package<Metadata>>,

    /// What the manifest says of its workspace, where it is the workspace's root.
    pub workspace: Option<Workspace<Metadata>>,

    /// What the package depends on.
    pub dependencies: DepsSet,

    /// What its tests, examples and benchmarks depend on besides.
    pub dev_dependencies: DepsSet,

    /// What its build script depends on.
    pub build_dependencies: DepsSet,

    /// What it depends on besides on some platforms alone.
    pub target: TargetDepsSet,

    /// The features that are written down, with what each enables. Optional dependencies
    /// make further ones.
    pub features: FeatureSet,

    /// Packages that stand for others. Cargo has `patch` in its place.
    pub replace: DepsSet,

    /// Packages that stand for others, by the source of those.
    pub patch: PatchSet,

    /// The library.
    pub lib: Option<Product>,

    /// How the code is compiled. Missing: no profile.
    pub profile: Profiles,

    /// The badges. Missing: no badge, and the maintenance status `none`.
    pub badges: Badges,

    /// The binaries that are written down, and after completion those that are found, too.
    pub bin: Vec<Product>,

    /// The benchmarks that are written down, and after completion those that are found, too.
    pub bench: Vec<Product>,

    /// The tests that are written down, and after completion those that are found, too.
    pub test: Vec<Product>,

    /// The examples that are written down, and after completion those that are found, too.
    pub example: Vec<Product>,

    /// The lints, by tool and then by name, which may be left to the workspace. Missing: `Set` and
    /// empty.
    pub lints: Inheritable<LintGroups>,

    /// What is said of features beside what they enable: an entry for each whose table has a `doc`,
    /// or `public` as false. One of a name that isn't in `features` is passed over.
    pub feature_details: FeatureDetails,
}

/// A clone of each field. It fails only when out of memory, or by the metadata's own `Clone`.
impl<Metadata: Clone> Clone for Manifest<Metadata> {
    ghost is_clone = { λ x copy.
        ⟦<Option<Package<Metadata>> as Clone>⟧.is_clone x.package copy.package
        × (⟦<Option<Workspace<Metadata>> as Clone>⟧.is_clone x.workspace copy.workspace
        × (⟦<DepsSet as Clone>⟧.is_clone x.dependencies copy.dependencies
        × (⟦<DepsSet as Clone>⟧.is_clone x.dev_dependencies copy.dev_dependencies
        × (⟦<DepsSet as Clone>⟧.is_clone x.build_dependencies copy.build_dependencies
        × (⟦<TargetDepsSet as Clone>⟧.is_clone x.target copy.target
        × (⟦<FeatureSet as Clone>⟧.is_clone x.features copy.features
        × (⟦<DepsSet as Clone>⟧.is_clone x.replace copy.replace
        × (⟦<PatchSet as Clone>⟧.is_clone x.patch copy.patch
        × (⟦<Option<Product> as Clone>⟧.is_clone x.lib copy.lib
        × (⟦<Profiles as Clone>⟧.is_clone x.profile copy.profile
        × (⟦<Badges as Clone>⟧.is_clone x.badges copy.badges
        × (⟦<Vec<Product> as Clone>⟧.is_clone x.bin copy.bin
        × (⟦<Vec<Product> as Clone>⟧.is_clone x.bench copy.bench
        × (⟦<Vec<Product> as Clone>⟧.is_clone x.test copy.test
        × (⟦<Vec<Product> as Clone>⟧.is_clone x.example copy.example
        × (⟦<Inheritable<LintGroups> as Clone>⟧.is_clone x.lints copy.lints
        × ⟦<FeatureDetails as Clone>⟧.is_clone x.feature_details
        copy.feature_details)))))))))))))))) };

    ghost is_infallible = { λ x.
        ⟦<Option<Package<Metadata>> as Clone>⟧.is_infallible x.package
        × (⟦<Option<Workspace<Metadata>> as Clone>⟧.is_infallible x.workspace
        × (⟦<DepsSet as Clone>⟧.is_infallible x.dependencies
        × (⟦<DepsSet as Clone>⟧.is_infallible x.dev_dependencies
        × (⟦<DepsSet as Clone>⟧.is_infallible x.build_dependencies
        × (⟦<TargetDepsSet as Clone>⟧.is_infallible x.target
        × (⟦<FeatureSet as Clone>⟧.is_infallible x.features
        × (⟦<DepsSet as Clone>⟧.is_infallible x.replace
        × (⟦<PatchSet as Clone>⟧.is_infallible x.patch
        × (⟦<Option<Product> as Clone>⟧.is_infallible x.lib
        × (⟦<Profiles as Clone>⟧.is_infallible x.profile
        × (⟦<Badges as Clone>⟧.is_infallible x.badges
        × (⟦<Vec<Product> as Clone>⟧.is_infallible x.bin
        × (⟦<Vec<Product> as Clone>⟧.is_infallible x.bench
        × (⟦<Vec<Product> as Clone>⟧.is_infallible x.test
        × (⟦<Vec<Product> as Clone>⟧.is_infallible x.example
        × (⟦<Inheritable<LintGroups> as Clone>⟧.is_infallible x.lints
        × ⟦<FeatureDetails as Clone>⟧.is_infallible x.feature_details)))))))))))))))) };

    fn clone(&self) -> Result<Manifest<Metadata>, AllocError> {
        let alloc = *self.bin.allocator();
        let mut copying = Copying::new();
        let copy = Manifest {
            package: copying.of(&self.package, None),
            workspace: copying.of(&self.workspace, None),
            dependencies: copying.of(&self.dependencies, BTreeMap::new(alloc)),
            dev_dependencies: copying.of(&self.dev_dependencies, BTreeMap::new(alloc)),
            build_dependencies: copying.of(&self.build_dependencies, BTreeMap::new(alloc)),
            target: copying.of(&self.target, BTreeMap::new(alloc)),
            features: copying.of(&self.features, BTreeMap::new(alloc)),
            replace: copying.of(&self.replace, BTreeMap::new(alloc)),
            patch: copying.of(&self.patch, BTreeMap::new(alloc)),
            lib: copying.of(&self.lib, None),
            profile: copying.of(&self.profile, Profiles::default(alloc)),
            badges: copying.of(&self.badges, Badges::default()),
            bin: copying.of(&self.bin, Vec::new(alloc)),
            bench: copying.of(&self.bench, Vec::new(alloc)),
            test: copying.of(&self.test, Vec::new(alloc)),
            example: copying.of(&self.example, Vec::new(alloc)),
            lints: copying.of(&self.lints, Inheritable::Inherited),
            feature_details: copying.of(&self.feature_details, BTreeMap::new(alloc)),
        };
        copying.finish(copy)
    }
}

impl<Metadata> Manifest<Metadata> {
    /// The manifest of the empty text. It takes no memory.
    pub fn default(alloc: Global) -> Manifest<Metadata>
        ensures { (reads : Data → Option Metadata)
            → manifest_of reads no_members ≡ Some (held result) }
    {
        Manifest {
            package: None,
            workspace: None,
            dependencies: BTreeMap::new(alloc),
            dev_dependencies: BTreeMap::new(alloc),
            build_dependencies: BTreeMap::new(alloc),
            target: BTreeMap::new(alloc),
            features: BTreeMap::new(alloc),
            replace: BTreeMap::new(alloc),
            patch: BTreeMap::new(alloc),
            lib: None,
            profile: Profiles::default(alloc),
            badges: Badges::default(),
            bin: Vec::new(alloc),
            bench: Vec::new(alloc),
            test: Vec::new(alloc),
            example: Vec::new(alloc),
            lints: Inheritable::Set(BTreeMap::new(alloc)),
            feature_details: BTreeMap::new(alloc),
        }
    }
}

impl Manifest {
    /// The manifest that these bytes spell.
    ///
    /// No other file is read, so the manifest may be incomplete: what its package leaves
    /// to a workspace is missing, and so is what Cargo finds in the package's folders.
    /// `complete_from_path` adds both, and `from_path` reads a file and adds them. Before that, a
    /// getter of the package may be called only where its value is not left to the workspace.
    ///
    /// Bytes that are not UTF-8 are `Error::Other("utf8")`. A text that `toml` refuses is
    /// `Error::Parse` of its fault. A document that holds a float at any depth is `Error::Parse` of
    /// the shape `floats are not supported`; any other fault of shape is `Error::Parse` with its
    /// text. Where there are several, one is reported. Out of memory is `Error::Memory`.
    pub fn from_slice(alloc: Global, bytes: &[u8]) -> Result<Manifest, Error>
        ensures { IsFromBytes (manifest_meaning view) (manifest_reads any_tree)
            (ManifestRefuses any_tree AnyRefuses) bytes.now result }
    {
        read_table(alloc, tree_of_bytes(alloc, bytes)?)
    }

    /// The manifest that this text spells. It refuses as `from_slice` does a text's bytes.
    ///
    /// As there, no file is read: `complete_from_path` adds what the package leaves to a workspace
    /// and what Cargo finds in its folders, and `from_path` reads a file and adds both.
    pub fn from_str(alloc: Global, text: &str) -> Result<Manifest, Error>
        ensures { IsFromText (manifest_meaning view) (manifest_reads any_tree)
            (ManifestRefuses any_tree AnyRefuses) text.now result }
    {
        read_table(alloc, tree_of(alloc, text)?)
    }
}

impl<Metadata: FromValue> Manifest<Metadata> {
    /// The manifest that these bytes spell, whose free tables `metadata` are read as the type says.
    ///
    /// It refuses as `from_slice` does; a fault of the metadata type is handed on as it is. A float
    /// is refused in every manifest, whatever that type would make of it.
    pub fn from_slice_with_metadata(
        alloc: Global,
        bytes: &[u8],
    ) -> Result<Manifest<Metadata>, Error>
        ensures { IsFromBytes (manifest_meaning Metadata.meaning)
            (manifest_reads Metadata.from_tree)
            (ManifestRefuses Metadata.from_tree Metadata.from_refuses) bytes.now result }
    {
        let tree = tree_of_bytes(alloc, bytes)?;
        read_table(alloc, tree)
    }

    pub(crate) fn from_text(alloc: Global, text: &str) -> Result<Manifest<Metadata>, Error>
        ensures { IsFromText (manifest_meaning Metadata.meaning) (manifest_reads Metadata.from_tree)
            (ManifestRefuses Metadata.from_tree Metadata.from_refuses) text.now result }
    {
        let tree = tree_of(alloc, text)?;
        read_table(alloc, tree)
    }
}

// A manifest is wide. So no layer stands between these calls and the reading of its keys: each
// would hold a manifest of its own on the stack. The trees are made beside them.

// The tree that a text spells, in which no float stands.
fn tree_of(alloc: Global, text: &str) -> Result<Table, Error>
    ensures { IsTree text.now result }
{
    keep_heap(alloc, text.len());
    let tree = toml::table_from_str(alloc, text)?;
    if !table_has_no_float(&tree) {
        return Err(floats_unsupported());
    }
    Ok(tree)
}

// The tree that these bytes spell, in which no float stands.
fn tree_of_bytes(alloc: Global, bytes: &[u8]) -> Result<Table, Error>
    ensures { IsTreeOfBytes bytes.now result }
{
    match str::from_utf8(bytes) {
        Ok(text) => tree_of(alloc, text),
        Err(_) => Err(Error::Other("utf8")),
    }
}

impl<Metadata: FromValue> Read for Manifest<Metadata> {
    ghost Meaning = { ManifestMeaning Metadata.Meaning };

    ghost meaning = { manifest_meaning Metadata.meaning };

    ghost reads = { manifest_reads Metadata.from_tree };

    ghost refuses = { ManifestRefuses Metadata.from_tree Metadata.from_refuses };

    fn read_owned(alloc: Global, value: Value) -> Result<Manifest<Metadata>, Error> {
        read_table(alloc, into_table(value)?)
    }
}

// Each key is read into its place in the manifest of the empty text. Its tree is taken out of the
// table, so that it is released once it has been read.
fn read_table<Metadata: FromValue>(alloc: Global, table: Table) -> Result<Manifest<Metadata>, Error>
    ensures { IsReading (manifest_meaning Metadata.meaning)
        (manifest_of Metadata.from_tree (table_view table))
        (ManifestFaults Metadata.from_tree Metadata.from_refuses (table_view table)) result }
{
    let mut made = Ok(Manifest::default(alloc));
    let fault = match &mut made {
        Ok(whole) => fill(alloc, whole, table),
        Err(_) => None,
    };
    put_fault(&mut made, fault);
    made
}

// Reads the keys into the manifest of the empty text.
#[inline(never)]
fn fill<Metadata: FromValue>(
    alloc: Global,
    whole: &mut Manifest<Metadata>,
    table: Table,
) -> Option<Error>
    requires { (reads : Data → Option Metadata)
        → manifest_of reads no_members ≡ Some (held whole.old) }
    ensures { Goes None result (manifest_of Metadata.from_tree (table_view table))
        (manifest_meaning Metadata.meaning whole.new)
        (ManifestFaults Metadata.from_tree Metadata.from_refuses (table_view table)) }
{
    let mut rest = table;
    let mut reading = Reading::new(alloc);
    reading.take_optional(&mut rest, "package", &mut whole.package);
    rule_option(&mut whole.package);
    reading.take_optional(&mut rest, "workspace", &mut whole.workspace);
    reading.take(&mut rest, "dependencies", &mut whole.dependencies);
    reading.take(&mut rest, "dev-dependencies", &mut whole.dev_dependencies);
    reading.take(
        &mut rest,
        "build-dependencies",
        &mut whole.build_dependencies,
    );
    reading.take(&mut rest, "target", &mut whole.target);
    take_features(
        &mut reading,
        &mut rest,
        &mut whole.features,
        &mut whole.feature_details,
    );
    reading.take(&mut rest, "replace", &mut whole.replace);
    reading.take(&mut rest, "patch", &mut whole.patch);
    reading.take_optional(&mut rest, "lib", &mut whole.lib);
    reading.take(&mut rest, "profile", &mut whole.profile);
    reading.take(&mut rest, "badges", &mut whole.badges);
    reading.take(&mut rest, "bin", &mut whole.bin);
    reading.take(&mut rest, "bench", &mut whole.bench);
    reading.take(&mut rest, "test", &mut whole.test);
    reading.take(&mut rest, "example", &mut whole.example);
    reading.take(&mut rest, "lints", &mut whole.lints);
    reading.fault
}

// Whether the version is 0.0.0, without pre-release and build metadata, and the package could be
// published everywhere.
fn zero_rule_applies<Metadata>(found: &Package<Metadata>) -> bool
    ensures { result ≡ zero_rule_applies (held_package found.now) }
{
    let Inheritable::Set(version) = &found.version else {
        return false;
    };
    let Inheritable::Set(Publish::Flag(publish)) = &found.publish else {
        return false;
    };
    version.major == 0
        && version.minor == 0
        && version.patch == 0
        && version.pre.is_empty()
        && version.build.is_empty()
        && *publish
}

// A package of version 0.0.0 is not published.
fn rule<Metadata: FromValue>(found: &mut Package<Metadata>)
    ensures { package_meaning Metadata.meaning found.new
        ≡ by_zero_rule (package_meaning Metadata.meaning found.old) }
{
    if zero_rule_applies(found) {
        found.publish = Inheritable::Set(Publish::Flag(false));
    }
}

// The same, where there is a package.
fn rule_option<Metadata: FromValue>(found: &mut Option<Package<Metadata>>)
    ensures { option_map (package_meaning Metadata.meaning) found.new
        ≡ option_map by_zero_rule (option_map (package_meaning Metadata.meaning) found.old) }
{
    if let Some(package) = found {
        rule(package);
    }
}
