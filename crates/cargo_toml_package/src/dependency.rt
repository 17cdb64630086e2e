//! Dependencies.
ghost use Rattle.std.specs.Prelude.{◌≡◌, Some, None, option_and_then};
ghost use Rattle.toml.specs.{Data.as_table, Data.no_members, View.table_view};
ghost use Rattle.cargo_toml_parts.specs.Faults.{IsShape, wrong_shape};
ghost use Rattle.cargo_toml_parts.specs.Readings.{Goes};
ghost use Rattle.cargo_toml_parts.specs.Reads.{IsReading};
ghost use Rattle.cargo_toml_package.specs.Dependencies.{InheritedMeaning, inherited_meaning};
ghost use Rattle.cargo_toml_package.specs.Dependencies.{inherited_of, strict_of, DetailMeaning};
ghost use Rattle.cargo_toml_package.specs.Dependencies.{detail_meaning, detail_of_table};
ghost use Rattle.cargo_toml_package.specs.Dependencies.{DependencyMeaning, dependency_meaning};
ghost use Rattle.cargo_toml_package.specs.Dependencies.{dependency_of, DependencyRefuses};
ghost use Rattle.cargo_toml_package.specs.Dependencies.{inherited_or, says_workspace};

mod questions;

use cargo_toml_parts::copying::Copying;
use cargo_toml_parts::duplicate::Duplicate;
use cargo_toml_parts::error::Error;
use cargo_toml_parts::read::{Read, into_table, member, without_spare};
use cargo_toml_parts::reading::{Reading, ended};
use semver::VersionReq;
use std::alloc::{AllocError, Global};
use std::collections::BTreeMap;
use toml::{Table, Value};

/// What a dependency adds to the one of its key that the workspace has.
#[derive(Clone, Debug, PartialEq, Eq, Drop)]
pub struct InheritedDependencyDetail {
    /// Features that are added: the list `features`.
    pub features: Vec<String>,
    /// Whether it is made optional: the key `optional`, false where it is missing.
    pub optional: bool,
    /// The key `workspace`, false where it is missing.
    pub workspace: bool,
}

/// A dependency that is written as a table.
#[derive(Debug, PartialEq, Drop)]
pub struct DependencyDetail {
    /// The versions that may be taken: the key `version`; any version where it is missing.
    pub version: Option<VersionReq>,
    /// The name of the crate, where that is not the dependency's key: the key `package`.
    pub package: Option<String>,
    /// The name of the registry that it comes from: the key `registry`.
    pub registry: Option<String>,
    /// The address of the index of that registry: the key `registry-index`.
    pub registry_index: Option<String>,
    /// The folder that it comes from, as seen from that of the `Cargo.toml`: the key `path`. A path
    /// that completion takes from the workspace is joined to the workspace's folder.
    pub path: Option<String>,
    /// The address of the repository that it comes from: the key `git`.
    pub git: Option<String>,
    /// The branch of that repository: the key `branch`.
    pub branch: Option<String>,
    /// The tag of that repository: the key `tag`.
    pub tag: Option<String>,
    /// The revision of that repository: the key `rev`.
    pub rev: Option<String>,
    /// The features of it that are switched on: the list `features`.
    pub features: Vec<String>,
    /// Whether it is left out until a feature enables it: the key `optional`, false
    /// where it is missing.
    pub optional: bool,
    /// Whether its feature `default` is switched on: the key `default-features`, true where it is
    /// missing. The older spelling `default_features` isn't read, but kept in `unstable`.
    pub default_features: bool,
    /// All other keys.
    pub unstable: BTreeMap<String, Value>,
    /// Whether it came from the workspace; false after reading.
    pub inherited: bool,
}

/// A clone of each field. It fails only when out of memory.
impl Clone for DependencyDetail {
    ghost is_clone = { λ x copy.
        ⟦<Option<VersionReq> as Clone>⟧.is_clone x.version copy.version
        × (⟦<Option<String> as Clone>⟧.is_clone x.«package» copy.«package»
        × (⟦<Option<String> as Clone>⟧.is_clone x.registry copy.registry
        × (⟦<Option<String> as Clone>⟧.is_clone x.registry_index copy.registry_index
        × (⟦<Option<String> as Clone>⟧.is_clone x.path copy.path
        × (⟦<Option<String> as Clone>⟧.is_clone x.git copy.git
        × (⟦<Option<String> as Clone>⟧.is_clone x.branch copy.branch
        × (⟦<Option<String> as Clone>⟧.is_clone x.tag copy.tag
        × (⟦<Option<String> as Clone>⟧.is_clone x.rev copy.rev
        × (⟦<Vec<String> as Clone>⟧.is_clone x.features copy.features
        × (⟦<bool as Clone>⟧.is_clone x.optional copy.optional
        × (⟦<bool as Clone>⟧.is_clone x.default_features copy.default_features
        × (⟦<BTreeMap<String, Value> as Clone>⟧.is_clone x.unstable copy.unstable
        × ⟦<bool as Clone>⟧.is_clone x.inherited copy.inherited)))))))))))) };

    ghost is_infallible = { λ x.
        ⟦<Option<VersionReq> as Clone>⟧.is_infallible x.version
        × (⟦<Option<String> as Clone>⟧.is_infallible x.«package»
        × (⟦<Option<String> as Clone>⟧.is_infallible x.registry
        × (⟦<Option<String> as Clone>⟧.is_infallible x.registry_index
        × (⟦<Option<String> as Clone>⟧.is_infallible x.path
        × (⟦<Option<String> as Clone>⟧.is_infallible x.git
        × (⟦<Option<String> as Clone>⟧.is_infallible x.branch
        × (⟦<Option<String> as Clone>⟧.is_infallible x.tag
        × (⟦<Option<String> as Clone>⟧.is_infallible x.rev
        × (⟦<Vec<String> as Clone>⟧.is_infallible x.features
        × (⟦<bool as Clone>⟧.is_infallible x.optional
        × (⟦<bool as Clone>⟧.is_infallible x.default_features
        × (⟦<BTreeMap<String, Value> as Clone>⟧.is_infallible x.unstable
        × ⟦<bool as Clone>⟧.is_infallible x.inherited)))))))))))) };

    fn clone(&self) -> Result<DependencyDetail, AllocError> {
        let alloc = *self.features.allocator();
        let mut copying = Copying::new();
        let copy = DependencyDetail {
            version: copying.of(&self.version, None),
            package: copying.of(&self.package, None),
            registry: copying.of(&self.registry, None),
            registry_index: copying.of(&self.registry_index, None),
            path: copying.of(&self.path, None),
            git: copying.of(&self.git, None),
            branch: copying.of(&self.branch, None),
            tag: copying.of(&self.tag, None),
            rev: copying.of(&self.rev, None),
            features: copying.of(&self.features, Vec::new(alloc)),
            optional: copying.of(&self.optional, false),
            default_features: copying.of(&self.default_features, false),
            unstable: copying.of(&self.unstable, BTreeMap::new(alloc)),
            inherited: copying.of(&self.inherited, false),
        };
        copying.finish(copy)
    }
}

/// A dependency: a requirement alone, or a table, which may leave the rest to the workspace.
#[derive(Clone, Debug, PartialEq, Drop)]
pub enum Dependency {
    /// A text that `semver` reads as a requirement.
    Simple(VersionReq),
    /// A table with a truth value under `workspace`, true or false, whose `features` and `optional`
    /// read, where they are there.
    Inherited(InheritedDependencyDetail),
    /// Any other table.
    Detailed(Box<DependencyDetail>),
}

impl InheritedDependencyDetail {
    /// A detail without any key. It takes no memory.
    pub fn default(alloc: Global) -> InheritedDependencyDetail
        ensures { inherited_of no_members ≡ Some (inherited_meaning result) }
    {
        InheritedDependencyDetail {
            features: Vec::new(alloc),
            optional: false,
            workspace: false,
        }
    }
}

impl DependencyDetail {
    /// A detail without any key: of any version, with its default features. It takes no memory.
    pub fn default(alloc: Global) -> DependencyDetail
        ensures { detail_of_table no_members ≡ Some (detail_meaning result) }
    {
        DependencyDetail {
            version: None,
            package: None,
            registry: None,
            registry_index: None,
            path: None,
            git: None,
            branch: None,
            tag: None,
            rev: None,
            features: Vec::new(alloc),
            optional: false,
            default_features: true,
            unstable: BTreeMap::new(alloc),
            inherited: false,
        }
    }
}

fn inherited_detail(alloc: Global, table: Table) -> Result<InheritedDependencyDetail, Error>
    ensures { IsReading inherited_meaning (inherited_of (table_view table)) (IsShape wrong_shape)
        result }
{
    let mut rest = table;
    let mut reading = Reading::new(alloc);
    let mut whole = InheritedDependencyDetail::default(alloc);
    reading.take(&mut rest, "features", &mut whole.features);
    reading.take(&mut rest, "optional", &mut whole.optional);
    reading.take(&mut rest, "workspace", &mut whole.workspace);
    ended(reading.fault, whole)
}

impl Read for InheritedDependencyDetail {
    ghost Meaning = { InheritedMeaning };

    ghost meaning = { inherited_meaning };

    ghost reads = { λ d. option_and_then inherited_of (as_table d) };

    fn read_owned(alloc: Global, value: Value) -> Result<InheritedDependencyDetail, Error> {
        inherited_detail(alloc, into_table(value)?)
    }
}

// Whether the table says if it is inherited.
fn says_workspace(table: &Table) -> bool
    ensures { result ≡ says_workspace (table_view table.now) }
{
    match member(table, "workspace") {
        Some(value) => value.as_bool().is_some(),
        None => false,
    }
}

// Reads the keys into a detail that is as where every key is missing. Those that most details have
// are read first: most tables are empty then.
#[inline(never)]
fn fill(alloc: Global, whole: &mut DependencyDetail, table: Table) -> Option<Error>
    requires { detail_of_table no_members ≡ Some (detail_meaning whole.old) }
    ensures { Goes None result (detail_of_table (table_view table)) (detail_meaning whole.new)
        (IsShape wrong_shape) }
{
    let mut rest = table;
    let mut reading = Reading::new(alloc);
    reading.take_optional(&mut rest, "version", &mut whole.version);
    reading.take(&mut rest, "features", &mut whole.features);
    reading.take(&mut rest, "optional", &mut whole.optional);
    reading.take(&mut rest, "default-features", &mut whole.default_features);
    reading.take_optional(&mut rest, "package", &mut whole.package);
    reading.take_optional(&mut rest, "registry", &mut whole.registry);
    reading.take_optional(&mut rest, "registry-index", &mut whole.registry_index);
    reading.take_optional(&mut rest, "path", &mut whole.path);
    reading.take_optional(&mut rest, "git", &mut whole.git);
    reading.take_optional(&mut rest, "branch", &mut whole.branch);
    reading.take_optional(&mut rest, "tag", &mut whole.tag);
    reading.take_optional(&mut rest, "rev", &mut whole.rev);
    // All known keys were taken out of it.
    whole.unstable = without_spare(alloc, rest);
    reading.fault
}

fn detailed(alloc: Global, table: Table) -> Result<DependencyDetail, Error>
    ensures { IsReading detail_meaning (detail_of_table (table_view table)) (IsShape wrong_shape)
        result }
{
    let mut whole = DependencyDetail::default(alloc);
    let fault = fill(alloc, &mut whole, table);
    ended(fault, whole)
}

impl Read for DependencyDetail {
    ghost Meaning = { DetailMeaning };

    ghost meaning = { detail_meaning };

    ghost reads = { λ d. option_and_then detail_of_table (as_table d) };

    fn read_owned(alloc: Global, value: Value) -> Result<DependencyDetail, Error> {
        detailed(alloc, into_table(value)?)
    }
}

// The detail that a table says, filled in its box.
fn boxed_detail(alloc: Global, table: Table) -> Result<Box<DependencyDetail>, Error>
    ensures { IsReading (λ d. detail_meaning d.value) (detail_of_table (table_view table))
        (IsShape wrong_shape) result }
{
    let mut whole = Box::new(alloc, DependencyDetail::default(alloc))?;
    let fault = fill(alloc, &mut whole, table);
    ended(fault, whole)
}

// The dependency that a table says. Most tables lack the key `workspace`, and nothing else is
// looked up twice in them.
fn of_table(alloc: Global, table: Table) -> Result<Dependency, Error>
    ensures { IsReading dependency_meaning
        (inherited_or (strict_of (table_view table)) (detail_of_table (table_view table)))
        (IsShape wrong_shape) result }
{
    if says_workspace(&table) {
        return Ok(Dependency::Inherited(inherited_detail(alloc, table)?));
    }
    Ok(Dependency::Detailed(boxed_detail(alloc, table)?))
}

#[tactic(auto, unfolding(crate::specs::Dependencies::dependency_of))]
impl Read for Dependency {
    ghost Meaning = { DependencyMeaning };

    ghost meaning = { dependency_meaning };

    ghost reads = { dependency_of };

    ghost refuses = { DependencyRefuses };

    fn read_owned(alloc: Global, value: Value) -> Result<Dependency, Error> {
        match value {
            Value::Table(table) => of_table(alloc, table),
            text => Ok(Dependency::Simple(VersionReq::read_owned(alloc, text)?)),
        }
    }
}

impl Duplicate for DependencyDetail {
    fn duplicate(&self, _alloc: Global) -> Result<DependencyDetail, AllocError> {
        self.clone()
    }
}
