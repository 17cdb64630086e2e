//! The line of JSON that a registry's index has of a crate, by Cargo's rules.
ghost use Rattle.std.specs.Prelude.{◌≡◌, ◌⊎◌, IfErr, IfOk, None, OnOk, Some, map, IsErrAnd};
ghost use Rattle.std.specs.Prelude.{option_and_then, option_map, string_bytes};
ghost use Rattle.std.specs.Option.{option_copied};
ghost use Rattle.semver.specs.Identifiers.{parts_of, parts_text};
ghost use Rattle.serde_json.specs.View.{view};
ghost use Rattle.toml.specs.View.{table_view};
ghost use Rattle.cargo_toml.specs.{InheritableValues.value_of, Inherits.inheritable_map};
ghost use Rattle.cargo_toml.specs.{Manifests.held, Packages.held_package};
ghost use Rattle.cargo_toml_tools.specs.declared.index.IndexError.TheVariants.{Memory};
ghost use Rattle.cargo_toml_tools.specs.Indexed.{refusal_of, written};
ghost use Rattle.cargo_toml_tools.specs.IndexEntries.{index_data, line_data};
ghost use Rattle.cargo_toml_tools.specs.Sections.{lists_meaning, refused, table_of, told};
ghost use Rattle.cargo_toml_tools.specs.Sections.{wanted_of};

mod entry;
mod features;
mod platform;
mod refusals;
mod registries;
mod sections;

use crate::json::{put_text, put_text_if};
use cargo_toml::{FeatureSet, Inheritable, Manifest, Package, SemVer};
use cargo_toml_lint::{AllocResult, Finding};
use entry::entries;
use features::put_features;
pub use platform::is_target;
pub use refusals::Fault;
use refusals::{Refusal, naming_refusal, other_crate, package_refusal};
pub use registries::{CRATES_IO, Named};
pub use sections::table_name;
use sections::{Section, sections};
use serde_json::{Map, Value, put};
use std::alloc::{AllocError, Global};
use std::fmt;
use toml::Table;

/// Which line is asked for.
#[derive(Debug, Clone, Copy)]
pub struct Options<'a> {
    /// The address of the index of the registry that the line is for.
    pub registry: &'a str,
    /// What registries are called, each with the address of its index. `crates-io` is known.
    pub names: &'a [Named<'a>],
    /// The SHA-256 of the crate's archive in hex. Without one the line has no `cksum`.
    pub checksum: Option<&'a str>,
    /// The name of the folder that the crate's archive unpacks to, where that is known.
    pub folder: Option<&'a str>,
    /// Whether there is a line, too, of what isn't published there, or whose features have an
    /// error.
    pub force: bool,
}

/// Why a crate has no line.
#[derive(Debug, Drop)]
pub enum IndexError {
    /// An index doesn't take it. The text is the key or the name that is at fault, and the
    /// `rust-version` itself where that is odd. Of another crate it is the folder and then the
    /// manifest's NAME-VERSION, with `, ` between. It is empty where the fault is the package's
    /// own.
    Refused(Fault, String),
    /// Out of memory.
    Memory,
}

impl From<AllocError> for IndexError {
    ghost from_gives = { λ _ e. e ≡ Memory };

    fn from(_fault: AllocError) -> IndexError {
        IndexError::Memory
    }
}

/// What each fault says above, in words.
impl fmt::Display for IndexError {
    fn fmt<W: fmt::Write>(&self, f: &mut fmt::Formatter<W>) -> fmt::Result {
        let IndexError::Refused(fault, name) = self else {
            return f.write_str("out of memory");
        };
        match fault {
            Fault::NoPackage => f.write_str("there is no package"),
            Fault::BadName => f.write_str("Cargo doesn't take the package's name"),
            Fault::NoVersion => f.write_str("the package has no version"),
            Fault::OtherCrate => write!(
                f,
                "the folder and the crate's NAME-VERSION differ: {name}"
            ),
            Fault::Incomplete => write!(f, "{name} is left to the workspace"),
            Fault::BadTarget => write!(f, "Cargo doesn't take the target {name}"),
            Fault::OtherTable => write!(f, "the table {name} has `_` in its name"),
            Fault::OtherFlag => write!(f, "the dependency {name} has `default_features`"),
            Fault::Artifact => {
                write!(f, "the dependency {name} has `artifact`, `lib` or `target`")
            }
            Fault::TurnsOff => write!(f, "{name} can't turn off its workspace's default features"),
            Fault::NoRequirement => write!(f, "the dependency {name} has no version"),
            Fault::NoAddress => write!(f, "the registry of {name} has no address"),
            Fault::OtherRegistry => write!(f, "the dependency {name} isn't of crates.io"),
            Fault::OddRust => write!(f, "the rust-version {name} isn't a version like 1.70"),
            Fault::NotPublished => f.write_str("the package isn't published in this registry"),
            Fault::Features => write!(f, "lint finds an error of {name}"),
        }
    }
}

impl std::error::Error for IndexError {}

/// What a registry's index has of the crate of this manifest, which is completed. `text` is what
/// the manifest was read from, and `findings` what lint finds of its features.
///
/// - Dev-dependencies stay. One with a path or a repository and no version is left out, with what
///   acts on it in features. Another dependency without a version is refused.
/// - A feature whose list has a `dep:` or a `?/` has that list under `features2`, and `v` is 2.
///
/// Refused out of memory, or with the first [`Fault`]: of the package, its name and its version, of
/// the folder, of its tables of dependencies, of its `rust-version`. Without `force`, publishing
/// and then an error of `findings` come last.
pub fn index_entry<M>(
    alloc: Global,
    manifest: &Manifest<M>,
    text: &str,
    findings: &[Finding<'_>],
    options: Options<'_>,
) -> Result<Value, IndexError>
    ensures taken { OnOk result (refusal_of (wanted_of options.entry) findings.now text.now
        (held manifest.now) ≡ None) }
    ensures refused { IfErr result (λ e. (e ≡ Memory) ⊎ (told e ≡ refusal_of
        (wanted_of options.entry) findings.now text.now (held manifest.now))) }
    ensures entry { IfOk result (λ value. Some (view value)
        ≡ index_data (wanted_of options.entry) text.now (held manifest.now)) }
{
    let Some(package) = &manifest.package else {
        return refuse(alloc, (Fault::NoPackage, ""));
    };
    let document = document_of(alloc, text)?;
    let sections = sections(alloc, manifest, &document)?;
    let sections = sections.as_slice();
    if let Some(refusal) = naming_refusal(package, &document) {
        return refuse(alloc, refusal);
    }
    if let Some(names) = other_crate(alloc, package, options.folder)? {
        return Err(IndexError::Refused(Fault::OtherCrate, names));
    }
    if let Some(refusal) = package_refusal(package, &document, sections, findings, options) {
        return refuse(alloc, refusal);
    }
    Ok(line_of(alloc, package, sections, &manifest.features, options)?)
}

/// The document that a text is, and an empty one where it is none.
fn document_of(alloc: Global, text: &str) -> AllocResult<Table>
    ensures { IfOk result (λ table. table_view table ≡ written text.now) }
{
    match toml::table_from_str(alloc, text) {
        Ok(table) => Ok(table),
        Err(fault) if fault.is_memory() => Err(AllocError),
        Err(_) => Ok(Table::new(alloc)),
    }
}

fn refuse(alloc: Global, refusal: Refusal<'_>) -> Result<Value, IndexError>
    ensures { IsErrAnd result (λ e. (e ≡ Memory) ⊎ (told e ≡ Some (refused refusal.entry))) }
{
    let (fault, subject) = refusal;
    Err(IndexError::Refused(fault, String::from_str(alloc, subject)?))
}

/// The line of a crate that an index takes.
#[tactic(auto, using(crate::proofs::Placed::with_both))]
fn line_of<M>(
    alloc: Global,
    package: &Package<M>,
    sections: &[Section<'_>],
    features: &FeatureSet,
    options: Options<'_>,
) -> AllocResult<Value>
    ensures { IfOk result (λ value. view value ≡ line_data (wanted_of options.entry)
        (map table_of sections.now) (lists_meaning features.now)
        (held_package «package».now)) }
{
    let version = version_text(alloc, &package.version)?;
    let mut line = Map::new(alloc);
    put_text(alloc, &mut line, "name", Some(package.name.as_str()))?;
    put_text(alloc, &mut line, "vers", version.as_deref())?;
    put(&mut line, alloc, "yanked", Value::from(false))?;
    put_text(alloc, &mut line, "links", package.links.as_deref())?;
    let rust_version = stated(&package.rust_version);
    put_text(alloc, &mut line, "rust_version", rust_version)?;
    let entries = entries(alloc, options, sections)?;
    put(&mut line, alloc, "deps", Value::from(entries))?;
    put_features(alloc, &mut line, sections, features)?;
    put_text_if(alloc, &mut line, "cksum", options.checksum)?;
    Ok(Value::from(line))
}

fn version_text(alloc: Global, version: &Inheritable<SemVer>) -> AllocResult<Option<String>>
    ensures { IfOk result (λ text. option_map string_bytes text
        ≡ option_map parts_text (value_of (inheritable_map parts_of version.now))) }
{
    match version {
        Inheritable::Set(version) => Ok(Some(format!(in alloc; "{version}")?)),
        Inheritable::Inherited => Ok(None),
    }
}

/// A text that is there, and not left to the workspace.
fn stated(text: &Option<Inheritable<String>>) -> Option<&str>
    ensures { option_copied result
        ≡ option_and_then value_of (option_map (inheritable_map string_bytes) text.now) }
{
    match text {
        Some(Inheritable::Set(text)) => Some(text.as_str()),
        _ => None,
    }
}
