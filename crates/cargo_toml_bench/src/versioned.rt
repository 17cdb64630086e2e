//! A tool that gives a package another version, and loses nothing else that is read. Comments,
//! layout and unknown keys aren't.
ghost use Rattle.std.specs.Prelude.{◌≡◌, IfOk, Ok, option_map, string_bytes};
ghost use Rattle.semver.specs.{Identifiers.parts_of, Parse.version_parts};
ghost use Rattle.toml.specs.{View.view, declared.value.Value.Value};
ghost use Rattle.cargo_toml.specs.{Inheritable.TheVariants.Set, Manifests.manifest_meaning};
ghost use Rattle.cargo_toml.specs.{Package.Package, Reread.IsTold};
ghost use Rattle.cargo_toml_bench.specs.Versioned.{IsPrinted, IsVersioned};

use crate::report::print::read;
use cargo_toml::{Error, Inheritable, Manifest, SemVer, ToValue, Value};
use cargo_toml_write::laws::{read_dependencies_are_told, read_manifests_are_told};
use cargo_toml_write::write::package::value_metadata;
use std::alloc::{AllocError, Global};

/// The text of the manifest that these bytes spell, with this version of its package, if it has
/// one. Where the text nests no deeper than `toml` reads, that manifest with that version is read
/// of it. All else in it is the same, unless a dependency says `workspace = false`, or the version
/// is 0.0.0.
///
/// Refuses bytes that spell no manifest, a text that is no version, and when out of memory.
pub fn with_version(alloc: Global, bytes: &[u8], version: &str) -> Result<String, Error>
    ensures { IfOk result (λ text. IsVersioned bytes.now version.now (string_bytes text)) }
{
    let version = read_version(alloc, version)?;
    let mut held = read(alloc, bytes)?;
    set_version(&mut *held.manifest, version);
    read_manifests_are_told();
    read_dependencies_are_told();
    manifest_text(alloc, &*held.manifest)
}

// The fault of a text that `semver` refused.
fn refusal(fault: semver::Error) -> Error {
    if fault == semver::Error::from(AllocError) {
        Error::Memory
    } else {
        Error::Other("no version")
    }
}

fn read_version(alloc: Global, text: &str) -> Result<SemVer, Error>
    ensures { IfOk result (λ v. version_parts text.now ≡ Ok (parts_of v)) }
{
    match SemVer::parse(alloc, text) {
        Ok(version) => Ok(version),
        Err(fault) => Err(refusal(fault)),
    }
}

// Puts the version into the package, if there is one.
fn set_version(manifest: &mut Manifest, version: SemVer)
    ensures { manifest.new ≡ record manifest.old {
      «package» = option_map (λ (p : Package Value). record p { version = Set version })
          manifest.old.«package»;
    } }
{
    if let Some(package) = &mut manifest.package {
        package.version = Inheritable::Set(version);
    }
}

// The text that a manifest is written as.
pub(crate) fn manifest_text(alloc: Global, manifest: &Manifest) -> Result<String, Error>
    ensures { IfOk result (λ text. IsTold (manifest_meaning view manifest.now)
        → IsPrinted (manifest_meaning view manifest.now) (string_bytes text)) }
{
    value_metadata(&None);
    match manifest.to_value(alloc)? {
        Value::Table(table) => match toml::table_to_string(alloc, &table) {
            Ok(text) => Ok(text),
            Err(toml::ser::Error::OutOfMemory) => Err(Error::Memory),
            Err(_) => Err(Error::Other("a manifest that can't be printed")),
        },
        _ => Err(Error::Other("a manifest that is no table")),
    }
}
