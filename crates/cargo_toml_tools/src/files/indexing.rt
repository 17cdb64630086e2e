//! The line of a registry's index.
ghost use Rattle.std.specs.Prelude.{◌≡◌, IfErr, IfOk, IfSome, IsSome, OnOk, string_bytes};
ghost use Rattle.std.specs.{Option.option_copied, Path.path_parent};
ghost use Rattle.cargo_toml.specs.{Error.Memory, Manifests.held};
ghost use Rattle.cargo_toml_tools.specs.IndexedFiles.{IsIndexFault, IsLineOf, name_of, sum_at};
ghost use Rattle.cargo_toml_tools.specs.IndexedFiles.{WritesOwnWords, sum_of};
ghost use Rattle.cargo_toml_tools.specs.Sections.{wanted_of};
ghost use Rattle.cargo_toml_tools.specs.declared.files.indexing.Fault.TheVariants as fault;

use super::alone::{Source, completed_from};
use super::reading::findings_of;
use crate::index::{IndexError, Options, index_entry};
use cargo_toml::{Error, Inheritable, Manifest};
use cargo_toml_lint::AllocResult;
use std::alloc::{AllocError, Global};
use std::collections::BTreeMap;
use std::fmt;
use std::random::RandomSource;
use std::rt::Files;

/// Why a crate has no line in an index.
#[derive(Debug, Drop)]
pub enum Fault {
    /// Its manifest doesn't read or complete.
    Manifest(Error),
    /// The index doesn't take the crate.
    Index(IndexError),
}

impl From<Error> for Fault {
    ghost from_gives = { λ inner e. e ≡ fault.Manifest inner };

    fn from(fault: Error) -> Fault {
        Fault::Manifest(fault)
    }
}

impl From<IndexError> for Fault {
    ghost from_gives = { λ inner e. e ≡ fault.Index inner };

    fn from(fault: IndexError) -> Fault {
        Fault::Index(fault)
    }
}

impl From<AllocError> for Fault {
    ghost from_gives = { λ _ e. e ≡ fault.Manifest Memory };

    fn from(fault: AllocError) -> Fault {
        Fault::Manifest(Error::from(fault))
    }
}

/// The words of the fault inside.
impl fmt::Display for Fault {
    fn fmt<W: fmt::Write>(&self, f: &mut fmt::Formatter<W>) -> fmt::Result
        ensures words { WritesOwnWords W.write_str_gives f.old result self.now f.new }
    {
        match self {
            Fault::Manifest(fault) => fault.fmt(f),
            Fault::Index(fault) => fault.fmt(f),
        }
    }
}

/// A line of an index, and the crate that it is of.
#[derive(Debug, Drop)]
pub struct Indexed {
    /// The name of the crate.
    pub name: String,
    /// The line.
    pub line: String,
}

/// The line that an index has of the crate in a text, which is completed first: an object of JSON.
/// Its checksum is the one that is asked for, or else that of `NAME-VERSION.crate` among these.
/// Refused where the text doesn't read or complete as a manifest, or the index doesn't take the
/// crate.
pub fn index_of<R: Files + RandomSource + AllocGlobal>(
    rt: &R,
    source: Source<'_>,
    options: Options<'_>,
    sums: &BTreeMap<&str, &str>,
) -> Result<Indexed, Fault>
    ensures printed { IfOk result (λ indexed. IsLineOf source.entry
        (wanted_of options.entry) (sum_at sums.now) (string_bytes indexed.name)
        (string_bytes indexed.line)) }
    ensures named { OnOk result (IsSome (path_parent source.entry.path.now)) }
    ensures refused { IfErr result (IsIndexFault source.entry (wanted_of options.entry)) }
{
    let alloc = rt.alloc();
    let held = completed_from(rt, source)?;
    let manifest = &*held.manifest;
    let found = sum_of(alloc, manifest, sums)?;
    let checksum = options.checksum.or(found);
    let findings = findings_of(rt, manifest)?;
    let options = Options {
        checksum,
        ..options
    };
    let entry = index_entry(alloc, manifest, source.text, findings.as_slice(), options)?;
    let mut line = entry.to_string(alloc)?;
    line.push_str("\n")?;
    let name = name_of(alloc, manifest)?;
    Ok(Indexed { name, line })
}

/// The name of a crate.
fn name_of(alloc: Global, manifest: &Manifest) -> AllocResult<String>
    ensures { IfOk result (λ name. IfSome (name_of (held manifest.now))
        (λ n. n ≡ string_bytes name)) }
{
    match &manifest.package {
        Some(package) => package.name.clone(),
        None => Ok(String::new(alloc)),
    }
}

/// The sum that these have of a crate's archive.
fn sum_of<'s>(
    alloc: Global,
    manifest: &Manifest,
    sums: &BTreeMap<&str, &'s str>,
) -> AllocResult<Option<&'s str>>
    ensures { IfOk result (λ sum. option_copied sum
        ≡ sum_of (sum_at sums.now) (held manifest.now)) }
{
    let Some(package) = &manifest.package else {
        return Ok(None);
    };
    let Inheritable::Set(version) = &package.version else {
        return Ok(None);
    };
    let name = package.name.as_str();
    let archive = format!(in alloc; "{name}-{version}.crate")?;
    Ok(sums.get(archive.as_str()).copied())
}
