//! Asking for the names in the folders around a package, each folder once.
ghost use Rattle.std.specs.Prelude.{◌≡◌, ◌⊎◌, [], IfOk, IfErr, OnOk, map, string_bytes};
ghost use Rattle.cargo_toml_parts.specs.FaultValues.{fault_of};
ghost use Rattle.cargo_toml_parts.specs.declared.error.Error.{Memory};
ghost use Rattle.cargo_toml_discovery.specs.Answers.{answers_of, around_in, filled};
ghost use Rattle.cargo_toml_discovery.specs.Around.{around, entries_at};
ghost use Rattle.cargo_toml_discovery.specs.Folders.{IsListed, RefusesBy};
ghost use Rattle.cargo_toml_manifest.specs.Gathering.{Fits, Grows, Has, HasEach, HasProducts};
ghost use Rattle.cargo_toml_manifest.specs.Gathering.{IsHeard, Listed, MayTellOneOf, RootListed};
ghost use Rattle.cargo_toml_discovery.specs.Seen.{Tells, names_at, seen};

use crate::afs::AbstractFilesystem;
use cargo_toml_discovery::listings::{Listings, Wanted, sorted_names};
use cargo_toml_parts::Error;
use std::alloc::Global;
use std::collections::{BTreeSet, HashSet};
use std::io;

// The names in a folder, in order, of what was answered for it. A fault that it isn't there counts
// as no names; any other stays as it is. It takes the answer whole, since a clause can name it
// only so.
fn names_of(
    alloc: Global,
    answer: Result<HashSet<String>, Error>,
) -> Result<BTreeSet<String>, Error>
    ensures { IsHeard answer result }
{
    match answer {
        Ok(names) => Ok(sorted_names(alloc, names)?),
        Err(fault) => match &fault {
            Error::Io(found) if found.kind() == io::ErrorKind::NotFound => Ok(BTreeSet::new(alloc)),
            _ => Err(fault),
        },
    }
}

// The names in a folder, in order; an absent one counts as empty.
fn listing<Fs: AbstractFilesystem>(
    alloc: Global,
    fs: &Fs,
    path: &str,
) -> Result<BTreeSet<String>, Error>
    ensures listed { Listed (Fs.names_at fs.now path.now) result }
    ensures refused { RefusesBy (Fs.may_refuse fs.now path.now) result }
{
    names_of(alloc, fs.file_names_in(alloc, path))
}

// The names in the folder of the package, in order.
fn root_listing<Fs: AbstractFilesystem>(alloc: Global, fs: &Fs) -> Result<BTreeSet<String>, Error>
    ensures listed { RootListed (Fs.names_at fs.now []) result }
    ensures refused { RefusesBy (Fs.may_refuse fs.now []) result }
{
    let names = fs.file_names_in(alloc, "")?;
    Ok(sorted_names(alloc, names)?)
}

// Asks for the names in a folder, unless that was done.
fn ask<Fs: AbstractFilesystem>(
    alloc: Global,
    fs: &Fs,
    path: &str,
    listings: &mut Listings,
) -> Result<(), Error>
    ensures grows { OnOk result
        (Grows (Fs.names_at fs.now) (answers_of listings.old) (answers_of listings.new)) }
    ensures has { OnOk result (Has (answers_of listings.new) path.now) }
    ensures faults { IfErr result (Tells (names_at (Fs.names_at fs.now path.now))) }
    ensures refused { RefusesBy (Fs.may_refuse fs.now path.now) result }
{
    if listings.names_at(path).is_some() {
        return Ok(());
    }
    let names = listing(alloc, fs, path)?;
    listings.keep(alloc, path, names)?;
    Ok(())
}

// Asks for each of these.
fn ask_each<Fs: AbstractFilesystem>(
    alloc: Global,
    fs: &Fs,
    paths: &[String],
    listings: &mut Listings,
) -> Result<(), Error>
    ensures grows { OnOk result
        (Grows (Fs.names_at fs.now) (answers_of listings.old) (answers_of listings.new)) }
    ensures has { OnOk result (HasEach (answers_of listings.new) (map string_bytes paths.now)) }
    ensures faults { IfErr result (λ e. (e ≡ Memory)
        ⊎ MayTellOneOf (Fs.names_at fs.now) (map string_bytes paths.now) (fault_of e)) }
    ensures refused { RefusesBy (IsListed (Fs.may_refuse fs.now)) result }
{
    for path in paths {
        ask(alloc, fs, path.as_str(), listings)?;
    }
    Ok(())
}

// Asks for a folder of products, if it is wanted, and for those in it that may hold one.
fn ask_products<Fs: AbstractFilesystem>(
    alloc: Global,
    fs: &Fs,
    is_wanted: bool,
    folder: &str,
    listings: &mut Listings,
) -> Result<(), Error>
    ensures grows { OnOk result
        (Grows (Fs.names_at fs.now) (answers_of listings.old) (answers_of listings.new)) }
    ensures has { OnOk result (HasProducts is_wanted folder.now (answers_of listings.new)) }
    ensures faults { Fits (Fs.names_at fs.now) (answers_of listings.old)
        → IfErr result (Tells (entries_at (Fs.names_at fs.now) is_wanted folder.now)) }
    ensures refused { RefusesBy (IsListed (Fs.may_refuse fs.now)) result }
{
    if !is_wanted {
        return Ok(());
    }
    ask(alloc, fs, folder, listings)?;
    let paths = listings.folders_in(alloc, folder)?;
    ask_each(alloc, fs, paths.as_slice(), listings)?;
    Ok(())
}

/// The names in the folder of a package, in `src`, in each folder of a list that is wanted, and in
/// those of its names that may be folders of a product.
///
/// The folder of the package must be there; another that is absent counts as empty. Refused by what
/// `fs` answers in place of names, the first time that this is no absent folder, and by
/// `Error::Memory` when out of memory.
pub fn gather<Fs: AbstractFilesystem>(
    alloc: Global,
    fs: &Fs,
    wanted: Wanted,
) -> Result<Listings, Error>
    ensures asked { IfOk result (λ l. around (filled (Fs.names_at fs.now) (answers_of l)) wanted
        ≡ seen (around_in (answers_of l) wanted)) }
    ensures faults { IfErr result (Tells (around (Fs.names_at fs.now) wanted)) }
    ensures refused { RefusesBy (IsListed (Fs.may_refuse fs.now)) result }
{
    let mut listings = Listings::new(alloc);
    let root = root_listing(alloc, fs)?;
    listings.keep(alloc, "", root)?;
    ask(alloc, fs, "src", &mut listings)?;
    ask_products(alloc, fs, wanted.bins, "src/bin", &mut listings)?;
    ask_products(alloc, fs, wanted.examples, "examples", &mut listings)?;
    ask_products(alloc, fs, wanted.tests, "tests", &mut listings)?;
    ask_products(alloc, fs, wanted.benches, "benches", &mut listings)?;
    Ok(listings)
}
