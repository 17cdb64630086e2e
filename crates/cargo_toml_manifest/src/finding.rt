//! What is found in the folders around a manifest: first made, then put in, so that a
//! refusal changes nothing.
ghost use Rattle.std.specs.Prelude.{◌≡◌, IfOk, IfErr, IsNone, unwrap_or};
ghost use Rattle.std.specs.Option.{option_copied};
ghost use Rattle.cargo_toml_parts.specs.InheritableValues.{value_of};
ghost use Rattle.cargo_toml_parts.specs.Settings.{file_meaning};
ghost use Rattle.cargo_toml_parts.specs.declared.settings.Edition.TheVariants.{E2015};
ghost use Rattle.cargo_toml_discovery.specs.Answers.{Answers, answers_of, around_in, filled};
ghost use Rattle.cargo_toml_discovery.specs.Discovering.{discovered, discovered_meaning};
ghost use Rattle.cargo_toml_discovery.specs.Folders.{IsListed, RefusesBy};
ghost use Rattle.cargo_toml_discovery.specs.Seen.{Tells, seen};
ghost use Rattle.cargo_toml_package.specs.Packages.{held_package};
ghost use Rattle.cargo_toml_manifest.specs.Finding.{found_around, stated_by, wanted_by, with_found};
ghost use Rattle.cargo_toml_manifest.specs.Installing.{installed, taken};
ghost use Rattle.cargo_toml_manifest.specs.Manifests.{held};

use crate::afs::AbstractFilesystem;
use crate::gather::gather;
use crate::manifest::Manifest;
use cargo_toml_discovery::listings::{Listings, Wanted};
use cargo_toml_discovery::{Discovered, Stated, discover};
use cargo_toml_package::Package;
use cargo_toml_package::inheriting::NewFields;
use cargo_toml_package::sharing::NewParts;
use cargo_toml_parts::{Edition, Error, Inheritable, OptionalFile};
use std::alloc::{AllocError, Global};

/// What completion puts into a manifest.
#[derive(Drop)]
pub struct Completion {
    /// What the manifest takes from its workspace.
    pub parts: NewParts,

    /// What is found in its folders, where it has a package.
    pub found: Option<Discovered>,
}

// Which lists of the package are to be found in folders.
fn wanted<Metadata>(package: &Package<Metadata>) -> Wanted
    ensures { result ≡ wanted_by (held_package «package».now) }
{
    Wanted {
        bins: package.autobins,
        examples: package.autoexamples,
        tests: package.autotests,
        benches: package.autobenches,
    }
}

// The edition of a package that takes these fields.
fn edition<Metadata>(package: &Package<Metadata>, new: Option<&NewFields>) -> Edition
    ensures { let p = taken (held_package «package».now) (option_copied new.entry) in
        result ≡ unwrap_or (value_of p.edition) E2015 }
{
    match (new.and_then(|new| new.edition), &package.edition) {
        (Some(edition), _) => edition,
        (None, Inheritable::Set(edition)) => *edition,
        (None, Inheritable::Inherited) => Edition::E2015,
    }
}

// The readme of a package that takes these fields, or else the other.
fn readme<'a, Metadata>(
    package: &'a Package<Metadata>,
    new: Option<&'a NewFields>,
    other: &'a OptionalFile,
) -> &'a OptionalFile
    ensures { let p = taken (held_package «package».now) (option_copied new.entry) in
        file_meaning result.now ≡ unwrap_or (value_of p.readme) (file_meaning other.now) }
{
    match (new.and_then(|new| new.readme.as_ref()), &package.readme) {
        (Some(readme), _) => readme,
        (None, Inheritable::Set(readme)) => readme,
        (None, Inheritable::Inherited) => other,
    }
}

// What is found in the folders of a package that takes these fields.
fn found_in<Metadata>(
    alloc: Global,
    manifest: &Manifest<Metadata>,
    package: &Package<Metadata>,
    new: Option<&NewFields>,
    listings: &Listings,
) -> Result<Discovered, AllocError>
    ensures { let p = taken (held_package «package».now) (option_copied new.entry) in
        IfOk result (λ d. discovered_meaning d
        ≡ discovered (stated_by (held manifest.now) p)
        (around_in (answers_of listings.now) (wanted_by p))) }
{
    let no_readme = OptionalFile::Flag(false);
    let stated = Stated {
        name: package.name.as_str(),
        edition: edition(package, new),
        autolib: package.autolib,
        wanted: wanted(package),
        lib: manifest.lib.as_ref(),
        bin: manifest.bin.as_slice(),
        example: manifest.example.as_slice(),
        test: manifest.test.as_slice(),
        bench: manifest.bench.as_slice(),
        build: package.build.as_ref(),
        readme: readme(package, new, &no_readme),
    };
    discover(alloc, &stated, listings)
}

/// What is found in the folders around a manifest that takes these parts; `None` where it has no
/// package, and then nothing is asked for.
///
/// Refused as `gather` is.
pub fn find<Metadata, Fs: AbstractFilesystem>(
    alloc: Global,
    manifest: &Manifest<Metadata>,
    parts: &NewParts,
    fs: &Fs,
) -> Result<Option<Discovered>, Error>
    ensures answered { let m = installed (held manifest.now) parts.now in
        IfOk result (λ found. (answers : Answers)
        × (found_around m (filled (Fs.names_at fs.now) answers) ≡ seen (with_found m found))) }
    ensures faults { IfErr result (Tells
        (found_around (installed (held manifest.now) parts.now)
        (Fs.names_at fs.now))) }
    ensures refused { RefusesBy (IsListed (Fs.may_refuse fs.now)) result }
    ensures alone { IsNone manifest.now.«package» → result ≡ Ok None }
{
    let Some(package) = &manifest.package else {
        return Ok(None);
    };
    let listings = gather(alloc, fs, wanted(package))?;
    let found = found_in(alloc, manifest, package, parts.package.as_ref(), &listings)?;
    Ok(Some(found))
}

/// Puts what was found into the manifest, where it has a package. It takes no memory.
pub fn put_found<Metadata: Drop>(manifest: &mut Manifest<Metadata>, found: Option<Discovered>)
    ensures { held manifest.new
        ≡ with_found (held manifest.old) found }
{
    let Some(found) = found else {
        return;
    };
    let Some(package) = &mut manifest.package else {
        // By a call, since what is dropped at a function's end is looked at field by field.
        drop(found);
        return;
    };
    let Discovered {
        lib,
        bin,
        example,
        test,
        bench,
        build,
        readme,
    } = found;
    package.build = build;
    package.readme = Inheritable::Set(readme);
    manifest.lib = lib;
    manifest.bin = bin;
    manifest.example = example;
    manifest.test = test;
    manifest.bench = bench;
}
