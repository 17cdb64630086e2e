//! What discovery makes of what a manifest states.
ghost use Rattle.std.specs.Prelude.{◌≡◌, [], Option, None, IfOk, codes};
ghost use Rattle.std.specs.Option.{option_map};
ghost use Rattle.cargo_toml_discovery.specs.Answers.{answers_of, around_in, entries_if, names_kept};
ghost use Rattle.cargo_toml_discovery.specs.Discovering.{build_in, discovered};
ghost use Rattle.cargo_toml_discovery.specs.Discovering.{discovered_meaning, filled_library};
ghost use Rattle.cargo_toml_discovery.specs.Discovering.{file_lent, found_library, library};
ghost use Rattle.cargo_toml_discovery.specs.Discovering.{listed_products, main_offer, meanings};
ghost use Rattle.cargo_toml_discovery.specs.Discovering.{product_lent, readme_in, stated_meaning};
ghost use Rattle.cargo_toml_discovery.specs.Found.{Offered};
ghost use Rattle.cargo_toml_discovery.specs.Names.{has_text};
ghost use Rattle.cargo_toml_discovery.specs.Walk.{IsOffer};
ghost use Rattle.cargo_toml_parts.specs.Settings.{file_meaning};
ghost use Rattle.cargo_toml_parts.specs.Products.{product_meaning};

use crate::found::{Offer, StatedList, found};
use crate::listings::{Listings, Wanted};
use crate::names::underscored;
use crate::products::{copied, copies, is_path_of, sort_products};
use cargo_toml_parts::duplicate::Duplicate;
use cargo_toml_parts::{Edition, OptionalFile, Product};
use std::alloc::{AllocError, Global};

/// What a manifest states of its package and of its products.
#[derive(Clone, Copy, Debug)]
pub struct Stated<'a> {
    /// The package's name.
    pub name: &'a str,
    /// The package's edition.
    pub edition: Edition,
    /// Whether a library is made where `src/lib.rs` is there and none is stated.
    pub autolib: bool,
    /// Which lists of products are found in folders.
    pub wanted: Wanted,
    /// The library.
    pub lib: Option<&'a Product>,
    /// The binaries.
    pub bin: &'a [Product],
    /// The examples.
    pub example: &'a [Product],
    /// The tests.
    pub test: &'a [Product],
    /// The benchmarks.
    pub bench: &'a [Product],
    /// The build script.
    pub build: Option<&'a OptionalFile>,
    /// The readme.
    pub readme: &'a OptionalFile,
}

/// What discovery puts into a manifest.
#[derive(Debug, Drop)]
pub struct Discovered {
    /// The library.
    pub lib: Option<Product>,
    /// The binaries.
    pub bin: Vec<Product>,
    /// The examples.
    pub example: Vec<Product>,
    /// The tests.
    pub test: Vec<Product>,
    /// The benchmarks.
    pub bench: Vec<Product>,
    /// The build script.
    pub build: Option<OptionalFile>,
    /// The readme.
    pub readme: OptionalFile,
}

// The library, where `src/lib.rs` is there or not.
fn found_library(
    alloc: Global,
    is_there: bool,
    autolib: bool,
    library: Option<&Product>,
) -> Result<Option<Product>, AllocError>
    ensures { IfOk result (λ l. option_map product_meaning l
        ≡ found_library is_there autolib (product_lent library.entry)) }
{
    let mut library = match library {
        Some(library) => copied(library)?,
        None if is_there && autolib => Product::default(alloc),
        None => return Ok(None),
    };
    if is_there && library.path.is_none() {
        library.path = Some(String::from_str(alloc, "src/lib.rs")?);
    }
    Ok(Some(library))
}

// The library with what it takes from the package.
fn filled_library(
    alloc: Global,
    name: &str,
    edition: Edition,
    library: Product,
) -> Result<Product, AllocError>
    ensures { IfOk result
        (λ p. product_meaning p ≡ filled_library name.now edition (product_meaning library)) }
{
    let mut library = library;
    if library.name.is_none() {
        library.name = Some(underscored(alloc, name)?);
    }
    library.edition = library.edition.or(Some(edition));
    if library.crate_type.is_empty() {
        library.crate_type = vec![in alloc; String::from_str(alloc, "lib")?]?;
    }
    library.required_features = Vec::new(alloc);
    Ok(library)
}

/// The library of a package: the one that is stated, with the path `src/lib.rs` where it has none
/// and that file is there, or one that is made there where `autolib` says so. It has the name of
/// the package with each `-` as `_`, its edition and the crate type `lib` where it states none, and
/// no required features. It fails only when out of memory.
pub fn library(
    alloc: Global,
    stated: &Stated<'_>,
    listings: &Listings,
) -> Result<Option<Product>, AllocError>
    ensures { IfOk result (λ l. option_map product_meaning l
        ≡ library stated.now.name.now stated.now.edition (has_text
        (names_kept listings.now (codes "src")) (codes "lib.rs")) stated.now.autolib
        (product_lent stated.now.lib)) }
{
    let is_there = listings.has("src", "lib.rs");
    match found_library(alloc, is_there, stated.autolib, stated.lib)? {
        Some(library) => Ok(Some(filled_library(alloc, stated.name, stated.edition, library)?)),
        None => Ok(None),
    }
}

// What `src/main.rs` offers, where it is there or not.
fn main_offer(
    alloc: Global,
    name: &str,
    is_there: bool,
    products: &[Product],
) -> Result<Option<Offer>, AllocError>
    ensures { IfOk result (IsOffer (main_offer name.now is_there (meanings products.now))) }
{
    if is_there && !is_path_of(products, "src/main.rs") {
        return Ok(Some(Offer {
            name: String::from_str(alloc, name)?,
            path: String::from_str(alloc, "src/main.rs")?,
        }));
    }
    Ok(None)
}

/// A list of products in order of name and path: where that is wanted, as it is found in its folder
/// and by the offer `extra`, and otherwise just those that are stated. It fails only when out of
/// memory.
pub fn list_of(
    alloc: Global,
    edition: Edition,
    list: &StatedList<'_>,
    listings: &Listings,
    extra: Option<Offer>,
) -> Result<Vec<Product>, AllocError>
    ensures { IfOk result (λ v. (x : Option Offered) → IsOffer x extra → meanings v.items
        ≡ listed_products edition list.now.is_wanted list.now.folder.now
        (meanings list.now.products.now) (entries_if list.now.is_wanted (answers_of listings.now)
        list.now.folder.now) x) }
{
    if list.is_wanted {
        let entries = listings.entries(alloc, list.folder)?;
        return found(alloc, edition, list, entries.as_slice(), extra);
    }
    let mut list = copies(alloc, list.products)?;
    sort_products(&mut list)?;
    Ok(list)
}

/// The build script: the path `build.rs` where that file stands beside the manifest, and the key
/// `build` is missing or true; otherwise what is stated. It fails only when out of memory.
pub fn build(
    alloc: Global,
    stated: Option<&OptionalFile>,
    listings: &Listings,
) -> Result<Option<OptionalFile>, AllocError>
    ensures { IfOk result (λ b. option_map file_meaning b
        ≡ build_in (names_kept listings.now []) (file_lent stated.entry)) }
{
    if let None | Some(OptionalFile::Flag(true)) = stated {
        if listings.has("", "build.rs") {
            return Ok(Some(OptionalFile::Path(String::from_str(alloc, "build.rs")?)));
        }
    }
    match stated {
        Some(file) => Ok(Some(file.duplicate(alloc)?)),
        None => Ok(None),
    }
}

/// The readme: where just that there is one is stated, the first of `README.md`, `README.txt` and
/// `README` that stands beside the manifest; otherwise, or where none does, what is stated. It
/// fails only when out of memory.
pub fn readme(
    alloc: Global,
    stated: &OptionalFile,
    listings: &Listings,
) -> Result<OptionalFile, AllocError>
    ensures { IfOk result
        (λ r. file_meaning r ≡ readme_in (names_kept listings.now []) (file_meaning stated.now)) }
{
    let OptionalFile::Flag(true) = stated else {
        return stated.duplicate(alloc);
    };
    let name = if listings.has("", "README.md") {
        "README.md"
    } else if listings.has("", "README.txt") {
        "README.txt"
    } else if listings.has("", "README") {
        "README"
    } else {
        return Ok(OptionalFile::Flag(true));
    };
    Ok(OptionalFile::Path(String::from_str(alloc, name)?))
}

// The binaries, `src/main.rs` among them where it is there and binaries are found.
fn binaries(
    alloc: Global,
    stated: &Stated<'_>,
    listings: &Listings,
) -> Result<Vec<Product>, AllocError>
    ensures { IfOk result (λ v. meanings v.items ≡ (discovered (stated_meaning stated.now)
        (around_in (answers_of listings.now) stated.now.wanted)).bin) }
{
    let has_main = stated.wanted.bins && listings.has("src", "main.rs");
    let main = main_offer(alloc, stated.name, has_main, stated.bin)?;
    let list = StatedList {
        folder: "src/bin",
        is_wanted: stated.wanted.bins,
        products: stated.bin,
    };
    Ok(list_of(alloc, stated.edition, &list, listings, main)?)
}

/// What discovery makes of what a manifest states, by the names in the folders around it that were
/// answered. It fails only when out of memory.
pub fn discover(
    alloc: Global,
    stated: &Stated<'_>,
    listings: &Listings,
) -> Result<Discovered, AllocError>
    ensures { IfOk result (λ d. discovered_meaning d
        ≡ discovered (stated_meaning stated.now)
        (around_in (answers_of listings.now) stated.now.wanted)) }
{
    let edition = stated.edition;
    let wanted = stated.wanted;
    let example = StatedList {
        folder: "examples",
        is_wanted: wanted.examples,
        products: stated.example,
    };
    let test = StatedList {
        folder: "tests",
        is_wanted: wanted.tests,
        products: stated.test,
    };
    let bench = StatedList {
        folder: "benches",
        is_wanted: wanted.benches,
        products: stated.bench,
    };
    Ok(Discovered {
        lib: library(alloc, stated, listings)?,
        bin: binaries(alloc, stated, listings)?,
        example: list_of(alloc, edition, &example, listings, None)?,
        test: list_of(alloc, edition, &test, listings, None)?,
        bench: list_of(alloc, edition, &bench, listings, None)?,
        build: build(alloc, stated.build, listings)?,
        readme: readme(alloc, stated.readme, listings)?,
    })
}
