//! Products that are found in a folder.
ghost use Rattle.std.specs.Prelude.{◌≡◌, ◌++◌, ◌||◌, List, filter, Option, OnOk, IfOk};
ghost use Rattle.std.specs.List.{cons_option};
ghost use Rattle.cargo_toml_discovery.specs.Discovering.{meanings, product_lent};
ghost use Rattle.cargo_toml_discovery.specs.Found.{offer_of, Offered, has_path, is_path_of};
ghost use Rattle.cargo_toml_discovery.specs.Found.{is_text, last_waiting, waits_or};
ghost use Rattle.cargo_toml_discovery.specs.Found.{product_for, open_offer, offers, found};
ghost use Rattle.cargo_toml_discovery.specs.Names.{Name};
ghost use Rattle.cargo_toml_discovery.specs.Walk.{named_of, all_named, offer_parts};
ghost use Rattle.cargo_toml_discovery.specs.Walk.{parts_of_code, waiting_in, is_path_in};
ghost use Rattle.cargo_toml_discovery.specs.Walk.{walked, IsOffer, NamesAscend};
ghost use Rattle.cargo_toml_parts.specs.Products.{product_meaning};

use crate::listings::Entry;
use crate::names::{in_folder, is_source, stem};
use crate::products::{copied, sort_products};
use cargo_toml_parts::{Edition, Product};
use std::alloc::{AllocError, Global};
use std::collections::{BTreeMap, BTreeSet};

/// A list of products that a manifest states.
#[derive(Clone, Copy, Debug)]
pub struct StatedList<'a> {
    /// The folder of such products.
    pub folder: &'a str,
    /// Whether more are found there.
    pub is_wanted: bool,
    /// The products.
    pub products: &'a [Product],
}

/// A main file that is there, and the name of its product.
#[derive(Debug, Drop)]
pub struct Offer {
    /// The name of the product.
    pub name: String,
    /// The path of the file.
    pub path: String,
}

// What a name in a folder offers.
fn offer_for(alloc: Global, folder: &str, entry: &Entry<'_>) -> Result<Option<Offer>, AllocError>
    ensures { IfOk result (IsOffer (offer_of folder.now (named_of entry.now))) }
{
    let name = entry.name;
    if is_source(name) {
        return Ok(Some(Offer {
            name: String::from_str(alloc, stem(name))?,
            path: in_folder(alloc, folder, name)?,
        }));
    }
    if entry.has_main {
        let mut path = in_folder(alloc, folder, name)?;
        path.push_str("/main.rs")?;
        return Ok(Some(Offer {
            name: String::from_str(alloc, name)?,
            path,
        }));
    }
    Ok(None)
}

// Puts the path of a product into a set of paths, if it has one.
fn add_path<'a>(paths: &mut BTreeSet<&'a str>, product: &'a Product) -> Result<(), AllocError>
    ensures ok { OnOk result ((t : Name) → is_path_in paths.new t
        ≡ (is_path_in paths.old t || is_text t (product_meaning product.now).path)) }
{
    if let Some(path) = &product.path {
        paths.insert(path.as_str())?;
    }
    Ok(())
}

// The paths of the products.
fn paths_of<'a>(alloc: Global, products: &'a [Product]) -> Result<BTreeSet<&'a str>, AllocError>
    ensures { IfOk result
        (λ s. (t : Name) → is_path_in s t ≡ is_path_of (meanings products.now) t) }
{
    let mut paths = BTreeSet::new(alloc);
    for product in products {
        add_path(&mut paths, product)?;
    }
    Ok(paths)
}

// Copies of the products that have a path.
fn staying(alloc: Global, products: &[Product]) -> Result<Vec<Product>, AllocError>
    ensures { IfOk result (λ v. meanings v.items ≡ filter has_path (meanings products.now)) }
{
    let mut list = Vec::new(alloc);
    for product in products {
        if product.path.is_some() {
            list.push(copied(product)?)?;
        }
    }
    Ok(list)
}

// Lets a product wait, if it has a name and no path.
fn wait<'a>(
    map: &mut BTreeMap<&'a str, &'a Product>,
    product: &'a Product,
) -> Result<(), AllocError>
    ensures ok { OnOk result ((n : Name)
        → waiting_in map.new n ≡ waits_or (product_meaning product.now) n (waiting_in map.old n)) }
{
    if product.path.is_none() {
        if let Some(name) = &product.name {
            map.insert(name.as_str(), product)?;
        }
    }
    Ok(())
}

// The products that wait for a file, the last of each name.
fn waiting<'a>(
    alloc: Global,
    products: &'a [Product],
) -> Result<BTreeMap<&'a str, &'a Product>, AllocError>
    ensures { IfOk result
        (λ m. (n : Name) → waiting_in m n ≡ last_waiting (meanings products.now) n) }
{
    let mut map = BTreeMap::new(alloc);
    for product in products {
        wait(&mut map, product)?;
    }
    Ok(map)
}

// The product of an offer, where this one waits for it.
fn product_for(
    alloc: Global,
    edition: Edition,
    offer: Offer,
    waiting: Option<&Product>,
) -> Result<Product, AllocError>
    ensures { IfOk result (λ p. (o : Offered) → offer_parts o ≡ parts_of_code offer
        → product_meaning p ≡ product_for edition o (product_lent waiting.entry)) }
{
    match waiting {
        Some(product) => {
            let mut placed = copied(product)?;
            placed.path = Some(offer.path);
            Ok(placed)
        }
        None => {
            let mut product = Product::default(alloc);
            product.name = Some(offer.name);
            product.path = Some(offer.path);
            product.edition = Some(edition);
            Ok(product)
        }
    }
}

// What a name offers, unless its path is taken.
fn open_offer(
    alloc: Global,
    folder: &str,
    paths: &BTreeSet<&str>,
    entry: &Entry<'_>,
) -> Result<Option<Offer>, AllocError>
    ensures { IfOk result
        (IsOffer (open_offer folder.now (is_path_in paths.now) (named_of entry.now))) }
{
    match offer_for(alloc, folder, entry)? {
        Some(offer) if !paths.contains(offer.path.as_str()) => Ok(Some(offer)),
        _ => Ok(None),
    }
}

// The products that have their place, and those that still wait for a file.
#[derive(Debug, Drop)]
struct Placing<'a> {
    // The edition of a new product.
    edition: Edition,
    // Those that have their place.
    list: Vec<Product>,
    // Those that wait, by their names.
    still: BTreeMap<&'a str, &'a Product>,
}

// Places the product of an offer, if there is one.
fn place(alloc: Global, offer: Option<Offer>, placing: &mut Placing<'_>) -> Result<(), AllocError>
    ensures ok { OnOk result ((o : Option Offered) (os : List Offered) → IsOffer o offer
        → walked placing.new os ≡ walked placing.old (cons_option o os)) }
{
    let Some(offer) = offer else {
        return Ok(());
    };
    let waiting = placing.still.remove(offer.name.as_str());
    let product = product_for(alloc, placing.edition, offer, waiting)?;
    placing.list.push(product)?;
    Ok(())
}

// Places the products of the names, of each that offers one.
fn place_all(
    alloc: Global,
    folder: &str,
    paths: &BTreeSet<&str>,
    entries: &[Entry<'_>],
    placing: &mut Placing<'_>,
) -> Result<(), AllocError>
    ensures ok { OnOk result ((os : List Offered) → walked placing.new os ≡ walked placing.old
        (offers folder.now (is_path_in paths.now) (all_named entries.now) ++ os)) }
{
    for entry in entries {
        let offer = open_offer(alloc, folder, paths, entry)?;
        place(alloc, offer, placing)?;
    }
    Ok(())
}

/// The products of a folder whose names are these, each once and in byte order:
///
/// - those that are stated with a path;
/// - one for each offer of the folder whose path none of those has;
/// - one for `extra`, which counts as the last offer.
///
/// An offer goes to the last product that has its name and no path, unless an offer before it has
/// that name too, and else to a new product of this edition. A product without a path to which no
/// offer goes is dropped. All are in order of name and path. It fails only when out of memory.
pub fn found(
    alloc: Global,
    edition: Edition,
    stated: &StatedList<'_>,
    entries: &[Entry<'_>],
    extra: Option<Offer>,
) -> Result<Vec<Product>, AllocError>
    requires { NamesAscend (all_named entries.now) }
    ensures { IfOk result (λ v. (x : Option Offered) → IsOffer x extra → meanings v.items
        ≡ found edition stated.now.folder.now (meanings stated.now.products.now)
        (all_named entries.now) x) }
{
    let paths = paths_of(alloc, stated.products)?;
    let mut placing = Placing {
        edition,
        list: staying(alloc, stated.products)?,
        still: waiting(alloc, stated.products)?,
    };
    place_all(alloc, stated.folder, &paths, entries, &mut placing)?;
    place(alloc, extra, &mut placing)?;
    sort_products(&mut placing.list)?;
    Ok(placing.list)
}
