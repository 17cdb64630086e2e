//! Which features of a table count, in what order, and what is said of them.
ghost use Rattle.std.specs.Prelude.{◌≡◌, [], IfOk, OnOk, map, take};
ghost use Rattle.cargo_toml_graph.specs.{Action.Text, Admitted.Listed, Admitted.admitted};
ghost use Rattle.cargo_toml_graph.specs.Ascending.{Ascend};
ghost use Rattle.cargo_toml_parts.specs.Reads.{map_meaning};
ghost use Rattle.cargo_toml_package.specs.Details.{detail_of};
ghost use Rattle.cargo_toml_features.specs.{FullGraph.AddsListing, Marks.detail_named};
ghost use Rattle.cargo_toml_features.specs.Marks.{detail_in, details_listed, named_details};
ghost use Rattle.cargo_toml_features.specs.{Views.listed_of, Views.listed_in, Hashed.IsListingOf};
ghost use Rattle.cargo_toml_features.specs.Hashed.{actions_at, sorted_actions_at};

use cargo_toml_package::{FeatureDetail, FeatureDetails, FeatureSet};
use std::alloc::{AllocError, Global};
use std::collections::{BTreeMap, HashMap};
use std::hash::BuildHasher;

/// How many names of a table of features count, how many actions of a feature, and how many keys of
/// a table of dependencies, where no other limit is set.
pub const MAX_ITEMS: usize = 2048;

/// A feature as a table lists it: its name and its actions, and what else is said
/// of it, if anything.
#[derive(Debug, Clone, Copy)]
pub struct Listing<'m> {
    /// The name of the feature.
    pub name: &'m str,
    /// The texts of its actions, in their order.
    pub actions: &'m [String],
    /// What the table of details says of it; `None` where it says nothing.
    pub detail: Option<&'m FeatureDetail>,
}

// The first `limit` actions, or all where there are fewer.
fn first_actions(actions: &[String], limit: usize) -> &[String]
    ensures { result.now ≡ take limit actions.now }
{
    &actions[..limit.min(actions.len())]
}

// Adds a feature with its first actions, where there is room for it or it is `default`.
fn add_listing<'m>(
    listings: &mut Vec<Listing<'m>>,
    listing: Listing<'m>,
    limit: usize,
) -> Result<(), AllocError>
    ensures { OnOk result
        (AddsListing limit listing.entry listings.old.items listings.new.items) }
{
    if listings.len() < limit || listing.name == "default" {
        let actions = first_actions(listing.actions, limit);
        listings.push(Listing { actions, ..listing })?;
    }
    Ok(())
}

// A feature of a table, with the detail of its name.
fn listing_of<'m>(name: &'m str, actions: &'m [String], details: &'m FeatureDetails) -> Listing<'m>
    ensures name { result.name.now ≡ name.now }
    ensures actions { result.actions.now ≡ actions.now }
    ensures detail { detail_in result.detail
        ≡ detail_named (map_meaning detail_of details.now) name.now }
{
    Listing {
        name,
        actions,
        detail: details.get(name),
    }
}

/// Of a table's features those that are admitted: the first `limit` names in byte order and always
/// `default`, each with its first `limit` actions, and with the detail of its name. They stand in
/// the byte order of their names. It fails only when out of memory.
pub fn listings<'m>(
    alloc: Global,
    table: &'m FeatureSet,
    details: &'m FeatureDetails,
    limit: usize,
) -> Result<Vec<Listing<'m>>, AllocError>
    ensures all { IfOk result (λ v. listed_of v.items ≡ admitted limit (listed_in table.now)) }
    ensures details { IfOk result (λ v. named_details v.items
        ≡ details_listed (listed_of v.items) (map_meaning detail_of details.now)) }
    ensures ascend { IfOk result (λ v. Ascend (map (λ l. l.name.now) v.items)) }
{
    let mut listings = Vec::with_capacity(alloc, table.len().min(limit))?;
    for (name, actions) in table {
        let listing = listing_of(name.as_str(), actions.as_slice(), details);
        add_listing(&mut listings, listing, limit)?;
    }
    Ok(listings)
}

// The features of a hashed table, in the byte order of their names.
fn in_order<'m, S: BuildHasher>(
    alloc: Global,
    table: &'m HashMap<String, Vec<String>, S>,
) -> Result<BTreeMap<&'m str, &'m [String]>, AllocError>
    ensures { IfOk result (λ m. (f : Text) → sorted_actions_at m f ≡ actions_at table.now f) }
{
    let mut sorted = BTreeMap::new(alloc);
    for (name, actions) in table {
        sorted.insert(name.as_str(), actions.as_slice())?;
    }
    Ok(sorted)
}

/// The same of a hashed table, whatever the order of its walk, without details. It fails only when
/// out of memory.
pub fn hashed_listings<'m, S: BuildHasher>(
    alloc: Global,
    table: &'m HashMap<String, Vec<String>, S>,
    limit: usize,
) -> Result<Vec<Listing<'m>>, AllocError>
    ensures all { IfOk result (λ v. (listed : Listed) → IsListingOf table.now listed
        → listed_of v.items ≡ admitted limit listed) }
    ensures details { IfOk result
        (λ v. named_details v.items ≡ details_listed (listed_of v.items) []) }
    ensures ascend { IfOk result (λ v. Ascend (map (λ l. l.name.now) v.items)) }
    ensures listed { IfOk result (λ _. (listed : Listed) × IsListingOf table.now listed) }
{
    let sorted = in_order(alloc, table)?;
    let mut listings = Vec::with_capacity(alloc, sorted.len().min(limit))?;
    for (name, actions) in &sorted {
        let listing = Listing {
            name: *name,
            actions: *actions,
            detail: None,
        };
        add_listing(&mut listings, listing, limit)?;
    }
    Ok(listings)
}
