//! What the texts of features' lists say, one item for each text.
ghost use Rattle.std.specs.Prelude.{◌≡◌, ◌++◌, IfOk, OnOk, map, string_bytes};
ghost use Rattle.cargo_toml_graph.specs.Action.{item_of};
ghost use Rattle.cargo_toml_features.specs.{Said.said_by, Said.texts_in, Views.listed_of};

use crate::action::{ActionText, read_action};
use crate::admit::Listing;
use std::alloc::{AllocError, Global};

/// One text of a list.
#[derive(Clone, Copy)]
pub struct ListItem<'m> {
    /// The text, taken apart.
    pub said: ActionText<'m>,
    /// Whether it acts on a dependency, and is no feature's name.
    pub acts: bool,
}

// How many texts there are.
fn count_of(listings: &[Listing<'_>]) -> usize {
    let mut count: usize = 0;
    for listing in listings {
        count = count.saturating_add(listing.actions.len());
    }
    count
}

// Adds what the texts of one list say.
fn add_items<'m>(items: &mut Vec<ListItem<'m>>, actions: &'m [String]) -> Result<(), AllocError>
    ensures { OnOk result (map said_by items.new.items
        ≡ map said_by items.old.items ++ map item_of (map string_bytes actions.now)) }
{
    for text in actions {
        let said = read_action(text.as_str());
        items.push(ListItem {
            said,
            acts: said.acts(),
        })?;
    }
    Ok(())
}

/// The items of all listings, one listing after another. It fails only when out of memory.
pub fn items_of<'m>(
    alloc: Global,
    listings: &[Listing<'m>],
) -> Result<Vec<ListItem<'m>>, AllocError>
    ensures { IfOk result
        (λ v. map said_by v.items ≡ map item_of (texts_in (listed_of listings.now))) }
{
    let mut items = Vec::with_capacity(alloc, count_of(listings))?;
    for listing in listings {
        add_items(&mut items, listing.actions)?;
    }
    Ok(items)
}
