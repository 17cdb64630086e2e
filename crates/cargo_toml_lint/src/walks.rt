//! What is found of features that turn on one another.
ghost use Rattle.std.specs.Prelude.{◌≡◌, ◌<◌, ◌↔◌, ◌⊎◌, [], None, IfOk, OnOk, length};
ghost use Rattle.cargo_toml.specs.{Action.Text, Graph.Table};
ghost use Rattle.cargo_toml_lint.specs.Linked.{AreFound, AreLinks, AreWalks, name_at};
ghost use Rattle.cargo_toml_lint.specs.{Findings.IsFound, Findings.is_hidden, Steps.CountsBy};
ghost use Rattle.cargo_toml_lint.specs.{Steps.implied_at, Steps.private_at};
ghost use Rattle.cargo_toml_lint.specs.declared.finding.Code.{Code};

use crate::AllocResult;
use crate::finding::{Code, Finding};
use crate::gathering::add_if;
use crate::linking::{FeatureMap, Links};
use std::alloc::Global;
use std::hash::BuildHasher;

// Whether users aren't meant to ask for the feature, by its name.
fn is_hidden(name: &str) -> bool
    ensures { result ≡ is_hidden name.now }
{
    name.starts_with('_')
}

// Whether an optional dependency implies the feature of this name.
fn is_implied<S: BuildHasher>(features: &FeatureMap<'_, S>, name: &str) -> bool
    ensures { result ≡ implied_at features.now name.now }
{
    features.get(name).is_some_and(|feature| !feature.explicit)
}

// Whether the feature of this name is private.
fn is_private<S: BuildHasher>(features: &FeatureMap<'_, S>, name: &str) -> bool
    ensures { result ≡ private_at features.now name.now }
{
    features.get(name).is_some_and(|feature| !feature.public)
}

/// What features lead to, as flags of their places.
#[derive(Drop)]
pub(crate) struct Walks {
    // Of those that aren't hidden, by any number of steps.
    reached: Vec<bool>,
    // Of `default`, by one.
    by_default: Vec<bool>,
    // Of the others, by one.
    by_others: Vec<bool>,
}

/// What features lead to.
pub(crate) fn walks_of(alloc: Global, links: &Links<'_>) -> AllocResult<Walks>
    requires { AreFound links.now }
    ensures { IfOk result (AreWalks links.now) }
{
    let count = links.names.len();
    let mut reached = Vec::from_elem(alloc, false, count)?;
    let mut by_default = Vec::from_elem(alloc, false, count)?;
    let mut by_others = Vec::from_elem(alloc, false, count)?;
    for a in 0..count {
        let name = links.name(a);
        let is_default = name == "default";
        links.reach.add_reached(&mut reached, a, !is_hidden(name));
        links.reach.add_named(&mut by_default, a, is_default);
        links.reach.add_named(&mut by_others, a, !is_default);
    }
    Ok(Walks {
        reached,
        by_default,
        by_others,
    })
}

/// Adds what is found of the feature in the place.
pub(crate) fn add_place<'m, S: BuildHasher>(
    found: &mut Vec<Finding<'m>>,
    links: &Links<'m>,
    walks: &Walks,
    features: &FeatureMap<'m, S>,
    place: usize,
) -> AllocResult<()>
    requires found { AreFound links.now }
    requires walks { AreWalks links.now walks.now }
    requires inside { place < length links.now.names.items }
    ensures { OnOk result ((t : Table) → AreLinks t links.now → ((f k : Text) → t.action f k ≡ None)
        → (c : Code) (f x : Text) → IsFound found.new.items c f x
        ↔ (IsFound found.old.items c f x ⊎ ((x ≡ []) × (name_at links.now place ≡ f)
        × CountsBy features.now t c f))) }
{
    let name = links.name(place);
    let is_internal = is_hidden(name) | is_private(features, name);
    let is_alone = walks.by_default[place] & !walks.by_others[place];
    let is_left_alone = is_hidden(name) & !walks.reached[place];
    add_if(found, is_implied(features, name), Code::Implied, name)?;
    add_if(found, is_internal & is_alone, Code::PrivateDefault, name)?;
    add_if(found, links.reach.is_in_ring(place), Code::Cycle, name)?;
    add_if(found, is_left_alone, Code::Unreachable, name)?;
    Ok(())
}
