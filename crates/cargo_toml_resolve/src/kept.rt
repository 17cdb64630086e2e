//! Hidden features are removed from features that stand in the byte order of their names.
ghost use Rattle.std.specs.Prelude.{◌≡◌, ◌↔◌, ◌<◌, Bool, IfOk, IsTrue, OnOk, false, length};
ghost use Rattle.cargo_toml_graph.specs.{Action.Text, Graph.IsUnremoved, Graph.Table};
ghost use Rattle.cargo_toml_features.specs.InOrder.{AreInOrder, AreTable, HaveNoEnablers};
ghost use Rattle.cargo_toml_features.specs.{InOrder.resolution_among, Views.value_at};
ghost use Rattle.cargo_toml_resolve.specs.Holding.{HasTextsOf, HaveOwnSets};
ghost use Rattle.cargo_toml_resolve.specs.{KeptFeatures.AreKept, Numbering.IsFlagged};
ghost use Rattle.cargo_toml_resolve.specs.{Numbers.IsWanted, Numbers.row_items, Placed.AreHashed};
ghost use Rattle.cargo_toml_resolve.specs.{Placed.PutsRedirect, Texts.texts_now};

use crate::enabling::set_enablers;
use crate::graph::Walked;
use crate::hashing::{hashed_features, put};
use crate::node_sets::set_of_nodes;
use crate::numbering::number;
use crate::removal::remove;
use cargo_toml_features::features::Feature;
use cargo_toml_features::node::Node;
use std::alloc::{AllocError, Global};
use std::collections::{BTreeSet, HashMap};
use std::hash::BuildHasher;

/// What is kept of features once hidden ones are removed.
#[derive(Drop)]
pub struct Kept<'m, S: BuildHasher> {
    /// The kept features by their names.
    pub features: HashMap<&'m str, Feature<'m>, S>,
    /// What stands for each removed feature, by its name.
    pub hidden: HashMap<&'m str, BTreeSet<&'m str>, S>,
}

/// All of these features by their names, in whose byte order they stand, and nothing that stands
/// for a removed one. It fails only when out of memory, or the clone of `state` does.
pub fn all_hashed<'m, S: BuildHasher + Clone>(
    alloc: Global,
    state: &S,
    features: Vec<Feature<'m>>,
) -> Result<Kept<'m, S>, AllocError>
    requires { AreInOrder features.items }
    ensures { IfOk result (λ l. (t : Table) (removed : Text → Bool)
        → IsUnremoved t (resolution_among features.entry.items)
        → ((f : Text) → ¬ IsTrue (removed f))
        → AreKept t removed features.entry.items l.features l.hidden) }
{
    let hidden = HashMap::with_hasher(alloc, state.clone()?);
    Ok(Kept {
        features: hashed_features(state.clone()?, alloc, features)?,
        hidden,
    })
}

/// What is kept of features where none is removed: nothing is numbered, and no path is walked. They
/// stand in the byte order of their names, and none of them has its enablers yet. It fails only
/// when out of memory, or the clone of `state` does.
pub fn all_kept<'m, S: BuildHasher + Clone>(
    alloc: Global,
    state: &S,
    mut features: Vec<Feature<'m>>,
) -> Result<Kept<'m, S>, AllocError>
    requires in_order { AreInOrder features.items }
    requires no_enablers { HaveNoEnablers features.items }
    ensures { IfOk result (λ l. (t : Table) (removed : Text → Bool) →
        AreTable t features.entry.items → ((f : Text) → ¬ IsTrue (removed f)) →
        AreKept t removed features.entry.items l.features l.hidden) }
{
    set_enablers(alloc, &mut features)?;
    all_hashed(alloc, state, features)
}

// The texts of a redirect, as a set: the names of the removed feature itself, where these are its
// redirect.
fn redirect_of<'m>(
    alloc: Global,
    names: BTreeSet<&'m str>,
    walked: &Walked<'m>,
    r: Node,
) -> Result<BTreeSet<&'m str>, AllocError>
    requires there { r < length walked.now.redirects }
    requires own { IsWanted walked.now.moved.items false r → HasTextsOf
        (texts_now walked.now.texts.items) (row_items walked.now.redirects r) names }
    ensures { IfOk result (HasTextsOf (texts_now walked.now.texts.items)
        (row_items walked.now.redirects r)) }
{
    if walked.moved[r.place()] {
        return set_of_nodes(alloc, walked.redirects.row(r), walked.texts.as_slice());
    }
    Ok(names)
}

// The redirect of a removed feature is put under its name.
fn put_redirect<'m, S: BuildHasher>(
    alloc: Global,
    hidden: &mut HashMap<&'m str, BTreeSet<&'m str>, S>,
    feature: Feature<'m>,
    walked: &Walked<'m>,
    r: Node,
) -> Result<(), AllocError>
    requires there { r < length walked.now.redirects }
    requires own { IsWanted walked.now.moved.items false r → HasTextsOf
        (texts_now walked.now.texts.items) (row_items walked.now.redirects r)
        feature.enables_features }
    ensures { OnOk result (PutsRedirect walked.now r feature.entry.key.now
        (value_at hidden.old) (value_at hidden.new)) }
{
    let name = feature.key;
    let redirect = redirect_of(alloc, feature.enables_features, walked, r)?;
    put(hidden, name, redirect)
}

// Kept features, and what stands for removed ones, in maps by their names. A removed feature whose
// redirect is what it names hands its own set over.
fn hashed_apart<'m, S: BuildHasher + Clone>(
    alloc: Global,
    state: &S,
    features: Vec<Feature<'m>>,
    walked: &Walked<'m>,
) -> Result<Kept<'m, S>, AllocError>
    requires count { length walked.now.redirects ≡ length features.items }
    requires own { HaveOwnSets walked.now features.items }
    requires in_order { AreInOrder features.items }
    ensures { IfOk result (λ l. AreHashed features.entry.items walked.now
        (length features.entry.items) l.features l.hidden) }
{
    let removed = walked.flags.iter().filter(|flag| **flag).count();
    let mut hidden = HashMap::with_capacity_and_hasher(alloc, removed, state.clone()?)?;
    // room for the kept alone: with room for all, a map of some sizes takes twice the memory
    let count = features.len().saturating_sub(removed);
    let mut by_name = HashMap::with_capacity_and_hasher(alloc, count, state.clone()?)?;
    let mut place = 0;
    for feature in features {
        if walked.flags[place] {
            put_redirect(alloc, &mut hidden, feature, walked, Node::at(place))?;
        } else {
            put(&mut by_name, feature.key, feature)?;
        }
        place += 1;
    }
    Ok(Kept {
        features: by_name,
        hidden,
    })
}

/// What is kept of features in the byte order of their names, once those are taken out whose flag
/// stands. There is a flag for each, and none of them has its enablers yet. It fails only when out
/// of memory, or the clone of `state` does.
pub fn kept_of<'m, S: BuildHasher + Clone>(
    alloc: Global,
    state: &S,
    mut features: Vec<Feature<'m>>,
    flags: Vec<bool>,
) -> Result<Kept<'m, S>, AllocError>
    requires in_order { AreInOrder features.items }
    requires no_enablers { HaveNoEnablers features.items }
    requires count { length flags.items ≡ length features.items }
    ensures { IfOk result (λ l. (t : Table) (removed : Text → Bool) →
        AreTable t features.entry.items →
        ((f : Text) → IsTrue (removed f) ↔ IsFlagged features.entry.items flags.items f) →
        AreKept t removed features.entry.items l.features l.hidden) }
{
    let graph = number(alloc, features.as_slice(), flags)?;
    // The removal finds what enables the others.
    let walked = remove(alloc, &mut features, graph)?;
    hashed_apart(alloc, state, features, &walked)
}
