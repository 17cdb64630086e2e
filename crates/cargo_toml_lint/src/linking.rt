//! Which features of a manifest turn on which.
ghost use Rattle.std.specs.Prelude.{◌≡◌, ◌↔◌, ◌⊎◌, ◌<◌, ℕ, [], IfOk, IsTrue, OnOk, bytes_eq};
ghost use Rattle.std.specs.Prelude.{length, map, string_bytes, unwrap_or};
ghost use Rattle.std.specs.Map.{lookup};
ghost use Rattle.cargo_toml.specs.Action.{item_of, Text};
ghost use Rattle.cargo_toml.specs.{Recursive.Enables, Ascending.Ascend, Manifests.held};
ghost use Rattle.cargo_toml.specs.{Views.table_in, Views.set_has, Graph.Table, Reach.Among};
ghost use Rattle.cargo_toml_features.specs.Places.{nth_text};
ghost use Rattle.cargo_toml_lint.specs.Linked.{AreFound, AreLinks, Passes, name_at};
ghost use Rattle.cargo_toml_lint.specs.Turning.{turned, turning, turning_by, turns_to};
ghost use Rattle.cargo_toml_lint.specs.{Names.held_names, Names.listed_by, Reached.Leads};

use crate::AllocResult;
use crate::known::{Known, known_names};
use crate::reach::{Reach, reach_all};
use cargo_toml::Manifest;
use cargo_toml::features::Feature;
use cargo_toml_features::action::read_action;
use cargo_toml_features::texts::{in_order, keys_in_order, place_of};
use std::alloc::Global;
use std::collections::{BTreeSet, HashMap};
use std::hash::BuildHasher;

/// The features of a manifest, as they are resolved with none removed.
pub type FeatureMap<'m, S> = HashMap<&'m str, Feature<'m>, S>;

/// The features of a manifest by the places of their names, and which turn on which.
#[derive(Drop)]
pub struct Links<'m> {
    /// Their names, in byte order.
    pub names: Vec<&'m str>,
    /// Where each leads, by places.
    pub(crate) reach: Reach,
}

// Adds the place of what a text of a list turns on, if that is a feature: what it names, or an
// optional dependency on which it acts, neither conditionally nor by `dep:`.
fn add_edge(row: &mut Vec<usize>, known: &Known<'_>, names: &[&str], text: &str) -> AllocResult<()>
    requires { Ascend (map (λ t. t.now) names.now) }
    ensures { OnOk result ((b : ℕ) → Among row.new.items b ↔ (Among row.old.items b ⊎ Passes
        names.now (λ x. turns_to (held_names known.now).optional x (item_of text.now)) b)) }
{
    let action = read_action(text);
    let is_whole = !action.is_conditional & !action.is_dep_only;
    let turns = !action.acts() | (known.optional.contains(action.target) & is_whole);
    if !turns {
        return Ok(());
    }
    let Some(place) = place_of(names, action.target) else {
        return Ok(());
    };
    row.push(place)?;
    Ok(())
}

// The texts in the list of the feature of this name: none, where the manifest doesn't list it.
fn texts_of<'k>(known: &'k Known<'_>, name: &str) -> &'k [String]
    ensures { map string_bytes result.now
        ≡ unwrap_or (lookup (bytes_eq name.now) (listed_by known.now)) [] }
{
    match known.features.get(name) {
        Some(texts) => texts.as_slice(),
        None => &[],
    }
}

// The places of what the texts in the list of the feature of this name turn on.
fn row_of(alloc: Global, known: &Known<'_>, names: &[&str], name: &str) -> AllocResult<Vec<usize>>
    requires { Ascend (map (λ t. t.now) names.now) }
    ensures { IfOk result (λ row. (b : ℕ) → Among row.items b ↔ Passes names.now
        (turned (listed_by known.now) (held_names known.now).optional name.now) b) }
{
    let mut row = Vec::new(alloc);
    let texts = texts_of(known, name);
    for text in texts {
        add_edge(&mut row, known, names, text.as_str())?;
    }
    Ok(row)
}

// The same of each name.
fn edges(alloc: Global, known: &Known<'_>, names: &[&str]) -> AllocResult<Vec<Vec<usize>>>
    requires { Ascend (map (λ t. t.now) names.now) }
    ensures len { IfOk result (λ next. length next.items ≡ length names.now) }
    ensures exact { IfOk result (λ next. (a b : ℕ) → a < length names.now
        → Leads next.items a b ↔ Passes names.now (turned (listed_by known.now)
        (held_names known.now).optional (nth_text (map (λ t. t.now) names.now) a)) b) }
{
    let mut next = Vec::with_capacity(alloc, names.len())?;
    for place in 0..names.len() {
        next.push(row_of(alloc, known, names, names[place])?)?;
    }
    Ok(next)
}

// The names of the features, in byte order.
fn names_in_order<'m, S: BuildHasher>(
    alloc: Global,
    features: &FeatureMap<'m, S>,
) -> AllocResult<Vec<&'m str>>
    ensures all { IfOk result (λ names. (f : Text) → IsTrue ((table_in features.now).has f)
        ↔ Among (map (λ t. t.now) names.items) f) }
    ensures in_order { IfOk result (λ names. Ascend (map (λ t. t.now) names.items)) }
{
    let keys = keys_in_order(alloc, features)?;
    let names: Vec<&str> = keys.iter().copied().collect(alloc)?;
    Ok(in_order(names))
}

/// Which of the features turn on which.
pub(crate) fn links_of<'m, S: BuildHasher>(
    alloc: Global,
    known: &Known<'_>,
    features: &FeatureMap<'m, S>,
) -> AllocResult<Links<'m>>
    ensures { IfOk result (AreLinks (turning_by (listed_by known.now)
        (held_names known.now).optional (table_in features.now).has)) }
{
    let names = names_in_order(alloc, features)?;
    let next = edges(alloc, known, names.as_slice())?;
    let reach = reach_all(alloc, next)?;
    Ok(Links { names, reach })
}

impl<'m> Links<'m> {
    /// Which of the features of a manifest turn on which.
    ///
    /// `features` are what the manifest resolves to with none removed. All that the manifest lists
    /// counts, also texts of a feature and keys of dependencies beyond the limit. The one refusal
    /// is out of memory.
    pub fn new<M, S: BuildHasher>(
        alloc: Global,
        manifest: &Manifest<M>,
        features: &FeatureMap<'m, S>,
    ) -> AllocResult<Links<'m>>
        ensures { IfOk result
            (AreLinks (turning (held manifest.now) (table_in features.now).has)) }
    {
        let known = known_names(alloc, manifest)?;
        links_of(alloc, &known, features)
    }

    /// The features that the one of this name turns on, itself too: none, where there is none of
    /// the name.
    pub fn turned_on(&self, alloc: Global, name: &str) -> AllocResult<BTreeSet<&'m str>>
        requires { AreFound self.now }
        ensures { IfOk result (λ s. (t : Table) → AreLinks t self.now → (x : Text)
            → IsTrue (set_has s x) ↔ (IsTrue (t.has name.now) × Enables t name.now x)) }
    {
        let mut found = BTreeSet::new(alloc);
        let Some(place) = place_of(self.names.as_slice(), name) else {
            return Ok(found);
        };
        for other in 0..self.names.len() {
            if self.reach.leads(place, other) {
                found.insert(self.name(other))?;
            }
        }
        Ok(found)
    }

    /// The name in a place.
    pub(crate) fn name(&self, place: usize) -> &'m str
        requires { place < length self.now.names.items }
        ensures { result.now ≡ name_at self.now place }
    {
        self.names[place]
    }

    /// The places of what the feature in this place turns on in one step, one for each text that
    /// does so. There are none for a place past the last. No clause says which they are.
    pub fn next(&self, place: usize) -> &[usize] {
        let row = self.reach.next.get(place);
        row.map_or(&[], |row| row.as_slice())
    }
}
