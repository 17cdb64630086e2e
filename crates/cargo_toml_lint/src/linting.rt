//! What is found of a manifest.
ghost use Rattle.std.specs.Prelude.{◌≡◌, ◌≤◌, ◌⊎◌, ◌↔◌, [], None, true, IfErr, IfOk, IsTrue, OnOk};
ghost use Rattle.std.specs.List.Sorted.{IsStrictlySortedBy};
ghost use Rattle.cargo_toml.specs.{Action.Text, Error.Memory, Graph.Table, Limits.MAX_ITEMS};
ghost use Rattle.cargo_toml.specs.{Manifests.held, Parsed.IsParsed, Reached.IsKeyed};
ghost use Rattle.cargo_toml.specs.Views.{answer_of};
ghost use Rattle.cargo_toml_lint.specs.{Findings.HoldsOf, Findings.IsFound, Linked.AreFound};
ghost use Rattle.cargo_toml_lint.specs.{Linked.AreLinks, Steps.CountsBy};
ghost use Rattle.cargo_toml_lint.specs.declared.finding.Code.{Code};

use crate::AllocResult;
use crate::finding::Finding;
use crate::gathering::{add_details, add_features, add_products};
use crate::known::known_names;
use crate::linking::{FeatureMap, Links, links_of};
use crate::tables::add_tables;
use crate::walks::{add_place, walks_of};
use cargo_toml::features::{Features, Resolver};
use cargo_toml::{Error, Manifest};
use cargo_toml_features::admit::MAX_ITEMS;
use std::alloc::Global;
use std::hash::BuildHasher;

fn keep_every(_name: &str) -> bool
    ensures { result ≡ true }
{
    true
}

/// The features of a manifest with none removed, at a limit of items, which is at least 1. The one
/// refusal is [`Error::Memory`].
pub fn resolve_whole<'m, M, S: BuildHasher + Clone + Drop>(
    alloc: Global,
    state: S,
    manifest: &'m Manifest<M>,
    limit: usize,
) -> Result<Features<'m, 'm, S>, Error>
    requires { 1 ≤ limit }
    ensures resolved { IfOk result (λ a.
        IsParsed limit (held manifest.now) (λ _. true) (answer_of a)) }
    ensures keyed { IfOk result (λ a. IsKeyed a.features) }
    ensures refused { IfErr result (λ e. e ≡ Memory) }
{
    let keep = keep_every;
    let resolver = Resolver::new_with_hasher_and_filter(state, &keep);
    let limited = resolver.with_max_items(limit);
    limited.parse(alloc, manifest)
}

// Adds what is found of the features that count, and of what they turn on.
fn add_counting<'m, S: BuildHasher>(
    found: &mut Vec<Finding<'m>>,
    links: &Links<'m>,
    features: &FeatureMap<'m, S>,
) -> AllocResult<()>
    requires { AreFound links.now }
    ensures { OnOk result ((t : Table) → AreLinks t links.now → ((f k : Text) → t.action f k ≡ None)
        → (c : Code) (f x : Text) → IsFound found.new.items c f x
        ↔ (IsFound found.old.items c f x ⊎ ((x ≡ []) × IsTrue (t.has f)
        × CountsBy features.now t c f))) }
{
    let walks = walks_of(*found.allocator(), links)?;
    for place in 0..links.names.len() {
        add_place(found, links, &walks, features, place)?;
    }
    Ok(())
}

/// What is found of the features of a manifest at a limit of items, which is at least 1.
///
/// There is a finding of a code for a feature and a text exactly where what the code says holds of
/// them, and one alone. They stand in their order: by code, then by feature and text. The one
/// refusal is [`Error::Memory`].
pub fn lint_limited<'m, M, S: BuildHasher + Clone + Drop>(
    alloc: Global,
    state: S,
    manifest: &'m Manifest<M>,
    limit: usize,
) -> Result<Vec<Finding<'m>>, Error>
    requires { 1 ≤ limit }
    ensures exact { IfOk result (λ v. (c : Code) (f t : Text) → IsFound v.items c f t
        ↔ HoldsOf limit (held manifest.now) c f t) }
    ensures in_order { IfOk result
        (λ v. IsStrictlySortedBy ⟦<Finding<'m> as Ord>⟧.cmp v.items) }
    ensures refused { IfErr result (λ e. e ≡ Memory) }
{
    let resolved = resolve_whole(alloc, state, manifest, limit)?;
    let known = known_names(alloc, manifest)?;
    let links = links_of(alloc, &known, &resolved.features)?;
    let mut found = Vec::new(alloc);
    add_features(&mut found, &known, &resolved.features, limit)?;
    add_details(&mut found, &manifest.feature_details)?;
    add_tables(&mut found, manifest, limit)?;
    add_products(&mut found, &known, manifest)?;
    add_counting(&mut found, &links, &resolved.features)?;
    found.sort_unstable();
    found.dedup();
    Ok(found)
}

/// The same at the limit of [`MAX_ITEMS`]. Who reads what strangers wrote hands in a random state,
/// as `RandomState::new(rt)?`.
pub fn lint<'m, M, S: BuildHasher + Clone + Drop>(
    alloc: Global,
    state: S,
    manifest: &'m Manifest<M>,
) -> Result<Vec<Finding<'m>>, Error>
    ensures exact { IfOk result (λ v. (c : Code) (f t : Text) → IsFound v.items c f t
        ↔ HoldsOf MAX_ITEMS (held manifest.now) c f t) }
    ensures in_order { IfOk result
        (λ v. IsStrictlySortedBy ⟦<Finding<'m> as Ord>⟧.cmp v.items) }
    ensures refused { IfErr result (λ e. e ≡ Memory) }
{
    lint_limited(alloc, state, manifest, MAX_ITEMS)
}
