//! From what a manifest lists to the whole answer.
ghost use Rattle.std.specs.Prelude.{map, IfOk};
ghost use Rattle.cargo_toml_graph.specs.{Ascending.Ascend, Graph.Table};
ghost use Rattle.cargo_toml_features.specs.{FirstTarget.HaveTargets, OwnBins.own_of};
ghost use Rattle.cargo_toml_features.specs.{OwnBins.bin_requirement, Marks.named_details};
ghost use Rattle.cargo_toml_features.specs.{Reached.IsKeyed, Views.listed_of, Views.answer_of};
ghost use Rattle.cargo_toml_features.specs.InOrder.{AreInOrder, AreTable, HaveNoEnablers};
ghost use Rattle.cargo_toml_features.specs.Views.{entry_of};
ghost use Rattle.cargo_toml_resolve.specs.{Filter.HasNameFilter, KeptFeatures.AreKeptBy};
ghost use Rattle.cargo_toml_resolve.specs.Removed.{IsAnswerBy};

use crate::flags::{hidden_flags, hides_any};
use crate::hashing::hashed_dependencies;
use crate::kept::{Kept, all_kept, kept_of};
use cargo_toml_features::admit::Listing;
use cargo_toml_features::features::{Feature, Features, ParseDependency};
use cargo_toml_features::required::Requirement;
use cargo_toml_features::resolve_all;
use cargo_toml_features::unremoved::Unremoved;
use std::alloc::{AllocError, Global};
use std::hash::BuildHasher;

/// What features are resolved of.
#[derive(Clone, Copy)]
pub struct Lists<'l, 'm, 'd> {
    /// The features, in the byte order of their names, each once.
    pub listings: &'l [Listing<'m>],
    /// The entries of whatever dependency tables.
    pub entries: &'l [ParseDependency<'m, 'd>],
    /// What binaries require.
    pub requirements: &'l [Requirement<'m>],
}

// What is kept of features without those that the filter refuses. They stand in the byte order of
// their names, and none of them has its enablers yet. It fails only when out of memory, or the
// clone of `state` does.
fn kept_by<'m, F: Fn(&str) -> bool, S: BuildHasher + Clone>(
    alloc: Global,
    state: &S,
    filter: Option<&F>,
    features: Vec<Feature<'m>>,
) -> Result<Kept<'m, S>, AllocError>
    requires filter { HasNameFilter F.Fn filter }
    requires in_order { AreInOrder features.items }
    requires no_enablers { HaveNoEnablers features.items }
    ensures { IfOk result (λ l. (t : Table) → AreTable t features.entry.items →
        AreKeptBy F.Fn filter.entry t features.entry.items l.features l.hidden) }
{
    // Most manifests have no hidden feature: then no flags are made.
    if !hides_any(features.as_slice(), filter) {
        return all_kept(alloc, state, features);
    }
    let flags = hidden_flags(alloc, features.as_slice(), filter)?;
    kept_of(alloc, state, features, flags)
}

/// Resolves the listed features, and removes those whose names begin with `_`, except those that
/// the filter keeps.
///
/// Each map of the answer gets a clone of `state`; nothing is hashed before the answer stands. It
/// fails only when out of memory, or the clone does.
pub fn resolve<'m: 'd, 'd, F: Fn(&str) -> bool, S: BuildHasher + Clone>(
    alloc: Global,
    state: &S,
    filter: Option<&F>,
    lists: &Lists<'_, 'm, 'd>,
) -> Result<Features<'m, 'd, S>, AllocError>
    requires ascend { Ascend (map (λ l. l.name.now) lists.now.listings.now) }
    requires filter { HasNameFilter F.Fn filter }
    ensures resolved { IfOk result (λ a. IsAnswerBy F.Fn filter.entry
        (listed_of lists.now.listings.now) (map entry_of lists.now.entries.now)
        (named_details lists.now.listings.now)
        (own_of (map bin_requirement lists.now.requirements.now)) (answer_of a)) }
    ensures keyed { IfOk result (λ a. IsKeyed a.features) }
    ensures targets { IfOk result (λ a. HaveTargets a.dependencies) }
{
    let Unremoved {
        features,
        dependencies,
    } = resolve_all(alloc, lists.listings, lists.entries, lists.requirements)?;
    let Kept {
        features: kept,
        hidden: hidden_features,
    } = kept_by(alloc, state, filter, features)?;
    let dependencies = hashed_dependencies(state.clone()?, alloc, dependencies)?;
    Ok(Features {
        features: kept,
        dependencies,
        removed_hidden_features: !hidden_features.is_empty(),
        hidden_features,
    })
}
