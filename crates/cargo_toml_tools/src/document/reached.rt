//! What a feature turns on, by any number of steps.
ghost use Rattle.std.specs.Prelude.{◌≡◌, IfOk, IsTrue};
ghost use Rattle.cargo_toml.specs.{Action.IsJoin, Action.Text, Graph.Table, Views.action_at};
ghost use Rattle.cargo_toml.specs.{Views.set_has};
ghost use Rattle.cargo_toml_lint.specs.Linked.{AreFound, AreLinks};
ghost use Rattle.cargo_toml_tools.specs.Documented.{ActsOf, IsReachedFrom, is_beside};

use super::listing::is_private;
use cargo_toml::features::{DepAction, Feature};
use cargo_toml_lint::{AllocResult, FeatureMap, Links};
use cargo_toml_resolve::joining::add_actions;
use std::alloc::Global;
use std::collections::{BTreeMap, BTreeSet, HashMap};
use std::hash::BuildHasher;

/// What a feature turns on.
#[derive(Drop)]
pub struct Reached<'m> {
    /// The other features, except hidden and private ones.
    pub features: BTreeSet<&'m str>,
    /// What is done to dependencies, by their keys, joined of the feature itself and of all that it
    /// turns on, hidden and private features too.
    pub actions: BTreeMap<&'m str, DepAction<'m>>,
}

/// What the feature of this name turns on.
pub(crate) fn reach<'m, S: BuildHasher>(
    alloc: Global,
    links: &Links<'m>,
    features: &FeatureMap<'m, S>,
    name: &str,
) -> AllocResult<Reached<'m>>
    requires { AreFound links.now }
    ensures { IfOk result (λ r. (t : Table) → AreLinks t links.now
        → IsReachedFrom t features.now name.now r) }
{
    let mut names = links.turned_on(alloc, name)?;
    let actions = actions_of(alloc, features, &names)?;
    names.retain(|other| is_beside(features, name, *other));
    Ok(Reached {
        features: names,
        actions,
    })
}

/// What the features of these names do to dependencies, joined.
fn actions_of<'m, S: BuildHasher>(
    alloc: Global,
    features: &FeatureMap<'m, S>,
    names: &BTreeSet<&'m str>,
) -> AllocResult<BTreeMap<&'m str, DepAction<'m>>>
    ensures { IfOk result (λ actions. (k : Text)
        → IsJoin (ActsOf features.now (λ g. IsTrue (set_has names.now g)) k)
        (action_at actions k)) }
{
    let mut actions = BTreeMap::new(alloc);
    for name in names {
        if let Some(feature) = features.get(*name) {
            add_actions(alloc, &mut actions, &feature.enables_deps)?;
        }
    }
    Ok(actions)
}

/// Whether the last is another feature, and isn't private.
fn is_beside<S: BuildHasher>(
    features: &HashMap<&str, Feature<'_>, S>,
    name: &str,
    other: &str,
) -> bool
    ensures { result ≡ is_beside features.now name.now other.now }
{
    features
        .get(other)
        .is_some_and(|feature| feature.key != name && !is_private(feature))
}
