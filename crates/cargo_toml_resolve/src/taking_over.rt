//! What a kept feature holds once the removed ones that it passes are taken out.
ghost use Rattle.std.specs.Prelude.{◌≡◌, ◌<◌, ◌⊎◌, ℕ, Some, OnOk, length};
ghost use Rattle.cargo_toml_graph.specs.{Action.Text, Action.IsJoin, Reach.Among};
ghost use Rattle.cargo_toml_features.specs.Views.{action_at};
ghost use Rattle.cargo_toml_resolve.specs.Holding.{ComesToHold, DoesAt};

use crate::joining::add_actions;
use cargo_toml_features::features::{DepAction, Feature};
use cargo_toml_features::node::Node;
use std::alloc::{AllocError, Global};
use std::collections::{BTreeMap, BTreeSet};
use std::mem;

// The actions of the features in the passed places are joined to `own`.
fn join_passed<'m>(
    alloc: Global,
    own: &mut BTreeMap<&'m str, DepAction<'m>>,
    features: &[Feature<'m>],
    passed: &[Node],
) -> Result<(), AllocError>
    requires { (b : ℕ) → Among passed.now b → b < length features.now }
    ensures { OnOk result ((k : Text) → IsJoin (λ a. (action_at own.old k ≡ Some a)
        ⊎ DoesAt features.now (Among passed.now) k a) (action_at own.new k)) }
{
    for b in passed {
        add_actions(alloc, own, &features[b.place()].enables_deps)?;
    }
    Ok(())
}

/// A feature, which isn't one of those that it passes, comes to hold what was found for it: it has
/// these names, and does what it and the passed ones do. It fails only when out of memory.
pub(crate) fn hold<'m>(
    alloc: Global,
    features: &mut Vec<Feature<'m>>,
    at: Node,
    passed: &[Node],
    names: BTreeSet<&'m str>,
) -> Result<(), AllocError>
    requires at { at < length features.old.items }
    requires passed { (b : ℕ) → Among passed.now b → b < length features.old.items }
    requires apart { ¬ Among passed.now at }
    ensures { OnOk result (ComesToHold at passed.now names.entry
        features.old.items features.new.items) }
{
    // it does nothing meanwhile
    let feature = &mut features[at.place()];
    let mut own = mem::replace(&mut feature.enables_deps, BTreeMap::new(alloc));
    join_passed(alloc, &mut own, features.as_slice(), passed)?;
    let feature = &mut features[at.place()];
    feature.enables_deps = own;
    feature.enables_features = names;
    Ok(())
}
