//! What several features do to dependencies, joined.
ghost use Rattle.std.specs.Prelude.{◌≡◌, ◌||◌, if◌then◌else◌, None, Some, bytes_eq, OnOk};
ghost use Rattle.cargo_toml_graph.specs.Action.{Text, join, join_option};
ghost use Rattle.cargo_toml_features.specs.Views.{set_has, action_of, action_at};

use cargo_toml_features::action::neutral_action;
use cargo_toml_features::features::DepAction;
use std::alloc::{AllocError, Global};
use std::collections::{BTreeMap, BTreeSet};

/// The set gains the texts of the other. It fails only when out of memory.
pub fn add_all<'a>(
    texts: &mut BTreeSet<&'a str>,
    other: &BTreeSet<&'a str>,
) -> Result<(), AllocError>
    ensures { OnOk result ((x : Text) → set_has texts.new x
        ≡ (set_has texts.old x || set_has other.now x)) }
{
    for text in other.iter() {
        texts.insert(*text)?;
    }
    Ok(())
}

// Both actions as one.
fn merge<'a>(own: &mut DepAction<'a>, other: &DepAction<'a>) -> Result<(), AllocError>
    ensures { OnOk result (action_of own.new ≡ join (action_of own.old) (action_of other.now)) }
{
    own.is_conditional &= other.is_conditional;
    own.is_dep_only |= other.is_dep_only;
    add_all(&mut own.dep_features, &other.dep_features)
}

// The action is joined to the one that its dependency has, if any.
fn add_action<'a>(
    alloc: Global,
    own: &mut BTreeMap<&'a str, DepAction<'a>>,
    key: &'a str,
    action: &DepAction<'a>,
) -> Result<(), AllocError>
    ensures { OnOk result ((k : Text) → action_at own.new k ≡ join_option (action_at own.old k)
        (if bytes_eq k key.now then Some (action_of action.now) else None)) }
{
    let first = neutral_action(alloc);
    merge(own.entry(key)?.or_insert(first), action)
}

/// The actions of the other map are joined to those of `own`, dependency by dependency. It fails
/// only when out of memory.
pub fn add_actions<'a>(
    alloc: Global,
    own: &mut BTreeMap<&'a str, DepAction<'a>>,
    other: &BTreeMap<&'a str, DepAction<'a>>,
) -> Result<(), AllocError>
    ensures { OnOk result ((k : Text) → action_at own.new k
        ≡ join_option (action_at own.old k) (action_at other.now k)) }
{
    for (key, action) in other.iter() {
        add_action(alloc, own, *key, action)?;
    }
    Ok(())
}
