//! Where no feature is removed: each learns which others enable it.
ghost use Rattle.std.specs.Prelude.{◌≡◌, ◌↔◌, ◌<◌, ℕ, IsTrue, OnOk, length};
ghost use Rattle.cargo_toml_graph.specs.{Action.Text, Graph.IsUnremoved, Graph.Table, Reach.Among};
ghost use Rattle.cargo_toml_graph.specs.Ascending.{Ascend};
ghost use Rattle.cargo_toml_features.specs.InOrder.{AreInOrder, AreTable, HaveNoEnablers, names_of};
ghost use Rattle.cargo_toml_features.specs.{InOrder.resolution_among, Views.set_has};
ghost use Rattle.cargo_toml_features.specs.Places.{nth_text};
ghost use Rattle.cargo_toml_resolve.specs.Enabling.{AreSameButEnablers, GainEnabler, LeaderBelow};
ghost use Rattle.cargo_toml_resolve.specs.{Enabling.LeadsTo, Enabling.LearnBy, Numbering.Gains};
ghost use Rattle.cargo_toml_resolve.specs.{Parts.LeadsAt, Texts.texts_now};

use crate::numbering::{Cursor, keys_of, leads_nowhere, only_name, push_actions, push_target};
use cargo_toml_features::action::add_text;
use cargo_toml_features::features::Feature;
use cargo_toml_features::node::Node;
use std::alloc::{AllocError, Global};
use std::collections::BTreeSet;

// The features of these names, other than the one in place `own`.
fn push_names(
    row: &mut Vec<Node>,
    named: &BTreeSet<&str>,
    keys: &[&str],
    own: Node,
    cursor: &mut Cursor,
) -> Result<(), AllocError>
    requires { Ascend (texts_now keys.now) }
    ensures { OnOk result (Gains (length keys.now) own
        (λ x. IsTrue (set_has named.now (nth_text (texts_now keys.now) x)))
        row.old.items row.new.items) }
{
    if named.is_empty() {
        return Ok(());
    }
    if let Some(name) = only_name(named) {
        return push_target(row, name, keys, own, cursor);
    }
    for name in named.iter() {
        push_target(row, *name, keys, own, cursor)?;
    }
    Ok(())
}

// The features that the one in place `own` enables: those that it names, and those that it acts on
// plainly. In long lists most features lead nowhere: for them no function is called.
#[inline(always)]
fn push_targets(
    row: &mut Vec<Node>,
    feature: &Feature<'_>,
    keys: &[&str],
    own: Node,
    cursor: &mut Cursor,
) -> Result<(), AllocError>
    requires { Ascend (texts_now keys.now) }
    ensures { OnOk result (Gains (length keys.now) own
        (λ x. LeadsTo feature.now (nth_text (texts_now keys.now) x))
        row.old.items row.new.items) }
{
    if leads_nowhere(feature) {
        return Ok(());
    }
    push_names(row, &feature.enables_features, keys, own, cursor)?;
    push_actions(row, &feature.enables_deps, keys, own)
}

// The source is put among what enables the feature in this place.
fn enable_at<'m>(
    features: &mut Vec<Feature<'m>>,
    at: Node,
    source: &'m str,
) -> Result<(), AllocError>
    requires { at < length features.old.items }
    ensures { OnOk result
        (GainEnabler (λ y. y ≡ at) source.now features.old.items features.new.items) }
{
    let feature = &mut features[at.place()];
    add_text(&mut feature.enabled_by, source)
}

/// The source is put among what enables each feature in the places of the row. It fails only when
/// out of memory.
pub(crate) fn enable_along<'m>(
    features: &mut Vec<Feature<'m>>,
    row: &[Node],
    source: &'m str,
) -> Result<(), AllocError>
    requires { (y : ℕ) → Among row.now y → y < length features.old.items }
    ensures { OnOk result
        (GainEnabler (Among row.now) source.now features.old.items features.new.items) }
{
    for at in row {
        enable_at(features, *at, source)?;
    }
    Ok(())
}

// Each feature learns which others lead to it.
fn learn_leaders<'m>(
    alloc: Global,
    features: &mut Vec<Feature<'m>>,
    keys: &[&'m str],
) -> Result<(), AllocError>
    requires in_order { Ascend (texts_now keys.now) }
    requires keys { texts_now keys.now ≡ names_of features.old.items }
    ensures { OnOk result (LearnBy (LeaderBelow features.old.items (length features.old.items))
        features.old.items features.new.items) }
{
    let mut row = Vec::new(alloc);
    let mut cursor = Cursor::new();
    for own in 0..keys.len() {
        row.clear();
        push_targets(&mut row, &features[own], keys, Node::at(own), &mut cursor)?;
        enable_along(features, row.as_slice(), keys[own])?;
    }
    Ok(())
}

// Whether none of the features leads anywhere.
fn lead_nowhere(features: &[Feature<'_>]) -> bool
    ensures { IsTrue result → (j : ℕ) (x : Text) → j < length features.now
        → ¬ LeadsAt features.now j x }
{
    for feature in features {
        if !leads_nowhere(feature) {
            return false;
        }
    }
    true
}

/// Each feature learns which others enable it: those that name it, and those that act plainly on
/// the dependency of its name.
///
/// The features stand in byte order, and none of them knows an enabler yet. It fails only when out
/// of memory.
pub fn set_enablers<'m>(alloc: Global, features: &mut Vec<Feature<'m>>) -> Result<(), AllocError>
    requires in_order { AreInOrder features.old.items }
    requires no_enablers { HaveNoEnablers features.old.items }
    ensures same { OnOk result (AreSameButEnablers features.old.items features.new.items) }
    ensures unremoved { OnOk result ((t : Table) → AreTable t features.old.items →
        IsUnremoved t (resolution_among features.new.items)) }
{
    // Most manifests have no feature, and in most long lists none leads to another.
    if lead_nowhere(features.as_slice()) {
        return Ok(());
    }
    let keys = keys_of(alloc, features.as_slice())?;
    learn_leaders(alloc, features, keys.as_slice())
}
