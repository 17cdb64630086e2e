//! What a feature enables by any number of names.
ghost use Rattle.std.specs.Prelude.{◌≡◌, ◌≤◌, ◌∷◌, ◌++◌, [], List, length, IfErr, IfOk};
ghost use Rattle.std.specs.Prelude.{MatchOption, OnOk, Some, is_none};
ghost use Rattle.std.specs.Borrow.{Bor};
ghost use Rattle.cargo_toml_parts.specs.declared.error.Error.{Memory};
ghost use Rattle.cargo_toml_graph.specs.{Action.Text, Recursive.ArePairs};
ghost use Rattle.cargo_toml_features.specs.{declared.features.Feature.Feature, Reached.AreEnabled};
ghost use Rattle.cargo_toml_features.specs.Reached.{HaveNoEmpty, ComeFrom, IsHeldBy, IsKeyed};
ghost use Rattle.cargo_toml_features.specs.{Reached.pairs_at, Views.table_in, Views.value_at};
ghost use Rattle.cargo_toml_features.specs.Visits.{AddsPair, AddsActions, PushesNamed, PutsFound};
ghost use Rattle.cargo_toml_features.specs.Visits.{still};

use crate::features::{DepAction, Feature};
use cargo_toml_parts::Error;
use std::alloc::{AllocError, Global};
use std::collections::HashMap;
use std::hash::BuildHasher;

/// For each dependency's key, the names of the features that act on it unconditionally, each with
/// its action.
pub type DependenciesEnabledByFeatures<'f, 'a, S> = HashMap<
    &'a str,
    Vec<(&'a str, &'f DepAction<'a>)>,
    S,
>;

// Adds a pair at the end of the list under `key`.
fn add_pair<'f, 'a, S: BuildHasher>(
    alloc: Global,
    dependencies: &mut DependenciesEnabledByFeatures<'f, 'a, S>,
    key: &'a str,
    pair: (&'a str, &'f DepAction<'a>),
) -> Result<(), AllocError>
    ensures { OnOk result (AddsPair key.now pair.entry dependencies.old dependencies.new) }
{
    dependencies
        .entry(key)?
        .or_insert(Vec::new(alloc))
        .push(pair)?;
    Ok(())
}

// Adds what the feature does to dependencies, except what it does only conditionally.
fn add_actions<'f, 'a, S: BuildHasher>(
    alloc: Global,
    feature: &'f Feature<'a>,
    dependencies: &mut DependenciesEnabledByFeatures<'f, 'a, S>,
) -> Result<(), AllocError>
    ensures pairs { OnOk result (AddsActions feature.now dependencies.old dependencies.new) }
    ensures no_empty { OnOk result (HaveNoEmpty dependencies.old → HaveNoEmpty dependencies.new) }
{
    // Most features act on none, and to begin a walk over an empty map costs more than this test.
    if feature.enables_deps.is_empty() {
        return Ok(());
    }
    for (key, action) in &feature.enables_deps {
        if !action.is_conditional {
            add_pair(alloc, dependencies, *key, (feature.key, action))?;
        }
    }
    Ok(())
}

// Pushes the features that the feature names. The first in byte order comes last, so that
// it is popped first.
fn push_named<'f, 'a, S: BuildHasher>(
    feature: &'f Feature<'a>,
    features: &'f HashMap<&'a str, Feature<'a>, S>,
    pending: &mut Vec<&'f Feature<'a>>,
) -> Result<(), AllocError>
    requires { IsKeyed features.now }
    ensures { OnOk result
        (PushesNamed features.now feature.now pending.old.items pending.new.items) }
{
    for name in feature.enables_features.iter().rev() {
        if let Some(named) = features.get(*name) {
            pending.push(named)?;
        }
    }
    Ok(())
}

// Makes room where none is left, for three times as many more. By itself the map makes room for as
// many again, and so moves each twice as often.
fn make_room<'f, 'a, S: BuildHasher>(
    found: &mut HashMap<&'a str, &'f Feature<'a>, S>,
) -> Result<(), AllocError>
    ensures { OnOk result ((x : Text) → value_at found.new x ≡ value_at found.old x) }
{
    let count = found.len();
    if count == found.capacity() {
        found.reserve(count.saturating_mul(3))?;
    }
    Ok(())
}

// Puts the feature among those that are found, and answers whether it wasn't there.
fn add_found<'f, 'a, S: BuildHasher>(
    found: &mut HashMap<&'a str, &'f Feature<'a>, S>,
    feature: &'f Feature<'a>,
) -> Result<bool, AllocError>
    ensures puts { OnOk result (PutsFound feature.entry found.old found.new) }
    ensures is_new { IfOk result
        (λ is_new. is_new ≡ is_none (value_at found.old feature.now.key.now)) }
{
    make_room(found)?;
    let before = found.insert(feature.key, feature)?;
    Ok(before.is_none())
}

// What the feature's one name stands for, if it has a name and some feature has that.
fn sole_named<'f, 'a, S: BuildHasher>(
    feature: &'f Feature<'a>,
    features: &'f HashMap<&'a str, Feature<'a>, S>,
) -> Option<&'f Feature<'a>>
    requires keyed { IsKeyed features.now }
    requires sole { length feature.now.enables_features.keys ≤ 1 }
    ensures { (pending : List (Bor Feature)) → MatchOption result
        (PushesNamed features.now feature.now pending pending)
        (λ named. PushesNamed features.now feature.now pending (pending ++ named ∷ [])) }
{
    let Some(name) = feature.enables_features.first() else {
        return None;
    };
    features.get(*name)
}

// Adds the features that the feature names to those still to visit, and takes off the one that
// comes next. A single name is looked up with no walk over the set, and what it stands for isn't
// pushed: long chains are made of such features.
fn take_next<'f, 'a, S: BuildHasher>(
    feature: &'f Feature<'a>,
    features: &'f HashMap<&'a str, Feature<'a>, S>,
    pending: &mut Vec<&'f Feature<'a>>,
) -> Result<Option<&'f Feature<'a>>, AllocError>
    requires { IsKeyed features.now }
    ensures { IfOk result (λ next.
        PushesNamed features.now feature.now pending.old.items (still pending.new.items next)) }
{
    if feature.enables_features.len() > 1 {
        push_named(feature, features, pending)?;
    } else if let Some(named) = sole_named(feature, features) {
        return Ok(Some(named));
    }
    Ok(pending.pop())
}

impl<'a> Feature<'a> {
    // What the map has under this feature's key.
    fn held<'f, S: BuildHasher>(
        &self,
        features: &'f HashMap<&'a str, Feature<'a>, S>,
    ) -> &'f Feature<'a>
        requires keyed { IsKeyed features.now }
        requires start { IsHeldBy features.now self.now }
        ensures { value_at features.now self.now.key.now ≡ Some result.now }
    {
        // called for its contract: no key stands in the map twice
        let _count = features.len();
        &features[self.key]
    }

    /// What this feature enables transitively by names: the features, and what these do to
    /// dependencies, except conditionally.
    ///
    /// The first map has this feature, those that it names, those that they name, and so on, each
    /// once and under its name. A name that no feature of `features` has is passed over. So is a
    /// feature that an action alone enables, as `log/std` that of an optional `log`, though Cargo
    /// enables it.
    ///
    /// The second map has under each dependency's key one pair for each of these features that acts
    /// on it unconditionally: the feature's name and its action. It has no empty list. A
    /// conditional action, as `dependency?/feature`, isn't listed, since it doesn't enable the
    /// dependency.
    ///
    /// Each feature of `features` must stand under its own key, and this feature must be one
    /// of them, or `features` must have one under its key. That one counts where it differs
    /// from this feature.
    ///
    /// The only refusal is [`Error::Memory`]. A feature is visited once, and each of its names is
    /// then looked up once; a feature may wait for its visit once for each feature that names it.
    /// The features are visited depth first, and those that one names in byte order; the lists are
    /// in this order. It doesn't recurse, so a long chain of features needs memory and no stack.
    pub fn enables_recursive<'f, S: BuildHasher + Clone>(
        &'f self,
        alloc: Global,
        features: &'f HashMap<&'a str, Feature<'a>, S>,
    ) -> Result<
        (
            HashMap<&'a str, &'f Feature<'a>, S>,
            DependenciesEnabledByFeatures<'f, 'a, S>,
        ),
        Error,
    >
        requires keyed { IsKeyed features.now }
        requires start { IsHeldBy features.now self.now }
        ensures features { IfOk result (λ r. AreEnabled features.now self.now.key.now r.0) }
        ensures values { IfOk result (λ r. ComeFrom features.now r.0) }
        ensures dependencies { IfOk result (λ r. (k : Text) → ArePairs (table_in features.now)
            self.now.key.now k (pairs_at r.1 k)) }
        ensures no_empty { IfOk result (λ r. HaveNoEmpty r.1) }
        ensures refused { IfErr result (λ e. e ≡ Memory) }
    {
        let mut found = HashMap::with_hasher(alloc, features.hasher().clone()?);
        let mut dependencies = HashMap::with_hasher(alloc, features.hasher().clone()?);
        let mut pending = Vec::new(alloc);
        let mut next = Some(self.held(features));
        while let Some(feature) = next {
            let is_new = add_found(&mut found, feature)?;
            if is_new {
                add_actions(alloc, feature, &mut dependencies)?;
                next = take_next(feature, features, &mut pending)?;
            } else {
                next = pending.pop();
            }
        }
        Ok((found, dependencies))
    }
}
