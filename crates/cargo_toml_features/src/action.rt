//! One text of a feature's list, and what it does to a dependency.
ghost use Rattle.std.specs.Prelude.{◌≡◌, ◌||◌, if◌then◌else◌, nat_eq, codes};
ghost use Rattle.std.specs.Prelude.{bytes_eq, is_some, Some, None, IfSome, OnOk};
ghost use Rattle.std.specs.List.{starts_with, ends_with, before_first, after_first, list_any};
ghost use Rattle.cargo_toml_graph.specs.Action.{Action, Text, join, join_option, without_start};
ghost use Rattle.cargo_toml_graph.specs.Action.{without_end, is_slash, item_of};
ghost use Rattle.cargo_toml_features.specs.ActionText.{action_in, item_in};
ghost use Rattle.cargo_toml_features.specs.Views.{set_has, action_of, action_at};

use crate::features::DepAction;
use std::alloc::{AllocError, Global};
use std::collections::{BTreeMap, BTreeSet};

/// One text of a feature's list, taken apart.
///
/// Cargo knows the forms `feature`, `dep:dependency`, `dependency/feature` and
/// `dependency?/feature`. Other mixtures are read alike: what stands before the first slash loses
/// one `dep:` and then one `?`.
#[derive(Debug, Clone, Copy)]
pub struct ActionText<'a> {
    /// The name of a feature, or the key of a dependency.
    pub target: &'a str,
    /// Whether the target ends with `?`, which is taken off.
    pub is_conditional: bool,
    /// Whether the target begins with `dep:`, which is taken off once.
    pub is_dep_only: bool,
    /// What follows the first slash.
    pub dep_feature: Option<&'a str>,
}

impl ActionText<'_> {
    /// Whether the text acts on a dependency, and is no feature's name.
    pub fn acts(&self) -> bool
        ensures { result ≡ (self.now.is_dep_only || is_some self.now.dep_feature) }
    {
        self.is_dep_only || self.dep_feature.is_some()
    }
}

// The text without `dep:` at its front, and whether that stood there.
fn strip_dep(text: &str) -> (&str, bool)
    ensures rest { result.0.now ≡ without_start (codes "dep:") text.now }
    ensures found { result.1 ≡ starts_with nat_eq text.now (codes "dep:") }
{
    match text.strip_prefix("dep:") {
        Some(rest) => (rest, true),
        None => (text, false),
    }
}

// The text without `?` at its end, and whether that stood there.
fn strip_question(text: &str) -> (&str, bool)
    ensures rest { result.0.now ≡ without_end (codes "?") text.now }
    ensures found { result.1 ≡ ends_with nat_eq text.now (codes "?") }
{
    match text.strip_suffix('?') {
        Some(rest) => (rest, true),
        None => (text, false),
    }
}

/// The text up to its first slash, and what follows that slash, if there is one.
pub fn split_slash(text: &str) -> (&str, Option<&str>)
    ensures front { result.0.now ≡ before_first is_slash text.now }
    ensures found { is_some result.1 ≡ list_any is_slash text.now }
    ensures after { IfSome result.1 (λ rest. rest.now ≡ after_first is_slash text.now) }
{
    match text.split_once('/') {
        Some((front, feature)) => (front, Some(feature)),
        None => (text, None),
    }
}

/// Takes a text of a feature's list apart.
pub fn read_action(text: &str) -> ActionText<'_>
    ensures item { item_in result ≡ item_of text.now }
    ensures conditional { result.is_conditional ≡ ends_with nat_eq
        (without_start (codes "dep:") (before_first is_slash text.now)) (codes "?") }
{
    let (front, dep_feature) = split_slash(text);
    let (marked, is_dep_only) = strip_dep(front);
    let (target, is_conditional) = strip_question(marked);
    ActionText {
        target,
        is_conditional,
        is_dep_only,
        dep_feature,
    }
}

/// Puts a text into a set. It fails only when out of memory; no clause says what it then leaves.
pub fn add_text<'a>(set: &mut BTreeSet<&'a str>, text: &'a str) -> Result<(), AllocError>
    ensures { OnOk result ((x : Text) → set_has set.new x
        ≡ (set_has set.old x || bytes_eq x text.now)) }
{
    set.insert(text)?;
    Ok(())
}

impl<'a> DepAction<'a> {
    // Joins one more action on the same dependency.
    fn join(&mut self, action: ActionText<'a>) -> Result<(), AllocError>
        ensures { OnOk result (action_of self.new
            ≡ join (action_of self.old) (action_in action.entry)) }
    {
        if let Some(feature) = action.dep_feature {
            add_text(&mut self.dep_features, feature)?;
        }
        self.is_conditional &= action.is_conditional;
        self.is_dep_only |= action.is_dep_only;
        Ok(())
    }
}

/// The action that changes none that is joined to it.
pub fn neutral_action<'a>(alloc: Global) -> DepAction<'a>
    ensures { (a : Action) → join (action_of result) a ≡ a }
{
    DepAction {
        is_conditional: true,
        is_dep_only: false,
        dep_features: BTreeSet::new(alloc),
    }
}

/// Joins an action into the one that its target has, if any: the two are conditional only where
/// both are, and dep-only where one is. It fails only when out of memory; no clause says what it
/// then leaves.
pub fn join_action<'a>(
    alloc: Global,
    deps: &mut BTreeMap<&'a str, DepAction<'a>>,
    action: ActionText<'a>,
) -> Result<(), AllocError>
    ensures { OnOk result ((k : Text) → action_at deps.new k
        ≡ join_option (action_at deps.old k)
        (if bytes_eq k action.entry.target.now then Some (action_in action.entry) else None)) }
{
    let first = neutral_action(alloc);
    deps.entry(action.target)?.or_insert(first).join(action)?;
    Ok(())
}
