//! What is wrong with one text, or with one feature.
ghost use Rattle.std.specs.Prelude.{◌≡◌};
ghost use Rattle.cargo_toml.specs.Action.{item_of};
ghost use Rattle.cargo_toml_lint.specs.Findings.{action_fault, required_fault, text_fault};
ghost use Rattle.cargo_toml_lint.specs.{Names.held_names, Findings.is_missing, Findings.name_fault};

use crate::finding::Code;
use crate::known::Known;
use crate::names::{is_bad_text, is_never_required};
use cargo_toml_features::action::read_action;

// What is wrong with a name in the list of a feature.
fn name_fault(known: &Known<'_>, feature: &str, name: &str) -> Option<Code>
    ensures { result ≡ name_fault (held_names known.now) feature.now name.now }
{
    if name == feature {
        return Some(Code::NamesItself);
    }
    if known.lists(name) {
        return None;
    }
    if known.optional.contains(name) {
        return known.reserved.contains(name).then_some(Code::Reserved);
    }
    if known.dependencies.contains(name) {
        return Some(Code::NotOptional);
    }
    Some(Code::Unknown)
}

// What is wrong with an action on the dependency of this key, which may be marked as one on an
// optional dependency.
fn action_fault(known: &Known<'_>, key: &str, is_marked: bool) -> Option<Code>
    ensures { result ≡ action_fault (held_names known.now) key.now is_marked }
{
    if !known.dependencies.contains(key) {
        return Some(Code::Unknown);
    }
    (is_marked && !known.optional.contains(key)).then_some(Code::NotOptional)
}

/// What is wrong with a text in the list of a feature.
pub(crate) fn text_fault(known: &Known<'_>, feature: &str, text: &str) -> Option<Code>
    ensures { result ≡ text_fault (held_names known.now) feature.now text.now }
{
    if is_bad_text(text) {
        return Some(Code::BadText);
    }
    let action = read_action(text);
    if action.acts() {
        let is_marked = action.is_dep_only | action.is_conditional;
        action_fault(known, action.target, is_marked)
    } else {
        name_fault(known, feature, action.target)
    }
}

// Whether the text names no feature, or acts on no dependency.
fn is_missing(known: &Known<'_>, text: &str) -> bool
    ensures { result ≡ is_missing (held_names known.now) (item_of text.now) }
{
    let action = read_action(text);
    if action.acts() {
        !known.dependencies.contains(action.target)
    } else {
        // listed, or an optional dependency that no text names by `dep:`
        let name = action.target;
        !(known.lists(name) | (known.optional.contains(name) & !known.reserved.contains(name)))
    }
}

/// What is wrong with a text that a target requires.
pub(crate) fn required_fault(known: &Known<'_>, text: &str) -> Option<Code>
    ensures { result ≡ required_fault (held_names known.now) text.now }
{
    if is_never_required(text) {
        return Some(Code::BadRequired);
    }
    (is_bad_text(text) || is_missing(known, text)).then_some(Code::Missing)
}
