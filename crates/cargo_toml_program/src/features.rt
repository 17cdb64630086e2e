//! The lines of resolved features.
ghost use Rattle.std.specs.Prelude.{◌≡◌, ◌++◌, IfErr, IfOk, IfSome, OnOk, string_bytes};
ghost use Rattle.cargo_toml_features.specs.Views.{value_at};
ghost use Rattle.cargo_toml_graph.specs.Action.{Text};
ghost use Rattle.cargo_toml_parts.specs.declared.error.Error.{Memory};
ghost use Rattle.cargo_toml_program.specs.Lines.{AddsLines, AreAllLines, AskedAscend};
ghost use Rattle.cargo_toml_program.specs.Lines.{FeaturesAscend};
ghost use Rattle.cargo_toml_program.specs.Lines.{FeatureAscends, KeysAscend, TextsAscend};
ghost use Rattle.cargo_toml_program.specs.Lines.{action_text, between_commas, detail_text};
ghost use Rattle.cargo_toml_program.specs.Lines.{feature_line, head_text, line_at, links_text};
ghost use Rattle.cargo_toml_program.specs.Lines.{marks_text, origin_text, privacy_text};
ghost use Rattle.cargo_toml_program.specs.Lines.{redirect_line};

use cargo_toml_features::features::{DepAction, Feature, Features};
use cargo_toml_features::texts::keys_in_order;
use cargo_toml_parts::Error;
use std::alloc::{AllocError, Global};
use std::collections::{BTreeMap, BTreeSet, HashMap};
use std::hash::BuildHasher;

/// The lines that the program prints of resolved features: one for each feature, and then one for
/// each that was removed with what stands for it, both in byte order of their names. The names,
/// keys and features within a line stand in byte order too, each once. It fails only when out of
/// memory.
pub fn feature_lines<S: BuildHasher>(
    alloc: Global,
    features: &Features<'_, '_, S>,
) -> Result<String, Error>
    ensures lines { IfOk result (λ text. AreAllLines features.now (string_bytes text)) }
    ensures in_order { OnOk result (FeaturesAscend features.now) }
    ensures refused { IfErr result (λ e. e ≡ Memory) }
{
    let mut text = String::new(alloc);
    write_all(alloc, &mut text, &features.features)?;
    write_all(alloc, &mut text, &features.hidden_features)?;
    Ok(text)
}

// What a map holds under names, each with a line of its own.
trait Shown {
    // its line under a name
    ghost line: { Text → Self → Text };

    // what it lists stands in byte order, each once
    ghost ascends: { Self → Type 0 };

    fn show(&self, text: &mut String, name: &str) -> Result<(), AllocError>
        ensures lines { OnOk result (string_bytes text.new ≡ string_bytes text.old
            ++ line name.now self.now) }
        ensures in_order { OnOk result (ascends self.now) };
}

impl Shown for Feature<'_> {
    ghost line = { λ _. feature_line };

    ghost ascends = { FeatureAscends };

    fn show(&self, text: &mut String, _name: &str) -> Result<(), AllocError> {
        write_head(text, self)?;
        write_links(text, self)?;
        write_detail(text, self)?;
        text.push_str("\n")
    }
}

impl Shown for BTreeSet<&str> {
    ghost line = { redirect_line };

    ghost ascends = { TextsAscend };

    fn show(&self, text: &mut String, name: &str) -> Result<(), AllocError> {
        text.push_str("hidden ")?;
        text.push_str(name)?;
        write_names(text, " | ", self)?;
        text.push_str("\n")
    }
}

// The lines of all that a map holds.
fn write_all<T: Shown, S: BuildHasher>(
    alloc: Global,
    text: &mut String,
    held: &HashMap<&str, T, S>,
) -> Result<(), AllocError>
    ensures lines { OnOk result (AddsLines T.line held.now
        (string_bytes text.old) (string_bytes text.new)) }
    ensures in_order { OnOk result ((f : Text) → IfSome (value_at held.now f) T.ascends) }
{
    let names = keys_in_order(alloc, held)?;
    for name in &names {
        write_one(text, held, *name)?;
    }
    Ok(())
}

// The line of what the map holds under this name, if anything.
fn write_one<T: Shown, S: BuildHasher>(
    text: &mut String,
    held: &HashMap<&str, T, S>,
    name: &str,
) -> Result<(), AllocError>
    ensures lines { OnOk result (string_bytes text.new ≡ string_bytes text.old
        ++ line_at T.line held.now name.now) }
    ensures in_order { OnOk result (IfSome (value_at held.now name.now) T.ascends) }
{
    match held.get(name) {
        Some(shown) => shown.show(text, name),
        None => Ok(()),
    }
}

// The name, and whether the manifest lists the feature.
fn write_head(text: &mut String, feature: &Feature<'_>) -> Result<(), AllocError>
    ensures { OnOk result (string_bytes text.new ≡ string_bytes text.old
        ++ head_text feature.now) }
{
    text.push_str("feature ")?;
    text.push_str(feature.key)?;
    text.push_str(origin_of(feature))
}

fn origin_of(feature: &Feature<'_>) -> &'static str
    ensures { result.now ≡ origin_text feature.now }
{
    if feature.explicit {
        " | explicit"
    } else {
        " | implied"
    }
}

// What the feature enables, and what enables or requires it.
fn write_links(text: &mut String, feature: &Feature<'_>) -> Result<(), AllocError>
    ensures lines { OnOk result (string_bytes text.new ≡ string_bytes text.old
        ++ links_text feature.now) }
    ensures in_order { OnOk result (FeatureAscends feature.now) }
{
    write_names(text, " | names: ", &feature.enables_features)?;
    write_actions(text, " | deps: ", &feature.enables_deps)?;
    write_names(text, " | by: ", &feature.enabled_by)?;
    write_list(text, " | bins: ", feature.required_by_bins.as_slice())
}

// That users aren't meant to name the feature, and its text as it is, line feeds and all.
fn write_detail(text: &mut String, feature: &Feature<'_>) -> Result<(), AllocError>
    ensures { OnOk result (string_bytes text.new ≡ string_bytes text.old
        ++ detail_text feature.now) }
{
    text.push_str(privacy_of(feature))?;
    match feature.doc {
        Some(doc) => {
            text.push_str(" | doc: ")?;
            text.push_str(doc)
        }
        None => Ok(()),
    }
}

fn privacy_of(feature: &Feature<'_>) -> &'static str
    ensures { result.now ≡ privacy_text feature.now }
{
    if feature.public { "" } else { " | private" }
}

// What follows writes a title and items with commas between them, or `-` where there are none.

fn write_list(text: &mut String, title: &str, items: &[&str]) -> Result<(), AllocError>
    ensures { OnOk result (string_bytes text.new ≡ string_bytes text.old
        ++ (title.now ++ between_commas (λ t. t.now) items.now)) }
{
    text.push_str(title)?;
    let Some((first, rest)) = items.split_first() else {
        return text.push_str("-");
    };
    text.push_str(*first)?;
    for item in rest {
        text.push_str(", ")?;
        text.push_str(*item)?;
    }
    Ok(())
}

fn write_names(text: &mut String, title: &str, names: &BTreeSet<&str>) -> Result<(), AllocError>
    ensures lines { OnOk result (string_bytes text.new ≡ string_bytes text.old
        ++ (title.now ++ between_commas (λ t. t.now) names.now.keys)) }
    ensures in_order { OnOk result (TextsAscend names.now) }
{
    text.push_str(title)?;
    let mut left = names.iter();
    let Some(first) = left.next() else {
        return text.push_str("-");
    };
    text.push_str(*first)?;
    for name in left {
        text.push_str(", ")?;
        text.push_str(*name)?;
    }
    Ok(())
}

fn write_actions(
    text: &mut String,
    title: &str,
    actions: &BTreeMap<&str, DepAction<'_>>,
) -> Result<(), AllocError>
    ensures lines { OnOk result (string_bytes text.new ≡ string_bytes text.old
        ++ (title.now ++ between_commas action_text actions.now.entries)) }
    ensures in_order { OnOk result (KeysAscend actions.now) }
    ensures asked { OnOk result (AskedAscend actions.now.entries) }
{
    text.push_str(title)?;
    let mut left = actions.iter();
    let Some((key, action)) = left.next() else {
        return text.push_str("-");
    };
    write_action(text, *key, action)?;
    for (key, action) in left {
        text.push_str(", ")?;
        write_action(text, *key, action)?;
    }
    Ok(())
}

// The dependency's key, `?` if the action is conditional, `!` if it is dep-only, then each of its
// features after a slash.
fn write_action(text: &mut String, key: &str, action: &DepAction<'_>) -> Result<(), AllocError>
    ensures lines { OnOk result (string_bytes text.new ≡ string_bytes text.old
        ++ action_text (key.entry, action.now)) }
    ensures in_order { OnOk result (TextsAscend action.now.dep_features) }
{
    text.push_str(key)?;
    text.push_str(marks_of(action))?;
    for feature in &action.dep_features {
        text.push_str("/")?;
        text.push_str(*feature)?;
    }
    Ok(())
}

fn marks_of(action: &DepAction<'_>) -> &'static str
    ensures { result.now ≡ marks_text action.now }
{
    match (action.is_conditional, action.is_dep_only) {
        (true, true) => "?!",
        (true, false) => "?",
        (false, true) => "!",
        (false, false) => "",
    }
}
