//! What the line of an index has of a crate's features.
ghost use Rattle.std.specs.Prelude.{◌≡◌, [], IfOk, OnOk, false, filter, map, true, string_bytes};
ghost use Rattle.std.specs.List.{flat_map, list_any};
ghost use Rattle.serde_json.specs.View.{members_view};
ghost use Rattle.cargo_toml.specs.{Action.Text, Action.item_of, Views.set_has};
ghost use Rattle.cargo_toml_tools.specs.IndexEntries.{feature_rows, is_extended, is_kept, is_newer};
ghost use Rattle.cargo_toml_tools.specs.IndexEntries.{kept_lists, list_rows, stays, with_rows};
ghost use Rattle.cargo_toml_tools.specs.Sections.{lists_meaning, table_of};

use super::sections::Section;
use crate::json::array;
use crate::requirement::required_version;
use cargo_toml::FeatureSet;
use cargo_toml_features::action::read_action;
use cargo_toml_features::sets::set_of;
use cargo_toml_lint::AllocResult;
use serde_json::{Map, Value, put};
use std::alloc::Global;
use std::collections::BTreeSet;

/// Puts the members that are of the features.
pub(super) fn put_features(
    alloc: Global,
    line: &mut Map<String, Value>,
    sections: &[Section<'_>],
    features: &FeatureSet,
) -> AllocResult<()>
    ensures { OnOk result (members_view line.new.entries
        ≡ with_rows (feature_rows (kept_lists (stays (map table_of sections.now))
        (lists_meaning features.now))) (members_view line.old.entries)) }
{
    let keys = kept_keys(alloc, sections)?;
    let mut first = Map::new(alloc);
    let mut second = Map::new(alloc);
    let has_second = put_lists(alloc, &mut first, &mut second, &keys, features)?;
    put(line, alloc, "features", Value::from(first))?;
    if !has_second {
        return Ok(());
    }
    put(line, alloc, "features2", Value::from(second))?;
    put(line, alloc, "v", Value::from(2u8))
}

/// Puts what stays of each list, and says whether one is extended: then `features2` has it, and in
/// `features` it is empty, so that others may name its feature.
fn put_lists(
    alloc: Global,
    first: &mut Map<String, Value>,
    second: &mut Map<String, Value>,
    keys: &BTreeSet<&str>,
    features: &FeatureSet,
) -> AllocResult<bool>
    ensures first { OnOk result (members_view first.new.entries
        ≡ with_rows (flat_map (list_rows false) (kept_lists (set_has keys.now)
        (lists_meaning features.now))) (members_view first.old.entries)) }
    ensures second { OnOk result (members_view second.new.entries
        ≡ with_rows (flat_map (list_rows true) (kept_lists (set_has keys.now)
        (lists_meaning features.now))) (members_view second.old.entries)) }
    ensures extended { IfOk result (λ some. some ≡ list_any (λ f. is_extended f.1)
        (kept_lists (set_has keys.now) (lists_meaning features.now))) }
{
    let mut has_second = false;
    for (name, texts) in features {
        let texts = kept(alloc, keys, texts.as_slice())?;
        let list = array(alloc, texts.as_slice())?;
        if !is_extended(texts.as_slice()) {
            put(first, alloc, name.as_str(), list)?;
            continue;
        }
        put(first, alloc, name.as_str(), array(alloc, &[])?)?;
        put(second, alloc, name.as_str(), list)?;
        has_second = true;
    }
    Ok(has_second)
}

/// The texts of a list that stay: no text that acts on a dependency that the line hasn't.
fn kept<'m>(alloc: Global, keys: &BTreeSet<&str>, texts: &'m [String]) -> AllocResult<Vec<&'m str>>
    ensures { IfOk result (λ v. map (λ t. t.now) v.items
        ≡ filter (is_kept (set_has keys.now)) (map string_bytes texts.now)) }
{
    let mut all = Vec::new(alloc);
    for text in texts {
        if is_kept(keys, text.as_str()) {
            all.push(text.as_str())?;
        }
    }
    Ok(all)
}

/// Whether a text of a list stays.
fn is_kept(keys: &BTreeSet<&str>, text: &str) -> bool
    ensures { result ≡ is_kept (set_has keys.now) text.now }
{
    let action = read_action(text);
    !action.acts() || keys.contains(action.target)
}

/// The keys of the dependencies that the line has.
#[tactic(auto, using(crate::proofs::Placed::keyed))]
fn kept_keys<'a>(alloc: Global, sections: &'a [Section<'a>]) -> AllocResult<BTreeSet<&'a str>>
    ensures { IfOk result (λ keys. (x : Text)
        → set_has keys x ≡ stays (map table_of sections.now) x) }
{
    let mut keys = Vec::new(alloc);
    for section in sections {
        for (key, dependency) in section.entries {
            if required_version(dependency).is_some() {
                keys.push(key.as_str())?;
            }
        }
    }
    set_of(alloc, keys.as_slice())
}

/// Whether some text of a list is of the second version of the index.
fn is_extended(texts: &[&str]) -> bool
    ensures { result ≡ is_extended (map (λ t. t.now) texts.now) }
{
    texts.iter().any(|text| is_newer(*text))
}

fn is_newer(text: &str) -> bool
    ensures { result ≡ is_newer (item_of text.now) }
{
    let action = read_action(text);
    action.acts() && (action.is_dep_only || action.is_conditional)
}
