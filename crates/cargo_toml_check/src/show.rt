//! A manifest as text: TOML, or the same as JSON.
ghost use Rattle.std.specs.Prelude.{◌≡◌, IfErr, IfOk, Some, codes, string_bytes};
ghost use Rattle.serde_json.specs.Data.{array, no_members, object};
ghost use Rattle.toml.specs.{Data.table, View.array_view, View.table_view, View.view};
ghost use Rattle.cargo_toml.specs.Faults.{IsOther};
ghost use Rattle.cargo_toml.specs.{Manifests.manifest_meaning, Reread.IsTold, Reread.reread};
ghost use Rattle.cargo_toml_check.specs.Shown.{IsShownAsJson, IsUnshown, json_items, with_json};
ghost use Rattle.cargo_toml_check.specs.{Blamed.reads, Shown.IsShown, Shown.json_of};
ghost use Rattle.serde_json.specs.View.{view as json_view};

use cargo_toml::{Error, Manifest, ToValue};
use cargo_toml_depth::is_too_deep;
use cargo_toml_lint::AllocResult;
use cargo_toml_write::write::package::value_metadata;
use serde_json::{Map, Value as Json, push, put};
use std::alloc::Global;
use toml::value::Array;
use toml::{Table, Value, ser};

/// The text of a manifest, which reads again. Refused where a free value holds a float, or a date
/// that is none; and where the text nests deeper than 128 or has a key of over 80 parts, so that it
/// doesn't read.
pub fn manifest_toml(alloc: Global, manifest: &Manifest) -> Result<String, Error>
    ensures shown { IfOk result
        (λ text. IsShown (manifest_meaning view manifest.now) (string_bytes text)) }
    ensures refused { IfErr result (IsUnshown (manifest_meaning view manifest.now)) }
{
    let tree = tree_of(alloc, manifest)?;
    let text = match toml::table_to_string(alloc, &tree) {
        Ok(text) => text,
        Err(ser::Error::OutOfMemory) => return Err(Error::Memory),
        Err(ser::Error::DateInvalid) => return Err(unprinted()),
    };
    if is_too_deep(alloc, text.as_str())? {
        return Err(unprinted());
    }
    match toml::table_from_str(alloc, text.as_str()) {
        Ok(_) => Ok(text),
        Err(fault) if fault.is_memory() => Err(Error::Memory),
        Err(_) => Err(unprinted()),
    }
}

/// That a manifest has no text.
fn unprinted() -> Error
    ensures { IsOther (codes "a manifest that can't be printed") result }
{
    Error::Other("a manifest that can't be printed")
}

/// The same as an object of JSON, in which a date is a text.
pub fn manifest_json(alloc: Global, manifest: &Manifest) -> Result<String, Error>
    ensures shown { IfOk result
        (λ text. IsShownAsJson (manifest_meaning view manifest.now) (string_bytes text)) }
    ensures refused { IfErr result (IsUnshown (manifest_meaning view manifest.now)) }
{
    let tree = tree_of(alloc, manifest)?;
    let json = object_of(alloc, &tree)?;
    Ok(json.to_string(alloc)?)
}

/// The tree that a manifest is written to.
pub fn tree_of(alloc: Global, manifest: &Manifest) -> Result<Table, Error>
    ensures again { IsTold (manifest_meaning view manifest.now) → IfOk result
        (λ t. reads (table (table_view t)) ≡ Some (reread (manifest_meaning view manifest.now))) }
    ensures refused { IfErr result (IsUnshown (manifest_meaning view manifest.now)) }
{
    // a law: what is written of free values reads as these again
    value_metadata(&None);
    match manifest.to_value(alloc)? {
        Value::Table(table) => Ok(table),
        _ => Err(unprinted()),
    }
}

#[cycle(json)]
fn json_of(alloc: Global, value: &Value) -> AllocResult<Json>
    ensures { IfOk result (λ j. json_view j ≡ json_of (view value.now)) }
{
    match value {
        Value::String(text) => Json::try_from_str(alloc, text.as_str()),
        Value::Integer(number) => Ok(Json::from(*number)),
        Value::Float(_) => Ok(Json::from(())),
        Value::Boolean(flag) => Ok(Json::from(*flag)),
        Value::Datetime(date) => Ok(Json::from(format!(in alloc; "{date}")?)),
        Value::Array(items) => array_of(alloc, items),
        Value::Table(members) => object_of(alloc, members),
    }
}

#[cycle(json)]
fn array_of(alloc: Global, list: &Array) -> AllocResult<Json>
    ensures { IfOk result (λ j. json_view j ≡ array (json_items (array_view list.now))) }
{
    let mut items = Vec::new(alloc);
    'items: for item in list {
        push(&mut items, json_of(alloc, item)?)?;
    }
    Ok(Json::from(items))
}

#[cycle(json)]
fn object_of(alloc: Global, tree: &Table) -> AllocResult<Json>
    ensures { IfOk result (λ j. json_view j ≡ object (with_json (table_view tree.now) no_members)) }
{
    let mut members = Map::new(alloc);
    'members: for (key, member) in tree.iter() {
        put(&mut members, alloc, key.as_str(), json_of(alloc, member)?)?;
    }
    Ok(Json::from(members))
}
