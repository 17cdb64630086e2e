//! A manifest itself.
ghost use Rattle.std.specs.Prelude.{◌≡◌, IfErr, IfOk, OnOk, false, string_bytes};
ghost use Rattle.serde_json.specs.{Data.array, Data.no_members, Data.object, Written.compact_text};
ghost use Rattle.toml.specs.View.{array_view, table_view, view};
ghost use Rattle.cargo_toml.specs.Manifests.{manifest_meaning};
ghost use Rattle.cargo_toml_check.specs.Shown.{IsUnshown, json_items, json_of, with_json};
ghost use Rattle.cargo_toml_answers.specs.Adding.{Adds, tokens_of};
ghost use Rattle.cargo_toml_answers.specs.Answered.{IsRefusedFor, IsRefusedText, IsShownIn, Reads};
ghost use Rattle.cargo_toml_answers.specs.Refused.{IsRefusalFor};
ghost use Rattle.cargo_toml_depth.specs.Nesting.{is_too_deep};

use crate::refusal::Refusal;
use crate::texts::{answered, manifest_in, readable};
use crate::writing::{text_of, writer};
use cargo_toml::{Error, Manifest};
use cargo_toml_check::show::tree_of;
use cargo_toml_lint::AllocResult;
use json::Writer;
use std::alloc::Global;
use toml::value::Array;
use toml::{Table, Value};

/// The manifest in a text as it is written there, as an object: that of the tree which `to_value`
/// makes of it. A date is a text.
///
/// Refused where the text isn't UTF-8, nests deeper than 128, or doesn't read as a manifest; where
/// a free value is one that can't be written again; or out of memory.
pub fn manifest(alloc: Global, text: &[u8]) -> Result<String, Refusal>
    ensures shallow { OnOk result (is_too_deep text.now ≡ false) }
    ensures shown { IfOk result (λ json. Reads text.now
        (λ m. IsShownIn (manifest_meaning view m) (string_bytes json))) }
    ensures refused { IfErr result (IsRefusalFor ⊥
        (IsRefusedFor text.now (λ m. IsUnshown (manifest_meaning view m)))) }
{
    let text = readable(alloc, text)?;
    answered(alloc, text, manifest_of(alloc, text))
}

fn manifest_of(alloc: Global, text: &str) -> Result<String, Error>
    requires { is_too_deep text.now ≡ false }
    ensures shown { IfOk result (λ json. Reads text.now
        (λ m. IsShownIn (manifest_meaning view m) (string_bytes json))) }
    ensures refused { IfErr result
        (IsRefusedText text.now (λ m. IsUnshown (manifest_meaning view m))) }
{
    let held = manifest_in(alloc, text)?;
    shown(alloc, &*held.manifest)
}

/// A manifest as an object of JSON.
pub(crate) fn shown(alloc: Global, manifest: &Manifest) -> Result<String, Error>
    ensures shown { IfOk result
        (λ json. IsShownIn (manifest_meaning view manifest.now) (string_bytes json)) }
    ensures refused { IfErr result (IsUnshown (manifest_meaning view manifest.now)) }
{
    let tree = tree_of(alloc, manifest)?;
    Ok(table_json(alloc, &tree)?)
}

fn table_json(alloc: Global, tree: &Table) -> AllocResult<String>
    ensures { IfOk result (λ json. string_bytes json
        ≡ compact_text (object (with_json (table_view tree.now) no_members))) }
{
    let mut out = writer(alloc)?;
    put_table(&mut out, alloc, tree)?;
    text_of(out)
}

#[cycle(put)]
fn put_value(out: &mut Writer, alloc: Global, value: &Value) -> AllocResult<()>
    ensures { OnOk result (Adds out.old out.new (tokens_of (json_of (view value.now)))) }
{
    match value {
        Value::String(text) => out.string(text.as_str()),
        Value::Integer(number) => out.i64(*number),
        Value::Float(_) => out.null(),
        Value::Boolean(flag) => out.boolean(*flag),
        Value::Datetime(date) => out.string(format!(in alloc; "{date}")?.as_str()),
        Value::Array(items) => put_array(out, alloc, items),
        Value::Table(members) => put_table(out, alloc, members),
    }
}

#[cycle(put)]
fn put_array(out: &mut Writer, alloc: Global, list: &Array) -> AllocResult<()>
    ensures { OnOk result
        (Adds out.old out.new (tokens_of (array (json_items (array_view list.now))))) }
{
    out.begin_array()?;
    'items: for item in list {
        put_value(out, alloc, item)?;
    }
    out.end_array()?;
    Ok(())
}

#[cycle(put)]
fn put_table(out: &mut Writer, alloc: Global, tree: &Table) -> AllocResult<()>
    ensures { OnOk result
        (Adds out.old out.new (tokens_of (object (with_json (table_view tree.now) no_members)))) }
{
    out.begin_object()?;
    'members: for (key, member) in tree.iter() {
        out.key(key.as_str())?;
        put_value(out, alloc, member)?;
    }
    out.end_object()?;
    Ok(())
}
