//! Values of JSON that several tools make.
ghost use Rattle.std.specs.Prelude.{◌≡◌, IfOk, OnOk, map, string_bytes};
ghost use Rattle.std.specs.Option.{option_copied};
ghost use Rattle.serde_json.specs.{Data.put as with_member, View.members_view, View.view};
ghost use Rattle.cargo_toml_tools.specs.IndexEntries.{rows_if, text_array, text_or_null, with_rows};

use cargo_toml_lint::AllocResult;
use serde_json::{Map, Value, push, put};
use std::alloc::Global;

/// Puts a text under a key, or `null` where there is none.
pub fn put_text(
    alloc: Global,
    object: &mut Map<String, Value>,
    key: &str,
    text: Option<&str>,
) -> AllocResult<()>
    ensures { OnOk result (members_view object.new.entries
        ≡ with_member key.now (text_or_null (option_copied text.entry))
        (members_view object.old.entries)) }
{
    let value = match text {
        Some(text) => Value::try_from_str(alloc, text)?,
        None => Value::from(()),
    };
    put(object, alloc, key, value)
}

/// Puts a text under a key, where there is one.
pub fn put_text_if(
    alloc: Global,
    object: &mut Map<String, Value>,
    key: &str,
    text: Option<&str>,
) -> AllocResult<()>
    ensures { OnOk result (members_view object.new.entries
        ≡ with_rows (rows_if key.now (option_copied text.entry))
        (members_view object.old.entries)) }
{
    match text {
        Some(_) => put_text(alloc, object, key, text),
        None => Ok(()),
    }
}

/// Puts a list of texts under a key.
pub fn put_texts(
    alloc: Global,
    object: &mut Map<String, Value>,
    key: &str,
    texts: &[String],
) -> AllocResult<()>
    ensures { OnOk result (members_view object.new.entries
        ≡ with_member key.now (text_array (map string_bytes texts.now))
        (members_view object.old.entries)) }
{
    let mut items = Vec::new(alloc);
    for text in texts {
        push(&mut items, Value::try_from_str(alloc, text.as_str())?)?;
    }
    put(object, alloc, key, Value::from(items))
}

/// A list of texts.
pub fn array(alloc: Global, texts: &[&str]) -> AllocResult<Value>
    ensures { IfOk result (λ v. view v ≡ text_array (map (λ t. t.now) texts.now)) }
{
    let mut items = Vec::new(alloc);
    for text in texts {
        push(&mut items, Value::try_from_str(alloc, *text)?)?;
    }
    Ok(Value::from(items))
}
