//! Floats, of which the index of a registry has none.
ghost use Rattle.std.specs.Prelude.{◌≡◌};
ghost use Rattle.serde_json.specs.View.{items_view, members_view, view};
ghost use Rattle.serde_json.specs.Written.{has_float, items_have_float, members_have_float};

use serde_json::{Map, Value};

/// Whether a float stands in the value, at any depth.
#[cycle(floats)]
pub(super) fn has_float(value: &Value) -> bool
    ensures { result ≡ has_float (view value.now) }
{
    match value {
        Value::Number(number) => number.is_f64(),
        Value::Array(items) => items_have_float(items),
        Value::Object(members) => members_have_float(members),
        _ => false,
    }
}

#[cycle(floats)]
fn items_have_float(items: &Vec<Value>) -> bool
    ensures { result ≡ items_have_float (items_view items.now.items) }
{
    'items: for item in items {
        if has_float(item) {
            return true;
        }
    }
    false
}

#[cycle(floats)]
fn members_have_float(members: &Map<String, Value>) -> bool
    ensures { result ≡ members_have_float (members_view members.now.entries) }
{
    'members: for (_key, member) in members.iter() {
        if has_float(member) {
            return true;
        }
    }
    false
}
