//! What a line of an index says.
ghost use Rattle.std.specs.Prelude.{◌≡◌, IfOk, None, if◌then◌else◌, map};
ghost use Rattle.std.specs.Prelude.{option_and_then, option_map};
ghost use Rattle.std.specs.{Option.option_copied, Str.Lines.lines};
ghost use Rattle.serde_json.specs.{Find.as_bool, Find.get, View.view, Written.has_float};
ghost use Rattle.cargo_toml_check.specs.IndexFiles.{entry, entry_in, entry_of, released, text_at};
ghost use Rattle.cargo_toml_check.specs.IndexFiles.{unyanked};

use super::floats::has_float;
use cargo_toml_lint::AllocResult;
use serde_json::{Value, put};
use std::alloc::{AllocError, Global};

/// What a line of an index says of a version of a crate.
#[derive(Debug, Drop)]
pub struct Said {
    /// The name of the crate.
    pub name: String,
    /// The version, with its build metadata.
    pub version: String,
    /// Whether it is yanked.
    pub yanked: bool,
    /// The line as it is where it isn't yanked, with its keys in byte order and no space.
    pub all: String,
}

/// A line for an index, and what it says.
#[derive(Debug, Drop)]
pub struct Line {
    /// The line, without its end.
    pub text: String,
    /// What it says.
    pub said: Said,
}

/// What a line says. `None` where it is no JSON with a name and a version, or has a float, which
/// the index of a registry nowhere has. Refused out of memory.
pub fn said_by(alloc: Global, line: &str) -> AllocResult<Option<Said>>
    ensures { IfOk result (λ said. option_map entry_of said ≡ entry line.now) }
{
    match Value::from_str(alloc, line) {
        Ok(value) => said_in(alloc, value),
        Err(fault) if fault.is_memory() => Err(AllocError),
        Err(_) => Ok(None),
    }
}

fn said_in(alloc: Global, value: Value) -> AllocResult<Option<Said>>
    ensures { IfOk result (λ said. option_map entry_of said
        ≡ (if has_float (view value) then None else entry_in (view value))) }
{
    if has_float(&value) {
        return Ok(None);
    }
    let (Some(name), Some(version)) = (text_at(&value, "name"), text_at(&value, "vers")) else {
        return Ok(None);
    };
    let (name, version) = (
        String::from_str(alloc, name)?,
        String::from_str(alloc, version)?,
    );
    let yanked = flag_at(&value, "yanked").unwrap_or(false);
    let all = unyanked(alloc, value)?.to_string(alloc)?;
    Ok(Some(Said {
        name,
        version,
        yanked,
        all,
    }))
}

fn text_at<'v>(value: &'v Value, key: &str) -> Option<&'v str>
    ensures { option_copied result ≡ text_at key.now (view value.now) }
{
    value.get(key).and_then(Value::as_str)
}

fn flag_at(value: &Value, key: &str) -> Option<bool>
    ensures { result ≡ option_and_then as_bool (get key.now (view value.now)) }
{
    value.get(key).and_then(Value::as_bool)
}

/// The value as it is where it isn't yanked.
fn unyanked(alloc: Global, value: Value) -> AllocResult<Value>
    ensures { IfOk result (λ other. view other ≡ unyanked (view value)) }
{
    match value {
        Value::Object(mut members) => {
            put(&mut members, alloc, "yanked", Value::from(false))?;
            Ok(Value::Object(members))
        }
        other => Ok(other),
    }
}

/// The lines of a text, without their ends.
pub fn lines_of<'t>(alloc: Global, text: &'t str) -> AllocResult<Vec<&'t str>>
    ensures { IfOk result (λ all. map (λ l. l.now) all.items ≡ lines text.now) }
{
    text.lines().collect(alloc)
}

/// A version without its build metadata: an index has one line for all that differ in it alone.
pub fn released(version: &str) -> &str
    ensures { result.now ≡ released version.now }
{
    match version.split_once('+') {
        Some((version, _)) => version,
        None => version,
    }
}
