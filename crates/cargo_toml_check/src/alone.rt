//! A part of a manifest in a manifest of its own.
ghost use Rattle.std.specs.Prelude.{◌≡◌, IfOk, OnOk, map, option_map};
ghost use Rattle.toml.specs.{Data.member, Data.no_members, Data.string, View.table_view, View.view};
ghost use Rattle.cargo_toml.specs.Writes.{put_member};
ghost use Rattle.cargo_toml_check.specs.Alone.{alone, beside, emptied, next, part_of, table_at};

use cargo_toml_lint::AllocResult;
use cargo_toml_write::write;
use std::alloc::{AllocError, Global};
use toml::{Table, Value};

/// A step from a value to a part of it.
#[derive(Clone, Copy, Debug, PartialEq, Eq)]
pub enum Step<'t> {
    /// To what stands at a key of a table.
    Key(&'t str),
    /// To an item of an array, by its number.
    Item(usize),
}

/// Which table it is that a part stands in.
#[derive(Clone, Copy, Debug, PartialEq, Eq)]
pub enum Around {
    /// The manifest.
    Manifest,
    /// The package.
    Package,
    /// The workspace.
    Workspace,
    /// The lints, by tools.
    Lints,
    /// The lints of a tool.
    Tool,
    /// A lint.
    Lint,
    /// Another one, in which no key has to stand.
    Other,
}

/// The part of a manifest at this path in a tree of its own, in which it stands at the same path.
/// An item is the first there. Around it is nothing but what has to stand there: a package has a
/// name, and a lint a level.
pub fn alone(alloc: Global, around: Around, path: &[Step<'_>], part: &Value) -> AllocResult<Value>
    ensures { IfOk result (λ v. view v ≡ alone around (map part_of path.now) (view part.now)) }
{
    let Some((step, inner)) = path.split_first() else {
        return Ok(part.clone()?);
    };
    match *step {
        Step::Key(key) => {
            let value = alone(alloc, next(around, key), inner, part)?;
            let mut table = beside(alloc, around)?;
            put(&mut table, alloc, key, value)?;
            Ok(Value::Table(table))
        }
        Step::Item(_) => {
            let value = alone(alloc, Around::Other, inner, part)?;
            Ok(Value::Array(vec![in alloc; value]?))
        }
    }
}

/// An array or a table at this path with nothing in it but what has to stand there.
pub(crate) fn emptied(alloc: Global, path: &[Step<'_>], part: &Value) -> AllocResult<Option<Value>>
    ensures { IfOk result (λ o. option_map view o
        ≡ emptied (map part_of path.now) (view part.now)) }
{
    match part {
        Value::Array(_) => Ok(Some(Value::Array(Vec::new(alloc)))),
        Value::Table(_) => {
            let table = beside(alloc, table_at(Around::Manifest, path))?;
            Ok(Some(Value::Table(table)))
        }
        _ => Ok(None),
    }
}

/// Which table stands at a path below this one.
fn table_at(around: Around, path: &[Step<'_>]) -> Around
    ensures { result ≡ table_at around (map part_of path.now) }
{
    let Some((step, inner)) = path.split_first() else {
        return around;
    };
    match *step {
        Step::Key(key) => table_at(next(around, key), inner),
        Step::Item(_) => table_at(Around::Other, inner),
    }
}

/// Which table stands at a key.
fn next(around: Around, key: &str) -> Around
    ensures { result ≡ next around key.now }
{
    match (around, key) {
        (Around::Manifest, "package") => Around::Package,
        (Around::Manifest, "workspace") => Around::Workspace,
        (Around::Manifest | Around::Workspace, "lints") => Around::Lints,
        (Around::Lints, _) => Around::Tool,
        (Around::Tool, _) => Around::Lint,
        _ => Around::Other,
    }
}

/// What has to stand in a table beside any part.
fn beside(alloc: Global, around: Around) -> AllocResult<Table>
    ensures { IfOk result (λ t. table_view t ≡ beside around) }
{
    match around {
        Around::Package => with_text(alloc, "name", "a"),
        Around::Lint => with_text(alloc, "level", "allow"),
        _ => Ok(Table::new(alloc)),
    }
}

/// A table with this text alone.
fn with_text(alloc: Global, key: &str, text: &str) -> AllocResult<Table>
    ensures { IfOk result
        (λ t. table_view t ≡ member key.now (string text.now) no_members) }
{
    let mut table = Table::new(alloc);
    let text = String::from_str(alloc, text)?;
    put(&mut table, alloc, key, Value::String(text))?;
    Ok(table)
}

/// Puts a value at a key.
fn put(table: &mut Table, alloc: Global, key: &str, value: Value) -> AllocResult<()>
    ensures { OnOk result (table_view table.new
        ≡ put_member key.now (view value) (table_view table.old)) }
{
    write::put(table, alloc, key, value).map_err(|_| AllocError)
}
