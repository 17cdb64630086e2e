//! Which parts of a manifest are at fault.
ghost use Rattle.std.specs.Prelude.{◌≡◌, ◌++◌, ◌↔◌, [], IfOk, IsSome, OnOk, is_none, is_some, map};
ghost use Rattle.toml.specs.View.{array_view, view, table_view};
ghost use Rattle.cargo_toml_check.specs.Alone.{part_of};
ghost use Rattle.cargo_toml_check.specs.Blamed.{blamed, blamed_items, blamed_members, blamed_parts};
ghost use Rattle.cargo_toml_check.specs.Blamed.{inner_paths, is_deep, path_of, reads, reads_alone};

use crate::alone::{Around, Step, alone, emptied};
use cargo_toml::Error;
use cargo_toml_lint::AllocResult;
use cargo_toml_manifest::HeldManifest;
use std::alloc::{AllocError, Global};
use toml::value::Array;
use toml::{Table, Value};

/// A part of a manifest that is at fault.
#[derive(Debug, Drop)]
pub struct Fault<'t> {
    /// Where the part is, from the outside in.
    pub path: Vec<Step<'t>>,
    /// Why the part doesn't read.
    pub fault: Error,
}

/// The parts of a manifest that are at fault: each that doesn't read by itself, unless it does so
/// emptied, and parts in it are at fault in its place. They stand in the order of their paths, none
/// of which has over 33 parts. There is none just where the manifest reads.
pub fn faults(alloc: Global, tree: &Value) -> AllocResult<Vec<Fault<'_>>>
    ensures found { IfOk result (λ v. map path_of v.items ≡ blamed [] (view tree.now)) }
    ensures silent { IfOk result (λ v. v.items ≡ [] ↔ IsSome (reads (view tree.now))) }
{
    let mut path = Vec::new(alloc);
    let mut found = Vec::new(alloc);
    blame(alloc, &mut path, tree, &mut found)?;
    Ok(found)
}

/// Adds what is at fault in the part at this path.
#[cycle(blame)]
fn blame<'t>(
    alloc: Global,
    path: &mut Vec<Step<'t>>,
    part: &'t Value,
    found: &mut Vec<Fault<'t>>,
) -> AllocResult<()>
    ensures stays { OnOk result (path.new.items ≡ path.old.items) }
    ensures found { OnOk result (map path_of found.new.items ≡ map path_of found.old.items
        ++ blamed (map part_of path.old.items) (view part.now)) }
{
    let Some(fault) = refusal(alloc, path.as_slice(), part)? else {
        return Ok(());
    };
    let mut inner = Vec::new(alloc);
    blame_parts(alloc, path, part, &mut inner)?;
    if inner.is_empty() {
        let path = Vec::from_slice(alloc, path.as_slice())?;
        found.push(Fault { path, fault })?;
        return Ok(());
    }
    found.append(&mut inner)?;
    Ok(())
}

/// Adds what is at fault in the parts of the part at this path, if that isn't deep, and the part
/// reads emptied.
#[cycle(blame)]
fn blame_parts<'t>(
    alloc: Global,
    path: &mut Vec<Step<'t>>,
    part: &'t Value,
    found: &mut Vec<Fault<'t>>,
) -> AllocResult<()>
    ensures stays { OnOk result (path.new.items ≡ path.old.items) }
    ensures found { OnOk result (map path_of found.new.items ≡ map path_of found.old.items
        ++ inner_paths (map part_of path.old.items) (view part.now)
        (blamed_parts (map part_of path.old.items) (view part.now))) }
{
    if is_deep(path.as_slice()) {
        return Ok(());
    }
    let Some(emptied) = emptied(alloc, path.as_slice(), part)? else {
        return Ok(());
    };
    if refusal(alloc, path.as_slice(), &emptied)?.is_some() {
        return Ok(());
    }
    match part {
        Value::Array(items) => blame_items(alloc, path, items, found),
        Value::Table(members) => blame_members(alloc, path, members, found),
        _ => Ok(()),
    }
}

#[cycle(blame)]
fn blame_items<'t>(
    alloc: Global,
    path: &mut Vec<Step<'t>>,
    array: &'t Array,
    found: &mut Vec<Fault<'t>>,
) -> AllocResult<()>
    ensures stays { OnOk result (path.new.items ≡ path.old.items) }
    ensures found { OnOk result (map path_of found.new.items ≡ map path_of found.old.items
        ++ blamed_items (map part_of path.old.items) 0 (array_view array.now)) }
{
    'items: for (index, item) in array.iter().enumerate() {
        path.push(Step::Item(index))?;
        blame(alloc, path, item, found)?;
        path.pop();
    }
    Ok(())
}

#[cycle(blame)]
fn blame_members<'t>(
    alloc: Global,
    path: &mut Vec<Step<'t>>,
    table: &'t Table,
    found: &mut Vec<Fault<'t>>,
) -> AllocResult<()>
    ensures stays { OnOk result (path.new.items ≡ path.old.items) }
    ensures found { OnOk result (map path_of found.new.items ≡ map path_of found.old.items
        ++ blamed_members (map part_of path.old.items) (table_view table.now)) }
{
    'members: for (key, member) in table.iter() {
        path.push(Step::Key(key.as_str()))?;
        blame(alloc, path, member, found)?;
        path.pop();
    }
    Ok(())
}

/// Whether a path has so many parts that nothing is told of what is in its part. Each further one
/// takes stack, and reads what is there once more.
#[tactic(auto, unfolding(crate::specs::Blamed::is_deep))]
fn is_deep(path: &[Step<'_>]) -> bool
    ensures { result ≡ is_deep (map part_of path.now) }
{
    path.len() > 32
}

/// Why the part at this path doesn't read by itself, if it doesn't.
fn refusal(alloc: Global, path: &[Step<'_>], part: &Value) -> AllocResult<Option<Error>>
    ensures { IfOk result (λ o. is_none o
        ≡ is_some (reads_alone (map part_of path.now) (view part.now))) }
{
    let tree = alone(alloc, Around::Manifest, path, part)?;
    match HeldManifest::from_value(alloc, tree) {
        Ok(_) => Ok(None),
        Err(Error::Memory) => Err(AllocError),
        Err(fault) => Ok(Some(fault)),
    }
}
