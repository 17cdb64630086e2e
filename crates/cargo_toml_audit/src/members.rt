//! The places that the lists of a workspace lead to, and that it excludes, as Cargo finds them.
ghost use Rattle.std.specs.Prelude.{◌≡◌, IfOk, filter, map, string_bytes};
ghost use Rattle.cargo_toml_audit.specs.MemberFolders.{has_wrong_name, is_wrong, unseen};
ghost use Rattle.cargo_toml_audit.specs.Places.{included};

mod patterns;
mod places;
mod sets;
mod walk;

use cargo_toml::Workspace;
use cargo_toml_lint::AllocResult;
use patterns::{is_deep, tokens_of};
use places::pieces;
pub use places::{Exclusion, lies_in, manifest_path, place_of, seen_from};
use sets::push_if;
pub use sets::{note, picked, set_of};
use std::alloc::Global;
use walk::is_unseen;
pub use walk::{Listing, Looking, Looks, There, is_absent};

/// The bytes that a path has at most.
const MAX_PATH: usize = 4096;

/// Whether Cargo can't read an entry as a pattern, or it is longer than any path. What follows its
/// names calls itself for each, so that the length bounds the stack.
fn is_wrong(alloc: Global, entry: &str) -> AllocResult<bool>
    ensures { IfOk result (λ b. b ≡ is_wrong entry.now) }
{
    if entry.len() > MAX_PATH {
        return Ok(true);
    }
    has_wrong_name(alloc, entry)
}

/// Whether Cargo can't read some name of an entry.
fn has_wrong_name(alloc: Global, entry: &str) -> AllocResult<bool>
    ensures { IfOk result (λ b. b ≡ has_wrong_name entry.now) }
{
    let names = pieces(alloc, entry)?;
    for name in names.as_slice() {
        if !is_deep(*name) && tokens_of(alloc, *name)?.is_none() {
            return Ok(true);
        }
    }
    Ok(false)
}

/// The entries that Cargo can't read, or that are longer than any path.
pub fn wrong_entries(alloc: Global, entries: &[String]) -> AllocResult<Vec<String>>
    ensures { IfOk result
        (λ all. map string_bytes all.items ≡ filter is_wrong (map string_bytes entries.now)) }
{
    let mut all = Vec::new(alloc);
    for entry in entries {
        push_if(&mut all, entry.as_str(), is_wrong(alloc, entry.as_str())?)?;
    }
    Ok(all)
}

/// Those places that a workspace in `root` doesn't exclude.
pub fn included(
    alloc: Global,
    root: &str,
    workspace: &Workspace,
    places: &[String],
) -> AllocResult<Vec<String>>
    ensures { IfOk result (λ all. map string_bytes all.items ≡ included root.now
        (map string_bytes workspace.now.exclude.items)
        (map string_bytes workspace.now.members.items) (map string_bytes places.now)) }
{
    let exclusion = Exclusion::of(alloc, root, workspace)?;
    let mut all = Vec::new(alloc);
    for place in places {
        let is_included = !exclusion.excludes(alloc, place.as_str())?;
        push_if(&mut all, place.as_str(), is_included)?;
    }
    Ok(all)
}

/// What couldn't be looked at, or read to its end.
pub fn unseen(alloc: Global, looks: &Looks) -> AllocResult<Vec<String>>
    ensures { IfOk result (λ all. map string_bytes all.items ≡ unseen looks.now) }
{
    let mut all = Vec::new(alloc);
    for (path, there) in &looks.there {
        push_if(&mut all, path.as_str(), is_unseen(*there))?;
    }
    for (folder, listing) in &looks.names {
        push_if(&mut all, folder.as_str(), !listing.is_whole)?;
    }
    Ok(all)
}
