//! A workspace, and what its manifests lead to by the paths of their dependencies.
ghost use Rattle.std.specs.Prelude.{◌≡◌, ◌++◌, IfOk, OnOk, map, string_bytes};
ghost use Rattle.std.specs.List.{flat_map};
ghost use Rattle.cargo_toml.specs.{Dependencies.dependency_meaning, Manifests.held};
ghost use Rattle.cargo_toml_audit.specs.AuditedFiles.{base_of, need_at, need_by};
ghost use Rattle.cargo_toml_audit.specs.Entries.{entries_of, listed_of};

use super::dependencies::{Entry, entries, is_left};
use crate::members::place_of;
use cargo_toml::{Dependency, Manifest, Workspace};
use cargo_toml_lint::AllocResult;
use std::alloc::Global;

/// A workspace.
#[derive(Clone, Copy)]
pub struct Root<'a> {
    /// The place of its folder.
    pub place: &'a str,
    /// The path of its manifest.
    pub path: &'a str,
    /// Its manifest.
    pub manifest: &'a Manifest,
    /// Its table in there.
    pub workspace: &'a Workspace,
}

/// The places to which the dependencies of a manifest lead by their paths. A path of the
/// workspace's dependencies is seen from the workspace.
pub fn needs(
    alloc: Global,
    root: Root<'_>,
    place: &str,
    manifest: &Manifest,
) -> AllocResult<Vec<String>>
    ensures { IfOk result (λ all. map string_bytes all.items
        ≡ flat_map (need_by (base_of root.entry) place.now) (entries_of (held manifest.now))) }
{
    let entries = entries(alloc, manifest)?;
    let mut all = Vec::new(alloc);
    for entry in entries.as_slice() {
        add_needs(root, place, *entry, &mut all)?;
    }
    Ok(all)
}

fn add_needs(
    root: Root<'_>,
    place: &str,
    entry: Entry<'_>,
    all: &mut Vec<String>,
) -> AllocResult<()>
    ensures { OnOk result (map string_bytes all.new.items ≡ map string_bytes all.old.items
        ++ need_by (base_of root.entry) place.now (listed_of entry.entry)) }
{
    add_need(place, entry.dependency, all)?;
    if !is_left(entry.dependency) {
        return Ok(());
    }
    let Some(shared) = root.workspace.dependencies.get(entry.key) else {
        return Ok(());
    };
    add_need(root.place, shared, all)
}

/// Adds where the path of a dependency leads, which is written in a folder.
fn add_need(folder: &str, dependency: &Dependency, all: &mut Vec<String>) -> AllocResult<()>
    ensures { OnOk result (map string_bytes all.new.items ≡ map string_bytes all.old.items
        ++ need_at folder.now (dependency_meaning dependency.now)) }
{
    let Dependency::Detailed(detail) = dependency else {
        return Ok(());
    };
    let Some(path) = &detail.path else {
        return Ok(());
    };
    all.push(place_of(*all.allocator(), folder, path.as_str())?)?;
    Ok(())
}
