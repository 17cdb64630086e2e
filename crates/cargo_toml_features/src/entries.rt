//! The entries of all dependency tables of a manifest.
ghost use Rattle.std.specs.Prelude.{◌≡◌, ◌++◌, map, IfOk, OnOk, None, Some};
ghost use Rattle.std.specs.{List.flat_map, Option.option_copied};
ghost use Rattle.cargo_toml_parts.specs.Reads.{map_meaning};
ghost use Rattle.cargo_toml_package.specs.{Dependencies.dependency_meaning, Targets.target_meaning};
ghost use Rattle.cargo_toml_features.specs.Entries.{built_entries, dev_entries, entries_of};
ghost use Rattle.cargo_toml_features.specs.Entries.{first_entries, tables_meaning};
ghost use Rattle.cargo_toml_features.specs.declared.features.Kind.TheVariants.{Normal, Build};
ghost use Rattle.cargo_toml_features.specs.Views.{entry_of};

use crate::features::{Kind, ParseDependency};
use cargo_toml_package::{DepsSet, TargetDepsSet};
use std::alloc::{AllocError, Global};

/// The dependency tables of a manifest.
#[derive(Debug, Clone, Copy)]
pub struct Tables<'m> {
    /// The normal dependencies of no target in particular.
    pub dependencies: &'m DepsSet,
    /// The build dependencies of no target in particular.
    pub build_dependencies: &'m DepsSet,
    /// The dev dependencies of no target in particular.
    pub dev_dependencies: &'m DepsSet,
    /// The dependencies of each target.
    pub target: &'m TargetDepsSet,
}

// Adds the first entries of one table.
fn add_first<'m>(
    entries: &mut Vec<ParseDependency<'m, 'm>>,
    table: &'m DepsSet,
    limit: usize,
    kind: Kind,
    target: Option<&'m str>,
) -> Result<(), AllocError>
    ensures { OnOk result (map entry_of entries.new.items ≡ map entry_of entries.old.items
        ++ first_entries limit kind (option_copied target.entry)
        (map_meaning dependency_meaning table.now)) }
{
    // Many tables are empty, and to begin a walk over one costs more than this test.
    if table.is_empty() {
        return Ok(());
    }
    for (key, dep) in table.iter().take(limit) {
        entries.push(ParseDependency {
            key: key.as_str(),
            kind,
            target,
            dep,
        })?;
    }
    Ok(())
}

// Adds the normal and the build dependencies of a target, or of none.
fn add_built<'m>(
    entries: &mut Vec<ParseDependency<'m, 'm>>,
    normal: &'m DepsSet,
    build: &'m DepsSet,
    limit: usize,
    target: Option<&'m str>,
) -> Result<(), AllocError>
    ensures { OnOk result (map entry_of entries.new.items ≡ map entry_of entries.old.items
        ++ (first_entries limit Normal
        (option_copied target.entry) (map_meaning dependency_meaning normal.now)
        ++ first_entries limit Build (option_copied target.entry)
        (map_meaning dependency_meaning build.now))) }
{
    add_first(entries, normal, limit, Kind::Normal, target)?;
    add_first(entries, build, limit, Kind::Build, target)
}

// Adds the normal and the build dependencies of each target.
fn add_targets_built<'m>(
    entries: &mut Vec<ParseDependency<'m, 'm>>,
    targets: &'m TargetDepsSet,
    limit: usize,
) -> Result<(), AllocError>
    ensures { OnOk result (map entry_of entries.new.items ≡ map entry_of entries.old.items
        ++ flat_map (λ t. built_entries limit (Some t.0) t.1)
        (map_meaning target_meaning targets.now)) }
{
    for (name, target) in targets {
        add_built(
            entries,
            &target.dependencies,
            &target.build_dependencies,
            limit,
            Some(name.as_str()),
        )?;
    }
    Ok(())
}

// Adds the dev dependencies of each target.
fn add_targets_dev<'m>(
    entries: &mut Vec<ParseDependency<'m, 'm>>,
    targets: &'m TargetDepsSet,
    limit: usize,
) -> Result<(), AllocError>
    ensures { OnOk result (map entry_of entries.new.items ≡ map entry_of entries.old.items
        ++ flat_map (λ t. dev_entries limit (Some t.0) t.1)
        (map_meaning target_meaning targets.now)) }
{
    for (name, target) in targets {
        add_first(
            entries,
            &target.dev_dependencies,
            limit,
            Kind::Dev,
            Some(name.as_str()),
        )?;
    }
    Ok(())
}

/// The entries of all tables in the order in which they count: normal and build dependencies, those
/// of each target, dev dependencies, those of each target. Of each table the first `limit` count,
/// by key in byte order.
///
/// It fails only when out of memory.
pub fn entries_of<'m>(
    alloc: Global,
    tables: Tables<'m>,
    limit: usize,
) -> Result<Vec<ParseDependency<'m, 'm>>, AllocError>
    ensures { IfOk result (λ v. map entry_of v.items
        ≡ entries_of limit (tables_meaning tables.entry)
        (map_meaning target_meaning tables.entry.target.now)) }
{
    let Tables {
        dependencies,
        build_dependencies,
        dev_dependencies,
        target,
    } = tables;
    let room = dependencies
        .len()
        .min(limit)
        .saturating_add(build_dependencies.len().min(limit))
        .saturating_add(dev_dependencies.len().min(limit));
    let mut entries = Vec::with_capacity(alloc, room)?;
    add_built(&mut entries, dependencies, build_dependencies, limit, None)?;
    add_targets_built(&mut entries, target, limit)?;
    add_first(&mut entries, dev_dependencies, limit, Kind::Dev, None)?;
    add_targets_dev(&mut entries, target, limit)?;
    Ok(entries)
}
