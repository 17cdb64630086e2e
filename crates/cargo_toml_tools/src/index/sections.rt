//! The tables of dependencies that a crate has, each with what is written of it.
#![tactic(auto, using(crate::proofs::Grown::tables))]

ghost use Rattle.std.specs.Prelude.{◌≡◌, ◌++◌, IfOk, OnOk, map, option_map};
ghost use Rattle.std.specs.Option.{option_copied};
ghost use Rattle.toml.specs.View.{table_view, view};
ghost use Rattle.cargo_toml.specs.{Manifests.held, Targets.target_meaning};
ghost use Rattle.cargo_toml_package.specs.Replacing.{entries_meaning};
ghost use Rattle.cargo_toml_tools.specs.Indexed.{dependency_tables, other_name, table_at};
ghost use Rattle.cargo_toml_tools.specs.Indexed.{table_in, table_name, target_tables, written_flag};
ghost use Rattle.cargo_toml_tools.specs.Sections.{table_of};

use cargo_toml::features::Kind;
use cargo_toml::{DepsSet, Manifest, Target};
use cargo_toml_lint::AllocResult;
use cargo_toml_parts::read::member;
use std::alloc::Global;
use toml::{Table, Value};

/// A table of dependencies.
#[derive(Clone, Copy)]
pub(super) struct Section<'a> {
    pub kind: Kind,
    pub target: Option<&'a str>,
    /// The table as it is written.
    pub written: Option<&'a Table>,
    /// The name with `_` under which one is written, too.
    pub other_name: Option<&'static str>,
    pub entries: &'a DepsSet,
}

/// All tables of dependencies of a manifest, which was read from this document: its own, and then
/// those of targets.
pub(super) fn sections<'a, M>(
    alloc: Global,
    manifest: &'a Manifest<M>,
    document: &'a Table,
) -> AllocResult<Vec<Section<'a>>>
    ensures { IfOk result (λ all. map table_of all.items
        ≡ dependency_tables (table_view document.now) (held manifest.now)) }
{
    let mut all = Vec::new(alloc);
    let place = Some(document);
    all.push(section_at(None, place, Kind::Normal, &manifest.dependencies))?;
    all.push(section_at(None, place, Kind::Dev, &manifest.dev_dependencies))?;
    all.push(section_at(None, place, Kind::Build, &manifest.build_dependencies))?;
    for (name, target) in &manifest.target {
        push_target(&mut all, document, name.as_str(), target)?;
    }
    Ok(all)
}

/// Adds the tables of a target.
fn push_target<'a>(
    all: &mut Vec<Section<'a>>,
    document: &'a Table,
    name: &'a str,
    target: &'a Target,
) -> AllocResult<()>
    ensures { OnOk result (map table_of all.new.items ≡ map table_of all.old.items
        ++ target_tables (table_view document.now) (name.now, target_meaning target.now)) }
{
    let place = table_in(document, "target").and_then(|targets| table_in(targets, name));
    let name = Some(name);
    all.push(section_at(name, place, Kind::Normal, &target.dependencies))?;
    all.push(section_at(name, place, Kind::Build, &target.build_dependencies))?;
    all.push(section_at(name, place, Kind::Dev, &target.dev_dependencies))?;
    Ok(())
}

/// The table of a kind, which is written in this place, if it is.
fn section_at<'a>(
    target: Option<&'a str>,
    place: Option<&'a Table>,
    kind: Kind,
    entries: &'a DepsSet,
) -> Section<'a>
    ensures { table_of result ≡ table_at (option_copied target.entry)
        (option_map (λ t. table_view t.now) place.entry) kind (entries_meaning entries.now) }
{
    Section {
        kind,
        target,
        written: place.and_then(|table| table_in(table, table_name(kind))),
        other_name: other_name(place, kind),
        entries,
    }
}

/// The table of this key in another.
pub(super) fn table_in<'a>(table: &'a Table, key: &str) -> Option<&'a Table>
    ensures { option_map (λ t. table_view t.now) result ≡ table_in key.now (table_view table.now) }
{
    member(table, key)?.as_table()
}

/// The name of the table of a kind.
pub fn table_name(kind: Kind) -> &'static str
    ensures { result.now ≡ table_name kind }
{
    match kind {
        Kind::Normal => "dependencies",
        Kind::Dev => "dev-dependencies",
        Kind::Build => "build-dependencies",
    }
}

/// The name with `_` under which a table of the kind is written.
fn other_name(place: Option<&Table>, kind: Kind) -> Option<&'static str>
    ensures { option_copied result
        ≡ other_name (option_map (λ t. table_view t.now) place.entry) kind }
{
    match kind {
        Kind::Normal => None,
        Kind::Dev => member(place?, "dev_dependencies").map(|_| "dev_dependencies"),
        Kind::Build => member(place?, "build_dependencies").map(|_| "build_dependencies"),
    }
}

/// What is written under a key in the entry of a dependency.
pub(super) fn flag_in<'a>(section: &Section<'a>, dependency: &str, key: &str) -> Option<&'a Value>
    ensures { option_map (λ v. view v.now) result
        ≡ written_flag (table_of section.now).written dependency.now key.now }
{
    member(table_in(section.written?, dependency)?, key)
}
