//! The entries that an index has of a crate's dependencies.
ghost use Rattle.std.specs.Prelude.{◌≡◌, [], IfOk, map};
ghost use Rattle.std.specs.List.{flat_map};
ghost use Rattle.serde_json.specs.View.{members_view, view};
ghost use Rattle.cargo_toml.specs.{Dependencies.dependency_meaning, Versions.requirement_meaning};
ghost use Rattle.cargo_toml_tools.specs.IndexEntries.{index_rows, kind_text, table_entries};
ghost use Rattle.cargo_toml_tools.specs.{IndexEntries.with_rows, Indexed.has_default};
ghost use Rattle.cargo_toml_tools.specs.Sections.{table_of, wanted_of};

use super::Options;
use super::registries::{elsewhere, source_of};
use super::sections::{Section, flag_in};
use crate::json::{put_text, put_text_if, put_texts};
use crate::requirement::required_version;
use cargo_toml::Dependency;
use cargo_toml::features::Kind;
use cargo_toml_lint::AllocResult;
use cargo_toml_write::write::requirement::requirement_text;
use semver::VersionReq;
use serde_json::{Map, Value, push, put};
use std::alloc::Global;
use toml::Value as Written;

/// The entries of all dependencies with a requirement on the version. One without, which an index
/// takes only where it is for tests, is left out.
#[tactic(auto, using(crate::proofs::Placed::listed))]
pub(super) fn entries(
    alloc: Global,
    options: Options<'_>,
    sections: &[Section<'_>],
) -> AllocResult<Vec<Value>>
    ensures { IfOk result (λ v. map view v.items
        ≡ flat_map (table_entries (wanted_of options.entry)) (map table_of sections.now)) }
{
    let mut entries = Vec::new(alloc);
    for section in sections {
        for (key, dependency) in section.entries {
            let Some(version) = required_version(dependency) else {
                continue;
            };
            let entry = entry(alloc, options, section, key.as_str(), dependency, version)?;
            push(&mut entries, Value::from(entry))?;
        }
    }
    Ok(entries)
}

/// The entry of a dependency with this requirement on the version.
#[tactic(auto, using(crate::proofs::Placed::wanted))]
fn entry(
    alloc: Global,
    options: Options<'_>,
    section: &Section<'_>,
    key: &str,
    dependency: &Dependency,
    version: &VersionReq,
) -> AllocResult<Map<String, Value>>
    ensures { IfOk result (λ entry. members_view entry.entries
        ≡ with_rows (index_rows (wanted_of options.entry) (table_of section.now)
        (key.now, dependency_meaning dependency.now) (requirement_meaning version.now))
        (members_view [])) }
{
    let requirement = requirement_text(alloc, version)?;
    let optional = Value::from(dependency.optional());
    let has_default = Value::from(has_default(section, key, dependency));
    let mut entry = Map::new(alloc);
    put_text(alloc, &mut entry, "name", Some(key))?;
    put(&mut entry, alloc, "req", Value::from(requirement))?;
    put_texts(alloc, &mut entry, "features", dependency.req_features())?;
    put(&mut entry, alloc, "optional", optional)?;
    put(&mut entry, alloc, "default_features", has_default)?;
    put_text_if(alloc, &mut entry, "package", dependency.package())?;
    put_text(alloc, &mut entry, "target", section.target)?;
    put_text(alloc, &mut entry, "kind", Some(kind_text(section.kind)))?;
    let registry = elsewhere(options.registry, source_of(options.names, dependency));
    put_text(alloc, &mut entry, "registry", registry)?;
    Ok(entry)
}

/// Whether a dependency's default features are on: an entry may say so where it leaves the rest to
/// a workspace that says otherwise.
pub(super) fn has_default(section: &Section<'_>, key: &str, dependency: &Dependency) -> bool
    ensures { result ≡ has_default (table_of section.now).written key.now
        (dependency_meaning dependency.now) }
{
    let Dependency::Detailed(detail) = dependency else {
        return true;
    };
    let flag = flag_in(section, key, "default-features");
    detail.default_features || flag.and_then(Written::as_bool).unwrap_or(false)
}

fn kind_text(kind: Kind) -> &'static str
    ensures { result.now ≡ kind_text kind }
{
    match kind {
        Kind::Normal => "normal",
        Kind::Build => "build",
        Kind::Dev => "dev",
    }
}
