//! The dependencies of a manifest side by side, what a manifest leaves to its workspace, and what
//! members ask for.
ghost use Rattle.std.specs.Prelude.{◌≡◌, ◌++◌, ◌||◌, ℕ, IfOk, List, OnOk, bytes_eq, false, map};
ghost use Rattle.std.specs.{Prelude.string_bytes, List.flat_map, BTreeSet.contains_text};
ghost use Rattle.cargo_toml.specs.InheritedPackages.{is_left_there};
ghost use Rattle.cargo_toml.specs.{Manifests.held, Reads.map_meaning, Targets.target_meaning};
ghost use Rattle.cargo_toml.specs.{Dependencies.dependency_meaning, InheritedDependencies.is_left};
ghost use Rattle.cargo_toml_package.specs.Replacing.{entries_meaning};
ghost use Rattle.cargo_toml_audit.specs.Entries.{asked_in, asking_of, entries_of, in_target};
ghost use Rattle.cargo_toml_audit.specs.Entries.{inherited_in, left_dependency, left_fields};
ghost use Rattle.cargo_toml_audit.specs.Entries.{listed_of, named_if, with_kind};
ghost use Rattle.cargo_toml_audit.specs.Oddities.{asking_key, further_from, further_of, oddity_of};

use super::findings::find_if;
use super::{Code, Finding, Use};
use crate::members::note;
use cargo_toml::features::Kind;
use cargo_toml::{Dependency, DepsSet, Inheritable, Manifest, TargetDepsSet};
use cargo_toml_lint::AllocResult;
use cargo_toml_package::inheriting::leavable_rows;
use cargo_toml_tools::index::table_name;
use cargo_toml_tools::requirement::required_version;
use cargo_toml_write::write::requirement::requirement_text;
use std::alloc::Global;
use std::collections::BTreeSet;

/// A dependency: which table lists it, its key, and what stands there.
#[derive(Clone, Copy)]
pub struct Entry<'a> {
    /// The kind of the table.
    pub kind: Kind,
    /// The key.
    pub key: &'a str,
    /// What stands there.
    pub dependency: &'a Dependency,
}

/// The dependencies of a manifest, and behind them those of its targets.
pub fn entries<M>(alloc: Global, manifest: &Manifest<M>) -> AllocResult<Vec<Entry<'_>>>
    ensures { IfOk result (λ v. map listed_of v.items ≡ entries_of (held manifest.now)) }
{
    let mut all = Vec::new(alloc);
    add_table(Kind::Normal, &manifest.dependencies, &mut all)?;
    add_table(Kind::Dev, &manifest.dev_dependencies, &mut all)?;
    add_table(Kind::Build, &manifest.build_dependencies, &mut all)?;
    add_targets(&manifest.target, &mut all)?;
    Ok(all)
}

#[tactic(auto, using(cargo_toml_tools::proofs::Grown::nested))]
fn add_targets<'a>(targets: &'a TargetDepsSet, all: &mut Vec<Entry<'a>>) -> AllocResult<()>
    ensures { OnOk result (map listed_of all.new.items ≡ map listed_of all.old.items
        ++ flat_map in_target (map_meaning target_meaning targets.now)) }
{
    for (_, target) in targets {
        add_table(Kind::Normal, &target.dependencies, all)?;
        add_table(Kind::Dev, &target.dev_dependencies, all)?;
        add_table(Kind::Build, &target.build_dependencies, all)?;
    }
    Ok(())
}

fn add_table<'a>(kind: Kind, table: &'a DepsSet, all: &mut Vec<Entry<'a>>) -> AllocResult<()>
    ensures { OnOk result (map listed_of all.new.items
        ≡ map listed_of all.old.items ++ with_kind (kind, entries_meaning table.now)) }
{
    for (key, dependency) in table {
        all.push(Entry {
            kind,
            key: key.as_str(),
            dependency,
        })?;
    }
    Ok(())
}

/// The keys of the package that are left to the workspace, and `lints`, as they are written.
pub fn inherited_keys<M>(alloc: Global, manifest: &Manifest<M>) -> AllocResult<Vec<String>>
    ensures { IfOk result (λ keys. map string_bytes keys.items ≡ left_fields (held manifest.now)) }
{
    let mut keys = Vec::new(alloc);
    if let Some(package) = &manifest.package {
        add_left(alloc, &mut keys, &leavable_rows(package))?;
    }
    add_left(alloc, &mut keys, &[("lints", !manifest.lints.is_set())])?;
    Ok(keys)
}

/// Whether a text is left to the workspace.
pub fn is_inherited(text: &Option<Inheritable<String>>) -> bool
    ensures { result ≡ is_left_there text.now }
{
    matches!(text, Some(Inheritable::Inherited))
}

/// Adds the keys of those rows whose values are left to the workspace.
fn add_left(alloc: Global, keys: &mut Vec<String>, rows: &[(&str, bool)]) -> AllocResult<()>
    ensures { OnOk result (map string_bytes keys.new.items ≡ map string_bytes keys.old.items
        ++ flat_map named_if (map (λ r. (r.0.now, r.1)) rows.now)) }
{
    for (key, is_left) in rows {
        if *is_left {
            keys.push(String::from_str(alloc, *key)?)?;
        }
    }
    Ok(())
}

/// Adds the dependencies that are left to the workspace to the keys of this member, with the table
/// in front, and to those of all members.
pub fn add_inherited(
    entries: &[Entry<'_>],
    keys: &mut Vec<String>,
    all: &mut Vec<String>,
) -> AllocResult<()>
    ensures keys { OnOk result (map string_bytes keys.new.items
        ≡ map string_bytes keys.old.items ++ flat_map left_dependency (map listed_of entries.now)) }
    ensures all { OnOk result (map string_bytes all.new.items
        ≡ map string_bytes all.old.items ++ inherited_in (map listed_of entries.now)) }
{
    let alloc = *keys.allocator();
    for entry in entries {
        if is_left(entry.dependency) {
            let table = table_name(entry.kind);
            let key = entry.key;
            keys.push(format!(in alloc; "{table}.{key}")?)?;
            all.push(String::from_str(alloc, key)?)?;
        }
    }
    Ok(())
}

/// Whether a dependency is left to the workspace.
pub fn is_left(dependency: &Dependency) -> bool
    ensures { result ≡ is_left (dependency_meaning dependency.now) }
{
    matches!(dependency, Dependency::Inherited(_))
}

/// Adds what a member asks for by a requirement.
pub fn add_uses(folder: &str, entries: &[Entry<'_>], uses: &mut Vec<Use>) -> AllocResult<()>
    ensures { OnOk result (map asking_of uses.new.items
        ≡ map asking_of uses.old.items ++ asked_in (map listed_of entries.now)) }
{
    let alloc = *uses.allocator();
    for entry in entries {
        let Some(requirement) = required_version(entry.dependency) else {
            continue;
        };
        let name = entry.dependency.package().unwrap_or(entry.key);
        uses.push(Use {
            name: String::from_str(alloc, name)?,
            requirement: requirement_text(alloc, requirement)?,
            folder: String::from_str(alloc, folder)?,
        })?;
    }
    Ok(())
}

/// What asks for a crate that was asked for before, and by a requirement that is new.
pub fn further(alloc: Global, uses: &[Use]) -> AllocResult<Vec<Finding>>
    ensures { IfOk result (λ all. map oddity_of all.items
        ≡ further_from (λ t. false) (λ t. false) (map asking_of uses.now)) }
{
    let mut all = Vec::new(alloc);
    let mut names = BTreeSet::new(alloc);
    let mut keys = BTreeSet::new(alloc);
    for one in uses {
        add_further(one, &mut names, &mut keys, &mut all)?;
    }
    Ok(all)
}

/// Adds what asks for one of these names, but by none of these keys, which have a requirement and
/// the name. Both are noted.
fn add_further(
    one: &Use,
    names: &mut BTreeSet<String>,
    keys: &mut BTreeSet<String>,
    all: &mut Vec<Finding>,
) -> AllocResult<()>
    ensures found { OnOk result (map oddity_of all.new.items ≡ map oddity_of all.old.items
        ++ further_of (contains_text names.old) (contains_text keys.old) (asking_of one.now)) }
    ensures names { OnOk result ((t : List ℕ) → contains_text names.new t
        ≡ (contains_text names.old t || bytes_eq (asking_of one.now).name t)) }
    ensures keys { OnOk result ((t : List ℕ) → contains_text keys.new t
        ≡ (contains_text keys.old t || bytes_eq (asking_key (asking_of one.now)) t)) }
{
    let alloc = *all.allocator();
    let name = one.name.as_str();
    let key = asking_key(alloc, one)?;
    let is_further = names.contains(name) && !keys.contains(key.as_str());
    find_if(all, Code::SeveralRequirements, is_further, name)?;
    note(alloc, names, name, true)?;
    note(alloc, keys, key.as_str(), true)
}

/// A requirement, in which there is no `|`, and the name of the crate.
fn asking_key(alloc: Global, one: &Use) -> AllocResult<String>
    ensures { IfOk result (λ key. string_bytes key ≡ asking_key (asking_of one.now)) }
{
    let requirement = one.requirement.as_str();
    let name = one.name.as_str();
    let key = format!(in alloc; "{requirement}|{name}")?;
    Ok(key)
}
