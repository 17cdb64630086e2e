//! What is found: of a place, a dependency or an entry; what members have otherwise than their
//! workspace; and what Cargo refuses of a member's manifest where it stands.
ghost use Rattle.std.specs.Prelude.{◌≡◌, ◌++◌, OnOk, map, string_bytes, true, IfOk, option_map};
ghost use Rattle.std.specs.{Prelude.◌==◌, BTreeMap.btree_map_len, BTreeSet.contains_text};
ghost use Rattle.std.specs.{List.flat_map, Option.option_copied};
ghost use Rattle.cargo_toml.specs.{Dependencies.dependency_meaning, Templates.template_meaning};
ghost use Rattle.cargo_toml.specs.{Manifests.held, Packages.held_package, Settings.edition_text};
ghost use Rattle.cargo_toml_package.specs.Replacing.{entries_meaning};
ghost use Rattle.cargo_toml_audit.specs.Oddities.{found_each, found_if, found_in, oddities_of};
ghost use Rattle.cargo_toml_audit.specs.Oddities.{differences, has_no_target, other_of};
ghost use Rattle.cargo_toml_audit.specs.Oddities.{is_bare, is_false, is_not_inherited, refusals};
ghost use Rattle.cargo_toml_audit.specs.Oddities.{leads_elsewhere, named_by, shared_oddities};
ghost use Rattle.cargo_toml_audit.specs.{Entries.entries_of, Oddities.lacks_targets};

use super::dependencies::entries;
use super::{Code, Finding, Member, Root};
use crate::members::place_of;
use cargo_toml::{Dependency, DepsSet, Edition, Inheritable, Manifest, Package, Workspace};
use cargo_toml_lint::AllocResult;
use std::alloc::Global;
use std::collections::BTreeSet;

/// Finds this of a subject, in these words.
pub fn find(
    findings: &mut Vec<Finding>,
    code: Code,
    subject: &str,
    words: String,
) -> AllocResult<()>
    ensures { OnOk result (oddities_of findings.new
        ≡ oddities_of findings.old ++ found_if code true subject.now) }
{
    let subject = String::from_str(*findings.allocator(), subject)?;
    findings.push(Finding {
        code,
        subject,
        words,
    })?;
    Ok(())
}

/// Finds what a code says of a subject, where that holds.
pub fn find_if(
    findings: &mut Vec<Finding>,
    code: Code,
    holds: bool,
    subject: &str,
) -> AllocResult<()>
    ensures { OnOk result (oddities_of findings.new
        ≡ oddities_of findings.old ++ found_if code holds subject.now) }
{
    if !holds {
        return Ok(());
    }
    let words = String::from_str(*findings.allocator(), code.words())?;
    find(findings, code, subject, words)
}

/// Finds the same of each of these subjects.
pub fn find_all(findings: &mut Vec<Finding>, code: Code, subjects: &[String]) -> AllocResult<()>
    ensures { OnOk result (oddities_of findings.new
        ≡ oddities_of findings.old ++ found_each code (map string_bytes subjects.now)) }
{
    for subject in subjects {
        find_if(findings, code, true, subject.as_str())?;
    }
    Ok(())
}

/// Finds those codes that hold of a subject.
pub fn find_in(findings: &mut Vec<Finding>, subject: &str, rows: &[(Code, bool)]) -> AllocResult<()>
    ensures { OnOk result (oddities_of findings.new
        ≡ oddities_of findings.old ++ found_in subject.now rows.now) }
{
    for (code, holds) in rows {
        find_if(findings, *code, *holds, subject)?;
    }
    Ok(())
}

/// Adds where a member's edition or licence is another than the workspace gives.
pub fn add_differences<M>(
    member: &Member,
    workspace: &Workspace<M>,
    findings: &mut Vec<Finding>,
) -> AllocResult<()>
    ensures { OnOk result (oddities_of findings.new ≡ oddities_of findings.old
        ++ differences (option_map template_meaning workspace.now.«package») member.now) }
{
    let Some(package) = &workspace.package else {
        return Ok(());
    };
    let folder = member.folder.as_str();
    let edition = edition_text(*findings.allocator(), package.edition)?;
    let own = Some(member.edition.as_str());
    let given = edition.as_deref();
    add_other(findings, Code::OtherEdition, folder, own, given)?;
    let own = member.license.as_deref();
    let given = package.license.as_deref();
    add_other(findings, Code::OtherLicense, folder, own, given)
}

/// Adds where a member has another text than the workspace gives, or none.
fn add_other(
    findings: &mut Vec<Finding>,
    code: Code,
    folder: &str,
    own: Option<&str>,
    given: Option<&str>,
) -> AllocResult<()>
    ensures { OnOk result (oddities_of findings.new ≡ oddities_of findings.old
        ++ other_of code folder.now (option_copied own.entry) (option_copied given.entry)) }
{
    let Some(given) = given else { return Ok(()) };
    if own.is_some_and(|own| given == own) {
        return Ok(());
    }
    let alloc = *findings.allocator();
    let own = own.unwrap_or("none");
    let words = format!(in alloc; "{own}, where the workspace has {given}")?;
    find(findings, code, folder, words)
}

fn edition_text(alloc: Global, edition: Option<Edition>) -> AllocResult<Option<String>>
    ensures { IfOk result
        (λ text. option_map string_bytes text ≡ option_map edition_text edition) }
{
    match edition {
        Some(edition) => Ok(Some(format!(in alloc; "{edition}")?)),
        None => Ok(None),
    }
}

/// Adds the dependencies of the workspace that no member inherits, and those that are optional.
#[tactic(auto, using(cargo_toml_tools::proofs::Grown::nested))]
pub fn add_shared(
    dependencies: &DepsSet,
    inherited: &BTreeSet<String>,
    findings: &mut Vec<Finding>,
) -> AllocResult<()>
    ensures { OnOk result (oddities_of findings.new ≡ oddities_of findings.old ++ flat_map
        (shared_oddities (contains_text inherited.now)) (entries_meaning dependencies.now)) }
{
    for (key, dependency) in dependencies {
        add_one_shared(key.as_str(), dependency, inherited, findings)?;
    }
    Ok(())
}

fn add_one_shared(
    key: &str,
    dependency: &Dependency,
    inherited: &BTreeSet<String>,
    findings: &mut Vec<Finding>,
) -> AllocResult<()>
    ensures { OnOk result (oddities_of findings.new ≡ oddities_of findings.old
        ++ shared_oddities (contains_text inherited.now)
        (key.now, dependency_meaning dependency.now)) }
{
    let is_unused = !inherited.contains(key);
    find_if(findings, Code::UnusedDependency, is_unused, key)?;
    find_if(findings, Code::OptionalShared, dependency.optional(), key)
}

/// The names of members, in their order.
pub fn names(alloc: Global, members: &[Member]) -> AllocResult<Vec<String>>
    ensures { IfOk result (λ all. map string_bytes all.items
        ≡ map (λ m. string_bytes m.name) members.now) }
{
    let mut all = Vec::new(alloc);
    for member in members {
        all.push(String::from_str(alloc, member.name.as_str())?)?;
    }
    Ok(all)
}

/// What Cargo refuses of a manifest as it is written, by its place, whether that lies in the
/// workspace's folder or leads there, and whether `lint` finds errors in its features.
pub fn refusal_rows<M>(
    alloc: Global,
    root: Root<'_>,
    at: (&str, bool),
    has_errors: bool,
    written: &Manifest<M>,
) -> AllocResult<[(Code, bool); 7]>
    ensures { IfOk result (λ rows. rows ≡ refusals at.entry.0.now root.entry.place.now
        (btree_map_len root.entry.workspace.now.lints == 0) at.entry.1 has_errors
        (held written.now)) }
{
    let (place, is_own) = at;
    let has_own = written.workspace.is_some();
    let named = named_by(&written.package);
    let is_elsewhere = leads_elsewhere(alloc, place, root.place, named)?;
    let is_named = named.is_some();
    let lacks_lints = root.workspace.lints.is_empty();
    let leaves_lints = !written.lints.is_set();
    let is_apart = place != root.place;
    let not_inherited = has_false(alloc, written)?;
    Ok([
        (Code::Features, has_errors),
        (Code::NoLints, lacks_lints & leaves_lints),
        (Code::NotInherited, not_inherited),
        (Code::OtherWorkspace, is_elsewhere & !has_own),
        (Code::Outside, !is_own & !is_named),
        (Code::TwoWorkspaces, is_named & has_own),
        (Code::WorkspaceWithin, has_own & is_apart),
    ])
}

/// The workspace that a package names.
pub fn named_by<M>(package: &Option<Package<M>>) -> Option<&str>
    ensures { option_map (λ t. t.now) result ≡ named_by (option_map held_package «package».now) }
{
    package.as_ref()?.workspace.as_deref()
}

/// Whether a path that a package at a place names leads to another workspace than the root's.
fn leads_elsewhere(alloc: Global, place: &str, root: &str, named: Option<&str>) -> AllocResult<bool>
    ensures { IfOk result
        (λ b. b ≡ leads_elsewhere place.now root.now (option_map (λ t. t.now) named.entry)) }
{
    let Some(path) = named else { return Ok(false) };
    let named = place_of(alloc, place, path)?;
    Ok(named.as_str() != root)
}

/// Whether a manifest that is completed has a package, and nothing to build.
pub fn has_no_target<M>(manifest: &Manifest<M>) -> bool
    ensures { result ≡ has_no_target (held manifest.now) }
{
    manifest.package.is_some() && lacks_targets(manifest)
}

fn lacks_targets<M>(manifest: &Manifest<M>) -> bool
    ensures { result ≡ lacks_targets (held manifest.now) }
{
    manifest.lib.is_none()
        && manifest.bin.is_empty()
        && manifest.example.is_empty()
        && manifest.test.is_empty()
        && manifest.bench.is_empty()
}

/// Whether a manifest has no targets, dependencies, features and lints. Cargo takes a root without
/// a package only so.
pub fn is_bare<M>(manifest: &Manifest<M>) -> bool
    ensures { result ≡ is_bare manifest.now }
{
    lacks_targets(manifest)
        && manifest.dependencies.len() == 0
        && manifest.dev_dependencies.len() == 0
        && manifest.build_dependencies.len() == 0
        && manifest.target.len() == 0
        && manifest.features.len() == 0
        && matches!(&manifest.lints, Inheritable::Set(lints) if lints.len() == 0)
}

/// Whether some dependency has `workspace = false`.
fn has_false<M>(alloc: Global, manifest: &Manifest<M>) -> AllocResult<bool>
    ensures { IfOk result (λ b. b ≡ is_not_inherited (entries_of (held manifest.now))) }
{
    for entry in entries(alloc, manifest)?.as_slice() {
        if is_false(entry.dependency) {
            return Ok(true);
        }
    }
    Ok(false)
}

fn is_false(dependency: &Dependency) -> bool
    ensures { result ≡ is_false (dependency_meaning dependency.now) }
{
    matches!(dependency, Dependency::Inherited(detail) if !detail.workspace)
}
