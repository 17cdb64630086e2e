//! Filling in the dependencies that are left to the workspace.
//!
//! It goes in two steps, so that a refusal leaves everything as it was: first the new
//! dependencies are made beside the old ones, then they are put in their places, which takes no
//! memory and is never refused.
ghost use Rattle.std.specs.Prelude.{◌≡◌, [], IfSome, Some, map, option_map};
ghost use Rattle.std.specs.Option.{option_copied};
ghost use Rattle.std.specs.Vec.Iter.{into_iter_items};
ghost use Rattle.cargo_toml_parts.specs.Answers.{Gives};
ghost use Rattle.cargo_toml_package.specs.Dependencies.{dependency_meaning};
ghost use Rattle.cargo_toml_package.specs.InheritedDependencies.{Entries, any_left, entry_at};
ghost use Rattle.cargo_toml_package.specs.InheritedDependencies.{inherited_entries};
ghost use Rattle.cargo_toml_package.specs.Near.{AreEntriesOf};
ghost use Rattle.cargo_toml_package.specs.Replacing.{entries_meaning, made_meaning, next_for};
ghost use Rattle.cargo_toml_package.specs.Replacing.{replaced, rest_for};

mod entry;
mod targets;

use crate::dependency::Dependency;
use crate::target::DepsSet;
use cargo_toml_parts::error::Error;
use std::alloc::Global;
use std::collections::btree_map::Iter;
use std::vec::IntoIter;
pub use targets::{NewTarget, any_target_inherits, replace_targets, target_replacements};

// How many of the workspace's dependencies are looked at in their order before one of a
// key is searched for.
const NEAR: usize = 3;

// The dependency of the key, if it is among the next few.
fn near_at<'a>(near: &mut Iter<'a, String, Dependency>, key: &str) -> Option<&'a Dependency>
    ensures found { (entries : Entries) → AreEntriesOf entries near.old
        → IfSome result (λ d. entry_at key.now entries ≡ Some (dependency_meaning d.now)) }
    ensures near { (entries : Entries) → AreEntriesOf entries near.old
        → AreEntriesOf entries near.new }
{
    for _ in 0..NEAR {
        let (at, dependency) = near.next()?;
        if at.as_str() == key {
            return Some(dependency);
        }
    }
    None
}

// The workspace's dependencies, to be gone through beside the member's; those of `none`, where so
// few of them are taken that the next one seldom is among the next few.
fn near_of<'a>(
    templates: &'a DepsSet,
    none: &'a DepsSet,
    dependencies: &DepsSet,
) -> Iter<'a, String, Dependency>
    ensures { none.now.entries ≡ [] → AreEntriesOf (entries_meaning templates.now) result }
{
    if templates.len() / NEAR <= dependencies.len() {
        templates.iter()
    } else {
        none.iter()
    }
}

// The workspace's dependency of a key. Both tables are gone through in the order of their keys, so
// it mostly is among the next few of the workspace's.
fn template_at<'a>(
    templates: &'a DepsSet,
    near: &mut Iter<'a, String, Dependency>,
    key: &str,
) -> Option<&'a Dependency>
    ensures found { AreEntriesOf (entries_meaning templates.now) near.old
        → option_map dependency_meaning (option_copied result)
        ≡ entry_at key.now (entries_meaning templates.now) }
    ensures near { (entries : Entries) → AreEntriesOf entries near.old
        → AreEntriesOf entries near.new }
{
    match near_at(near, key) {
        Some(template) => Some(template),
        None => templates.get(key),
    }
}

// Room for what the inherited dependencies become: for all of them, or for none where
// none is inherited.
fn room_for(dependencies: &DepsSet) -> usize {
    if any_inherited(dependencies) {
        dependencies.len()
    } else {
        0
    }
}

// What the inherited dependencies become by these of the workspace.
fn made_by(
    alloc: Global,
    templates: &DepsSet,
    base: &str,
    dependencies: &DepsSet,
) -> Result<Vec<Dependency>, Error>
    ensures { Gives (λ made. replaced (entries_meaning dependencies.now) (made_meaning made)) result
        (inherited_entries (Some (entries_meaning templates.now)) base.now
        (entries_meaning dependencies.now)) }
{
    let none = DepsSet::new(alloc);
    let mut near = near_of(templates, &none, dependencies);
    let mut made = Vec::with_capacity(alloc, room_for(dependencies))?;
    for (key, dependency) in dependencies {
        if let Dependency::Inherited(entry) = dependency {
            let Some(template) = template_at(templates, &mut near, key.as_str()) else {
                return Err(entry::missing(alloc, key.as_str())?);
            };
            let Some(filled) = entry::from_template(alloc, base, entry, template)? else {
                return Err(Error::InheritedUnknownValue);
            };
            made.push(filled)?;
        }
    }
    Ok(made)
}

/// What the inherited dependencies become by those of the workspace, `templates`, in the order of
/// their keys. Paths are joined to `base`: the path of the workspace's folder, as it was handed in
/// or found, and empty for the manifest's own table. Hand the answer to `replace`: no clause says
/// that it holds no more dependencies than `replace` takes.
///
/// The first fault in the order of the keys counts: `WorkspaceIntegrity` where the workspace lacks
/// the key, and `InheritedUnknownValue` where its own dependency of that key is inherited. Refused
/// by `Memory` where there was none.
pub fn replacements(
    alloc: Global,
    templates: Option<&DepsSet>,
    base: &str,
    dependencies: &DepsSet,
) -> Result<Vec<Dependency>, Error>
    ensures { Gives (λ made. replaced (entries_meaning dependencies.now) (made_meaning made)) result
        (inherited_entries (option_map entries_meaning (option_copied templates.entry)) base.now
        (entries_meaning dependencies.now)) }
{
    match templates {
        Some(templates) => made_by(alloc, templates, base, dependencies),
        None => made_by(alloc, &DepsSet::new(alloc), base, dependencies),
    }
}

// Puts the next one in the place of an inherited dependency.
fn put_next(dependency: &mut Dependency, made: &mut IntoIter<Dependency>)
    ensures dependency { dependency_meaning dependency.new
        ≡ next_for (dependency_meaning dependency.old)
        (map dependency_meaning (into_iter_items made.old)) }
    ensures rest { map dependency_meaning (into_iter_items made.new)
        ≡ rest_for (dependency_meaning dependency.old)
        (map dependency_meaning (into_iter_items made.old)) }
{
    if let Dependency::Inherited(_) = dependency {
        if let Some(next) = made.next() {
            *dependency = next;
        }
    }
}

/// Puts what was made in the place of the inherited dependencies, in the order of their keys.
/// Other dependencies are left as they are, and so are inherited ones for which nothing was made.
/// It takes no memory.
pub fn replace(dependencies: &mut DepsSet, made: Vec<Dependency>)
    ensures { entries_meaning dependencies.new
        ≡ replaced (entries_meaning dependencies.old) (made_meaning made) }
{
    let mut made = made.into_iter();
    dependencies.retain(|_, dependency| {
        put_next(dependency, &mut made);
        true
    });
}

/// Whether a dependency is left to the workspace.
pub fn any_inherited(dependencies: &DepsSet) -> bool
    ensures { result ≡ any_left (entries_meaning dependencies.now) }
{
    for (_, dependency) in dependencies {
        if let Dependency::Inherited(_) = dependency {
            return true;
        }
    }
    false
}
