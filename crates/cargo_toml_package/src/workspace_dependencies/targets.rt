// Filling in the dependencies of targets.
ghost use Rattle.std.specs.Prelude.{◌≡◌, drop, option_map};
ghost use Rattle.std.specs.Option.{option_copied};
ghost use Rattle.std.specs.Vec.Iter.{into_iter_items};
ghost use Rattle.cargo_toml_parts.specs.Answers.{Gives};
ghost use Rattle.cargo_toml_package.specs.InheritedDependencies.{any_target_left, inherited_target};
ghost use Rattle.cargo_toml_package.specs.InheritedDependencies.{inherited_targets, target_left};
ghost use Rattle.cargo_toml_package.specs.Replacing.{entries_meaning, next_target};
ghost use Rattle.cargo_toml_package.specs.Replacing.{replaced_target, replaced_targets};
ghost use Rattle.cargo_toml_package.specs.Replacing.{targets_meaning};
ghost use Rattle.cargo_toml_package.specs.Targets.{target_meaning};

use super::{any_inherited, replace, replacements};
use crate::dependency::Dependency;
use crate::target::{DepsSet, Target, TargetDepsSet};
use cargo_toml_parts::error::Error;
use std::alloc::Global;
use std::vec::IntoIter;

/// What the inherited dependencies of one target become.
#[derive(Drop)]
pub struct NewTarget {
    /// Those of the table `dependencies`, in the order of their keys.
    pub dependencies: Vec<Dependency>,
    /// Those of the table `build-dependencies`.
    pub build_dependencies: Vec<Dependency>,
    /// Those of the table `dev-dependencies`.
    pub dev_dependencies: Vec<Dependency>,
}

// What the inherited dependencies of a target become.
fn new_target(
    alloc: Global,
    templates: Option<&DepsSet>,
    base: &str,
    target: &Target,
) -> Result<NewTarget, Error>
    ensures { Gives (replaced_target (target_meaning target.now)) result
        (inherited_target (option_map entries_meaning (option_copied templates.entry)) base.now
        (target_meaning target.now)) }
{
    let dependencies = replacements(alloc, templates, base, &target.dependencies)?;
    let build_dependencies = replacements(alloc, templates, base, &target.build_dependencies)?;
    let dev_dependencies = replacements(alloc, templates, base, &target.dev_dependencies)?;
    Ok(NewTarget {
        dependencies,
        build_dependencies,
        dev_dependencies,
    })
}

/// What the inherited dependencies of each target become, in the order of the targets' names, as
/// `replacements` makes them. Hand the answer to `replace_targets`.
///
/// The first fault of `replacements` counts: target after target, and in each its
/// `dependencies`, then its `build-dependencies`, then its `dev-dependencies`. Refused by
/// `Memory` where there was none.
pub fn target_replacements(
    alloc: Global,
    templates: Option<&DepsSet>,
    base: &str,
    targets: &TargetDepsSet,
) -> Result<Vec<NewTarget>, Error>
    ensures { Gives (λ made. replaced_targets (targets_meaning targets.now) made.items) result
        (inherited_targets (option_map entries_meaning (option_copied templates.entry)) base.now
        (targets_meaning targets.now)) }
{
    let mut made = Vec::with_capacity(alloc, targets.len())?;
    for (_, target) in targets {
        made.push(new_target(alloc, templates, base, target)?)?;
    }
    Ok(made)
}

// Puts what was made for a target into it.
fn replace_target(target: &mut Target, new: NewTarget)
    ensures { target_meaning target.new ≡ replaced_target (target_meaning target.old) new }
{
    replace(&mut target.dependencies, new.dependencies);
    replace(&mut target.build_dependencies, new.build_dependencies);
    replace(&mut target.dev_dependencies, new.dev_dependencies);
}

// Puts the next one into a target.
fn put_next_target(target: &mut Target, made: &mut IntoIter<NewTarget>)
    ensures target { target_meaning target.new
        ≡ next_target (target_meaning target.old) (into_iter_items made.old) }
    ensures rest { into_iter_items made.new ≡ drop 1 (into_iter_items made.old) }
{
    if let Some(new) = made.next() {
        replace_target(target, new);
    }
}

/// Puts what was made into the targets, in the order of their names, as `replace` does; targets for
/// which nothing was made are left as they are. It takes no memory.
pub fn replace_targets(targets: &mut TargetDepsSet, made: Vec<NewTarget>)
    ensures { targets_meaning targets.new
        ≡ replaced_targets (targets_meaning targets.old) made.items }
{
    let mut made = made.into_iter();
    targets.retain(|_, target| {
        put_next_target(target, &mut made);
        true
    });
}

// Whether a dependency of the target is left to the workspace.
fn inherits(target: &Target) -> bool
    ensures { result ≡ target_left (target_meaning target.now) }
{
    any_inherited(&target.dependencies)
        || any_inherited(&target.dev_dependencies)
        || any_inherited(&target.build_dependencies)
}

/// Whether a dependency of a target is left to the workspace.
pub fn any_target_inherits(targets: &TargetDepsSet) -> bool
    ensures { result ≡ any_target_left (targets_meaning targets.now) }
{
    for (_, target) in targets {
        if inherits(target) {
            return true;
        }
    }
    false
}
