//! What a manifest leaves to its workspace.
ghost use Rattle.std.specs.Prelude.{◌≡◌, [], map, option_map};
ghost use Rattle.std.specs.Option.{option_copied, option_map_or};
ghost use Rattle.cargo_toml.specs.{Dependencies.dependency_meaning, InheritedDependencies.is_left};
ghost use Rattle.cargo_toml.specs.{InheritedPackages.leavable_rows, Packages.held_package};
ghost use Rattle.cargo_toml.specs.{Manifests.held, Reads.map_meaning, Targets.target_meaning};
ghost use Rattle.cargo_toml_package.specs.Replacing.{entries_meaning};
ghost use Rattle.cargo_toml_tools.specs.Left.{first_left, first_of, left_entry, left_in_package};
ghost use Rattle.cargo_toml_tools.specs.Left.{left_in, left_key, left_of, left_target};

use cargo_toml::{Dependency, DepsSet, Manifest, Package, Target, TargetDepsSet};
use cargo_toml_package::inheriting::leavable_rows;

/// A key that is left to a workspace.
#[derive(Clone, Copy, Debug, PartialEq, Eq)]
pub struct Left<'m> {
    /// The target whose table it stands in, if it does in one's.
    pub target: Option<&'m str>,
    /// The name of the table.
    pub table: &'static str,
    /// The key.
    pub key: &'m str,
}

/// The first key that a manifest leaves to a workspace, whichever that is; `None` where it leaves
/// none. First come those of `package`, then `lints.workspace`. Then come `dependencies`,
/// `dev-dependencies` and `build-dependencies`, each by key, and at last the same three of targets.
pub fn first_left<M>(manifest: &Manifest<M>) -> Option<Left<'_>>
    ensures { option_map left_of result ≡ first_left (held manifest.now) }
{
    let target = None;
    let lints = Left {
        target,
        table: "lints",
        key: "workspace",
    };
    let (dev, build) = (&manifest.dev_dependencies, &manifest.build_dependencies);
    left_in_package(&manifest.package)
        .or((!manifest.lints.is_set()).then_some(lints))
        .or(left_in(target, &manifest.dependencies, dev, build))
        .or(left_in_targets(&manifest.target))
}

fn left_in_package<M>(held: &Option<Package<M>>) -> Option<Left<'_>>
    ensures { option_map left_of result
        ≡ left_in_package (option_map_or leavable_rows (option_map held_package held.now) []) }
{
    match held {
        Some(package) => {
            let key = left_key(&leavable_rows(package))?;
            let target = None;
            Some(Left {
                target,
                table: "package",
                key,
            })
        }
        None => None,
    }
}

/// The first of these keys that is left.
fn left_key(rows: &[(&'static str, bool)]) -> Option<&'static str>
    ensures { option_copied result
        ≡ first_of left_key (map (λ r. (r.0.now, r.1)) rows.now) }
{
    for (key, is_left) in rows {
        if *is_left {
            return Some(*key);
        }
    }
    None
}

fn left_in_targets(targets: &TargetDepsSet) -> Option<Left<'_>>
    ensures { option_map left_of result
        ≡ first_of left_target (map_meaning target_meaning targets.now) }
{
    for (name, target) in targets {
        let left = left_target(name.as_str(), target);
        if left.is_some() {
            return left;
        }
    }
    None
}

fn left_target<'m>(name: &'m str, target: &'m Target) -> Option<Left<'m>>
    ensures { option_map left_of result ≡ left_target (name.now, target_meaning target.now) }
{
    let (dev, build) = (&target.dev_dependencies, &target.build_dependencies);
    left_in(Some(name), &target.dependencies, dev, build)
}

/// The first dependency of three tables of a target, or of none, that is left.
fn left_in<'m>(
    target: Option<&'m str>,
    normal: &'m DepsSet,
    dev: &'m DepsSet,
    build: &'m DepsSet,
) -> Option<Left<'m>>
    ensures { option_map left_of result ≡ left_in (option_copied target.entry)
        (entries_meaning normal.now) (entries_meaning dev.now) (entries_meaning build.now) }
{
    left_entry(target, "dependencies", normal)
        .or(left_entry(target, "dev-dependencies", dev))
        .or(left_entry(target, "build-dependencies", build))
}

/// The first dependency of a table that is left.
fn left_entry<'m>(
    target: Option<&'m str>,
    table: &'static str,
    entries: &'m DepsSet,
) -> Option<Left<'m>>
    ensures { option_map left_of result ≡ first_of
        (left_entry (option_copied target.entry) table.now) (entries_meaning entries.now) }
{
    for (key, dependency) in entries {
        if is_left(dependency) {
            return Some(Left {
                target,
                table,
                key: key.as_str(),
            });
        }
    }
    None
}

fn is_left(dependency: &Dependency) -> bool
    ensures { result ≡ is_left (dependency_meaning dependency.now) }
{
    matches!(dependency, Dependency::Inherited(_))
}
