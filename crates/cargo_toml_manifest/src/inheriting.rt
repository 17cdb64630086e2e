//! What a manifest takes from its workspace: first made, then put in, so that a
//! refusal changes nothing.
ghost use Rattle.std.specs.{Prelude.◌≡◌, Prelude.option_map, Option.option_copied};
ghost use Rattle.cargo_toml_parts.specs.Answers.{Gives};
ghost use Rattle.cargo_toml_parts.specs.Reads.{map_meaning};
ghost use Rattle.cargo_toml_package.specs.Dependencies.{dependency_meaning};
ghost use Rattle.cargo_toml_package.specs.InheritedDependencies.{inherited_target};
ghost use Rattle.cargo_toml_package.specs.Replacing.{replaced_target};
ghost use Rattle.cargo_toml_package.specs.Packages.{held_package};
ghost use Rattle.cargo_toml_package.specs.Templates.{template_meaning};
ghost use Rattle.cargo_toml_parts.specs.Lints.{lint_meaning};
ghost use Rattle.cargo_toml_package.specs.Sharing.{shared_of};
ghost use Rattle.cargo_toml_manifest.specs.Inheriting.{inherited_if_there, inherited_from};
ghost use Rattle.cargo_toml_manifest.specs.Inheriting.{inherited_manifest, own_tables};
ghost use Rattle.cargo_toml_manifest.specs.Installing.{installed, installed_if_there};
ghost use Rattle.cargo_toml_manifest.specs.Manifests.{held};

use crate::manifest::Manifest;
use cargo_toml_package::inheriting::{NewFields, install, new_fields, put};
use cargo_toml_package::sharing::{NewParts, new_lints};
use cargo_toml_package::workspace_dependencies::{
    NewTarget, replace, replace_targets, replacements, target_replacements,
};
use cargo_toml_package::{DepsSet, Package, PackageTemplate, Workspace};
use cargo_toml_parts::{Error, LintGroups};
use std::alloc::Global;

// What the inherited dependencies of the manifest's own tables become.
fn new_tables<Metadata>(
    alloc: Global,
    manifest: &Manifest<Metadata>,
    templates: Option<&DepsSet>,
    base: &str,
) -> Result<NewTarget, Error>
    ensures { Gives (replaced_target (own_tables (held manifest.now))) result
        (inherited_target
        (option_map (map_meaning dependency_meaning) (option_copied templates.entry)) base.now
        (own_tables (held manifest.now))) }
{
    let dependencies = replacements(alloc, templates, base, &manifest.dependencies)?;
    let build_dependencies = replacements(alloc, templates, base, &manifest.build_dependencies)?;
    let dev_dependencies = replacements(alloc, templates, base, &manifest.dev_dependencies)?;
    Ok(NewTarget {
        dependencies,
        build_dependencies,
        dev_dependencies,
    })
}

// What the package takes, where there is one.
fn new_package<Metadata>(
    alloc: Global,
    package: Option<&Package<Metadata>>,
    template: Option<&PackageTemplate>,
    base: &str,
) -> Result<Option<NewFields>, Error>
    ensures { Gives
        (installed_if_there (option_map held_package (option_copied «package».entry)))
        result
        (inherited_if_there (option_map template_meaning (option_copied template.entry)) base.now
        (option_map held_package (option_copied «package».entry))) }
{
    match package {
        Some(package) => Ok(Some(new_fields(alloc, package, template, base)?)),
        None => Ok(None),
    }
}

// The tables of a workspace from which a manifest takes parts: dependencies, lints and package.
#[derive(Clone, Copy)]
struct SharedTables<'a> {
    templates: Option<&'a DepsSet>,
    groups: Option<&'a LintGroups>,
    template: Option<&'a PackageTemplate>,
}

// What a manifest takes from these tables of a workspace.
fn parts_from<Metadata>(
    alloc: Global,
    manifest: &Manifest<Metadata>,
    shared: SharedTables<'_>,
    base: &str,
) -> Result<NewParts, Error>
    ensures { Gives (installed (held manifest.now)) result
        (inherited_from
        (option_map (map_meaning dependency_meaning) (option_copied shared.entry.templates))
        (option_map (map_meaning (map_meaning lint_meaning)) (option_copied shared.entry.groups))
        (option_map template_meaning (option_copied shared.entry.template)) base.now
        (held manifest.now)) }
{
    let templates = shared.templates;
    let tables = new_tables(alloc, manifest, templates, base)?;
    let targets = target_replacements(alloc, templates, base, &manifest.target)?;
    let lints = new_lints(alloc, &manifest.lints, shared.groups)?;
    let package = new_package(alloc, manifest.package.as_ref(), shared.template, base)?;
    Ok(NewParts {
        tables,
        targets,
        lints,
        package,
    })
}

/// What a manifest takes from a workspace table, if there is one, with paths joined to `base`, the
/// workspace's folder.
///
/// Refused by the first fault in this order:
///
/// - of `dependencies`, `build-dependencies` and `dev-dependencies`, then of the same three of each
///   target, by key (see `replacements`);
/// - `WorkspaceIntegrity` where lints are left to a workspace without a table;
/// - of the package (see `new_fields`).
///
/// Out of memory is `Memory`.
pub fn new_parts<Metadata, N>(
    alloc: Global,
    manifest: &Manifest<Metadata>,
    workspace: Option<&Workspace<N>>,
    base: &str,
) -> Result<NewParts, Error>
    ensures { Gives (installed (held manifest.now)) result
        (inherited_manifest (shared_of (option_copied workspace.entry)) base.now
        (held manifest.now)) }
{
    match workspace {
        Some(workspace) => {
            let shared = SharedTables {
                templates: Some(&workspace.dependencies),
                groups: Some(&workspace.lints),
                template: workspace.package.as_ref(),
            };
            parts_from(alloc, manifest, shared, base)
        }
        None => {
            let shared = SharedTables {
                templates: None,
                groups: None,
                template: None,
            };
            parts_from(alloc, manifest, shared, base)
        }
    }
}

// Puts the fields into the package, where there is one.
fn put_package<Metadata: Drop>(package: &mut Option<Package<Metadata>>, new: Option<NewFields>)
    ensures { option_map held_package «package».new
        ≡ installed_if_there (option_map held_package «package».old) new }
{
    let Some(package) = package else {
        // By a call, since what is dropped at a function's end is looked at field by field.
        drop(new);
        return;
    };
    if let Some(new) = new {
        install(package, new);
    }
}

/// Puts the parts in place of what the manifest left to its workspace. All else stays, and metadata
/// are not touched. It takes no memory.
pub fn install_parts<Metadata: Drop>(manifest: &mut Manifest<Metadata>, new: NewParts)
    ensures { held manifest.new
        ≡ installed (held manifest.old) new }
{
    let NewParts {
        tables,
        targets,
        lints,
        package,
    } = new;
    replace(&mut manifest.dependencies, tables.dependencies);
    replace(&mut manifest.build_dependencies, tables.build_dependencies);
    replace(&mut manifest.dev_dependencies, tables.dev_dependencies);
    replace_targets(&mut manifest.target, targets);
    put(&mut manifest.lints, lints);
    put_package(&mut manifest.package, package);
}
