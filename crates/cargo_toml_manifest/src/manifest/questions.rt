// What is asked of a manifest.
ghost use Rattle.std.specs.Prelude.{◌≡◌, IsSome, Some};
ghost use Rattle.cargo_toml_parts.specs.InheritableValues.{value_of};
ghost use Rattle.cargo_toml_manifest.specs.Inheriting.{needs};
ghost use Rattle.cargo_toml_manifest.specs.Manifests.{held};

use super::Manifest;
use cargo_toml_package::Package;
use cargo_toml_package::inheriting::any_field_inherited;
use cargo_toml_package::workspace_dependencies::{any_inherited, any_target_inherits};
use cargo_toml_parts::{Inheritable, LintGroups};

impl<Metadata> Manifest<Metadata> {
    /// The package.
    ///
    /// There must be one, as there is not in a manifest of a workspace alone: ask
    /// `self.package.is_some()`, or match on the field, where that isn't known.
    pub fn package(&self) -> &Package<Metadata>
        requires { IsSome self.now.package }
        ensures { self.now.package ≡ Some result.now }
    {
        match &self.package {
            Some(package) => package,
            None => unreachable!(),
        }
    }

    /// The lints, by tool and then by name.
    ///
    /// They must be set: ask `self.lints.is_set()`, or call `self.lints.get()`,
    /// where that isn't known.
    pub fn lints(&self) -> &LintGroups
        requires { IsSome (value_of self.now.lints) }
        ensures { value_of self.now.lints ≡ Some result.now }
    {
        match &self.lints {
            Inheritable::Set(lints) => lints,
            Inheritable::Inherited => unreachable!(),
        }
    }

    /// Whether something is left to the workspace: a field of the package, the lints, or a
    /// dependency of one of the three tables or of a target's three. Where nothing is, every getter
    /// of the manifest's package and `lints` may be called.
    pub fn needs_workspace_inheritance(&self) -> bool
        ensures { result ≡ needs (held self.now) }
    {
        let package_needs = match &self.package {
            Some(package) => any_field_inherited(package),
            None => false,
        };
        package_needs
            || !self.lints.is_set()
            || any_inherited(&self.dependencies)
            || any_inherited(&self.dev_dependencies)
            || any_inherited(&self.build_dependencies)
            || any_target_inherits(&self.target)
    }
}
