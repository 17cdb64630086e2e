//! The requirement that a dependency has on a version.
ghost use Rattle.std.specs.{Prelude.◌≡◌, Prelude.option_map, Option.option_copied};
ghost use Rattle.cargo_toml.specs.{Dependencies.dependency_meaning, Versions.requirement_meaning};
ghost use Rattle.cargo_toml_tools.specs.IndexEntries.{required_version};

use cargo_toml::Dependency;
use semver::VersionReq;

/// The requirement, where there is one.
pub fn required_version(dependency: &Dependency) -> Option<&VersionReq>
    ensures { option_map requirement_meaning (option_copied result)
        ≡ required_version (dependency_meaning dependency.now) }
{
    match dependency {
        Dependency::Simple(requirement) => Some(requirement),
        Dependency::Inherited(_) => None,
        Dependency::Detailed(detail) => detail.version.as_ref(),
    }
}
