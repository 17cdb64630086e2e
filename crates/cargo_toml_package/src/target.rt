//! Tables of dependencies, and those of some targets alone, and what is written of features.
ghost use Rattle.std.specs.Prelude.{◌≡◌, Some, option_and_then};
ghost use Rattle.toml.specs.Data.{as_table, no_members};
ghost use Rattle.cargo_toml_package.specs.Details.{detail_of, plain_detail};
ghost use Rattle.cargo_toml_package.specs.Targets.{TargetMeaning, target_meaning, target_of};

use crate::dependency::Dependency;
use cargo_toml_parts::error::Error;
use cargo_toml_parts::read::{Read, into_table};
use cargo_toml_parts::reading::{Reading, ended};
use std::alloc::Global;
use std::collections::BTreeMap;
use toml::Value;

/// Dependencies, by key.
pub type DepsSet = BTreeMap<String, Dependency>;

/// The table `target`: dependencies of some targets alone, by the name of the target or
/// a condition on it.
pub type TargetDepsSet = BTreeMap<String, Target>;

/// The table `features`: for each feature what it enables.
pub type FeatureSet = BTreeMap<String, Vec<String>>;

/// What the table `features` says of some features beside what they enable.
pub type FeatureDetails = BTreeMap<String, FeatureDetail>;

/// The table `patch`: for each registry the dependencies that are taken from elsewhere.
pub type PatchSet = BTreeMap<String, DepsSet>;

/// What the table of a feature says beside what the feature enables.
#[derive(Clone, Debug, PartialEq, Eq, Drop)]
pub struct FeatureDetail {
    /// Whether users of the package are meant to name the feature: the key `public`, true where it
    /// is missing.
    pub public: bool,
    /// What is said of the feature: the key `doc`.
    pub doc: Option<String>,
}

/// A public feature without a text.
impl Default for FeatureDetail {
    ghost is_default = { λ detail. detail_of detail ≡ plain_detail };

    fn default() -> FeatureDetail {
        FeatureDetail {
            public: true,
            doc: None,
        }
    }
}

/// The dependencies of some targets alone.
#[derive(Clone, Debug, PartialEq, Drop)]
pub struct Target {
    /// The table `dependencies`.
    pub dependencies: DepsSet,
    /// The table `dev-dependencies`, for tests, examples and benchmarks.
    pub dev_dependencies: DepsSet,
    /// The table `build-dependencies`, for build scripts.
    pub build_dependencies: DepsSet,
}

impl Target {
    /// No dependency at all. It takes no memory.
    pub fn default(alloc: Global) -> Target
        ensures { target_of no_members ≡ Some (target_meaning result) }
    {
        Target {
            dependencies: BTreeMap::new(alloc),
            dev_dependencies: BTreeMap::new(alloc),
            build_dependencies: BTreeMap::new(alloc),
        }
    }
}

impl Read for Target {
    ghost Meaning = { TargetMeaning };

    ghost meaning = { target_meaning };

    ghost reads = { λ d. option_and_then target_of (as_table d) };

    fn read_owned(alloc: Global, value: Value) -> Result<Target, Error> {
        let mut rest = into_table(value)?;
        let mut reading = Reading::new(alloc);
        let mut whole = Target::default(alloc);
        reading.take(&mut rest, "dependencies", &mut whole.dependencies);
        reading.take(&mut rest, "dev-dependencies", &mut whole.dev_dependencies);
        reading.take(
            &mut rest,
            "build-dependencies",
            &mut whole.build_dependencies,
        );
        ended(reading.fault, whole)
    }
}
