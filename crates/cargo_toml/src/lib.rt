//! Typed Cargo manifests, and the resolution of their features.
//!
//! - `Manifest::from_slice` reads a `Cargo.toml`, and `Manifest::from_path` completes it, too.
//! - `complete_from_path` and `complete_from_abstract_filesystem` fill in what a workspace gives,
//!   and add the targets that are found in folders.
//! - `features::Resolver` resolves the features of a manifest.
//! - `ToValue::to_value` writes a manifest to a tree of TOML.
//!
//! docs/PROVED.md says what is proved of each, and docs/DEFINITIONS.md what that rests on.
#![tactic(auto)]

pub mod features;

pub use cargo_toml_manifest::{
    AbstractFilesystem, Filesystem, Manifest, NoRoot, OwnRoot, ParsedRoot, Roots, Workspace,
};
pub use cargo_toml_package::{
    Dependency, DependencyDetail, DepsSet, FeatureDetail, FeatureDetails, FeatureSet,
    InheritedDependencyDetail, Package, PackageTemplate, PatchSet, Target, TargetDepsSet,
};
pub use cargo_toml_parts::{
    Badge, Badges, DebugSetting, Edition, Error, FromValue, Inheritable, Lint, LintGroups,
    LintLevel, LintSet, LtoSetting, Maintenance, MaintenanceStatus, OptionalFile, ParseFault,
    Product, Profile, Profiles, Publish, Resolver, SemVer, StripSetting, Value, VersionReq,
};
pub use cargo_toml_write::ToValue;
