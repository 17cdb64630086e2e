//! What the features of a manifest enable, and which features enable them.

pub use cargo_toml_features::laws;
pub use cargo_toml_resolver::resolving::{
    DepAction, DependenciesEnabledByFeatures, Feature, FeatureDependency, Features, Kind,
    NonDefaultEnabledBy, ParseDependency, Resolver, TargetKey, complete_and_parse_into,
};
