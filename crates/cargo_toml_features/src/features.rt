//! The features of a manifest, and the dependencies that they speak of.
use cargo_toml_package::Dependency;
use std::collections::{BTreeMap, BTreeSet, HashMap};
use std::hash::{BuildHasher, BuildHasherDefault, FoldHasher};

/// The features of a manifest, resolved.
///
/// `S` is the state of its hashed maps; where it is not written, it is the fixed one.
#[derive(Debug, Drop)]
pub struct Features<'m, 'd, S: BuildHasher = BuildHasherDefault<FoldHasher>> {
    /// The features by name, those that optional dependencies imply included.
    pub features: HashMap<&'m str, Feature<'m>, S>,
    /// By key, the dependencies that are optional, that a feature acts on, or whose key a feature
    /// has.
    pub dependencies: HashMap<&'d str, FeatureDependency<'d>, S>,
    /// Whether some feature was hidden and removed.
    pub removed_hidden_features: bool,
    /// By the name of each removed feature what it names once the removed ones below it in byte
    /// order are taken out. The set may have removed names that aren't below it.
    pub hidden_features: HashMap<&'m str, BTreeSet<&'m str>, S>,
}

/// A feature, and what it enables.
#[derive(Debug, Clone, Drop)]
pub struct Feature<'a> {
    /// The feature's name.
    pub key: &'a str,
    /// What the feature does to dependencies, by their keys. Where features were removed, also what
    /// is done by each removed one that this one enables, directly or through removed ones alone.
    pub enables_deps: BTreeMap<&'a str, DepAction<'a>>,
    /// The names that the feature's list has, whether features have them or not. Where features
    /// were removed, also those of each removed one that this one enables, directly or through
    /// removed ones alone, and no removed name.
    pub enables_features: BTreeSet<&'a str>,
    /// The names of the features that enable this one directly, or through removed ones alone. The
    /// feature itself is one of them only where it enables itself through removed ones.
    pub enabled_by: BTreeSet<&'a str>,
    /// The names of the binaries that require this feature, once for each mention; a binary without
    /// a name has the package's. Then those that removed features passed on to it and that didn't
    /// stand here before, each once.
    pub required_by_bins: Vec<&'a str>,
    /// Whether the manifest lists the feature; `default` always counts as listed.
    pub explicit: bool,
    /// Whether users of the package are meant to name the feature. It is false only where the
    /// manifest lists the feature and says so.
    pub public: bool,
    /// The text `doc` of the feature's table, where the manifest lists the feature with one.
    pub doc: Option<&'a str>,
}

/// What a feature does to one dependency.
#[derive(Debug, Clone, PartialEq, Drop)]
pub struct DepAction<'a> {
    /// The action counts only where something else enables the dependency (`dependency?/feature`).
    pub is_conditional: bool,
    /// Of the actions that are joined here one is written `dep:dependency`, which by itself enables
    /// no feature of the dependency's name. Where features were removed, another of them may enable
    /// that feature, whose `enabled_by` then says so.
    pub is_dep_only: bool,
    /// The features of the dependency that are asked for, except those that its first target has
    /// anyway.
    pub dep_features: BTreeSet<&'a str>,
}

/// A dependency that is optional, that a feature acts on, or whose key a feature has.
#[derive(Debug, Drop)]
pub struct FeatureDependency<'d> {
    /// The name of the dependency's crate: of the first entry that counts its `package`, or else
    /// its key.
    pub crate_name: &'d str,
    /// The dependency by where it stands; of several entries of one place that of the first.
    pub targets: BTreeMap<TargetKey<'d>, &'d Dependency>,
}

/// Where a dependency stands; ordered by kind, then no target before a named one.
#[derive(Debug, Copy, Clone, PartialEq, Eq, PartialOrd, Ord, Hash)]
pub struct TargetKey<'a> {
    /// Which of its tables it stands in.
    pub kind: Kind,
    /// The platform that the dependency's table is for, if any.
    pub target: Option<&'a str>,
}

/// One entry of a dependency table.
#[derive(Debug, Clone, Drop)]
pub struct ParseDependency<'a, 't> {
    /// The entry's key in its table.
    pub key: &'a str,
    /// Which table the entry stands in.
    pub kind: Kind,
    /// The platform that the table is for, if any.
    pub target: Option<&'a str>,
    /// The dependency that stands under the key.
    pub dep: &'t Dependency,
}

/// Which of its tables a dependency stands in.
#[derive(Debug, Copy, Clone, PartialEq, Eq, PartialOrd, Ord, Hash, Default)]
pub enum Kind {
    /// `[dependencies]`
    #[default]
    Normal,
    /// `[build-dependencies]`
    Build,
    /// `[dev-dependencies]`
    Dev,
}
