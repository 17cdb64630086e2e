//! What the features of a manifest enable, and which features enable them.
ghost use Rattle.std.specs.Prelude.{◌≡◌, ◌≤◌, [], None, Some, is_some, map, true, IfOk, IfErr};
ghost use Rattle.cargo_toml_parts.specs.declared.error.Error.{Memory};
ghost use Rattle.cargo_toml_parts.specs.Reads.{map_meaning};
ghost use Rattle.cargo_toml_package.specs.Targets.{target_meaning};
ghost use Rattle.cargo_toml_manifest.specs.Inheriting.{own_tables};
ghost use Rattle.cargo_toml_manifest.specs.Manifests.{held};
ghost use Rattle.cargo_toml_graph.specs.Admitted.{Listed, admitted};
ghost use Rattle.cargo_toml_resolve.specs.Filter.{HasNameFilter, IsNameFilter};
ghost use Rattle.cargo_toml_features.specs.declared.admit.TheConstants.{MAX_ITEMS};
ghost use Rattle.cargo_toml_features.specs.Entries.{tables_meaning};
ghost use Rattle.cargo_toml_features.specs.FirstTarget.{HaveTargets};
ghost use Rattle.cargo_toml_features.specs.Hashed.{IsListingOf};
ghost use Rattle.cargo_toml_features.specs.Reached.{IsKeyed};
ghost use Rattle.cargo_toml_features.specs.Views.{answer_of, entry_of};
ghost use Rattle.cargo_toml_resolver.specs.Filtered.{filter_of, limit_of, state_of};
ghost use Rattle.cargo_toml_resolver.specs.Parsed.{AreBinsComplete, IsAnswerFor, IsParsed};
ghost use Rattle.cargo_toml_resolver.specs.Parsed.{IsCustomAnswer, IsHiding, IsParsedBy};

pub use crate::complete_and_parse::complete_and_parse_into;
use crate::heap::keep_heap;
use crate::requirements::requirements;
use cargo_toml_features::admit::{MAX_ITEMS, hashed_listings, listings};
use cargo_toml_features::entries::{Tables, entries_of};
pub use cargo_toml_features::features::{
    DepAction, Feature, FeatureDependency, Features, Kind, ParseDependency, TargetKey,
};
pub use cargo_toml_features::questions::NonDefaultEnabledBy;
pub use cargo_toml_features::recursive::DependenciesEnabledByFeatures;
use cargo_toml_manifest::Manifest;
use cargo_toml_parts::Error;
use cargo_toml_resolve::{Lists, resolve};
use std::alloc::Global;
use std::collections::HashMap;
use std::hash::{BuildHasher, BuildHasherDefault, FoldHasher};

/// Resolves the features of manifests.
///
/// `S` is the state of the hashed maps in an answer: each map that is made gets a copy of it.
/// `F` is the type of the filter. Where neither is written, they are those of [`Resolver::new`].
#[derive(Drop)]
pub struct Resolver<'config, F = fn(&str) -> bool, S = BuildHasherDefault<FoldHasher>> {
    should_keep_hidden_feature: Option<&'config F>,
    state: S,
    max_items: usize,
}

impl Resolver<'static, fn(&str) -> bool, BuildHasherDefault<FoldHasher>> {
    /// A resolver with the fixed state of hashed maps, a limit of 2048 items and no filter: all
    /// features whose names begin with `_` are removed.
    ///
    /// The seed of that state is known, so a stranger can choose names that collide in the maps of
    /// an answer, which then take time quadratic in the number of these names.
    /// [`Resolver::new_with_hasher_and_filter`] takes a random state.
    pub fn new() -> Self
        ensures unfiltered { filter_of result ≡ None }
        ensures limit { limit_of result ≡ MAX_ITEMS }
    {
        Resolver {
            should_keep_hidden_feature: None,
            state: BuildHasherDefault::new(),
            max_items: MAX_ITEMS,
        }
    }
}

impl<'config, F: Fn(&str) -> bool, S> Resolver<'config, F, S> {
    /// A resolver with this state of hashed maps, a limit of 2048 items and this filter, which is
    /// asked for names that begin with `_`: features for which it answers false are removed. Who
    /// reads what strangers wrote hands in a random state, as `RandomState::new(rt)?`.
    ///
    /// The filter may be called on every text, and answers each in one way. How often it is asked,
    /// and in which order, is open.
    pub fn new_with_hasher_and_filter(state: S, should_keep_hidden_feature: &'config F) -> Self
        requires { IsNameFilter F.Fn should_keep_hidden_feature.now }
        ensures kept { filter_of result ≡ Some should_keep_hidden_feature.entry }
        ensures state { state_of result ≡ state }
        ensures limit { limit_of result ≡ MAX_ITEMS }
    {
        Resolver {
            should_keep_hidden_feature: Some(should_keep_hidden_feature),
            state,
            max_items: MAX_ITEMS,
        }
    }
}

impl<'config, F, S> Resolver<'config, F, S> {
    /// The same resolver with this limit of items, in place of 2048 or of an earlier one. Its
    /// filter and its state stay; of several calls the last counts. The limit is at least 1.
    ///
    /// So many names of the table of features count, and always `default`; so many texts of each
    /// feature's list; so many keys of each table of dependencies. The ten binaries that a removed
    /// feature passes on are no such items.
    pub fn with_max_items(self, max_items: usize) -> Self
        requires { 1 ≤ max_items }
        ensures limit { limit_of result ≡ max_items }
        ensures filter { filter_of result ≡ filter_of self.entry }
        ensures state { state_of result ≡ state_of self.entry }
    {
        Resolver { max_items, ..self }
    }
}

impl<'config, F: Fn(&str) -> bool, S: BuildHasher + Clone> Resolver<'config, F, S> {
    /// Resolves the features of a manifest: those that `[features]` lists, and those that optional
    /// dependencies imply.
    ///
    /// The answer has the features that the manifest lists, and `default`, each with what its list
    /// names and what it does to dependencies. It has a feature for each optional dependency whose
    /// key no feature has and no `dep:` keeps for itself.
    ///
    /// It has the dependencies that are optional, that a feature acts on, or whose key a feature
    /// has, with each target that they stand under. Their entries come in this order: normal and
    /// build dependencies, those of each target, dev dependencies, those of each target. Of a key
    /// that no listed feature has or acts on, and that isn't `default`, the entries before the
    /// first optional one don't count. The first that counts gives the crate's name: its `package`,
    /// or else the key.
    ///
    /// The enablers of a feature are the others that name it, and those that act on the dependency
    /// of its name neither conditionally nor by `dep:`. Beside them it has the binaries that
    /// require it, once for each mention. One without a name has the package's; without a package
    /// there are none.
    ///
    /// Where a dependency's first target is `Dependency::Detailed`, the features that it asks for
    /// anyway are left out of actions: `default`, unless it turns default features off, and those
    /// that it lists.
    ///
    /// The limit n of items is 2048 unless [`Resolver::with_max_items`] set another. So many count:
    ///
    /// - of the table of features the first n names in byte order, and `default`;
    /// - of each feature's list the first n texts;
    /// - of each table of dependencies the first n keys.
    ///
    /// A feature that counts and that the manifest lists is public, and has a text, as the
    /// manifest's `feature_details` say of its name. Any other is public and has no text: one that
    /// a dependency implies, and `default` where it isn't listed. What is said of a removed
    /// feature goes with it.
    ///
    /// Every text is borrowed from the manifest. Each feature stands under its own key, as
    /// [`Feature::enables_recursive`] asks, and each dependency has a target, as
    /// [`FeatureDependency::dep`] asks.
    ///
    /// Features whose names begin with `_` are then removed, except those that the filter keeps.
    /// The filter, if there is one, may be called on every text, and answers each in one way. What
    /// a removed feature says, its enablers say in its place, through any number of removed ones:
    ///
    /// - they name what it names, except removed names;
    /// - they act as it acts, and their actions on one dependency are joined, as those of one list
    ///   are: conditional where all are, by `dep:` where one is, with the features of all;
    /// - they are enablers of what it enables, so that a feature can become its own enabler.
    ///
    /// In byte order of their names, each removed feature passes its binaries on to each feature
    /// that it then names: the first ten of its list, as it then stands. A binary that the other
    /// list has already isn't put there again. So where binaries mention removed features at most
    /// ten times, none is lost on its way along names.
    ///
    /// `removed_hidden_features` says whether some feature was removed. `hidden_features` has a set
    /// for each removed one: what it names once the removed ones below it in byte order are taken
    /// out. These are its own names, and those of each removed feature below it to which it leads
    /// through such features alone. A feature leads to those that it names, and to that of a
    /// dependency on which it acts neither conditionally nor by `dep:`. The set has no removed name
    /// below the feature's own; it may have that name, and removed ones above.
    ///
    /// Beside an answer at the same limit, by a filter that keeps every name:
    ///
    /// - between features of this answer the transitive closure of `enabled_by` is the same;
    /// - what [`Feature::enables_recursive`] answers for one of them loses no feature of this
    ///   answer, no dependency, and no feature that is asked of one.
    ///
    /// No name of a removed feature is left in `enables_features` or `enabled_by`.
    ///
    /// The one refusal is [`Error::Memory`], when out of memory.
    pub fn parse<'m, M>(
        &self,
        alloc: Global,
        manifest: &'m Manifest<M>,
    ) -> Result<Features<'m, 'm, S>, Error>
        requires { HasNameFilter F.Fn (filter_of self.now) }
        ensures resolved { IfOk result (λ a. IsParsedBy (limit_of self.now)
            (held manifest.now) F.Fn (filter_of self.now) (answer_of a)) }
        ensures hiding { IfOk result (λ a. IsHiding
            (IsParsed (limit_of self.now) (held manifest.now) (λ _. true))
            (answer_of a)) }
        ensures complete_bins { IfOk result (λ a. AreBinsComplete (limit_of self.now)
            (held manifest.now) (λ r. is_some ((answer_of a).redirects r))
            (answer_of a)) }
        ensures keyed { IfOk result (λ a. IsKeyed a.features) }
        ensures targets { IfOk result (λ a. HaveTargets a.dependencies) }
        ensures refused { IfErr result (λ e. e ≡ Memory) }
    {
        let details = &manifest.feature_details;
        let listings = listings(alloc, &manifest.features, details, self.max_items)?;
        let entries = entries_of(alloc, tables_of(manifest), self.max_items)?;
        keep_heap(alloc, listings.len(), entries.len());
        let requirements = requirements(alloc, manifest)?;
        let of_manifest = Lists {
            listings: listings.as_slice(),
            entries: entries.as_slice(),
            requirements: requirements.as_slice(),
        };
        let filter = self.should_keep_hidden_feature;
        Ok(resolve(alloc, &self.state, filter, &of_manifest)?)
    }

    /// Resolves features and dependencies that stand in no manifest, as those of a registry's
    /// index.
    ///
    /// It answers as [`Resolver::parse`] does of the same features and of these entries in their
    /// order, whose number no limit cuts. In two points it differs: no binary requires a feature,
    /// and each feature is public and has no text. The hashed table's order doesn't matter: of its
    /// names those count that come first in byte order, up to the limit, and `default`. Features
    /// borrow from the table and from the entries' keys, dependencies from the entries.
    ///
    /// The filter, if there is one, may be called on every text, and answers each in one way.
    ///
    /// The one refusal is [`Error::Memory`], when out of memory.
    pub fn parse_custom<'m: 'd, 'd, S2: BuildHasher>(
        &self,
        alloc: Global,
        features: &'m HashMap<String, Vec<String>, S2>,
        dependencies: &[ParseDependency<'m, 'd>],
    ) -> Result<Features<'m, 'd, S>, Error>
        requires { HasNameFilter F.Fn (filter_of self.now) }
        ensures resolved { IfOk result (λ a. (listed : Listed) → IsListingOf features.now listed
            → IsCustomAnswer F.Fn (filter_of self.now) (admitted (limit_of self.now) listed)
            (map entry_of dependencies.now) (answer_of a)) }
        ensures hiding { IfOk result (λ a. (listed : Listed) → IsListingOf features.now listed
            → IsHiding (IsAnswerFor (limit_of self.now) listed (map entry_of dependencies.now) []
            (λ _. []) (λ _. true)) (answer_of a)) }
        ensures listed { IfOk result (λ _. (listed : Listed) × IsListingOf features.now listed) }
        ensures keyed { IfOk result (λ a. IsKeyed a.features) }
        ensures targets { IfOk result (λ a. HaveTargets a.dependencies) }
        ensures refused { IfErr result (λ e. e ≡ Memory) }
    {
        let listings = hashed_listings(alloc, features, self.max_items)?;
        let lists = Lists {
            listings: listings.as_slice(),
            entries: dependencies,
            requirements: &[],
        };
        let filter = self.should_keep_hidden_feature;
        Ok(resolve(alloc, &self.state, filter, &lists)?)
    }
}

// The tables of a manifest's dependencies.
fn tables_of<M>(manifest: &Manifest<M>) -> Tables<'_>
    ensures own { tables_meaning result ≡ own_tables (held manifest.now) }
    ensures targets { map_meaning target_meaning result.target.now
        ≡ (held manifest.now).target }
{
    Tables {
        dependencies: &manifest.dependencies,
        build_dependencies: &manifest.build_dependencies,
        dev_dependencies: &manifest.dev_dependencies,
        target: &manifest.target,
    }
}
