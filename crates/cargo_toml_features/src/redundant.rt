//! Features of dependencies that are on anyway.
ghost use Rattle.std.specs.Prelude.{◌≡◌, IfOk, List, OnOk, Option, Some, bytes_eq, length, map};
ghost use Rattle.std.specs.{Prelude.option_map, Prelude.string_bytes, List.list_any};
ghost use Rattle.std.specs.{Option.ForSome};
ghost use Rattle.cargo_toml_package.specs.Dependencies.{dependency_meaning};
ghost use Rattle.cargo_toml_graph.specs.Action.{Text};
ghost use Rattle.cargo_toml_features.specs.Recorded.{Entry, first_target, is_redundant};
ghost use Rattle.cargo_toml_features.specs.Recorded.{recorded_of};
ghost use Rattle.cargo_toml_features.specs.FullGraph.{recorded_at, AreRedundantOf, IsRecordOf};
ghost use Rattle.cargo_toml_features.specs.FullGraph.{IsSaidOf, has_redundant};
ghost use Rattle.cargo_toml_features.specs.{Made.thinned, Said.said_by, Searching.has_key};
ghost use Rattle.cargo_toml_features.specs.{Views.recorded_in};

use crate::features::FeatureDependency;
use crate::said::ListItem;
use crate::slots::{RedundantFeatures, Slots};
use crate::texts::{FEW, ascending, place_of};
use cargo_toml_package::Dependency;
use std::alloc::{AllocError, Global};

impl RedundantFeatures<'_> {
    // Whether the detail lists the feature.
    fn lists(&self, feature: &str) -> bool
        ensures { result ≡ has_key self.now.listed feature.now }
    {
        place_of(self.listed.as_slice(), feature).is_some()
    }

    // Whether the feature is one of them.
    fn has(&self, feature: &str) -> bool
        ensures { result ≡ has_redundant (Some self.now) feature.now }
    {
        (self.has_default && feature == "default") || self.lists(feature)
    }
}

// The texts, as they stand.
fn texts_of<'d>(alloc: Global, features: &'d [String]) -> Result<Vec<&'d str>, AllocError>
    ensures { IfOk result (λ v. map (λ t. t.now) v.items ≡ map string_bytes features.now) }
{
    let mut texts = Vec::with_capacity(alloc, features.len())?;
    for feature in features {
        texts.push(feature.as_str())?;
    }
    Ok(texts)
}

// What the dependency has anyway, as its detail says.
fn redundant_of<'d>(
    alloc: Global,
    dependency: &'d Dependency,
) -> Result<Option<RedundantFeatures<'d>>, AllocError>
    ensures { IfOk result (λ r. (x : Text) → has_redundant r x
        ≡ is_redundant (Some (dependency_meaning dependency.now)) x) }
{
    let Dependency::Detailed(detail) = dependency else {
        return Ok(None);
    };
    let texts = texts_of(alloc, detail.features.as_slice())?;
    Ok(Some(RedundantFeatures {
        has_default: detail.default_features,
        listed: ascending(texts),
    }))
}

// The dependency of the first target.
fn first_dependency<'d>(dependency: &FeatureDependency<'d>) -> Option<&'d Dependency>
    ensures { (es : List Entry) → Some (recorded_in dependency.now) ≡ recorded_of es
        → option_map (λ d. dependency_meaning d.now) result ≡ first_target es }
{
    let (_, first) = dependency.targets.first_key_value()?;
    Some(*first)
}

// What the dependency of the first target has anyway, if there is one.
fn redundant_at<'d>(
    alloc: Global,
    dependency: &Option<FeatureDependency<'d>>,
) -> Result<Option<RedundantFeatures<'d>>, AllocError>
    ensures { IfOk result (λ r. (es : List Entry) → option_map recorded_in dependency.now
        ≡ recorded_of es → (x : Text) → has_redundant r x ≡ is_redundant (first_target es) x) }
{
    let Some(dependency) = dependency else {
        return Ok(None);
    };
    let Some(first) = first_dependency(dependency) else {
        return Ok(None);
    };
    redundant_of(alloc, first)
}

// Of each key what its dependency has anyway.
fn redundant_features<'d>(
    alloc: Global,
    dependencies: &Slots<'d, FeatureDependency<'d>>,
) -> Result<Slots<'d, RedundantFeatures<'d>>, AllocError>
    ensures { IfOk result (λ r. (entries : Text → List Entry)
        → IsRecordOf dependencies.now entries → AreRedundantOf r entries) }
{
    let mut values = Vec::with_capacity(alloc, dependencies.values.len())?;
    for dependency in &dependencies.values {
        let redundant = redundant_at(alloc, dependency)?;
        values.push(redundant)?;
    }
    let names = dependencies.names.as_slice().to_vec(alloc)?;
    Ok(Slots { names, values })
}

// Whether the dependency of the first target lists many features. No clause says it: by that one of
// two ways is chosen, and each is proved.
fn lists_many(dependency: &Option<FeatureDependency<'_>>) -> bool {
    let Some(dependency) = dependency else {
        return false;
    };
    match first_dependency(dependency) {
        Some(Dependency::Detailed(detail)) => detail.features.len() > FEW,
        _ => false,
    }
}

// The same where some dependency lists many: then each list is put in byte order once. Few are gone
// through, which takes no memory.
fn long_lists<'d>(
    alloc: Global,
    dependencies: &Slots<'d, FeatureDependency<'d>>,
) -> Result<Option<Slots<'d, RedundantFeatures<'d>>>, AllocError>
    ensures { IfOk result (λ r. (entries : Text → List Entry)
        → IsRecordOf dependencies.now entries → ForSome r (λ m. AreRedundantOf m entries)) }
{
    if !dependencies.values.iter().any(lists_many) {
        return Ok(None);
    }
    let redundant = redundant_features(alloc, dependencies)?;
    Ok(Some(redundant))
}

// The dependency of the key's first target, where the key is recorded.
fn dependency_of<'d>(
    dependencies: &Slots<'_, FeatureDependency<'d>>,
    key: &str,
) -> Option<&'d Dependency>
    ensures { (es : List Entry) → recorded_at dependencies.now key.now ≡ recorded_of es
        → option_map (λ d. dependency_meaning d.now) result ≡ first_target es }
{
    let dependency = dependencies.get(key)?;
    first_dependency(dependency)
}

// Whether the feature is one of these.
fn lists(features: &[String], feature: &str) -> bool
    ensures { result ≡ list_any (bytes_eq feature.now) (map string_bytes features.now) }
{
    features.iter().any(|listed| feature == listed.as_str())
}

// Whether the dependency has the feature anyway, as its detail says.
fn is_redundant(dependency: &Dependency, feature: &str) -> bool
    ensures { result ≡ is_redundant (Some (dependency_meaning dependency.now)) feature.now }
{
    let Dependency::Detailed(detail) = dependency else {
        return false;
    };
    (detail.default_features && feature == "default") || lists(&detail.features, feature)
}

// Whether the dependency of the key has the feature anyway: by the list of the key, if there are
// lists, or else by what is recorded of the key.
fn has_anyway(
    key: &str,
    feature: &str,
    dependencies: &Slots<'_, FeatureDependency<'_>>,
    lists: &Option<Slots<'_, RedundantFeatures<'_>>>,
) -> bool
    ensures { (es : List Entry) → IsSaidOf dependencies.now lists.now key.now es
        → result ≡ is_redundant (first_target es) feature.now }
{
    if let Some(lists) = lists {
        return match lists.get(key) {
            Some(redundant) => redundant.has(feature),
            None => false,
        };
    }
    match dependency_of(dependencies, key) {
        Some(dependency) => is_redundant(dependency, feature),
        None => false,
    }
}

// The item loses the feature that it asks of its dependency, if that has it anyway.
fn thin_item(
    item: &mut ListItem<'_>,
    dependencies: &Slots<'_, FeatureDependency<'_>>,
    lists: &Option<Slots<'_, RedundantFeatures<'_>>>,
)
    ensures { (entries : Text → List Entry)
        → ((k : Text) → IsSaidOf dependencies.now lists.now k (entries k))
        → said_by item.new ≡ thinned entries (said_by item.old) }
{
    let Some(feature) = item.said.dep_feature else {
        return;
    };
    if has_anyway(item.said.target, feature, dependencies, lists) {
        item.said.dep_feature = None;
    }
}

// So does each item.
fn thin_all(
    items: &mut [ListItem<'_>],
    dependencies: &Slots<'_, FeatureDependency<'_>>,
    lists: &Option<Slots<'_, RedundantFeatures<'_>>>,
)
    ensures { (entries : Text → List Entry)
        → ((k : Text) → IsSaidOf dependencies.now lists.now k (entries k))
        → map said_by items.new ≡ map (thinned entries) (map said_by items.old) }
{
    for item in items.iter_mut() {
        thin_item(item, dependencies, lists);
    }
}

/// The items lose the dependency features that are on anyway: those that the dependency's first
/// target lists, and `default` where it has its default features. They lose none where that target
/// is no detail. It fails only when out of memory.
pub fn drop_redundant<'d>(
    alloc: Global,
    items: &mut Vec<ListItem<'_>>,
    dependencies: &Slots<'d, FeatureDependency<'d>>,
) -> Result<(), AllocError>
    ensures count { OnOk result (length items.new.items ≡ length items.old.items) }
    ensures lost { OnOk result ((entries : Text → List Entry) → IsRecordOf dependencies.now entries
        → map said_by items.new.items ≡ map (thinned entries) (map said_by items.old.items)) }
{
    let lists = long_lists(alloc, dependencies)?;
    thin_all(items.as_mut_slice(), dependencies, &lists);
    Ok(())
}
