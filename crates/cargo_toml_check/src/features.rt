//! Resolved features as JSON.
ghost use Rattle.std.specs.Prelude.{◌≡◌, IfOk, OnOk};
ghost use Rattle.serde_json.specs.View.{members_view, view};
ghost use Rattle.cargo_toml.specs.{Limits.MAX_ITEMS, Manifests.held, Reads.map_meaning};
ghost use Rattle.cargo_toml.specs.Targets.{target_meaning};
ghost use Rattle.cargo_toml_tools.specs.{Sections.lists_meaning, IndexEntries.with_rows};
ghost use Rattle.cargo_toml_check.specs.Listed.{AreMembers, IsListing, action_json, actions_json};
ghost use Rattle.cargo_toml_check.specs.Listed.{are_cut_targets, feature_json, has_long, is_cut};
ghost use Rattle.cargo_toml_check.specs.Listed.{is_cut_target, row_at, stands_for_json};

use cargo_toml::features::{DepAction, Feature, Features};
use cargo_toml::{FeatureSet, Manifest, Target, TargetDepsSet};
use cargo_toml_features::admit::MAX_ITEMS;
use cargo_toml_features::texts::keys_in_order;
use cargo_toml_lint::AllocResult;
use cargo_toml_tools::json::{array, put_text};
use serde_json::{Map, Value, put};
use std::alloc::Global;
use std::collections::{BTreeMap, BTreeSet, HashMap};
use std::hash::BuildHasher;

/// The features that a manifest resolves to, as an object of JSON: `features` has each by its name,
/// `hidden` has what stands for each that was removed, and `cut` says whether the manifest has more
/// than counts.
pub fn features_json<M, S: BuildHasher>(
    alloc: Global,
    manifest: &Manifest<M>,
    features: &Features<'_, '_, S>,
) -> AllocResult<Value>
    ensures { IfOk result
        (λ v. IsListing (is_cut MAX_ITEMS (held manifest.now)) features.now (view v)) }
{
    let left = all_of(alloc, &features.features)?;
    let removed = all_of(alloc, &features.hidden_features)?;
    let mut members = Map::new(alloc);
    put(
        &mut members,
        alloc,
        "cut",
        Value::from(is_cut(manifest, MAX_ITEMS)),
    )?;
    put(&mut members, alloc, "features", left)?;
    put(&mut members, alloc, "hidden", removed)?;
    Ok(Value::from(members))
}

/// What has a value of JSON.
trait ToJson {
    ghost use Rattle.std.specs.Prelude.{◌≡◌, IfOk};
    ghost use Rattle.serde_json.specs.{Data.Data, View.view};

    // the value that it has
    ghost json: { Self → Data };

    fn to_json(&self, alloc: Global) -> AllocResult<Value>
        ensures { IfOk result (λ v. view v ≡ json self.now) };
}

/// Texts in order, as those that stand for a removed feature.
impl ToJson for BTreeSet<&str> {
    ghost json = { stands_for_json };

    fn to_json(&self, alloc: Global) -> AllocResult<Value> {
        let texts: Vec<&str> = self.iter().copied().collect(alloc)?;
        array(alloc, texts.as_slice())
    }
}

/// All that a map has, by its names.
fn all_of<X: ToJson, S: BuildHasher>(
    alloc: Global,
    found: &HashMap<&str, X, S>,
) -> AllocResult<Value>
    ensures { IfOk result (λ v. AreMembers X.json found.now (view v)) }
{
    let names = keys_in_order(alloc, found)?;
    let mut members = Map::new(alloc);
    for name in &names {
        put_one(alloc, &mut members, found, *name)?;
    }
    Ok(Value::from(members))
}

fn put_one<X: ToJson, S: BuildHasher>(
    alloc: Global,
    members: &mut Map<String, Value>,
    found: &HashMap<&str, X, S>,
    name: &str,
) -> AllocResult<()>
    ensures { OnOk result (members_view members.new.entries
        ≡ with_rows (row_at X.json found.now name.now) (members_view members.old.entries)) }
{
    match found.get(name) {
        Some(one) => put(members, alloc, name, one.to_json(alloc)?),
        None => Ok(()),
    }
}

impl ToJson for Feature<'_> {
    ghost json = { feature_json };

    fn to_json(&self, alloc: Global) -> AllocResult<Value> {
        let names = self.enables_features.to_json(alloc)?;
        let dependencies = actions_json(alloc, &self.enables_deps)?;
        let enabled_by = self.enabled_by.to_json(alloc)?;
        let binaries = array(alloc, self.required_by_bins.as_slice())?;
        let mut members = Map::new(alloc);
        put(&mut members, alloc, "listed", Value::from(self.explicit))?;
        put(&mut members, alloc, "public", Value::from(self.public))?;
        put_text(alloc, &mut members, "text", self.doc)?;
        put(&mut members, alloc, "names", names)?;
        put(&mut members, alloc, "dependencies", dependencies)?;
        put(&mut members, alloc, "enabled_by", enabled_by)?;
        put(&mut members, alloc, "binaries", binaries)?;
        Ok(Value::from(members))
    }
}

/// What a feature does to dependencies, by their keys.
fn actions_json(alloc: Global, actions: &BTreeMap<&str, DepAction<'_>>) -> AllocResult<Value>
    ensures { IfOk result (λ v. view v ≡ actions_json actions.now) }
{
    let mut members = Map::new(alloc);
    for (key, action) in actions.iter() {
        put(&mut members, alloc, *key, action_json(alloc, action)?)?;
    }
    Ok(Value::from(members))
}

fn action_json(alloc: Global, action: &DepAction<'_>) -> AllocResult<Value>
    ensures { IfOk result (λ v. view v ≡ action_json action.now) }
{
    let features = action.dep_features.to_json(alloc)?;
    let conditional = Value::from(action.is_conditional);
    let dep_only = Value::from(action.is_dep_only);
    let mut members = Map::new(alloc);
    put(&mut members, alloc, "conditional", conditional)?;
    put(&mut members, alloc, "dep_only", dep_only)?;
    put(&mut members, alloc, "features", features)?;
    Ok(Value::from(members))
}

/// Whether a manifest has more features, more texts of one, or more keys of a table of dependencies
/// than this limit.
pub fn is_cut<M>(manifest: &Manifest<M>, limit: usize) -> bool
    ensures { result ≡ is_cut limit (held manifest.now) }
{
    manifest.features.len() > limit
        || has_long(&manifest.features, limit)
        || manifest.dependencies.len() > limit
        || manifest.build_dependencies.len() > limit
        || manifest.dev_dependencies.len() > limit
        || are_cut_targets(&manifest.target, limit)
}

fn has_long(features: &FeatureSet, limit: usize) -> bool
    ensures { result ≡ has_long limit (lists_meaning features.now) }
{
    features.values().any(|texts| texts.len() > limit)
}

fn are_cut_targets(targets: &TargetDepsSet, limit: usize) -> bool
    ensures { result ≡ are_cut_targets limit (map_meaning target_meaning targets.now) }
{
    targets.values().any(|target| is_cut_target(target, limit))
}

fn is_cut_target(target: &Target, limit: usize) -> bool
    ensures { result ≡ is_cut_target limit (target_meaning target.now) }
{
    target.dependencies.len() > limit
        || target.build_dependencies.len() > limit
        || target.dev_dependencies.len() > limit
}
