//! Hashed maps by names.
ghost use Rattle.std.specs.Prelude.{◌≡◌, None, Some, bytes_eq, if◌then◌else◌, length, map, IfOk};
ghost use Rattle.std.specs.{Prelude.OnOk, Option.option_or};
ghost use Rattle.cargo_toml_graph.specs.{Action.Text, Ascending.Ascend};
ghost use Rattle.cargo_toml_features.specs.{InOrder.AreInOrder, InOrder.feature_at, Views.value_at};
ghost use Rattle.cargo_toml_features.specs.{FirstTarget.HaveTargets, Slots.HeldHaveTargets};
ghost use Rattle.cargo_toml_features.specs.Slots.{held_among, held_in};

use cargo_toml_features::features::{Feature, FeatureDependency};
use cargo_toml_features::slots::Slots;
use std::alloc::{AllocError, Global};
use std::collections::HashMap;
use std::hash::BuildHasher;

/// The value is put under the key. It fails only when out of memory.
// as a call it takes 2,047 empty lists 4 % more
#[inline(always)]
pub(crate) fn put<'a, V: Drop, S: BuildHasher>(
    map: &mut HashMap<&'a str, V, S>,
    key: &'a str,
    value: V,
) -> Result<(), AllocError>
    ensures { OnOk result ((k : Text) → value_at map.new k
        ≡ (if bytes_eq k key.now then Some value else value_at map.old k)) }
{
    map.insert(key, value)?;
    Ok(())
}

/// Features in the byte order of their names, in a hashed map by these. It fails only when out of
/// memory.
pub fn hashed_features<'m, S: BuildHasher + Drop>(
    state: S,
    alloc: Global,
    features: Vec<Feature<'m>>,
) -> Result<HashMap<&'m str, Feature<'m>, S>, AllocError>
    requires { AreInOrder features.items }
    ensures { IfOk result (λ m. (f : Text) → value_at m f ≡ feature_at features.entry.items f) }
{
    let mut by_name = HashMap::with_capacity_and_hasher(alloc, features.len(), state)?;
    for feature in features {
        put(&mut by_name, feature.key, feature)?;
    }
    Ok(by_name)
}

// The value, if there is one, is put under the name.
fn put_value<'n, V: Drop, S: BuildHasher>(
    by_name: &mut HashMap<&'n str, V, S>,
    name: &'n str,
    value: Option<V>,
) -> Result<(), AllocError>
    ensures { OnOk result ((k : Text) → value_at by_name.new k
        ≡ option_or (if bytes_eq k name.now then value else None) (value_at by_name.old k)) }
{
    match value {
        Some(value) => put(by_name, name, value),
        None => Ok(()),
    }
}

/// Values under names that ascend, of which some are without one, in a hashed map. Each name has
/// its place among the values. It fails only when out of memory.
pub fn hashed<'n, V: Drop, S: BuildHasher + Drop>(
    state: S,
    alloc: Global,
    names: &[&'n str],
    values: Vec<Option<V>>,
) -> Result<HashMap<&'n str, V, S>, AllocError>
    requires ascend { Ascend (map (λ n. n.now) names.now) }
    requires count { length values.items ≡ length names.now }
    ensures { IfOk result
        (λ m. (k : Text) → value_at m k ≡ held_among (map (λ n. n.now) names.now) values.items k) }
{
    let mut by_name = HashMap::with_capacity_and_hasher(alloc, names.len(), state)?;
    let mut place = 0;
    for value in values {
        put_value(&mut by_name, names[place], value)?;
        place += 1;
    }
    Ok(by_name)
}

/// Dependencies, each of which has a target, by their keys, in a hashed map. It fails only when out
/// of memory.
pub fn hashed_dependencies<'d, S: BuildHasher + Drop>(
    state: S,
    alloc: Global,
    dependencies: Slots<'d, FeatureDependency<'d>>,
) -> Result<HashMap<&'d str, FeatureDependency<'d>, S>, AllocError>
    requires targets { HeldHaveTargets dependencies }
    ensures same { IfOk result (λ m. (k : Text) → value_at m k ≡ held_in dependencies.entry k) }
    ensures have_targets { IfOk result HaveTargets }
{
    let Slots { names, values } = dependencies;
    let by_key = hashed(state, alloc, names.as_slice(), values)?;
    // called for its contract: no key stands in the map twice
    let _count = by_key.len();
    Ok(by_key)
}
