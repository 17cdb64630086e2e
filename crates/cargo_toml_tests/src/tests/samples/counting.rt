//! A helper over resolved features.
ghost use Rattle.cargo_toml.specs.Reached.{IsKeyed};

use cargo_toml::Error;
use cargo_toml::features::Features;
use std::alloc::Global;
use std::hash::BuildHasher;

/// The sum over all features of how many each enables, itself included.
pub fn count_enabled<S: BuildHasher + Clone>(
    alloc: Global,
    resolved: &Features<'_, '_, S>,
) -> Result<usize, Error>
    requires { IsKeyed resolved.now.features }
{
    let mut count: usize = 0;
    for feature in resolved.features.values() {
        let (features, _) = feature.enables_recursive(alloc, &resolved.features)?;
        count = count.saturating_add(features.len());
    }
    Ok(count)
}
