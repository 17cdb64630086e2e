//! Which features are removed, by their places.
ghost use Rattle.std.specs.Prelude.{◌≡◌, ◌<◌, ℕ, IfOk, IsTrue, false, length, true};
ghost use Rattle.std.specs.List.{slice_index_or};
ghost use Rattle.cargo_toml_features.specs.{InOrder.names_of, Places.nth_text};
ghost use Rattle.cargo_toml_resolve.specs.Filter.{HasNameFilter, IsFlagOf};

use crate::filter::is_hidden;
use cargo_toml_features::features::Feature;
use std::alloc::{AllocError, Global};

/// Whether some feature is removed: its name begins with `_`, and the filter doesn't keep it, or
/// there is none. The filter is asked only for names that begin with `_`.
pub fn hides_any<F: Fn(&str) -> bool>(features: &[Feature<'_>], filter: Option<&F>) -> bool
    requires { HasNameFilter F.Fn filter }
    ensures some { IsTrue result → (i : ℕ) × (i < length features.now)
        × IsFlagOf F.Fn filter.entry (nth_text (names_of features.now) i) true }
    ensures none { result ≡ false → (i : ℕ) → i < length features.now
        → IsFlagOf F.Fn filter.entry (nth_text (names_of features.now) i) false }
{
    for feature in features {
        if is_hidden(filter, feature.key) {
            return true;
        }
    }
    false
}

/// Which features are removed, by their places: of those whose names begin with `_` the ones that
/// the filter doesn't keep, and without a filter all. The filter is asked only for names that begin
/// with `_`. It fails only when out of memory.
pub fn hidden_flags<F: Fn(&str) -> bool>(
    alloc: Global,
    features: &[Feature<'_>],
    filter: Option<&F>,
) -> Result<Vec<bool>, AllocError>
    requires { HasNameFilter F.Fn filter }
    ensures len { IfOk result (λ v. length v.items ≡ length features.now) }
    ensures flags { IfOk result (λ v. (i : ℕ) → i < length features.now
        → IsFlagOf F.Fn filter.entry (nth_text (names_of features.now) i)
        (slice_index_or v.items i false)) }
{
    let mut flags = Vec::with_capacity(alloc, features.len())?;
    for feature in features {
        flags.push(is_hidden(filter, feature.key))?;
    }
    Ok(flags)
}
