//! A manifest's features, resolved by the body that callers get and by the plain one beside it.
ghost use Rattle.std.specs.Prelude.{◌≡◌, Bool, IfErr, IfOk};
ghost use Rattle.cargo_toml.specs.Filter.{HasNameFilter, FilterTells};
ghost use Rattle.cargo_toml.specs.{Action.Text, Error.Memory, Views.answer_of};
ghost use Rattle.cargo_toml_bench.specs.Alike.{AreAlike};

use crate::plain::without_hidden;
use crate::whole::{Answer, resolve_by, resolve_whole};
use cargo_toml::{Error, Manifest};
use cargo_toml_features::admit::MAX_ITEMS;
use std::alloc::Global;

/// Resolves the features of a manifest by both bodies, without the hidden ones that the filter
/// doesn't keep: first as callers do, then by the plain body.
///
/// The two say the same: each feature has the same binaries, too. The one refusal is
/// [`Error::Memory`].
pub fn resolve_by_both<'m, M, F: Fn(&str) -> bool>(
    alloc: Global,
    filter: Option<&F>,
    manifest: &'m Manifest<M>,
) -> Result<(Answer<'m>, Answer<'m>), Error>
    requires { HasNameFilter F.Fn filter }
    ensures alike { IfOk result (λ p. (keep : Text → Bool) → FilterTells F.Fn filter.entry keep
        → AreAlike (answer_of p.0) (answer_of p.1)) }
    ensures refused { IfErr result (λ e. e ≡ Memory) }
{
    let called = resolve_by(alloc, filter, manifest, MAX_ITEMS)?;
    let plain = without_hidden(alloc, filter, resolve_whole(alloc, manifest)?)?;
    Ok((called, plain))
}
