//! A manifest's features by a filter and at a limit, and with none removed.
ghost use Rattle.std.specs.Prelude.{◌≡◌, ◌≤◌, Bool, true, bytes_eq, codes, IfErr, IfOk};
ghost use Rattle.cargo_toml.specs.Filter.{FilterTells, HasNameFilter};
ghost use Rattle.cargo_toml.specs.Parsed.{AreBinsComplete, IsParsed, parsed_table};
ghost use Rattle.cargo_toml.specs.{Action.Text, Error.Memory, FirstTarget.HaveTargets};
ghost use Rattle.cargo_toml.specs.{Limits.MAX_ITEMS, Manifests.held, Reached.IsKeyed};
ghost use Rattle.cargo_toml.specs.{Removal.is_removed, Views.answer_of};

use cargo_toml::features::{Features, Resolver};
use cargo_toml::{Error, Manifest};
use cargo_toml_features::admit::MAX_ITEMS;
use std::alloc::Global;
use std::hash::{BuildHasherDefault, FoldHasher};

/// Features whose maps have the fixed state.
pub type Answer<'m> = Features<'m, 'm, BuildHasherDefault<FoldHasher>>;

/// A filter that keeps every name.
pub fn keep_every(_name: &str) -> bool
    ensures { result ≡ true }
{
    true
}

/// A filter that keeps `_a` alone of the hidden names.
pub fn keep_a(name: &str) -> bool
    ensures { result ≡ bytes_eq name.now (codes "_a") }
{
    name == "_a"
}

/// Resolves the features of a manifest at a limit of items, at least 1, by this filter, or without
/// one. Where binaries mention removed features at most ten times, none is lost on its way along
/// names. The one refusal is [`Error::Memory`].
pub fn resolve_by<'m, M, F: Fn(&str) -> bool>(
    alloc: Global,
    filter: Option<&F>,
    manifest: &'m Manifest<M>,
    max_items: usize,
) -> Result<Answer<'m>, Error>
    requires filter { HasNameFilter F.Fn filter }
    requires limit { 1 ≤ max_items }
    ensures resolved { IfOk result (λ a. (keep : Text → Bool) → FilterTells F.Fn filter.entry keep
        → IsParsed max_items (held manifest.now) keep (answer_of a)) }
    ensures complete_bins { IfOk result (λ a. (keep : Text → Bool)
        → FilterTells F.Fn filter.entry keep → AreBinsComplete max_items (held manifest.now)
        (is_removed (parsed_table max_items (held manifest.now)) keep) (answer_of a)) }
    ensures keyed { IfOk result (λ a. IsKeyed a.features) }
    ensures targets { IfOk result (λ a. HaveTargets a.dependencies) }
    ensures refused { IfErr result (λ e. e ≡ Memory) }
{
    let Some(filter) = filter else {
        return Resolver::new()
            .with_max_items(max_items)
            .parse(alloc, manifest);
    };
    let resolver = Resolver::new_with_hasher_and_filter(BuildHasherDefault::new(), filter);
    resolver.with_max_items(max_items).parse(alloc, manifest)
}

/// Resolves the features of a manifest by a filter that keeps every name, so that none is removed.
/// The one refusal is [`Error::Memory`].
pub fn resolve_whole<'m, M>(alloc: Global, manifest: &'m Manifest<M>) -> Result<Answer<'m>, Error>
    ensures resolved { IfOk result (λ a.
        IsParsed MAX_ITEMS (held manifest.now) (λ _. true) (answer_of a)) }
    ensures keyed { IfOk result (λ a. IsKeyed a.features) }
    ensures targets { IfOk result (λ a. HaveTargets a.dependencies) }
    ensures refused { IfErr result (λ e. e ≡ Memory) }
{
    let keep = keep_every;
    resolve_by(alloc, Some(&keep), manifest, MAX_ITEMS)
}
