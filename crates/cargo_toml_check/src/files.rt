//! Manifests in texts of files, shown.
ghost use Rattle.std.specs.Prelude.{◌≡◌, IfErr, IfOk, false, string_bytes};
ghost use Rattle.toml.specs.View.{view};
ghost use Rattle.cargo_toml.specs.Manifests.{manifest_meaning};
ghost use Rattle.cargo_toml_tools.specs.FromFiles.{IsOfInput};
ghost use Rattle.cargo_toml_check.specs.FromFiles.{HoldsOfCompleted, IsListed, IsRefusedFor};
ghost use Rattle.cargo_toml_check.specs.Shown.{IsShown, IsShownAsJson, IsUnshown};

use crate::features::features_json;
use crate::show::{manifest_json, manifest_toml};
use cargo_toml::features::Resolver;
use cargo_toml::{Error, Manifest};
use cargo_toml_tools::files::{Source, completed_from};
use std::hash::RandomState;
use std::random::RandomSource;
use std::rt::Files;

/// The manifest in a text as it is once it is completed, as TOML. Refused where it
/// doesn't read or complete, or isn't shown.
pub fn toml_of<R: Files + AllocGlobal>(rt: &R, source: Source<'_>) -> Result<String, Error>
    ensures shown { IfOk result (λ shown. HoldsOfCompleted source.entry
        (λ m. IsShown (manifest_meaning view m) (string_bytes shown))) }
    ensures refused { IfErr result (IsRefusedFor source.entry
        (λ m. IsUnshown (manifest_meaning view m))) }
{
    let completed = completed_from(rt, source)?;
    manifest_toml(rt.alloc(), &*completed.manifest)
}

/// The same as JSON.
pub fn json_of<R: Files + AllocGlobal>(rt: &R, source: Source<'_>) -> Result<String, Error>
    ensures shown { IfOk result (λ shown. HoldsOfCompleted source.entry
        (λ m. IsShownAsJson (manifest_meaning view m) (string_bytes shown))) }
    ensures refused { IfErr result (IsRefusedFor source.entry
        (λ m. IsUnshown (manifest_meaning view m))) }
{
    let held = completed_from(rt, source)?;
    manifest_json(rt.alloc(), &*held.manifest)
}

/// The features that the completed manifest in a text resolves to, as JSON. Those
/// whose names begin with `_` are removed. Refused where it doesn't read or complete.
pub fn features_of<R: Files + RandomSource + AllocGlobal>(
    rt: &R,
    source: Source<'_>,
) -> Result<String, Error>
    ensures listed { IfOk result (λ shown. HoldsOfCompleted source.entry
        (λ m. IsListed m (string_bytes shown))) }
    ensures refused { IfErr result (IsRefusedFor source.entry (λ _. IsOfInput)) }
{
    let held = completed_from(rt, source)?;
    listing_of(rt, &*held.manifest)
}

/// The features that a manifest resolves to, as JSON.
fn listing_of<R: RandomSource + AllocGlobal>(rt: &R, manifest: &Manifest) -> Result<String, Error>
    ensures listed { IfOk result (λ shown. IsListed manifest.now (string_bytes shown)) }
    ensures refused { IfErr result IsOfInput }
{
    let state = RandomState::new(rt)?;
    let keep = keeps_none;
    let resolver = Resolver::new_with_hasher_and_filter(state, &keep);
    let features = resolver.parse(rt.alloc(), manifest)?;
    let listing = features_json(rt.alloc(), manifest, &features)?;
    Ok(listing.to_string(rt.alloc())?)
}

fn keeps_none(_name: &str) -> bool
    ensures { result ≡ false }
{
    false
}
