//! What is documented of features.
ghost use Rattle.std.specs.Prelude.{true, IfErr, IfOk, OnOk};
ghost use Rattle.cargo_toml.specs.{Limits.MAX_ITEMS, Manifests.held, Parsed.IsParsed};
ghost use Rattle.cargo_toml.specs.{Reached.IsKeyed, Views.answer_of};
ghost use Rattle.cargo_toml_tools.specs.FromFiles.{IsDocumented, IsOfInput, IsUndocumented};

use super::reading::manifest_of;
use crate::document::{TakesRows, graph, rows};
use cargo_toml::features::Features;
use cargo_toml::{Error, Manifest};
use cargo_toml_features::admit::MAX_ITEMS;
use cargo_toml_lint::resolve_whole;
use std::hash::RandomState;
use std::random::RandomSource;
use toml::Value;

/// Hands on what is documented of the features of the manifest in this text. Refused where it
/// doesn't read; nothing around it is read.
pub fn document<R: RandomSource + AllocGlobal, T: TakesRows>(
    rt: &R,
    text: &str,
    taker: &mut T,
) -> Result<(), Error>
    ensures documented { OnOk result (IsDocumented T.took text.now taker.old taker.new) }
    ensures refused { IfErr result (IsUndocumented text.now) }
{
    let held = manifest_of(rt.alloc(), text)?;
    let manifest = &*held.manifest;
    let resolved = resolved(rt, manifest)?;
    let rows = rows(rt.alloc(), manifest, &resolved.features)?;
    let package = manifest.package.as_ref();
    let name = package.map(|package| package.name.as_str());
    taker.take(name, rows.as_slice())?;
    Ok(())
}

/// The same as a page, or the graph in Graphviz's language where `dot` is set. Refused as above.
pub fn document_text<R: RandomSource + AllocGlobal>(
    rt: &R,
    text: &str,
    dot: bool,
) -> Result<String, Error>
    ensures { IfErr result (IsUndocumented text.now) }
{
    if dot {
        let held = manifest_of(rt.alloc(), text)?;
        let resolved = resolved(rt, &*held.manifest)?;
        return Ok(graph(rt.alloc(), &*held.manifest, &resolved)?);
    }
    let mut page = String::new(rt.alloc());
    document(rt, text, &mut page)?;
    Ok(page)
}

/// The features of a manifest, hidden ones like others.
pub fn resolved<'m, R: RandomSource + AllocGlobal>(
    rt: &R,
    manifest: &'m Manifest<Value>,
) -> Result<Features<'m, 'm, RandomState>, Error>
    ensures whole { IfOk result (λ a. IsParsed MAX_ITEMS (held manifest.now) (λ _. true)
        (answer_of a)) }
    ensures keyed { IfOk result (λ a. IsKeyed a.features) }
    ensures refused { IfErr result IsOfInput }
{
    let state = RandomState::new(rt)?;
    resolve_whole(rt.alloc(), state, manifest, MAX_ITEMS)
}
