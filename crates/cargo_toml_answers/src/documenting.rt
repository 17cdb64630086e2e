//! What is documented of features.
ghost use Rattle.std.specs.Prelude.{◌≡◌, IfErr, IfOk, OnOk, false, string_bytes};
ghost use Rattle.serde_json.specs.{Written.compact_text};
ghost use Rattle.cargo_toml.specs.Error.{Memory};
ghost use Rattle.cargo_toml_answers.specs.Answered.{IsDocumented, IsRefusedFor, IsRefusedText};
ghost use Rattle.cargo_toml_answers.specs.Answered.{Reads, row_json, rows_json};
ghost use Rattle.cargo_toml_answers.specs.Refused.{IsRefusalFor};
ghost use Rattle.cargo_toml_depth.specs.Nesting.{is_too_deep};

use crate::refusal::Refusal;
use crate::texts::{Keys, answered, manifest_in, readable};
use crate::writing::{Put, put_list, put_member, text_of, writer};
use cargo_toml::{Error, Manifest};
use cargo_toml_lint::{AllocResult, MAX_ITEMS, resolve_whole};
use cargo_toml_tools::document::{Row, rows};
use json::Writer;
use std::alloc::Global;

/// What is documented of the features of the manifest in a text: an object with the list
/// `features`, in byte order of their names, of those that users may ask for.
///
/// Refused where the text isn't UTF-8, nests deeper than 128, or doesn't read as a manifest; or out
/// of memory.
pub fn document(alloc: Global, text: &[u8], keys: Keys) -> Result<String, Refusal>
    ensures shallow { OnOk result (is_too_deep text.now ≡ false) }
    ensures documented { IfOk result
        (λ json. Reads text.now (λ m. IsDocumented m (string_bytes json))) }
    ensures refused { IfErr result
        (IsRefusalFor ⊥ (IsRefusedFor text.now (λ _ e. e ≡ Memory))) }
{
    let text = readable(alloc, text)?;
    answered(alloc, text, documented(alloc, text, keys))
}

fn documented(alloc: Global, text: &str, keys: Keys) -> Result<String, Error>
    requires { is_too_deep text.now ≡ false }
    ensures documented { IfOk result
        (λ json. Reads text.now (λ m. IsDocumented m (string_bytes json))) }
    ensures refused { IfErr result (IsRefusedText text.now (λ _ e. e ≡ Memory)) }
{
    let held = manifest_in(alloc, text)?;
    rows_of(alloc, &*held.manifest, keys)
}

fn rows_of(alloc: Global, manifest: &Manifest, keys: Keys) -> Result<String, Error>
    ensures documented { IfOk result (λ json. IsDocumented manifest.now (string_bytes json)) }
    ensures refused { IfErr result (λ e. e ≡ Memory) }
{
    let resolved = resolve_whole(alloc, keys, manifest, MAX_ITEMS)?;
    let rows = rows(alloc, manifest, &resolved.features)?;
    Ok(rows_json(alloc, rows.as_slice())?)
}

fn rows_json(alloc: Global, rows: &[Row<'_>]) -> AllocResult<String>
    ensures { IfOk result (λ json. string_bytes json ≡ compact_text (rows_json rows.now)) }
{
    let mut out = writer(alloc)?;
    out.begin_object()?;
    put_list(&mut out, "features", rows)?;
    out.end_object()?;
    text_of(out)
}

impl Put for Row<'_> {
    ghost json = { row_json };

    fn put(&self, out: &mut Writer) -> AllocResult<()> {
        out.begin_object()?;
        put_member(out, "default", &self.is_default)?;
        put_member(out, "dependencies", &self.turns_on.actions)?;
        put_member(out, "features", &self.turns_on.features)?;
        put_member(out, "listed", &self.is_listed)?;
        put_member(out, "name", &self.name)?;
        put_member(out, "text", &self.doc)?;
        out.end_object()?;
        Ok(())
    }
}
