//! What is amiss with the features of a manifest.
ghost use Rattle.std.specs.Prelude.{◌≡◌, IfErr, IfOk, OnOk, false, string_bytes};
ghost use Rattle.serde_json.specs.Data.{Data};
ghost use Rattle.cargo_toml.specs.Error.{Memory};
ghost use Rattle.cargo_toml_answers.specs.Adding.{Adds, tokens_of};
ghost use Rattle.cargo_toml_answers.specs.Answered.{AreTold, IsRefusedFor, IsRefusedText, Reads};
ghost use Rattle.cargo_toml_answers.specs.Refused.{IsRefusalFor};
ghost use Rattle.cargo_toml_depth.specs.Nesting.{is_too_deep};

use crate::refusal::Refusal;
use crate::texts::{Keys, answered, manifest_in, readable};
use crate::writing::{put_member, text_of, writer};
use cargo_toml::{Error, Manifest};
use cargo_toml_check::lint::{Line, lines_of};
use cargo_toml_check::places::cut;
use cargo_toml_lint::{AllocResult, lint as findings_of};
use json::Writer;
use std::alloc::Global;

/// What is amiss with the features of the manifest in a text, as `cargo_toml_check::lint` tells it:
/// an object with the list `findings`. Which findings these are no clause says.
///
/// Refused where the text isn't UTF-8, nests deeper than 128, or doesn't read as a manifest; or out
/// of memory.
pub fn lint(alloc: Global, text: &[u8], keys: Keys) -> Result<String, Refusal>
    ensures shallow { OnOk result (is_too_deep text.now ≡ false) }
    ensures told { IfOk result (λ json. Reads text.now (λ _. AreTold (string_bytes json))) }
    ensures refused { IfErr result
        (IsRefusalFor ⊥ (IsRefusedFor text.now (λ _ e. e ≡ Memory))) }
{
    let text = readable(alloc, text)?;
    answered(alloc, text, findings(alloc, text, keys))
}

fn findings(alloc: Global, text: &str, keys: Keys) -> Result<String, Error>
    requires { is_too_deep text.now ≡ false }
    ensures told { IfOk result (λ json. Reads text.now (λ _. AreTold (string_bytes json))) }
    ensures refused { IfErr result (IsRefusedText text.now (λ _ e. e ≡ Memory)) }
{
    let held = manifest_in(alloc, text)?;
    told(alloc, text, &*held.manifest, keys)
}

fn told(alloc: Global, text: &str, manifest: &Manifest, keys: Keys) -> Result<String, Error>
    ensures told { IfOk result (λ json. AreTold (string_bytes json)) }
    ensures refused { IfErr result (λ e. e ≡ Memory) }
{
    let mut found = findings_of(alloc, keys, manifest)?;
    let lines = lines_of(alloc, text, manifest, &[], &mut found)?;
    Ok(lines_json(alloc, lines.as_slice())?)
}

fn lines_json(alloc: Global, lines: &[Line<'_>]) -> AllocResult<String>
    ensures { IfOk result (λ json. AreTold (string_bytes json)) }
{
    let mut out = writer(alloc)?;
    out.begin_object()?;
    out.key("findings")?;
    out.begin_array()?;
    for line in lines {
        put_line(&mut out, alloc, line)?;
    }
    out.end_array()?;
    out.end_object()?;
    text_of(out)
}

fn put_line(out: &mut Writer, alloc: Global, line: &Line<'_>) -> AllocResult<()>
    ensures { OnOk result ((d : Data) × Adds out.old out.new (tokens_of d)) }
{
    let (level, code, feature, text, words) = line.0;
    let (feature, text) = (cut(alloc, feature)?, cut(alloc, text)?);
    out.begin_object()?;
    put_member(out, "code", &code)?;
    put_member(out, "column", &line.1.1)?;
    put_member(out, "feature", &feature.as_str())?;
    put_member(out, "level", &level)?;
    put_member(out, "line", &line.1.0)?;
    put_member(out, "text", &text.as_str())?;
    put_member(out, "words", &words)?;
    out.end_object()?;
    Ok(())
}
