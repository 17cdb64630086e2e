//! What is at fault in a text.
ghost use Rattle.std.specs.Prelude.{◌≡◌, IfErr, IfOk, OnOk, false, string_bytes};
ghost use Rattle.cargo_toml_answers.specs.Answered.{IsChecked};
ghost use Rattle.cargo_toml_answers.specs.Refused.{IsRefusalFor, IsUnread};
ghost use Rattle.cargo_toml_depth.specs.Nesting.{is_too_deep};

use crate::refusal::Refusal;
use crate::texts::readable;
use crate::writing::{put_list, text_of, writer};
use cargo_toml_check::check::faults_in;
use cargo_toml_lint::AllocResult;
use std::alloc::Global;

/// What is at fault in a text, as `cargo_toml_check::check::faults_in` finds it: an object with the
/// list `faults`, which is empty just where the text reads as a manifest.
///
/// Refused where the text isn't UTF-8 or nests deeper than 128, or out of memory.
pub fn check(alloc: Global, text: &[u8]) -> Result<String, Refusal>
    ensures shallow { OnOk result (is_too_deep text.now ≡ false) }
    ensures checked { IfOk result (λ json. IsChecked text.now (string_bytes json)) }
    ensures refused { IfErr result (IsRefusalFor ⊥ (IsUnread text.now)) }
{
    let text = readable(alloc, text)?;
    Ok(faults_of(alloc, text)?)
}

fn faults_of(alloc: Global, text: &str) -> AllocResult<String>
    requires { is_too_deep text.now ≡ false }
    ensures { IfOk result (λ json. IsChecked text.now (string_bytes json)) }
{
    let faults = faults_in(alloc, text)?;
    let mut out = writer(alloc)?;
    out.begin_object()?;
    put_list(&mut out, "faults", faults.as_slice())?;
    out.end_object()?;
    text_of(out)
}
