//! Texts that nest too deep.
ghost use Rattle.std.specs.Prelude.{◌≡◌, ◌⊎◌, IfErr, IsUtf8, OnOk, false};
ghost use Rattle.cargo_toml_depth.specs.Nesting.{is_too_deep};
ghost use Rattle.cargo_toml_parts.specs.declared.error.Error.{Memory};
ghost use Rattle.cargo_toml_shallow.specs.Deep.{IsDeepFault, IsShallow};

use cargo_toml_depth::is_too_deep;
use cargo_toml_parts::Error;
use std::alloc::Global;

/// Refuses a text that nests deeper than 128, as `Error::Other`. Out of memory is `Error::Memory`.
pub fn refuse_deep(alloc: Global, text: &str) -> Result<(), Error>
    ensures shallow { OnOk result (is_too_deep text.now ≡ false) }
    ensures refused { IfErr result (λ e. (e ≡ Memory) ⊎ IsDeepFault text.now e) }
{
    if is_too_deep(alloc, text)? {
        return Err(Error::Other("the text is nested deeper than 128"));
    }
    Ok(())
}

/// The same of bytes, of which those that aren't UTF-8 are let through.
pub fn refuse_deep_bytes(alloc: Global, bytes: &[u8]) -> Result<(), Error>
    ensures shallow { OnOk result (IsShallow bytes.now) }
    ensures refused { IfErr result
        (λ e. (e ≡ Memory) ⊎ (IsUtf8 bytes.now × IsDeepFault bytes.now e)) }
{
    match str::from_utf8(bytes) {
        Ok(text) => refuse_deep(alloc, text),
        Err(_) => Ok(()),
    }
}
