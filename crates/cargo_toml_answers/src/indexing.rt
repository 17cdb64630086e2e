//! The line of a registry's index.
ghost use Rattle.std.specs.Prelude.{◌≡◌, IfErr, IfOk, OnOk, false, string_bytes, true};
ghost use Rattle.std.specs.Option.{option_copied};
ghost use Rattle.cargo_toml_tools.specs.Sections.{wanted_of};
ghost use Rattle.cargo_toml_answers.specs.Answered.{IsIndexRefusal, IsIndexed, IsUnindexed, Reads};
ghost use Rattle.cargo_toml_answers.specs.Answered.{IsUntaken, TellsOfFault, checksum_of, is_sum};
ghost use Rattle.cargo_toml_answers.specs.Answered.{wanted_with};
ghost use Rattle.cargo_toml_answers.specs.Refused.{IsRefusal};
ghost use Rattle.cargo_toml_depth.specs.Nesting.{is_too_deep};

use crate::refusal::{Refusal, bad_argument, refuse, refuse_with};
use crate::texts::{Keys, argument, manifest_in, readable};
use cargo_toml::Manifest;
use cargo_toml_lint::lint;
use cargo_toml_tools::files::Fault;
use cargo_toml_tools::index::{CRATES_IO, IndexError, Options, index_entry};
use cargo_toml_tools::is_checksum;
use std::alloc::Global;

/// The line that the index of crates.io has of the crate of the manifest in a text: an object. The
/// manifest isn't completed, so one that leaves something to its workspace is refused. Without a
/// checksum, which is then empty, the line has no `cksum`.
///
/// Refused where the text isn't UTF-8, nests deeper than 128, or doesn't read as a manifest; where
/// the index doesn't take the crate; where the checksum isn't 64 hex digits in lower case; or out
/// of memory.
pub fn index(alloc: Global, text: &[u8], checksum: &[u8], keys: Keys) -> Result<String, Refusal>
    ensures shallow { OnOk result (is_too_deep text.now ≡ false) }
    ensures indexed { IfOk result (λ json. Reads text.now (λ m.
        IsIndexed text.now (wanted_with (checksum_of checksum.now)) m (string_bytes json))) }
    ensures sum { OnOk result (is_sum checksum.now ≡ true) }
    ensures refused { IfErr result (IsIndexRefusal text.now checksum.now) }
{
    let text = readable(alloc, text)?;
    let words = "a checksum is 64 hex digits in lower case";
    let checksum = argument(alloc, checksum, words)?;
    if !is_sum(checksum) {
        return Err(bad_argument(alloc, words));
    }
    match line_of(alloc, text, given(checksum), keys) {
        Ok(json) => Ok(json),
        Err(fault) => Err(refuse_fault(alloc, text, &fault)),
    }
}

fn refuse_fault(alloc: Global, text: &str, fault: &Fault) -> Refusal
    ensures { IsRefusal ⊥ (TellsOfFault fault.now) result }
{
    match fault {
        Fault::Manifest(fault) => refuse(alloc, text, fault),
        Fault::Index(IndexError::Memory) => Refusal::Memory,
        Fault::Index(fault) => refuse_with(alloc, text, fault),
    }
}

/// Whether a text is a checksum, or empty.
fn is_sum(checksum: &str) -> bool
    ensures { result ≡ is_sum checksum.now }
{
    checksum.is_empty() || is_checksum(checksum)
}

/// The checksum, if one is given.
fn given(checksum: &str) -> Option<&str>
    ensures { option_copied result ≡ checksum_of checksum.now }
{
    if checksum.is_empty() {
        None
    } else {
        Some(checksum)
    }
}

/// What is asked of a line of crates.io, with this checksum.
fn options_with<'a>(checksum: Option<&'a str>) -> Options<'a>
    ensures { wanted_of result ≡ wanted_with (option_copied checksum.entry) }
{
    Options {
        registry: CRATES_IO,
        names: &[],
        checksum,
        folder: None,
        force: false,
    }
}

fn line_of(alloc: Global, text: &str, checksum: Option<&str>, keys: Keys) -> Result<String, Fault>
    requires { is_too_deep text.now ≡ false }
    ensures indexed { IfOk result (λ json. Reads text.now (λ m.
        IsIndexed text.now (wanted_with (option_copied checksum.entry)) m (string_bytes json))) }
    ensures refused { IfErr result
        (IsUnindexed text.now (wanted_with (option_copied checksum.entry))) }
{
    let held = manifest_in(alloc, text)?;
    entry_of(alloc, text, &*held.manifest, checksum, keys)
}

fn entry_of(
    alloc: Global,
    text: &str,
    manifest: &Manifest,
    checksum: Option<&str>,
    keys: Keys,
) -> Result<String, Fault>
    ensures indexed { IfOk result (λ json. IsIndexed text.now
        (wanted_with (option_copied checksum.entry)) manifest.now (string_bytes json)) }
    ensures refused { IfErr result (IsUntaken text.now
        (wanted_with (option_copied checksum.entry)) manifest.now) }
{
    let findings = lint(alloc, keys, manifest)?;
    let entry = index_entry(
        alloc,
        manifest,
        text,
        findings.as_slice(),
        options_with(checksum),
    )?;
    Ok(entry.to_string(alloc)?)
}
