//! A report as text.
ghost use Rattle.std.specs.Prelude.{◌≡◌, ◌++◌, IfErr, IfOk, OnOk, string_bytes};
ghost use Rattle.std.specs.Io.KnownBytes.{Appends, Keeps};
ghost use Rattle.toml.specs.View.{view};
ghost use Rattle.cargo_toml.specs.{Action.Text, Manifests.manifest_meaning};
ghost use Rattle.cargo_toml_bench.specs.Printing.{IsReport, line_with, lines_with, report_text};
ghost use Rattle.cargo_toml_bench.specs.Spelled.{IsManifest, RefusesBytes, RefusesToPrint, Spells};
ghost use Rattle.cargo_toml_bench.specs.Reports.{texts};
ghost use Rattle.cargo_toml_resolve.specs.Texts.{texts_now};

use crate::report::{Report, make_report};
use cargo_toml::Error;
use cargo_toml_manifest::HeldManifest;
use std::alloc::{AllocError, Global};
use std::io::Write;

/// Writes the report of the manifest that the bytes spell: a line `optional NAME` for each optional
/// key of its table `dependencies`, and then a line `unreferenced NAME` for each feature other than
/// `default` that nothing in it enables.
///
/// Refuses as [`HeldManifest::from_slice`] does, with `Memory` when out of memory, and with `Io`
/// where `output` can't be written. All lines stand before the first is written, so that a fault of
/// the manifest leaves `output` as it was.
pub fn print_report<W: Write>(alloc: Global, bytes: &[u8], output: &mut W) -> Result<(), Error>
    ensures printed { OnOk result ((text : Text) × IsReport bytes.now text
        × Appends (W.contents output.old) (W.contents output.new) text) }
    ensures unwritten { ¬ IsManifest bytes.now
        → Keeps (W.contents output.old) (W.contents output.new) }
    ensures refused { IfErr result (RefusesToPrint bytes.now) }
{
    let text = report_of(alloc, bytes)?;
    output.write_all(text.as_bytes())?;
    output.flush()?;
    Ok(())
}

// The report of the manifest that the bytes spell, as text.
fn report_of(alloc: Global, bytes: &[u8]) -> Result<String, Error>
    ensures text { IfOk result (λ s. IsReport bytes.now (string_bytes s)) }
    ensures refused { IfErr result (RefusesBytes bytes.now) }
{
    let held = read(alloc, bytes)?;
    let report = make_report(alloc, &*held.manifest)?;
    Ok(report_text(alloc, &report)?)
}

// The manifest that the bytes spell.
pub(crate) fn read(alloc: Global, bytes: &[u8]) -> Result<HeldManifest, Error>
    ensures manifest { IfOk result
        (λ h. Spells bytes.now (manifest_meaning view h.manifest.value)) }
    ensures refused { IfErr result (RefusesBytes bytes.now) }
{
    HeldManifest::from_slice(alloc, bytes)
}

// The lines of a report.
fn report_text(alloc: Global, report: &Report<'_>) -> Result<String, AllocError>
    ensures { IfOk result (λ s. string_bytes s
        ≡ report_text (texts report.now.optional) (texts report.now.unreferenced)) }
{
    let mut text = String::new(alloc);
    push_lines(&mut text, "optional ", report.optional.as_slice())?;
    push_lines(&mut text, "unreferenced ", report.unreferenced.as_slice())?;
    Ok(text)
}

// A line for each name.
fn push_lines(text: &mut String, word: &str, names: &[&str]) -> Result<(), AllocError>
    ensures { OnOk result (string_bytes text.new
        ≡ string_bytes text.old ++ lines_with word.now (texts_now names.now)) }
{
    for name in names {
        push_line(text, word, *name)?;
    }
    Ok(())
}

fn push_line(text: &mut String, word: &str, name: &str) -> Result<(), AllocError>
    ensures { OnOk result (string_bytes text.new
        ≡ string_bytes text.old ++ line_with word.now name.now) }
{
    text.push_str(word)?;
    text.push_str(name)?;
    text.push_str("\n")?;
    Ok(())
}
