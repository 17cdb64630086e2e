//! What the program writes of a manifest in a file, completed from the files around it.
ghost use Rattle.std.specs.Prelude.{◌⊎◌, IfErr, IfOk, IsSome, OnOk, string_bytes};
ghost use Rattle.std.specs.{Io.KnownBytes.Appends, Io.KnownBytes.Keeps, Path.path_parent};
ghost use Rattle.cargo_toml_program.specs.Printed.{IsOfCompleted, IsFileFault, IsSpelled};
ghost use Rattle.cargo_toml_graph.specs.Action.{Text};
ghost use Rattle.cargo_toml_program.specs.Printing.{IsOfManifest, IsOfOutput};

use crate::completion::completion_lines;
use cargo_toml_manifest::Manifest;
use cargo_toml_parts::Error;
use cargo_toml_shallow::{complete_from_path, refuse_deep};
use std::fs;
use std::io::Write;
use std::rt::Files;

/// Reads the manifest in a file, completes it from the files around it, and writes the lines of
/// `print_complete` to `output`. The manifest is on the heap, so the caller's stack holds none.
///
/// Refuses with `Other` a text that nests deeper than 128, before it is read, that of the
/// workspace's root too; as `Manifest::from_str` and `Manifest::complete_from_path` do; with `Io`
/// where the file can't be read or `output` can't be written; and with `Memory` when out of memory.
/// Nothing is written before all lines stand, so a fault of the manifest leaves `output` as it was.
pub fn print_completed<R: Files + AllocGlobal, W: Write>(
    rt: &R,
    file: &str,
    output: &mut W,
) -> Result<(), Error>
    ensures printed { OnOk result ((text : Text) × IsOfCompleted text
        × Appends (W.contents output.old) (W.contents output.new) text) }
    ensures named { OnOk result (IsSome (path_parent file.now)) }
    ensures unwritten { IfErr result (λ e. IsOfManifest e
        → Keeps (W.contents output.old) (W.contents output.new)) }
    ensures refused { IfErr result (λ e. IsOfOutput e ⊎ IsFileFault file.now e) }
{
    let mut manifest = manifest_in(rt, file)?;
    let lines = completed_lines(rt, file, &mut *manifest)?;
    output.write_all(lines.as_bytes())?;
    output.flush()?;
    Ok(())
}

/// Completes the manifest of a file from the files around it. The lines are those that it then has.
fn completed_lines<R: Files + AllocGlobal>(
    rt: &R,
    file: &str,
    manifest: &mut Manifest,
) -> Result<String, Error>
    ensures lines { IsSpelled manifest.old → IfOk result
        (λ text. IsOfCompleted (string_bytes text)) }
    ensures named { OnOk result (IsSome (path_parent file.now)) }
    ensures refused { IsSpelled manifest.old → IfErr result (IsFileFault file.now) }
{
    complete_from_path(rt, rt.alloc(), file, manifest)?;
    Ok(completion_lines(rt.alloc(), manifest)?)
}

/// The manifest in a file, on the heap. It is wide, and so no call that does more than this
/// holds it on the stack.
fn manifest_in<R: Files + AllocGlobal>(rt: &R, file: &str) -> Result<Box<Manifest>, Error>
    ensures spelled { IfOk result (λ manifest. IsSpelled manifest.value) }
    ensures refused { IfErr result (IsFileFault file.now) }
{
    let text = fs::read_to_string(rt, file)?;
    refuse_deep(rt.alloc(), text.as_str())?;
    match Manifest::from_str(rt.alloc(), text.as_str()) {
        Ok(manifest) => Ok(Box::new(rt.alloc(), manifest)?),
        Err(fault) => Err(fault),
    }
}
