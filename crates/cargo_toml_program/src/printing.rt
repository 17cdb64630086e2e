//! What the program writes of the features of a manifest that it reads.
ghost use Rattle.std.specs.Prelude.{◌≡◌, ◌⊎◌, ◌≤◌, IfErr, IfOk, OnOk, Ok, string_bytes};
ghost use Rattle.std.specs.Io.KnownBytes.{Keeps};
ghost use Rattle.cargo_toml_manifest.specs.Roots.{IsFromSlice};
ghost use Rattle.cargo_toml_parts.specs.declared.error.Error.{Memory};
ghost use Rattle.cargo_toml_program.specs.Printed.{ArePrinted, IsBytesFault, IsFeatureText};
ghost use Rattle.cargo_toml_program.specs.Printed.{IsOfBytes, IsPrintFault};
ghost use Rattle.cargo_toml_shallow.specs.Deep.{IsShallow};
ghost use Rattle.cargo_toml_program.specs.Printing.{IsOfManifest};

use crate::features::feature_lines;
use cargo_toml_manifest::Manifest;
use cargo_toml_parts::Error;
use cargo_toml_resolver::resolving::Resolver;
use cargo_toml_shallow::refuse_deep_bytes;
use std::alloc::Global;
use std::io::{Read, Write};

/// Reads a manifest from `input` and writes to `output` a line for each of its features, and then
/// one for each that is removed since it is hidden. They are resolved with the limit of items
/// `max_items`, at least 1. Names and texts are written as they are, line feeds and all.
///
/// Refuses with `Other` a text that nests deeper than 128, before it is read; as
/// `Manifest::from_slice` does; with `Io` where `input` can't be read or `output` can't be written;
/// and with `Memory` when out of memory. Nothing is written before all lines stand, so that a fault
/// of the manifest leaves `output` as it was.
pub fn print_features<R: Read, W: Write>(
    alloc: Global,
    input: &mut R,
    output: &mut W,
    max_items: usize,
) -> Result<(), Error>
    requires { 1 ≤ max_items }
    ensures printed { OnOk result (ArePrinted max_items (R.remaining input.old)
        (R.remaining input.new) (W.contents output.old) (W.contents output.new)) }
    ensures unwritten { IfErr result
        (λ e. IsOfManifest e → Keeps (W.contents output.old) (W.contents output.new)) }
    ensures refused { IfErr result
        (IsPrintFault (R.remaining input.old) (R.remaining input.new)) }
{
    let mut bytes = Vec::new(alloc);
    input.read_to_end(&mut bytes)?;
    let lines = text_of(alloc, bytes.as_slice(), max_items)?;
    output.write_all(lines.as_bytes())?;
    output.flush()?;
    Ok(())
}

/// The lines of the manifest that the bytes spell. Who calls it holds no manifest.
fn text_of(alloc: Global, bytes: &[u8], max_items: usize) -> Result<String, Error>
    requires { 1 ≤ max_items }
    ensures printed { IfOk result (λ t. IsOfBytes max_items bytes.now (string_bytes t)) }
    ensures refused { IfErr result (λ e. (e ≡ Memory) ⊎ IsBytesFault bytes.now e) }
{
    let manifest = manifest_of(alloc, bytes)?;
    lines_of(alloc, &*manifest, max_items)
}

/// The manifest that the bytes spell, on the heap. It is wide, and so no call that does more than
/// this holds it on the stack.
fn manifest_of(alloc: Global, bytes: &[u8]) -> Result<Box<Manifest>, Error>
    ensures shallow { OnOk result (IsShallow bytes.now) }
    ensures read { IfOk result (λ m. IsFromSlice bytes.now (Ok m.value)) }
    ensures refused { IfErr result (λ e. (e ≡ Memory) ⊎ IsBytesFault bytes.now e) }
{
    refuse_deep_bytes(alloc, bytes)?;
    match Manifest::from_slice(alloc, bytes) {
        Ok(manifest) => Ok(Box::new(alloc, manifest)?),
        Err(fault) => Err(fault),
    }
}

/// The lines of the features of a manifest. It fails only when out of memory.
fn lines_of(alloc: Global, manifest: &Manifest, max_items: usize) -> Result<String, Error>
    requires { 1 ≤ max_items }
    ensures printed { IfOk result
        (λ t. IsFeatureText max_items manifest.now (string_bytes t)) }
    ensures refused { IfErr result (λ e. e ≡ Memory) }
{
    let resolver = Resolver::new().with_max_items(max_items);
    feature_lines(alloc, &resolver.parse(alloc, manifest)?)
}
