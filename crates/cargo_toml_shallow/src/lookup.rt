//! The search for the root of a workspace among real files, as that of `cargo_toml_manifest`.
ghost use Rattle.std.specs.Prelude.{◌≡◌, ◌⊎◌, Err, IfErr, Ok};
ghost use Rattle.cargo_toml_discovery.specs.Folders.{RefusesBy};
ghost use Rattle.cargo_toml_manifest.specs.Roots.{IsFromSlice};
ghost use Rattle.cargo_toml_parts.specs.declared.error.Error.{Memory};
ghost use Rattle.cargo_toml_shallow.specs.Deep.{IsNoShallowWorkspace, IsShallowRootFault};

use crate::text::refuse_deep_bytes;
use cargo_toml_manifest::Manifest;
use cargo_toml_manifest::afs::wrapped;
use cargo_toml_parts::Error;
use cargo_toml_parts::paths::{ancestors, join, parent};
use std::alloc::Global;
use std::rt::Files;
use std::{fs, io};

/// Whether nothing is at the path of a file that could not be read. A path through a file counts as
/// such.
fn is_absent(kind: io::ErrorKind) -> bool {
    matches!(kind, io::ErrorKind::NotFound | io::ErrorKind::NotADirectory)
}

/// The manifest that these bytes spell, on the heap, where they don't nest too deep.
fn boxed(alloc: Global, bytes: &[u8]) -> Result<Box<Manifest>, Error>
    ensures { IfErr result (λ e. (e ≡ Memory) ⊎ IsFromSlice bytes.now (Err e)) }
{
    Ok(Box::new(alloc, Manifest::from_slice(alloc, bytes)?)?)
}

/// The manifest of a workspace of the bytes of a file, where they don't nest too deep.
fn workspace_of(alloc: Global, bytes: &[u8], path: &str) -> Result<Box<Manifest>, Error>
    ensures { RefusesBy IsNoShallowWorkspace result }
{
    refuse_deep_bytes(alloc, bytes)?;
    let manifest = boxed(alloc, bytes)?;
    if manifest.workspace.is_none() {
        let fault = format!(in alloc; "Manifest at {path} was expected to be a workspace.")?;
        return Err(Error::WorkspaceIntegrity(fault));
    }
    Ok(manifest)
}

/// The root of the workspace that a hint leads to, as seen from a folder: the manifest, and the
/// path of its folder. Refused as by the function of this name in `cargo_toml_manifest`, and where
/// the text nests too deep.
pub(crate) fn root_by_hint<R: Files + AllocGlobal>(
    rt: &R,
    alloc: Global,
    folder: &str,
    hint: &str,
) -> Result<(Manifest, String), Error>
    ensures { RefusesBy IsShallowRootFault result }
{
    let root = join(alloc, folder, hint)?;
    let file = join(alloc, root.as_str(), "Cargo.toml")?;
    match fs::read(rt, file.as_str()) {
        Ok(bytes) => Ok((
            Box::into_inner(workspace_of(alloc, bytes.as_slice(), file.as_str())?),
            root,
        )),
        Err(fault) => Err(wrapped(alloc, Error::from(fault), Some(file.as_str()))),
    }
}

/// The root of the workspace above a folder: the manifest, and the path of its `Cargo.toml`. It is
/// searched for as by the function of this name in `cargo_toml_manifest`. A text that nests too
/// deep counts as one that is no manifest.
pub(crate) fn root_above<R: Files + AllocGlobal>(
    rt: &R,
    alloc: Global,
    folder: &str,
) -> Result<(Manifest, String), Error>
    ensures { RefusesBy IsShallowRootFault result }
{
    let mut last = Error::Io(io::Error::from(io::ErrorKind::NotFound));
    let Some(first) = parent(folder) else {
        return Err(last);
    };
    for above in ancestors(first) {
        let file = join(alloc, above.as_str(), "Cargo.toml")?;
        let bytes = match fs::read(rt, file.as_str()) {
            Ok(bytes) => bytes,
            Err(fault) if is_absent(fault.kind()) => continue,
            Err(fault) => return Err(Error::from(fault)),
        };
        match workspace_of(alloc, bytes.as_slice(), file.as_str()) {
            Ok(manifest) => return Ok((Box::into_inner(manifest), file)),
            Err(Error::Memory) => return Err(Error::Memory),
            Err(fault) => last = fault,
        }
    }
    Err(last)
}
