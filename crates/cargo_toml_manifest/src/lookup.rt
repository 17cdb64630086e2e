//! The search for the root of a workspace among real files.
ghost use Rattle.std.specs.{Prelude.◌≡◌, Prelude.IfOk, Prelude.string_bytes, Path.path_join};
ghost use Rattle.cargo_toml_discovery.specs.Folders.{RefusesBy};
ghost use Rattle.cargo_toml_manifest.specs.RealFiles.{IsNoWorkspace, IsRootFault, is_absent};

use crate::afs::{boxed, wrapped};
use crate::manifest::Manifest;
use cargo_toml_parts::Error;
use cargo_toml_parts::paths::{ancestors, join, parent};
use std::alloc::Global;
use std::rt::Files;
use std::{fs, io};

// Whether nothing is at the path of a file that could not be read. A path through a
// file counts as such.
fn is_absent(kind: io::ErrorKind) -> bool
    ensures { result ≡ is_absent kind }
{
    matches!(kind, io::ErrorKind::NotFound | io::ErrorKind::NotADirectory)
}

// The manifest of a workspace of the bytes of a file.
fn workspace_of(alloc: Global, bytes: &[u8], path: &str) -> Result<Box<Manifest>, Error>
    ensures { RefusesBy IsNoWorkspace result }
{
    let manifest = boxed(alloc, bytes)?;
    if manifest.workspace.is_none() {
        let fault = format!(in alloc; "Manifest at {path} was expected to be a workspace.")?;
        return Err(Error::WorkspaceIntegrity(fault));
    }
    Ok(manifest)
}

/// The root of the workspace that a hint leads to, as seen from a folder: the manifest, and the
/// path of its folder.
///
/// The file is the `Cargo.toml` in the folder that the hint names. Where it can't be read, the
/// fault is reported as `Error::Workspace` with the path of that file. A fault of its bytes is the
/// one of `Manifest::from_slice`, and that of a manifest without a workspace table
/// `Error::WorkspaceIntegrity`, whose text names the file; neither is wrapped. Out of memory is
/// `Error::Memory`.
pub fn root_by_hint<R: Files + AllocGlobal>(
    rt: &R,
    alloc: Global,
    folder: &str,
    hint: &str,
) -> Result<(Manifest, String), Error>
    ensures path { IfOk result (λ root. string_bytes root.1 ≡ path_join folder.now hint.now) }
    ensures refused { RefusesBy IsRootFault result }
{
    let root = join(alloc, folder, hint)?;
    let file = join(alloc, root.as_str(), "Cargo.toml")?;
    match fs::read(rt, file.as_str()) {
        Ok(bytes) => Ok((
            Box::into_inner(workspace_of(alloc, bytes.as_slice(), file.as_str())?),
            root,
        )),
        Err(fault) => Err(wrapped(alloc, Error::from(fault), Some(file.as_str()))),
    }
}

/// The root of the workspace above a folder: the manifest, and the path of its `Cargo.toml`.
///
/// The folders that are written in the path above it are tried, the nearest first. Where there is
/// no `Cargo.toml`, one that is no manifest, or one without a workspace table, the next is tried.
/// If none is left, the fault is that of the last such file, and else `Error::Io` of the kind
/// `NotFound`. A `Cargo.toml` that can't be read for another cause is refused at once as
/// `Error::Io`, and out of memory as `Error::Memory`.
///
/// A contract says of which kinds refusals are. That the root is the nearest none says.
pub fn root_above<R: Files + AllocGlobal>(
    rt: &R,
    alloc: Global,
    folder: &str,
) -> Result<(Manifest, String), Error>
    ensures { RefusesBy IsRootFault result }
{
    let mut last = Error::Io(io::Error::from(io::ErrorKind::NotFound));
    let Some(first) = parent(folder) else {
        return Err(last);
    };
    for above in ancestors(first) {
        let file = join(alloc, above.as_str(), "Cargo.toml")?;
        let bytes = match fs::read(rt, file.as_str()) {
            Ok(bytes) => bytes,
            Err(fault) if is_absent(fault.kind()) => continue,
            Err(fault) => return Err(Error::from(fault)),
        };
        match workspace_of(alloc, bytes.as_slice(), file.as_str()) {
            Ok(manifest) => return Ok((Box::into_inner(manifest), file)),
            Err(Error::Memory) => return Err(Error::Memory),
            Err(fault) => last = fault,
        }
    }
    Err(last)
}
