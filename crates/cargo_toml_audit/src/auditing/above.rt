//! Where the workspace of a folder is. Nothing says which one it is.
ghost use Rattle.std.specs.Prelude.{IfErr, IfOk, IsTrue};
ghost use Rattle.cargo_toml_tools.specs.FromFiles.{IsUnreadable};
ghost use Rattle.cargo_toml_audit.specs.Places.{lies_in};

use crate::audit::named_by;
use crate::members::{Exclusion, lies_in, manifest_path, place_of};
use cargo_toml::{Error, Manifest};
use cargo_toml_lint::AllocResult;
use cargo_toml_parts::paths::ancestors;
use cargo_toml_tools::files::manifest_in;
use std::alloc::Global;
use std::rt::Files;
use std::{fs, io};

/// The place of a folder, seen from where the program runs.
pub fn absolute<R: Files + AllocGlobal>(rt: &R, folder: &str) -> Result<String, Error>
    ensures { IfErr result IsUnreadable }
{
    let from_here = if folder.is_empty() { "." } else { folder };
    if !fs::metadata(rt, from_here)?.is_dir() {
        return Err(Error::from(io::Error::from(io::ErrorKind::NotADirectory)));
    }
    let here = fs::canonicalize(rt, ".")?;
    let Some(here) = here.to_str() else {
        return Err(Error::from(io::Error::from(io::ErrorKind::InvalidData)));
    };
    Ok(place_of(rt.alloc(), here, folder)?)
}

/// Where the workspace of a place is, as Cargo looks for it.
#[derive(Drop)]
pub struct Found {
    /// The place of the nearest manifest at or above it.
    pub asked: String,
    /// The place of the root: that of this manifest's own workspace, the one that it names, or the
    /// first one above it that doesn't exclude it.
    pub root: String,
}

/// Where the workspace of a place is. None where no manifest at or above it leads to one. As Cargo
/// unpacks packages in `target/package`, it looks no further from what lies right there.
pub fn workspace_of<R: Files + AllocGlobal>(rt: &R, start: &str) -> Result<Option<Found>, Error>
    ensures refused { IfErr result IsUnreadable }
{
    let alloc = rt.alloc();
    let mut asked: Option<String> = None;
    for above in ancestors(start) {
        let place = above.as_str();
        if asked.is_some() && place.ends_with("/target/package") {
            break;
        }
        let path = manifest_path(alloc, place)?;
        // a link that leads nowhere is passed over too
        if fs::metadata(rt, path.as_str()).is_err() {
            continue;
        }
        let held = manifest_in(rt, path.as_str())?;
        let first = match asked {
            Some(first) => first,
            None => String::from_str(alloc, place)?,
        };
        if let Some(root) = led_to(alloc, &*held.manifest, place, first.as_str())? {
            return Ok(Some(Found { asked: first, root }));
        }
        asked = Some(first);
    }
    Ok(None)
}

/// The place of the root to which a manifest at this place leads, which is asked for or lies above
/// that.
fn led_to(
    alloc: Global,
    manifest: &Manifest,
    place: &str,
    asked: &str,
) -> AllocResult<Option<String>> {
    if let Some(workspace) = &manifest.workspace {
        let exclusion = Exclusion::of(alloc, place, workspace)?;
        if exclusion.excludes(alloc, asked)? {
            return Ok(None);
        }
        return Ok(Some(String::from_str(alloc, place)?));
    }
    match named_by(&manifest.package) {
        Some(path) => Ok(Some(place_of(alloc, place, path)?)),
        None => Ok(None),
    }
}

/// Whether a place is of a workspace: it lies in the folder of that, or leads to it.
pub fn is_of<R: Files + AllocGlobal>(rt: &R, place: &str, root: &str) -> Result<bool, Error>
    ensures within { IfOk result (λ own. IsTrue (lies_in place.now root.now) → IsTrue own) }
    ensures refused { IfErr result IsUnreadable }
{
    if lies_in(rt.alloc(), place, root)? {
        return Ok(true);
    }
    Ok(workspace_of(rt, place)?.is_some_and(|found| found.root.as_str() == root))
}
