//! Manifests that are read from files and held on the heap, and what is amiss with their features.
ghost use Rattle.std.specs.{Path.path_parent, Prelude.IfErr, Prelude.IfOk, Prelude.IsSome};
ghost use Rattle.std.specs.Prelude.{OnOk};
ghost use Rattle.cargo_toml.specs.{Action.Text, Manifests.held};
ghost use Rattle.cargo_toml_tools.specs.FromFiles.{IsCompletedIn, IsManifestIn, IsOfInput};
ghost use Rattle.cargo_toml_tools.specs.FromFiles.{IsUncompleted, IsUnreadable, RefusesText};
ghost use Rattle.cargo_toml_tools.specs.Linted.{AreFindingsOf};

use cargo_toml::{Error, Manifest};
use cargo_toml_lint::Finding;
use cargo_toml_manifest::HeldManifest;
use cargo_toml_shallow::{complete_from_path, refuse_deep};
use std::alloc::Global;
use std::fs;
use std::hash::RandomState;
use std::random::RandomSource;
use std::rt::Files;

/// The text of a file. Refused where the file can't be read or isn't UTF-8, or out of memory.
pub fn text_in<R: Files + AllocGlobal>(rt: &R, file: &str) -> Result<String, Error>
    ensures { IfErr result IsOfInput }
{
    Ok(fs::read_to_string(rt, file)?)
}

/// The manifest in this text as it is written. Refused where the text nests deeper than 128, before
/// it is read, where it doesn't read, or out of memory.
pub fn manifest_of(alloc: Global, text: &str) -> Result<HeldManifest, Error>
    ensures read { IfOk result (λ h. IsManifestIn text.now h.manifest.value) }
    ensures refused { IfErr result (RefusesText text.now) }
{
    refuse_deep(alloc, text)?;
    HeldManifest::from_str(alloc, text)
}

/// The manifest in the text of this file, completed from what is around the file. Refused where the
/// text, or that of the workspace's root, nests too deep; where the text doesn't read or complete;
/// where the path has no folder above it; or out of memory.
pub fn completed_of<R: Files + AllocGlobal>(
    rt: &R,
    file: &str,
    text: &str,
) -> Result<HeldManifest, Error>
    ensures completed { IfOk result (λ h. IsCompletedIn file.now text.now h.manifest.value) }
    ensures named { OnOk result (IsSome (path_parent file.now)) }
    ensures refused { IfErr result (IsUncompleted file.now text.now) }
{
    let mut held = manifest_of(rt.alloc(), text)?;
    complete_from_path(rt, rt.alloc(), file, &mut *held.manifest)?;
    Ok(held)
}

/// The manifest in this file as it is written: nothing is completed. Refused where the file can't
/// be read, where its text doesn't read, or out of memory.
pub fn manifest_in<R: Files + AllocGlobal>(rt: &R, path: &str) -> Result<HeldManifest, Error>
    ensures read { IfOk result (λ h. (text : Text) × IsManifestIn text h.manifest.value) }
    ensures refused { IfErr result IsUnreadable }
{
    let text = text_in(rt, path)?;
    manifest_of(rt.alloc(), text.as_str())
}

/// What lint finds of the features of a manifest.
pub fn findings_of<'m, R: RandomSource + AllocGlobal, M>(
    rt: &R,
    manifest: &'m Manifest<M>,
) -> Result<Vec<Finding<'m>>, Error>
    ensures found { IfOk result (λ v. AreFindingsOf (held manifest.now) v.items) }
    ensures refused { IfErr result IsOfInput }
{
    let state = RandomState::new(rt)?;
    cargo_toml_lint::lint(rt.alloc(), state, manifest)
}
