//! Manifests that are completed from their texts and the names beside them alone: no workspace is
//! looked for.
ghost use Rattle.std.specs.Prelude.{◌≡◌, ◌⊎◌, IfErr, IfOk, IsSome, OnOk, option_map};
ghost use Rattle.std.specs.{Path.path_parent, Prelude.string_bytes};
ghost use Rattle.cargo_toml.specs.{Error.Memory, FaultValues.fault_of, Manifests.held};
ghost use Rattle.cargo_toml.specs.{FaultValues.workspace_integrity, Told.no_root};
ghost use Rattle.cargo_toml_tools.specs.Alone.{IsCompletedAlone, IsCompletedBeside};
ghost use Rattle.cargo_toml_tools.specs.Alone.{IsCompletedFrom, IsMadeBeside, IsRefusedAlone};
ghost use Rattle.cargo_toml_tools.specs.Alone.{IsUncompletedAlone, IsUncompletedBeside};
ghost use Rattle.cargo_toml_tools.specs.Alone.{IsUncompletedFrom, needed};
ghost use Rattle.cargo_toml_tools.specs.Left.{left_name, left_of, left_words};

use super::reading::{completed_of, manifest_of};
use crate::left::{Left, first_left};
use cargo_toml::{AbstractFilesystem, Error, Filesystem, Manifest, NoRoot, Value};
use cargo_toml_lint::AllocResult;
use cargo_toml_manifest::HeldManifest;
use cargo_toml_parts::paths::parent;
use std::alloc::Global;
use std::collections::HashSet;
use std::rt::Files;

/// A text of a file, and what its manifest is completed from.
#[derive(Clone, Copy, Debug)]
pub struct Source<'a> {
    /// The path of the file. Names are looked for in its folder.
    pub path: &'a str,
    /// The text.
    pub text: &'a str,
    /// Whether the manifest is completed from the text and these names alone. Else the root of its
    /// workspace is looked for, too.
    pub is_alone: bool,
}

/// The manifest in a text, completed from what the source says. Refused where the text doesn't read
/// or complete, where the path has no folder above it, or out of memory.
pub fn completed_from<R: Files + AllocGlobal>(
    rt: &R,
    source: Source<'_>,
) -> Result<HeldManifest, Error>
    ensures completed { IfOk result (λ h. IsCompletedFrom source.entry h.manifest.value) }
    ensures named { OnOk result (IsSome (path_parent source.entry.path.now)) }
    ensures refused { IfErr result (IsUncompletedFrom source.entry) }
{
    if source.is_alone {
        completed_alone(rt, source.path, source.text)
    } else {
        completed_of(rt, source.path, source.text)
    }
}

/// The same from the text and the names in the folder of this path alone.
fn completed_alone<'a, R: Files + AllocGlobal>(
    rt: &'a R,
    path: &'a str,
    text: &str,
) -> Result<HeldManifest, Error>
    ensures completed { IfOk result (λ h. IsCompletedAlone text.now h.manifest.value) }
    ensures named { OnOk result (IsSome (path_parent path.now)) }
    ensures refused { IfErr result (IsUncompletedAlone path.now text.now) }
{
    let Some(folder) = parent(path) else {
        return Err(Error::Other("bad path"));
    };
    completed_beside(rt.alloc(), text, Filesystem::new(rt, folder))
}

/// The manifest in a text, completed from that and from the names in folders that `fs` answers. No
/// root of a workspace is asked for. So what comes is a function of the text and of these names,
/// where they are stated.
///
/// Refused where the text nests too deep or doesn't read; else as `WorkspaceIntegrity`, naming the
/// first key that is left to a workspace, where the manifest has no workspace table of its own.
/// Else refused where that workspace lacks what is left to it, or `fs` refuses to answer. Out of
/// memory is `Memory`.
pub fn completed_beside<Fs: AbstractFilesystem + Drop>(
    alloc: Global,
    text: &str,
    fs: Fs,
) -> Result<HeldManifest, Error>
    ensures completed { IfOk result
        (λ h. IsCompletedBeside text.now (Fs.names_at fs) h.manifest.value) }
    ensures refused { IfErr result (IsUncompletedBeside text.now (Fs.may_refuse fs)) }
{
    let mut held = manifest_of(alloc, text)?;
    complete_beside(alloc, &mut *held.manifest, fs)?;
    Ok(held)
}

fn complete_beside<Fs: AbstractFilesystem + Drop>(
    alloc: Global,
    manifest: &mut Manifest,
    fs: Fs,
) -> Result<(), Error>
    ensures completed { OnOk result (IsMadeBeside manifest.old (Fs.names_at fs) manifest.new) }
    ensures refused { IfErr result (IsRefusedAlone manifest.old (Fs.may_refuse fs)) }
{
    if let Some(left) = needed(manifest) {
        return Err(refusal(alloc, left));
    }
    let none = None::<(&Manifest<Value>, &str)>;
    manifest.complete_from_abstract_filesystem(alloc, Rootless { fs }, none)
}

/// The first key that a manifest leaves to a workspace, where it has none of its own.
pub fn needed<M>(manifest: &Manifest<M>) -> Option<Left<'_>>
    ensures { option_map left_of result ≡ needed (held manifest.now) }
{
    match &manifest.workspace {
        Some(_) => None,
        None => first_left(manifest),
    }
}

/// The refusal of a manifest that leaves a key to a workspace.
#[tactic(auto, using(crate::proofs::LeftNone::left_fault))]
fn refusal(alloc: Global, left: Left<'_>) -> Error
    ensures { (result ≡ Memory)
        ⊎ (fault_of result ≡ workspace_integrity (left_words (left_of left.entry))) }
{
    match words_of(alloc, left) {
        Ok(words) => Error::WorkspaceIntegrity(words),
        Err(_) => Error::Memory,
    }
}

/// What is said of a key that is left to a workspace.
fn words_of(alloc: Global, left: Left<'_>) -> AllocResult<String>
    ensures { IfOk result (λ words. string_bytes words ≡ left_words (left_of left.entry)) }
{
    let name = name_of(alloc, left)?;
    format!(in alloc; "{name} is left to a workspace, and none is looked for")
}

fn name_of(alloc: Global, left: Left<'_>) -> AllocResult<String>
    ensures { IfOk result (λ name. string_bytes name ≡ left_name (left_of left.entry)) }
{
    let (table, key) = (left.table, left.key);
    match left.target {
        Some(target) => format!(in alloc; "target.{target}.{table}.{key}"),
        None => format!(in alloc; "{table}.{key}"),
    }
}

/// The names in folders that another file system answers, and no root of a workspace.
#[derive(Drop)]
struct Rootless<Fs> {
    fs: Fs,
}

impl<Fs: AbstractFilesystem> AbstractFilesystem for Rootless<Fs> {
    type Roots = NoRoot;

    ghost names_at = { λ rootless path. Fs.names_at rootless.fs path };

    ghost root_for = { λ _ _. no_root };

    ghost may_find = { λ _ _ _ _. ⊥ };

    ghost may_refuse = { λ rootless path. Fs.may_refuse rootless.fs path };

    ghost may_refuse_root = { λ _ _ _. ⊥ };

    fn file_names_in(&self, alloc: Global, rel_path: &str) -> Result<HashSet<String>, Error> {
        self.fs.file_names_in(alloc, rel_path)
    }
}
