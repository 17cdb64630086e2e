//! A tool that completes a member from its workspace, and writes it as a manifest of its own.
ghost use Rattle.std.specs.Prelude.{IfOk, string_bytes};
ghost use Rattle.cargo_toml.specs.Choosing.{roots_of};
ghost use Rattle.cargo_toml_bench.specs.CompletedTexts.{IsCompletedText};

use crate::report::print::read;
use crate::versioned::manifest_text;
use cargo_toml::{AbstractFilesystem, Error, Value};
use cargo_toml_write::laws::{completed_manifests_are_told, read_manifests_are_told};
use std::alloc::Global;

/// The text of the member that these bytes spell, completed from the workspace that `root` spells
/// at this path. What is read of the text, where it nests no deeper than `toml` reads, is the
/// completed member, as `reread` says.
///
/// Refuses bytes that spell no manifest, what completion refuses, and when out of memory.
pub fn completed_text<Fs: AbstractFilesystem + Drop>(
    alloc: Global,
    member: &[u8],
    root: &[u8],
    path: &str,
    files: &Fs,
) -> Result<String, Error>
    ensures { IfOk result (λ text. IsCompletedText member.now root.now path.now
        (roots_of Fs.Roots.ARE_FOUND (Fs.root_for files.now)) (Fs.may_find files.now)
        (Fs.names_at files.now) (string_bytes text)) }
{
    let root = read(alloc, root)?;
    let mut held = read(alloc, member)?;
    let workspace = Some((&*root.manifest, path));
    let manifest = &mut *held.manifest;
    manifest.complete_from_abstract_filesystem(alloc, files, workspace)?;
    read_manifests_are_told();
    completed_manifests_are_told::<Value>();
    manifest_text(alloc, manifest)
}
