//! Manifests completed from real files, of which no root is read that nests too deep.
ghost use Rattle.std.specs.Prelude.{◌≡◌, IfErr, IsErrAnd, None, OnErr, OnOk, option_map};
ghost use Rattle.std.specs.Path.{path_parent};
ghost use Rattle.cargo_toml_parts.specs.FaultValues.{fault_of};
ghost use Rattle.cargo_toml_manifest.specs.Choosing.{handed_of};
ghost use Rattle.cargo_toml_manifest.specs.Completed.{IsCompleted};
ghost use Rattle.cargo_toml_manifest.specs.Manifests.{held};
ghost use Rattle.cargo_toml_manifest.specs.RealFiles.{any_root, bad_path, real_folders};
ghost use Rattle.cargo_toml_manifest.specs.RealFiles.{real_roots};
ghost use Rattle.cargo_toml_shallow.specs.Deep.{IsShallowCompletionFault};

use crate::files::ShallowFiles;
use cargo_toml_manifest::Manifest;
use cargo_toml_parts::Error;
use cargo_toml_parts::paths::parent;
use std::alloc::Global;
use std::rt::Files;
use toml::Value;

/// Completes the manifest of the file at this path from the real files around it, as
/// `Manifest::complete_from_path` does. A root whose text nests deeper than 128 is refused before
/// it is read, as `Error::Other`. A refusal leaves the manifest as it was.
pub fn complete_from_path<'a, Metadata: Drop, R: Files + AllocGlobal>(
    rt: &'a R,
    alloc: Global,
    path: &'a str,
    manifest: &mut Manifest<Metadata>,
) -> Result<(), Error>
    ensures bad_path { path_parent path.now ≡ None
        → IsErrAnd result (λ e. fault_of e ≡ bad_path) }
    ensures unchanged { OnErr result (manifest.new ≡ manifest.old) }
    ensures completed { OnOk result
        (IsCompleted manifest.old None real_roots any_root real_folders manifest.new) }
    ensures refused { IfErr result
        (IsShallowCompletionFault path.now (held manifest.old) None) }
{
    let nothing = None::<(&Manifest<Value>, &str)>;
    complete_from_path_and_workspace(rt, alloc, path, manifest, nothing)
}

/// The same with a workspace that is handed in, as `Manifest::complete_from_path_and_workspace`.
pub fn complete_from_path_and_workspace<'a, Metadata: Drop, N, R: Files + AllocGlobal>(
    rt: &'a R,
    alloc: Global,
    path: &'a str,
    manifest: &mut Manifest<Metadata>,
    workspace: Option<(&Manifest<N>, &str)>,
) -> Result<(), Error>
    ensures bad_path { path_parent path.now ≡ None
        → IsErrAnd result (λ e. fault_of e ≡ bad_path) }
    ensures unchanged { OnErr result (manifest.new ≡ manifest.old) }
    ensures completed { OnOk result
        (IsCompleted manifest.old (option_map handed_of workspace.entry)
        real_roots any_root real_folders manifest.new) }
    ensures refused { IfErr result (IsShallowCompletionFault path.now
        (held manifest.old) (option_map handed_of workspace.entry)) }
{
    let Some(folder) = parent(path) else {
        return Err(Error::Other("bad path"));
    };
    manifest.complete_from_abstract_filesystem(alloc, ShallowFiles::new(rt, folder), workspace)
}
