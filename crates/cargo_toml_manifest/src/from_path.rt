//! Manifests in real files, completed from what stands around them.
ghost use Rattle.std.specs.Prelude.{◌≡◌, None, false, option_map, IfErr};
ghost use Rattle.std.specs.Prelude.{IfOk, IfSome, IsErrAnd, IsSome, OnErr, OnOk};
ghost use Rattle.std.specs.Path.{path_parent};
ghost use Rattle.toml.specs.View.{view};
ghost use Rattle.cargo_toml_parts.specs.FaultValues.{fault_of};
ghost use Rattle.cargo_toml_package.specs.Inheriting.{IsFilled};
ghost use Rattle.cargo_toml_manifest.specs.Choosing.{handed_of};
ghost use Rattle.cargo_toml_manifest.specs.Completed.{IsCompleted};
ghost use Rattle.cargo_toml_manifest.specs.Completing.{Meets, complete};
ghost use Rattle.cargo_toml_manifest.specs.Inheriting.{needs};
ghost use Rattle.cargo_toml_manifest.specs.Manifests.{held, manifest_meaning, manifest_reads};
ghost use Rattle.cargo_toml_manifest.specs.Manifests.{ManifestRefuses};
ghost use Rattle.cargo_toml_manifest.specs.RealFiles.{IsCompletedOf, IsCompletionFault};
ghost use Rattle.cargo_toml_manifest.specs.RealFiles.{IsPathFault, IsReadAndCompleted};
ghost use Rattle.cargo_toml_manifest.specs.RealFiles.{IsTextFault, any_root, bad_path};
ghost use Rattle.cargo_toml_manifest.specs.RealFiles.{real_folders, real_roots};
ghost use Rattle.cargo_toml_manifest.specs.Texts.{AnyRefuses, any_tree};

use crate::files::Filesystem;
use crate::manifest::Manifest;
use cargo_toml_parts::paths::parent;
use cargo_toml_parts::{Error, FromValue};
use std::alloc::Global;
use std::fs;
use std::rt::Files;
use toml::Value;

impl<Metadata: Drop> Manifest<Metadata> {
    /// Completes the manifest of the file at this path from the real files around it.
    ///
    /// It is `complete_from_path_and_workspace` where no workspace is handed in, and
    /// refuses as that does.
    pub fn complete_from_path<'a, R: Files + AllocGlobal>(
        &mut self,
        rt: &'a R,
        alloc: Global,
        path: &'a str,
    ) -> Result<(), Error>
        ensures outcome { IsSome (path_parent path.now)
            → Meets (λ _. held self.new)
            (complete (held self.old) None real_roots real_folders) result }
        ensures bad_path { path_parent path.now ≡ None
            → IsErrAnd result (λ e. fault_of e ≡ bad_path) }
        ensures unchanged { OnErr result (self.new ≡ self.old) }
        ensures completed { OnOk result
            (IsCompleted self.old None real_roots any_root real_folders self.new) }
        ensures refused { IfErr result
            (IsCompletionFault path.now (held self.old) None) }
    {
        self.complete_from_path_and_workspace(rt, alloc, path, None::<(&Manifest<Value>, &str)>)
    }

    /// Completes the manifest of the file at this path, with a workspace that is handed in, from
    /// the real files around it.
    ///
    /// What is put in is what `complete_from_abstract_filesystem` puts in, over the `Filesystem`
    /// of the folder that holds the file. The file itself is not read. The workspace is the first
    /// of these:
    ///
    /// - the one that is handed in with its path;
    /// - the manifest's own table;
    /// - where something is left to it, the root that `package.workspace` leads to, or without that
    ///   key the nearest above the folder.
    ///
    /// The search above goes by the text of `path` alone. It sees no folder above those that are
    /// written: from `m/Cargo.toml` none above the folder that the program runs in. Behind a `..`
    /// it goes on with what is written before that, which need not lie above. So hand in an
    /// absolute path without `..`.
    ///
    /// A path that has no folder above it, the empty one or `/`, is refused as
    /// `Error::Other("bad path")`. Other refusals are those of `complete_from_abstract_filesystem`.
    /// In place of names the files answer `Error::Io`, and in place of a root what
    /// `Filesystem::parse_root_workspace` refuses with. Each is reported as `Error::Workspace`,
    /// unless it is one already, and out of memory as `Error::Memory`. A refusal leaves the
    /// manifest as it was.
    pub fn complete_from_path_and_workspace<'a, N, R: Files + AllocGlobal>(
        &mut self,
        rt: &'a R,
        alloc: Global,
        path: &'a str,
        workspace: Option<(&Manifest<N>, &str)>,
    ) -> Result<(), Error>
        ensures outcome { IsSome (path_parent path.now)
            → Meets (λ _. held self.new)
            (complete (held self.old)
            (option_map handed_of workspace.entry) real_roots real_folders) result }
        ensures bad_path { path_parent path.now ≡ None
            → IsErrAnd result (λ e. fault_of e ≡ bad_path) }
        ensures unchanged { OnErr result (self.new ≡ self.old) }
        ensures completed { OnOk result (IsCompleted self.old (option_map handed_of workspace.entry)
            real_roots any_root real_folders self.new) }
        ensures refused { IfErr result (IsCompletionFault path.now
            (held self.old) (option_map handed_of workspace.entry)) }
    {
        let Some(folder) = parent(path) else {
            return Err(Error::Other("bad path"));
        };
        self.complete_from_abstract_filesystem(alloc, Filesystem::new(rt, folder), workspace)
    }
}

impl Manifest {
    /// The manifest in the file at this path, completed from the real files around it.
    ///
    /// The text is read as `Manifest::from_str` reads it, and then completed as
    /// `complete_from_path` does. So nothing in it is left to its workspace, and its products are
    /// those that it states and those found in its folder by the rules of discovery.
    ///
    /// A file that can't be read is refused as `Error::Io` of its kind, and one that is not UTF-8
    /// as that of the kind `InvalidData`. Other refusals are those of `from_str` and of
    /// `complete_from_path`.
    pub fn from_path<'a, R: Files + AllocGlobal>(
        rt: &'a R,
        alloc: Global,
        path: &'a str,
    ) -> Result<Manifest, Error>
        ensures given { IfOk result
            (IsReadAndCompleted (manifest_meaning view) (manifest_reads any_tree)) }
        ensures named { OnOk result (IsSome (path_parent path.now)) }
        ensures needs { IfOk result (λ new. needs (held new) ≡ false) }
        ensures filled { IfOk result (λ new. IfSome new.package IsFilled) }
        ensures refused { IfErr result (IsPathFault path.now (manifest_meaning view)
            (manifest_reads any_tree) (ManifestRefuses any_tree AnyRefuses)) }
    {
        Manifest::from_path_with_metadata(rt, alloc, path)
    }
}

impl<Metadata: FromValue> Manifest<Metadata> {
    /// The manifest in the file at this path, whose free tables `metadata` are read as the type
    /// says, completed from the real files around it.
    ///
    /// It refuses as `from_path` does; a fault of the metadata type is handed on as it is.
    pub fn from_path_with_metadata<'a, R: Files + AllocGlobal>(
        rt: &'a R,
        alloc: Global,
        path: &'a str,
    ) -> Result<Manifest<Metadata>, Error>
        ensures given { IfOk result
            (IsReadAndCompleted (manifest_meaning Metadata.meaning)
            (manifest_reads Metadata.from_tree)) }
        ensures named { OnOk result (IsSome (path_parent path.now)) }
        ensures needs { IfOk result (λ new. needs (held new) ≡ false) }
        ensures filled { IfOk result (λ new. IfSome new.package IsFilled) }
        ensures refused { IfErr result (IsPathFault path.now (manifest_meaning Metadata.meaning)
            (manifest_reads Metadata.from_tree)
            (ManifestRefuses Metadata.from_tree Metadata.from_refuses)) }
    {
        let text = fs::read_to_string(rt, path)?;
        completed_of(rt, alloc, path, text.as_str())
    }
}

// The manifest that this text spells, completed from the real files around the path.
fn completed_of<'a, Metadata: FromValue, R: Files + AllocGlobal>(
    rt: &'a R,
    alloc: Global,
    path: &'a str,
    text: &str,
) -> Result<Manifest<Metadata>, Error>
    ensures given { IfOk result
        (IsCompletedOf text.now (manifest_meaning Metadata.meaning)
        (manifest_reads Metadata.from_tree)) }
    ensures named { OnOk result (IsSome (path_parent path.now)) }
    ensures needs { IfOk result (λ new. needs (held new) ≡ false) }
    ensures filled { IfOk result (λ new. IfSome new.package IsFilled) }
    ensures refused { IfErr result
        (IsTextFault path.now text.now (manifest_meaning Metadata.meaning)
        (manifest_reads Metadata.from_tree)
        (ManifestRefuses Metadata.from_tree Metadata.from_refuses)) }
{
    let mut manifest = Manifest::from_text(alloc, text)?;
    manifest.complete_from_path(rt, alloc, path)?;
    Ok(manifest)
}
