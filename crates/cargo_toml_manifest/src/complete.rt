//! Completing a manifest from its workspace and from its folders.
ghost use Rattle.std.specs.Prelude.{◌≡◌, IfErr, OnErr, OnOk, Option, Some, option_map};
ghost use Rattle.std.specs.Option.{option_copied};
ghost use Rattle.cargo_toml_parts.specs.Answers.{Gives};
ghost use Rattle.cargo_toml_package.specs.Sharing.{shared_of};
ghost use Rattle.cargo_toml_manifest.specs.Answering.{IsAnsweredAt, IsAnsweredBy};
ghost use Rattle.cargo_toml_manifest.specs.Choosing.{Handed, from, handed_of, hint_of, roots_of};
ghost use Rattle.cargo_toml_manifest.specs.Completed.{IsCompleted};
ghost use Rattle.cargo_toml_manifest.specs.Completing.{Meets, complete, inherited_by, path_of};
ghost use Rattle.cargo_toml_manifest.specs.Installing.{installed};
ghost use Rattle.cargo_toml_manifest.specs.Manifests.{held};
ghost use Rattle.cargo_toml_manifest.specs.Refusing.{IsRefusedBy, MayLose};

use crate::afs::{AbstractFilesystem, wrapped};
use crate::finding::{Completion, find, put_found};
use crate::inheriting::{install_parts, new_parts};
use crate::manifest::Manifest;
use cargo_toml_package::sharing::NewParts;
use cargo_toml_parts::Error;
use cargo_toml_parts::paths::workspace_folder;
use std::alloc::Global;

// What a manifest takes from the workspace of a root at this path.
fn parts_from<Metadata, N>(
    alloc: Global,
    manifest: &Manifest<Metadata>,
    root: &Manifest<N>,
    path: &str,
) -> Result<NewParts, Error>
    ensures { Gives (installed (held manifest.now)) result
        (inherited_by (Some (shared_of root.now.workspace, path.now)) (held manifest.now)) }
{
    new_parts(
        alloc,
        manifest,
        root.workspace.as_ref(),
        workspace_folder(path),
    )
}

// What completion puts into a manifest that takes these parts, unless they are refused. The path is
// reported with a fault.
fn completion<Metadata, Fs: AbstractFilesystem>(
    alloc: Global,
    manifest: &Manifest<Metadata>,
    parts: Result<NewParts, Error>,
    path: Option<&str>,
    fs: &Fs,
) -> Result<Completion, Error>
    ensures { let m = held manifest.now in
        (w : Option Handed) → path_of w ≡ option_copied path.entry
        → Gives (installed m) parts (inherited_by w m)
        → IsAnsweredAt m (Fs.names_at fs.now)
        (MayLose Fs.Roots.ARE_FOUND (Fs.may_refuse_root fs.now)) (Fs.may_refuse fs.now)
        (from w) result }
{
    let parts = match parts {
        Ok(parts) => parts,
        Err(fault) => return Err(wrapped(alloc, fault, path)),
    };
    match find(alloc, manifest, &parts, fs) {
        Ok(found) => Ok(Completion { parts, found }),
        Err(fault) => {
            // By a call, since what is dropped at a function's end is looked at field by field.
            drop(parts);
            Err(wrapped(alloc, fault, path))
        }
    }
}

// What the package says of where its workspace is.
fn hint_of<Metadata>(manifest: &Manifest<Metadata>) -> Option<&str>
    ensures { option_copied result ≡ hint_of (held manifest.now) }
{
    manifest.package.as_ref()?.workspace.as_deref()
}

// What completion puts into a manifest, wherever its workspace is.
fn completion_for<Metadata, N, Fs: AbstractFilesystem>(
    alloc: Global,
    manifest: &Manifest<Metadata>,
    fs: &Fs,
    workspace: Option<(&Manifest<N>, &str)>,
) -> Result<Completion, Error>
    ensures { IsAnsweredBy (held manifest.now) (Fs.names_at fs.now)
        (MayLose Fs.Roots.ARE_FOUND (Fs.may_refuse_root fs.now)) (Fs.may_refuse fs.now)
        (option_map handed_of workspace.entry)
        (roots_of Fs.Roots.ARE_FOUND (Fs.root_for fs.now)) (Fs.may_find fs.now) result }
{
    if let Some((root, path)) = workspace {
        let parts = parts_from(alloc, manifest, root, path);
        return completion(alloc, manifest, parts, Some(path), fs);
    }
    if manifest.workspace.is_some() {
        let parts = parts_from(alloc, manifest, manifest, "");
        return completion(alloc, manifest, parts, Some(""), fs);
    }
    if !manifest.needs_workspace_inheritance() {
        // Where nothing is left to a workspace, nothing is taken from any.
        let parts = parts_from(alloc, manifest, manifest, "");
        return completion(alloc, manifest, parts, None, fs);
    }
    let hint = hint_of(manifest);
    match fs.parse_root_workspace(alloc, hint) {
        Ok((root, path)) => {
            let at = path.as_str();
            let parts = parts_from(alloc, manifest, &root, at);
            // By a call, as in `completion`: a manifest is the widest of all.
            drop(root);
            completion(alloc, manifest, parts, Some(at), fs)
        }
        Err(fault) => Err(wrapped(alloc, fault, hint)),
    }
}

impl<Metadata: Drop> Manifest<Metadata> {
    /// Puts in what the manifest leaves to its workspace, and what is found in its folders.
    ///
    /// The workspace is the first of these:
    ///
    /// - the one that is handed in, with the path of its folder or of its `Cargo.toml`;
    /// - the manifest's own workspace table;
    /// - where something is left to it, the root that `fs` finds by what the package says of its
    ///   workspace.
    ///
    /// It gives dependencies, lints and fields of the package; where nothing is left to it, these
    /// stay as they are. Paths that it gives are joined to its folder: those of dependencies, of
    /// the readme and of the license file.
    ///
    /// Where no workspace is handed in, `N` has to be named, and any type of metadata does:
    /// `complete_from_abstract_filesystem::<Value, _>(alloc, fs, None)`.
    ///
    /// Where there is a package, `fs` is asked for the names in these, each once:
    ///
    /// - the folder of the package, and `src`;
    /// - `src/bin`, `examples`, `tests` and `benches`, each unless the package turns it off;
    /// - each name in one of these four that doesn't end with `.rs`, also where it is no folder.
    ///
    /// A folder that is absent counts as empty, but that of the package must be there.
    ///
    /// From the names come the library, the products of the four lists, the build script and the
    /// readme, by the original's rules, which follow Cargo's target auto-discovery. A product of a
    /// list that states no path, and for which no file is found, is dropped, unless the package
    /// turns that list off. The lists are put in order of name and path.
    ///
    /// Afterwards nothing is left to the workspace, every getter of the package may be called, and
    /// completing again with the same workspace and folders changes nothing.
    ///
    /// Each fault is reported as `Error::Workspace`, unless it is one already. It has the path of
    /// that workspace, which is empty for the manifest's own table. Where no root was found, it has
    /// the hint; where there is neither a workspace nor need of one, no path. The faults are:
    ///
    /// - what `fs` answers in place of a root;
    /// - `WorkspaceIntegrity` for a dependency that the workspace lacks, for lints without a
    ///   workspace table and for a field of the package that is still left;
    /// - `InheritedUnknownValue` for a dependency that the workspace itself leaves to another;
    /// - after all these, what `fs` answers in place of names.
    ///
    /// Out of memory is `Error::Memory`. A refusal leaves the manifest as it was. A fault that `fs`
    /// answers is one that its `may_refuse_root` or `may_refuse` allows. A root that it finds is
    /// one that its `may_find` allows. With `NoRoot` the fault in place of a root may also be
    /// `Unsupported`.
    pub fn complete_from_abstract_filesystem<N, Fs: AbstractFilesystem + Drop>(
        &mut self,
        alloc: Global,
        fs: Fs,
        workspace: Option<(&Manifest<N>, &str)>,
    ) -> Result<(), Error>
        ensures outcome { Meets (λ _. held self.new)
            (complete (held self.old) (option_map handed_of workspace.entry)
            (roots_of Fs.Roots.ARE_FOUND (Fs.root_for fs)) (Fs.names_at fs))
            result }
        ensures unchanged { OnErr result (self.new ≡ self.old) }
        ensures completed { OnOk result
            (IsCompleted self.old (option_map handed_of workspace.entry)
            (roots_of Fs.Roots.ARE_FOUND (Fs.root_for fs)) (Fs.may_find fs) (Fs.names_at fs)
            self.new) }
        ensures wrapped { IfErr result
            (IsRefusedBy (held self.old) (option_map handed_of workspace.entry)
            (roots_of Fs.Roots.ARE_FOUND (Fs.root_for fs)) (Fs.may_find fs)
            (MayLose Fs.Roots.ARE_FOUND (Fs.may_refuse_root fs)) (Fs.may_refuse fs)) }
    {
        let Completion { parts, found } = completion_for(alloc, self, &fs, workspace)?;
        install_parts(self, parts);
        put_found(self, found);
        Ok(())
    }
}
