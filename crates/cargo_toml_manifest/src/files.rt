//! Real files around a manifest.
ghost use Rattle.std.specs.Prelude.{◌≡◌};
ghost use Rattle.cargo_toml_discovery.specs.Disk.{or_here};
ghost use Rattle.cargo_toml_manifest.specs.RealFiles.{RealListingRefuses, RealRootRefuses};
ghost use Rattle.cargo_toml_manifest.specs.RealFiles.{folder_of};

use crate::afs::{AbstractFilesystem, ParsedRoot};
use crate::lookup::{root_above, root_by_hint};
use crate::manifest::Manifest;
use cargo_toml_discovery::disk::{names_in, or_here};
use cargo_toml_parts::Error;
use cargo_toml_parts::paths::join;
use std::alloc::Global;
use std::collections::HashSet;
use std::rt::Files;

/// The files on the disk, as seen from the folder of a manifest.
///
/// A name that is no folder has no names in it: it is refused as one that is absent. Of what stands
/// on a disk nothing is stated.
#[derive(Drop)]
pub struct Filesystem<'a, R> {
    path: &'a str,
    rt: &'a R,
}

impl<'a, R: Files + AllocGlobal> Filesystem<'a, R> {
    /// The files around a manifest in this folder. The empty path is the folder that the program
    /// runs in, as `.` is. Nothing is read yet.
    pub fn new(rt: &'a R, path: &'a str) -> Filesystem<'a, R>
        ensures { folder_of result ≡ or_here path.now }
    {
        Filesystem {
            path: or_here(path),
            rt,
        }
    }
}

/// What stands on the disk. Nothing is stated of it except of which kinds its faults are.
impl<R: Files + AllocGlobal> AbstractFilesystem for Filesystem<'_, R> {
    type Roots = ParsedRoot;

    ghost may_refuse = { λ _ path. RealListingRefuses path };

    ghost may_refuse_root = { λ _ hint. RealRootRefuses hint };

    /// The names in the folder on the disk. A name that is absent or no folder is `Error::Io` of
    /// the kind `NotFound`. A folder that can't be read is `Error::Io` of its kind. So is an entry
    /// that can't be read or whose name isn't UTF-8; but where its kind is `NotFound` or
    /// `NotADirectory`, it becomes `Other`. Which folder was read no contract says.
    fn file_names_in(&self, alloc: Global, rel_path: &str) -> Result<HashSet<String>, Error> {
        let folder = join(alloc, self.path, rel_path)?;
        names_in(self.rt, alloc, folder.as_str())
    }

    /// The root of a workspace. With a hint it is the `Cargo.toml` in the folder that the hint
    /// names, and the path in the answer is that folder's. Without one it is the nearest
    /// `Cargo.toml` above the folder that is a workspace's, as far as folders are written in the
    /// path, and the path in the answer is that file's.
    ///
    /// With a hint the refusals are
    ///
    /// - `Error::Workspace` with the file's path, where the file can't be read;
    /// - that of `Manifest::from_slice`, where its bytes are no manifest;
    /// - `Error::WorkspaceIntegrity`, where the manifest has no workspace table.
    ///
    /// Without one, a `Cargo.toml` that is there and can't be read is refused at once as
    /// `Error::Io`. Where no file above is a workspace's, the fault is that of the last file, or
    /// `Error::Io` of the kind `NotFound` where there is none. Out of memory is `Error::Memory`.
    fn parse_root_workspace(
        &self,
        alloc: Global,
        hint: Option<&str>,
    ) -> Result<(Manifest, String), Error> {
        match hint {
            Some(hint) => root_by_hint(self.rt, alloc, self.path, hint),
            None => root_above(self.rt, alloc, self.path),
        }
    }
}
