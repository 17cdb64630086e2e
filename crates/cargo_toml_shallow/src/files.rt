//! Real files around a manifest, of which no root is read that nests too deep.
ghost use Rattle.cargo_toml_manifest.specs.RealFiles.{RealListingRefuses};
ghost use Rattle.cargo_toml_shallow.specs.Deep.{ShallowRootRefuses};

use crate::lookup::{root_above, root_by_hint};
use cargo_toml_discovery::disk::or_here;
use cargo_toml_manifest::{AbstractFilesystem, Filesystem, Manifest, ParsedRoot};
use cargo_toml_parts::Error;
use std::alloc::Global;
use std::collections::HashSet;
use std::rt::Files;

/// The files on the disk, as seen from the folder of a manifest: those of `Filesystem`, except that
/// the root of a workspace is refused, before it is read, where its text nests deeper than 128.
#[derive(Drop)]
pub struct ShallowFiles<'a, R> {
    path: &'a str,
    rt: &'a R,
}

impl<'a, R: Files + AllocGlobal> ShallowFiles<'a, R> {
    /// The files around a manifest in this folder. The empty path is the folder that the program
    /// runs in, as `.` is. Nothing is read yet.
    pub fn new(rt: &'a R, path: &'a str) -> ShallowFiles<'a, R> {
        ShallowFiles {
            path: or_here(path),
            rt,
        }
    }
}

/// What stands on the disk. Nothing is stated of it except of which kinds its faults are.
impl<R: Files + AllocGlobal> AbstractFilesystem for ShallowFiles<'_, R> {
    type Roots = ParsedRoot;

    ghost may_refuse = { λ _ path. RealListingRefuses path };

    ghost may_refuse_root = { λ _ hint. ShallowRootRefuses hint };

    fn file_names_in(&self, alloc: Global, rel_path: &str) -> Result<HashSet<String>, Error> {
        Filesystem::new(self.rt, self.path).file_names_in(alloc, rel_path)
    }

    fn parse_root_workspace(
        &self,
        alloc: Global,
        hint: Option<&str>,
    ) -> Result<(Manifest, String), Error> {
        match hint {
            Some(hint) => root_by_hint(self.rt, alloc, self.path, hint),
            None => root_above(self.rt, alloc, self.path),
        }
    }
}
