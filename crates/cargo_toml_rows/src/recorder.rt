//! A file system in memory that notes what it is asked, and refuses what nobody may ask.
use cargo_toml::{AbstractFilesystem, Error, Manifest, ParsedRoot};
use cargo_toml_bench::in_memory::InMemory;
use std::alloc::Global;
use std::cell::{Cell, RefCell};
use std::collections::{BTreeSet, HashSet};

/// Answers as the files do. It refuses to be asked for a path twice, for a path without a package,
/// for more than one root, and for any where none has to be looked up. It states none of its
/// answers. It finds roots by a call of its own, and has none to read.
#[derive(Drop)]
pub struct Recorder<'a> {
    files: &'a InMemory,
    has_package: bool,
    needs_root: Cell<bool>,
    paths: RefCell<BTreeSet<String>>,
}

impl<'a> Recorder<'a> {
    /// Nothing was asked yet by this manifest. It takes no memory.
    pub fn new(
        alloc: Global,
        files: &'a InMemory,
        manifest: &Manifest,
        needs_root: bool,
    ) -> Recorder<'a> {
        Recorder {
            files,
            has_package: manifest.package.is_some(),
            needs_root: Cell::new(needs_root),
            paths: RefCell::new(BTreeSet::new(alloc)),
        }
    }

    /// The paths whose names were asked for, in byte order.
    pub fn into_paths(self) -> BTreeSet<String> {
        self.paths.into_inner()
    }
}

impl AbstractFilesystem for Recorder<'_> {
    type Roots = ParsedRoot;

    fn file_names_in(&self, alloc: Global, rel_path: &str) -> Result<HashSet<String>, Error> {
        if !self.has_package {
            return Err(Error::Other("asked for names without a package"));
        }
        let is_new = match self.paths.try_borrow_mut() {
            Ok(mut paths) => paths.insert(String::from_str(alloc, rel_path)?)?,
            Err(_) => false,
        };
        if !is_new {
            return Err(Error::Other("asked for the names at a path twice"));
        }
        self.files.file_names_in(alloc, rel_path)
    }

    fn parse_root_workspace(
        &self,
        alloc: Global,
        hint: Option<&str>,
    ) -> Result<(Manifest, String), Error> {
        if !self.needs_root.replace(false) {
            return Err(Error::Other("asked for a root in vain"));
        }
        self.files.parse_root_workspace(alloc, hint)
    }
}
