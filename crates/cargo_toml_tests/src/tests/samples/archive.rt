//! A file system of a caller's own, over the paths in an archive.

use cargo_toml::{AbstractFilesystem, Error, NoRoot};
use std::alloc::Global;
use std::collections::HashSet;
use std::io;

/// The paths in an archive below its folder `NAME-VERSION`, as `src/lib.rs`.
#[derive(Drop)]
pub struct Archive {
    /// Each path once.
    pub paths: Vec<String>,
}

// The name that a path has in this folder, itself or as the folder that leads to it.
fn name_in<'a>(folder: &str, path: &'a str) -> Option<&'a str> {
    let mut rest = path;
    if !folder.is_empty() {
        rest = path.strip_prefix(folder)?.strip_prefix("/")?;
    }
    rest.split('/').next()
}

impl AbstractFilesystem for Archive {
    type Roots = NoRoot;

    fn file_names_in(&self, alloc: Global, rel_path: &str) -> Result<HashSet<String>, Error> {
        let mut names = HashSet::new(alloc);
        for path in &self.paths {
            if let Some(name) = name_in(rel_path, path.as_str()) {
                names.insert(String::from_str(alloc, name)?)?;
            }
        }
        if names.is_empty() {
            return Err(Error::Io(io::Error::from(io::ErrorKind::NotFound)));
        }
        Ok(names)
    }
}
