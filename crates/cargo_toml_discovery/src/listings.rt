//! The names in folders, as they were answered.
ghost use Rattle.std.specs.Prelude.{◌≡◌, [], IfOk, OnOk, Some, map, string_bytes, if◌then◌else◌};
ghost use Rattle.std.specs.{BTreeSet.contains_text, BTreeSet.IsOrdered, Str.bytes_eq};
ghost use Rattle.std.specs.HashSet.{contains_text as has_in};
ghost use Rattle.std.specs.{Option.option_map, Option.option_copied, String.string_cmp};
ghost use Rattle.cargo_toml_discovery.specs.Answers.{answers_of, answer_at, texts_in};
ghost use Rattle.cargo_toml_discovery.specs.Answers.{names_kept, below, entries_in};
ghost use Rattle.cargo_toml_discovery.specs.Names.{Name, has_text};
ghost use Rattle.cargo_toml_discovery.specs.Walk.{all_named, NamesAscend};

use crate::names::{in_folder, is_source};
use std::alloc::{AllocError, Global};
use std::collections::{BTreeMap, BTreeSet, HashSet};

/// Which lists of products are to be found in folders.
#[derive(Clone, Copy, Debug, PartialEq, Eq)]
pub struct Wanted {
    /// Whether binaries are found in `src/bin`.
    pub bins: bool,
    /// Whether examples are found in `examples`.
    pub examples: bool,
    /// Whether tests are found in `tests`.
    pub tests: bool,
    /// Whether benchmarks are found in `benches`.
    pub benches: bool,
}

/// A name in a folder of products.
#[derive(Clone, Copy, Debug)]
pub struct Entry<'a> {
    /// The name.
    pub name: &'a str,
    /// Whether it is no source and the folder of that name holds `main.rs`.
    pub has_main: bool,
}

/// The names in the folders that were asked for, by the paths of these.
#[derive(Debug, Drop)]
pub struct Listings {
    /// The names in each folder.
    pub names: BTreeMap<String, BTreeSet<String>>,
}

/// The names in byte order. It fails only when out of memory.
pub fn sorted_names(alloc: Global, names: HashSet<String>) -> Result<BTreeSet<String>, AllocError>
    ensures names { IfOk result (λ s. (t : Name) → contains_text s t ≡ has_in names t) }
    ensures ordered { IfOk result (λ s. IsOrdered string_cmp s) }
{
    // All at once: the names are moved, sorted and then built into the set, and none is
    // searched for its place.
    BTreeSet::from_iter(alloc, names)
}

impl Listings {
    /// No folder yet. It takes no memory.
    pub fn new(alloc: Global) -> Listings
        ensures { answers_of result ≡ [] }
    {
        Listings {
            names: BTreeMap::new(alloc),
        }
    }

    /// The names in a folder, `None` where it was not asked for.
    pub fn names_at(&self, path: &str) -> Option<&BTreeSet<String>>
        ensures { option_map texts_in (option_copied result)
            ≡ answer_at (answers_of self.now) path.now }
    {
        self.names.get(path)
    }

    /// Whether the name is in a folder, false where that was not asked for.
    pub fn has(&self, path: &str, name: &str) -> bool
        ensures { result ≡ has_text (names_kept self.now path.now) name.now }
    {
        match self.names_at(path) {
            Some(names) => names.contains(name),
            None => false,
        }
    }

    /// Keeps the names in a folder, in place of those that were kept of it. It fails only when out
    /// of memory; nothing is said of the listings then.
    pub fn keep(
        &mut self,
        alloc: Global,
        path: &str,
        names: BTreeSet<String>,
    ) -> Result<(), AllocError>
        ensures ok { OnOk result ((p : Name) → answer_at (answers_of self.new) p
            ≡ (if bytes_eq path.now p then Some (texts_in names)
            else answer_at (answers_of self.old) p)) }
    {
        self.names.insert(String::from_str(alloc, path)?, names)?;
        Ok(())
    }

    /// The paths of the folders in a folder that may hold `main.rs`: those of the names that are no
    /// sources; none where the folder was not asked for. It fails only when out of memory.
    pub fn folders_in(&self, alloc: Global, folder: &str) -> Result<Vec<String>, AllocError>
        ensures { IfOk result
            (λ v. map string_bytes v.items ≡ below folder.now (names_kept self.now folder.now)) }
    {
        let mut paths = Vec::new(alloc);
        if let Some(names) = self.names_at(folder) {
            for name in names {
                if !is_source(name.as_str()) {
                    paths.push(in_folder(alloc, folder, name.as_str())?)?;
                }
            }
        }
        Ok(paths)
    }

    /// What a folder of products holds, by name in byte order; nothing where it was not asked for.
    /// It fails only when out of memory.
    pub fn entries<'a>(&'a self, alloc: Global, folder: &str) -> Result<Vec<Entry<'a>>, AllocError>
        ensures names { IfOk result
            (λ v. all_named v.items ≡ entries_in (answers_of self.now) folder.now) }
        ensures ascend { IfOk result (λ v. NamesAscend (all_named v.items)) }
    {
        let Some(names) = self.names_at(folder) else {
            return Ok(Vec::new(alloc));
        };
        let count = names.len();
        let mut entries = Vec::with_capacity(alloc, count)?;
        for name in names {
            let has_main = !is_source(name.as_str())
                && self.has(in_folder(alloc, folder, name.as_str())?.as_str(), "main.rs");
            entries.push(Entry {
                name: name.as_str(),
                has_main,
            })?;
        }
        Ok(entries)
    }
}
