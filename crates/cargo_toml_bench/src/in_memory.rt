//! A file system that is held in memory, for tests of completion.
ghost use Rattle.std.specs.Prelude.{◌≡◌, [], IfOk, map, string_bytes};
ghost use Rattle.std.specs.Option.{option_copied};
ghost use Rattle.cargo_toml.specs.{Folders.AnswersNames, Folders.HasTexts, Told.ReadsRoot};
ghost use Rattle.cargo_toml_bench.specs.InMemory.{told_at, told_root_at, told_of_answer};
ghost use Rattle.cargo_toml_bench.specs.InMemory.{told_of_root, told_bytes};

use cargo_toml::{AbstractFilesystem, Error, OwnRoot};
use std::alloc::{AllocError, Global};
use std::collections::HashSet;
use std::io;

/// What is answered of a folder.
#[derive(Drop)]
pub enum Answer {
    /// These names, which are stated.
    Names(Vec<String>),
    /// This fault, which is stated.
    Denied(Error),
    /// These names, which are answered but not stated.
    Open(Vec<String>),
}

/// The workspace that a hint leads to.
#[derive(Drop)]
pub struct Root {
    /// The hint.
    pub hint: Option<String>,
    /// The path that is answered.
    pub path: String,
    /// The text of its manifest, which is stated, or the fault that is answered in place of one,
    /// which is not.
    pub text: Result<String, Error>,
}

/// Folders with their answers, and roots. A path that isn't listed is absent, and a hint that isn't
/// leads nowhere. Of two of one path, or of one hint, the first counts.
#[derive(Drop)]
pub struct InMemory {
    /// The folders, by path.
    pub folders: Vec<(String, Answer)>,
    /// The roots.
    pub roots: Vec<Root>,
}

impl InMemory {
    /// No folder, and no root. It takes no memory.
    pub fn new(alloc: Global) -> InMemory
        ensures folders { result.folders.items ≡ [] }
        ensures roots { result.roots.items ≡ [] }
    {
        InMemory {
            folders: Vec::new(alloc),
            roots: Vec::new(alloc),
        }
    }
}

fn set_of(alloc: Global, names: &[String]) -> Result<HashSet<String>, AllocError>
    ensures { IfOk result (λ set. HasTexts set (map string_bytes names.now)) }
{
    let mut set = HashSet::new(alloc);
    for name in names {
        set.insert(name.clone()?)?;
    }
    Ok(set)
}

fn answer_at<'a>(folders: &'a [(String, Answer)], path: &str) -> Option<&'a Answer>
    ensures { told_of_answer (option_copied result) ≡ told_at folders.now path.now }
{
    for folder in folders {
        if folder.0.as_str() == path {
            return Some(&folder.1);
        }
    }
    None
}

fn names_of(alloc: Global, answer: Option<&Answer>) -> Result<HashSet<String>, Error>
    ensures { AnswersNames (told_of_answer (option_copied answer.entry)) result }
{
    let Some(answer) = answer else {
        return Err(Error::Io(io::Error::from(io::ErrorKind::NotFound)));
    };
    match answer {
        Answer::Names(names) | Answer::Open(names) => Ok(set_of(alloc, names.as_slice())?),
        Answer::Denied(fault) => Err(fault.clone()?),
    }
}

fn root_at<'a>(roots: &'a [Root], hint: Option<&str>) -> Option<&'a Root>
    ensures { told_of_root (option_copied result)
        ≡ told_root_at roots.now (option_copied hint.entry) }
{
    for root in roots {
        if root.hint.as_deref() == hint {
            return Some(root);
        }
    }
    None
}

fn read_text(alloc: Global, text: &str, path: &str) -> Result<(Vec<u8>, String), Error>
    ensures { ReadsRoot (told_bytes text.now path.now) result }
{
    let path = String::from_str(alloc, path)?;
    let text = String::from_str(alloc, text)?;
    Ok((text.into_bytes(), path))
}

fn read_root(alloc: Global, root: Option<&Root>) -> Result<(Vec<u8>, String), Error>
    ensures { ReadsRoot (told_of_root (option_copied root.entry)) result }
{
    let Some(root) = root else {
        return Err(Error::Io(io::Error::from(io::ErrorKind::NotFound)));
    };
    match &root.text {
        Ok(text) => read_text(alloc, text.as_str(), root.path.as_str()),
        Err(fault) => Err(fault.clone()?),
    }
}

impl AbstractFilesystem for InMemory {
    type Roots = OwnRoot;

    ghost names_at = { λ files path. told_at files.folders.items path };

    ghost root_for = { λ files hint. told_root_at files.roots.items hint };

    fn file_names_in(&self, alloc: Global, rel_path: &str) -> Result<HashSet<String>, Error> {
        names_of(alloc, answer_at(self.folders.as_slice(), rel_path))
    }

    fn read_root_workspace(
        &self,
        alloc: Global,
        hint: Option<&str>,
    ) -> Result<(Vec<u8>, String), Error> {
        read_root(alloc, root_at(self.roots.as_slice(), hint))
    }
}
