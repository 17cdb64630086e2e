//! The files of a package as an archive lists them.
ghost use Rattle.std.specs.Prelude.{◌≡◌, ◌++◌, ◌∷◌, [], IfOk, OnOk, Some, filter, map, option_map};
ghost use Rattle.std.specs.Prelude.{if◌then◌else◌, option_to_list, string_bytes};
ghost use Rattle.cargo_toml.specs.{Folders.AnswersNames, Folders.HasTexts, Told.ReadsRoot};
ghost use Rattle.cargo_toml.specs.ToldFolders.{names};
ghost use Rattle.cargo_toml_answers.specs.Archived.{AreFiles, after, before, holds_targets};
ghost use Rattle.cargo_toml_answers.specs.Archived.{looked_for, path_in, paths_of, plain_name};
ghost use Rattle.cargo_toml_answers.specs.Archived.{stands_in, target_in, target_name, targets_in};
ghost use Rattle.cargo_toml_answers.specs.Archived.{texts_of, told_in, told_root, told_targets};

use crate::sets::{ended_by, set_of};
use cargo_toml::{AbstractFilesystem, Error, OwnRoot};
use cargo_toml_lint::AllocResult;
use std::alloc::Global;
use std::collections::{BTreeSet, HashSet};
use std::io;

/// How many targets a folder may have. The set of names that is answered for a folder has a known
/// seed, so names could be made to collide in it.
pub const MAX_TARGETS: usize = 2048;

/// The names that discovery looks for in a folder whose files are no targets.
const LOOKED_FOR: [&str; 6] = [
    "README",
    "README.md",
    "README.txt",
    "build.rs",
    "lib.rs",
    "main.rs",
];

/// The files of a package, and the root of its workspace.
#[derive(Drop)]
pub(crate) struct Archive<'a> {
    /// Their paths.
    pub(crate) files: BTreeSet<String>,
    /// The text of the root and its path, where one is told.
    pub(crate) root: Option<(&'a str, &'a str)>,
}

impl<'a> Archive<'a> {
    /// The files of these paths, a path a line; or, where some path ends in NUL, each ended so.
    pub(crate) fn new(
        alloc: Global,
        paths: &'a str,
        root: Option<(&'a str, &'a str)>,
    ) -> AllocResult<Archive<'a>>
        ensures files { IfOk result (λ a. AreFiles (paths_of paths.now) a.files) }
        ensures root { IfOk result (λ a. a.root ≡ root.entry) }
    {
        let end = if paths.as_bytes().contains(&0) {
            '\0'
        } else {
            '\n'
        };
        let pieces = ended_by(alloc, paths, end)?;
        let files = set_of(alloc, pieces.as_slice())?;
        Ok(Archive { files, root })
    }
}

/// What follows this beginning of a text.
fn after<'p>(begin: &str, text: &'p str) -> Option<&'p str>
    ensures { option_map (λ t. t.now) result ≡ after begin.now text.now }
{
    text.strip_prefix(begin)
}

/// What stands before this end of a text.
fn before<'p>(end: &str, text: &'p str) -> Option<&'p str>
    ensures { option_map (λ t. t.now) result ≡ before end.now text.now }
{
    text.strip_suffix(end)
}

/// The name, unless it is one in a folder.
fn plain_name(name: &str) -> Option<&str>
    ensures { option_map (λ t. t.now) result ≡ plain_name name.now }
{
    if name.as_bytes().contains(&b'/') {
        None
    } else {
        Some(name)
    }
}

/// The target that a path is the file of: `NAME.rs`, or `NAME` of `NAME/main.rs`.
fn target_name(path: &str) -> Option<&str>
    ensures { option_map (λ t. t.now) result ≡ target_name path.now }
{
    match before("/main.rs", path) {
        Some(name) => plain_name(name),
        None if path.as_bytes().ends_with(b".rs".as_slice()) => plain_name(path),
        None => None,
    }
}

/// The target that a path is the file of, in a folder, which is told with a `/` at its end.
fn target_in<'p>(folder: &str, path: &'p str) -> Option<&'p str>
    ensures { option_map (λ t. t.now) result ≡ target_in folder.now path.now }
{
    target_name(after(folder, path)?)
}

/// The folder, with a `/` at its end, where its files are targets.
fn holds_targets(folder: &str) -> Option<&'static str>
    ensures { option_map (λ t. t.now) result ≡ holds_targets folder.now }
{
    match folder {
        "src/bin" => Some("src/bin/"),
        "examples" => Some("examples/"),
        "tests" => Some("tests/"),
        "benches" => Some("benches/"),
        _ => None,
    }
}

fn names_of(alloc: Global, texts: &[&str]) -> AllocResult<HashSet<String>>
    ensures { IfOk result (λ set. HasTexts set (map (λ t. t.now) texts.now)) }
{
    let mut set = HashSet::new(alloc);
    for text in texts {
        set.insert(String::from_str(alloc, *text)?)?;
    }
    Ok(set)
}

/// Adds the target that a path is the file of, if it is one.
fn push_target<'p>(targets: &mut Vec<&'p str>, folder: &str, path: &'p str) -> AllocResult<()>
    ensures { OnOk result (map (λ t. t.now) targets.new.items ≡ map (λ t. t.now) targets.old.items
        ++ option_to_list (target_in folder.now path.now)) }
{
    if let Some(name) = target_in(folder, path) {
        targets.push(name)?;
    }
    Ok(())
}

fn targets_in<'p>(
    alloc: Global,
    files: &'p BTreeSet<String>,
    folder: &str,
) -> AllocResult<Vec<&'p str>>
    ensures { IfOk result (λ v. map (λ t. t.now) v.items
        ≡ targets_in folder.now (texts_of files.now)) }
{
    let mut targets = Vec::new(alloc);
    for path in files.iter() {
        push_target(&mut targets, folder, path.as_str())?;
    }
    Ok(targets)
}

fn told_targets(alloc: Global, targets: &[&str]) -> Result<HashSet<String>, Error>
    ensures { AnswersNames (told_targets (map (λ t. t.now) targets.now)) result }
{
    if targets.len() > MAX_TARGETS {
        return Err(Error::Other("a folder with too many targets"));
    }
    Ok(names_of(alloc, targets)?)
}

/// The path of a name in a folder.
fn path_in(alloc: Global, folder: &str, name: &str) -> AllocResult<String>
    ensures { IfOk result (λ path. string_bytes path ≡ path_in folder.now name.now) }
{
    if folder.is_empty() {
        String::from_str(alloc, name)
    } else {
        format!(in alloc; "{folder}/{name}")
    }
}

/// Those of the names that stand in a folder.
fn known_in<'n>(
    alloc: Global,
    files: &BTreeSet<String>,
    folder: &str,
    names: &[&'n str],
) -> AllocResult<Vec<&'n str>>
    ensures { IfOk result (λ v. map (λ t. t.now) v.items
        ≡ filter (stands_in files.now folder.now) (map (λ t. t.now) names.now)) }
{
    let mut known = Vec::new(alloc);
    for name in names {
        push_known(alloc, &mut known, files, (folder, *name))?;
    }
    Ok(known)
}

/// Adds a name, where it stands in a folder.
fn push_known<'n>(
    alloc: Global,
    known: &mut Vec<&'n str>,
    files: &BTreeSet<String>,
    place: (&str, &'n str),
) -> AllocResult<()>
    ensures { OnOk result (map (λ t. t.now) known.new.items ≡ map (λ t. t.now) known.old.items
        ++ (if stands_in files.now place.entry.0.now place.entry.1.now
        then place.entry.1.now ∷ [] else [])) }
{
    let (folder, name) = place;
    let path = path_in(alloc, folder, name)?;
    if files.contains(path.as_str()) {
        known.push(name)?;
    }
    Ok(())
}

fn told_known(
    alloc: Global,
    files: &BTreeSet<String>,
    folder: &str,
) -> Result<HashSet<String>, Error>
    ensures { AnswersNames (names (filter (stands_in files.now folder.now) looked_for)) result }
{
    let known = known_in(alloc, files, folder, &LOOKED_FOR)?;
    Ok(names_of(alloc, known.as_slice())?)
}

fn read_root(alloc: Global, text: &str, path: &str) -> Result<(Vec<u8>, String), Error>
    ensures { ReadsRoot (told_root (Some (text.now, path.now))) result }
{
    let path = String::from_str(alloc, path)?;
    let text = String::from_str(alloc, text)?;
    Ok((text.into_bytes(), path))
}

/// Where a folder's files are targets, its names are theirs, and it is refused where these are more
/// than [`MAX_TARGETS`]. Of another folder just the names are told that discovery looks for. The
/// root is the one that is told, whatever the hint.
impl AbstractFilesystem for Archive<'_> {
    type Roots = OwnRoot;

    ghost names_at = { λ archive folder. told_in archive.files folder };

    ghost root_for = { λ archive _.
        told_root (option_map (λ r. (r.0.now, r.1.now)) archive.root) };

    fn file_names_in(&self, alloc: Global, rel_path: &str) -> Result<HashSet<String>, Error> {
        match holds_targets(rel_path) {
            Some(folder) => {
                let targets = targets_in(alloc, &self.files, folder)?;
                told_targets(alloc, targets.as_slice())
            }
            None => told_known(alloc, &self.files, rel_path),
        }
    }

    fn read_root_workspace(
        &self,
        alloc: Global,
        _hint: Option<&str>,
    ) -> Result<(Vec<u8>, String), Error> {
        match self.root {
            Some((text, path)) => read_root(alloc, text, path),
            None => Err(Error::Io(io::Error::from(io::ErrorKind::NotFound))),
        }
    }
}
