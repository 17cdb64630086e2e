//! What completion makes of a manifest: with a workspace that is handed in, with its own, or with a
//! root that is stated.
use crate::manifests::{same, shown};
use crate::recorder::Recorder;
use crate::row::{Row, Shown};
use cargo_toml::features::{Features, Resolver};
use cargo_toml::{AbstractFilesystem, Error, Manifest, ParseFault, Value};
use cargo_toml_bench::HeldManifest;
use cargo_toml_bench::in_memory::{Answer, InMemory, Root};
use cargo_toml_bench::pairs::count_features;
use std::alloc::Global;
use std::fmt::Debug;
use std::hash::BuildHasher;
use std::io;
use std::rt::Files;

fn texts(alloc: Global, words: &str) -> Result<Vec<String>, Error> {
    let mut texts = Vec::new(alloc);
    for word in words.split_whitespace() {
        texts.push(String::from_str(alloc, word)?)?;
    }
    Ok(texts)
}

/// The fault that a word stands for.
fn fault_of(alloc: Global, word: &str) -> Result<Error, Error> {
    match word {
        "!absent" => Ok(Error::Io(io::Error::from(io::ErrorKind::NotFound))),
        "!denied" => Ok(Error::Io(io::Error::from(io::ErrorKind::PermissionDenied))),
        "!no-memory" => Ok(Error::Memory),
        "!other" => Ok(Error::Other("own")),
        "!shape" => Ok(Error::Parse(ParseFault::Shape("own"))),
        "!integrity" => Ok(Error::WorkspaceIntegrity(String::from_str(alloc, "own")?)),
        "!inherited" => Ok(Error::InheritedUnknownValue),
        "!workspace" => {
            let path = Some(String::from_str(alloc, "/own")?);
            Ok(Error::Workspace(Box::new(alloc, (Error::Other("own"), path))?))
        }
        _ => Err(Error::Other("no such fault")),
    }
}

/// What is answered of a folder, by its words in the file `files`.
pub fn answer_of(alloc: Global, words: &str) -> Result<Answer, Error> {
    match words.strip_prefix("!open") {
        Some(names) => Ok(Answer::Open(texts(alloc, names)?)),
        None if words.starts_with('!') => Ok(Answer::Denied(fault_of(alloc, words)?)),
        None => Ok(Answer::Names(texts(alloc, words)?)),
    }
}

/// The folders around the manifest, a line each: `PATH: NAME NAME ..`, with `!open` before names
/// that aren't stated, or a fault in place of names. The folder of the manifest is the empty path.
/// Other folders are absent.
fn folders(alloc: Global, lines: &str) -> Result<Vec<(String, Answer)>, Error> {
    let mut folders = Vec::new(alloc);
    for line in lines.split_terminator('\n') {
        let Some((path, words)) = line.split_once(':') else {
            return Err(Error::Other("a folder is a line PATH: NAME NAME .."));
        };
        let path = String::from_str(alloc, path)?;
        folders.push((path, answer_of(alloc, words.trim())?))?;
    }
    Ok(folders)
}

/// The files around the manifest: the folders in the file `files`, and the one root, if the row has
/// one. The file `root` names its path, `hint` the hint that leads to it. `Root.toml` is its text,
/// and else the fault is in the file `refused`.
pub fn files_around<R: Files + AllocGlobal>(row: &Row<'_, R>) -> Result<InMemory, Error> {
    let mut files = InMemory::new(row.alloc());
    if let Some(lines) = row.find("files")? {
        files.folders = folders(row.alloc(), lines.as_str())?;
    }
    if let Some(path) = row.find("root")? {
        let hint = row.find("hint")?;
        let text = match row.find("Root.toml")? {
            Some(text) => Ok(text),
            None => Err(fault_of(row.alloc(), row.text("refused")?.as_str())?),
        };
        files.roots.push(Root { hint, path, text })?;
    }
    Ok(files)
}

/// Completes the manifest where no workspace is handed in.
pub fn complete_alone<Fs: AbstractFilesystem + Drop>(
    alloc: Global,
    manifest: &mut Manifest,
    files: &Fs,
) -> Result<(), Error> {
    manifest.complete_from_abstract_filesystem::<Value, &Fs>(alloc, files, None)
}

/// Completes the manifest, with the workspace of the files `Workspace.toml` and `path` where the
/// row has them.
fn complete<R: Files + AllocGlobal, Fs: AbstractFilesystem + Drop>(
    row: &Row<'_, R>,
    manifest: &mut Manifest,
    files: &Fs,
) -> Result<(), Error> {
    let alloc = row.alloc();
    let Some(path) = row.find("path")? else {
        return complete_alone(alloc, manifest, files);
    };
    let workspace = HeldManifest::from_str(alloc, row.text("Workspace.toml")?.as_str())?;
    let handed = Some((&*workspace.manifest, path.as_str()));
    manifest.complete_from_abstract_filesystem(alloc, files, handed)
}

/// Whether the manifest is as it was, as a word.
pub fn left_of(alloc: Global, held: &HeldManifest, before: &str) -> Result<&'static str, Error> {
    let is_left = shown(alloc, held)?.as_str() == before;
    Ok(if is_left { "unchanged" } else { "changed" })
}

/// What came of completing: the fields of the manifest, or why it is refused, in words and by its
/// parts, and whether the manifest is then as it was.
///
/// A root has to be looked up where nothing is handed in, there is no table of its own, and
/// something is inherited: that word stands nowhere else in the fields of a row's manifest.
pub fn outcome<R: Files + AllocGlobal>(row: &Row<'_, R>, bytes: &[u8]) -> Shown {
    let alloc = row.alloc();
    let files = files_around(row)?;
    let mut held = HeldManifest::from_slice(alloc, bytes)?;
    let before = shown(alloc, &held)?;
    let is_alone = row.find("path")?.is_none() && held.manifest.workspace.is_none();
    let needs_root = is_alone && before.contains("Inherited");
    let recorder = Recorder::new(alloc, &files, &*held.manifest, needs_root);
    let Err(fault) = complete(row, &mut *held.manifest, &recorder) else {
        return completed_again(row, &mut held, &files);
    };
    let left = left_of(alloc, &held, before.as_str())?;
    Ok(format!(in alloc; "refused, {left}: {fault}\n{fault:?}")?)
}

/// The fields of a completed manifest, which is completed once more. That has to change nothing,
/// and no root has to be looked up then.
fn completed_again<R: Files + AllocGlobal>(
    row: &Row<'_, R>,
    held: &mut HeldManifest,
    files: &InMemory,
) -> Shown {
    let alloc = row.alloc();
    let text = shown(alloc, held)?;
    let recorder = Recorder::new(alloc, files, &*held.manifest, false);
    complete(row, &mut *held.manifest, &recorder)?;
    same(alloc, text, shown(alloc, held)?.as_str(), "completed again")
}

/// What came of completing without a workspace: the fields of the manifest, or by its parts why it
/// is refused, and whether the manifest is then as it was.
pub fn completed_text(alloc: Global, bytes: &[u8], files: &InMemory) -> Shown {
    let mut held = HeldManifest::from_slice(alloc, bytes)?;
    let before = shown(alloc, &held)?;
    let Err(fault) = complete_alone(alloc, &mut *held.manifest, files) else {
        return shown(alloc, &held);
    };
    let left = left_of(alloc, &held, before.as_str())?;
    Ok(format!(in alloc; "refused, {left}: {fault:?}")?)
}

/// The manifest of a row, completed.
pub fn completed<R: Files + AllocGlobal>(
    row: &Row<'_, R>,
    bytes: &[u8],
) -> Result<HeldManifest, Error> {
    let files = files_around(row)?;
    let mut held = HeldManifest::from_slice(row.alloc(), bytes)?;
    complete(row, &mut *held.manifest, &files)?;
    Ok(held)
}

/// The text of features. These are dropped by a call, as in `lines_of`.
fn text_of<S: BuildHasher + Debug + Drop>(alloc: Global, features: Features<'_, '_, S>) -> Shown {
    let text = format!(in alloc; "{features:?}");
    drop(features);
    Ok(text?)
}

/// What is resolved of the manifest by the call that completes it with the workspace of the files
/// `Workspace.toml` and `path`. A caller of the call that answers in place has to count as many
/// features.
pub fn resolved<R: Files + AllocGlobal>(row: &Row<'_, R>, bytes: &[u8]) -> Shown {
    let alloc = row.alloc();
    let path = row.text("path")?;
    let workspace = HeldManifest::from_str(alloc, row.text("Workspace.toml")?.as_str())?;
    let handed = Some((&*workspace.manifest, path.as_str()));
    let mut held = HeldManifest::from_slice(alloc, bytes)?;
    let files = files_around(row)?;
    let count = count_features(alloc, &mut *held.manifest, files, handed)?;
    let mut held = HeldManifest::from_slice(alloc, bytes)?;
    let files = files_around(row)?;
    let resolver = Resolver::new();
    let (_, resolved) = resolver.complete_and_parse(alloc, &mut *held.manifest, files, handed)?;
    let is_counted = resolved.features.len() == count;
    let text = text_of(alloc, resolved)?;
    if is_counted {
        return Ok(text);
    }
    Ok(format!(in alloc; "{count} features, and {text}")?)
}
