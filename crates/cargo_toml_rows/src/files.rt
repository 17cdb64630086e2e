//! What comes of calls that look at real files, in a fresh folder that is removed again.
use crate::completed::{complete_alone, left_of};
use crate::manifests::{shown, text_of, with_lines};
use crate::row::{Row, Shown};
use crate::words;
use cargo_toml::{AbstractFilesystem, Error, Filesystem, Manifest, Value};
use cargo_toml_bench::HeldManifest;
use cargo_toml_bench::tree::{fresh_folder, make_tree, remove_tree};
use cargo_toml_program::print_complete;
use std::alloc::Global;
use std::fmt::Write;
use std::fs;
use std::rt::Files;

/// What comes of each call that the file `asked` of the row has a line for, around the
/// files of its `tree`.
pub fn answers<R: Files + AllocGlobal>(row: &Row<'_, R>) -> Shown {
    let folder = fresh_folder(row.rt)?;
    let tree = row.text("tree")?;
    let answers = answers_in(row, folder.as_str(), tree.as_str());
    remove_tree(row.rt, folder.as_str(), tree.as_str())?;
    Ok(answers?.replace(row.alloc(), folder.as_str(), "T")?)
}

fn answers_in<R: Files + AllocGlobal>(row: &Row<'_, R>, folder: &str, tree: &str) -> Shown {
    make_tree(row.rt, folder, tree)?;
    let mut answers = String::new(row.alloc());
    for line in row.text("asked")?.split_terminator('\n') {
        let (call, field) = line.split_once(" | ").unwrap_or((line, ""));
        let words = words_of(row.alloc(), folder, call)?;
        let answer = match words.split_first() {
            Some((first, rest)) if first.as_str() == "cargo-toml" => words::run(row.rt, rest)?,
            _ => answer(row.rt, words.as_slice(), field)?,
        };
        write!(answers, "{}\n", answer.as_str().trim_end_matches('\n'))?;
    }
    Ok(answers)
}

/// The words of a call. A `T` in front of a word is the fresh folder, and `''` the empty path.
fn words_of(alloc: Global, folder: &str, call: &str) -> Result<Vec<String>, Error> {
    let mut words = Vec::new(alloc);
    for word in call.split(' ') {
        words.push(match word.strip_prefix('T') {
            Some(rest) => format!(in alloc; "{folder}{rest}")?,
            None if word == "''" => String::new(alloc),
            None => String::from_str(alloc, word)?,
        })?;
    }
    Ok(words)
}

/// What comes of a call: `CALL PATH`, `file_names_in FOLDER PATH`, or `CALL PATH FILE` with
/// the file of the manifest to be completed and, where one is handed in, the file of the
/// workspace after it.
fn answer<R: Files + AllocGlobal>(rt: &R, words: &[String], field: &str) -> Shown {
    match words {
        [call, path] => made(rt, call.as_str(), path.as_str(), field),
        [call, folder, path] if call.as_str() == "file_names_in" => {
            names(rt, folder.as_str(), path.as_str())
        }
        [_, _, file] | [_, _, file, _] => {
            completed(rt, words, &mut read_file(rt, file.as_str())?, field)
        }
        _ => Err(Error::Other("no such call")),
    }
}

fn read_file<R: Files + AllocGlobal>(rt: &R, file: &str) -> Result<HeldManifest, Error> {
    HeldManifest::from_slice(rt.alloc(), fs::read(rt, file)?.as_slice())
}

fn with_metadata<R: Files + AllocGlobal>(rt: &R, path: &str) -> Result<HeldManifest, Error> {
    let alloc = rt.alloc();
    HeldManifest::new(alloc, Manifest::from_path_with_metadata(rt, alloc, path)?)
}

/// What comes of reading the manifest at a path.
fn made<R: Files + AllocGlobal>(rt: &R, call: &str, path: &str, field: &str) -> Shown {
    let alloc = rt.alloc();
    let made = match call {
        "from_path" => HeldManifest::from_path(rt, alloc, path),
        "from_path_with_metadata" => with_metadata(rt, path),
        _ => return Err(Error::Other("no such call of a path")),
    };
    match made {
        Ok(held) => printed(alloc, &held, field),
        Err(fault) => Ok(format!(in alloc; "refused: {}", parts_of(alloc, &fault)?)?),
    }
}

/// What comes of completing a manifest, and where that is refused, whether it is as it was.
fn completed<R: Files + AllocGlobal>(
    rt: &R,
    words: &[String],
    held: &mut HeldManifest,
    field: &str,
) -> Shown {
    let alloc = rt.alloc();
    let before = shown(alloc, held)?;
    let manifest = &mut *held.manifest;
    let outcome = match words {
        [call, path, _] => alone(rt, call.as_str(), path.as_str(), manifest),
        [_, path, _, root] => handed(rt, path.as_str(), root.as_str(), manifest),
        _ => Err(Error::Other("no such call")),
    };
    let Err(fault) = outcome else {
        return printed(alloc, held, field);
    };
    let left = left_of(alloc, held, before.as_str())?;
    Ok(format!(in alloc; "refused, {left}: {}", parts_of(alloc, &fault)?)?)
}

/// Completes a manifest by its own workspace. With `by_reference` the path is that of a folder,
/// whose files are lent.
fn alone<'a, R: Files + AllocGlobal>(
    rt: &'a R,
    call: &str,
    path: &'a str,
    manifest: &mut Manifest,
) -> Result<(), Error> {
    let alloc = rt.alloc();
    match call {
        "complete_from_path" => manifest.complete_from_path(rt, alloc, path),
        "by_reference" => complete_alone(alloc, manifest, &Filesystem::new(rt, path)),
        _ => manifest.complete_from_path_and_workspace::<Value, R>(rt, alloc, path, None),
    }
}

/// Completes a manifest by the workspace in the file `root`.
fn handed<R: Files + AllocGlobal>(
    rt: &R,
    path: &str,
    root: &str,
    manifest: &mut Manifest,
) -> Result<(), Error> {
    let workspace = read_file(rt, root)?;
    let handed = Some((&*workspace.manifest, root));
    manifest.complete_from_path_and_workspace(rt, rt.alloc(), path, handed)
}

/// What the program `cargo-toml` prints of a completed manifest, and then the field that is asked
/// for, if the manifest holds it.
fn printed(alloc: Global, held: &HeldManifest, field: &str) -> Shown {
    let mut output = Vec::new(alloc);
    print_complete(alloc, &*held.manifest, &mut output)?;
    let mut text = text_of(alloc, output.as_slice())?;
    text.push_str(with_lines(alloc, shown(alloc, held)?, field)?.as_str())?;
    Ok(text)
}

/// The names in a folder, in order.
fn names<'a, R: Files + AllocGlobal>(rt: &'a R, folder: &'a str, path: &str) -> Shown {
    let alloc = rt.alloc();
    let names = match Filesystem::new(rt, folder).file_names_in(alloc, path) {
        Ok(names) => names,
        Err(fault) => return Ok(format!(in alloc; "refused: {}", cause(alloc, &fault)?)?),
    };
    let mut sorted: Vec<&str> = names.iter().map(|name| name.as_str()).collect(alloc)?;
    sorted.sort()?;
    Ok(format!(in alloc; "{sorted:?}")?)
}

/// A fault by its parts: of a workspace what is wrong with it and its path.
fn parts_of(alloc: Global, fault: &Error) -> Shown {
    let Error::Workspace(parts) = fault else {
        return cause(alloc, fault);
    };
    Ok(format!(in alloc; "Workspace({}, {:?})", cause(alloc, &parts.0)?, parts.1)?)
}

/// What is wrong: of input its kind, and else the words of the fault.
fn cause(alloc: Global, fault: &Error) -> Shown {
    match fault {
        Error::Io(fault) => Ok(format!(in alloc; "Io {:?}", fault.kind())?),
        _ => Ok(format!(in alloc; "{fault}")?),
    }
}
