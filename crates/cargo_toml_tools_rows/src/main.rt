//! Holds the tools to rows that are kept as data: each is a folder with a manifest or a workspace,
//! and beside it what has to come of it.
//!
//! The words of the command line are the rows' folders, which end with KIND/NAME. A line for each
//! says that all is as expected, or what came instead. The file `like` of a row leads to the folder
//! of another, whose manifest or workspace it has too. The lines of a file `tree` make those of
//! its row. Rows of `cases`, `targets`, `words` and `layout` have neither. The kinds:
//!
//! - `check`, `show`, `features`, `index`, `lint`, `document`: what the tool prints.
//! - `json`, `graph`: the same of `show --json` and `document --dot`.
//! - `audit`, `report`: the report on a workspace as lines, and as JSON.
//! - `findings`: what `lint` finds, without places, at the limit in `max` where that is there.
//! - `cases`: what is at fault in many short texts.
//! - `targets`: which names of targets are taken.
//! - `words`: what command lines ask for.
//! - `layout`: what becomes of the file of a crate in an index.
#![tactic(auto)]

mod cases;
mod findings;
mod layouts;
mod packages;
mod targets;
mod words;

use cargo_toml::Error;
use cargo_toml_audit::auditing::audit_text;
use cargo_toml_bench::templates::text_in;
use cargo_toml_bench::tree::{fresh_folder, make_tree, remove_tree};
use cargo_toml_check::check::{check_lines, is_no_text, no_text_line, refusal_lines};
use cargo_toml_check::files::{features_of, json_of, toml_of};
use cargo_toml_check::lint;
use cargo_toml_tools::files::{Source, document_text, index_of};
use cargo_toml_tools::index::{CRATES_IO, Options};
use cargo_toml_tools::{Judging, Outcome, files};
use packages::with_packages;
use std::alloc::Global;
use std::collections::BTreeMap;
use std::random::RandomSource;
use std::rt::Files;
use std::{env, fmt, fs};

/// The text that is made, or the lines that tell why a file is refused, of which this text is read.
fn told<F: fmt::Display + Drop>(
    alloc: Global,
    file: &str,
    text: &str,
    made: Result<String, F>,
) -> Result<String, Error> {
    match made {
        Ok(text) => Ok(text),
        Err(fault) => {
            let words = format!(in alloc; "{fault}")?;
            Ok(refusal_lines(alloc, file, text, words.as_str())?)
        }
    }
}

/// What came of an audit, of check or of lint, with the status at its end.
fn reported(
    alloc: Global,
    file: &str,
    made: Result<(String, bool), Error>,
) -> Result<String, Error> {
    match made {
        Ok((report, odd)) => {
            let outcome = if odd { Outcome::Odd } else { Outcome::Done };
            Ok(format!(in alloc; "{report}status {}\n", outcome.status())?)
        }
        Err(fault) => told(alloc, file, "", Err(fault)),
    }
}

/// What came of a row of `index`, with the options that stand beside its manifest.
fn told_of_index<R: Files + RandomSource + AllocGlobal>(
    rt: &R,
    row: &str,
    source: Source<'_>,
) -> Result<String, Error> {
    let alloc = rt.alloc();
    let registry = text_in(rt, row, "registry")?;
    let checksum = text_in(rt, row, "checksum")?;
    let folder = text_in(rt, row, "folder")?;
    let force = text_in(rt, row, "force")?.is_some();
    let listed = text_in(rt, row, "names")?.unwrap_or(String::new(alloc));
    let mut names = Vec::new(alloc);
    for line in listed.lines() {
        if let Some(name) = line.split_once('=') {
            names.push(name)?;
        }
    }
    let options = Options {
        registry: registry
            .as_ref()
            .map_or(CRATES_IO, |text| text.as_str().trim_end()),
        names: names.as_slice(),
        checksum: checksum.as_ref().map(|text| text.as_str().trim_end()),
        folder: folder.as_ref().map(|text| text.as_str().trim_end()),
        force,
    };
    match index_of(rt, source, options, &BTreeMap::new(alloc)) {
        Ok(indexed) => Ok(indexed.line),
        Err(fault) => told(alloc, source.path, source.text, Err(fault)),
    }
}

/// What came of a row of `lint`, with the options that stand beside its manifest. The manifest need
/// not be text.
fn told_of_lint<R: Files + RandomSource + AllocGlobal>(
    rt: &R,
    row: &str,
    file: &str,
    text: Option<&str>,
) -> Result<(String, bool), Error> {
    let listed = text_in(rt, row, "allow")?.unwrap_or(String::new(rt.alloc()));
    let mut allowed = Vec::new(rt.alloc());
    for line in listed.lines() {
        allowed.push(line)?;
    }
    let judging = Judging {
        allowed,
        denies_hints: text_in(rt, row, "deny-hints")?.is_some(),
        json: text_in(rt, row, "json")?.is_some(),
    };
    match text {
        Some(text) => lint::lint_lines(rt, file, text, &judging),
        None => Ok((lint::no_text_line(rt.alloc(), file, &judging)?, true)),
    }
}

/// What came of a row whose manifest can't be read.
fn told_of_unread<R: Files + RandomSource + AllocGlobal>(
    rt: &R,
    kind: &str,
    row: &str,
    file: &str,
    fault: Error,
) -> Result<String, Error> {
    let alloc = rt.alloc();
    match kind {
        "check" if is_no_text(&fault) => {
            reported(alloc, file, Ok((no_text_line(alloc, file)?, true)))
        }
        "lint" if is_no_text(&fault) => reported(alloc, file, told_of_lint(rt, row, file, None)),
        _ => told(alloc, file, "", Err(fault)),
    }
}

/// What came of a row of which a file is looked at.
fn answer_of_file<R: Files + RandomSource + AllocGlobal>(
    rt: &R,
    kind: &str,
    row: &str,
    file: &str,
) -> Result<String, Error> {
    let alloc = rt.alloc();
    let read = match files::text_in(rt, file) {
        Ok(text) => text,
        Err(fault) => return told_of_unread(rt, kind, row, file, fault),
    };
    let text = read.as_str();
    let source = Source {
        path: file,
        text,
        is_alone: text_in(rt, row, "alone")?.is_some(),
    };
    match kind {
        "index" => told_of_index(rt, row, source),
        "check" => reported(alloc, file, Ok(check_lines(rt, file, source)?)),
        "lint" => reported(alloc, file, told_of_lint(rt, row, file, Some(text))),
        "show" => told(alloc, file, text, toml_of(rt, source)),
        "json" => told(alloc, file, text, json_of(rt, source)),
        "features" => told(alloc, file, text, features_of(rt, source)),
        "document" => told(alloc, file, text, document_text(rt, text, false)),
        "graph" => told(alloc, file, text, document_text(rt, text, true)),
        _ => Err(Error::Other("no such kind of row")),
    }
}

/// The same of a row whose manifest or workspace lies in `folder`.
fn answer<R: Files + RandomSource + Eprint + AllocGlobal>(
    rt: &R,
    kind: &str,
    row: &str,
    folder: &str,
) -> Result<String, Error> {
    let alloc = rt.alloc();
    let file = format!(in alloc; "{folder}/Cargo.toml")?;
    match kind {
        "findings" => {
            let limit = text_in(rt, row, "max")?;
            let limit = limit.as_ref().map(|text| text.as_str().trim_end());
            findings::lines(rt, file.as_str(), limit)
        }
        "audit" => reported(alloc, "FOLDER", audit_text(rt, folder, false, false)),
        "report" => reported(alloc, "FOLDER", audit_text(rt, folder, true, false)),
        _ => {
            let answer = answer_of_file(rt, kind, row, file.as_str())?;
            Ok(answer.replace(alloc, file.as_str(), "FILE")?)
        }
    }
}

/// What came of a row of this kind.
fn answer_of<R: Files + RandomSource + Eprint + AllocGlobal>(
    rt: &R,
    kind: &str,
    row: &str,
) -> Result<String, Error> {
    if let Some(lines) = text_in(rt, row, "tree")? {
        let lines = with_packages(rt.alloc(), lines.as_str())?;
        return answer_in_tree(rt, kind, row, lines.as_str());
    }
    let Some(other) = text_in(rt, row, "like")? else {
        return answer(rt, kind, row, row);
    };
    let folder = format!(in rt.alloc(); "{row}/{}", other.as_str().trim_end())?;
    answer(rt, kind, row, folder.as_str())
}

/// The same in a fresh folder, named `T`, with what the lines say in it.
fn answer_in_tree<R: Files + RandomSource + Eprint + AllocGlobal>(
    rt: &R,
    kind: &str,
    row: &str,
    lines: &str,
) -> Result<String, Error> {
    let folder = fresh_folder(rt)?;
    let made = match make_tree(rt, folder.as_str(), lines) {
        Ok(()) => answer(rt, kind, row, folder.as_str()),
        Err(fault) => Err(fault),
    };
    remove_tree(rt, folder.as_str(), lines)?;
    Ok(made?.replace(rt.alloc(), folder.as_str(), "T")?)
}

/// The line of a row.
fn line<R: Files + RandomSource + Eprint + AllocGlobal>(
    rt: &R,
    row: &str,
) -> Result<String, Error> {
    let alloc = rt.alloc();
    let (folder, name) = row.rsplit_once('/').unwrap_or(("", row));
    let kind = folder.rsplit('/').next().unwrap_or("");
    let path = format!(in alloc; "{row}/expected")?;
    let expected = fs::read_to_string(rt, path.as_str())?;
    let made = match kind {
        "cases" => cases::lines(alloc, expected.as_str())?,
        "targets" => targets::lines(alloc, expected.as_str())?,
        "words" => words::lines(alloc, expected.as_str())?,
        "layout" => layouts::text(rt, row)?,
        _ => answer_of(rt, kind, row)?,
    };
    if made == expected {
        Ok(format!(in alloc; "{kind} {name}: as expected\n")?)
    } else {
        Ok(format!(in alloc; "{kind} {name}: {made}")?)
    }
}

fn main(rt: HostRuntime) -> Result<(), Error> {
    for row in env::args(&rt)?.skip(1) {
        let line = line(&rt, row.as_str())?;
        print!(rt; "{line}")?;
    }
    Ok(())
}
