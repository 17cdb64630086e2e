//! Holds `cargo_toml` to rows that are kept as data: each is a folder with a manifest and a file
//! `expected`, or a file alone, whose lines say both what is asked and what is answered.
//!
//! The words of the command line name the rows, as KIND/NAME; docs/CONTRIBUTING.md says what each
//! kind holds. A line for each row says that all is as expected, or what came instead.
#![tactic(auto)]

mod bodies;
mod calls;
mod completed;
mod custom;
mod damaged;
mod failing;
mod features;
mod files;
mod manifests;
mod paths;
mod recorder;
mod row;
mod values;
mod words;

use cargo_toml::Error;
use cargo_toml_bench::templates;
use manifests::with_lines;
use row::{Row, Shown};
use std::env;
use std::fmt::Write;
use std::rt::Files;

/// The bytes of a row's manifest, and none of a kind whose rows have no manifest.
fn manifest_of<R: Files + AllocGlobal>(kind: &str, row: &Row<'_, R>) -> Result<Vec<u8>, Error> {
    match kind {
        "again" | "calls" | "files" | "values" | "paths" | "bodies" | "words" => {
            Ok(Vec::new(row.alloc()))
        }
        _ => row.manifest(),
    }
}

/// What came of a row of this kind, to be held against what is expected.
fn answer<R: Files + AllocGlobal>(kind: &str, row: &Row<'_, R>, expected: &str) -> Shown {
    let alloc = row.alloc();
    let manifest = manifest_of(kind, row)?;
    let manifest = manifest.as_slice();
    match kind {
        "read" => manifests::written(alloc, manifest),
        "fields" => with_lines(alloc, manifests::fields(alloc, manifest)?, expected),
        "refuse" => manifests::fault(alloc, manifest),
        "report" => manifests::report(alloc, manifest),
        "beginnings" => damaged::beginnings(alloc, manifest),
        "replaced" => damaged::replaced(alloc, manifest),
        "features" => features::printed(alloc, manifest, 2048),
        "limited" => features::limited(row, manifest),
        "whole" => features::whole(alloc, manifest),
        "kept" => features::kept(alloc, manifest),
        "documented" => features::documented(alloc, manifest),
        "dependencies" => features::recorded(alloc, manifest),
        "recursion" => features::enabled(row, manifest),
        "custom" => custom::lines(row, manifest),
        "complete" => with_lines(alloc, completed::outcome(row, manifest)?, expected),
        "parsed" => with_lines(alloc, completed::resolved(row, manifest)?, expected),
        "failing" => failing::lines(row, manifest),
        "again" => manifests::again(alloc, expected),
        "calls" => calls::lines(alloc, row.path),
        "files" => files::answers(row),
        "values" | "paths" | "bodies" | "words" => answered(kind, row, expected),
        _ => Err(Error::Other("no such kind of row")),
    }
}

/// The lines again, each with what comes of it: what is asked, and the answer, with ` -> ` between
/// them.
fn answered<R: Files + AllocGlobal>(kind: &str, row: &Row<'_, R>, lines: &str) -> Shown {
    let alloc = row.alloc();
    let mut text = String::new(alloc);
    for line in lines.split_terminator('\n') {
        let (asked, _) = line.split_once(" -> ").unwrap_or((line, ""));
        let answer = match kind {
            "bodies" => bodies::answer(row.rt, asked)?,
            "words" => words::answer(alloc, asked)?,
            "paths" => paths::answer(alloc, row.path, asked)?,
            _ => values::answer(alloc, row.path, asked)?,
        };
        let answer = answer.as_str().trim_end_matches('\n');
        write!(text, "{asked} -> {answer}\n")?;
    }
    Ok(text)
}

/// The line of a row.
fn line<R: Files + AllocGlobal>(rt: &R, path: &str) -> Shown {
    let alloc = rt.alloc();
    let Some((kind, name)) = path.split_once('/') else {
        return Err(Error::Other("a row is named as KIND/NAME"));
    };
    let file = match kind {
        "again" | "values" | "paths" | "bodies" | "words" | "calls" => "",
        _ => "/expected",
    };
    let file = format!(in alloc; "{path}{file}")?;
    let expected = templates::read_to_string(rt, file.as_str())?;
    match answer(kind, &Row { rt, path }, expected.as_str()) {
        Ok(got) if got == expected => Ok(format!(in alloc; "{kind} {name}: as expected\n")?),
        Ok(got) => Ok(format!(in alloc; "{kind} {name}: {got}\n")?),
        Err(fault) => Ok(format!(in alloc; "{kind} {name}: refused, {fault}\n")?),
    }
}

fn main(rt: HostRuntime) -> Result<(), Error> {
    for row in env::args(&rt)?.skip(1) {
        let line = line(&rt, row.as_str())?;
        print!(rt; "{line}")?;
    }
    Ok(())
}
