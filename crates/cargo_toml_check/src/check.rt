//! What is at fault in a manifest, and where.
ghost use Rattle.std.specs.Prelude.{◌≡◌, ◌↔◌, [], IfOk, IsSome, false, length};
ghost use Rattle.toml.specs.Parse.{parse_document};
ghost use Rattle.cargo_toml.specs.{Manifests.manifest_reads, Texts.any_tree, Texts.document_reads};
ghost use Rattle.cargo_toml_check.specs.FromFiles.{IsChecked};
ghost use Rattle.cargo_toml_depth.specs.Nesting.{is_too_deep};

use crate::alone::Step;
use crate::places::{Paths, Place, path_text, place_in, places};
use crate::search::{Fault, faults};
use cargo_toml::Error;
use cargo_toml_depth::is_too_deep;
use cargo_toml_lint::AllocResult;
use cargo_toml_manifest::HeldManifest;
use cargo_toml_tools::escape::{Escaped, Format, fault_line};
use cargo_toml_tools::files::{Source, completed_from, needed};
use cargo_toml_tools::left::Left;
use std::alloc::{AllocError, Global};
use std::fmt::Write;
use std::io::ErrorKind;
use std::rt::Files;
use toml::Value;

/// Something at fault in a text.
#[derive(Debug, Drop)]
pub struct Told {
    /// Where the key is first mentioned, or where the text stops being TOML. It is 1:1 where
    /// neither is known.
    pub place: Place,
    /// The path of the key as TOML has it, cut after 200 bytes, and not escaped for a line. It is
    /// empty where the whole text is at fault.
    pub key: String,
    /// What is wrong with it.
    pub words: String,
}

/// What is at fault in a text, in the order of the places: that it nests deeper than 128, or else
/// why it isn't TOML, or else the innermost parts that don't read. There is nothing just where the
/// text doesn't nest too deep and reads as a manifest. The one refusal is out of memory.
pub fn faults_in(alloc: Global, text: &str) -> AllocResult<Vec<Told>>
    ensures silent { IfOk result (λ v. v.items ≡ []
        ↔ ((is_too_deep text.now ≡ false)
        × IsSome (document_reads (manifest_reads any_tree) (parse_document text.now)))) }
{
    if is_too_deep(alloc, text)? {
        let told = Told {
            place: (1, 1),
            key: String::new(alloc),
            words: String::from_str(alloc, "the text is nested deeper than 128")?,
        };
        return Ok(vec![in alloc; told]?);
    }
    let table = match toml::table_from_str(alloc, text) {
        Ok(table) => table,
        Err(fault) if fault.is_memory() => return Err(AllocError),
        Err(fault) => {
            let told = Told {
                place: place_in(text, fault.span().map_or(0, |span| span.start)),
                key: String::new(alloc),
                words: String::from_str(alloc, fault.message())?,
            };
            return Ok(vec![in alloc; told]?);
        }
    };
    let tree = Value::Table(table);
    let faults = faults(alloc, &tree)?;
    placed(alloc, text, faults.as_slice())
}

/// The lines `NAME:LINE:COLUMN: KEY: words` of what keeps the manifest in a text from being read
/// and completed, and whether something does.
pub fn check_lines<R: Files + AllocGlobal>(
    rt: &R,
    name: &str,
    source: Source<'_>,
) -> AllocResult<(String, bool)>
    ensures { IfOk result (λ told. IsChecked source.entry told.1) }
{
    match completed_from(rt, source) {
        Ok(_) => Ok((String::new(rt.alloc()), false)),
        Err(Error::Memory) => Err(AllocError),
        Err(fault) => Ok((lines_of(rt.alloc(), name, source, &fault)?, true)),
    }
}

/// The lines that tell what is at fault in a text, or else this fault: at the key that needs a
/// workspace where none is looked for, and otherwise at the beginning.
fn lines_of(alloc: Global, file: &str, source: Source<'_>, fault: &Error) -> AllocResult<String> {
    let mut all = faults_in(alloc, source.text)?;
    if all.is_empty() && source.is_alone {
        all.extend(left_in(alloc, source.text)?)?;
    }
    if all.is_empty() {
        all.push(at_beginning(alloc, format!(in alloc; "{fault}")?))?;
    }
    told_lines(alloc, file, all.as_slice())
}

/// That the text as a whole is at fault, in these words.
fn at_beginning(alloc: Global, words: String) -> Told {
    Told {
        place: (1, 1),
        key: String::new(alloc),
        words,
    }
}

/// The first key of the manifest in a text that needs a workspace, where that has none of its own.
fn left_in(alloc: Global, text: &str) -> AllocResult<Option<Told>> {
    let Ok(held) = HeldManifest::from_str(alloc, text) else {
        return Ok(None);
    };
    let Some(left) = needed(&*held.manifest) else {
        return Ok(None);
    };
    let path = path_to(alloc, left)?;
    let mut wanted = Paths::new(alloc);
    let number = wanted.of(path.as_slice())?;
    let found = places(alloc, text, &wanted)?;
    Ok(Some(Told {
        place: found.get(&number).copied().unwrap_or((1, 1)),
        key: path_text(alloc, path.as_slice())?,
        words: String::from_str(alloc, "is left to a workspace, and none is looked for")?,
    }))
}

/// The steps that lead to a key.
fn path_to<'m>(alloc: Global, left: Left<'m>) -> AllocResult<Vec<Step<'m>>> {
    let mut path = Vec::new(alloc);
    if let Some(target) = left.target {
        path.push(Step::Key("target"))?;
        path.push(Step::Key(target))?;
    }
    path.push(Step::Key(left.table))?;
    path.push(Step::Key(left.key))?;
    Ok(path)
}

/// Whether a file couldn't be read because it holds bytes that aren't UTF-8.
pub fn is_no_text(fault: &Error) -> bool {
    matches!(fault, Error::Io(fault) if fault.kind() == ErrorKind::InvalidData)
}

/// What is at fault in bytes that aren't UTF-8, in the words of `Manifest::from_slice`.
pub(crate) fn no_text(alloc: Global) -> AllocResult<Told> {
    Ok(at_beginning(alloc, String::from_str(alloc, "utf8")?))
}

/// The line of `check` of a file whose bytes aren't UTF-8.
pub fn no_text_line(alloc: Global, file: &str) -> AllocResult<String> {
    told_lines(alloc, file, &[no_text(alloc)?])
}

/// The lines that tell why the text of a file is refused: what is at fault in it, or else one line
/// with these words.
pub fn refusal_lines(alloc: Global, file: &str, text: &str, words: &str) -> AllocResult<String> {
    let all = faults_in(alloc, text)?;
    if all.is_empty() {
        return fault_line(alloc, file, words);
    }
    told_lines(alloc, file, all.as_slice())
}

fn told_lines(alloc: Global, file: &str, all: &[Told]) -> AllocResult<String> {
    let mut lines = String::new(alloc);
    for told in all {
        push_place(&mut lines, file, told.place)?;
        if !told.key.is_empty() {
            let key = Escaped(told.key.as_str(), Format::Line);
            write!(lines, "{key}: ")?;
        }
        let words = Escaped(told.words.as_str().trim_end(), Format::Line);
        writeln!(lines, "{words}")?;
    }
    Ok(lines)
}

/// Writes what a line begins with: a file, and a place in it.
pub fn push_place(line: &mut String, file: &str, place: Place) -> AllocResult<()> {
    let file = Escaped(file, Format::Line);
    write!(line, "{file}:{}:{}: ", place.0, place.1)
}

/// These faults, each with its place.
fn placed(alloc: Global, text: &str, faults: &[Fault<'_>]) -> AllocResult<Vec<Told>>
    ensures { IfOk result (λ v. length v.items ≡ length faults.now) }
{
    let mut wanted = Paths::new(alloc);
    for fault in faults {
        wanted.of(fault.path.as_slice())?;
    }
    let found = places(alloc, text, &wanted)?;
    let mut all = Vec::new(alloc);
    for fault in faults {
        let path = wanted.of(fault.path.as_slice())?;
        all.push(Told {
            place: found.get(&path).copied().unwrap_or((1, 1)),
            key: path_text(alloc, fault.path.as_slice())?,
            words: format!(in alloc; "{}", fault.fault)?,
        })?;
    }
    all.sort_by_key(|told| told.place)?;
    Ok(all)
}
