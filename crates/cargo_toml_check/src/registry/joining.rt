//! What is added to the file of a crate.
ghost use Rattle.std.specs.Prelude.{◌++◌, ◌≡◌, ◌⊎◌, IfErr, IfOk, None, OnOk, Some, bytes_eq};
ghost use Rattle.std.specs.Prelude.{false, if◌then◌else◌, map, option_map, string_bytes, true};
ghost use Rattle.std.specs.{BTreeMap.get_by_text, List.flat_map, Option.option_copied};
ghost use Rattle.std.specs.Str.Lines.{lines};
ghost use Rattle.cargo_toml.specs.Action.{Text};
ghost use Rattle.cargo_toml_check.specs.IndexFiles.{added, are_of, ended, latest, placed};
ghost use Rattle.cargo_toml_check.specs.IndexFiles.{released, version_in, versions};
ghost use Rattle.cargo_toml_check.specs.declared.registry.joining.FileFault.TheVariants.{Memory};

use super::entries::{Line, lines_of, released, said_by};
use cargo_toml_lint::AllocResult;
use std::alloc::{AllocError, Global};
use std::collections::BTreeMap;
use std::fmt;

/// What becomes of a line for the file of a crate.
#[derive(Debug, Clone, Copy, PartialEq, Eq)]
pub enum Place {
    /// The file lacks its version, so it is added.
    New,
    /// The file has it already, perhaps yanked.
    There,
    /// The file has another line of its version, so it is refused.
    Other,
}

/// The file of a crate with lines added, and what became of each of these.
#[derive(Debug, Drop)]
pub struct Joined {
    /// What the file holds then.
    pub text: String,
    /// What became of each line.
    pub places: Vec<Place>,
}

/// Why nothing is added to a file.
#[derive(Debug, Drop)]
pub enum FileFault {
    /// The line of this number, from 1 on, is no entry of a version of a crate.
    NoEntry(usize),
    /// The line of this number, from 1 on, is of a crate of another name.
    OtherName(usize),
    /// Out of memory.
    Memory,
}

impl From<AllocError> for FileFault {
    ghost from_gives = { λ _ e. e ≡ Memory };

    fn from(_fault: AllocError) -> FileFault {
        FileFault::Memory
    }
}

impl fmt::Display for FileFault {
    fn fmt<W: fmt::Write>(&self, f: &mut fmt::Formatter<W>) -> fmt::Result {
        match self {
            FileFault::NoEntry(line) => {
                write!(
                    f,
                    "line {line} isn't JSON that has a crate's name and version"
                )
            }
            FileFault::OtherName(line) => write!(f, "line {line} has another name of the crate"),
            FileFault::Memory => f.write_str("out of memory"),
        }
    }
}

impl std::error::Error for FileFault {}

/// The file of the crate `name`, which holds `old`, with these lines added: the old ones, and then
/// the new ones, in their order. A version has one line, whatever its build metadata; where the old
/// file has more of them, the last counts, as for Cargo. No two of `new` are to be of one version.
///
/// Refused out of memory, and where a line of the old file is no entry of the crate of this name.
pub fn add_lines(alloc: Global, name: &str, old: &str, new: &[Line]) -> Result<Joined, FileFault>
    ensures text { IfOk result (λ j. string_bytes j.text ≡ ended old.now
        ++ flat_map (added (latest (versions name.now (lines old.now)))) new.now) }
    ensures places { IfOk result (λ j. j.places.items
        ≡ map (placed (latest (versions name.now (lines old.now)))) new.now) }
    ensures whole { OnOk result (are_of name.now (lines old.now) ≡ true) }
    ensures refused { IfErr result (λ e. (e ≡ Memory)
        ⊎ (are_of name.now (lines old.now) ≡ false)) }
{
    let lines = lines_of(alloc, old)?;
    let versions = versions(alloc, name, lines.as_slice())?;
    let places = places(alloc, &versions, new)?;
    let text = text_with(alloc, &versions, old, new)?;
    Ok(Joined { text, places })
}

/// What these lines of the file of a crate say of each version, without build metadata: what the
/// last one of it does.
fn versions(
    alloc: Global,
    name: &str,
    lines: &[&str],
) -> Result<BTreeMap<String, String>, FileFault>
    ensures last { IfOk result (λ found. (v : Text)
        → option_map string_bytes (get_by_text found v)
        ≡ latest (versions name.now (map (λ l. l.now) lines.now)) v) }
    ensures whole { OnOk result (are_of name.now (map (λ l. l.now) lines.now) ≡ true) }
    ensures refused { IfErr result (λ e. (e ≡ Memory)
        ⊎ (are_of name.now (map (λ l. l.now) lines.now) ≡ false)) }
{
    let mut found = BTreeMap::new(alloc);
    for (index, line) in lines.iter().enumerate() {
        match version_in(alloc, name, *line, index + 1) {
            Ok((version, all)) => put_last(&mut found, version, all)?,
            Err(fault) => return Err(fault),
        }
    }
    Ok(found)
}

/// The version that a line has, without build metadata, and what it says of it.
fn version_in(
    alloc: Global,
    name: &str,
    line: &str,
    number: usize,
) -> Result<(String, String), FileFault>
    ensures found { IfOk result (λ v. Some (string_bytes v.0, string_bytes v.1)
        ≡ version_in name.now line.now) }
    ensures refused { IfErr result (λ e. (e ≡ Memory)
        ⊎ (version_in name.now line.now ≡ None)) }
{
    let Some(said) = said_by(alloc, line)? else {
        return Err(FileFault::NoEntry(number));
    };
    if said.name.as_str() != name {
        return Err(FileFault::OtherName(number));
    }
    let version = String::from_str(alloc, released(said.version.as_str()))?;
    Ok((version, said.all))
}

/// Puts what is said of a version in the place of what was.
fn put_last(found: &mut BTreeMap<String, String>, version: String, all: String) -> AllocResult<()>
    ensures { OnOk result ((v : Text) → get_by_text found.new v
        ≡ (if bytes_eq (string_bytes version) v then Some all else get_by_text found.old v)) }
{
    match found.insert(version, all) {
        Ok(_) => Ok(()),
        Err(_) => Err(AllocError),
    }
}

fn places(
    alloc: Global,
    versions: &BTreeMap<String, String>,
    new: &[Line],
) -> AllocResult<Vec<Place>>
    ensures { IfOk result (λ places. places.items
        ≡ map (placed (λ v. option_map string_bytes (get_by_text versions.now v))) new.now) }
{
    new.iter()
        .map(|line| place_of(versions, line))
        .collect(alloc)
}

/// What becomes of a line, where a file has these versions.
fn place_of(versions: &BTreeMap<String, String>, line: &Line) -> Place
    ensures { result
        ≡ placed (λ v. option_map string_bytes (get_by_text versions.now v)) line.now }
{
    match standing(versions, line) {
        None => Place::New,
        Some(all) => {
            if *all == line.said.all {
                Place::There
            } else {
                Place::Other
            }
        }
    }
}

/// What is said of the version that a line is of.
fn standing<'v>(versions: &'v BTreeMap<String, String>, line: &Line) -> Option<&'v String>
    ensures { option_copied result
        ≡ get_by_text versions.now (released (string_bytes line.now.said.version)) }
{
    versions.get(released(line.said.version.as_str()))
}

/// The text of a file that has these versions, with those of the lines added that have another.
fn text_with(
    alloc: Global,
    versions: &BTreeMap<String, String>,
    old: &str,
    new: &[Line],
) -> AllocResult<String>
    ensures { IfOk result (λ text. string_bytes text ≡ ended old.now
        ++ flat_map (added (λ v. option_map string_bytes (get_by_text versions.now v))) new.now) }
{
    let mut text = ended(alloc, old)?;
    for line in new {
        push_added(&mut text, versions, line)?;
    }
    Ok(text)
}

fn push_added(
    text: &mut String,
    versions: &BTreeMap<String, String>,
    line: &Line,
) -> AllocResult<()>
    ensures { OnOk result (string_bytes text.new ≡ string_bytes text.old
        ++ added (λ v. option_map string_bytes (get_by_text versions.now v)) line.now) }
{
    match place_of(versions, line) {
        Place::New => {
            text.push_str(line.text.as_str())?;
            text.push_str("\n")
        }
        Place::There | Place::Other => Ok(()),
    }
}

/// The text with the end of its last line.
fn ended(alloc: Global, text: &str) -> AllocResult<String>
    ensures { IfOk result (λ whole. string_bytes whole ≡ ended text.now) }
{
    let bytes = text.as_bytes();
    let mut whole = String::from_str(alloc, text)?;
    if !bytes.is_empty() && bytes[bytes.len() - 1] != b'\n' {
        whole.push_str("\n")?;
    }
    Ok(whole)
}
