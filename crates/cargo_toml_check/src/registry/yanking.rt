//! Yanking: the mark of a version that isn't to be chosen any more.
ghost use Rattle.std.specs.Prelude.{◌&&◌, ◌≡◌, IfOk, IfSome, Some, bytes_eq, map, string_bytes};
ghost use Rattle.std.specs.Prelude.{true};
ghost use Rattle.cargo_toml_check.specs.IndexFiles.{entry, entry_of, marked, parts};

use super::entries::{Said, said_by};
use cargo_toml_lint::AllocResult;
use std::alloc::Global;

/// The name of a crate and its version, with build metadata.
pub type Version<'a> = (&'a str, &'a str);

/// The file of a crate, which holds `old`, in which a version is yanked, or is no more: just that
/// is changed in its line, and what each line says stays. `None` where the file has no line of this
/// version, or one in which the mark can't be set. Refused out of memory.
pub fn with_yanked(
    alloc: Global,
    old: &str,
    of: Version<'_>,
    yanked: bool,
) -> AllocResult<Option<String>>
    ensures { IfOk result (λ made. IfSome made (λ text. map entry (parts (string_bytes text))
        ≡ map (λ l. marked of.entry.0.now of.entry.1.now yanked (entry l)) (parts old.now))) }
{
    let lines = parts(alloc, old)?;
    let Some(text) = edited(alloc, lines.as_slice(), of, yanked)? else {
        return Ok(None);
    };
    // a line may have the key twice
    if !is_edited(alloc, lines.as_slice(), text.as_str(), of, yanked)? {
        return Ok(None);
    }
    Ok(Some(text))
}

/// Whether the text says what these lines do, but for the mark of this version.
fn is_edited(
    alloc: Global,
    lines: &[&str],
    text: &str,
    of: Version<'_>,
    yanked: bool,
) -> AllocResult<bool>
    ensures { IfOk result (λ so. so ≡ true → map entry (parts text.now)
        ≡ map (λ l. marked of.entry.0.now of.entry.1.now yanked (entry l))
        (map (λ l. l.now) lines.now)) }
{
    let made = parts(alloc, text)?;
    are_marked(alloc, lines, made.as_slice(), of, yanked)
}

/// What stands between the line feeds of a text.
fn parts<'t>(alloc: Global, text: &'t str) -> AllocResult<Vec<&'t str>>
    ensures { IfOk result (λ all. map (λ l. l.now) all.items ≡ parts text.now) }
{
    text.split('\n').collect(alloc)
}

/// Whether each of the new lines says what the old one does, but for the mark of this version.
fn are_marked(
    alloc: Global,
    old: &[&str],
    new: &[&str],
    of: Version<'_>,
    yanked: bool,
) -> AllocResult<bool>
    ensures { IfOk result (λ so. so ≡ true → map entry (map (λ l. l.now) new.now)
        ≡ map (λ l. marked of.entry.0.now of.entry.1.now yanked (entry l))
        (map (λ l. l.now) old.now)) }
{
    if old.len() != new.len() {
        return Ok(false);
    }
    for (index, line) in new.iter().enumerate() {
        if !is_marked(alloc, old[index], *line, of, yanked)? {
            return Ok(false);
        }
    }
    Ok(true)
}

fn is_marked(
    alloc: Global,
    old: &str,
    new: &str,
    of: Version<'_>,
    yanked: bool,
) -> AllocResult<bool>
    ensures { IfOk result (λ so. so ≡ true → entry new.now
        ≡ marked of.entry.0.now of.entry.1.now yanked (entry old.now)) }
{
    let was = said_by(alloc, old)?;
    let now = said_by(alloc, new)?;
    match (&was, &now) {
        (None, None) => Ok(true),
        (Some(was), Some(now)) => Ok(is_now(was, now, of, yanked)),
        _ => Ok(false),
    }
}

/// Whether a line that said `was` now says the same, but for the mark of this version.
fn is_now(was: &Said, now: &Said, of: Version<'_>, yanked: bool) -> bool
    ensures { result ≡ true → Some (entry_of now.now)
        ≡ marked of.entry.0.now of.entry.1.now yanked (Some (entry_of was.now)) }
{
    let mark = if is_of(was, of) { yanked } else { was.yanked };
    is_same(was, now) && now.yanked == mark
}

/// Whether a line says something of this version.
fn is_of(said: &Said, of: Version<'_>) -> bool
    ensures { result ≡ (bytes_eq (string_bytes said.now.name) of.entry.0.now
        && bytes_eq (string_bytes said.now.version) of.entry.1.now) }
{
    said.name.as_str() == of.0 && said.version.as_str() == of.1
}

/// Whether two lines say the same, but for the mark.
fn is_same(was: &Said, now: &Said) -> bool
    ensures { result ≡ (bytes_eq (string_bytes was.now.name) (string_bytes now.now.name)
        && (bytes_eq (string_bytes was.now.version) (string_bytes now.now.version)
        && bytes_eq (string_bytes was.now.all) (string_bytes now.now.all))) }
{
    was.name == now.name && (was.version == now.version && was.all == now.all)
}

/// The lines as a text, in which the mark is set in those of this version. `None` where there are
/// none.
fn edited(
    alloc: Global,
    lines: &[&str],
    of: Version<'_>,
    yanked: bool,
) -> AllocResult<Option<String>> {
    let word = if yanked { "true" } else { "false" };
    let mut text = String::new(alloc);
    let mut is_found = false;
    for (index, line) in lines.iter().enumerate() {
        if index > 0 {
            text.push_str("\n")?;
        }
        match said_by(alloc, *line)? {
            Some(said) if is_of(&said, of) => {
                push_edited(&mut text, *line, word)?;
                is_found = true;
            }
            _ => text.push_str(*line)?,
        }
    }
    Ok(if is_found { Some(text) } else { None })
}

/// Adds a line with this word as the value of `yanked`, which goes to the end where it isn't there.
fn push_edited(text: &mut String, line: &str, word: &str) -> AllocResult<()> {
    if let Some((before, after)) = around_mark(line) {
        return write!(text, "{before}{word}{after}");
    }
    let (before, after) = line.rsplit_once('}').unwrap_or((line, ""));
    write!(text, "{before},\"yanked\":{word}}}{after}")
}

/// What stands before and behind the value of `yanked`, which is a word.
fn around_mark(line: &str) -> Option<(&str, &str)> {
    for (at, key) in line.match_indices("\"yanked\"") {
        let rest = line.get(at..)?.strip_prefix(key)?.trim_start();
        let value = rest.strip_prefix(':').unwrap_or("").trim_start();
        for word in &["true", "false", "null"] {
            if let Some(after) = value.strip_prefix(*word) {
                let end = line.len().saturating_sub(value.len());
                return Some((line.get(..end)?, after));
            }
        }
    }
    None
}
