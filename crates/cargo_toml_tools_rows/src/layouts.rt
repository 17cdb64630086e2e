//! What becomes of the file of the crate `a` in an index.
use cargo_toml::Error;
use cargo_toml_bench::templates::text_in;
use cargo_toml_check::registry::entries::{Line, lines_of, said_by};
use cargo_toml_check::registry::joining::add_lines;
use cargo_toml_check::registry::yanking::with_yanked;
use std::alloc::Global;
use std::rt::Files;

/// The file that a row has as `old`, in which the version in `yank` or `unyank` is marked so, or
/// else with the lines of `new`, and a line for each that says what became of it.
pub fn text<R: Files + AllocGlobal>(rt: &R, row: &str) -> Result<String, Error> {
    let alloc = rt.alloc();
    let old = text_in(rt, row, "old")?.unwrap_or(String::new(alloc));
    for (name, yanked) in &[("yank", true), ("unyank", false)] {
        if let Some(version) = text_in(rt, row, *name)? {
            let of = ("a", version.as_str().trim_end());
            let made = with_yanked(alloc, old.as_str(), of, *yanked)?;
            return Ok(made.unwrap_or(String::from_str(alloc, "refused\n")?));
        }
    }
    let new = text_in(rt, row, "new")?.unwrap_or(String::new(alloc));
    joined(alloc, old.as_str(), new.as_str())
}

fn joined(alloc: Global, old: &str, new: &str) -> Result<String, Error> {
    let mut lines = Vec::new(alloc);
    for text in &lines_of(alloc, new)? {
        let Some(said) = said_by(alloc, *text)? else {
            return Err(Error::Other("a new line says nothing"));
        };
        let text = String::from_str(alloc, *text)?;
        lines.push(Line { text, said })?;
    }
    match add_lines(alloc, "a", old, lines.as_slice()) {
        Ok(joined) => {
            let mut text = joined.text;
            for place in &joined.places {
                write!(text, "{place:?}\n")?;
            }
            Ok(text)
        }
        Err(fault) => Ok(format!(in alloc; "{fault}\n")?),
    }
}
