//! Names of files, of which some may be no text.
use cargo_toml_tools::NO_TEXT;
use cargo_toml_tools::escape::{Escaped, Format, push_bytes};
use std::alloc::{AllocError, Global};
use std::env::FillError;
use std::rt::Env;
use std::str;

/// The name of a file, or the line that tells why there is none.
#[derive(Debug, Drop)]
pub(crate) enum Name {
    /// A name.
    File(String),
    /// The line that refuses what stands in place of one.
    Refused(String),
}

/// The name that a word of the command line is.
pub(crate) fn name_of(alloc: Global, word: &str) -> Result<Name, AllocError> {
    match word.strip_prefix(NO_TEXT) {
        Some(told) => refused(alloc, told),
        None => Ok(Name::File(String::from_str(alloc, word)?)),
    }
}

/// Adds the names that stand in a list, each of which ends by a NUL, or else by the end of a line.
/// The last one need not end. One that is empty or isn't UTF-8 is refused.
pub(crate) fn add_listed(
    names: &mut Vec<Name>,
    list: &str,
    bytes: &[u8],
    null: bool,
) -> Result<(), AllocError> {
    let alloc = *names.allocator();
    if bytes.is_empty() {
        return Ok(());
    }
    let end = if null { 0 } else { b'\n' };
    let bytes = bytes.strip_suffix(&[end]).unwrap_or(bytes);
    for (index, name) in bytes.split(|byte| *byte == end).enumerate() {
        let name = if null {
            name
        } else {
            name.strip_suffix(b"\r").unwrap_or(name)
        };
        names.push(match str::from_utf8(name) {
            Ok("") => {
                let (list, number) = (Escaped(list, Format::Line), index.saturating_add(1));
                Name::Refused(format!(in alloc; "error: {list}: name {number} is empty\n")?)
            }
            Ok(name) => Name::File(String::from_str(alloc, name)?),
            Err(_) => refused(alloc, told(alloc, name)?.as_str())?,
        })?;
    }
    Ok(())
}

/// The refusal of a name that isn't UTF-8, as a line tells it.
fn refused(alloc: Global, told: &str) -> Result<Name, AllocError> {
    Ok(Name::Refused(format!(in alloc; "error: {told}: the name isn't UTF-8\n")?))
}

fn told(alloc: Global, bytes: &[u8]) -> Result<String, AllocError> {
    let mut told = String::new(alloc);
    push_bytes(&mut told, bytes)?;
    Ok(told)
}

/// The environment, where each word is text. The program's own name is empty, since it is no word.
/// In place of a word that isn't UTF-8 stands [`NO_TEXT`], and how a line tells the word. One that
/// begins with `-` stays: it is no name of a file.
#[derive(Drop)]
pub(crate) struct Texts<'a, R>(pub(crate) &'a R);

impl<R: Env + AllocGlobal> Env for Texts<'_, R> {
    fn arg(&self, i: usize, buf: &mut [u8]) -> Result<usize, FillError> {
        if i == 0 {
            return Ok(0);
        }
        let length = self.0.arg(i, buf)?;
        let word = buf.get(..length).unwrap_or(&[]);
        if word.starts_with(b"-") || str::from_utf8(word).is_ok() {
            return Ok(length);
        }
        // out of memory is found out with the larger buffer that is asked for
        let Ok(told) = marked(self.0.alloc(), word) else {
            return Err(FillError::TooLong);
        };
        let Some(place) = buf.get_mut(..told.len()) else {
            return Err(FillError::TooLong);
        };
        place.copy_from_slice(told.as_bytes());
        Ok(told.len())
    }

    fn var(&self, name: &str, buf: &mut [u8]) -> Result<usize, FillError> {
        self.0.var(name, buf)
    }

    fn var_at(&self, i: usize, buf: &mut [u8]) -> Result<usize, FillError> {
        self.0.var_at(i, buf)
    }
}

/// What stands in place of a word that isn't UTF-8.
fn marked(alloc: Global, word: &[u8]) -> Result<String, AllocError> {
    let mut marked = String::new(alloc);
    marked.push(NO_TEXT)?;
    push_bytes(&mut marked, word)?;
    Ok(marked)
}
