//! The files of rows. Long ones are made of templates, and like ones are kept once.
use cargo_toml_parts::Error;
use std::alloc::Global;
use std::rt::Files;
use std::{fs, io};

/// The bytes of a file of a row. Where the file isn't there, its template, `PATH.in`, makes them.
pub fn read<R: Files + AllocGlobal>(rt: &R, path: &str) -> Result<Vec<u8>, Error> {
    match fs::read(rt, path) {
        Ok(bytes) => Ok(bytes),
        Err(fault) if fault.kind() == io::ErrorKind::NotFound => Ok(made(rt, path)?.into_bytes()),
        Err(fault) => Err(Error::from(fault)),
    }
}

/// The text of a file of a row, or what its template makes.
pub fn read_to_string<R: Files + AllocGlobal>(rt: &R, path: &str) -> Result<String, Error> {
    match fs::read_to_string(rt, path) {
        Ok(text) => Ok(text),
        Err(fault) if fault.kind() == io::ErrorKind::NotFound => made(rt, path),
        Err(fault) => Err(Error::from(fault)),
    }
}

/// The same of a file in the folder of a row, if it or its template is there.
pub fn text_in<R: Files + AllocGlobal>(
    rt: &R,
    folder: &str,
    name: &str,
) -> Result<Option<String>, Error> {
    let path = format!(in rt.alloc(); "{folder}/{name}")?;
    match read_to_string(rt, path.as_str()) {
        Ok(text) => Ok(Some(text)),
        Err(Error::Io(fault)) if fault.kind() == io::ErrorKind::NotFound => Ok(None),
        Err(fault) => Err(fault),
    }
}

fn made<R: Files + AllocGlobal>(rt: &R, path: &str) -> Result<String, Error> {
    let path = format!(in rt.alloc(); "{path}.in")?;
    let template = fs::read_to_string(rt, path.as_str())?;
    expanded(rt, template.as_str())
}

/// The template, where other lines stand in place of two kinds of its own:
/// - for `file PATH` those of the file at that path, which is no template,
/// - for `repeat FIRST LAST TEXT` a line TEXT for each number from FIRST to LAST. In TEXT `{}`
///   stands for the number in four digits, `{+}` for the next and `{-}` for the one before.
fn expanded<R: Files + AllocGlobal>(rt: &R, template: &str) -> Result<String, Error> {
    let alloc = rt.alloc();
    let mut text = String::new(alloc);
    for line in template.split_terminator('\n') {
        match line.split_once(' ') {
            Some(("file", path)) => text.push_str(fs::read_to_string(rt, path)?.as_str())?,
            Some(("repeat", repeated)) => push_repeated(alloc, &mut text, repeated)?,
            _ => push_line(&mut text, line)?,
        }
    }
    Ok(text)
}

/// Puts the line at the end. One that ends in a backslash goes on with the next.
fn push_line(text: &mut String, line: &str) -> Result<(), Error> {
    match line.strip_suffix('\\') {
        Some(front) => text.push_str(front)?,
        None => {
            text.push_str(line)?;
            text.push_str("\n")?;
        }
    }
    Ok(())
}

fn push_repeated(alloc: Global, text: &mut String, repeated: &str) -> Result<(), Error> {
    let Some((first, rest)) = repeated.split_once(' ') else {
        return Err(Error::Other("a repeated line begins with two numbers"));
    };
    let Some((last, line)) = rest.split_once(' ') else {
        return Err(Error::Other("a repeated line begins with two numbers"));
    };
    for number in number_of(first)?..=number_of(last)? {
        push_line(text, numbered(alloc, line, number)?.as_str())?;
    }
    Ok(())
}

fn number_of(digits: &str) -> Result<u32, Error> {
    match digits.parse() {
        Ok(number) => Ok(number),
        Err(_) => Err(Error::Other("a line is repeated from one number to another")),
    }
}

fn numbered(alloc: Global, line: &str, number: u32) -> Result<String, Error> {
    let digits = digits_of(alloc, number)?;
    let next = digits_of(alloc, number.saturating_add(1))?;
    let before = digits_of(alloc, number.saturating_sub(1))?;
    let line = line.replace(alloc, "{}", digits.as_str())?;
    let line = line.replace(alloc, "{+}", next.as_str())?;
    Ok(line.replace(alloc, "{-}", before.as_str())?)
}

fn digits_of(alloc: Global, number: u32) -> Result<String, Error> {
    Ok(format!(in alloc; "{number:04}")?)
}
