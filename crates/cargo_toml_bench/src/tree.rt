//! A tree of real files that is made for a row.
use cargo_toml_parts::Error;
use cargo_toml_parts::paths::parent;
use std::fs::Permissions;
use std::io::Write;
use std::os::unix::fs::{PermissionsExt, symlink};
use std::rt::Files;
use std::{fs, io};

/// A fresh folder below `/tmp`: the first of its names that isn't taken.
pub fn fresh_folder<R: Files + AllocGlobal>(rt: &R) -> Result<String, Error> {
    for number in 0..1000 {
        let folder = format!(in rt.alloc(); "/tmp/cargo-toml-rows-{number}")?;
        match fs::create_dir(rt, folder.as_str()) {
            Ok(()) => return Ok(folder),
            Err(fault) if fault.kind() == io::ErrorKind::AlreadyExists => {}
            Err(fault) => return Err(Error::from(fault)),
        }
    }
    Err(Error::Other("every name of a fresh folder is taken"))
}

/// Makes in the folder what the lines say, with the folders above. A line is the path of
/// - a file,
/// - a folder, as `PATH/`,
/// - a folder that can't be read, as `PATH !denied`,
/// - a link, as `PATH -> WHERE IT LEADS`.
///
/// In it `\n` is a line feed. Lines that begin with two spaces are the text of the file before.
pub fn make_tree<R: Files + AllocGlobal>(rt: &R, folder: &str, lines: &str) -> Result<(), Error> {
    let mut file = None;
    for line in lines.split_terminator('\n') {
        match line.strip_prefix("  ") {
            Some(text) => push_line(&mut file, text)?,
            None => file = make(rt, folder, line)?,
        }
    }
    Ok(())
}

fn push_line<F: Write>(file: &mut Option<F>, text: &str) -> Result<(), Error> {
    let Some(file) = file else {
        return Err(Error::Other("a text without a file"));
    };
    file.write_all(text.as_bytes())?;
    file.write_all(b"\n")?;
    Ok(())
}

/// Removes the folder with all that the lines say, once each folder in it can be read again.
pub fn remove_tree<R: Files + AllocGlobal>(rt: &R, folder: &str, lines: &str) -> Result<(), Error> {
    for line in lines.split_terminator('\n') {
        if let Some(name) = line.strip_suffix(DENIED) {
            let path = format!(in rt.alloc(); "{folder}/{name}")?;
            fs::set_permissions(rt, path.as_str(), Permissions::from_mode(0o700))?;
        }
    }
    Ok(fs::remove_dir_all(rt, folder)?)
}

/// What stands behind the path of a folder that can't be read.
const DENIED: &str = " !denied";

/// Makes what a line says; the file is answered, for its text.
fn make<R: Files + AllocGlobal>(
    rt: &R,
    folder: &str,
    line: &str,
) -> Result<Option<R::File>, Error> {
    let line = format!(in rt.alloc(); "{folder}/{line}")?.replace(rt.alloc(), "\\n", "\n")?;
    make_at(rt, line.as_str())
}

fn make_at<R: Files + AllocGlobal>(rt: &R, line: &str) -> Result<Option<R::File>, Error> {
    let (path, original) = match line.split_once(" -> ") {
        Some((path, original)) => (path, Some(original)),
        None => (line, None),
    };
    if let Some(above) = parent(path) {
        fs::create_dir_all(rt, above)?;
    }
    if let Some(original) = original {
        symlink(rt, original, path)?;
    } else if let Some(path) = path.strip_suffix(DENIED) {
        fs::create_dir(rt, path)?;
        fs::set_permissions(rt, path, Permissions::from_mode(0))?;
    } else if path.ends_with('/') {
        fs::create_dir(rt, path)?;
    } else {
        return Ok(Some(fs::create(rt, path)?));
    }
    Ok(None)
}
