//! The files of a registry's index on the disk, and what they hold (`entries`, `gathering`,
//! `joining`, `yanking`), and the checksums of archives (`sums`).
pub mod entries;
mod floats;
pub mod gathering;
pub mod joining;
pub mod sums;
pub mod yanking;

use cargo_toml_lint::AllocResult;
use entries::Line;
use joining::{FileFault, Place, add_lines};
use serde_json::Value;
use std::alloc::{AllocError, Global};
use std::io::ErrorKind;
use std::rt::Files;
use std::{fmt, fs, io};
use toml_parser::bytes::is_bare;
use yanking::{Version, with_yanked};

/// Why a file of an index stays as it is.
#[derive(Debug, Drop)]
pub enum LayoutFault {
    /// It can't be read, made or written.
    Input(io::Error),
    /// What it holds.
    File(FileFault),
    /// It has no line of the version in which `yanked` can be set.
    NoVersion,
    /// It is there, and says something else.
    Config,
    /// Out of memory.
    Memory,
}

impl From<io::Error> for LayoutFault {
    fn from(fault: io::Error) -> LayoutFault {
        LayoutFault::Input(fault)
    }
}

impl From<FileFault> for LayoutFault {
    fn from(fault: FileFault) -> LayoutFault {
        LayoutFault::File(fault)
    }
}

impl From<AllocError> for LayoutFault {
    fn from(_fault: AllocError) -> LayoutFault {
        LayoutFault::Memory
    }
}

impl fmt::Display for LayoutFault {
    fn fmt<W: fmt::Write>(&self, f: &mut fmt::Formatter<W>) -> fmt::Result {
        match self {
            LayoutFault::Input(fault) => fault.fmt(f),
            LayoutFault::File(fault) => fault.fmt(f),
            LayoutFault::NoVersion => f.write_str("the index has no such version"),
            LayoutFault::Config => f.write_str("it is there, and says something else"),
            LayoutFault::Memory => f.write_str("out of memory"),
        }
    }
}

impl std::error::Error for LayoutFault {}

/// Whether a folder is there. Refused where something else is, or nothing.
pub fn require_folder<R: Files>(rt: &R, path: &str) -> io::Result<()> {
    if fs::metadata(rt, path)?.is_dir() {
        return Ok(());
    }
    Err(io::Error::from(ErrorKind::NotADirectory))
}

/// The file that the index in a folder has of a crate. `None` where the name is empty, or has more
/// than ASCII letters, digits, `-` and `_`.
pub fn file_in(alloc: Global, index: &str, name: &str) -> AllocResult<Option<String>> {
    if name.is_empty() || !name.bytes().all(is_bare) {
        return Ok(None);
    }
    let (above, name) = place_of(alloc, index, name)?;
    Ok(Some(format!(in alloc; "{above}/{name}")?))
}

/// Adds lines to the file that an index has of the crate `name`, and tells what became of each. The
/// file is written anew beside the old one, and then takes its place; where nothing is added, it
/// stays. Two calls at once must not write one file.
///
/// Each fault of reading, making or writing, and of what the file holds, is handed on; the old file
/// then stays.
pub fn add_to_index<R: Files + AllocGlobal>(
    rt: &R,
    file: &str,
    name: &str,
    new: &[Line],
) -> Result<Vec<Place>, LayoutFault> {
    let old = match fs::read_to_string(rt, file) {
        Ok(text) => text,
        Err(fault) if fault.kind() == ErrorKind::NotFound => String::new(rt.alloc()),
        Err(fault) => return Err(LayoutFault::Input(fault)),
    };
    let joined = add_lines(rt.alloc(), name, old.as_str(), new)?;
    if joined.places.contains(&Place::New) {
        replace(rt, file, joined.text.as_str())?;
    }
    Ok(joined.places)
}

/// Yanks a version in the file that an index has of its crate, or takes that back. Refused as
/// above, and where the file has no line of the version.
pub fn set_yanked<R: Files + AllocGlobal>(
    rt: &R,
    file: &str,
    of: Version<'_>,
    yanked: bool,
) -> Result<(), LayoutFault> {
    let old = fs::read_to_string(rt, file)?;
    let Some(text) = with_yanked(rt.alloc(), old.as_str(), of, yanked)? else {
        return Err(LayoutFault::NoVersion);
    };
    if text != old {
        replace(rt, file, text.as_str())?;
    }
    Ok(())
}

/// Writes the file `config.json` of an index, which says where archives are loaded from, once.
/// Refused as above, and where the file is there and says something else.
pub fn write_config<R: Files + AllocGlobal>(
    rt: &R,
    file: &str,
    address: &str,
) -> Result<(), LayoutFault> {
    let alloc = rt.alloc();
    let address = Value::try_from_str(alloc, address)?.to_string(alloc)?;
    let text = format!(in alloc; "{{\"dl\":{address}}}\n")?;
    match fs::read_to_string(rt, file) {
        Ok(old) if old == text => Ok(()),
        Ok(_) => Err(LayoutFault::Config),
        Err(fault) if fault.kind() == ErrorKind::NotFound => {
            Ok(replace(rt, file, text.as_str())?)
        }
        Err(fault) => Err(LayoutFault::Input(fault)),
    }
}

/// Puts a text in the place of a file, by a fresh one beside it. That is removed where this fails.
fn replace<R: Files + AllocGlobal>(rt: &R, file: &str, text: &str) -> io::Result<()> {
    let (above, name) = file.rsplit_once('/').unwrap_or((".", file));
    let fresh = format!(in rt.alloc(); "{above}/.{name}.new")?;
    let done = replace_by(rt, above, fresh.as_str(), file, text);
    if done.is_err() {
        let _ = fs::remove_file(rt, fresh.as_str());
    }
    done
}

fn replace_by<R: Files + AllocGlobal>(
    rt: &R,
    folder: &str,
    fresh: &str,
    file: &str,
    text: &str,
) -> io::Result<()> {
    // of most crates the folder is there
    if let Err(fault) = fs::write(rt, fresh, text) {
        if fault.kind() != ErrorKind::NotFound {
            return Err(fault);
        }
        fs::create_dir_all(rt, folder)?;
        fs::write(rt, fresh, text)?;
    }
    fs::rename(rt, fresh, file)
}

/// The folder in which an index has the file of a crate, and the name of the file.
fn place_of(alloc: Global, folder: &str, name: &str) -> AllocResult<(String, String)> {
    let name = name.to_ascii_lowercase(alloc)?;
    let text = name.as_str();
    let above = match text.len() {
        1 | 2 => format!(in alloc; "{folder}/{}", text.len())?,
        3 => format!(in alloc; "{folder}/3/{}", text.get(..1).unwrap_or("_"))?,
        _ => {
            let first = text.get(..2).unwrap_or("__");
            format!(in alloc; "{folder}/{first}/{}", text.get(2..4).unwrap_or("__"))?
        }
    };
    Ok((above, name))
}
