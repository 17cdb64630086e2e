//! The names in folders on the disk.
ghost use Rattle.std.specs.{IoError.error_kind, Iterator.IsFinite, Prelude.◌≡◌, Prelude.IfErr};
ghost use Rattle.cargo_toml_discovery.specs.Disk.{IsEntryFault, IsListingFault, IsListingInput};
ghost use Rattle.cargo_toml_discovery.specs.Disk.{SaysAbsent, or_here};
ghost use Rattle.cargo_toml_discovery.specs.Folders.{RefusesBy};

use cargo_toml_parts::Error;
use std::alloc::{Allocator, Global};
use std::collections::HashSet;
use std::fmt::InlineText;
use std::fs::DirEntry;
use std::rt::Files;
use std::{fs, io};

/// The path of a folder. The empty path is the folder that the program runs in, as `.` is.
pub fn or_here(path: &str) -> &str
    ensures { result.now ≡ or_here path.now }
{
    if path.is_empty() { "." } else { path }
}

// A fault of listing a folder, where a name that is no folder counts as absent.
fn listing_fault(fault: io::Error) -> Error
    ensures { IsListingFault fault result }
{
    match fault.kind() {
        io::ErrorKind::NotADirectory => Error::Io(io::Error::from(io::ErrorKind::NotFound)),
        _ => Error::from(fault),
    }
}

// A fault of an entry, as the system gives it. One whose kind would say that the folder is absent
// becomes one of the kind `Other`, with up to 80 bytes of its words.
fn entry_fault(fault: io::Error) -> io::Error
    ensures { IsEntryFault fault result }
{
    match fault.kind() {
        io::ErrorKind::NotFound | io::ErrorKind::NotADirectory => {
            let words = InlineText::<80>::of(fault);
            io::Error::other(words.as_str())
        }
        _ => fault,
    }
}

/// The names in a folder on the disk. A name that is no folder counts as absent.
///
/// Refused by `Error::Io` where the folder or an entry can't be read or a name isn't UTF-8, and by
/// `Error::Memory`. The fault of an entry never counts as an absent folder. That the system was
/// asked for this folder, and that these are its names, no contract says.
pub fn names_in<R: Files + AllocGlobal>(
    rt: &R,
    alloc: Global,
    folder: &str,
) -> Result<HashSet<String>, Error>
    ensures { RefusesBy IsListingInput result }
{
    match fs::read_dir(&rt, folder) {
        Ok(entries) => match entry_names(alloc, entries) {
            Ok(names) => Ok(names),
            Err(fault) => Err(Error::from(fault)),
        },
        Err(fault) => Err(listing_fault(fault)),
    }
}

/// The names of the entries that are given, or the first fault in place of one, as of a name that
/// isn't UTF-8. The kind of that fault never says that the folder is absent, whatever the system
/// gives. Out of memory is a fault of the kind `OutOfMemory`.
// It refuses by an `io::Error`: a call at an iterator that borrows is not covered where the result
// holds a `'static` text, as `Error` does.
pub fn entry_names<R, A, I>(alloc: Global, entries: I) -> io::Result<HashSet<String>>
where
    R: Files + Drop,
    A: Allocator,
    I: Iterator<Item = io::Result<DirEntry<R, A>>> + Drop,
    requires can { I.can_next entries }
    requires ends { IsFinite (I.remaining entries) }
    ensures { IfErr result (λ fault. ¬ SaysAbsent (error_kind fault)) }
{
    let mut names = HashSet::new(alloc);
    for entry in entries {
        let entry = match entry {
            Ok(entry) => entry,
            Err(fault) => return Err(entry_fault(fault)),
        };
        names.insert(String::from_str(alloc, entry.file_name())?)?;
    }
    Ok(names)
}
