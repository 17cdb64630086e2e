//! The checksums of archives.
ghost use Rattle.std.specs.Prelude.{◌≡◌, IfOk, OnOk, Some, bytes_eq, if◌then◌else◌, map};
ghost use Rattle.std.specs.Prelude.{option_map, option_to_list};
ghost use Rattle.std.specs.{Option.option_or, Str.Lines.lines};
ghost use Rattle.cargo_toml.specs.Action.{Text};
ghost use Rattle.cargo_toml_check.specs.IndexFiles.{latest, sum_in, sums_in, unmarked};
ghost use Rattle.cargo_toml_tools.specs.IndexedFiles.{sum_at};

use super::entries::lines_of;
use cargo_toml_lint::AllocResult;
use cargo_toml_tools::is_checksum;
use sha2::{Digest, Sha256};
use std::alloc::{AllocError, Global};
use std::collections::BTreeMap;
use std::fs::File;
use std::io;
use std::io::{ErrorKind, Read};
use std::path::Path;
use std::rt::Files;

/// Bytes that are read of a file at once.
const BLOCK: usize = 65536;

/// The SHA-256 of each of these files by its name, as lines of `sha256sum` have it, of which the
/// last counts. A line that doesn't begin with one as an index writes it is passed over.
pub fn checksums<'t>(alloc: Global, text: &'t str) -> AllocResult<BTreeMap<&'t str, &'t str>>
    ensures { IfOk result (λ sums. (name : Text) → sum_at sums name
        ≡ latest (sums_in (lines text.now)) name) }
{
    let lines = lines_of(alloc, text)?;
    checksums_in(alloc, lines.as_slice())
}

fn checksums_in<'t>(alloc: Global, lines: &[&'t str]) -> AllocResult<BTreeMap<&'t str, &'t str>>
    ensures { IfOk result (λ sums. (name : Text) → sum_at sums name
        ≡ latest (sums_in (map (λ l. l.now) lines.now)) name) }
{
    let mut sums = BTreeMap::new(alloc);
    for line in lines {
        add_sum(&mut sums, *line)?;
    }
    Ok(sums)
}

/// Puts the checksum in a line, if one is there, in the place of an earlier one of the file.
fn add_sum<'t>(sums: &mut BTreeMap<&'t str, &'t str>, line: &'t str) -> AllocResult<()>
    ensures { OnOk result ((name : Text) → sum_at sums.new name ≡ option_or
        (latest (option_to_list (sum_in line.entry.now)) name) (sum_at sums.old name)) }
{
    match checksum_in(line) {
        Some((name, sum)) => put_sum(sums, name, sum),
        None => Ok(()),
    }
}

fn put_sum<'t>(
    sums: &mut BTreeMap<&'t str, &'t str>,
    file: &'t str,
    sum: &'t str,
) -> AllocResult<()>
    ensures { OnOk result ((name : Text) → sum_at sums.new name
        ≡ (if bytes_eq file.entry.now name then Some sum.entry.now else sum_at sums.old name)) }
{
    match sums.insert(file, sum) {
        Ok(_) => Ok(()),
        Err(_) => Err(AllocError),
    }
}

/// The name of a file, and its SHA-256, in a line of `sha256sum`.
fn checksum_in(line: &str) -> Option<(&str, &str)>
    ensures { option_map (λ p. (p.0.now, p.1.now)) result ≡ sum_in line.now }
{
    let (sum, path) = line.split_once(' ').unwrap_or((line, ""));
    if !is_checksum(sum) {
        return None;
    }
    let name = Path::new(unmarked(path)).file_name()?;
    Some((name, sum))
}

/// A path without the space or the star that `sha256sum` has before it.
fn unmarked(path: &str) -> &str
    ensures { result.now ≡ unmarked path.now }
{
    match path.strip_prefix(' ') {
        Some(path) => path,
        None => path.strip_prefix('*').unwrap_or(path),
    }
}

/// The SHA-256 of a file as an index has it, 64 hex digits in lower case. The file is read in
/// blocks. Refused where it can't be read, or out of memory.
pub fn checksum_of<R: Files + AllocGlobal>(rt: &R, path: &str) -> io::Result<String> {
    let mut file = File::open(rt, path)?;
    let mut hasher = Sha256::new();
    let mut block = vec![in rt.alloc(); 0; BLOCK]?;
    for _ in 0..u64::MAX {
        match file.read(block.as_mut_slice()) {
            Ok(0) => return Ok(hex::encode(rt.alloc(), hasher.finalize().as_slice())?),
            Ok(count) => hasher.update(&block.as_slice()[..count]),
            Err(fault) if fault.kind() == ErrorKind::Interrupted => {}
            Err(fault) => return Err(fault),
        }
    }
    Err(io::Error::from(ErrorKind::FileTooLarge))
}
