//! The workspace around a folder.
use cargo_toml::Error;
use cargo_toml_audit::audit::{Code, Finding, json, lines, named_by};
use cargo_toml_audit::auditing::audit;
use cargo_toml_audit::members::{manifest_path, place_of, seen_from};
use cargo_toml_check::check::faults_in;
use cargo_toml_tools::files::{manifest_in, text_in};
use std::alloc::{AllocError, Global};
use std::collections::BTreeSet;
use std::path::Path;
use std::random::RandomSource;
use std::rt::Files;
use std::{fs, io, mem};

/// The report as text, and whether something is odd. Where a member doesn't read, what is at fault
/// in it is told.
pub(crate) fn report_text<R: Files + Eprint + RandomSource + AllocGlobal>(
    rt: &R,
    folder: &str,
    as_json: bool,
    shows: bool,
) -> Result<(String, bool), Error> {
    let alloc = rt.alloc();
    let here = path_of(rt, ".")?;
    let mut report = audit(rt, folder, shows)?;
    let found = mem::replace(&mut report.findings, Vec::new(alloc));
    for finding in found {
        push_told(rt, here.as_str(), finding, &mut report.findings)?;
    }
    let odd = !report.findings.is_empty();
    if as_json {
        return Ok((json(alloc, &report)?, odd));
    }
    Ok((lines(alloc, &report)?, odd))
}

/// Adds a finding, or one for each part at fault where it is of a manifest that doesn't read.
fn push_told<R: Files + AllocGlobal>(
    rt: &R,
    here: &str,
    finding: Finding,
    findings: &mut Vec<Finding>,
) -> Result<(), AllocError> {
    let alloc = rt.alloc();
    let file = file_of(alloc, here, finding.subject.as_str())?;
    let mut faults = Vec::new(alloc);
    if finding.code == Code::Incomplete {
        if let Ok(text) = text_in(rt, file.as_str()) {
            faults = faults_in(alloc, text.as_str())?;
        }
    }
    if faults.is_empty() {
        findings.push(finding)?;
        return Ok(());
    }
    for told in &faults {
        let (line, column) = told.place;
        let colon = if told.key.is_empty() { "" } else { ": " };
        let words = told.words.as_str().trim_end();
        let words = format!(in alloc; "{file}:{line}:{column}: {}{colon}{words}", told.key)?;
        findings.push(Finding {
            code: finding.code,
            subject: finding.subject.clone()?,
            words,
        })?;
    }
    Ok(())
}

/// The manifests of the members of the workspace around a folder, and of what is refused as one:
/// what is absent or doesn't read, and members that don't complete.
pub(crate) fn members<R: Files + Eprint + RandomSource + AllocGlobal>(
    rt: &R,
    folder: &str,
    shows: bool,
) -> Result<BTreeSet<String>, Error> {
    let alloc = rt.alloc();
    let here = path_of(rt, ".")?;
    let report = audit(rt, folder, shows)?;
    let mut files = BTreeSet::new(alloc);
    for member in &report.members {
        files.insert(file_of(alloc, here.as_str(), member.folder.as_str())?)?;
    }
    for finding in &report.findings {
        let place = finding.subject.as_str();
        let is_refused = matches!(finding.code, Code::Absent | Code::Incomplete);
        if is_refused && report.places.contains(place) {
            files.insert(file_of(alloc, here.as_str(), place)?)?;
        }
    }
    Ok(files)
}

/// The manifest on the way from a folder to its workspace that doesn't read, where this is why no
/// report is there. It lies at or above the folder, or is the root that one there names.
pub(crate) fn unread_above<R: Files + AllocGlobal>(
    rt: &R,
    folder: &str,
    fault: &Error,
) -> io::Result<Option<String>> {
    if !matches!(fault, Error::Parse(_) | Error::Other(_)) {
        return Ok(None);
    }
    let alloc = rt.alloc();
    let here = path_of(rt, ".")?;
    let start = place_of(alloc, here.as_str(), folder)?;
    for above in Path::new(start.as_str()).ancestors() {
        let file = file_of(alloc, here.as_str(), above.as_str())?;
        let read = manifest_in(rt, file.as_str());
        if matches!(&read, Err(Error::Parse(_) | Error::Other(_))) {
            return Ok(Some(file));
        }
        if let Ok(held) = &read {
            let manifest = &*held.manifest;
            let has_none = manifest.workspace.is_none();
            if let Some(path) = named_by(&manifest.package).filter(|_| has_none) {
                let root = place_of(alloc, above.as_str(), path)?;
                return Ok(Some(file_of(alloc, here.as_str(), root.as_str())?));
            }
        }
    }
    Ok(None)
}

/// The path of a file, in which all folders above it are written. What ends with the last `..` is
/// looked up, since it may lead back from behind a link. A name stays where that has no path.
pub(crate) fn path_of<R: Files + AllocGlobal>(rt: &R, file: &str) -> io::Result<String> {
    let start = if file.starts_with('/') { "/" } else { "." };
    let (up, name) = match file.rsplit_once("../") {
        Some((_, name)) => (file.strip_suffix(name).unwrap_or(file), name),
        None => (start, file),
    };
    let name = name.trim_start_matches('/');
    match fs::canonicalize(rt, up) {
        Ok(folder) => Ok(place_of(rt.alloc(), folder.as_str(), name)?),
        Err(fault) if fault.kind() == io::ErrorKind::OutOfMemory => Err(fault),
        Err(_) => Ok(String::from_str(rt.alloc(), file)?),
    }
}

/// The manifest at a place, as it is seen from a folder.
fn file_of(alloc: Global, here: &str, place: &str) -> Result<String, AllocError> {
    manifest_path(alloc, seen_from(alloc, here, place)?.as_str())
}
