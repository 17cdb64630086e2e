//! The places of a workspace, one after the other: those that its lists lead to, its own, and what
//! members depend on by paths.
ghost use Rattle.std.specs.Prelude.{◌≡◌, ◌<◌, IfErr, IfOk, OnOk, map, string_bytes};
ghost use Rattle.std.specs.BTreeSet.{contains_text};
ghost use Rattle.cargo_toml_audit.specs.AuditedFiles.{IsReportFault, base_of};
ghost use Rattle.cargo_toml_audit.specs.{Places.excluded_by, Steps.Visits, Steps.Walks};

use super::place::At;
use crate::audit::{Audit, Root};
use crate::limits::Steps;
use crate::members::{Exclusion, Looking, manifest_path, note, set_of};
use cargo_toml::Error;
use cargo_toml_lint::AllocResult;
use std::collections::BTreeSet;
use std::random::RandomSource;
use std::rt::Files;
use std::{fs, io};

/// How far places were followed.
#[derive(Drop)]
pub struct Walk {
    /// Those that are still to be looked at, some of them twice.
    pub waiting: Vec<String>,
    /// Those that were looked at.
    pub seen: BTreeSet<String>,
    /// Those of members.
    pub members: BTreeSet<String>,
    /// The folders that were looked at, by their paths without links.
    pub folders: BTreeSet<String>,
}

/// Adds to a report all that lies at these places, and at those to which members lead. It answers
/// the places of members. Refused where steps are used up before all places are looked at, and
/// where a place has no answer but want of memory.
pub fn add_members<R: Files + Eprint + RandomSource + AllocGlobal>(
    looking: &mut Looking<'_, R>,
    root: Root<'_>,
    first: Vec<String>,
    audit: &mut Audit,
    shows: bool,
) -> Result<BTreeSet<String>, Error>
    ensures walked { IfOk result (λ members. Walks (base_of root.entry)
        (map string_bytes first.items) (contains_text members) audit.old audit.new) }
    ensures looks { looking.new.looks ≡ looking.old.looks }
    ensures refused { IfErr result (IsReportFault looking.new.steps.left) }
{
    let rt = looking.rt;
    let alloc = rt.alloc();
    let exclusion = Exclusion::of(alloc, root.place, root.workspace)?;
    let listed = set_of(alloc, first.as_slice())?;
    let mut walk = Walk {
        waiting: first,
        seen: BTreeSet::new(alloc),
        members: BTreeSet::new(alloc),
        folders: BTreeSet::new(alloc),
    };
    let mut done = 0;
    while let Some(place) = walk.waiting.pop() {
        show_progress(rt, shows, done)?;
        let is_listed = listed.contains(place.as_str());
        let at = At {
            rt,
            root,
            place: place.as_str(),
            is_listed,
        };
        visit(&at, &exclusion, &mut walk, audit, &mut looking.steps)?;
        done = done.saturating_add(1);
    }
    end_progress(rt, shows, done)?;
    Ok(walk.members)
}

/// Looks at a place, unless that was done or it is excluded.
fn visit<R: Files + RandomSource + AllocGlobal>(
    at: &At<'_, R>,
    exclusion: &Exclusion,
    walk: &mut Walk,
    audit: &mut Audit,
    steps: &mut Steps,
) -> Result<(), Error>
    ensures visited { OnOk result (Visits (base_of at.now.root)
        (excluded_by (map string_bytes exclusion.now.excluded.items)
        (map string_bytes exclusion.now.members.items) at.now.place.now)
        at.now.is_listed at.now.place.now walk.old walk.new audit.old audit.new) }
    ensures steps { OnOk result (steps.new.left < steps.old.left) }
    ensures refused { IfErr result (IsReportFault steps.new.left) }
{
    let alloc = at.rt.alloc();
    steps.take(1)?;
    if walk.seen.contains(at.place) {
        return Ok(());
    }
    if exclusion.excludes(alloc, at.place)? {
        return Ok(());
    }
    steps.take(steps_of(at.rt, at.place, &mut walk.folders)?)?;
    let (is_member, mut needs) = at.add_place(audit)?;
    note(alloc, &mut walk.members, at.place, is_member)?;
    note(alloc, &mut walk.seen, at.place, true)?;
    walk.waiting.append(&mut needs)?;
    Ok(())
}

/// The steps of a place, beside the bytes of its manifest. So a workspace may have some hundred
/// thousand places.
const PLACE_STEPS: usize = 1024;

/// So many times the steps are taken by a folder that another path led to before. Cargo takes no
/// folder for two members, but links make of one as many places as there are ways through them.
const AGAIN: usize = 64;

/// How many steps looking at a place takes, after these folders. Its own is noted among them.
fn steps_of<R: Files + AllocGlobal>(
    rt: &R,
    place: &str,
    folders: &mut BTreeSet<String>,
) -> AllocResult<usize> {
    let path = manifest_path(rt.alloc(), place)?;
    let size = fs::metadata(rt, path.as_str()).map_or(0, |found| found.len());
    let size = usize::try_from(size).unwrap_or(usize::MAX);
    let steps = size.saturating_add(PLACE_STEPS);
    let Ok(folder) = fs::canonicalize(rt, place) else {
        return Ok(steps);
    };
    if folders.contains(folder.as_str()) {
        return Ok(steps.saturating_mul(AGAIN));
    }
    note(rt.alloc(), folders, folder.as_str(), true)?;
    Ok(steps)
}

/// Tells a terminal how far a long report is.
fn show_progress<R: Eprint>(rt: &R, shows: bool, done: usize) -> io::Result<()> {
    if shows && done >= 20 && done % 10 == 0 {
        eprint!(rt; "\r{done} places")?;
    }
    Ok(())
}

/// Takes back what was told of a report that has ended.
fn end_progress<R: Eprint>(rt: &R, shows: bool, done: usize) -> io::Result<()> {
    if shows && done >= 20 {
        eprint!(rt; "\r\u{1b}[K")?;
    }
    Ok(())
}
