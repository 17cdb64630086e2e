//! Makes the report on a workspace: follows its lists and its members, and reads what lies there.
ghost use Rattle.std.specs.Prelude.{◌≡◌, ◌++◌, IfErr, IfOk, OnOk, map, string_bytes};
ghost use Rattle.std.specs.List.{list_any};
ghost use Rattle.cargo_toml_audit.specs.Steps.{AreListed, known_of};
ghost use Rattle.cargo_toml_audit.specs.AuditedFiles.{IsAuditFault, IsAudited, IsReport, base_of};
ghost use Rattle.cargo_toml_audit.specs.AuditedFiles.{IsReportFault, found_beside};
ghost use Rattle.cargo_toml_audit.specs.AuditedFiles.{found_in_lists, is_astray};
ghost use Rattle.cargo_toml_audit.specs.{Limits.IsLookFault, MemberFolders.OnDisks};
ghost use Rattle.cargo_toml_audit.specs.{Oddities.oddities_of};

mod above;
mod place;
mod walk;

use crate::audit::findings::{find_all, find_if};
use crate::audit::{Audit, Code, Finding, Root, json, lines};
use crate::limits::LookResult;
use crate::members::{Looking, included, manifest_path, picked, set_of, unseen, wrong_entries};
use above::{absolute, workspace_of};
use cargo_toml::Error;
use cargo_toml_lint::AllocResult;
use cargo_toml_tools::files::manifest_in;
use std::alloc::Global;
use std::collections::BTreeSet;
use std::random::RandomSource;
use std::rt::Files;
use walk::add_members;

/// The report on the workspace around a folder. Where `shows` is set, a long one tells on standard
/// error how far it is.
///
/// Refused where the folder isn't there, no workspace is found at or above it, a manifest on the
/// way there can't be read, or there are too many places: lists and members lead further than
/// [`MAX_STEPS`](crate::limits::MAX_STEPS). A member that is refused is a finding.
pub fn audit<R: Files + Eprint + RandomSource + AllocGlobal>(
    rt: &R,
    folder: &str,
    shows: bool,
) -> Result<Audit, Error>
    ensures audited { IfOk result IsAudited }
    ensures refused { IfErr result IsAuditFault }
{
    let start = absolute(rt, folder)?;
    let workspace = workspace_of(rt, start.as_str())?;
    let Some(found) = workspace else {
        return Err(Error::Other("there is no workspace"));
    };
    let mut looking = Looking::new(rt);
    let (root, asked) = (found.root.as_str(), found.asked.as_str());
    report_at(&mut looking, root, asked, shows)
}

/// The report on the workspace that lies at a place, in which another one is asked for.
fn report_at<R: Files + Eprint + RandomSource + AllocGlobal>(
    looking: &mut Looking<'_, R>,
    place: &str,
    asked: &str,
    shows: bool,
) -> Result<Audit, Error>
    ensures audited { IfOk result IsAudited }
    ensures refused { IfErr result (IsReportFault looking.new.steps.left) }
{
    let path = manifest_path(looking.rt.alloc(), place)?;
    let held = manifest_in(looking.rt, path.as_str())?;
    let manifest = &*held.manifest;
    let Some(workspace) = &manifest.workspace else {
        return Err(Error::Other("there is no workspace"));
    };
    let root = Root {
        place,
        path: path.as_str(),
        manifest,
        workspace,
    };
    let report = report_on(looking, root, asked, shows)?;
    Ok(report)
}

/// The report on a workspace, in which this place is asked for.
fn report_on<R: Files + Eprint + RandomSource + AllocGlobal>(
    looking: &mut Looking<'_, R>,
    root: Root<'_>,
    asked: &str,
    shows: bool,
) -> Result<Audit, Error>
    ensures report { IfOk result (IsReport (base_of root.entry) asked.now) }
    ensures place { IfOk result (λ a. string_bytes a.root ≡ root.entry.place.now) }
    ensures refused { IfErr result (IsReportFault looking.new.steps.left) }
{
    let rt = looking.rt;
    let mut audit = Audit::new(String::from_str(rt.alloc(), root.place)?);
    let lists = read_lists(looking, root, &mut audit.findings)?;
    let (first, mut known) = lists;
    known.members = add_members(looking, root, first, &mut audit, shows)?;
    find_beside(looking, root, (&known, asked), &mut audit.findings)?;
    audit.finish(root.workspace)?;
    let Known { members, .. } = known;
    audit.places = members;
    Ok(audit)
}

/// Reads where the entries of `members` lead, and finds what is odd of the lists. It answers those
/// places that aren't excluded, with the root, and what is known by then: no members yet.
fn read_lists<R: Files + AllocGlobal>(
    looking: &mut Looking<'_, R>,
    root: Root<'_>,
    findings: &mut Vec<Finding>,
) -> LookResult<(Vec<String>, Known)>
    ensures listed { IfOk result (λ lists. OnDisks
        (λ d. AreListed (base_of root.entry) d lists findings.old findings.new)
        looking.old.looks looking.new.looks) }
    ensures refused { IfErr result (IsLookFault looking.new.steps.left) }
{
    let alloc = looking.rt.alloc();
    let all = looking.listed(root.place, root.workspace.members.as_slice())?;
    let mut first = included(alloc, root.place, root.workspace, all.as_slice())?;
    find_in_lists(alloc, root, first.as_slice(), findings)?;
    let known = Known {
        listed: set_of(alloc, all.as_slice())?,
        entered: set_of(alloc, first.as_slice())?,
        members: BTreeSet::new(alloc),
    };
    first.push(String::from_str(alloc, root.place)?)?;
    Ok((first, known))
}

/// Finds that the place asked for is no member's, entries of `default-members` that lead to more
/// than members and what is listed and excluded, and what couldn't be looked at.
fn find_beside<R: Files + AllocGlobal>(
    looking: &mut Looking<'_, R>,
    root: Root<'_>,
    by: (&Known, &str),
    findings: &mut Vec<Finding>,
) -> LookResult<()>
    ensures found { OnOk result (OnDisks (λ d. oddities_of findings.new ≡ oddities_of findings.old
        ++ found_beside (base_of root.entry) looking.new.looks d (known_of by.entry.0.now)
        by.entry.1.now) looking.old.looks looking.new.looks) }
    ensures refused { IfErr result (IsLookFault looking.new.steps.left) }
{
    let (known, asked) = by;
    let is_unlisted = !known.members.contains(asked);
    find_if(findings, Code::Unlisted, is_unlisted, asked)?;
    for entry in root.workspace.default_members.as_slice() {
        let entry = entry.as_str();
        let places = looking.places_of_entry(root.place, entry)?;
        let is_astray = any_astray(known, places.as_slice());
        find_if(findings, Code::DefaultMember, is_astray, entry)?;
    }
    let unseen = unseen(looking.rt.alloc(), &looking.looks)?;
    find_all(findings, Code::Unseen, unseen.as_slice())?;
    Ok(())
}

/// Finds what is listed twice, by the places that are entered, and entries that are no patterns.
fn find_in_lists(
    alloc: Global,
    root: Root<'_>,
    entered: &[String],
    findings: &mut Vec<Finding>,
) -> AllocResult<()>
    ensures { OnOk result (oddities_of findings.new ≡ oddities_of findings.old
        ++ found_in_lists (base_of root.entry) (map string_bytes entered.now)) }
{
    let twice = picked(alloc, entered, true)?;
    let wrong = wrong_entries(alloc, root.workspace.members.as_slice())?;
    let wrong_defaults = wrong_entries(alloc, root.workspace.default_members.as_slice())?;
    find_all(findings, Code::ListedTwice, twice.as_slice())?;
    find_all(findings, Code::BadPattern, wrong.as_slice())?;
    find_all(findings, Code::BadPattern, wrong_defaults.as_slice())
}

/// The places that entries of `members` lead to, those of them that aren't excluded, and those of
/// members.
#[derive(Drop)]
struct Known {
    listed: BTreeSet<String>,
    entered: BTreeSet<String>,
    members: BTreeSet<String>,
}

/// Whether one of these places is none of a member, nor listed and excluded.
fn any_astray(known: &Known, places: &[String]) -> bool
    ensures { result ≡ list_any (is_astray (known_of known.now)) (map string_bytes places.now) }
{
    for place in places {
        let place = place.as_str();
        let is_excluded = known.listed.contains(place) & !known.entered.contains(place);
        if !known.members.contains(place) & !is_excluded {
            return true;
        }
    }
    false
}

/// The report as text, and whether something is odd: JSON where `as_json` is set, and else lines.
/// Where `shows` is set, a long one tells on standard error how far it is.
pub fn audit_text<R: Files + Eprint + RandomSource + AllocGlobal>(
    rt: &R,
    folder: &str,
    as_json: bool,
    shows: bool,
) -> Result<(String, bool), Error> {
    let report = audit(rt, folder, shows)?;
    let text = if as_json {
        json(rt.alloc(), &report)?
    } else {
        lines(rt.alloc(), &report)?
    };
    Ok((text, !report.findings.is_empty()))
}
