//! How a report is written.

use super::{Audit, Code, Finding, Member, Use};
use crate::members::seen_from;
use cargo_toml_lint::AllocResult;
use cargo_toml_tools::escape::{Format, push_escaped};
use cargo_toml_tools::json::{put_text, put_texts};
use serde_json::{Map, Value, push, put};
use std::alloc::Global;
use std::collections::{BTreeMap, BTreeSet};

/// The report as lines: one for each member, and then one for each finding, in byte order.
///
/// `member FOLDER | NAME | VERSION | EDITION | RUST-VERSION | LICENSE | PUBLISH | INHERITS`, and
/// `finding CODE | SUBJECT | WORDS`, where `-` stands for what isn't there.
pub fn lines(alloc: Global, audit: &Audit) -> AllocResult<String> {
    let mut text = String::new(alloc);
    for (folder, member) in &shown_members(alloc, audit)? {
        let keys = member.inherits.as_slice().join(alloc, ", ")?;
        let keys = if keys.is_empty() { "-" } else { keys.as_str() };
        push_cells(&mut text, "member", &member_cells(folder.as_str(), member))?;
        push_cells(&mut text, " |", &[("inherits", Some(keys))])?;
        text.push_str("\n")?;
    }
    for finding in &shown_findings(alloc, audit)? {
        push_cells(&mut text, "finding", &finding_cells(finding))?;
        text.push_str("\n")?;
    }
    Ok(text)
}

/// What stands under a key, if anything does.
type Cell<'a> = (&'static str, Option<&'a str>);

/// What is told of a member, except for what it inherits.
fn member_cells<'a>(folder: &'a str, member: &'a Member) -> [Cell<'a>; 7] {
    [
        ("folder", Some(folder)),
        ("name", Some(member.name.as_str())),
        ("version", Some(member.version.as_str())),
        ("edition", Some(member.edition.as_str())),
        ("rust_version", member.rust_version.as_deref()),
        ("license", member.license.as_deref()),
        ("publish", Some(member.publish.as_str())),
    ]
}

fn finding_cells(finding: &Finding) -> [Cell<'_>; 3] {
    [
        ("code", Some(finding.code.word())),
        ("subject", Some(finding.subject.as_str())),
        ("words", Some(finding.words.as_str())),
    ]
}

fn push_cells(text: &mut String, word: &str, cells: &[Cell<'_>]) -> AllocResult<()> {
    text.push_str(word)?;
    for (i, cell) in cells.iter().enumerate() {
        text.push_str(if i == 0 { " " } else { " | " })?;
        push_escaped(text, cell.1.unwrap_or("-"), Format::Line)?;
    }
    Ok(())
}

/// The members by their folders, as they are seen from the workspace's.
fn shown_members<'a>(alloc: Global, audit: &'a Audit) -> AllocResult<BTreeMap<String, &'a Member>> {
    let mut all = BTreeMap::new(alloc);
    for member in &audit.members {
        let folder = seen_from(alloc, audit.root.as_str(), member.folder.as_str())?;
        all.insert(folder, member)?;
    }
    Ok(all)
}

/// What was found, each once. A place is told as it is seen from the workspace, and with the first
/// finding of a crate with several requirements all that ask for it.
fn shown_findings(alloc: Global, audit: &Audit) -> AllocResult<BTreeSet<Finding>> {
    let mut asked = requirements(alloc, audit)?;
    let mut all = BTreeSet::new(alloc);
    for finding in &audit.findings {
        let words = match finding.code {
            Code::SeveralRequirements => asked.remove(finding.subject.as_str()),
            _ => Some(finding.words.clone()?),
        };
        let Some(words) = words else { continue };
        let subject = if finding.code.is_of_place() {
            seen_from(alloc, audit.root.as_str(), finding.subject.as_str())?
        } else {
            finding.subject.clone()?
        };
        all.insert(Finding {
            code: finding.code,
            subject,
            words,
        })?;
    }
    Ok(all)
}

/// By the name of a crate, its requirements in order, each with the folders of what asks by it.
fn requirements(alloc: Global, audit: &Audit) -> AllocResult<BTreeMap<String, String>> {
    let mut uses = BTreeSet::new(alloc);
    for one in &audit.uses {
        uses.insert(Use {
            name: one.name.clone()?,
            requirement: one.requirement.clone()?,
            folder: seen_from(alloc, audit.root.as_str(), one.folder.as_str())?,
        })?;
    }
    let mut all: BTreeMap<String, String> = BTreeMap::new(alloc);
    let mut last = String::new(alloc);
    for one in &uses {
        let words = all.entry(one.name.clone()?)?.or_insert(String::new(alloc));
        if words.is_empty() || one.requirement.as_str() != last.as_str() {
            let end = if words.is_empty() { "" } else { "; " };
            words.push_str(end)?;
            words.push_str(one.requirement.as_str())?;
            words.push_str(" in ")?;
        } else {
            words.push_str(", ")?;
        }
        words.push_str(one.folder.as_str())?;
        last = one.requirement.clone()?;
    }
    Ok(all)
}

/// The same as a line of JSON, an object of two lists: `findings` and `members`.
pub fn json(alloc: Global, audit: &Audit) -> AllocResult<String> {
    let mut members = Vec::new(alloc);
    for (folder, member) in &shown_members(alloc, audit)? {
        let mut object = object(alloc, &member_cells(folder.as_str(), member))?;
        put_texts(alloc, &mut object, "inherits", member.inherits.as_slice())?;
        push(&mut members, Value::from(object))?;
    }
    let mut findings = Vec::new(alloc);
    for finding in &shown_findings(alloc, audit)? {
        let object = object(alloc, &finding_cells(finding))?;
        push(&mut findings, Value::from(object))?;
    }
    let mut report = Map::new(alloc);
    put(&mut report, alloc, "members", Value::from(members))?;
    put(&mut report, alloc, "findings", Value::from(findings))?;
    let mut text = Value::from(report).to_string(alloc)?;
    text.push_str("\n")?;
    Ok(text)
}

fn object(alloc: Global, cells: &[Cell<'_>]) -> AllocResult<Map<String, Value>> {
    let mut object = Map::new(alloc);
    for (key, text) in cells {
        put_text(alloc, &mut object, *key, *text)?;
    }
    Ok(object)
}
