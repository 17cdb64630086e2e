//! What a report takes of one place: a member, or that it was refused.
ghost use Rattle.std.specs.Prelude.{◌≡◌, ◌≢◌, ◌++◌, [], IfErr, IfOk, IsTrue, OnOk, Option};
ghost use Rattle.std.specs.Option.{option_map_or};
ghost use Rattle.cargo_toml.specs.{Action.Text, Error.Error, Error.Memory};
ghost use Rattle.cargo_toml_tools.specs.FromFiles.{IsManifestIn, IsUnreadable};
ghost use Rattle.cargo_toml_audit.specs.Steps.{AddsMade, AddsPlace};
ghost use Rattle.cargo_toml_audit.specs.AuditedFiles.{HasErrors, base_of, has_error, is_rootless};
ghost use Rattle.cargo_toml_audit.specs.AuditedFiles.{refusal, refusal_code};
ghost use Rattle.cargo_toml_audit.specs.{Oddities.oddities_of, Places.lies_in};

use super::above::is_of;
use crate::audit::findings::{find, find_if, find_in, has_no_target, is_bare, refusal_rows};
use crate::audit::{Audit, Code, Finding, Root, needs, summarize, untold_words};
use crate::members::{is_absent, manifest_path};
use cargo_toml::{Error, Manifest};
use cargo_toml_lint::{AllocResult, Finding as Fault, Level};
use cargo_toml_manifest::HeldManifest;
use cargo_toml_shallow::complete_from_path;
use cargo_toml_tools::files::{findings_of, manifest_in};
use std::alloc::Global;
use std::random::RandomSource;
use std::rt::Files;

/// Whether what lies at a place is a member, or refused as one, and the places to which it leads.
pub type Seen = (bool, Vec<String>);

/// A place that a report looks at.
#[derive(Drop)]
pub struct At<'a, R> {
    /// The runtime.
    pub rt: &'a R,
    /// The workspace.
    pub root: Root<'a>,
    /// The place.
    pub place: &'a str,
    /// Whether a list leads to it.
    pub is_listed: bool,
}

impl<R: Files + RandomSource + AllocGlobal> At<'_, R> {
    /// Adds to a report what lies there. What lies outside and isn't listed is no member.
    pub fn add_place(&self, audit: &mut Audit) -> Result<Seen, Error>
        ensures added { IfOk result (λ seen. AddsPlace (base_of self.now.root) self.now.is_listed
            self.now.place.now seen audit.old audit.new) }
        ensures refused { IfErr result IsUnreadable }
    {
        let path = manifest_path(self.rt.alloc(), self.place)?;
        match manifest_in(self.rt, path.as_str()) {
            Ok(held) => match is_of(self.rt, self.place, self.root.place) {
                Ok(is_own) => self.add_found(is_own, held, audit),
                Err(fault) => self.add_unread(fault, audit),
            },
            Err(fault) => self.add_unread(fault, audit),
        }
    }

    /// Adds that what lies there can't be read.
    fn add_unread(&self, fault: Error, audit: &mut Audit) -> Result<Seen, Error>
        requires { IsUnreadable fault }
        ensures added { IfOk result (λ seen. AddsPlace (base_of self.now.root) self.now.is_listed
            self.now.place.now seen audit.old audit.new) }
        ensures refused { IfErr result IsUnreadable }
    {
        refuse(self.place, fault, &mut audit.findings)?;
        Ok((true, Vec::new(self.rt.alloc())))
    }

    /// Adds it where it was read, and it is known whether it lies in the workspace's folder, or
    /// leads there: of a member what Cargo refuses of it, and what it is.
    fn add_found(&self, is_own: bool, held: HeldManifest, audit: &mut Audit) -> Result<Seen, Error>
        requires read { (text : Text) × IsManifestIn text held.manifest.value }
        requires within { IsTrue (lies_in self.now.place.now self.now.root.place.now)
            → IsTrue is_own }
        ensures added { IfOk result (λ seen. AddsPlace (base_of self.now.root) self.now.is_listed
            self.now.place.now seen audit.old audit.new) }
        ensures refused { IfErr result IsUnreadable }
    {
        let counts = self.is_listed | is_own;
        if !counts {
            self.add_foreign(held, &mut audit.findings)?;
            return Ok((false, Vec::new(self.rt.alloc())));
        }
        let manifest = &*held.manifest;
        if is_rootless(self.root, self.place, manifest) {
            let has_tables = !is_bare(manifest);
            find_if(&mut audit.findings, Code::Virtual, has_tables, self.place)?;
            return Ok((true, Vec::new(self.rt.alloc())));
        }
        let needs = needs(self.rt.alloc(), self.root, self.place, manifest)?;
        let at = (self.place, is_own);
        let has_errors = has_errors(self.rt, manifest)?;
        let rows = refusal_rows(self.rt.alloc(), self.root, at, has_errors, manifest)?;
        find_in(&mut audit.findings, self.place, &rows)?;
        let inherits = audit.add_written(manifest)?;
        self.add_made(held, inherits, audit)?;
        Ok((true, needs))
    }

    /// Looks at what is none of the workspace's. It has to complete all the same.
    fn add_foreign(&self, held: HeldManifest, findings: &mut Vec<Finding>) -> Result<(), Error>
        ensures found { OnOk result ((fault : Option Error) × (oddities_of findings.new
            ≡ oddities_of findings.old ++ option_map_or (refusal self.now.place.now) fault [])) }
        ensures refused { IfErr result IsUnreadable }
    {
        let alloc = self.rt.alloc();
        let mut held = held;
        let path = manifest_path(alloc, self.place)?;
        let path = path.as_str();
        if let Err(fault) = complete_from_path(self.rt, alloc, path, &mut *held.manifest) {
            refuse(self.place, fault, findings)?;
        }
        Ok(())
    }

    /// Completes a member, and adds what it is, or that nothing can be told of it.
    fn add_made(
        &self,
        held: HeldManifest,
        inherits: Vec<String>,
        audit: &mut Audit,
    ) -> Result<(), Error>
        ensures added { OnOk result (AddsMade (base_of self.now.root) self.now.place.now
            held.manifest.value inherits audit.old audit.new) }
        ensures refused { IfErr result IsUnreadable }
    {
        let alloc = self.rt.alloc();
        let mut held = held;
        let path = manifest_path(alloc, self.place)?;
        let handed = Some((self.root.manifest, self.root.path));
        let done = held
            .manifest
            .complete_from_path_and_workspace(self.rt, alloc, path.as_str(), handed);
        if let Err(fault) = done {
            refuse(self.place, fault, &mut audit.findings)?;
            return Ok(());
        }
        let manifest = &*held.manifest;
        let no_target = has_no_target(manifest);
        find_if(&mut audit.findings, Code::NoTarget, no_target, self.place)?;
        match summarize(alloc, self.place, manifest, inherits)? {
            Some(member) => Ok(audit.add_member(member, manifest, self.root.workspace)?),
            None => {
                let words = String::from_str(alloc, untold_words(manifest))?;
                Ok(find(&mut audit.findings, Code::Incomplete, self.place, words)?)
            }
        }
    }
}

/// Whether it is the root's own manifest, without a package.
fn is_rootless(root: Root<'_>, place: &str, manifest: &Manifest) -> bool
    ensures { result ≡ is_rootless (base_of root.entry) place.now manifest.now }
{
    place == root.place && manifest.package.is_none()
}

/// Adds that a place was refused. Only want of memory ends the report.
fn refuse(place: &str, fault: Error, findings: &mut Vec<Finding>) -> Result<(), Error>
    ensures memory { OnOk result (fault ≢ Memory) }
    ensures found { OnOk result (oddities_of findings.new
        ≡ oddities_of findings.old ++ refusal place.now fault) }
    ensures refused { IfErr result IsUnreadable }
{
    match fault {
        Error::Memory => Err(Error::Memory),
        fault => {
            let code = refusal_code(&fault);
            let words = refusal_words(*findings.allocator(), code, &fault)?;
            find(findings, code, place, words)?;
            Ok(())
        }
    }
}

fn refusal_code(fault: &Error) -> Code
    ensures { result ≡ refusal_code fault.now }
{
    match fault {
        Error::Io(fault) if is_absent(fault.kind()) => Code::Absent,
        Error::Io(_)
        | Error::Parse(_)
        | Error::Workspace(_)
        | Error::InheritedUnknownValue
        | Error::WorkspaceIntegrity(_)
        | Error::Other(_)
        | Error::Memory => Code::Incomplete,
    }
}

/// The words of a fault. Where completion wrapped the fault, the words are of the fault inside,
/// without the path of the workspace.
fn refusal_words(alloc: Global, code: Code, fault: &Error) -> AllocResult<String> {
    if code == Code::Absent {
        return String::from_str(alloc, code.words());
    }
    let words = match fault {
        Error::Workspace(inner) => format!(in alloc; "{}", inner.0)?,
        _ => format!(in alloc; "{fault}")?,
    };
    String::from_str(alloc, words.as_str().trim_end())
}

/// Whether `lint` finds errors in the features of a manifest.
fn has_errors<R: RandomSource + AllocGlobal>(rt: &R, manifest: &Manifest) -> Result<bool, Error>
    ensures found { IfOk result (HasErrors manifest.now) }
    ensures refused { IfErr result IsUnreadable }
{
    let findings = findings_of(rt, manifest)?;
    Ok(any_error(findings.as_slice()))
}

fn any_error(findings: &[Fault<'_>]) -> bool
    ensures { result ≡ has_error findings.now }
{
    findings
        .iter()
        .any(|found| matches!(found.code.level(), Level::Error))
}
