//! The folders that an entry of `members` leads to, as Cargo's globs find them.
//!
//! What the system answers is kept, and it is asked once of each path. So a clause speaks of any
//! disk that answers so.
ghost use Rattle.std.specs.Prelude.{◌≡◌, ◌&&◌, ◌-◌, IfErr, IfOk, length, map, not};
ghost use Rattle.std.specs.Prelude.{string_bytes};
ghost use Rattle.std.specs.{BTreeMap.IsEmpty, List.flat_map};
ghost use Rattle.cargo_toml.specs.RealFiles.{is_absent};
ghost use Rattle.cargo_toml_audit.specs.MemberFolders.{Tells, all_below, below, by_found, by_link};
ghost use Rattle.cargo_toml_audit.specs.MemberFolders.{ended, further, further_in, is_nothing};
ghost use Rattle.cargo_toml_audit.specs.MemberFolders.{is_unseen, led, matched, named_so};
ghost use Rattle.cargo_toml_audit.specs.MemberFolders.{places_if_right, places_once, subfolders};
ghost use Rattle.cargo_toml_audit.specs.MemberFolders.{with_dots};
ghost use Rattle.cargo_toml_audit.specs.Patterns.{begins_with_dot, part_of};
ghost use Rattle.cargo_toml_audit.specs.{Limits.IsLookFault};

use super::is_wrong;
use super::patterns::{Token, is_deep, is_pattern, matches, tokens_of};
use super::places::{begins_at, normalized, pieces, place_of};
use super::sets::picked;
use crate::limits::{LookResult, Steps};
use cargo_toml_lint::AllocResult;
use cargo_toml_parts::paths::join;
use std::alloc::Global;
use std::collections::BTreeMap;
use std::rt::Files;
use std::{fs, io};

/// What lies at a path.
#[derive(Debug, Clone, Copy, PartialEq, Eq)]
pub enum There {
    /// A folder, or a link to one.
    Folder,
    /// Something else: a file, or a link that leads nowhere.
    Other,
    /// Nothing.
    Nothing,
    /// A link that can't be followed, as one that leads to itself.
    Unseen,
    /// It can't even be told whether something lies there, as in a folder that is denied.
    Unknown,
}

/// What lies in a folder, as far as it could be read.
#[derive(Debug, Drop)]
pub struct Listing {
    /// The names.
    pub names: Vec<String>,
    /// Whether all could be read.
    pub is_whole: bool,
}

/// What the system answered of paths. It is asked once of each.
#[derive(Debug, Drop)]
pub struct Looks {
    /// What lies at a path.
    pub there: BTreeMap<String, There>,
    /// What lies in a folder.
    pub names: BTreeMap<String, Listing>,
}

/// What the system answers through a runtime. It is asked once of each path.
#[derive(Drop)]
pub struct Looking<'a, R> {
    /// The runtime.
    pub rt: &'a R,
    /// What was answered.
    pub looks: Looks,
    /// The steps that are left: one for a byte of a path that is asked for, and for a name that is
    /// compared 256, and one for each part of the pattern.
    pub steps: Steps,
}

impl<'a, R: Files + AllocGlobal> Looking<'a, R> {
    /// Nothing was asked yet.
    pub fn new(rt: &'a R) -> Looking<'a, R>
        ensures there { IsEmpty result.looks.there }
        ensures names { IsEmpty result.looks.names }
    {
        let looks = Looks {
            there: BTreeMap::new(rt.alloc()),
            names: BTreeMap::new(rt.alloc()),
        };
        let steps = Steps::new();
        Looking { rt, looks, steps }
    }

    /// What lies at a path.
    pub fn look_at(&mut self, path: &str) -> LookResult<There>
        ensures told { IfOk result (λ t. Tells (λ d. d.there path.now)
            self.old.looks self.new.looks t) }
        ensures steps { self.new.steps.left ≡ self.old.steps.left - length path.now }
        ensures refused { IfErr result (IsLookFault self.new.steps.left) }
    {
        self.steps.take(path.len())?;
        if let Some(there) = self.looks.there.get(path) {
            return Ok(*there);
        }
        let there = asked(self.rt, path);
        self.looks
            .there
            .insert(String::from_str(self.rt.alloc(), path)?, there)?;
        Ok(there)
    }

    /// The names of what lies in a folder, as far as it can be read.
    fn names_in(&mut self, folder: &str) -> LookResult<Vec<String>>
        ensures told { IfOk result (λ names. Tells (λ d. d.names folder.now)
            self.old.looks self.new.looks (map string_bytes names.items)) }
        ensures refused { IfErr result (IsLookFault self.new.steps.left) }
    {
        if let Some(listing) = self.looks.names.get(folder) {
            return Ok(listing.names.clone()?);
        }
        let listing = listed_in(self.rt, folder)?;
        let names = listing.names.clone()?;
        self.looks
            .names
            .insert(String::from_str(self.rt.alloc(), folder)?, listing)?;
        Ok(names)
    }

    /// The places that the entries of a list in `root` lead to, one entry after the other, each
    /// once an entry. One that Cargo can't read leads nowhere.
    pub fn listed(&mut self, root: &str, entries: &[String]) -> LookResult<Vec<String>>
        ensures told { IfOk result (λ places. Tells
            (λ d. flat_map (places_once d root.now) (map string_bytes entries.now))
            self.old.looks self.new.looks (map string_bytes places.items)) }
        ensures refused { IfErr result (IsLookFault self.new.steps.left) }
    {
        let mut all = Vec::new(self.rt.alloc());
        for entry in entries {
            let places = self.places_of_entry(root, entry.as_str())?;
            let mut once = picked(self.rt.alloc(), places.as_slice(), false)?;
            all.append(&mut once)?;
        }
        Ok(all)
    }

    /// The places that an entry of a list in `root` leads to: folders that its names stand for.
    /// Where nothing lies there, it stands for itself. One that Cargo can't read leads nowhere.
    pub fn places_of_entry(&mut self, root: &str, entry: &str) -> LookResult<Vec<String>>
        ensures told { IfOk result (λ places. Tells (λ d. places_if_right d root.now entry.now)
            self.old.looks self.new.looks (map string_bytes places.items)) }
        ensures refused { IfErr result (IsLookFault self.new.steps.left) }
    {
        let alloc = self.rt.alloc();
        let mut places = Vec::new(alloc);
        if is_wrong(alloc, entry)? {
            return Ok(places);
        }
        let names = pieces(alloc, entry)?;
        let found = self.led((begins_at(root, entry), false), names.as_slice())?;
        if found.is_empty() {
            places.push(place_of(alloc, root, entry)?)?;
            return Ok(places);
        }
        for path in found.as_slice() {
            if self.look_at(path.as_str())? == There::Folder {
                places.push(normalized(alloc, path.as_str(), false)?)?;
            }
        }
        Ok(places)
    }

    /// What names lead to from a path, right behind `**` where that is set. `**` leads no further,
    /// nor does the empty name right behind it where no other follows.
    fn led(&mut self, from: (&str, bool), names: &[&str]) -> LookResult<Vec<String>>
        ensures told { IfOk result (λ paths. Tells
            (λ d. led d from.entry.1 (map (λ t. t.now) names.now) from.entry.0.now)
            self.old.looks self.new.looks (map string_bytes paths.items)) }
        ensures refused { IfErr result (IsLookFault self.new.steps.left) }
    {
        let Some((name, others)) = names.split_first() else {
            return self.ended(from);
        };
        if is_deep(*name) || (from.1 && name.is_empty() && others.is_empty()) {
            return self.led((from.0, true), others);
        }
        let next = self.further(from, *name)?;
        let mut all = Vec::new(self.rt.alloc());
        for path in next.as_slice() {
            let mut paths = self.led((path.as_str(), false), others)?;
            all.append(&mut paths)?;
        }
        Ok(all)
    }

    /// Where names end: the path itself, or behind `**` each folder below it.
    fn ended(&mut self, from: (&str, bool)) -> LookResult<Vec<String>>
        ensures told { IfOk result (λ paths. Tells (λ d. ended d from.entry.1 from.entry.0.now)
            self.old.looks self.new.looks (map string_bytes paths.items)) }
        ensures refused { IfErr result (IsLookFault self.new.steps.left) }
    {
        if from.1 {
            return self.all_below(from.0);
        }
        let mut all = Vec::new(self.rt.alloc());
        all.push(String::from_str(self.rt.alloc(), from.0)?)?;
        Ok(all)
    }

    /// What a name leads to from a path: right behind `**`, from that and from each folder below
    /// it.
    fn further(&mut self, from: (&str, bool), name: &str) -> LookResult<Vec<String>>
        ensures told { IfOk result (λ all. Tells
            (λ d. further d from.entry.1 name.now from.entry.0.now)
            self.old.looks self.new.looks (map string_bytes all.items)) }
        ensures refused { IfErr result (IsLookFault self.new.steps.left) }
    {
        let mut all = self.further_in(from, name)?;
        if !from.1 {
            return Ok(all);
        }
        let folders = self.all_below(from.0)?;
        for folder in folders.as_slice() {
            let mut paths = self.further_in((folder.as_str(), true), name)?;
            all.append(&mut paths)?;
        }
        Ok(all)
    }

    /// What a name leads to in a folder. One that is no pattern stands for itself, except right
    /// behind `**`, where it is compared with the names there.
    fn further_in(&mut self, from: (&str, bool), name: &str) -> LookResult<Vec<String>>
        ensures told { IfOk result (λ all. Tells
            (λ d. further_in d from.entry.1 name.now from.entry.0.now)
            self.old.looks self.new.looks (map string_bytes all.items)) }
        ensures refused { IfErr result (IsLookFault self.new.steps.left) }
    {
        let mut all = Vec::new(self.rt.alloc());
        if !from.1 && !is_pattern(name) {
            let path = join(self.rt.alloc(), from.0, name)?;
            if !is_nothing(self.look_at(path.as_str())?) {
                all.push(path)?;
            }
            return Ok(all);
        }
        let Some(pattern) = tokens_of(self.rt.alloc(), name)? else {
            return Ok(all);
        };
        self.matched(from, pattern.as_slice())
    }

    /// What lies in a folder and has a name that the pattern matches.
    fn matched(&mut self, from: (&str, bool), pattern: &[Token]) -> LookResult<Vec<String>>
        ensures told { IfOk result (λ all. Tells
            (λ d. matched d from.entry.1 (map part_of pattern.now) from.entry.0.now)
            self.old.looks self.new.looks (map string_bytes all.items)) }
        ensures refused { IfErr result (IsLookFault self.new.steps.left) }
    {
        if self.look_at(from.0)? != There::Folder {
            return Ok(Vec::new(self.rt.alloc()));
        }
        let names = self.names_in(from.0)?;
        let steps = pattern.len().saturating_add(256);
        self.steps.take(names.len().saturating_mul(steps))?;
        let names = with_dots(self.rt.alloc(), names, pattern, from.1)?;
        Ok(named_so(self.rt.alloc(), from.0, pattern, names.as_slice())?)
    }

    /// The folders below one.
    #[tactic(auto, unfolding(crate::specs::MemberFolders::all_below))]
    fn all_below(&mut self, folder: &str) -> LookResult<Vec<String>>
        ensures told { IfOk result (λ all. Tells (λ d. all_below d folder.now)
            self.old.looks self.new.looks (map string_bytes all.items)) }
        ensures refused { IfErr result (IsLookFault self.new.steps.left) }
    {
        self.below(folder, MAX_DEPTH)
    }

    /// The folders below one, so many levels of them, each before those below it.
    #[tactic(auto, using(crate::proofs::Walked::below_more))]
    fn below(&mut self, folder: &str, levels: usize) -> LookResult<Vec<String>>
        ensures told { IfOk result (λ all. Tells (λ d. below d levels folder.now)
            self.old.looks self.new.looks (map string_bytes all.items)) }
        ensures refused { IfErr result (IsLookFault self.new.steps.left) }
    {
        let mut all = Vec::new(self.rt.alloc());
        if levels == 0 {
            return Ok(all);
        }
        let folders = self.subfolders(folder)?;
        for next in folders.as_slice() {
            let mut paths = self.below(next.as_str(), levels - 1)?;
            all.push(String::from_str(self.rt.alloc(), next.as_str())?)?;
            all.append(&mut paths)?;
        }
        Ok(all)
    }

    /// The folders that lie right in one.
    fn subfolders(&mut self, folder: &str) -> LookResult<Vec<String>>
        ensures told { IfOk result (λ all. Tells (λ d. subfolders d folder.now)
            self.old.looks self.new.looks (map string_bytes all.items)) }
        ensures refused { IfErr result (IsLookFault self.new.steps.left) }
    {
        let mut all = Vec::new(self.rt.alloc());
        if self.look_at(folder)? != There::Folder {
            return Ok(all);
        }
        let names = self.names_in(folder)?;
        for name in names.as_slice() {
            let path = join(self.rt.alloc(), folder, name.as_str())?;
            if self.look_at(path.as_str())? == There::Folder {
                all.push(path)?;
            }
        }
        Ok(all)
    }
}

/// How many folders deep `**` looks. The system takes no path that goes deeper.
const MAX_DEPTH: usize = 2048;

fn asked<R: Files>(rt: &R, path: &str) -> There {
    match fs::metadata(rt, path) {
        Ok(found) => of_found(&found),
        Err(fault) => of_link(fault.kind(), fs::symlink_metadata(rt, path)),
    }
}

/// What lies at a path of which the system answers this.
fn of_found(found: &fs::Metadata) -> There
    ensures { result ≡ by_found found.now }
{
    if found.is_dir() {
        There::Folder
    } else {
        There::Other
    }
}

/// The same where it can't follow the path: by why it can't, and by its answer of a link there.
fn of_link(kind: io::ErrorKind, link: io::Result<fs::Metadata>) -> There
    ensures { result ≡ by_link (is_absent kind) link }
{
    match link {
        Ok(_) if is_absent(kind) => There::Other,
        Ok(_) => There::Unseen,
        Err(fault) if is_absent(fault.kind()) => There::Nothing,
        Err(_) => There::Unknown,
    }
}

/// Whether a name that is no pattern leads nowhere, by what lies there.
fn is_nothing(there: There) -> bool
    ensures { result ≡ is_nothing there }
{
    matches!(there, There::Nothing | There::Unknown)
}

/// Whether what is there can't be looked at.
pub fn is_unseen(there: There) -> bool
    ensures { result ≡ is_unseen there }
{
    matches!(there, There::Unseen | There::Unknown)
}

/// Whether nothing lies at a path that fails so: a name is missing, or it leads through a file.
pub fn is_absent(kind: io::ErrorKind) -> bool
    ensures { result ≡ is_absent kind }
{
    matches!(kind, io::ErrorKind::NotFound | io::ErrorKind::NotADirectory)
}

/// Reads the names of what lies in a folder. One that is no UTF-8 can't be read.
fn listed_in<R: Files + AllocGlobal>(rt: &R, folder: &str) -> AllocResult<Listing> {
    let mut names = Vec::new(rt.alloc());
    let mut is_whole = true;
    let Ok(entries) = fs::read_dir(&rt, folder) else {
        return Ok(Listing {
            names,
            is_whole: false,
        });
    };
    for entry in entries {
        match entry {
            Ok(entry) => names.push(String::from_str(rt.alloc(), entry.file_name())?)?,
            Err(_) => is_whole = false,
        }
    }
    Ok(Listing { names, is_whole })
}

/// The names, and `.` and `..` where the pattern begins with a dot, not right behind `**`.
fn with_dots(
    alloc: Global,
    names: Vec<String>,
    pattern: &[Token],
    is_behind: bool,
) -> AllocResult<Vec<String>>
    ensures { IfOk result (λ all. map string_bytes all.items
        ≡ with_dots (not is_behind && begins_with_dot (map part_of pattern.now))
        (map string_bytes names.items)) }
{
    let mut names = names;
    if !is_behind && matches!(pattern, [Token::Just('.'), ..]) {
        names.push(String::from_str(alloc, ".")?)?;
        names.push(String::from_str(alloc, "..")?)?;
    }
    Ok(names)
}

/// The paths of those names in a folder that the pattern matches.
fn named_so(
    alloc: Global,
    folder: &str,
    pattern: &[Token],
    names: &[String],
) -> AllocResult<Vec<String>>
    ensures { IfOk result (λ all. map string_bytes all.items
        ≡ named_so folder.now (map part_of pattern.now) (map string_bytes names.now)) }
{
    let mut all = Vec::new(alloc);
    for name in names {
        let name = name.as_str();
        if matches(alloc, pattern, name)? {
            all.push(join(alloc, folder, name)?)?;
        }
    }
    Ok(all)
}
