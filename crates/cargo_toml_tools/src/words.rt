//! What the words of the command line ask for, and how a run ends.
ghost use Rattle.std.specs.Prelude.{◌≡◌, IfOk};
ghost use Rattle.std.specs.List.{list_all};
ghost use Rattle.cargo_toml_tools.specs.Asked.{IsOfOneFile, exit_status, is_checksum};
ghost use Rattle.cargo_toml_tools.specs.Asked.{is_hex_digit};

use crate::command::command;
use crate::index::{CRATES_IO, Named, Options};
use cargo_toml_lint::AllocResult;
use clap::ArgMatches;
use clap::error::ErrorKind;
use std::alloc::{AllocError, Global};

/// What the program is asked to do.
#[derive(Debug, Drop)]
pub enum Request<'a> {
    /// What keeps these manifests from being read and completed.
    Check(Inputs<'a>),
    /// These manifests once they are completed: as JSON where that is set, else as TOML.
    Show(Inputs<'a>, bool),
    /// The features of these manifests.
    Features(Inputs<'a>),
    /// The lines that an index has of these crates. A checksum is that of the only one.
    Index(Inputs<'a>, Wanted<'a>),
    /// What is amiss with these crates' features.
    Lint(Inputs<'a>, Judging<'a>),
    /// The report on the workspace in this folder: as JSON where that is set, else as lines.
    Audit(&'a str, bool),
    /// What is documented of these crates' features: as a graph where that is set, else as a page.
    Document(Inputs<'a>, bool),
    /// A text that is asked for, as the help.
    Text(String),
    /// Nothing, since the words are no command; why, and how the program is called.
    NoCommand(String),
}

/// The files that a request is about.
#[derive(Debug, Drop)]
pub struct Inputs<'a> {
    /// Those that are named.
    pub files: Vec<&'a str>,
    /// The file that names others.
    pub from: Option<&'a str>,
    /// The folder of the workspace whose members are meant.
    pub workspace: Option<&'a str>,
    /// Whether the names in the file that names others end by a NUL, not by the end of a line.
    pub null: bool,
    /// Whether each manifest is completed from itself and the names beside it alone.
    pub alone: bool,
}

/// What a word begins with that isn't UTF-8. Its bytes follow, as a line tells them. No word of the
/// system begins so, since there a NUL ends a word.
pub const NO_TEXT: char = '\0';

impl Request<'_> {
    /// The files that it is about, if it is about files.
    pub fn inputs(&self) -> Option<&Inputs<'_>> {
        match self {
            Request::Check(inputs)
            | Request::Show(inputs, _)
            | Request::Features(inputs)
            | Request::Index(inputs, _)
            | Request::Lint(inputs, _)
            | Request::Document(inputs, _) => Some(inputs),
            Request::Audit(_, _) | Request::Text(_) | Request::NoCommand(_) => None,
        }
    }
}

/// Which lines of an index are asked for, and where to.
#[derive(Debug, Drop)]
pub struct Wanted<'a> {
    /// The address of the index of the registry that the lines are for.
    pub registry: &'a str,
    /// What registries are called, each with the address of its index.
    pub names: Vec<Named<'a>>,
    /// The checksum of the only crate.
    pub checksum: Option<&'a str>,
    /// The file of checksums.
    pub checksums: Option<&'a str>,
    /// The folder of the archives whose checksums are taken.
    pub crates: Option<&'a str>,
    /// Whether what isn't published there, lacks a checksum, or has errors by lint has a line too.
    pub force: bool,
    /// Whether its file and a tab stand before each line.
    pub with_names: bool,
    /// The folder of the index.
    pub layout: Option<&'a str>,
    /// What that index is to say of where archives are loaded from.
    pub config: Option<&'a str>,
    /// The versions of crates that are yanked in that index.
    pub yanked: Vec<Release<'a>>,
    /// Those that are no longer.
    pub unyanked: Vec<Release<'a>>,
}

/// A name of a crate, and a version of it.
pub type Release<'a> = (&'a str, &'a str);

impl Wanted<'_> {
    /// The same as options.
    pub fn options(&self) -> Options<'_> {
        Options {
            registry: self.registry,
            names: self.names.as_slice(),
            checksum: self.checksum,
            folder: None,
            force: self.force,
        }
    }
}

/// How findings are judged and told.
#[derive(Debug, Drop)]
pub struct Judging<'a> {
    /// Whether an object of JSON a line is wanted.
    pub json: bool,
    /// What is passed over: `CODE` or `CODE=FEATURE` each.
    pub allowed: Vec<&'a str>,
    /// Whether hints count, too.
    pub denies_hints: bool,
}

/// What came of what was asked. Of several files the worst counts, which is the last of these.
#[derive(Clone, Copy, PartialEq, Eq, PartialOrd, Ord)]
pub enum Outcome {
    /// All is done.
    Done,
    /// All is done, and something is amiss.
    Odd,
    /// A file was refused.
    Refused,
    /// The words of the command line are no command.
    NoCommand,
}

impl Outcome {
    /// The status that the program ends with.
    pub fn status(self) -> u8
        ensures { result ≡ exit_status self }
    {
        match self {
            Outcome::Done => 0,
            Outcome::Odd => 3,
            Outcome::Refused => 1,
            Outcome::NoCommand => 2,
        }
    }
}

/// What these words ask for, of which the first is the program's own name. Behind it may stand the
/// word that Cargo hands on, `toml-tools`. A checksum is that of the only file. Words that begin
/// with [`NO_TEXT`] are no command, except as names of files.
pub fn read_request<'a>(alloc: Global, words: &'a [String]) -> AllocResult<Request<'a>>
    ensures { IfOk result IsOfOneFile }
{
    let request = requested(alloc, words)?;
    let files = request.inputs().map_or(0, |inputs| {
        inputs
            .files
            .iter()
            .filter(|file| file.starts_with(NO_TEXT))
            .count()
    });
    let all = words
        .iter()
        .filter(|word| word.as_str().starts_with(NO_TEXT))
        .count();
    if all > files {
        return refused(alloc, "a word is no text");
    }
    Ok(request)
}

fn requested<'a>(alloc: Global, words: &'a [String]) -> AllocResult<Request<'a>>
    ensures { IfOk result IsOfOneFile }
{
    match command(alloc)?.try_get_matches_from(own_words(words)) {
        Ok(matches) => request_of(alloc, &matches),
        Err(fault) => match fault.kind() {
            ErrorKind::OutOfMemory => Err(AllocError),
            ErrorKind::DisplayHelp | ErrorKind::DisplayVersion => {
                Ok(Request::Text(format!(in alloc; "{fault}")?))
            }
            _ => Ok(Request::NoCommand(format!(in alloc; "{fault}")?)),
        },
    }
}

/// The words without the one that Cargo hands on.
fn own_words(words: &[String]) -> &[String] {
    match words {
        [_, first, ..] if first.as_str() == "toml-tools" => &words[1..],
        _ => words,
    }
}

fn request_of<'a>(alloc: Global, matches: &ArgMatches<'a>) -> AllocResult<Request<'a>>
    ensures { IfOk result IsOfOneFile }
{
    let Some((name, matches)) = matches.subcommand() else {
        return refused(alloc, "no command; `--help` tells which there are");
    };
    if name == "audit" {
        let folder = matches.get_str("folder").unwrap_or(".");
        return Ok(Request::Audit(folder, matches.get_flag("json")));
    }
    let inputs = Inputs {
        files: strings(alloc, matches, "files")?,
        from: matches.get_str("files-from"),
        workspace: matches.get_str("workspace"),
        null: matches.get_flag("null"),
        alone: matches.get_flag("alone"),
    };
    if is_read_twice(&inputs, matches.get_str("checksums")) {
        return refused(alloc, "standard input, `-`, is read once");
    }
    match name {
        "check" => Ok(Request::Check(inputs)),
        "show" => Ok(Request::Show(inputs, matches.get_flag("json"))),
        "features" => Ok(Request::Features(inputs)),
        "index" => index(alloc, matches, inputs),
        "lint" => Ok(Request::Lint(inputs, judging_of(alloc, matches)?)),
        _ => Ok(Request::Document(inputs, matches.get_flag("dot"))),
    }
}

/// Whether standard input is named more than once.
fn is_read_twice(inputs: &Inputs<'_>, sums: Option<&str>) -> bool {
    let files = inputs.files.iter().filter(|file| **file == "-").count();
    let (list, sums) = (inputs.from == Some("-"), sums == Some("-"));
    files > 1 || (files == 1 && (list || sums)) || (list && sums)
}

fn refused<'a>(alloc: Global, words: &str) -> AllocResult<Request<'a>>
    ensures { IfOk result IsOfOneFile }
{
    Ok(Request::NoCommand(format!(in alloc; "error: {words}\n")?))
}

/// One checksum is asked of one file.
fn index<'a>(
    alloc: Global,
    matches: &ArgMatches<'a>,
    inputs: Inputs<'a>,
) -> AllocResult<Request<'a>>
    ensures { IfOk result IsOfOneFile }
{
    let mut names = Vec::new(alloc);
    for name in strings(alloc, matches, "registry-name")? {
        let Some(named) = name.split_once('=') else {
            return refused(alloc, "a name of a registry is NAME=URL");
        };
        names.push(named)?;
    }
    let checksum = matches.get_str("checksum");
    let is_one = inputs.files.len() == 1 && inputs.from.is_none();
    if checksum.is_some_and(|text| !is_one || !is_checksum(text)) {
        let words = "a checksum is 64 hex digits in lower case, of one FILE";
        return refused(alloc, words);
    }
    let yanked = releases(alloc, matches, "yank")?;
    let unyanked = releases(alloc, matches, "unyank")?;
    let (Some(yanked), Some(unyanked)) = (yanked, unyanked) else {
        return refused(alloc, "a version of a crate is NAME@VERSION");
    };
    let wanted = Wanted {
        registry: matches.get_str("registry").unwrap_or(CRATES_IO),
        names,
        checksum,
        checksums: matches.get_str("checksums"),
        crates: matches.get_str("crates"),
        force: matches.get_flag("force"),
        with_names: matches.get_flag("with-names"),
        layout: matches.get_str("layout"),
        config: matches.get_str("config"),
        yanked,
        unyanked,
    };
    Ok(Request::Index(inputs, wanted))
}

/// The names of crates with a version each under an option. `None` where one is not that.
fn releases<'a>(
    alloc: Global,
    matches: &ArgMatches<'a>,
    name: &str,
) -> AllocResult<Option<Vec<Release<'a>>>> {
    let mut all = Vec::new(alloc);
    for text in strings(alloc, matches, name)? {
        match text.split_once('@') {
            Some((name, version)) if !name.is_empty() && !version.is_empty() => {
                all.push((name, version))?;
            }
            _ => return Ok(None),
        }
    }
    Ok(Some(all))
}

fn judging_of<'a>(alloc: Global, matches: &ArgMatches<'a>) -> AllocResult<Judging<'a>> {
    Ok(Judging {
        json: matches.get_flag("json"),
        allowed: strings(alloc, matches, "allow")?,
        denies_hints: matches.get_str("deny").is_some(),
    })
}

fn strings<'a>(alloc: Global, matches: &ArgMatches<'a>, name: &str) -> AllocResult<Vec<&'a str>> {
    Vec::from_slice(alloc, matches.get_strs(name).unwrap_or(&[]))
}

/// Whether the text is a SHA-256 as an index writes it: 64 hex digits in lower case.
pub fn is_checksum(text: &str) -> bool
    ensures { result ≡ is_checksum text.now }
{
    text.len() == 64 && are_hex_digits(text.as_bytes())
}

/// Whether all are hex digits in lower case.
fn are_hex_digits(bytes: &[u8]) -> bool
    ensures { result ≡ list_all is_hex_digit bytes.now }
{
    bytes.iter().all(|byte| is_hex_digit(*byte))
}

fn is_hex_digit(byte: u8) -> bool
    ensures { result ≡ is_hex_digit byte }
{
    matches!(byte, b'0'..=b'9' | b'a'..=b'f')
}
