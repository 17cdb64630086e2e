//! What comes of requests about files and folders.
mod indexing;

use crate::names::{Name, add_listed, name_of};
use crate::workspace::{members, path_of, report_text, unread_above};
use cargo_toml::Error;
use cargo_toml_check::check::{check_lines, is_no_text, no_text_line, refusal_lines};
use cargo_toml_check::files::{features_of, json_of, toml_of};
use cargo_toml_check::lint;
use cargo_toml_check::registry::gathering::Lines;
use cargo_toml_check::registry::require_folder;
use cargo_toml_check::registry::sums::checksums;
use cargo_toml_tools::files::{Source, document_text, text_in};
use cargo_toml_tools::{Inputs, Outcome, Request};
use std::collections::BTreeMap;
use std::fmt::Display;
use std::io::Read;
use std::random::RandomSource;
use std::rt::{Clock, Files};
use std::time::Instant;
use std::{fs, io};

/// What came of a request, unless the output can't be written.
type Answer = io::Result<Outcome>;

/// A run over files.
#[derive(Drop)]
pub(crate) struct Run<'a, R> {
    rt: &'a R,
    /// When it began, if a terminal is told how far it is.
    began: Option<Instant>,
    files: usize,
    done: usize,
    /// The tenth of a second in which the terminal was told so, or 0 where no words stand there.
    told: u128,
    /// The lines of an index that were made.
    lines: Lines,
}

impl<'a, R: Files + Input + Print + Eprint + RandomSource + Clock + AllocGlobal> Run<'a, R> {
    /// A run that begins now. Where `shows` is set, a terminal is told how far it is.
    pub(crate) fn new(rt: &'a R, shows: bool) -> io::Result<Run<'a, R>> {
        let began = if shows { Some(Instant::now(rt)?) } else { None };
        Ok(Run {
            rt,
            began,
            files: 0,
            done: 0,
            told: 0,
            lines: Lines::new(rt.alloc()),
        })
    }

    /// Does what is asked with each file, and answers the worst that came of one.
    pub(crate) fn answer_each(&mut self, request: &Request<'_>, inputs: &Inputs<'_>) -> Answer {
        let alloc = self.rt.alloc();
        let mut lines = String::new(alloc);
        let mut layout = None;
        if let Request::Index(_, wanted) = request {
            if let Some(folder) = wanted.layout {
                if let Err(fault) = require_folder(self.rt, folder) {
                    return self.refuse(folder, "", fault);
                }
                layout = Some((folder, wanted));
            }
            if let Some(file) = wanted.checksums {
                match text_of(self.rt, file) {
                    Ok(text) => lines = text,
                    Err(fault) => return self.refuse(file, "", fault),
                }
            }
        }
        let sums = checksums(alloc, lines.as_str())?;
        let mut outcome = Outcome::Done;
        let files = self.files_of(inputs, &mut outcome)?;
        self.files = files.len();
        for name in &files {
            outcome = outcome.max(match name {
                Name::File(file) => self.answer_one(request, &sums, file.as_str())?,
                Name::Refused(line) => self.tell(line.as_str())?,
            });
        }
        if let Some((folder, wanted)) = layout {
            outcome = outcome.max(self.lay_out(folder, wanted)?);
        }
        self.clear()?;
        Ok(outcome)
    }

    /// The names of the files that are meant. What is refused goes into the outcome.
    fn files_of(&mut self, inputs: &Inputs<'_>, outcome: &mut Outcome) -> io::Result<Vec<Name>> {
        let alloc = self.rt.alloc();
        let mut files = Vec::new(alloc);
        for file in &inputs.files {
            files.push(name_of(alloc, *file)?)?;
        }
        if let Some(from) = inputs.from {
            match bytes_of(self.rt, from) {
                Ok(bytes) => add_listed(&mut files, from, bytes.as_slice(), inputs.null)?,
                Err(fault) => *outcome = self.refuse(from, "", fault)?,
            }
        }
        if let Some(folder) = inputs.workspace {
            match members(self.rt, folder, self.began.is_some()) {
                Ok(found) => files.extend(found.into_iter().map(Name::File))?,
                Err(fault) => match unread_above(self.rt, folder, &fault)? {
                    Some(file) => files.push(Name::File(file))?,
                    None => *outcome = self.refuse(folder, "", fault)?,
                },
            }
        }
        Ok(files)
    }

    /// Does what is asked with one file.
    fn answer_one(
        &mut self,
        request: &Request<'_>,
        sums: &BTreeMap<&str, &str>,
        file: &str,
    ) -> Answer {
        self.step()?;
        let read = match text_of(self.rt, file) {
            Ok(text) => text,
            Err(fault) => return self.refuse_unread(request, file, fault),
        };
        let text = read.as_str();
        if let Request::Index(inputs, wanted) = request {
            let path = path_of(self.rt, file)?;
            let source = Source {
                path: path.as_str(),
                text,
                is_alone: inputs.alone,
            };
            return self.index(wanted, sums, file, source);
        }
        match made_of(self.rt, request, file, text) {
            Ok((made, odd)) => self.put(made.as_str(), odd),
            Err(fault) => self.refuse(file, text, fault),
        }
    }

    /// The report on the workspace around a folder.
    pub(crate) fn audit(&mut self, folder: &str, as_json: bool) -> Answer {
        match report_text(self.rt, folder, as_json, self.began.is_some()) {
            Ok((text, odd)) => self.put(text.as_str(), odd),
            Err(fault) => match unread_above(self.rt, folder, &fault)? {
                Some(file) => {
                    let nothing = String::new(self.rt.alloc());
                    let text = text_of(self.rt, file.as_str()).unwrap_or(nothing);
                    self.refuse(file.as_str(), text.as_str(), fault)
                }
                None => self.refuse(folder, "", fault),
            },
        }
    }

    /// Tells why a file can't be read. For `check` and `lint` bytes that are no text are a finding.
    fn refuse_unread(&mut self, request: &Request<'_>, file: &str, fault: Error) -> Answer {
        let alloc = self.rt.alloc();
        let line = match request {
            Request::Check(_) if is_no_text(&fault) => no_text_line(alloc, file)?,
            Request::Lint(_, judging) if is_no_text(&fault) => {
                lint::no_text_line(alloc, file, judging)?
            }
            _ => return self.refuse(file, "", fault),
        };
        self.put(line.as_str(), true)
    }

    /// Tells why there is no file.
    fn tell(&mut self, line: &str) -> Answer {
        self.step()?;
        self.clear()?;
        eprint!(self.rt; "{line}")?;
        Ok(Outcome::Refused)
    }

    /// Writes what came of a file.
    fn put(&mut self, text: &str, odd: bool) -> Answer {
        self.clear()?;
        self.rt.write_all(text.as_bytes())?;
        Ok(if odd { Outcome::Odd } else { Outcome::Done })
    }

    /// Tells why a file is refused, of which this text is read.
    fn refuse<F: Display + Drop>(&mut self, file: &str, text: &str, fault: F) -> Answer {
        self.clear()?;
        let alloc = self.rt.alloc();
        let words = format!(in alloc; "{fault}")?;
        let lines = refusal_lines(alloc, file, text, words.as_str())?;
        eprint!(self.rt; "{lines}")?;
        Ok(Outcome::Refused)
    }

    /// Tells a terminal how many files are done, where that lasts over a second.
    fn step(&mut self) -> io::Result<()> {
        if let Some(began) = self.began {
            let tenths = began.elapsed(self.rt)?.as_millis() / 100;
            if tenths > 10 && tenths != self.told {
                self.told = tenths;
                eprint!(self.rt; "\r{} of {} files", self.done, self.files)?;
            }
        }
        self.done = self.done.saturating_add(1);
        Ok(())
    }

    /// Takes back what a terminal was told.
    fn clear(&mut self) -> io::Result<()> {
        if self.told == 0 {
            return Ok(());
        }
        self.told = 0;
        eprint!(self.rt; "\r\u{1b}[K")
    }
}

/// The text of a file, or of standard input where the file is called `-`.
fn text_of<R: Files + Input + AllocGlobal>(rt: &R, file: &str) -> Result<String, Error> {
    if file != "-" {
        return text_in(rt, file);
    }
    let mut text = String::new(rt.alloc());
    rt.reader().read_to_string(&mut text)?;
    Ok(text)
}

/// The bytes of a file, or of standard input where the file is called `-`.
fn bytes_of<R: Files + Input + AllocGlobal>(rt: &R, file: &str) -> io::Result<Vec<u8>> {
    if file != "-" {
        return fs::read(rt, file);
    }
    let mut bytes = Vec::new(rt.alloc());
    rt.reader().read_to_end(&mut bytes)?;
    Ok(bytes)
}

/// What is made of the text of a file, and whether it tells something odd.
fn made_of<R: Files + RandomSource + AllocGlobal>(
    rt: &R,
    request: &Request<'_>,
    file: &str,
    text: &str,
) -> Result<(String, bool), Error> {
    let path = path_of(rt, file)?;
    let source = Source {
        path: path.as_str(),
        text,
        is_alone: request.inputs().is_some_and(|inputs| inputs.alone),
    };
    let mut line = match request {
        Request::Check(_) => return Ok(check_lines(rt, file, source)?),
        Request::Show(_, false) => return Ok((toml_of(rt, source)?, false)),
        Request::Lint(_, judging) => return lint::lint_lines(rt, file, text, judging),
        Request::Document(_, dot) => return Ok((document_text(rt, text, *dot)?, false)),
        Request::Show(_, true) => json_of(rt, source)?,
        _ => features_of(rt, source)?,
    };
    line.push_str("\n")?;
    Ok((line, false))
}
