//! The lines that one call makes, by the crates that they are of.
use super::entries::{Line, Said, released, said_by};
use std::alloc::{AllocError, Global};
use std::collections::{BTreeMap, BTreeSet};
use std::fmt;

/// The lines of a crate.
#[derive(Debug, Drop)]
pub struct Gathered {
    /// The name of the crate.
    pub name: String,
    /// The lines that are kept, in the order in which they came.
    pub lines: Vec<Line>,
    /// Of each of these the file that it was made of.
    pub files: Vec<String>,
    /// The versions that came, without build metadata.
    versions: BTreeSet<String>,
}

/// The lines of a call, no two of one version of a crate.
#[derive(Debug, Drop)]
pub struct Lines {
    /// Those of each crate, by its name, in which neither case nor `-` and `_` differ.
    pub crates: BTreeMap<String, Gathered>,
}

/// Why a line isn't taken beside those that came before it.
#[derive(Debug, Drop)]
pub enum Clash {
    /// The crate of this name and version, without build metadata, came before.
    Twice(String, String),
    /// The crate came before by this name, which differs in case, or in `-` and `_`.
    OtherName(String),
    /// It isn't JSON with a name and a version.
    NoEntry,
    /// Out of memory.
    Memory,
}

impl From<AllocError> for Clash {
    fn from(_fault: AllocError) -> Clash {
        Clash::Memory
    }
}

impl fmt::Display for Clash {
    fn fmt<W: fmt::Write>(&self, f: &mut fmt::Formatter<W>) -> fmt::Result {
        match self {
            Clash::Twice(name, version) => {
                write!(f, "{name} {version} comes from another file before")
            }
            Clash::OtherName(name) => write!(f, "another file before has the crate as {name}"),
            Clash::NoEntry => f.write_str("the line has no name and version"),
            Clash::Memory => f.write_str("out of memory"),
        }
    }
}

impl std::error::Error for Clash {}

impl Lines {
    /// No lines.
    pub fn new(alloc: Global) -> Lines {
        Lines {
            crates: BTreeMap::new(alloc),
        }
    }

    /// Takes a line, which was made of a file, and keeps it where that is asked. Refused where its
    /// version of the crate, whatever its build metadata, or another spelling of the crate's name
    /// came before. The line is then not kept.
    pub fn add(&mut self, alloc: Global, file: &str, line: &str, keeps: bool) -> Result<(), Clash> {
        let line = line.trim_end();
        let Some(said) = said_by(alloc, line)? else {
            return Err(Clash::NoEntry);
        };
        let gathered = self.crate_of(alloc, &said)?;
        if gathered.name != said.name {
            return Err(Clash::OtherName(gathered.name.clone()?));
        }
        let version = String::from_str(alloc, released(said.version.as_str()))?;
        if gathered.versions.contains(version.as_str()) {
            return Err(Clash::Twice(said.name, version));
        }
        gathered.versions.insert(version).map_err(AllocError::from)?;
        if keeps {
            let text = String::from_str(alloc, line)?;
            gathered
                .lines
                .push(Line { text, said })
                .map_err(AllocError::from)?;
            gathered
                .files
                .push(String::from_str(alloc, file)?)
                .map_err(AllocError::from)?;
        }
        Ok(())
    }

    /// What came of the crate that a line is of.
    fn crate_of(&mut self, alloc: Global, said: &Said) -> Result<&mut Gathered, AllocError> {
        let key = said
            .name
            .to_ascii_lowercase(alloc)?
            .replace(alloc, "-", "_")?;
        let fresh = Gathered {
            name: said.name.clone()?,
            lines: Vec::new(alloc),
            files: Vec::new(alloc),
            versions: BTreeSet::new(alloc),
        };
        Ok(self.crates.entry(key)?.or_insert(fresh))
    }
}
