//! What comes of requests for the lines of an index, and in the files of one.
use super::{Answer, Run};
use cargo_toml::Error;
use cargo_toml_check::registry::gathering::{Gathered, Lines};
use cargo_toml_check::registry::joining::Place;
use cargo_toml_check::registry::sums::checksum_of;
use cargo_toml_check::registry::{LayoutFault, add_to_index, file_in, set_yanked, write_config};
use cargo_toml_tools::escape::{Format, push_escaped};
use cargo_toml_tools::files::{Indexed, Source, index_of};
use cargo_toml_tools::index::Options;
use cargo_toml_tools::{Outcome, Release, Wanted};
use std::collections::BTreeMap;
use std::io::ErrorKind;
use std::path::Path;
use std::random::RandomSource;
use std::rt::{Clock, Files};
use std::{io, mem};

impl<R: Files + Input + Print + Eprint + RandomSource + Clock + AllocGlobal> Run<'_, R> {
    /// The line of an index: it is printed, or kept for the index that it goes to.
    pub(super) fn index(
        &mut self,
        wanted: &Wanted<'_>,
        sums: &BTreeMap<&str, &str>,
        file: &str,
        source: Source<'_>,
    ) -> Answer {
        let folder = folder_above(source.path);
        let sum = match self.checksum_for(wanted, folder) {
            Ok(sum) => sum,
            Err((archive, fault)) => return self.refuse(archive.as_str(), "", fault),
        };
        // an archive unpacks to a folder of its own
        let is_unpacked = wanted.checksums.is_some() || wanted.crates.is_some();
        let options = wanted.options();
        let options = Options {
            checksum: options.checksum.or(sum.as_deref()),
            folder: is_unpacked.then_some(folder),
            ..options
        };
        match index_of(self.rt, source, options, sums) {
            Ok(made) => self.take_line(wanted, file, source.text, &made),
            Err(fault) => self.refuse(file, source.text, fault),
        }
    }

    /// The checksum of the archive of a folder, where a folder of archives is given. An archive
    /// that isn't there has none where lines are forced. Else its path comes with the fault.
    fn checksum_for(
        &self,
        wanted: &Wanted<'_>,
        folder: &str,
    ) -> Result<Option<String>, (String, io::Error)> {
        let Some(crates) = wanted.crates else {
            return Ok(None);
        };
        let archive = match format!(in self.rt.alloc(); "{crates}/{folder}.crate") {
            Ok(archive) => archive,
            Err(fault) => return Err((String::new(self.rt.alloc()), io::Error::from(fault))),
        };
        match checksum_of(self.rt, archive.as_str()) {
            Ok(sum) => Ok(Some(sum)),
            Err(fault) if fault.kind() == ErrorKind::NotFound && wanted.force => Ok(None),
            Err(fault) => Err((archive, fault)),
        }
    }

    /// Prints the line that was made of a file, or keeps it.
    fn take_line(&mut self, wanted: &Wanted<'_>, file: &str, text: &str, made: &Indexed) -> Answer {
        // a line begins with its checksum, since its keys stand in byte order
        let is_summed = made.line.as_str().starts_with("{\"cksum\"");
        if !is_summed && !wanted.force {
            if wanted.checksums.is_some() {
                let fault = Error::Other("the file of checksums has none of this crate");
                return self.refuse(file, text, fault);
            }
            if wanted.layout.is_some() {
                let fault = Error::Other("an index has no line without a checksum");
                return self.refuse(file, text, fault);
            }
        }
        let alloc = self.rt.alloc();
        if wanted.layout.is_some() && file_in(alloc, "", made.name.as_str())?.is_none() {
            return self.refuse(file, "", io::Error::from(ErrorKind::InvalidInput));
        }
        let keeps = wanted.layout.is_some();
        if let Err(fault) = self.lines.add(alloc, file, made.line.as_str(), keeps) {
            return self.refuse(file, text, fault);
        }
        if keeps {
            return Ok(Outcome::Done);
        }
        let mut line = String::new(alloc);
        if wanted.with_names {
            push_escaped(&mut line, file, Format::Line)?;
            line.push_str("\t")?;
        }
        line.push_str(made.line.as_str())?;
        self.put(line.as_str(), false)
    }

    /// Puts what is wanted into the index in a folder: where archives are, the lines that were
    /// kept, each file once, and what is yanked.
    pub(super) fn lay_out(&mut self, folder: &str, wanted: &Wanted<'_>) -> Answer {
        let alloc = self.rt.alloc();
        let mut outcome = Outcome::Done;
        if let Some(address) = wanted.config {
            let file = format!(in alloc; "{folder}/config.json")?;
            if let Err(fault) = write_config(self.rt, file.as_str(), address) {
                outcome = self.refuse(file.as_str(), "", fault)?;
            }
        }
        let lines = mem::replace(&mut self.lines, Lines::new(alloc));
        for (_key, gathered) in &lines.crates {
            outcome = outcome.max(self.lay_out_crate(folder, gathered)?);
        }
        for release in &wanted.yanked {
            outcome = outcome.max(self.yank(folder, *release, true)?);
        }
        for release in &wanted.unyanked {
            outcome = outcome.max(self.yank(folder, *release, false)?);
        }
        Ok(outcome)
    }

    /// Adds the lines of a crate to its file.
    fn lay_out_crate(&mut self, folder: &str, gathered: &Gathered) -> Answer {
        let name = gathered.name.as_str();
        let Some(file) = file_in(self.rt.alloc(), folder, name)? else {
            return Ok(Outcome::Done);
        };
        let lines = gathered.lines.as_slice();
        let places = match add_to_index(self.rt, file.as_str(), name, lines) {
            Ok(places) => places,
            Err(fault) => return self.refuse(file.as_str(), "", fault),
        };
        let mut outcome = Outcome::Done;
        for (source, place) in gathered.files.iter().zip(places.iter()) {
            if *place == Place::Other {
                let fault = Error::Other("the index has another line of this version");
                outcome = self.refuse(source.as_str(), "", fault)?;
            }
        }
        Ok(outcome)
    }

    /// Yanks a version in an index, or takes that back.
    fn yank(&mut self, folder: &str, release: Release<'_>, yanked: bool) -> Answer {
        let alloc = self.rt.alloc();
        let (name, version) = release;
        let done = match file_in(alloc, folder, name)? {
            Some(file) => set_yanked(self.rt, file.as_str(), release, yanked),
            None => Err(LayoutFault::NoVersion),
        };
        match done {
            Ok(()) => Ok(Outcome::Done),
            Err(fault) => {
                let told = format!(in alloc; "{name}@{version}")?;
                self.refuse(told.as_str(), "", fault)
            }
        }
    }
}

/// The name of the folder that a file is in, by its path. The empty one stands for the root.
fn folder_above(path: &str) -> &str {
    let above = Path::new(path).parent().and_then(|above| above.file_name());
    above.unwrap_or("")
}
