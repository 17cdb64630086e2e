//! What words of a command line ask for, and how the program ends, as text.
use crate::manifests::text_of;
use crate::row::Shown;
use cargo_toml::Error;
use cargo_toml_program::{Command, Outcome, command, print_completed, print_features};
use std::alloc::Global;
use std::fs;
use std::rt::Files;

/// The command that words are, with a space between two of them, or how the program ends.
pub fn answer(alloc: Global, text: &str) -> Shown {
    let mut words = Vec::new(alloc);
    for word in text.split(' ') {
        words.push(String::from_str(alloc, word)?)?;
    }
    let Some(command) = command(words.as_slice()) else {
        let outcome = Outcome::NotACommand;
        return Ok(format!(in alloc; "status {}, {outcome}", outcome.status())?);
    };
    Ok(format!(in alloc; "{command:?}")?)
}

/// A run of the program: what it prints, what it then writes on standard error, and its status.
pub fn run<R: Files + AllocGlobal>(rt: &R, words: &[String]) -> Shown {
    let alloc = rt.alloc();
    let mut output = Vec::new(alloc);
    let outcome = match command(words) {
        Some(Command::Features(file, max_items)) => Outcome::of_command(match fs::open(rt, file) {
            Ok(mut input) => print_features(alloc, &mut input, &mut output, max_items),
            Err(fault) => Err(Error::from(fault)),
        }),
        Some(Command::Complete(file)) => {
            Outcome::of_command(print_completed(rt, file, &mut output))
        }
        None => Outcome::NotACommand,
    };
    let text = text_of(alloc, output.as_slice())?;
    Ok(format!(in alloc; "{text}{outcome}status {}\n", outcome.status())?)
}
