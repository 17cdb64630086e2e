//! `cargo-toml features FILE` prints what the features of a manifest enable, with `--max N` before
//! FILE at a limit of N items, and `cargo-toml complete FILE` what is found around it.
#![tactic(auto)]

ghost use Rattle.std.specs.Prelude.{◌≤◌};

use cargo_toml_parts::Error;
use cargo_toml_program::{Command, Outcome, command, print_completed, print_features};
use std::env::FillError;
use std::process::ExitCode;
use std::rt::{Env, Files};
use std::{env, fs, io};

/// What `--help` prints. `docs/help` keeps it, too.
const HELP: &str = "\
Prints the features of a Cargo.toml, or what Cargo finds around it

Usage: cargo-toml features [--max N] FILE
       cargo-toml complete FILE

Arguments:
  FILE  A manifest

Options:
      --max <N>  How many items count, from 1 to 65535 [default: 2048]
  -h, --help     Print help
  -V, --version  Print version

Statuses: 0 done; 1 the file can't be read or is refused, or the output can't be written;
2 no command.
";

/// What `--version` prints.
const VERSION: &str = "cargo-toml 1.0.1+1\n";

/// The environment, where the program's own name is empty. That is no word, and need not be text.
#[derive(Drop)]
struct Unnamed<'a, R>(&'a R);

impl<R: Env> Env for Unnamed<'_, R> {
    fn arg(&self, i: usize, buf: &mut [u8]) -> Result<usize, FillError> {
        if i == 0 { Ok(0) } else { self.0.arg(i, buf) }
    }

    fn var(&self, name: &str, buf: &mut [u8]) -> Result<usize, FillError> {
        self.0.var(name, buf)
    }

    fn var_at(&self, i: usize, buf: &mut [u8]) -> Result<usize, FillError> {
        self.0.var_at(i, buf)
    }
}

/// Prints the features of the manifest in a file, at this limit of items.
fn features<R: Files + Print + AllocGlobal>(
    rt: &R,
    file: &str,
    max_items: usize,
) -> Result<(), Error>
    requires { 1 ≤ max_items }
{
    let mut input = fs::open(rt, file)?;
    let mut output = io::writer(rt);
    print_features(rt.alloc(), &mut input, &mut output, max_items)
}

/// The words of the command line without the program's own name.
fn words<R: Env + AllocGlobal>(rt: &R) -> io::Result<Vec<String>> {
    let named = (Unnamed(rt), rt.alloc());
    Ok(env::args(&named)?.skip(1).collect(rt.alloc())?)
}

/// The text that the words ask for, where they are no command, but ask for help or the version.
fn asked_text(words: &[String]) -> Option<&'static str> {
    let [word] = words else {
        return None;
    };
    match word.as_str() {
        "-h" | "--help" => Some(HELP),
        "-V" | "--version" => Some(VERSION),
        _ => None,
    }
}

/// What the program is asked to do, done.
fn run<R: Env + Files + Print + AllocGlobal>(rt: &R) -> Outcome {
    let words = match words(rt) {
        Ok(words) => words,
        Err(fault) => return Outcome::of_words(fault),
    };
    if let Some(text) = asked_text(words.as_slice()) {
        return Outcome::of_command(print!(rt; "{text}").map_err(Error::from));
    }
    match command(words.as_slice()) {
        Some(Command::Features(file, max_items)) => {
            Outcome::of_command(features(rt, file, max_items))
        }
        Some(Command::Complete(file)) => {
            Outcome::of_command(print_completed(rt, file, &mut io::writer(rt)))
        }
        None => Outcome::NotACommand,
    }
}

fn main(rt: HostRuntime) -> ExitCode {
    let outcome = run(&rt);
    let _ = eprint!(rt; "{outcome}");
    ExitCode::from(outcome.status())
}
