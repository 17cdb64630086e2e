//! `cargo-toml-tools`: tools over the manifests of Cargo. `--help` tells which there are.
#![tactic(auto)]

mod names;
mod running;
mod workspace;

use cargo_toml_tools::{Outcome, Request, read_request};
use names::Texts;
use running::Run;
use std::io::IsTerminal;
use std::process::ExitCode;
use std::random::RandomSource;
use std::rt::{Clock, Env, Files};
use std::{env, io};

/// Does what is asked.
fn answer<R: Files + Input + Print + Eprint + RandomSource + Clock + AllocGlobal>(
    rt: &R,
    request: &Request<'_>,
    shows: bool,
) -> io::Result<Outcome> {
    match request {
        Request::Check(inputs)
        | Request::Show(inputs, _)
        | Request::Features(inputs)
        | Request::Index(inputs, _)
        | Request::Lint(inputs, _)
        | Request::Document(inputs, _) => Run::new(rt, shows)?.answer_each(request, inputs),
        Request::Audit(folder, as_json) => Run::new(rt, shows)?.audit(*folder, *as_json),
        Request::Text(text) => {
            println!(rt; "{}", text.as_str().trim_end()).map(|_| Outcome::Done)
        }
        Request::NoCommand(text) => eprint!(rt; "{text}").map(|_| Outcome::NoCommand),
    }
}

/// Does what the words of the command line ask for, of which the first is empty.
fn run<R: Env + Files + Input + Print + Eprint + RandomSource + Clock + AllocGlobal>(
    rt: &R,
    shows: bool,
) -> io::Result<Outcome> {
    let words: Vec<String> = match env::args(&(Texts(rt), rt.alloc())) {
        Ok(words) => words.collect(rt.alloc())?,
        Err(fault) if fault.kind() == io::ErrorKind::OutOfMemory => return Err(fault),
        Err(_) => return eprintln!(rt; "error: a word is no text").map(|_| Outcome::NoCommand),
    };
    answer(rt, &read_request(rt.alloc(), words.as_slice())?, shows)
}

fn main(rt: HostRuntime) -> ExitCode {
    let shows = rt.stderr().is_terminal();
    match run(&rt, shows) {
        Ok(outcome) => ExitCode::from(outcome.status()),
        Err(fault) => {
            let _ = eprintln!(rt; "error: {fault}");
            ExitCode::from(1)
        }
    }
}
