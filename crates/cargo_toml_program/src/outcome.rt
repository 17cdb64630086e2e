//! How a run of the program ends, and what it writes on standard error then.
ghost use Rattle.std.specs.{Fmt.DisplaysOnOk, Prelude.◌≡◌};
ghost use Rattle.cargo_toml_parts.specs.OwnWords.{WritesSome};
ghost use Rattle.cargo_toml_program.specs.Outcomes.{HasOutcomeWords, IsOfWords, outcome_of};
ghost use Rattle.cargo_toml_program.specs.Outcomes.{exit_status, text_of_outcome};

use cargo_toml_parts::Error;
use std::{fmt, io};

/// How a run of the program ended.
#[derive(Debug, Drop)]
pub enum Outcome {
    /// What was asked for is done.
    Done,
    /// It was refused with this fault.
    Refused(Error),
    /// The words of the command line are no command.
    NotACommand,
}

impl Outcome {
    /// What ends a run whose command was done or refused.
    pub fn of_command(done: Result<(), Error>) -> Outcome
        ensures { result ≡ outcome_of done }
    {
        match done {
            Ok(()) => Outcome::Done,
            Err(fault) => Outcome::Refused(fault),
        }
    }

    /// What ends a run whose words couldn't be had: there was no memory for them, or one
    /// of them is no text.
    pub fn of_words(fault: io::Error) -> Outcome
        ensures { IsOfWords fault result }
    {
        match Error::from(fault) {
            Error::Memory => Outcome::Refused(Error::Memory),
            _ => Outcome::NotACommand,
        }
    }

    /// The status that the program ends with.
    pub fn status(&self) -> u8
        ensures { result ≡ exit_status self.now }
    {
        match self {
            Outcome::Done => 0,
            Outcome::Refused(_) => 1,
            Outcome::NotACommand => 2,
        }
    }
}

/// What is written on standard error: nothing where all is done; `error: `, the fault and a line
/// feed where it was refused; and else a line that says how the program is called. A fault of
/// `toml` has several lines. It takes no memory, since refused memory is reported in the same way.
impl fmt::Display for Outcome {
    ghost output = { text_of_outcome };

    fn fmt<W: fmt::Write>(&self, f: &mut fmt::Formatter<W>) -> fmt::Result
        ensures writes { DisplaysOnOk W.write_str_gives f.old result
            (text_of_outcome self.now) f.new }
        ensures words { WritesSome W.write_str_gives f.old result
            (HasOutcomeWords self.now) f.new }
    {
        match self {
            Outcome::Done => Ok(()),
            Outcome::Refused(fault) => {
                f.write_str("error: ")?;
                fault.fmt(f)?;
                f.write_str("\n")
            }
            Outcome::NotACommand => {
                f.write_str("usage: cargo-toml features [--max N] FILE | complete FILE\n")
            }
        }
    }
}
