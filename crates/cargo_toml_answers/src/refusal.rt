//! Why a call has no answer.
ghost use Rattle.std.specs.Prelude.{◌≡◌, IfOk, IfSome, string_bytes, ⊤};
ghost use Rattle.cargo_toml_answers.specs.Refused.{HasWords, IsRefusal, IsRefusalFor};
ghost use Rattle.cargo_toml_answers.specs.Refused.{TellsArgument, fault_json};
ghost use Rattle.cargo_toml_answers.specs.declared.refusal.Refusal.TheVariants as refusal;

use crate::writing::{Put, put_list, put_member, text_of, writer};
use cargo_toml::Error;
use cargo_toml_check::check::{Told, faults_in};
use cargo_toml_lint::AllocResult;
use json::Writer;
use std::alloc::{AllocError, Global};
use std::fmt::Display;

/// Why a call has no answer.
#[derive(Debug, Drop)]
pub enum Refusal {
    /// Out of memory.
    Memory,
    /// An argument isn't meant so: an object of JSON with `words`.
    Argument(String),
    /// The text is refused: an object of JSON with `words`, and with the list `faults` of what
    /// `check` finds in it.
    Text(String),
}

impl From<AllocError> for Refusal {
    ghost from_gives = { λ _ r. r ≡ refusal.Memory };

    fn from(_fault: AllocError) -> Refusal {
        Refusal::Memory
    }
}

/// The refusal of an argument, with these words.
pub(crate) fn bad_argument(alloc: Global, words: &str) -> Refusal
    ensures { IsRefusal ⊤ (λ _. ⊥) result }
{
    match argument_json(alloc, words) {
        Ok(json) => Refusal::Argument(json),
        Err(_) => Refusal::Memory,
    }
}

fn argument_json(alloc: Global, words: &str) -> AllocResult<String>
    ensures { IfOk result (λ json. TellsArgument (string_bytes json)) }
{
    let mut out = writer(alloc)?;
    out.begin_object()?;
    put_member(&mut out, "words", &words)?;
    out.end_object()?;
    text_of(out)
}

/// The refusal of a text for a fault of the library.
pub(crate) fn refuse(alloc: Global, text: &str, fault: &Error) -> Refusal
    ensures { IsRefusalFor ⊥ (λ e. e ≡ fault.now) result }
{
    match fault {
        Error::Memory => Refusal::Memory,
        _ => refuse_with(alloc, text, fault),
    }
}

/// The refusal of a text, with these words.
pub(crate) fn refuse_with<D: Display>(alloc: Global, text: &str, fault: &D) -> Refusal
    ensures { IsRefusal ⊥ (HasWords (λ words. IfSome (D.output fault.now) (λ t. words ≡ t)))
        result }
{
    match refused_json(alloc, text, fault) {
        Ok(json) => Refusal::Text(json),
        Err(_) => Refusal::Memory,
    }
}

fn refused_json<D: Display>(alloc: Global, text: &str, fault: &D) -> AllocResult<String>
    ensures { IfOk result (λ json.
        HasWords (λ words. IfSome (D.output fault.now) (λ t. words ≡ t)) (string_bytes json)) }
{
    let words = format!(in alloc; "{fault}")?;
    let faults = faults_in(alloc, text)?;
    let mut out = writer(alloc)?;
    out.begin_object()?;
    put_list(&mut out, "faults", faults.as_slice())?;
    put_member(&mut out, "words", &words.as_str())?;
    out.end_object()?;
    text_of(out)
}

impl Put for Told {
    ghost json = { fault_json };

    fn put(&self, out: &mut Writer) -> AllocResult<()> {
        out.begin_object()?;
        put_member(out, "column", &self.place.1)?;
        put_member(out, "key", &self.key.as_str())?;
        put_member(out, "line", &self.place.0)?;
        put_member(out, "words", &self.words.as_str().trim_end())?;
        out.end_object()?;
        Ok(())
    }
}
