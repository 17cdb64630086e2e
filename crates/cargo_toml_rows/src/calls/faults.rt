//! What faults and outcomes print.
use crate::row::Shown;
use cargo_toml::{Error, Value};
use cargo_toml_program::Outcome;
use std::alloc::Global;
use std::io;

/// The fault that a workspace at a path, or at none, can't be loaded.
fn wrapped(alloc: Global, fault: Error, path: Option<&str>) -> Result<Error, Error> {
    let path = match path {
        Some(path) => Some(String::from_str(alloc, path)?),
        None => None,
    };
    Ok(Error::Workspace(Box::new(alloc, (fault, path))?))
}

/// What is printed of a workspace whose path isn't known.
pub fn without_path(alloc: Global) -> Shown {
    let fault = wrapped(alloc, Error::InheritedUnknownValue, None)?;
    Ok(format!(in alloc; "{fault}\n")?)
}

/// What is printed of a workspace within another.
pub fn nested(alloc: Global) -> Shown {
    let inner = wrapped(alloc, Error::Other("utf8"), Some("/w"))?;
    let fault = wrapped(alloc, inner, None)?;
    Ok(format!(in alloc; "{fault}\n")?)
}

/// What is printed of the fault at a path, of its copy, and of an outcome, with `WORDS` for what
/// the fault itself prints.
fn around(alloc: Global, fault: Error) -> Shown {
    let words = format!(in alloc; "{fault}")?;
    let outer = wrapped(alloc, fault, Some("/w"))?;
    let copy = outer.clone()?;
    let refused = Outcome::Refused(copy);
    let text = format!(in alloc; "{outer}\n{refused}")?;
    Ok(text.replace(alloc, words.as_str(), "WORDS")?)
}

/// The crate's own words before those of the system, of `toml` and of a workspace.
pub fn before_inner_words(alloc: Global) -> Shown {
    // A number of the system, which a copy that keeps the kind alone would lose.
    let absent = around(alloc, Error::from(io::Error::from_raw_os_error(2)))?;
    let unread = match Value::from_str(alloc, "[package") {
        Ok(_) => String::new(alloc),
        Err(fault) => around(alloc, Error::from(fault))?,
    };
    let integrity = Error::WorkspaceIntegrity(String::from_str(alloc, "Not a Workspace.")?);
    let integrity = around(alloc, integrity)?;
    let denied = Error::from(io::Error::from(io::ErrorKind::PermissionDenied));
    let words = format!(in alloc; "{denied}")?;
    let refused = format!(in alloc; "{}", Outcome::Refused(denied))?;
    let refused = refused.replace(alloc, words.as_str(), "WORDS")?;
    Ok(format!(in alloc; "{absent}{unread}{integrity}{refused}")?)
}

fn ended(alloc: Global, outcome: Outcome) -> Shown {
    Ok(format!(in alloc; "{outcome}status {}\n", outcome.status())?)
}

/// How runs end, and what they write then.
pub fn outcomes(alloc: Global) -> Shown {
    let done = ended(alloc, Outcome::of_command(Ok(())))?;
    let refused = ended(alloc, Outcome::of_command(Err(Error::Memory)))?;
    let no_text = ended(alloc, Outcome::of_command(Err(Error::Other("utf8"))))?;
    let usage = ended(alloc, Outcome::NotACommand)?;
    Ok(format!(in alloc; "{done}{refused}{no_text}{usage}")?)
}
