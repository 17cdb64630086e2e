//! The text of a requirement on a version, as `semver` writes it. The contracts of `semver` leave
//! it open.
ghost use Rattle.std.specs.Prelude.{◌≡◌, ◌++◌, IfOk, OnOk, string_bytes};
ghost use Rattle.semver.specs.Identifiers.{comparator_view, marked, pre_text};
ghost use Rattle.cargo_toml_parts.specs.Versions.{requirement_meaning};
ghost use Rattle.cargo_toml_write.specs.Requirements.{after_major, star_of};
ghost use Rattle.cargo_toml_write.specs.Requirements.{sign_of, comparator_text, requirement_text};

use semver::{Comparator, Op, Prerelease, VersionReq};
use std::alloc::{AllocError, Global};

/// The text of a requirement: `*` is any version. It fails only when out of memory.
pub fn requirement_text(alloc: Global, requirement: &VersionReq) -> Result<String, AllocError>
    ensures { IfOk result (λ text. string_bytes text
        ≡ requirement_text (requirement_meaning requirement.now)) }
{
    let mut text = String::new(alloc);
    let Some((first, others)) = requirement.comparators.split_first() else {
        text.push_str("*")?;
        return Ok(text);
    };
    push_comparator(&mut text, first)?;
    for other in others {
        text.push_str(", ")?;
        push_comparator(&mut text, other)?;
    }
    Ok(text)
}

// Writes a comparator: its operator's sign, and its numbers.
fn push_comparator(text: &mut String, comparator: &Comparator) -> Result<(), AllocError>
    ensures { OnOk result (string_bytes text.new ≡ string_bytes text.old
        ++ comparator_text (comparator_view comparator.now)) }
{
    let major = comparator.major;
    text.push_str(sign(comparator.op))?;
    write!(text, "{major}")?;
    push_after_major(text, comparator)
}

// What stands before the first number.
fn sign(op: Op) -> &'static str
    ensures { result.now ≡ sign_of op }
{
    match op {
        Op::Exact => "=",
        Op::Greater => ">",
        Op::GreaterEq => ">=",
        Op::Less => "<",
        Op::LessEq => "<=",
        Op::Tilde => "~",
        Op::Caret => "^",
        Op::Wildcard => "",
    }
}

// What stands for the numbers that are left out.
fn star(op: Op) -> &'static str
    ensures { result.now ≡ star_of op }
{
    match op {
        Op::Wildcard => ".*",
        _ => "",
    }
}

// Writes what follows the first number.
fn push_after_major(text: &mut String, comparator: &Comparator) -> Result<(), AllocError>
    ensures { OnOk result (string_bytes text.new ≡ string_bytes text.old
        ++ after_major (star_of comparator.now.op) comparator.now.minor comparator.now.patch
        (pre_text comparator.now.pre)) }
{
    let Some(minor) = comparator.minor else {
        return text.push_str(star(comparator.op));
    };
    write!(text, ".{minor}")?;
    let Some(patch) = comparator.patch else {
        return text.push_str(star(comparator.op));
    };
    write!(text, ".{patch}")?;
    push_pre(text, &comparator.pre)
}

// Writes what marks a version before its release, if anything does.
fn push_pre(text: &mut String, pre: &Prerelease) -> Result<(), AllocError>
    ensures { OnOk result (string_bytes text.new ≡ string_bytes text.old
        ++ marked 45 (pre_text pre.now)) }
{
    if pre.is_empty() {
        return Ok(());
    }
    text.push_str("-")?;
    text.push_str(pre.as_str())
}
