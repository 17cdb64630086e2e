//! Which names and texts Cargo takes.
ghost use Rattle.std.specs.Prelude.{◌≡◌, false, true};
ghost use Rattle.cargo_toml_lint.specs.Taken.{is_bad_text, is_never_required, may_follow, may_name};
ghost use Rattle.cargo_toml_lint.specs.Taken.{may_start};

use cargo_toml_features::action::split_slash;
use unicode_ident::{is_xid_continue, is_xid_start};

// Whether a name may begin with the character: a feature's with a digit, too.
fn may_start(c: char, of_feature: bool) -> bool
    ensures { result ≡ may_start of_feature c }
{
    is_xid_start(c) || c == '_' || (of_feature && c.is_ascii_digit())
}

// Whether the character may stand in a name: in a feature's `+` and `.`, too.
fn may_follow(c: char, of_feature: bool) -> bool
    ensures { result ≡ may_follow of_feature c }
{
    is_xid_continue(c) || c == '-' || (of_feature && (c == '+' || c == '.'))
}

// Whether Cargo takes the text for a name: of a feature where that is set, and else of a package.
fn may_name(name: &str, of_feature: bool) -> bool
    ensures { result ≡ may_name of_feature name.now }
{
    let first = name.chars().next();
    let begins = first.is_some_and(|c| may_start(c, of_feature));
    begins & name.chars().all(|c| may_follow(c, of_feature))
}

/// Whether Cargo takes the text for a feature's name.
pub fn is_feature_name(name: &str) -> bool
    ensures { result ≡ may_name true name.now }
{
    may_name(name, true)
}

/// Whether Cargo takes the text for a package's name.
pub fn is_package_name(name: &str) -> bool
    ensures { result ≡ may_name false name.now }
{
    may_name(name, false)
}

/// Whether the text is of no form that Cargo knows in a feature's list.
pub(crate) fn is_bad_text(text: &str) -> bool
    ensures { result ≡ is_bad_text text.now }
{
    let parts = split_slash(text);
    let bytes = text.as_bytes();
    match parts.1 {
        Some(feature) => bytes.starts_with(b"dep:".as_slice()) | !is_feature_name(feature),
        None => bytes.ends_with(b"?".as_slice()),
    }
}

/// Whether Cargo refuses a target that requires the text.
pub(crate) fn is_never_required(text: &str) -> bool
    ensures { result ≡ is_never_required text.now }
{
    let parts = split_slash(text);
    match parts.1 {
        Some(_) => parts.0.as_bytes().ends_with(b"?".as_slice()),
        None => text.as_bytes().starts_with(b"dep:".as_slice()),
    }
}
