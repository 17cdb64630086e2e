//! What isn't passed byte by byte: the mark of the encoding, strings, headers, and runs of bytes
//! that change nothing.
ghost use Rattle.std.specs.Prelude.{◌≡◌, ◌≤◌, ◌-◌, ℕ, IfOk, IfSome, Some, false, length};
ghost use Rattle.std.specs.Prelude.{option_map};
ghost use Rattle.std.specs.{Prelude.true, List.prefix_len};
ghost use Rattle.cargo_toml_depth.specs.Nesting as spec;
ghost use Rattle.cargo_toml_depth.specs.{Nesting.Place, Places.is_plain};
ghost use Rattle.toml.specs.Parse.{skip_bom};
ghost use Rattle.toml_parser.specs.Strings as strings;

use std::alloc::{AllocError, Global};
use toml_parser::bytes::{is_bare, is_non_eol, is_ws};
use toml_parser::text::{byte_at, first, skip, skip_ws};
use toml_parser::{ParseError, dotted_key, quoted};

/// The key of a header, counted.
#[derive(Clone, Copy)]
pub(crate) struct Header {
    pub parts: usize,
    /// Whether the header is one of an array of tables.
    pub is_of_array: bool,
}

/// What follows the mark of the encoding, if a text begins with it.
pub(crate) fn after_mark(text: &str) -> &str
    ensures { result.now ≡ skip_bom text.now }
{
    if first(text) == 0xEF && byte_at(text, 1) == 0xBB && byte_at(text, 2) == 0xBF {
        &text[3..]
    } else {
        text
    }
}

/// Whether a byte outside of strings and comments changes nothing: it is one of a bare key or
/// value, or a blank.
fn is_plain(byte: u8) -> bool
    ensures { result ≡ is_plain byte }
{
    is_bare(byte) || is_ws(byte)
}

/// How many bytes at the front change nothing.
fn plain_len(bytes: &[u8]) -> usize
    ensures { result ≡ prefix_len is_plain bytes.now }
{
    bytes.iter().take_while(|byte| is_plain(**byte)).count()
}

/// How many bytes at the front change nothing, and what follows them.
pub(crate) fn past_plain(text: &str) -> (usize, &str)
    ensures { (n : ℕ) (p : Place) → spec.gets_too_deep n p text.now
        ≡ spec.gets_too_deep (n - result.0) p result.1.now }
{
    let count = plain_len(text.as_bytes());
    (count, &text[count..])
}

/// Whether a byte stands for itself in a string of one line.
fn is_content(byte: u8, delim: u8) -> bool
    ensures { result ≡ strings.is_plain delim false byte }
{
    byte != delim && !(byte == b'\\' && delim == b'"') && is_non_eol(byte)
}

/// How many bytes at the front stand for themselves in a string of one line.
fn content_len(bytes: &[u8], delim: u8) -> usize
    ensures len { result ≡ prefix_len (strings.is_plain delim false) bytes.now }
    ensures within { result ≤ length bytes.now }
{
    bytes
        .iter()
        .take_while(|byte| is_content(**byte, delim))
        .count()
}

/// What follows a string of one line whose bytes all stand for themselves, or `None` where the text
/// begins with another string.
fn after_literal(text: &str) -> Option<&str>
    requires { spec.starts_string text.now ≡ true }
    ensures { IfSome result (λ rest. spec.after_string text.now ≡ Some rest.now) }
{
    let delim = first(text);
    if byte_at(text, 1) == delim && byte_at(text, 2) == delim {
        return None;
    }
    let inner = skip(text, 1);
    let count = content_len(inner.as_bytes(), delim);
    if byte_at(inner, count) == delim {
        Some(skip(inner, count + 1))
    } else {
        None
    }
}

/// What follows the string that a text begins with, or `None` where that is no string.
pub(crate) fn after_string(alloc: Global, text: &str) -> Result<Option<&str>, AllocError>
    requires { spec.starts_string text.now ≡ true }
    ensures { IfOk result (λ after. option_map (λ rest. rest.now) after
        ≡ spec.after_string text.now) }
{
    if let Some(rest) = after_literal(text) {
        return Ok(Some(rest));
    }
    match quoted(alloc, text) {
        Ok((_, rest)) => Ok(Some(rest)),
        Err(ParseError::OutOfMemory) => Err(AllocError),
        Err(_) => Ok(None),
    }
}

/// The header that a text begins with and what follows its key, or `None` where that is no key.
pub(crate) fn header_of(alloc: Global, text: &str) -> Result<Option<(Header, &str)>, AllocError>
    requires { spec.first text.now ≡ spec.left_bracket }
    ensures { IfOk result (λ found. option_map (λ h. (h.0.parts, h.0.is_of_array, h.1.now)) found
        ≡ spec.header text.now) }
{
    let is_of_array = byte_at(text, 1) == b'[';
    let key = if is_of_array {
        skip(text, 2)
    } else {
        skip(text, 1)
    };
    match dotted_key(alloc, skip_ws(key)) {
        Ok((key, rest)) => {
            let parts = key.path.len().saturating_add(1);
            Ok(Some((Header { parts, is_of_array }, rest)))
        }
        Err(ParseError::OutOfMemory) => Err(AllocError),
        Err(_) => Ok(None),
    }
}

/// Whether no TOML goes on with this byte outside of strings and comments: 0 is the end of a text,
/// and the others are of characters past ASCII.
pub(crate) fn is_beyond(byte: u8) -> bool
    ensures { result ≡ spec.is_beyond byte }
{
    byte == 0 || !byte.is_ascii()
}
