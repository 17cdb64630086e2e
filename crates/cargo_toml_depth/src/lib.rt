//! How deep a TOML text nests, found before the text is read.
//!
//! `toml` reads a bracket within a bracket by calling itself, and what is done with a tree goes as
//! deep as the tree. A text of a few thousand bytes can nest so deep that a stack is used up. A
//! program that is run on strangers' texts asks here first. This is one pass with no recursion.
#![tactic(auto)]

mod place;
mod tokens;

ghost use Rattle.std.specs.Prelude.{◌≡◌, IfOk};
ghost use Rattle.cargo_toml_depth.specs.Nesting as spec;

use place::Place;
use std::alloc::{AllocError, Global};
use tokens::{after_mark, after_string, header_of, is_beyond, past_plain};
use toml_parser::starts_string;
use toml_parser::text::{first, skip, skip_blank};

/// How deep a text may nest.
pub const MAX_DEPTH: usize = 128;

/// Whether a TOML text nests deeper than [`MAX_DEPTH`].
///
/// A step is each `[` and each `{` of a value, each part of a dotted key but the last, and each
/// part of the last header. A part of a header may stand for an array of tables that headers made:
/// then the element of the array is a step too. So no tree that `toml` makes of the text is deeper
/// than what is counted. A text that isn't TOML is judged up to a place where `toml` refuses it.
/// The one refusal is being out of memory.
pub fn is_too_deep(alloc: Global, text: &str) -> Result<bool, AllocError>
    ensures depth { IfOk result (λ deep. deep ≡ spec.is_too_deep text.now) }
{
    let mut place = Place::new(alloc);
    let mut rest = after_mark(text);
    let mut left = text.len();
    'tokens: loop {
        let (count, token) = past_plain(rest);
        if left <= count {
            return Ok(false);
        }
        left = left - count - 1;
        let byte = first(token);
        if starts_string(token) {
            let Some(after) = after_string(alloc, token)? else {
                return Ok(false);
            };
            rest = after;
        } else if byte == b'#' {
            place.end_line();
            rest = skip_blank(token, true);
        } else if place.is_at_header(byte) {
            let Some((header, after)) = header_of(alloc, token)? else {
                return Ok(false);
            };
            if !place.enter(header) {
                return Ok(true);
            }
            rest = after;
        } else if is_beyond(byte) {
            return Ok(false);
        } else if place.pass(byte)? {
            rest = skip(token, 1);
        } else {
            return Ok(true);
        }
    }
}
