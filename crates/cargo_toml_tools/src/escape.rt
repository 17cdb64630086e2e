//! How names and texts of strangers are written into lines, Markdown and Graphviz's language.
//!
//! No name can end the line that it stands in, or close what stands around it.

use cargo_toml_lint::AllocResult;
use std::alloc::Global;
use std::fmt;
use std::fmt::Write;

/// What a text is written into.
#[derive(Clone, Copy, Debug, PartialEq, Eq)]
pub enum Format {
    /// A line with bars between its columns: `\` and `|` get a `\` before them, and controls are
    /// written as in Rust, by their numbers.
    Line,
    /// Markdown, at a place within a line: what has a meaning there is written by its number.
    Markdown,
    /// A text between quotes in Graphviz's language.
    Dot,
}

/// A text in a format, in which it stands for itself, and on one line.
#[derive(Clone, Copy)]
pub struct Escaped<'a>(pub &'a str, pub Format);

/// A name in Markdown, as code. It is put between backticks where it has nothing else that could
/// have a meaning there.
#[derive(Clone, Copy)]
pub struct Code<'a>(pub &'a str);

impl fmt::Display for Escaped<'_> {
    fn fmt<W: fmt::Write>(&self, f: &mut fmt::Formatter<W>) -> fmt::Result {
        for c in self.0.chars() {
            write_char(f, c, self.1)?;
        }
        Ok(())
    }
}

impl fmt::Display for Code<'_> {
    fn fmt<W: fmt::Write>(&self, f: &mut fmt::Formatter<W>) -> fmt::Result {
        if is_code(self.0) {
            return write!(f, "`{}`", self.0);
        }
        write!(f, "<code>{}</code>", Escaped(self.0, Format::Markdown))
    }
}

/// Adds a text in this format to a line.
pub fn push_escaped(text: &mut String, words: &str, format: Format) -> AllocResult<()> {
    write!(text, "{}", Escaped(words, format))
}

/// Adds bytes to a line. Those that are no text are written by their numbers, as `\xff`.
pub fn push_bytes(line: &mut String, bytes: &[u8]) -> AllocResult<()> {
    for chunk in bytes.utf8_chunks() {
        push_escaped(line, chunk.valid(), Format::Line)?;
        write!(line, "{}", chunk.invalid().escape_ascii())?;
    }
    Ok(())
}

/// What stands before the item at this place of a list: a comma, but not before the first.
pub fn comma_before(place: usize) -> &'static str {
    if place == 0 { "" } else { ", " }
}

/// The line that tells why a file is refused.
pub fn fault_line(alloc: Global, file: &str, words: &str) -> AllocResult<String> {
    let file = Escaped(file, Format::Line);
    let words = Escaped(words.trim_end(), Format::Line);
    format!(in alloc; "error: {file}: {words}\n")
}

/// Writes a character by its number where that is needed, into a line as Rust does, and elsewhere
/// as HTML does.
fn write_char<W: fmt::Write>(f: &mut fmt::Formatter<W>, c: char, format: Format) -> fmt::Result {
    let number = u32::from(c);
    match (format, c) {
        (Format::Line, _) if is_control(c) => write!(f, "\\u{{{number:x}}}"),
        (Format::Dot, _) if is_control(c) => write!(f, "&#{number};"),
        (Format::Markdown, _) if !is_plain_in_markdown(c) => write!(f, "&#{number};"),
        (Format::Line | Format::Dot, '\\') => f.write_str("\\\\"),
        (Format::Line, '|') => f.write_str("\\|"),
        (Format::Dot, '"') => f.write_str("\\\""),
        (Format::Dot, '&') => f.write_str("&amp;"),
        _ => f.write_char(c),
    }
}

/// Whether the character is no sign: it ends a line, it is another control, or Unicode lets it be
/// ignored, as what takes no place or turns the direction (`Default_Ignorable_Code_Point`).
fn is_control(c: char) -> bool {
    matches!(c, '\0'..='\u{1f}' | '\u{7f}'..='\u{9f}' | '\u{ad}' | '\u{34f}' | '\u{61c}')
        || matches!(c, '\u{115f}'..='\u{1160}' | '\u{17b4}'..='\u{17b5}' | '\u{180b}'..='\u{180f}')
        || matches!(c, '\u{200b}'..='\u{200f}' | '\u{2028}'..='\u{202e}' | '\u{2060}'..='\u{206f}')
        || matches!(c, '\u{fe00}'..='\u{fe0f}' | '\u{feff}' | '\u{ffa0}' | '\u{fff0}'..='\u{fffb}')
        || matches!(c, '\u{3164}' | '\u{1bca0}'..='\u{1bca3}' | '\u{1d173}'..='\u{1d17a}')
        || matches!(c, '\u{e0000}'..='\u{e0fff}')
}

/// Whether the character has no meaning in the text of a line of Markdown.
fn is_plain_in_markdown(c: char) -> bool {
    match c {
        ' ' | '-' | '+' | '.' | ',' | ':' | ';' | '/' | '?' | '(' | ')' | '=' | '%' => true,
        '0'..='9' | 'a'..='z' | 'A'..='Z' => true,
        _ => !c.is_ascii() && !is_control(c),
    }
}

/// Whether a name has characters, each of which stands for itself between backticks. A space in
/// front doesn't, where another ends the name.
fn is_code(name: &str) -> bool {
    !name.is_empty()
        && !name.starts_with(' ')
        && name.chars().all(|c| c == '_' || is_plain_in_markdown(c))
}
