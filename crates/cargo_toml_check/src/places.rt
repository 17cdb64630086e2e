//! Where the keys of a manifest stand in its text.
use crate::alone::Step;
use cargo_toml_lint::AllocResult;
use std::alloc::{AllocError, Global};
use std::collections::BTreeMap;
use std::fmt::Write;
use toml_parser::bytes::is_bare;
use toml_parser::text::{first, skip_blank, skip_ws};
use toml_parser::{quoted, starts_string, unquoted};

/// A line and a column of a text, both from 1. A column counts characters.
pub type Place = (usize, usize);

/// The most bytes that a line has of a path or a name: each of many lines may have a long one.
const MAX_NAME: usize = 200;

/// A path as a text that is cut: keys with dots between them, as TOML has them, and the numbers of
/// items between brackets.
pub fn path_text(alloc: Global, path: &[Step<'_>]) -> AllocResult<String> {
    let mut text = String::new(alloc);
    for step in path {
        match step {
            Step::Key(key) => push_key(&mut text, *key)?,
            Step::Item(index) => write!(text, "[{index}]")?,
        }
    }
    cut(alloc, text.as_str())
}

/// What a line has of a text: its beginning, and `..` in place of the rest.
pub fn cut(alloc: Global, text: &str) -> AllocResult<String> {
    let end = text.floor_char_boundary(MAX_NAME);
    let rest = if end < text.len() { ".." } else { "" };
    format!(in alloc; "{}{rest}", text.get(..end).unwrap_or(text))
}

/// A step that owns its key.
#[derive(PartialEq, Eq, PartialOrd, Ord, Drop)]
enum Held {
    Key(String),
    Item(usize),
}

/// Paths whose places are wanted, as numbers, of which 0 is the path of no step. What is kept is
/// which step leads from which path to which: so a key of a text is compared with single steps.
#[derive(Drop)]
pub struct Paths {
    alloc: Global,
    next: BTreeMap<(usize, Held), usize>,
}

impl Paths {
    /// No paths.
    pub fn new(alloc: Global) -> Paths {
        let next = BTreeMap::new(alloc);
        Paths { alloc, next }
    }

    /// The path of these steps.
    pub fn of(&mut self, steps: &[Step<'_>]) -> AllocResult<usize> {
        let mut path = 0;
        for step in steps {
            path = self.step(path, *step)?;
        }
        Ok(path)
    }

    /// The path that a step leads to from another one.
    pub fn step(&mut self, above: usize, step: Step<'_>) -> AllocResult<usize> {
        let held = match step {
            Step::Key(key) => Held::Key(String::from_str(self.alloc, key)?),
            Step::Item(index) => Held::Item(index),
        };
        let next = self.next.len().saturating_add(1);
        Ok(*self.next.entry((above, held))?.or_insert(next))
    }
}

/// The places where these paths are first mentioned in the text of a document, by their numbers.
/// The text has to be TOML, since a fault of the text is answered as out of memory, too. That is
/// the one refusal.
pub fn places(alloc: Global, text: &str, wanted: &Paths) -> AllocResult<BTreeMap<usize, Place>> {
    let at = start_of(text);
    let mut walk = Walk {
        alloc,
        text,
        at,
        counted: (at, (1, 1)),
        wanted,
        found: BTreeMap::new(alloc),
        last: BTreeMap::new(alloc),
        open: Vec::new(alloc),
    };
    if !wanted.next.is_empty() {
        walk.document()?;
    }
    Ok(walk.found)
}

/// The place of an index of a text.
pub fn place_in(text: &str, at: usize) -> Place {
    let mut counted = (start_of(text), (1, 1));
    place_behind(text, &mut counted, at)
}

/// The same of an index that isn't before the one up to which is counted. It takes its turn.
fn place_behind(text: &str, counted: &mut (usize, Place), at: usize) -> Place {
    let (before, (line, column)) = *counted;
    let since = text.get(before..at).unwrap_or("");
    let lines = since.bytes().filter(|byte| *byte == b'\n').count();
    let (from, last) = match since.rsplit_once('\n') {
        None => (column, since),
        Some((_, last)) => (1, last),
    };
    let columns = last.chars().count();
    let place = (line.saturating_add(lines), from.saturating_add(columns));
    *counted = (at, place);
    place
}

/// Where the first line begins: behind the mark of the encoding, if there is one.
fn start_of(text: &str) -> usize {
    if text.starts_with('\u{feff}') { 3 } else { 0 }
}

/// Adds a key to a path, or so much of it that the path is cut there.
fn push_key(text: &mut String, key: &str) -> AllocResult<()> {
    let end = key.floor_char_boundary(MAX_NAME.saturating_add(4));
    let key = key.get(..end).unwrap_or(key);
    if !text.is_empty() {
        text.push_str(".")?;
    }
    if !key.is_empty() && key.bytes().all(is_bare) {
        return text.push_str(key);
    }
    if is_literal(key) {
        return write!(text, "'{key}'");
    }
    text.push_str("\"")?;
    for c in key.chars() {
        match c {
            '"' | '\\' => write!(text, "\\{c}")?,
            '\0'..='\u{1f}' | '\u{7f}' => {
                let number = u32::from(c);
                write!(text, "\\u{number:04x}")?
            }
            _ => text.push(c)?,
        }
    }
    text.push_str("\"")
}

/// Whether a key stands between `'`, as `'cfg(unix = "x")'`: it would need escapes between `"`, and
/// has nothing that can't be there.
fn is_literal(key: &str) -> bool {
    let needs_escapes = key.bytes().any(|byte| matches!(byte, b'"' | b'\\'));
    needs_escapes && !key.bytes().any(is_beyond_literal)
}

/// Whether a key with this byte can't stand between `'`.
fn is_beyond_literal(byte: u8) -> bool {
    byte == b'\'' || byte.is_ascii_control()
}

/// What is behind the plain value that a text begins with. As the document reads, a fault is one of
/// memory.
fn after_plain(alloc: Global, text: &str) -> AllocResult<&str> {
    let rest = if starts_string(text) {
        quoted(alloc, text).map(|(_, rest)| rest)
    } else {
        unquoted(alloc, text).map(|(_, rest)| rest)
    };
    rest.map_err(|_| AllocError)
}

/// An array or an inline table that isn't closed yet.
#[derive(Clone, Copy)]
struct Open {
    path: Option<usize>,
    /// The number of the next item of an array.
    index: Option<usize>,
}

/// A walk over the text of a document, with the paths that are wanted.
#[derive(Drop)]
struct Walk<'t> {
    alloc: Global,
    text: &'t str,
    at: usize,
    /// The index up to which lines and columns are counted, and its place.
    counted: (usize, Place),
    wanted: &'t Paths,
    found: BTreeMap<usize, Place>,
    /// The number of the last table of each array of tables.
    last: BTreeMap<usize, usize>,
    open: Vec<Open>,
}

impl<'t> Walk<'t> {
    fn rest(&self) -> &'t str {
        self.text.get(self.at..).unwrap_or("")
    }

    fn byte(&self) -> u8 {
        first(self.rest())
    }

    /// Goes on behind so many bytes, and the white space after them.
    fn skip(&mut self, count: usize) {
        self.at = self.at.saturating_add(count);
        self.go_to(skip_ws(self.rest()));
    }

    /// Goes on at what is left of the text.
    fn go_to(&mut self, rest: &str) {
        self.at = self.text.len().saturating_sub(rest.len());
    }

    fn document(&mut self) -> AllocResult<()> {
        let mut section = Some(0);
        for _ in 0..self.text.len() {
            self.go_to(skip_blank(self.rest(), true));
            match self.byte() {
                0 => return Ok(()),
                b'[' => {
                    let brackets = if self.rest().starts_with("[[") { 2 } else { 1 };
                    self.skip(brackets);
                    section = self.key(Some(0), brackets == 2)?;
                    self.skip(brackets);
                }
                _ => {
                    let path = self.key(section, false)?;
                    self.skip(1);
                    self.value(path)?;
                }
            }
        }
        Ok(())
    }

    /// A key below this path; the path that it leads to is answered. A part that stands for an
    /// array of tables leads to its last table, and to a new one at the end of a header of one.
    fn key(&mut self, above: Option<usize>, is_item: bool) -> AllocResult<Option<usize>> {
        let mut path = above;
        for _ in 0..self.text.len() {
            let start = self.at;
            let part = self.key_part()?;
            path = self.step(path, Held::Key(part), start)?;
            self.go_to(skip_ws(self.rest()));
            let is_last = self.byte() != b'.';
            path = self.in_last(path, is_last && is_item, start)?;
            if is_last {
                return Ok(path);
            }
            self.skip(1);
        }
        Ok(path)
    }

    /// The last table of this path, which may get a new one, or the path where it has none.
    fn in_last(&mut self, path: Option<usize>, new: bool, at: usize) -> AllocResult<Option<usize>> {
        let Some(array) = path else { return Ok(None) };
        let mut last = self.last.get(&array).copied();
        if new {
            let next = last.map_or(0, |index| index.saturating_add(1));
            self.last.insert(array, next)?;
            last = Some(next);
        }
        match last {
            Some(index) => self.step(path, Held::Item(index), at),
            None => Ok(path),
        }
    }

    /// The path that a step leads to, which is mentioned at this index. None is none of the wanted.
    fn step(&mut self, above: Option<usize>, step: Held, at: usize) -> AllocResult<Option<usize>> {
        let Some(above) = above else { return Ok(None) };
        let path = self.wanted.next.get(&(above, step)).copied();
        if let Some(path) = path {
            if !self.found.contains_key(&path) {
                let place = place_behind(self.text, &mut self.counted, at);
                self.found.insert(path, place)?;
            }
        }
        Ok(path)
    }

    fn key_part(&mut self) -> AllocResult<String> {
        let rest = self.rest();
        if starts_string(rest) {
            let (part, rest) = quoted(self.alloc, rest).map_err(|_| AllocError)?;
            self.go_to(rest);
            return Ok(part);
        }
        let length = rest.bytes().take_while(|byte| is_bare(*byte)).count();
        self.skip(length);
        String::from_str(self.alloc, rest.get(..length).unwrap_or(""))
    }

    /// A value, and all that stands in it.
    fn value(&mut self, path: Option<usize>) -> AllocResult<()> {
        self.begin(path)?;
        for _ in 0..self.text.len() {
            let Some(open) = self.open.pop() else {
                return Ok(());
            };
            self.go_to(skip_blank(self.rest(), true));
            match self.byte() {
                b']' | b'}' => self.skip(1),
                b',' => {
                    self.skip(1);
                    self.open.push(open)?;
                }
                _ => self.part(open)?,
            }
        }
        Ok(())
    }

    /// The next part of an array or an inline table.
    fn part(&mut self, open: Open) -> AllocResult<()> {
        let Some(index) = open.index else {
            self.open.push(open)?;
            let path = self.key(open.path, false)?;
            self.skip(1);
            return self.begin(path);
        };
        let path = self.step(open.path, Held::Item(index), self.at)?;
        let index = Some(index.saturating_add(1));
        self.open.push(Open { index, ..open })?;
        self.begin(path)
    }

    /// A whole plain value, or the beginning of an array or of an inline table.
    fn begin(&mut self, path: Option<usize>) -> AllocResult<()> {
        let index = match self.byte() {
            b'[' => Some(0),
            b'{' => None,
            _ => {
                self.go_to(after_plain(self.alloc, self.rest())?);
                return Ok(());
            }
        };
        self.skip(1);
        self.open.push(Open { path, index })?;
        Ok(())
    }
}
