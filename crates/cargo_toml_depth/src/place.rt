//! What is known at a place of a text.
ghost use Rattle.std.specs.Prelude.{◌≡◌, IfOk, Some, None, if◌then◌else◌};
ghost use Rattle.cargo_toml_depth.specs.Nesting as spec;
ghost use Rattle.cargo_toml_depth.specs.Places.{place_of};

use crate::MAX_DEPTH;
use crate::tokens::Header;
use std::alloc::{AllocError, Global};

/// What is known at a place of a text, of what stands before it.
#[derive(Drop)]
pub(crate) struct Place {
    /// The depth of the table of the last header.
    section: usize,
    /// The most parts that the key of a header of an array of tables had.
    array_parts: usize,
    /// The depth within each bracket that is open, the innermost last.
    brackets: Vec<usize>,
    /// The points since the last bracket, comma or line: those of a key, where one stands.
    points: usize,
    /// Whether the line had a `=`.
    is_behind_equals: bool,
}

impl Place {
    /// The beginning of a text.
    pub fn new(alloc: Global) -> Place
        ensures { place_of result ≡ spec.beginning }
    {
        Place {
            section: 0,
            array_parts: 0,
            brackets: Vec::new(alloc),
            points: 0,
            is_behind_equals: false,
        }
    }

    /// The depth of what stands here.
    fn depth(&self) -> usize
        ensures { result ≡ spec.depth (place_of self.now) }
    {
        self.brackets.last().copied().unwrap_or(self.section)
    }

    /// Goes past the end of a line.
    pub fn end_line(&mut self)
        ensures { place_of self.new ≡ spec.end_line (place_of self.old) }
    {
        self.points = 0;
        self.is_behind_equals = false;
    }

    /// Whether this byte begins a header here.
    pub fn is_at_header(&self, byte: u8) -> bool
        ensures { result ≡ spec.is_at_header (place_of self.now) byte }
    {
        byte == b'[' && self.brackets.is_empty() && !self.is_behind_equals
    }

    /// Goes into the table of a header, or answers `false` where that is too deep.
    pub fn enter(&mut self, header: Header) -> bool
        ensures { (if result then Some (place_of self.new) else None)
            ≡ spec.enter header.parts header.is_of_array (place_of self.old) }
    {
        if header.is_of_array {
            self.array_parts = self.array_parts.max(header.parts);
        }
        let elements = header.parts.min(self.array_parts);
        self.section = header.parts.saturating_add(elements);
        self.section <= MAX_DEPTH
    }

    /// Goes past a byte outside of strings, comments and headers, or answers `false` where that is
    /// too deep. It fails only when out of memory.
    pub fn pass(&mut self, byte: u8) -> Result<bool, AllocError>
        ensures { IfOk result (λ fits. (if fits then Some (place_of self.new) else None)
            ≡ spec.pass byte (place_of self.old)) }
    {
        match byte {
            b'[' | b'{' => return self.open_bracket(),
            b']' | b'}' => {
                self.brackets.pop();
                self.points = 0;
            }
            b',' => self.points = 0,
            b'\n' => self.end_line(),
            b'.' => {
                self.points = self.points.saturating_add(1);
                return Ok(self.points <= MAX_DEPTH);
            }
            b'=' => {
                self.is_behind_equals = true;
                return Ok(self.depth().saturating_add(self.points) <= MAX_DEPTH);
            }
            _ => {}
        }
        Ok(true)
    }

    /// Goes into a bracket.
    fn open_bracket(&mut self) -> Result<bool, AllocError>
        ensures { IfOk result (λ fits. (if fits then Some (place_of self.new) else None)
            ≡ spec.open_bracket (place_of self.old)) }
    {
        let depth = self.depth().saturating_add(self.points).saturating_add(1);
        self.points = 0;
        self.brackets.push(depth)?;
        Ok(depth <= MAX_DEPTH)
    }
}
