//! Patterns of names, as Cargo's globs have them: `*` is any text, `?` any one character, `[ab]`,
//! `[a-c]` and `[!a]` one of some characters. `**` is none of these: it stands for any folders.
ghost use Rattle.std.specs.Prelude.{◌≡◌, IfOk, OnOk, map, option_map};
ghost use Rattle.std.specs.Str.{chars};
ghost use Rattle.cargo_toml_audit.specs.Patterns.{accepts, is_among, is_deep, is_many, is_pattern};
ghost use Rattle.cargo_toml_audit.specs.Patterns.{matches, next, part_of, parts_of};
ghost use Rattle.cargo_toml_audit.specs.Patterns.{read_in_brackets, read_more, read_of, read_plain};

use cargo_toml_lint::AllocResult;
use std::alloc::Global;
use std::mem;

/// A part of a pattern.
#[derive(Debug, Drop)]
pub enum Token {
    /// Any text.
    Many,
    /// Any one character.
    One,
    /// This character.
    Just(char),
    /// One of the characters that stand in brackets, where `a-c` is a range; or, where this is set,
    /// any other.
    OneOf(bool, Vec<char>),
}

/// Where in a pattern a character is read.
#[derive(Debug, Clone, Copy, PartialEq, Eq)]
pub enum Mode {
    /// Outside brackets.
    Plain,
    /// Right behind a star.
    Star,
    /// In brackets.
    Brackets,
    /// In brackets that begin with `!`.
    Others,
    /// Cargo takes it for no pattern.
    Wrong,
}

/// What has been read of a pattern.
#[derive(Drop)]
pub struct Reading {
    tokens: Vec<Token>,
    content: Vec<char>,
    mode: Mode,
}

/// Whether a name of an entry stands for any folders.
pub fn is_deep(name: &str) -> bool
    ensures { result ≡ is_deep name.now }
{
    name == "**"
}

/// Whether a name of an entry is a pattern.
pub fn is_pattern(name: &str) -> bool
    ensures { result ≡ is_pattern name.now }
{
    name.bytes().any(|byte| matches!(byte, b'*' | b'?' | b'['))
}

/// The parts of a pattern; none where Cargo takes it for no pattern.
pub fn tokens_of(alloc: Global, name: &str) -> AllocResult<Option<Vec<Token>>>
    ensures { IfOk result (λ tokens. option_map (λ v. map part_of v.items) tokens
        ≡ parts_of (chars name.now)) }
{
    let mut reading = Reading {
        tokens: Vec::new(alloc),
        content: Vec::new(alloc),
        mode: Mode::Plain,
    };
    for c in characters(alloc, name)?.as_slice() {
        reading.take(alloc, *c)?;
    }
    match reading.mode {
        Mode::Plain | Mode::Star => Ok(Some(reading.tokens)),
        Mode::Brackets | Mode::Others | Mode::Wrong => Ok(None),
    }
}

#[tactic(auto, using(std::proofs::lemmas::Str::chars_from_encodes))]
fn characters(alloc: Global, text: &str) -> AllocResult<Vec<char>>
    ensures { IfOk result (λ v. v.items ≡ chars text.now) }
{
    let characters: Vec<char> = text.chars().collect(alloc)?;
    Ok(characters)
}

impl Reading {
    /// Reads one character more.
    fn take(&mut self, alloc: Global, c: char) -> AllocResult<()>
        ensures { OnOk result (read_of self.new ≡ read_more (read_of self.old) c) }
    {
        match self.mode {
            Mode::Wrong => Ok(()),
            Mode::Brackets => self.take_in_brackets(alloc, c, false),
            Mode::Others => self.take_in_brackets(alloc, c, true),
            Mode::Plain => self.take_plain(c, false),
            Mode::Star => self.take_plain(c, true),
        }
    }

    /// The same outside brackets, right behind a star where `is_star` is set.
    fn take_plain(&mut self, c: char, is_star: bool) -> AllocResult<()>
        ensures { OnOk result (read_of self.new ≡ read_plain is_star (read_of self.old) c) }
    {
        match c {
            '*' if is_star => self.mode = Mode::Wrong,
            '*' => {
                self.mode = Mode::Star;
                self.tokens.push(Token::Many)?;
            }
            '?' => {
                self.mode = Mode::Plain;
                self.tokens.push(Token::One)?;
            }
            '[' => self.mode = Mode::Brackets,
            _ => {
                self.mode = Mode::Plain;
                self.tokens.push(Token::Just(c))?;
            }
        }
        Ok(())
    }

    /// The same in brackets. They close with the first `]` behind their first character.
    fn take_in_brackets(&mut self, alloc: Global, c: char, is_other: bool) -> AllocResult<()>
        ensures { OnOk result (read_of self.new ≡ read_in_brackets is_other (read_of self.old) c) }
    {
        if self.content.is_empty() && c == '!' && !is_other {
            self.mode = Mode::Others;
            return Ok(());
        }
        if self.content.is_empty() || c != ']' {
            self.content.push(c)?;
            return Ok(());
        }
        let content = mem::replace(&mut self.content, Vec::new(alloc));
        self.mode = Mode::Plain;
        self.tokens.push(Token::OneOf(is_other, content))?;
        Ok(())
    }
}

/// Whether the pattern matches the name as a whole. It takes time in the product of their lengths.
pub fn matches(alloc: Global, pattern: &[Token], name: &str) -> AllocResult<bool>
    ensures { IfOk result (λ b. b ≡ matches (map part_of pattern.now) (chars name.now)) }
{
    let mut name = characters(alloc, name)?;
    name.reverse();
    let name = name.as_slice();
    // whether what was taken of the pattern, from its end on, matches so many characters from the
    // end of the name
    let mut reached = vec![in alloc; false; name.len()]?;
    reached.insert(0, true)?;
    for taken in 0..pattern.len() {
        let k = pattern.len() - 1 - taken;
        reached = one_more(alloc, reached.as_slice(), name, &pattern[k])?;
    }
    Ok(reached.get(name.len()).copied().unwrap_or(false))
}

/// What is reached with one more part of the pattern.
fn one_more(
    alloc: Global,
    reached: &[bool],
    name: &[char],
    wanted: &Token,
) -> AllocResult<Vec<bool>>
    ensures { IfOk result (λ v. v.items
        ≡ next (is_many (part_of wanted.now)) (part_of wanted.now) reached.now name.now) }
{
    if let Token::Many = wanted {
        let some = reached.iter().scan(false, |some, here| {
            *some |= *here;
            Some(*some)
        });
        return some.collect(alloc);
    }
    let after = reached
        .iter()
        .zip(name)
        .map(|(here, c)| *here && accepts(wanted, *c));
    let mut next: Vec<bool> = after.collect(alloc)?;
    next.insert(0, false)?;
    Ok(next)
}

/// Whether a part of a pattern stands for this character.
fn accepts(wanted: &Token, c: char) -> bool
    ensures { result ≡ accepts (part_of wanted.now) c }
{
    match wanted {
        Token::Many | Token::One => true,
        Token::Just(own) => *own == c,
        Token::OneOf(false, content) => is_among(content.as_slice(), c),
        Token::OneOf(true, content) => !is_among(content.as_slice(), c),
    }
}

/// Whether what stands in brackets has this character: it is one of them, or lies in a range.
fn is_among(content: &[char], c: char) -> bool
    ensures { result ≡ is_among content.now c }
{
    match content {
        [] => false,
        [first, '-', last, others @ ..] => (*first <= c && c <= *last) || is_among(others, c),
        [first, others @ ..] => *first == c || is_among(others, c),
    }
}
