//! The names of targets that have tables of dependencies.
ghost use Rattle.std.specs.Prelude.{◌≡◌, ◌≤◌, codes, length, option_and_then};
ghost use Rattle.std.specs.{List.prefix_len, Prelude.option_map};
ghost use Rattle.cargo_toml_tools.specs.Platforms.{before_end, behind_start, past_word};
ghost use Rattle.cargo_toml_tools.specs.declared.index.platform.Run.TheVariants.{Spaces};
ghost use Rattle.cargo_toml_tools.specs.Platforms.{behind, cfg_in, is_cfg, is_in, is_in_platform};
ghost use Rattle.cargo_toml_tools.specs.Platforms.{is_platform, is_target, past_expression};
ghost use Rattle.cargo_toml_tools.specs.Platforms.{past_list, past_run, past_sign, past_value};
ghost use Rattle.cargo_toml_tools.specs.Platforms.{split_word, starts_word, word_at, word_kind};

/// How deep expressions may be nested.
const MAX_DEPTH: usize = 64;

/// What a word of an expression is.
#[derive(Clone, Copy)]
pub(super) enum Word {
    /// The name of an option.
    Name,
    /// `not`, before one expression.
    Not,
    /// `all` or `any`, before a list of them.
    Many,
}

/// What a run of bytes is of.
#[derive(Clone, Copy)]
pub(super) enum Run {
    Spaces,
    Word,
    /// What isn't a `"`.
    Quoted,
}

/// Whether this is the name of a target that may have tables of dependencies: `cfg(..)` with an
/// expression, nested at most 64 deep, or a platform's, of letters and digits of ASCII, `_`, `-`
/// and `.`. Cargo takes letters and digits beyond ASCII in the latter, too.
#[tactic(auto, unfolding(crate::specs::Platforms::is_target))]
pub fn is_target(name: &str) -> bool
    ensures { result ≡ is_target name.now }
{
    match cfg_in(name) {
        Some(inner) => is_cfg(inner.as_bytes()),
        None => is_platform(name.as_bytes()),
    }
}

/// What is between `cfg(` and a last `)`.
fn cfg_in(name: &str) -> Option<&str>
    ensures { option_map (λ t. t.now) result ≡ cfg_in name.now }
{
    before_end(behind_start(name)?)
}

fn behind_start(name: &str) -> Option<&str>
    ensures { option_map (λ t. t.now) result ≡ behind_start (codes "cfg(") name.now }
{
    match name.strip_prefix("cfg(") {
        Some(rest) => Some(rest),
        None => None,
    }
}

fn before_end(text: &str) -> Option<&str>
    ensures { option_map (λ t. t.now) result ≡ before_end (codes ")") text.now }
{
    match text.strip_suffix(")") {
        Some(rest) => Some(rest),
        None => None,
    }
}

fn is_platform(name: &[u8]) -> bool
    ensures { result ≡ is_platform name.now }
{
    name.iter().all(|byte| is_in_platform(*byte))
}

fn is_in_platform(byte: u8) -> bool
    ensures { result ≡ is_in_platform byte }
{
    byte.is_ascii_alphanumeric() || byte == b'_' || byte == b'-' || byte == b'.'
}

/// Whether a text is an expression.
#[tactic(auto, unfolding(crate::specs::Platforms::is_cfg))]
fn is_cfg(text: &[u8]) -> bool
    ensures { result ≡ is_cfg text.now }
{
    match past_expression(MAX_DEPTH, text) {
        Some(rest) => past_run(Run::Spaces, rest).is_empty(),
        None => false,
    }
}

/// What is behind the expression at the head of a text, which is nested at most so deep.
#[cycle(expression)]
fn past_expression(depth: usize, text: &[u8]) -> Option<&[u8]>
    ensures { option_map (λ t. t.now) result ≡ past_expression depth text.now }
{
    match depth.checked_sub(1) {
        Some(left) => past_nested(left, text),
        None => None,
    }
}

/// The same where what is in it may be nested so deep.
#[cycle(expression)]
fn past_nested(depth: usize, text: &[u8]) -> Option<&[u8]>
    ensures { option_map (λ t. t.now) result ≡ option_and_then
        (past_word (past_expression depth)) (word_at (past_run Spaces text.now)) }
{
    let (word, rest) = word_at(past_run(Run::Spaces, text))?;
    match word {
        Word::Name => past_value(rest),
        Word::Not => past_sign(b')', past_expression(depth, past_sign(b'(', rest)?)?),
        Word::Many => past_list(depth, past_sign(b'(', rest)?),
    }
}

/// What is behind a list of expressions and its `)`.
#[cycle(expression)]
fn past_list(depth: usize, text: &[u8]) -> Option<&[u8]>
    ensures { option_map (λ t. t.now) result
        ≡ past_list (past_expression depth) (length text.now) text.now }
{
    let mut rest = text;
    // Each round takes a byte at least.
    'items: for _ in 0..text.len() {
        if let Some(end) = past_sign(b')', rest) {
            return Some(end);
        }
        let one = past_expression(depth, rest)?;
        if let Some(end) = past_sign(b')', one) {
            return Some(end);
        }
        rest = past_sign(b',', one)?;
    }
    None
}

/// What is behind the value that a name may have.
fn past_value(text: &[u8]) -> Option<&[u8]>
    ensures { option_map (λ t. t.now) result ≡ past_value text.now }
{
    let Some(rest) = past_sign(b'=', text) else {
        return Some(text);
    };
    let quoted = past_sign(b'"', rest)?;
    behind(b'"', past_run(Run::Quoted, quoted))
}

/// The word at the head of a text, and what is behind it. A name may be raw, as `r#all`.
fn word_at(text: &[u8]) -> Option<(Word, &[u8])>
    ensures { option_map (λ w. (w.0, w.1.now)) result ≡ word_at text.now }
{
    let (word, rest) = split_word(text)?;
    if word == "r".as_bytes() {
        if let Some(raw) = behind(b'#', rest) {
            return Some((Word::Name, split_word(raw)?.1));
        }
    }
    Some((word_kind(word), rest))
}

fn word_kind(word: &[u8]) -> Word
    ensures { result ≡ word_kind word.now }
{
    if word == "not".as_bytes() {
        Word::Not
    } else if word == "all".as_bytes() || word == "any".as_bytes() {
        Word::Many
    } else {
        Word::Name
    }
}

/// The word at the head of a text, and the rest.
fn split_word(text: &[u8]) -> Option<(&[u8], &[u8])>
    ensures { option_map (λ w. (w.0.now, w.1.now)) result ≡ split_word text.now }
{
    let first = text.first()?;
    if !starts_word(*first) {
        return None;
    }
    let length = run_length(Run::Word, text);
    Some((&text[..length], &text[length..]))
}

fn starts_word(byte: u8) -> bool
    ensures { result ≡ starts_word byte }
{
    byte.is_ascii_alphabetic() || byte == b'_'
}

/// What is behind this sign, which comes first but for spaces.
fn past_sign(sign: u8, text: &[u8]) -> Option<&[u8]>
    ensures { option_map (λ t. t.now) result ≡ past_sign sign text.now }
{
    behind(sign, past_run(Run::Spaces, text))
}

/// What is behind this byte, which comes first.
fn behind(byte: u8, text: &[u8]) -> Option<&[u8]>
    ensures { option_map (λ t. t.now) result ≡ behind byte text.now }
{
    match text {
        [first, rest @ ..] if *first == byte => Some(rest),
        _ => None,
    }
}

fn past_run(run: Run, text: &[u8]) -> &[u8]
    ensures { result.now ≡ past_run run text.now }
{
    &text[run_length(run, text)..]
}

/// How many bytes of a run a text begins with.
fn run_length(run: Run, text: &[u8]) -> usize
    ensures value { result ≡ prefix_len (is_in run) text.now }
    ensures within { result ≤ length text.now }
{
    for (place, byte) in text.iter().enumerate() {
        if !is_in(run, *byte) {
            return place;
        }
    }
    text.len()
}

fn is_in(run: Run, byte: u8) -> bool
    ensures { result ≡ is_in run byte }
{
    match run {
        Run::Spaces => byte == b' ',
        Run::Word => starts_word(byte) || byte.is_ascii_digit(),
        Run::Quoted => byte != b'"',
    }
}
