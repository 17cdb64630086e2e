//! What words of the command line of `cargo-toml-tools` ask for, as text.
use cargo_toml::Error;
use cargo_toml_tools::{Request, read_request};
use std::alloc::Global;

/// The lines again, each with what comes of it: WORDS, with a space between two of them, and what
/// they ask for, or how the program ends, with ` -> ` between them.
pub fn lines(alloc: Global, expected: &str) -> Result<String, Error> {
    let mut lines = String::new(alloc);
    for line in expected.split_terminator('\n') {
        let text = match line.split_once(" -> ") {
            Some((text, _)) => text,
            None => line,
        };
        let answer = answer(alloc, text)?;
        lines.push_str(text)?;
        lines.push_str(" -> ")?;
        lines.push_str(answer.as_str().trim_end_matches('\n'))?;
        lines.push_str("\n")?;
    }
    Ok(lines)
}

fn answer(alloc: Global, text: &str) -> Result<String, Error> {
    let mut words = Vec::new(alloc);
    // the program's own name
    words.push(String::new(alloc))?;
    for word in text.split(' ') {
        words.push(String::from_str(alloc, word)?)?;
    }
    match read_request(alloc, words.as_slice())? {
        Request::Text(text) => Ok(format!(in alloc; "status 0, {}", first_line(text.as_str()))?),
        Request::NoCommand(text) => {
            Ok(format!(in alloc; "status 2, {}", first_line(text.as_str()))?)
        }
        request => Ok(format!(in alloc; "{request:?}")?),
    }
}

fn first_line(text: &str) -> &str {
    text.lines().next().unwrap_or("")
}
