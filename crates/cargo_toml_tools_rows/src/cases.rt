//! What is at fault in many short texts, as text.
use cargo_toml::Error;
use cargo_toml_check::check::faults_in;
use std::alloc::Global;
use std::fmt::Write;

/// The lines again. Behind those of a manifest stands a line `=> LINE:COLUMN: KEY: words` for each
/// fault that it has, and `=> none` where it has none. Another manifest follows.
pub fn lines(alloc: Global, expected: &str) -> Result<String, Error> {
    let mut lines = String::new(alloc);
    let mut text = String::new(alloc);
    let mut is_told = false;
    for line in expected.split_terminator('\n') {
        if line.starts_with("=> ") {
            if !is_told {
                push_faults(alloc, &mut lines, text.as_str())?;
            }
            is_told = true;
            continue;
        }
        if is_told {
            text = String::new(alloc);
            is_told = false;
        }
        text.push_str(line)?;
        text.push_str("\n")?;
        lines.push_str(line)?;
        lines.push_str("\n")?;
    }
    Ok(lines)
}

fn push_faults(alloc: Global, lines: &mut String, text: &str) -> Result<(), Error> {
    let faults = faults_in(alloc, text)?;
    if faults.is_empty() {
        lines.push_str("=> none\n")?;
    }
    for told in &faults {
        let (line, column) = told.place;
        write!(lines, "=> {line}:{column}: ")?;
        if !told.key.is_empty() {
            write!(lines, "{}: ", told.key)?;
        }
        writeln!(lines, "{}", told.words)?;
    }
    Ok(())
}
