//! Which names of targets are taken, as text.
use cargo_toml::Error;
use cargo_toml_tools::index::is_target;
use std::alloc::Global;

/// The lines again, each `taken NAME` or `refused NAME`.
pub fn lines(alloc: Global, expected: &str) -> Result<String, Error> {
    let mut lines = String::new(alloc);
    for line in expected.split_terminator('\n') {
        let (_, name) = line.split_once(' ').unwrap_or(("", ""));
        let told = if is_target(name) { "taken" } else { "refused" };
        lines.push_str(told)?;
        lines.push_str(" ")?;
        lines.push_str(name)?;
        lines.push_str("\n")?;
    }
    Ok(lines)
}
