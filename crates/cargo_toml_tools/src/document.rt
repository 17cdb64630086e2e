//! What is documented of a crate's features: a page in Markdown, or the graph for Graphviz.
//!
//! What a row of the page tells is proved, by `rows`. How it is printed no clause says.

mod dot;
mod listing;
mod reached;

use crate::escape::{Code, Escaped, Format, comma_before};
use cargo_toml_lint::AllocResult;
pub use dot::graph;
pub use listing::{Row, TakesRows, rows};
pub use reached::Reached;
use std::fmt::Write;

/// A page in Markdown on the features that users may ask for: each with its text, whether it is on
/// by default, and what it turns on, by any number of steps. Optional dependencies that serve as
/// features stand in a table of their own. Hidden and private features are left out.
impl TakesRows for String {
    ghost took = { λ _ _ _. Unit {0} };

    fn take(&mut self, name: Option<&str>, rows: &[Row<'_>]) -> AllocResult<()> {
        self.push_str("# Features")?;
        if let Some(name) = name {
            write!(self, " of {}", Code(name))?;
        }
        self.push_str("\n")?;
        push_table(self, rows, true)?;
        push_table(self, rows, false)
    }
}

/// The table of the features that are listed, or of those that are optional dependencies. It has
/// texts where some row has one.
fn push_table(page: &mut String, rows: &[Row<'_>], is_listed: bool) -> AllocResult<()> {
    if !rows.iter().any(|row| row.is_listed == is_listed) {
        return Ok(());
    }
    // what isn't listed has none
    let has_texts = is_listed && rows.iter().any(|row| row.doc.is_some());
    if !is_listed {
        page.push_str("\n## Optional dependencies\n")?;
    }
    page.push_str(if has_texts {
        "\n| Feature | Text | Default | Features | Dependencies |\n|---|---|---|---|---|\n"
    } else {
        "\n| Feature | Default | Features | Dependencies |\n|---|---|---|---|\n"
    })?;
    for row in rows {
        if row.is_listed == is_listed {
            push_row(page, row, has_texts)?;
        }
    }
    Ok(())
}

fn push_row(page: &mut String, row: &Row<'_>, has_texts: bool) -> AllocResult<()> {
    let alloc = *page.allocator();
    write!(page, "| {} | ", Code(row.name))?;
    if has_texts {
        let text = Escaped(row.doc.unwrap_or(""), Format::Markdown);
        write!(page, "{text} | ")?;
    }
    page.push_str(if row.is_default { "yes | " } else { "no | " })?;
    for (i, name) in row.turns_on.features.iter().enumerate() {
        write!(page, "{}{}", comma_before(i), Code(*name))?;
    }
    page.push_str(" | ")?;
    // as a feature's list says it: `log`, or `log?/std` where something else has to turn `log` on
    for (i, (key, action)) in row.turns_on.actions.iter().enumerate() {
        page.push_str(comma_before(i))?;
        let mark = if action.is_conditional { "?" } else { "" };
        if action.dep_features.is_empty() {
            let whole = format!(in alloc; "{key}{mark}")?;
            write!(page, "{}", Code(whole.as_str()))?;
        }
        for (j, feature) in action.dep_features.iter().enumerate() {
            let asked = format!(in alloc; "{key}{mark}/{feature}")?;
            write!(page, "{}{}", comma_before(j), Code(asked.as_str()))?;
        }
    }
    page.push_str(" |\n")
}
