//! The program `cargo-toml` as a library, so that its tests against stored lines run the same code:
//! what it is asked, what `features` and `complete` print, and how a run ends.
#![tactic(auto)]

mod arguments;
mod completion;
mod features;
mod files;
mod outcome;
mod printing;
mod words;

pub use arguments::Command;
pub use completion::print_complete;
pub use features::feature_lines;
pub use files::print_completed;
pub use outcome::Outcome;
pub use printing::print_features;
pub use words::command;
