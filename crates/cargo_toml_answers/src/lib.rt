//! What callers in other languages ask of manifests: each call takes the bytes of a text, and
//! answers a text of JSON.
//!
//! An answer is written straight into its text: no tree of values is made before. A refusal is
//! JSON, too. A text that nests deeper than 128 is refused before anything else is asked of it.
#![tactic(auto)]

mod archive;
mod checking;
mod completing;
mod documenting;
mod indexing;
mod linting;
mod listing;
mod refusal;
mod sets;
mod showing;
mod texts;
mod writing;

pub use archive::MAX_TARGETS;
pub use checking::check;
pub use completing::{Surroundings, complete};
pub use documenting::document;
pub use indexing::index;
pub use linting::lint;
pub use listing::{Asked, features};
pub use refusal::Refusal;
pub use showing::manifest;
pub use texts::Keys;
