//! Tools over manifests, as a library: the line of a registry's index (`index`), what is documented
//! of features (`document`), and what the words of the program `cargo-toml-tools` ask for.
//!
//! Each borrows the manifests that it reads, and answers text or values of its own. `files` reads,
//! completes and owns them, and alone pays for that when it is proved. `escape` writes names and
//! texts of strangers.
#![tactic(auto)]

mod command;
pub mod document;
pub mod escape;
pub mod files;
pub mod index;
pub mod json;
pub mod left;
pub mod requirement;
mod words;

pub use words::{
    Inputs, Judging, NO_TEXT, Outcome, Release, Request, Wanted, is_checksum, read_request,
};
