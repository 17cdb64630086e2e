//! Callers of `cargo_toml` that are proved, as a user of the crate writes them, and what rows and
//! tests share: files in memory to complete from, and trees of real files.
//!
//! `plain` is no such caller: it removes hidden features in a way that is easy to follow. `bodies`
//! compares resolving with it.
#![tactic(auto)]

pub mod audience;
pub mod bodies;
pub mod completed;
pub mod in_memory;
pub mod pairs;
pub mod plain;
pub mod report;
mod sets;
pub mod templates;
pub mod tree;
pub mod versioned;
pub mod whole;

pub use cargo_toml_manifest::HeldManifest;
