//! How a manifest and its parts are written to a tree of TOML.
#![tactic(auto)]

pub mod examples;
pub mod laws;
pub mod write;

pub use write::ToValue;
