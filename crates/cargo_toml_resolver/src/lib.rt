//! The resolver of a manifest's features: what callers call, over the crates that do each step.
//!
//! It stands below `cargo_toml`, so that the program waits for no proof of what writes manifests.
#![tactic(auto)]

mod complete_and_parse;
mod heap;
pub mod requirements;
pub mod resolving;
