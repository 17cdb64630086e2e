//! Features are resolved: the full graph of `cargo_toml_features`, without the hidden features.
//! These are those whose names begin with `_` and which a filter doesn't keep.
//!
//! [`resolve`] is the whole of it. Callers use it by `cargo_toml::features::Resolver`.
#![tactic(auto)]

mod enabling;
pub mod filter;
mod flags;
mod graph;
mod hashing;
pub mod joining;
mod keeping;
mod kept;
mod marks;
mod node_sets;
mod numbering;
pub mod passing;
mod redirects;
mod removal;
mod resolution;
mod rows;
mod span;
mod taking_over;
mod walk;

pub use resolution::{Lists, resolve};
