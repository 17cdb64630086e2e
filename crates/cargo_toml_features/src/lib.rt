//! The features of a manifest as types, what is asked of them, what a manifest's tables list of
//! them, and the full graph, of which none is removed.
//!
//! [`resolve_all`] makes the full graph; `cargo_toml_resolve` takes hidden features out of it.
//! Callers use both by `cargo_toml::features::Resolver`.
#![tactic(auto)]

mod acted;
pub mod action;
pub mod admit;
pub mod entries;
pub mod examples;
pub mod features;
pub mod laws;
mod made;
pub mod node;
pub mod places;
pub mod questions;
mod record;
pub mod recursive;
mod redundant;
pub mod required;
mod said;
pub mod sets;
pub mod slots;
pub mod texts;
pub mod unremoved;
mod vertices;

pub use unremoved::resolve_all;
