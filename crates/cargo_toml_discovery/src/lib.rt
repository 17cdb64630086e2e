//! Which library, binaries, examples, tests and benchmarks of a package are found by the names in
//! its folders, and which build script and readme.
//!
//! The names in the folders stand in `Listings`, what a manifest states in `Stated`, and `discover`
//! makes `Discovered` of both.
#![tactic(auto)]

pub mod discovery;
pub mod disk;
pub mod found;
mod laws;
pub mod listings;
mod names;
mod products;

pub use discovery::{Discovered, Stated, discover};
pub use listings::{Entry, Listings, Wanted};
