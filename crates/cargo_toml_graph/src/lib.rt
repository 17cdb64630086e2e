//! What the features of a manifest mean: a graph of names, of which some may be taken out.
//!
//! Nothing runs here. The definitions stand in `specs/`, over texts and tests alone, and [`theory`]
//! proves what they entail.
#![tactic(auto, using(crate::proofs::Theorems::theorems))]

pub mod theory;
