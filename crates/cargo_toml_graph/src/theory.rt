//! What the definitions of features entail.
//!
//! A theorem counts only where a function's contract names it, so each function here does nothing
//! and its contract is a law.
pub mod action_texts;
pub mod elimination;
pub mod joins;
pub mod small_tables;
