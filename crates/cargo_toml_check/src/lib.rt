//! What a manifest is, shown to people and to other programs: which of its keys are at fault and
//! where they stand (`check`), what it is once it is complete (`show`), and what its features are
//! (`features`).
#![tactic(auto)]

pub mod alone;
pub mod check;
pub mod features;
pub mod files;
pub mod lint;
pub mod places;
pub mod registry;
pub mod search;
pub mod show;
