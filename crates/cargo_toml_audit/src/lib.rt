//! The report on a workspace: what each member is, and what is odd, by Cargo's rules.
//!
//! `audit` and `members` borrow the manifests that they read. `auditing` reads and owns them, and
//! alone pays for that when it is proved.
#![tactic(auto)]

pub mod audit;
pub mod auditing;
pub mod limits;
pub mod members;
