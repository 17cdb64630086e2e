//! What is wrong with the features of a manifest: exactly the findings of each code. And which of
//! its features turn on which.
#![tactic(auto)]

mod faults;
mod finding;
mod gathering;
mod known;
mod linking;
mod linting;
mod names;
mod reach;
mod tables;
mod walks;

pub use cargo_toml_features::admit::MAX_ITEMS;
pub use finding::{Code, Finding, Level};
pub use linking::{FeatureMap, Links};
pub use linting::{lint, lint_limited, resolve_whole};
pub use names::{is_feature_name, is_package_name};

/// What a call makes, unless out of memory.
pub type AllocResult<T> = Result<T, std::alloc::AllocError>;
