//! A manifest and its workspace: how they are read, and how a manifest is completed.
#![tactic(auto)]

pub mod afs;
pub mod complete;
pub mod files;
pub mod finding;
pub mod from_path;
mod gather;
mod heap;
pub mod held;
pub mod inheriting;
pub mod lookup;
pub mod manifest;

pub use afs::{AbstractFilesystem, NoRoot, OwnRoot, ParsedRoot, Roots};
pub use cargo_toml_package::Workspace;
pub use files::Filesystem;
pub use held::HeldManifest;
pub use manifest::Manifest;
