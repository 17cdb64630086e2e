//! Manifests of texts that don't nest too deep, for programs that are run on strangers' texts.
//!
//! The library reads what `toml` reads. Here a text is refused before it is read where it nests
//! deeper than [`cargo_toml_depth::MAX_DEPTH`], the text of a workspace's root too.
#![tactic(auto, using(std::proofs::lemmas::Result::err_from_is_err_and))]

mod completing;
mod files;
mod lookup;
mod text;

pub use completing::{complete_from_path, complete_from_path_and_workspace};
pub use files::ShallowFiles;
pub use text::{refuse_deep, refuse_deep_bytes};
