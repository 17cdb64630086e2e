//! Names of files and folders.
ghost use Rattle.std.specs.Prelude.{◌≡◌, IfOk, string_bytes};
ghost use Rattle.cargo_toml_discovery.specs.Names.{in_folder, is_source, stem, underscored};

use std::alloc::{AllocError, Global};

/// The path of a name in a folder.
pub fn in_folder(alloc: Global, folder: &str, name: &str) -> Result<String, AllocError>
    ensures { IfOk result (λ path. string_bytes path ≡ in_folder folder.now name.now) }
{
    format!(in alloc; "{folder}/{name}")
}

/// Whether the name is that of a source: whether it ends with `.rs`.
pub fn is_source(name: &str) -> bool
    ensures { result ≡ is_source name.now }
{
    name.as_bytes().ends_with(b".rs".as_slice())
}

/// The name without `.rs` at its end, however often it stands there.
pub fn stem(name: &str) -> &str
    ensures { result.now ≡ stem name.now }
{
    name.trim_end_matches(".rs")
}

/// The name with each `-` as `_`.
pub fn underscored(alloc: Global, name: &str) -> Result<String, AllocError>
    ensures { IfOk result (λ s. string_bytes s ≡ underscored name.now) }
{
    name.replace(alloc, '-', "_")
}
