//! Paths as texts, by the rules of Unix: what two join to, the folder above, the last name, and the
//! folder of a workspace.
//!
//! The pieces of a path are what stands between its slashes, except empty ones and `.`; only a `.`
//! at the front of a relative path counts. Nothing is looked up in a file system, and nothing is
//! resolved: `..` is a piece like any other.
ghost use Rattle.std.specs.Prelude.{◌≡◌, IfOk, string_bytes, Some};
ghost use Rattle.std.specs.Option.{option_copied};
ghost use Rattle.std.specs.Path.{path_join, path_parent, path_file_name};
ghost use Rattle.std.specs.Path.Iter.{ancestors_next};
ghost use Rattle.cargo_toml_parts.specs.Paths.{workspace_folder};

use std::alloc::{AllocError, Global};
use std::path::{Ancestors, Path};

/// The path `b` as seen from the folder `a`: `b` itself where it begins with a slash or `a` is
/// empty. Else both, with a slash between them unless `a` ends with one. It takes memory for the
/// whole text once.
pub fn join(alloc: Global, a: &str, b: &str) -> Result<String, AllocError>
    ensures { IfOk result (λ s. string_bytes s ≡ path_join a.now b.now) }
{
    Ok(Path::new(a).join(alloc, b)?.into_string())
}

/// The folder above: the path up to the end of the piece before its last one, `/` where only the
/// root is left, and the empty path where nothing is. `None` for the empty path and for the root.
pub fn parent(path: &str) -> Option<&str>
    ensures { option_copied result ≡ path_parent path.now }
{
    Path::new(path).parent().map(|above| above.as_str())
}

/// The last piece. `None` where there is none, or where it is `.` or `..`.
pub fn last_name(path: &str) -> Option<&str>
    ensures { option_copied result ≡ path_file_name path.now }
{
    Path::new(path).file_name()
}

/// The path itself, and then each folder above, the nearest first, as far as they are
/// written in the path.
pub fn ancestors(path: &str) -> Ancestors<'_>
    ensures { ancestors_next result ≡ Some path.now }
{
    Path::new(path).ancestors()
}

/// The folder of a workspace with this path: the folder above where the last name is `Cargo.toml`,
/// which is the empty path for that name alone. Any other path is taken for the folder itself.
pub fn workspace_folder(path: &str) -> &str
    ensures { result.now ≡ workspace_folder path.now }
{
    match last_name(path) {
        Some("Cargo.toml") => parent(path).unwrap_or(""),
        _ => path,
    }
}
