//! A manifest, completed.
ghost use Rattle.std.specs.Prelude.{◌≡◌, ◌⊎◌, IfErr, IfOk, IsUtf8, OnOk, false, option_map};
ghost use Rattle.std.specs.Prelude.{string_bytes};
ghost use Rattle.cargo_toml.specs.Error.{Memory};
ghost use Rattle.cargo_toml_answers.specs.Answered.{IsRefusedFor, IsRefusedText, Reads};
ghost use Rattle.cargo_toml_answers.specs.Archived.{CompletesTo, IsUncompleted, given};
ghost use Rattle.cargo_toml_answers.specs.Refused.{IsRefusalFor, IsUnread};
ghost use Rattle.cargo_toml_depth.specs.Nesting.{is_too_deep};

use crate::archive::Archive;
use crate::refusal::Refusal;
use crate::showing::shown;
use crate::texts::{answered, argument, manifest_in, readable};
use cargo_toml::{Error, Value};
use std::alloc::Global;

/// What stands around a manifest.
#[derive(Clone, Copy, Debug)]
pub struct Surroundings<'a> {
    /// The paths of the files in the package, as seen from its folder: a path a line; or, where
    /// some path ends in NUL, each ended so.
    pub paths: &'a [u8],
    /// The text of the `Cargo.toml` of the workspace.
    pub root: &'a [u8],
    /// Its path. Where it is empty, no workspace is told.
    pub root_path: &'a [u8],
}

/// The manifest in a text, completed among the files of a package and from its workspace, as an
/// object: that of [`crate::manifest`].
///
/// Refused as [`crate::manifest`] is, also for the text of the workspace where that isn't UTF-8 or
/// nests deeper than 128; where completion is refused; or where paths aren't UTF-8.
pub fn complete(alloc: Global, text: &[u8], around: Surroundings<'_>) -> Result<String, Refusal>
    ensures shallow { OnOk result (is_too_deep text.now ≡ false) }
    ensures completed { IfOk result (λ json. Reads text.now (λ m.
        CompletesTo around.entry.paths.now
        (given around.entry.root.now around.entry.root_path.now) m (string_bytes json))) }
    ensures refused { IfErr result (IsRefusalFor
        ((¬ IsUtf8 around.entry.paths.now) ⊎ (¬ IsUtf8 around.entry.root_path.now))
        (λ e. IsUnread around.entry.root.now e ⊎ IsRefusedFor text.now (λ m e. (e ≡ Memory)
        ⊎ IsUncompleted around.entry.paths.now
        (given around.entry.root.now around.entry.root_path.now) m e) e)) }
{
    let text = readable(alloc, text)?;
    let root = readable(alloc, around.root)?;
    let paths = argument(alloc, around.paths, "the paths aren't UTF-8")?;
    let path = argument(
        alloc,
        around.root_path,
        "the path of the workspace isn't UTF-8",
    )?;
    answered(
        alloc,
        text,
        completed(alloc, text, paths, given(root, path)),
    )
}

/// The root of a workspace, where its path isn't empty.
fn given<'a>(root: &'a str, path: &'a str) -> Option<(&'a str, &'a str)>
    ensures { option_map (λ r. (r.0.now, r.1.now)) result ≡ given root.now path.now }
{
    if path.is_empty() {
        None
    } else {
        Some((root, path))
    }
}

fn completed(
    alloc: Global,
    text: &str,
    paths: &str,
    root: Option<(&str, &str)>,
) -> Result<String, Error>
    requires { is_too_deep text.now ≡ false }
    ensures completed { IfOk result (λ json. Reads text.now (λ m. CompletesTo paths.now
        (option_map (λ r. (r.0.now, r.1.now)) root.entry) m (string_bytes json))) }
    ensures refused { IfErr result (IsRefusedText text.now (λ m e. (e ≡ Memory)
        ⊎ IsUncompleted paths.now (option_map (λ r. (r.0.now, r.1.now)) root.entry) m e)) }
{
    let mut held = manifest_in(alloc, text)?;
    let archive = Archive::new(alloc, paths, root)?;
    let manifest = &mut *held.manifest;
    manifest.complete_from_abstract_filesystem::<Value, _>(alloc, archive, None)?;
    shown(alloc, manifest)
}
