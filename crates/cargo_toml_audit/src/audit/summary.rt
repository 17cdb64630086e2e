//! What the report tells of a member that completes.
ghost use Rattle.std.specs.Prelude.{◌≡◌, None, IfOk, IfSome, IsTrue, false, map, option_map};
ghost use Rattle.std.specs.Prelude.{string_bytes};
ghost use Rattle.cargo_toml.specs.{InheritedPackages.is_left_there, Inherits.inheritable_map};
ghost use Rattle.cargo_toml.specs.{Manifests.held, Packages.held_package, Settings.publish_meaning};
ghost use Rattle.cargo_toml_audit.specs.Audited.{IsMemberOf, IsToldOf, is_untold, leaves_told};
ghost use Rattle.cargo_toml_audit.specs.Audited.{publish_text, stated};

use super::Member;
use super::dependencies::is_inherited;
use cargo_toml::{Inheritable, Manifest, Package, Publish};
use cargo_toml_lint::AllocResult;
use std::alloc::Global;

/// What is told of a member with this manifest, which was completed. None where nothing can be.
pub fn summarize<M>(
    alloc: Global,
    folder: &str,
    manifest: &Manifest<M>,
    inherits: Vec<String>,
) -> AllocResult<Option<Member>>
    ensures told { IfOk result (λ o. IfSome o
        (IsMemberOf folder.now (map string_bytes inherits.items) (held manifest.now))) }
    ensures untold { IfOk result (λ o. o ≡ None → IsTrue (is_untold (held manifest.now))) }
{
    match &manifest.package {
        Some(package) => member_of(alloc, folder, package, inherits),
        None => Ok(None),
    }
}

/// Why nothing is told of it.
pub fn untold_words<M>(manifest: &Manifest<M>) -> &'static str {
    if manifest.package.is_none() {
        "there is no package"
    } else {
        "a value is left to the workspace, which has none"
    }
}

/// What is told of the member with this package.
fn member_of<M>(
    alloc: Global,
    folder: &str,
    package: &Package<M>,
    inherits: Vec<String>,
) -> AllocResult<Option<Member>>
    ensures told { IfOk result (λ o. IfSome o
        (IsToldOf folder.now (map string_bytes inherits.items) (held_package «package».now))) }
    ensures untold { IfOk result
        (λ o. o ≡ None → IsTrue (leaves_told (held_package «package».now))) }
{
    let Inheritable::Set(version) = &package.version else {
        return Ok(None);
    };
    let Inheritable::Set(edition) = &package.edition else {
        return Ok(None);
    };
    let Inheritable::Set(publish) = &package.publish else {
        return Ok(None);
    };
    if is_inherited(&package.rust_version) || is_inherited(&package.license) {
        return Ok(None);
    }
    Ok(Some(Member {
        folder: String::from_str(alloc, folder)?,
        name: package.name.clone()?,
        version: format!(in alloc; "{version}")?,
        edition: format!(in alloc; "{edition}")?,
        rust_version: text(&package.rust_version)?,
        license: text(&package.license)?,
        publish: place(alloc, publish)?,
        inherits,
    }))
}

/// A text that may be missing, and isn't left.
fn text(text: &Option<Inheritable<String>>) -> AllocResult<Option<String>>
    requires { is_left_there text.now ≡ false }
    ensures { IfOk result
        (λ copy. option_map (inheritable_map string_bytes) text.now ≡ stated copy) }
{
    match text {
        Some(Inheritable::Set(text)) => Ok(Some(text.clone()?)),
        _ => Ok(None),
    }
}

/// Where a package may be published.
#[tactic(auto, using(crate::proofs::Texts::join_mapped))]
fn place(alloc: Global, publish: &Publish) -> AllocResult<String>
    ensures { IfOk result
        (λ text. string_bytes text ≡ publish_text (publish_meaning publish.now)) }
{
    match publish {
        Publish::Flag(true) => String::from_str(alloc, "yes"),
        Publish::Flag(false) => String::from_str(alloc, "no"),
        Publish::Registry(names) if names.is_empty() => String::from_str(alloc, "no"),
        Publish::Registry(names) => names.as_slice().join(alloc, ", "),
    }
}
