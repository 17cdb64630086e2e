//! Public calls that a user makes one after another: what one promises is what the next asks for,
//! and what both together promise is told.
ghost use Rattle.std.specs.Prelude.{◌≡◌, ◌⊎◌, IfErr, IfOk, OnOk, option_map};
ghost use Rattle.cargo_toml.specs.{Choosing.handed_of, Choosing.roots_of, Completed.IsCompleted};
ghost use Rattle.cargo_toml.specs.{Dependencies.is_optional, Error.Memory, Manifests.held};
ghost use Rattle.cargo_toml.specs.{Products.product_meaning, Refusing.IsRefusedBy};
ghost use Rattle.cargo_toml.specs.{Refusing.MayLose};
ghost use Rattle.cargo_toml_bench.specs.Pairs.{IsEnabling, IsFeatureCount, first_under};

use crate::whole::resolve_whole;
use cargo_toml::features::{Resolver, complete_and_parse_into};
use cargo_toml::{AbstractFilesystem, Error, FromValue, Manifest, Product, ToValue};
use std::alloc::Global;

/// Whether a manifest has the feature `name`, and that feature enables the feature `other`
/// transitively by names, as [`cargo_toml::features::Feature::enables_recursive`] says. The one
/// refusal is [`Error::Memory`].
pub fn enables<M>(
    alloc: Global,
    manifest: &Manifest<M>,
    name: &str,
    other: &str,
) -> Result<bool, Error>
    ensures answer { IfOk result (IsEnabling (held manifest.now) name.now other.now) }
    ensures refused { IfErr result (λ e. e ≡ Memory) }
{
    let resolved = resolve_whole(alloc, manifest)?;
    let Some(feature) = resolved.features.get(name) else {
        return Ok(false);
    };
    let (features, _dependencies) = feature.enables_recursive(alloc, &resolved.features)?;
    Ok(features.contains_key(other))
}

/// Whether the dependency of the key's first target is optional. `None` where no entry of the key
/// counts: none is optional, and no feature has the key or acts on it. The one refusal is
/// [`Error::Memory`].
pub fn is_optional_at<M>(
    alloc: Global,
    manifest: &Manifest<M>,
    key: &str,
) -> Result<Option<bool>, Error>
    ensures answer { IfOk result (λ o. o
        ≡ option_map is_optional (first_under (held manifest.now) key.now)) }
    ensures refused { IfErr result (λ e. e ≡ Memory) }
{
    let resolved = resolve_whole(alloc, manifest)?;
    let Some(dependency) = resolved.dependencies.get(key) else {
        return Ok(None);
    };
    Ok(Some(dependency.dep().optional()))
}

/// Completes a member, and counts the features that it then has, without the hidden ones.
///
/// Refuses as completion does, with [`Error::Memory`] when out of memory. A refusal leaves the
/// member as it was, unless it is `Error::Memory`: then the member may be completed.
pub fn count_features<Fs: AbstractFilesystem + Drop>(
    alloc: Global,
    member: &mut Manifest,
    files: Fs,
    workspace: Option<(&Manifest, &str)>,
) -> Result<usize, Error>
    ensures counted { IfOk result (IsFeatureCount (held member.new)) }
    ensures completed { OnOk result
        (IsCompleted member.old (option_map handed_of workspace.entry)
        (roots_of Fs.Roots.ARE_FOUND (Fs.root_for files)) (Fs.may_find files) (Fs.names_at files)
        member.new) }
    ensures left { IfErr result (λ e. (member.new ≡ member.old)
        ⊎ ((e ≡ Memory) × IsCompleted member.old (option_map handed_of workspace.entry)
        (roots_of Fs.Roots.ARE_FOUND (Fs.root_for files)) (Fs.may_find files) (Fs.names_at files)
        member.new)) }
    ensures refused { IfErr result
        (IsRefusedBy (held member.old) (option_map handed_of workspace.entry)
        (roots_of Fs.Roots.ARE_FOUND (Fs.root_for files)) (Fs.may_find files)
        (MayLose Fs.Roots.ARE_FOUND (Fs.may_refuse_root files)) (Fs.may_refuse files)) }
{
    let mut slot = None;
    let resolver = Resolver::new();
    complete_and_parse_into(member, &resolver, alloc, files, workspace, &mut slot);
    match slot {
        Some(Ok(resolved)) => Ok(resolved.features.len()),
        Some(Err(fault)) => Err(fault),
        None => unreachable!(),
    }
}

/// A product, written and read again.
pub fn product_again(alloc: Global, product: &Product) -> Result<Product, Error>
    ensures same { IfOk result (λ again. product_meaning again ≡ product_meaning product.now) }
    ensures refused { IfErr result (λ e. e ≡ Memory) }
{
    Product::from_value(alloc, product.to_value(alloc)?)
}
