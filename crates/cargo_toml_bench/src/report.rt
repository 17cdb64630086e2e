//! A report of a manifest: its optional dependencies, and its features that nothing enables.
pub(crate) mod print;

ghost use Rattle.std.specs.Prelude.{◌≡◌, IfErr, IfOk, filter};
ghost use Rattle.cargo_toml.specs.{Dependencies.dependency_meaning, Error.Memory, Limits.MAX_ITEMS};
ghost use Rattle.cargo_toml.specs.{Manifests.held, Parsed.parsed_table, Reads.map_meaning};
ghost use Rattle.cargo_toml_resolve.specs.Texts.{texts_now};
ghost use Rattle.cargo_toml_bench.specs.Alone.{is_alone_at};
ghost use Rattle.cargo_toml_bench.specs.Reports.{texts, optional_keys, AreUnreferenced};

use crate::sets::names_in_order;
use crate::whole::resolve_whole;
use cargo_toml::features::Feature;
use cargo_toml::{DepsSet, Error, Manifest};
pub use print::print_report;
use std::alloc::{AllocError, Global};
use std::collections::HashMap;
use std::hash::BuildHasher;

/// What a report says of a manifest. The texts are borrowed from it.
#[derive(Debug, Drop)]
pub struct Report<'m> {
    /// The keys of the optional dependencies of the table `dependencies`, in byte order.
    pub optional: Vec<&'m str>,
    /// The names of the features that nothing in the manifest enables, except `default`, in byte
    /// order.
    pub unreferenced: Vec<&'m str>,
}

/// The report of a manifest. The one refusal is [`Error::Memory`], when out of memory.
pub fn make_report<'m, M>(alloc: Global, manifest: &'m Manifest<M>) -> Result<Report<'m>, Error>
    ensures optional { IfOk result (λ r. texts r.optional
        ≡ optional_keys (map_meaning dependency_meaning manifest.now.dependencies)) }
    ensures unreferenced { IfOk result (λ r. AreUnreferenced
        (parsed_table MAX_ITEMS (held manifest.now)) (texts r.unreferenced)) }
    ensures refused { IfErr result (λ e. e ≡ Memory) }
{
    Ok(Report {
        optional: optional_dependencies(alloc, &manifest.dependencies)?,
        unreferenced: unreferenced_features(alloc, manifest)?,
    })
}

/// The keys of the optional dependencies of a table, in byte order. The one refusal is
/// [`Error::Memory`].
pub fn optional_dependencies<'m>(
    alloc: Global,
    dependencies: &'m DepsSet,
) -> Result<Vec<&'m str>, Error>
    ensures keys { IfOk result (λ v. texts v
        ≡ optional_keys (map_meaning dependency_meaning dependencies.now)) }
    ensures refused { IfErr result (λ e. e ≡ Memory) }
{
    let mut optional = Vec::new(alloc);
    for (key, dependency) in dependencies {
        if dependency.optional() {
            optional.push(key.as_str())?;
        }
    }
    Ok(optional)
}

/// The names of the features that nothing in the manifest enables, except `default`, in byte order.
/// The one refusal is [`Error::Memory`].
pub fn unreferenced_features<'m, M>(
    alloc: Global,
    manifest: &'m Manifest<M>,
) -> Result<Vec<&'m str>, Error>
    ensures names { IfOk result (λ v. AreUnreferenced
        (parsed_table MAX_ITEMS (held manifest.now)) (texts v)) }
    ensures refused { IfErr result (λ e. e ≡ Memory) }
{
    let resolved = resolve_whole(alloc, manifest)?;
    let names = names_in_order(alloc, &resolved.features)?;
    Ok(alone_among(alloc, &resolved.features, names.as_slice())?)
}

// Those of the names whose features have no enablers, except `default`.
fn alone_among<'m, S: BuildHasher>(
    alloc: Global,
    features: &HashMap<&'m str, Feature<'m>, S>,
    names: &[&'m str],
) -> Result<Vec<&'m str>, AllocError>
    ensures { IfOk result (λ v. texts v
        ≡ filter (is_alone_at features.now) (texts_now names.now)) }
{
    let mut alone = Vec::new(alloc);
    for name in names {
        if is_alone(features, *name) {
            alone.push(*name)?;
        }
    }
    Ok(alone)
}

fn is_alone<S: BuildHasher>(features: &HashMap<&str, Feature<'_>, S>, name: &str) -> bool
    ensures { result ≡ is_alone_at features.now name.now }
{
    match features.get(name) {
        Some(feature) => !feature.is_referenced() && name != "default",
        None => false,
    }
}
