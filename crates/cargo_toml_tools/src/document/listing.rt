//! The features that a page tells of, and what is told of each.
ghost use Rattle.std.specs.Prelude.{◌≡◌, ◌↔◌, IfOk, IsTrue, codes};
ghost use Rattle.std.specs.Option.{option_copied};
ghost use Rattle.cargo_toml.specs.{Action.Text, Graph.Table, Manifests.held, Reached.IsKeyed};
ghost use Rattle.cargo_toml.specs.{Views.set_has};
ghost use Rattle.cargo_toml_lint.specs.Linked.{AreFound, AreLinks};
ghost use Rattle.cargo_toml_tools.specs.Documented.{AreRowsOf, IsOn, IsRowOf, is_internal, told_at};

use super::reached::{Reached, reach};
use cargo_toml::Manifest;
use cargo_toml::features::Feature;
use cargo_toml_lint::{AllocResult, FeatureMap, Links};
use std::alloc::Global;
use std::collections::BTreeSet;
use std::hash::BuildHasher;

/// A feature that users may ask for, and what is told of it.
#[derive(Drop)]
pub struct Row<'m> {
    /// Its name.
    pub name: &'m str,
    /// Whether the manifest lists it; else it is an optional dependency.
    pub is_listed: bool,
    /// Its text.
    pub doc: Option<&'m str>,
    /// Whether `default` turns it on.
    pub is_default: bool,
    /// What it turns on.
    pub turns_on: Reached<'m>,
}

/// What is made of the rows of a manifest.
pub trait TakesRows {
    ghost use Rattle.std.specs.Prelude.{List, OnOk};
    ghost use Rattle.cargo_toml_tools.specs.declared.document.listing.Row.{Row};

    /// Before and after it took these rows.
    ghost took: { Self → List Row → Self → Type 0 };

    /// Takes them all, in their order, and the name of the package. The one refusal is want of
    /// memory.
    fn take(&mut self, name: Option<&str>, rows: &[Row<'_>]) -> AllocResult<()>
        ensures { OnOk result (took self.old rows.now self.new) };
}

/// The rows of all features that are told of, in byte order of their names: neither hidden nor
/// private ones, and `default` only where the manifest lists it.
///
/// `features` are what the manifest resolves to with none removed, each under its own key. Else no
/// clause says what the rows are. The one refusal is out of memory.
pub fn rows<'m, M, S: BuildHasher>(
    alloc: Global,
    manifest: &Manifest<M>,
    features: &FeatureMap<'m, S>,
) -> AllocResult<Vec<Row<'m>>>
    ensures { IfOk result (λ rows. IsKeyed features.now
        → AreRowsOf (held manifest.now) features.now rows.items) }
{
    let links = Links::new(alloc, manifest, features)?;
    let has_default = manifest.features.contains_key("default");
    let defaults = links.turned_on(alloc, "default")?;
    let mut rows = Vec::new(alloc);
    for name in &links.names {
        if let Some(feature) = told_at(features, *name, has_default) {
            rows.push(row_of(alloc, &links, features, feature, &defaults)?)?;
        }
    }
    Ok(rows)
}

fn row_of<'m, S: BuildHasher>(
    alloc: Global,
    links: &Links<'m>,
    features: &FeatureMap<'m, S>,
    feature: &Feature<'m>,
    defaults: &BTreeSet<&str>,
) -> AllocResult<Row<'m>>
    requires { AreFound links.now }
    ensures { IfOk result (λ row. (t : Table) → AreLinks t links.now
        → ((x : Text) → IsTrue (set_has defaults.now x)
        ↔ IsOn t features.now (codes "default") x)
        → IsRowOf t features.now row feature.now) }
{
    Ok(Row {
        name: feature.key,
        is_listed: feature.explicit,
        doc: feature.doc,
        is_default: defaults.contains(feature.key),
        turns_on: reach(alloc, links, features, feature.key)?,
    })
}

/// The feature of this name, if it is told of.
fn told_at<'f, 'm, S: BuildHasher>(
    features: &'f FeatureMap<'m, S>,
    name: &str,
    has_default: bool,
) -> Option<&'f Feature<'m>>
    ensures { option_copied result ≡ told_at features.now has_default name.now }
{
    let feature = features.get(name)?;
    let is_shown = !is_private(feature) && (has_default || feature.key != "default");
    is_shown.then_some(feature)
}

/// Whether a feature is hidden, by its name, or private, by its table.
pub(crate) fn is_private(feature: &Feature<'_>) -> bool
    ensures { result ≡ is_internal feature.now }
{
    !feature.public || feature.key.starts_with('_')
}
