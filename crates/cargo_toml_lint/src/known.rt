//! Which names a manifest has: of features, of dependencies, and those that `dep:` names.
ghost use Rattle.std.specs.Prelude.{◌≡◌, IfOk, OnOk, map, string_bytes};
ghost use Rattle.cargo_toml.specs.{Action.Text, Action.item_of, Dependencies.dependency_meaning};
ghost use Rattle.cargo_toml.specs.{Manifests.held, Reads.map_meaning, Views.set_has};
ghost use Rattle.cargo_toml_lint.specs.Known.{acted_by, acted_in, acted_keys, all_names};
ghost use Rattle.cargo_toml_lint.specs.Known.{dependency_keys, has_key, keys_in};
ghost use Rattle.cargo_toml_lint.specs.Names.{AddsKeys, key_of, held_names, listed_by};
ghost use Rattle.cargo_toml_lint.specs.Taken.{is_bad_text};

use crate::AllocResult;
use crate::names::is_bad_text;
use crate::tables::tables_of;
use cargo_toml::{DepsSet, FeatureSet, Manifest};
use cargo_toml_features::action::{add_text, read_action};
use std::alloc::Global;
use std::collections::BTreeSet;

/// The names that a manifest has.
#[derive(Drop)]
pub(crate) struct Known<'m> {
    /// The table of features.
    pub features: &'m FeatureSet,
    /// The keys of all tables of dependencies.
    pub dependencies: BTreeSet<&'m str>,
    /// Those of optional dependencies.
    pub optional: BTreeSet<&'m str>,
    /// The keys on which texts act.
    pub acted: BTreeSet<&'m str>,
    /// Those that texts name by `dep:`.
    pub reserved: BTreeSet<&'m str>,
}

// A key of a dependency, and whether it is marked.
type Key<'m> = (&'m str, bool);

// Adds those of a table: marked are those of optional dependencies.
fn add_table<'m>(keys: &mut Vec<Key<'m>>, table: &'m DepsSet) -> AllocResult<()>
    ensures { OnOk result (AddsKeys (keys_in (map_meaning dependency_meaning table.now))
        keys.old.items keys.new.items) }
{
    for (key, dependency) in table {
        keys.push((key.as_str(), dependency.optional()))?;
    }
    Ok(())
}

// Adds the key on which a text acts, if it does: marked by `dep:`, unless the text is bad.
fn add_acted<'m>(keys: &mut Vec<Key<'m>>, text: &'m str) -> AllocResult<()>
    ensures { OnOk result (AddsKeys (acted_in (is_bad_text text.now) (item_of text.now))
        keys.old.items keys.new.items) }
{
    let action = read_action(text);
    if !action.acts() {
        return Ok(());
    }
    keys.push((action.target, action.is_dep_only & !is_bad_text(text)))?;
    Ok(())
}

// Adds those on which the texts of a list act.
#[tactic(auto, using(crate::proofs::Adding::mapped_next))]
fn add_list<'m>(keys: &mut Vec<Key<'m>>, texts: &'m [String]) -> AllocResult<()>
    ensures { OnOk result
        (AddsKeys (acted_by (map string_bytes texts.now)) keys.old.items keys.new.items) }
{
    for text in texts {
        add_acted(keys, text.as_str())?;
    }
    Ok(())
}

// The keys of all tables of dependencies of a manifest.
#[tactic(auto, using(crate::proofs::Adding::mapped_next))]
fn dependency_keys<M>(alloc: Global, manifest: &Manifest<M>) -> AllocResult<Vec<Key<'_>>>
    ensures { IfOk result (λ v. map key_of v.items ≡ dependency_keys (held manifest.now)) }
{
    let mut keys = Vec::new(alloc);
    for table in &tables_of(alloc, manifest)? {
        add_table(&mut keys, table.0)?;
    }
    Ok(keys)
}

// The keys on which the texts of features act.
#[tactic(auto, using(crate::proofs::Adding::left_next, crate::proofs::Adding::left_none))]
fn acted_keys(alloc: Global, features: &FeatureSet) -> AllocResult<Vec<Key<'_>>>
    ensures { IfOk result (λ v. map key_of v.items ≡ acted_keys
        (map_meaning (λ v. map string_bytes v.items) features.now)) }
{
    let mut keys = Vec::new(alloc);
    for (_, texts) in features {
        add_list(&mut keys, texts.as_slice())?;
    }
    Ok(keys)
}

// Keys as a set: all, or those that are marked.
fn set_of<'m>(alloc: Global, keys: &[Key<'m>], marked: bool) -> AllocResult<BTreeSet<&'m str>>
    ensures { IfOk result
        (λ s. (k : Text) → set_has s k ≡ has_key marked (map key_of keys.now) k) }
{
    let mut set = BTreeSet::new(alloc);
    for key in keys {
        if key.1 | !marked {
            add_text(&mut set, key.0)?;
        }
    }
    Ok(set)
}

/// The names that a manifest has.
pub(crate) fn known_names<'m, M>(alloc: Global, manifest: &'m Manifest<M>) -> AllocResult<Known<'m>>
    ensures names { IfOk result (λ known. held_names known
        ≡ all_names (held manifest.now)) }
    ensures listed { IfOk result (λ known. listed_by known
        ≡ (held manifest.now).features) }
{
    let keys = dependency_keys(alloc, manifest)?;
    let acted = acted_keys(alloc, &manifest.features)?;
    Ok(Known {
        features: &manifest.features,
        dependencies: set_of(alloc, keys.as_slice(), false)?,
        optional: set_of(alloc, keys.as_slice(), true)?,
        acted: set_of(alloc, acted.as_slice(), false)?,
        reserved: set_of(alloc, acted.as_slice(), true)?,
    })
}

impl Known<'_> {
    /// Whether the table of features has the name.
    pub(crate) fn lists(&self, name: &str) -> bool
        ensures { result ≡ (held_names self.now).listed name.now }
    {
        self.features.contains_key(name)
    }
}
