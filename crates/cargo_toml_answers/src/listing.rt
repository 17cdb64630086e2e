//! The features of a manifest.
ghost use Rattle.std.specs.Prelude.{◌≡◌, ◌≤◌, ◌⊎◌, IfErr, IfOk, IsUtf8, OnOk, false, string_bytes};
ghost use Rattle.std.specs.Prelude.{◌^◌, Bool};
ghost use Rattle.serde_json.specs.Data.{Data, no_members, object};
ghost use Rattle.serde_json.specs.Written.{compact_text};
ghost use Rattle.std.specs.{BTreeSet.contains_text, List.flat_map};
ghost use Rattle.cargo_toml.specs.{Action.Text, Error.Memory};
ghost use Rattle.cargo_toml_check.specs.Listed.{AreMembers, IsListing, action_json, feature_json};
ghost use Rattle.cargo_toml_check.specs.Listed.{row_at};
ghost use Rattle.cargo_toml_tools.specs.IndexEntries.{with_rows};
ghost use Rattle.cargo_toml_answers.specs.Adding.{Adds, rows_tokens, tokens_of};
ghost use Rattle.cargo_toml_answers.specs.Answered.{IsListed, IsRefusedFor, IsRefusedText, Reads};
ghost use Rattle.cargo_toml_answers.specs.Answered.{is_line};
ghost use Rattle.cargo_toml_answers.specs.Refused.{IsRefusalFor};
ghost use Rattle.cargo_toml_depth.specs.Nesting.{is_too_deep};

use crate::refusal::{Refusal, bad_argument};
use crate::sets::{ended_by, set_of};
use crate::texts::{Keys, answered, argument, manifest_in, readable};
use crate::writing::{Put, put_list, put_member, text_of, writer};
use cargo_toml::features::{DepAction, Feature, Features, Resolver};
use cargo_toml::{Error, Manifest};
use cargo_toml_check::features::is_cut;
use cargo_toml_features::texts::keys_in_order;
use cargo_toml_lint::AllocResult;
use json::Writer;
use std::alloc::Global;
use std::collections::{BTreeSet, HashMap};
use std::hash::BuildHasher;

/// Which features are asked for.
#[derive(Clone, Copy, Debug)]
pub struct Asked<'a> {
    /// The hidden names that are kept, a line each.
    pub keep: &'a [u8],
    /// How many items count, from 1 to 4294967295: names of features, texts of each, and keys of
    /// each table of dependencies.
    pub max_items: u64,
}

/// The features that the manifest in a text resolves to, as an object: that of
/// `cargo_toml_check::features::features_json`. The manifest isn't completed.
///
/// Refused where the text isn't UTF-8, nests deeper than 128, or doesn't read as a manifest; where
/// the names to be kept aren't UTF-8, or the limit isn't such a number; or out of memory.
pub fn features(alloc: Global, text: &[u8], asked: Asked<'_>, keys: Keys) -> Result<String, Refusal>
    ensures shallow { OnOk result (is_too_deep text.now ≡ false) }
    ensures listed { IfOk result (λ json. Reads text.now (λ m.
        IsListed asked.entry.max_items (is_line asked.entry.keep.now) m (string_bytes json))) }
    ensures refused { IfErr result (IsRefusalFor ((¬ IsUtf8 asked.entry.keep.now)
        ⊎ ((asked.entry.max_items ≡ 0) ⊎ (2 ^ 32 ≤ asked.entry.max_items)))
        (IsRefusedFor text.now (λ _ e. e ≡ Memory))) }
{
    let text = readable(alloc, text)?;
    let keep = argument(alloc, asked.keep, "the names that are kept aren't UTF-8")?;
    let max_items = asked.max_items;
    if max_items == 0 || max_items > 4_294_967_295 {
        return Err(bad_argument(alloc, "the limit of items isn't one from 1 to 4294967295"));
    }
    let lines = ended_by(alloc, keep, '\n')?;
    let kept = set_of(alloc, lines.as_slice())?;
    answered(
        alloc,
        text,
        listing_of(alloc, text, kept, max_items as usize, keys),
    )
}

fn listing_of(
    alloc: Global,
    text: &str,
    kept: BTreeSet<String>,
    max_items: usize,
    keys: Keys,
) -> Result<String, Error>
    requires shallow { is_too_deep text.now ≡ false }
    requires counts { 1 ≤ max_items }
    ensures listed { IfOk result (λ json. (keep : Text → Bool)
        → ((name : Text) → contains_text kept name ≡ keep name)
        → Reads text.now (λ m. IsListed max_items keep m (string_bytes json))) }
    ensures refused { IfErr result (IsRefusedText text.now (λ _ e. e ≡ Memory)) }
{
    let held = manifest_in(alloc, text)?;
    listed(alloc, &*held.manifest, kept, max_items, keys)
}

fn listed(
    alloc: Global,
    manifest: &Manifest,
    kept: BTreeSet<String>,
    max_items: usize,
    keys: Keys,
) -> Result<String, Error>
    requires { 1 ≤ max_items }
    ensures listed { IfOk result (λ json. (keep : Text → Bool)
        → ((name : Text) → contains_text kept name ≡ keep name)
        → IsListed max_items keep manifest.now (string_bytes json)) }
    ensures refused { IfErr result (λ e. e ≡ Memory) }
{
    let keep = move |name: &str| kept.contains(name);
    let resolver = Resolver::new_with_hasher_and_filter(keys, &keep);
    let limited = resolver.with_max_items(max_items);
    let features = limited.parse(alloc, manifest)?;
    let cut = is_cut(manifest, max_items);
    Ok(listing_json(alloc, &features, cut)?)
}

fn listing_json<S: BuildHasher>(
    alloc: Global,
    features: &Features<'_, '_, S>,
    cut: bool,
) -> AllocResult<String>
    ensures { IfOk result (λ json. (all : Data)
        × (IsListing cut features.now all × (string_bytes json ≡ compact_text all))) }
{
    let mut out = writer(alloc)?;
    out.begin_object()?;
    put_member(&mut out, "cut", &cut)?;
    out.key("features")?;
    put_found(alloc, &mut out, &features.features)?;
    out.key("hidden")?;
    put_found(alloc, &mut out, &features.hidden_features)?;
    out.end_object()?;
    text_of(out)
}

/// Writes all that a map has, by its names.
fn put_found<X: Put, S: BuildHasher>(
    alloc: Global,
    out: &mut Writer,
    found: &HashMap<&str, X, S>,
) -> AllocResult<()>
    ensures { OnOk result ((all : Data)
        × (AreMembers X.json found.now all × Adds out.old out.new (tokens_of all))) }
{
    let names = keys_in_order(alloc, found)?;
    put_named(out, found, &names)
}

/// Writes what a map has under these names.
fn put_named<X: Put, S: BuildHasher>(
    out: &mut Writer,
    found: &HashMap<&str, X, S>,
    names: &BTreeSet<&str>,
) -> AllocResult<()>
    ensures { OnOk result (Adds out.old out.new (tokens_of (object
        (with_rows (flat_map (λ k. row_at X.json found.now k.now) names.now.keys) no_members)))) }
{
    out.begin_object()?;
    for name in names.iter() {
        put_one(out, found, *name)?;
    }
    out.end_object()?;
    Ok(())
}

/// Writes what a map has under a name, if anything, as a member.
fn put_one<X: Put, S: BuildHasher>(
    out: &mut Writer,
    found: &HashMap<&str, X, S>,
    name: &str,
) -> AllocResult<()>
    ensures { OnOk result
        (Adds out.old out.new (rows_tokens (row_at X.json found.now name.now))) }
{
    match found.get(name) {
        Some(one) => put_member(out, name, one),
        None => Ok(()),
    }
}

impl Put for Feature<'_> {
    ghost json = { feature_json };

    fn put(&self, out: &mut Writer) -> AllocResult<()> {
        out.begin_object()?;
        put_list(out, "binaries", self.required_by_bins.as_slice())?;
        put_member(out, "dependencies", &self.enables_deps)?;
        put_member(out, "enabled_by", &self.enabled_by)?;
        put_member(out, "listed", &self.explicit)?;
        put_member(out, "names", &self.enables_features)?;
        put_member(out, "public", &self.public)?;
        put_member(out, "text", &self.doc)?;
        out.end_object()?;
        Ok(())
    }
}

impl Put for DepAction<'_> {
    ghost json = { action_json };

    fn put(&self, out: &mut Writer) -> AllocResult<()> {
        out.begin_object()?;
        put_member(out, "conditional", &self.is_conditional)?;
        put_member(out, "dep_only", &self.is_dep_only)?;
        put_member(out, "features", &self.dep_features)?;
        out.end_object()?;
        Ok(())
    }
}
