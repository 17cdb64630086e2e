//! Which dependencies an answer has.
ghost use Rattle.std.specs.Prelude.{◌≡◌, ◌↔◌, ◌<◌, Bool, IfOk, IsTrue, OnOk, Some, bytes_eq};
ghost use Rattle.std.specs.{Prelude.if◌then◌else◌, Prelude.length, Prelude.map, List.list_any};
ghost use Rattle.cargo_toml_graph.specs.{Action.Text, Ascending.Ascend, Reach.Among};
ghost use Rattle.cargo_toml_graph.specs.{Admitted.Listed};
ghost use Rattle.cargo_toml_features.specs.{Recorded.is_mentioned, Vertices.vertex_names};
ghost use Rattle.cargo_toml_features.specs.Recorded.{entries_at, recorded_of};
ghost use Rattle.cargo_toml_features.specs.FullGraph.{counts_alone, counts_at, is_mentioned_in};
ghost use Rattle.cargo_toml_features.specs.FullGraph.{recorded_after, recorded_at, recorded_next};
ghost use Rattle.cargo_toml_features.specs.FullGraph.{recorded_nowhere, recorded_with};
ghost use Rattle.cargo_toml_features.specs.{Slots.HaveSameNames, Slots.names_in, Views.entry_of};
ghost use Rattle.cargo_toml_features.specs.{Views.recorded_in, Views.target_in, Places.nth_text};

use crate::acted::Acted;
use crate::features::{FeatureDependency, ParseDependency, TargetKey};
use crate::node::Node;
use crate::places::empty_slots;
use crate::slots::Slots;
use crate::texts::ascending;
use crate::vertices::{Vertex, lists};
use std::alloc::{AllocError, Global};
use std::collections::BTreeMap;

/// What lists mention.
#[derive(Drop)]
pub struct Mentions<'m> {
    /// The features, in the byte order of their names.
    pub vertices: Vec<Vertex<'m>>,
    /// The keys that they act on.
    pub acted: Acted<'m>,
}

// Where the entry stands.
#[inline(always)]
fn target_key<'m>(entry: &ParseDependency<'m, '_>) -> TargetKey<'m>
    ensures { target_in result ≡ (entry_of entry.now).target }
{
    TargetKey {
        kind: entry.kind,
        target: entry.target,
    }
}

// What is recorded of a key before its first target.
#[inline(always)]
fn without_targets<'m: 'd, 'd>(
    alloc: Global,
    entry: &ParseDependency<'m, 'd>,
) -> FeatureDependency<'d>
    ensures { recorded_in result ≡ recorded_nowhere (entry_of entry.now) }
{
    FeatureDependency {
        crate_name: entry.dep.package().unwrap_or(entry.key),
        targets: BTreeMap::new(alloc),
    }
}

// One more entry of the key: the first dependency for each target stays.
#[inline(always)]
fn add_target<'m: 'd, 'd>(
    dependency: &mut FeatureDependency<'d>,
    entry: &ParseDependency<'m, 'd>,
) -> Result<(), AllocError>
    ensures { OnOk result (recorded_in dependency.new
        ≡ recorded_next (recorded_in dependency.old) (entry_of entry.now)) }
{
    let target = target_key(entry);
    dependency.targets.entry(target)?.or_insert(entry.dep);
    Ok(())
}

// Whether an entry counts by itself.
#[inline(always)]
fn counts<'m>(mentions: &Mentions<'m>, entry: &ParseDependency<'m, '_>) -> bool
    requires { Ascend (vertex_names mentions.now.vertices.items) }
    ensures { result ≡ counts_alone (is_mentioned_in mentions.now) (entry_of entry.now) }
{
    entry.dep.optional()
        || mentions.acted.has(entry.key)
        || lists(mentions.vertices.as_slice(), entry.key)
}

// Whether there is no feature except `default`, which is always there.
fn has_default_alone(mentions: &Mentions<'_>) -> bool {
    mentions.vertices.len() == 1
}

// Whether one of the entries counts by itself.
fn counts_any<'m>(mentions: &Mentions<'m>, entries: &[ParseDependency<'m, '_>]) -> bool
    requires { Ascend (vertex_names mentions.now.vertices.items) }
    ensures { result ≡ list_any (counts_alone (is_mentioned_in mentions.now))
        (map entry_of entries.now) }
{
    for entry in entries {
        if counts(mentions, entry) {
            return true;
        }
    }
    false
}

// Which entries count by themselves, and the keys of these.
#[derive(Drop)]
struct Counting<'d> {
    // of each entry whether it counts by itself
    flags: Vec<bool>,
    // one for each that does
    keys: Vec<&'d str>,
}

// Tells of each entry whether it counts by itself.
fn counting_entries<'m: 'd, 'd>(
    alloc: Global,
    mentions: &Mentions<'m>,
    entries: &[ParseDependency<'m, 'd>],
) -> Result<Counting<'d>, AllocError>
    requires { Ascend (vertex_names mentions.now.vertices.items) }
    ensures flags { IfOk result (λ v. v.flags.items
        ≡ map (counts_alone (is_mentioned_in mentions.now)) (map entry_of entries.now)) }
    ensures keys { IfOk result (λ v. (k : Text) → Among (map (λ t. t.now) v.keys.items) k
        ↔ IsTrue
        (list_any (counts_at (is_mentioned_in mentions.now) k) (map entry_of entries.now))) }
{
    let mut flags = Vec::with_capacity(alloc, entries.len())?;
    let mut keys = Vec::with_capacity(alloc, entries.len())?;
    for entry in entries {
        let is_counted = counts(mentions, entry);
        flags.push(is_counted)?;
        if is_counted {
            keys.push(entry.key)?;
        }
    }
    Ok(Counting { flags, keys })
}

// Records an entry under its key.
#[inline(always)]
fn record_at<'m: 'd, 'd>(
    alloc: Global,
    dependencies: &mut Slots<'d, FeatureDependency<'d>>,
    key: Node,
    entry: &ParseDependency<'m, 'd>,
) -> Result<(), AllocError>
    requires key { key < length dependencies.old.names.items }
    requires named { nth_text (names_in dependencies.old) key ≡ entry.now.key.now }
    ensures recorded { OnOk result ((q : Text) → recorded_at dependencies.new q
        ≡ (if bytes_eq entry.now.key.now q
        then Some (recorded_with (recorded_at dependencies.old q) (entry_of entry.now))
        else recorded_at dependencies.old q)) }
    ensures same_names { OnOk result (HaveSameNames dependencies.old dependencies.new) }
{
    let first = without_targets(alloc, entry);
    let mut dependency = dependencies.values[key.place()].take().unwrap_or(first);
    add_target(&mut dependency, entry)?;
    dependencies.put(key, dependency);
    Ok(())
}

// Records an entry if it counts; `is_counted` says whether it does by itself. The answer is the
// place after it, or else `near`, where it is looked for first. The key of an entry that counts by
// itself is a name.
#[inline(always)]
fn record_entry<'m: 'd, 'd>(
    alloc: Global,
    dependencies: &mut Slots<'d, FeatureDependency<'d>>,
    entry: &ParseDependency<'m, 'd>,
    is_counted: bool,
    near: usize,
) -> Result<usize, AllocError>
    requires named { IsTrue is_counted → Among (names_in dependencies.old) entry.now.key.now }
    ensures recorded { OnOk result ((mentioned : Text → Bool) →
        is_counted ≡ counts_alone mentioned (entry_of entry.now) →
        (q : Text) → recorded_at dependencies.new q
        ≡ recorded_after mentioned (entry_of entry.now) q (recorded_at dependencies.old q)) }
    ensures same_names { OnOk result (HaveSameNames dependencies.old dependencies.new) }
{
    let Some(key) = dependencies.key_near(entry.key, near) else {
        return Ok(near);
    };
    let next = key.place().saturating_add(1);
    if is_counted || dependencies.values[key.place()].is_some() {
        record_at(alloc, dependencies, key, entry)?;
    }
    Ok(next)
}

/// The dependencies of the entries that count, where the vertices of `mentions` stand in byte
/// order. It fails only when out of memory.
pub fn record_dependencies<'m: 'd, 'd>(
    alloc: Global,
    mentions: &Mentions<'m>,
    entries: &[ParseDependency<'m, 'd>],
) -> Result<Slots<'d, FeatureDependency<'d>>, AllocError>
    requires { Ascend (vertex_names mentions.now.vertices.items) }
    ensures recorded { IfOk result (λ s. (listed : Listed)
        → ((k : Text) → is_mentioned_in mentions.now k ≡ is_mentioned listed k) → (k : Text)
        → recorded_at s k ≡ recorded_of (entries_at listed (map entry_of entries.now) k)) }
{
    // Most manifests have no feature except `default`, and no optional dependency either.
    if has_default_alone(mentions) && !counts_any(mentions, entries) {
        return empty_slots(alloc, Vec::new(alloc));
    }
    let Counting { flags, keys } = counting_entries(alloc, mentions, entries)?;
    let names = ascending(keys);
    let mut dependencies = empty_slots(alloc, names)?;
    let mut near = 0;
    let mut place = 0;
    for entry in entries {
        near = record_entry(alloc, &mut dependencies, entry, flags[place], near)?;
        place += 1;
    }
    Ok(dependencies)
}
