//! The features of a manifest, in the byte order of their names.
ghost use Rattle.std.specs.Prelude.{◌≡◌, ◌+◌, ◌<◌, ◌^◌, ◌++◌, ◌∷◌, [], ◌||◌, List, IfOk, OnOk};
ghost use Rattle.std.specs.Prelude.{IfSome};
ghost use Rattle.std.specs.Prelude.{Some, bytes_eq, codes, map, length, false, true, string_bytes};
ghost use Rattle.std.specs.Prelude.{if◌then◌else◌};
ghost use Rattle.std.specs.{Option.option_map_or};
ghost use Rattle.cargo_toml_package.specs.Details.{plain_detail};
ghost use Rattle.cargo_toml_graph.specs.{Action.Text, Ascending.Ascend, Admitted.is_below};
ghost use Rattle.cargo_toml_features.specs.FullGraph.{is_offered, is_offered_alone};
ghost use Rattle.cargo_toml_features.specs.{Marks.named_details, Places.nth_text, Said.StandAt};
ghost use Rattle.cargo_toml_features.specs.{Said.texts_in, Searching.has_key, Searching.is_one_of};
ghost use Rattle.cargo_toml_features.specs.{Views.entry_of, Views.listed_of, Vertices.AreVertices};
ghost use Rattle.cargo_toml_features.specs.Vertices.{IsAtBound, IsMerged, IsMergedInOrder};
ghost use Rattle.cargo_toml_features.specs.Vertices.{IsSameMerge, Told, default_before, left_keys};
ghost use Rattle.cargo_toml_features.specs.Vertices.{listing_names, taken_keys, told_names};
ghost use Rattle.cargo_toml_features.specs.Vertices.{told_of};
ghost use Rattle.cargo_toml_features.specs.Vertices.{vertex_at, vertex_names};

use crate::acted::Acted;
use crate::admit::Listing;
use crate::features::ParseDependency;
use crate::texts::{Named, ascending, is_same, place_of};
use cargo_toml_package::FeatureDetail;
use std::alloc::{AllocError, Global};

/// Where items begin and end.
#[derive(Clone, Copy)]
pub struct Span {
    /// The place of the first.
    pub start: usize,
    /// The place behind the last.
    pub end: usize,
}

/// A feature, before it is made.
#[derive(Clone, Copy)]
pub struct Vertex<'m> {
    /// Its name.
    pub name: &'m str,
    /// Where its items stand among those of all lists.
    pub items: Span,
    /// What the table of details says of it, if anything.
    pub detail: Option<&'m FeatureDetail>,
    /// Whether it is listed, or is `default`. Else a dependency of its name implies it, on which it
    /// acts.
    pub is_listed: bool,
}

impl Named for Vertex<'_> {
    ghost text = { λ v. v.name.now };

    #[inline(always)]
    fn name(&self) -> &str {
        self.name
    }
}

/// Whether a feature of the name is listed, or is `default`. The vertices stand in byte order.
pub fn lists(vertices: &[Vertex<'_>], name: &str) -> bool
    requires { Ascend (vertex_names vertices.now) }
    ensures { result
        ≡ option_map_or (λ v. v.is_listed) (vertex_at vertices.now name.now) false }
{
    match place_of(vertices, name) {
        Some(place) => vertices[place].is_listed,
        None => false,
    }
}

// Whether the entry is optional, and no action on its key is dep-only.
fn offers(acted: &Acted<'_>, entry: &ParseDependency<'_, '_>) -> bool
    ensures { result ≡ is_offered_alone (has_key acted.now.reserved) (entry_of entry.now) }
{
    entry.dep.optional() && !acted.reserves(entry.key)
}

// Adds the key of the entry, if it implies a feature.
fn add_offered<'m>(
    keys: &mut Vec<&'m str>,
    acted: &Acted<'m>,
    entry: &ParseDependency<'m, '_>,
) -> Result<(), AllocError>
    ensures { OnOk result ((q : Text) → has_key keys.new q ≡ (has_key keys.old q
        || is_offered (has_key acted.now.reserved) (entry_of entry.now ∷ []) q)) }
{
    if offers(acted, entry) {
        keys.push(entry.key)?;
    }
    Ok(())
}

// The keys that imply a feature, if none of the name is listed, in byte order.
fn offered<'m>(
    alloc: Global,
    acted: &Acted<'m>,
    entries: &[ParseDependency<'m, '_>],
) -> Result<Vec<&'m str>, AllocError>
    ensures ascend { IfOk result (λ ks. Ascend (map (λ k. k.now) ks.items)) }
    ensures keys { IfOk result (λ ks. (q : Text) → is_one_of (map (λ k. k.now) ks.items) q
        ≡ is_offered (has_key acted.now.reserved) (map entry_of entries.now) q) }
{
    let mut keys = Vec::new(alloc);
    for entry in entries {
        add_offered(&mut keys, acted, entry)?;
    }
    Ok(ascending(keys))
}

// Whether the key is below the bound, if there is one.
fn is_within(key: &str, bound: Option<&str>) -> bool
    ensures { result ≡ option_map_or (λ b. is_below key.now b.now) bound.entry true }
{
    match bound {
        Some(bound) => key < bound,
        None => true,
    }
}

// Whether the first listing is that of `default`.
fn begins_with_default(listings: &[Listing<'_>]) -> bool
    ensures { default_before listings.now
        ≡ (if result then [] else (codes "default", ([], plain_detail)) ∷ []) }
{
    match listings {
        [first, ..] => is_same(first.name, "default"),
        [] => false,
    }
}

// Features that are merged of those that are listed and those that keys imply.
#[derive(Drop)]
struct Merge<'l, 'm> {
    all: Vec<Vertex<'m>>,
    keys: &'l [&'m str],
    // how many keys are merged
    next: usize,
    // how many texts the listings have that are merged
    start: usize,
}

impl<'m> Merge<'_, 'm> {
    // The feature of the next key.
    fn imply_next(&mut self) -> Result<(), AllocError>
        requires next { self.old.next < length self.old.keys.now }
        requires in_order { IsMergedInOrder self.old }
        ensures in_order { OnOk result (IsMergedInOrder self.new) }
        ensures next { OnOk result (self.new.next ≡ self.old.next + 1) }
        ensures names { OnOk result (vertex_names self.new.all.items
            ≡ vertex_names self.old.all.items
            ++ nth_text (map (λ k. k.now) self.old.keys.now) self.old.next ∷ []) }
        ensures merged { OnOk result ((all : List Text) (told : Told)
            → StandAt all self.old.start [] → IsMerged all told self.old
            → IsMerged all told self.new) }
        ensures rest { OnOk result (IsSameMerge self.old self.new) }
    {
        let keys = self.keys;
        self.all.push(Vertex {
            name: keys[self.next],
            items: Span {
                start: self.start,
                end: self.start,
            },
            detail: None,
            is_listed: false,
        })?;
        self.next += 1;
        Ok(())
    }

    // The features of the keys below a name, or of all where there is none.
    fn imply(&mut self, bound: Option<&str>) -> Result<(), AllocError>
        requires in_order { IsMergedInOrder self.old }
        requires below { IfSome bound
            (λ b. Ascend (vertex_names self.old.all.items ++ b.now ∷ [])) }
        ensures in_order { OnOk result (IsMergedInOrder self.new) }
        ensures below { OnOk result (IfSome bound.entry
            (λ b. Ascend (vertex_names self.new.all.items ++ b.now ∷ []))) }
        ensures bound { OnOk result (IsAtBound bound.entry self.new) }
        ensures merged { OnOk result ((all : List Text) (told : Told)
            → StandAt all self.old.start [] → IsMerged all told self.old
            → IsMerged all told self.new) }
        ensures rest { OnOk result (IsSameMerge self.old self.new) }
    {
        let keys = self.keys;
        while self.next < keys.len() && is_within(keys[self.next], bound) {
            self.imply_next()?;
        }
        Ok(())
    }

    // A key of this name, which is the next one if there is any, implies none.
    fn skip(&mut self, name: &str)
        requires in_order { IsMergedInOrder self.old }
        requires below { Ascend (vertex_names self.old.all.items ++ name.now ∷ []) }
        requires bound { IsAtBound (Some name) self.old }
        ensures in_order { Ascend (vertex_names self.new.all.items ++ name.now ∷ left_keys self.new) }
        ensures taken { (f : Text) → bytes_eq f name.now ≡ false
            → is_one_of (taken_keys self.new) f ≡ is_one_of (taken_keys self.old) f }
        ensures all { self.new.all ≡ self.old.all }
        ensures rest { IsSameMerge self.old self.new }
    {
        let keys = self.keys;
        if self.next < keys.len() && is_same(keys[self.next], name) {
            self.next += 1;
        }
    }

    // A listed feature, with those that keys below its name imply.
    fn list(&mut self, listing: &Listing<'m>) -> Result<(), AllocError>
        requires in_order { IsMergedInOrder self.old }
        requires below { Ascend (vertex_names self.old.all.items ++ listing.now.name.now ∷ []) }
        requires fits { self.old.start + length listing.now.actions.now < 2 ^ 64 }
        ensures in_order { OnOk result (IsMergedInOrder self.new) }
        ensures below { OnOk result ((us : List Text)
            → Ascend (vertex_names self.old.all.items ++ listing.now.name.now ∷ us)
            → Ascend (vertex_names self.new.all.items ++ us)) }
        ensures merged { OnOk result ((all : List Text) (told : Told)
            → StandAt all self.old.start (map string_bytes listing.now.actions.now)
            → IsMerged all told self.old
            → IsMerged all (told ++ told_of (listing.now ∷ [])) self.new) }
        ensures keys { OnOk result (self.new.keys ≡ self.old.keys) }
        ensures start { OnOk result
            (self.new.start ≡ self.old.start + length listing.now.actions.now) }
    {
        self.imply(Some(listing.name))?;
        self.skip(listing.name);
        let end = self.start + listing.actions.len();
        self.all.push(Vertex {
            name: listing.name,
            items: Span {
                start: self.start,
                end,
            },
            detail: listing.detail,
            is_listed: true,
        })?;
        self.start = end;
        Ok(())
    }

    // The same of each listing.
    fn list_each(&mut self, listings: &[Listing<'m>]) -> Result<(), AllocError>
        requires in_order { IsMergedInOrder self.old }
        requires below { Ascend (vertex_names self.old.all.items ++ listing_names listings.now) }
        requires fits { self.old.start + length (texts_in (listed_of listings.now)) < 2 ^ 64 }
        ensures in_order { OnOk result (IsMergedInOrder self.new) }
        ensures below { OnOk result ((us : List Text)
            → Ascend (vertex_names self.old.all.items ++ (listing_names listings.now ++ us))
            → Ascend (vertex_names self.new.all.items ++ us)) }
        ensures merged { OnOk result ((all : List Text) (told : Told)
            → StandAt all self.old.start (texts_in (listed_of listings.now))
            → IsMerged all told self.old → IsMerged all (told ++ told_of listings.now) self.new) }
        ensures keys { OnOk result (self.new.keys ≡ self.old.keys) }
        ensures start { OnOk result (self.new.start
            ≡ self.old.start + length (texts_in (listed_of listings.now))) }
    {
        for listing in listings {
            self.list(listing)?;
        }
        Ok(())
    }

    // The feature `default`, where those that follow don't begin with it.
    fn list_default(&mut self, rest: &[Listing<'m>]) -> Result<(), AllocError>
        requires in_order { IsMergedInOrder self.old }
        requires below { Ascend (vertex_names self.old.all.items ++ codes "default" ∷ []) }
        requires fits { self.old.start < 2 ^ 64 }
        ensures in_order { OnOk result (IsMergedInOrder self.new) }
        ensures below { OnOk result ((us : List Text)
            → Ascend (vertex_names self.old.all.items
            ++ (told_names (default_before rest.now) ++ us))
            → Ascend (vertex_names self.new.all.items ++ us)) }
        ensures merged { OnOk result ((all : List Text) (told : Told)
            → StandAt all self.old.start [] → IsMerged all told self.old
            → IsMerged all (told ++ default_before rest.now) self.new) }
        ensures keys { OnOk result (self.new.keys ≡ self.old.keys) }
        ensures start { OnOk result (self.new.start ≡ self.old.start) }
    {
        if begins_with_default(rest) {
            return Ok(());
        }
        self.list(&Listing {
            name: "default",
            actions: &[],
            detail: None,
        })?;
        Ok(())
    }
}

// The listings with a name below `default`, and the rest. They stand in byte order.
fn split_default<'l, 'm>(listings: &'l [Listing<'m>]) -> (&'l [Listing<'m>], &'l [Listing<'m>])
    requires { Ascend (listing_names listings.now) }
    ensures whole { listings.now ≡ result.0.now ++ result.1.now }
    ensures below { Ascend (listing_names result.0.now ++ codes "default" ∷ []) }
    ensures between { Ascend (listing_names result.0.now
        ++ (told_names (default_before result.1.now) ++ listing_names result.1.now)) }
{
    let place = listings.partition_point(|listing| listing.name < "default");
    listings.split_at(place)
}

/// All features: those that are listed, which stand in byte order; `default`; those that optional
/// dependencies imply. It fails only when out of memory.
pub fn vertices_of<'m>(
    alloc: Global,
    listings: &[Listing<'m>],
    acted: &Acted<'m>,
    entries: &[ParseDependency<'m, '_>],
) -> Result<Vec<Vertex<'m>>, AllocError>
    requires ascend { Ascend (listing_names listings.now) }
    requires fits { length (texts_in (listed_of listings.now)) < 2 ^ 64 }
    ensures { IfOk result (λ vs. AreVertices (listed_of listings.now) (named_details listings.now)
        (is_offered (has_key acted.now.reserved) (map entry_of entries.now)) vs.items) }
{
    let keys = offered(alloc, acted, entries)?;
    let room = listings.len().saturating_add(keys.len()).saturating_add(1);
    let mut merge = Merge {
        all: Vec::with_capacity(alloc, room)?,
        keys: keys.as_slice(),
        next: 0,
        start: 0,
    };
    let (first, rest) = split_default(listings);
    merge.list_each(first)?;
    merge.list_default(rest)?;
    merge.list_each(rest)?;
    merge.imply(None)?;
    let Merge { all, .. } = merge;
    Ok(all)
}
