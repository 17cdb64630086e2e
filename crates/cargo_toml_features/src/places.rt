//! Values are put and looked up by the places of their names.
ghost use Rattle.std.specs.Prelude.{◌≡◌, ◌<◌, IfOk, IfSome, IsTrue, None, Some, bytes_eq};
ghost use Rattle.std.specs.Prelude.{if◌then◌else◌, length, map};
ghost use Rattle.std.specs.Option.{option_copied};
ghost use Rattle.cargo_toml_graph.specs.{Action.Text, Reach.Among, Ascending.Ascend};
ghost use Rattle.cargo_toml_features.specs.Slots.{HaveSameNames, held_in, names_in};
ghost use Rattle.cargo_toml_features.specs.Places.{nth_text};

use crate::node::Node;
use crate::slots::Slots;
use crate::texts::{is_same, place_of};
use std::alloc::{AllocError, Global};

/// The names, which ascend, and none of which has a value. It fails only when out of memory.
pub fn empty_slots<'n, V: Drop>(
    alloc: Global,
    names: Vec<&'n str>,
) -> Result<Slots<'n, V>, AllocError>
    requires { Ascend (map (λ n. n.now) names.items) }
    ensures names { IfOk result (λ s. s.names.items ≡ names.entry.items) }
    ensures empty { IfOk result (λ s. (f : Text) → held_in s f ≡ None) }
{
    let mut values = Vec::with_capacity(alloc, names.len())?;
    for _ in 0..names.len() {
        values.push(None)?;
    }
    Ok(Slots { names, values })
}

// Whether the name stands at this place.
#[inline(always)]
fn stands_at(names: &[&str], place: usize, name: &str) -> bool
    ensures { IsTrue result
        → (place < length names.now) × (nth_text (map (λ n. n.now) names.now) place ≡ name.now) }
{
    place < names.len() && is_same(names[place], name)
}

/// Where a name stands, if it does. It is looked for at `near` and the place before it first: where
/// names are looked up in their order and `near` is the place after the last one, they stand there.
#[inline(always)]
pub fn place_near(names: &[&str], name: &str, near: usize) -> Option<usize>
    requires { Ascend (map (λ n. n.now) names.now) }
    ensures found { IfSome result
        (λ i. (i < length names.now) × (nth_text (map (λ n. n.now) names.now) i ≡ name.now)) }
    ensures missing { result ≡ None → ¬ Among (map (λ n. n.now) names.now) name.now }
{
    if stands_at(names, near, name) {
        return Some(near);
    }
    let last = near.saturating_sub(1);
    if stands_at(names, last, name) {
        return Some(last);
    }
    place_of(names, name)
}

impl<'n, V: Drop> Slots<'n, V> {
    /// The value under a name.
    pub fn get(&self, name: &str) -> Option<&V>
        ensures { option_copied result ≡ held_in self.now name.now }
    {
        let place = place_of(self.names.as_slice(), name)?;
        self.values[place].as_ref()
    }

    /// The key of a name, if it is there. It is looked for as by [`place_near`].
    #[inline(always)]
    pub fn key_near(&self, name: &str, near: usize) -> Option<Node>
        ensures found { IfSome result (λ k. (k < length self.now.names.items)
            × (nth_text (names_in self.now) k ≡ name.now)) }
        ensures missing { result ≡ None → ¬ Among (names_in self.now) name.now }
    {
        let place = place_near(self.names.as_slice(), name, near)?;
        Some(Node::at(place))
    }

    /// Puts a value under a key.
    #[inline(always)]
    pub fn put(&mut self, key: Node, value: V)
        requires key { key < length self.old.names.items }
        ensures same_names { HaveSameNames self.old self.new }
        ensures held { (f : Text) → held_in self.new f
            ≡ (if bytes_eq f (nth_text (names_in self.old) key) then Some value
            else held_in self.old f) }
    {
        self.values[key.place()] = Some(value);
    }
}
