//! Texts in byte order, and where one stands among them.
ghost use Rattle.std.specs.Prelude.{◌≡◌, ◌↔◌, ◌<◌, IfOk, IfSome, IsTrue, None, bytes_eq, false};
ghost use Rattle.std.specs.Prelude.{is_some, length, map};
ghost use Rattle.cargo_toml_graph.specs.{Ascending.Ascend, Action.Text, Reach.Among};
ghost use Rattle.cargo_toml_features.specs.{Places.nth_text, Views.set_has, Views.value_at};

use std::alloc::{AllocError, Global};
use std::collections::{BTreeSet, HashMap};
use std::hash::BuildHasher;

/// Among so many texts a linear search is faster than a binary one: most differ from another by
/// their length.
pub const FEW: usize = 24;

/// The texts in byte order, each once.
pub fn in_order<'m>(mut texts: Vec<&'m str>) -> Vec<&'m str>
    ensures all { (x : Text) → Among (map (λ t. t.now) result.items) x
        ↔ Among (map (λ t. t.now) texts.entry.items) x }
    ensures ascending { Ascend (map (λ t. t.now) result.items) }
{
    texts.sort_unstable();
    texts.dedup();
    texts
}

// Whether each text is below those after it.
fn ascends(texts: &[&str]) -> bool
    ensures { IsTrue result → Ascend (map (λ t. t.now) texts.now) }
{
    texts.is_sorted_by(|text, next| *text < *next)
}

/// The texts in byte order, each once. Texts that stand so already aren't sorted again.
pub fn ascending<'m>(texts: Vec<&'m str>) -> Vec<&'m str>
    ensures all { (x : Text) → Among (map (λ t. t.now) result.items) x
        ↔ Among (map (λ t. t.now) texts.entry.items) x }
    ensures ascend { Ascend (map (λ t. t.now) result.items) }
{
    if ascends(texts.as_slice()) {
        texts
    } else {
        in_order(texts)
    }
}

/// The keys of a hashed map, in byte order. It fails only when out of memory.
pub fn keys_in_order<'m, X, S: BuildHasher>(
    alloc: Global,
    found: &HashMap<&'m str, X, S>,
) -> Result<BTreeSet<&'m str>, AllocError>
    ensures { IfOk result (λ s. (f : Text) → set_has s f ≡ is_some (value_at found.now f)) }
{
    let mut keys = BTreeSet::new(alloc);
    for key in found.keys() {
        keys.insert(*key)?;
    }
    Ok(keys)
}

/// Whether two texts are the same. Most differ in length, which is seen without a call.
#[inline(always)]
pub fn is_same(a: &str, b: &str) -> bool
    ensures { result ≡ bytes_eq a.now b.now }
{
    a.len() == b.len() && a == b
}

/// What has a name, by which it is looked up.
pub trait Named {
    ghost text: { Self → Text };

    /// Its name.
    fn name(&self) -> &str
        ensures { result.now ≡ text self.now };
}

impl Named for &str {
    ghost text = { λ t. t.now };

    #[inline(always)]
    fn name(&self) -> &str {
        *self
    }
}

// Where a name stands first, if it does.
fn first_of<T: Named>(all: &[T], name: &str) -> Option<usize>
    ensures found { IfSome result
        (λ i. (i < length all.now) × (nth_text (map T.text all.now) i ≡ name.now)) }
    ensures missing { result ≡ None → ¬ Among (map T.text all.now) name.now }
{
    all.iter().position(|one| is_same(one.name(), name))
}

// Whether the name stands at this place.
fn stands_at<T: Named>(all: &[T], place: usize, name: &str) -> bool
    ensures yes { IsTrue result
        → (place < length all.now) × (nth_text (map T.text all.now) place ≡ name.now) }
    ensures no { result ≡ false → place < length all.now
        → nth_text (map T.text all.now) place ≡ name.now → ⊥ }
{
    place < all.len() && is_same(all[place].name(), name)
}

// Where a name stands among names in byte order, if it does.
fn searched<T: Named>(all: &[T], name: &str) -> Option<usize>
    requires { Ascend (map T.text all.now) }
    ensures found { IfSome result
        (λ i. (i < length all.now) × (nth_text (map T.text all.now) i ≡ name.now)) }
    ensures missing { result ≡ None → ¬ Among (map T.text all.now) name.now }
{
    let place = all.partition_point(|one| one.name() < name);
    if stands_at(all, place, name) {
        Some(place)
    } else {
        None
    }
}

/// Where a name stands among names in byte order, if it does.
pub fn place_of<T: Named>(all: &[T], name: &str) -> Option<usize>
    requires { Ascend (map T.text all.now) }
    ensures found { IfSome result
        (λ i. (i < length all.now) × (nth_text (map T.text all.now) i ≡ name.now)) }
    ensures missing { result ≡ None → ¬ Among (map T.text all.now) name.now }
{
    if all.len() > FEW {
        searched(all, name)
    } else {
        first_of(all, name)
    }
}
