//! The keys that features act on are gathered, and looked up.
ghost use Rattle.std.specs.Prelude.{◌≡◌, ◌||◌, IfOk, OnOk, bytes_eq, map};
ghost use Rattle.std.specs.List.{list_any};
ghost use Rattle.cargo_toml_features.specs.Said.{acts_on, reserves, said_by};
ghost use Rattle.cargo_toml_features.specs.Searching.{IsSearchable, IsSearchable-prop, has_key};
ghost use Rattle.cargo_toml_graph.specs.Action.{Text};

use crate::said::ListItem;
use crate::texts::{FEW, ascending, is_same, place_of};
use std::alloc::{AllocError, Global};

/// The keys that features act on. More than a few stand in byte order, each once.
#[derive(Drop)]
pub struct Acted<'m> {
    /// All keys.
    pub keys: Vec<&'m str>,
    /// Those of them on which some action is dep-only (`dep:key`).
    pub reserved: Vec<&'m str>,
    ghost keys_searchable: { IsSearchable (map (λ k. k.now) keys.items) } by { IsSearchable-prop
        (map (λ k. k.now) keys.items) },
    ghost reserved_searchable: { IsSearchable (map (λ k. k.now) reserved.items) } by { (
        IsSearchable-prop (map (λ k. k.now) reserved.items)) },
}

// Texts in a form in which `holds` finds them: a few as they are, since `place_of` too would go
// through them, and more in byte order.
fn searchable<'m>(texts: Vec<&'m str>) -> Vec<&'m str>
    ensures same { (k : Text) → has_key result k ≡ has_key texts.entry k }
    ensures searchable { IsSearchable (map (λ t. t.now) result.items) }
{
    if texts.len() > FEW {
        ascending(texts)
    } else {
        texts
    }
}

// Whether the text is one of these.
#[inline(always)]
fn holds(texts: &[&str], text: &str) -> bool
    requires { IsSearchable (map (λ t. t.now) texts.now) }
    ensures { result ≡ list_any (bytes_eq text.now) (map (λ t. t.now) texts.now) }
{
    if texts.len() > FEW {
        place_of(texts, text).is_some()
    } else {
        texts.iter().any(|other| is_same(text, *other))
    }
}

// Adds the key on which the item acts, if it does: once for each action.
fn add_key<'m>(
    keys: &mut Vec<&'m str>,
    reserved: &mut Vec<&'m str>,
    item: &ListItem<'m>,
) -> Result<(), AllocError>
    ensures keys { OnOk result
        ((k : Text) → has_key keys.new k ≡ (has_key keys.old k || acts_on k (said_by item.now))) }
    ensures reserved { OnOk result ((k : Text)
        → has_key reserved.new k ≡ (has_key reserved.old k || reserves k (said_by item.now))) }
{
    if !item.acts {
        return Ok(());
    }
    keys.push(item.said.target)?;
    if item.said.is_dep_only {
        reserved.push(item.said.target)?;
    }
    Ok(())
}

/// The keys on which items act. It fails only when out of memory.
pub fn acted_of<'m>(alloc: Global, items: &[ListItem<'m>]) -> Result<Acted<'m>, AllocError>
    ensures keys { IfOk result
        (λ a. (k : Text) → has_key a.keys k ≡ list_any (acts_on k) (map said_by items.now)) }
    ensures reserved { IfOk result
        (λ a. (k : Text) → has_key a.reserved k ≡ list_any (reserves k) (map said_by items.now)) }
{
    let mut keys = Vec::with_capacity(alloc, items.len().min(FEW))?;
    let mut reserved = Vec::new(alloc);
    for item in items {
        add_key(&mut keys, &mut reserved, item)?;
    }
    Ok(Acted {
        keys: searchable(keys),
        reserved: searchable(reserved),
    })
}

impl Acted<'_> {
    /// Whether some feature acts on the key.
    pub fn has(&self, key: &str) -> bool
        ensures { result ≡ has_key self.now.keys key.now }
    {
        holds(self.keys.as_slice(), key)
    }

    /// Whether some action on the key is dep-only.
    pub fn reserves(&self, key: &str) -> bool
        ensures { result ≡ has_key self.now.reserved key.now }
    {
        holds(self.reserved.as_slice(), key)
    }
}
