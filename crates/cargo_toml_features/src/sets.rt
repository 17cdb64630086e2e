//! Sets of texts.
ghost use Rattle.std.specs.Prelude.{◌≡◌, IfOk, bytes_eq, map};
ghost use Rattle.std.specs.List.{list_any};
ghost use Rattle.cargo_toml_graph.specs.Action.{Text};
ghost use Rattle.cargo_toml_features.specs.Views.{set_has};

use crate::action::add_text;
use std::alloc::{AllocError, Global};
use std::collections::BTreeSet;

/// Up to so many texts are put into a set sooner one by one than by a sort.
pub const FEW: usize = 16;

// The texts one after another, as a set.
fn inserted<'m>(alloc: Global, texts: &[&'m str]) -> Result<BTreeSet<&'m str>, AllocError>
    ensures { IfOk result
        (λ s. (x : Text) → set_has s x ≡ list_any (bytes_eq x) (map (λ t. t.now) texts.now)) }
{
    let mut set = BTreeSet::new(alloc);
    for text in texts {
        add_text(&mut set, *text)?;
    }
    Ok(set)
}

// The texts as a set, which is made in one go.
fn collected<'m>(alloc: Global, texts: &[&'m str]) -> Result<BTreeSet<&'m str>, AllocError>
    ensures { IfOk result
        (λ s. (x : Text) → set_has s x ≡ list_any (bytes_eq x) (map (λ t. t.now) texts.now)) }
{
    texts.iter().copied().collect(alloc)
}

/// The texts as a set. Few are inserted, which takes less memory than to sort them. It fails only
/// when out of memory.
pub fn set_of<'m>(alloc: Global, texts: &[&'m str]) -> Result<BTreeSet<&'m str>, AllocError>
    ensures { IfOk result
        (λ s. (x : Text) → set_has s x ≡ list_any (bytes_eq x) (map (λ t. t.now) texts.now)) }
{
    if texts.len() > FEW {
        collected(alloc, texts)
    } else {
        inserted(alloc, texts)
    }
}
