//! Sets of the texts of nodes.
ghost use Rattle.std.specs.Prelude.{◌≡◌, ◌<◌, ℕ, IfOk, bytes_eq, length, map};
ghost use Rattle.std.specs.List.{list_any};
ghost use Rattle.cargo_toml_graph.specs.Action.{Text};
ghost use Rattle.cargo_toml_graph.specs.Reach.{Among};
ghost use Rattle.cargo_toml_features.specs.{Places.nth_text, Views.set_has};
ghost use Rattle.cargo_toml_resolve.specs.{Holding.HasTextsOf, Texts.texts_now};

use cargo_toml_features::action::add_text;
use cargo_toml_features::node::Node;
use cargo_toml_features::sets::{FEW, set_of};
use std::alloc::{AllocError, Global};
use std::collections::BTreeSet;

// The texts of nodes, in their order.
fn list_of<'m>(alloc: Global, nodes: &[Node], texts: &[&'m str]) -> Result<Vec<&'m str>, AllocError>
    requires { (x : ℕ) → Among nodes.now x → x < length texts.now }
    ensures { IfOk result
        (λ v. texts_now v.items ≡ map (nth_text (texts_now texts.now)) nodes.now) }
{
    let mut list = Vec::with_capacity(alloc, nodes.len())?;
    for x in nodes {
        list.push(texts[x.place()])?;
    }
    Ok(list)
}

// The texts of nodes are put into a set one by one, with no list of them.
fn inserted<'m>(
    alloc: Global,
    nodes: &[Node],
    texts: &[&'m str],
) -> Result<BTreeSet<&'m str>, AllocError>
    requires { (x : ℕ) → Among nodes.now x → x < length texts.now }
    ensures { IfOk result (λ s. (t : Text) → set_has s t
        ≡ list_any (bytes_eq t) (map (nth_text (texts_now texts.now)) nodes.now)) }
{
    let mut set = BTreeSet::new(alloc);
    for x in nodes {
        add_text(&mut set, texts[x.place()])?;
    }
    Ok(set)
}

/// The texts of nodes, as a set. It fails only when out of memory.
pub(crate) fn set_of_nodes<'m>(
    alloc: Global,
    nodes: &[Node],
    texts: &[&'m str],
) -> Result<BTreeSet<&'m str>, AllocError>
    requires { (x : ℕ) → Among nodes.now x → x < length texts.now }
    ensures { IfOk result (HasTextsOf (texts_now texts.now) nodes.now) }
{
    if nodes.len() <= FEW {
        return inserted(alloc, nodes, texts);
    }
    let list = list_of(alloc, nodes, texts)?;
    set_of(alloc, list.as_slice())
}
