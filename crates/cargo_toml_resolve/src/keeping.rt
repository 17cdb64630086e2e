//! Kept features take over from the removed ones that they pass, one feature after another.
ghost use Rattle.std.specs.Prelude.{◌≡◌, ◌<◌, OnOk, false, length};
ghost use Rattle.cargo_toml_resolve.specs.Holding.{AllTakeOver, TakesOver};
ghost use Rattle.cargo_toml_resolve.specs.{Numbers.IsWanted, Texts.texts_now};

use crate::enabling::enable_along;
use crate::graph::Graph;
use crate::node_sets::set_of_nodes;
use crate::taking_over::hold;
use crate::walk::{Walk, has_flagged};
use cargo_toml_features::features::Feature;
use cargo_toml_features::node::Node;
use std::alloc::{AllocError, Global};

// A kept feature takes over from the removed ones that it passes, and is put among what enables
// each kept one that it then enables.
fn keep<'m>(
    alloc: Global,
    features: &mut Vec<Feature<'m>>,
    graph: &Graph<'m>,
    own: Node,
    walk: &mut Walk,
) -> Result<(), AllocError>
    requires count { length graph.now.edges ≡ length features.old.items }
    requires own { own < length graph.now.edges }
    requires kept { IsWanted graph.now.flags.items false own }
    requires room { length walk.old.met ≡ length graph.now.flags.items }
    ensures kept { OnOk result (TakesOver graph.now.edges graph.now.names graph.now.flags.items
        (texts_now graph.now.texts.items) own features.old.items features.new.items) }
    ensures room { OnOk result (length walk.new.met ≡ length walk.old.met) }
{
    let source = graph.texts[own.place()];
    let row = graph.edges.row(own);
    let flags = graph.flags.as_slice();
    // Most features pass none: then all to which it has an edge are kept.
    if !has_flagged(row, flags) {
        return enable_along(features, row, source);
    }
    walk.pass(own, &graph.edges, flags)?;
    walk.label(own, &graph.edges, flags)?;
    enable_along(features, walk.labels.as_slice(), source)?;
    walk.label(own, &graph.names, flags)?;
    let names = set_of_nodes(alloc, walk.labels.as_slice(), graph.texts.as_slice())?;
    hold(alloc, features, own, walk.passed.as_slice(), names)
}

/// Each kept feature takes over from the removed ones that it passes, and learns which kept ones
/// enable it. No more is held at a time than what one feature passes and names. It fails only when
/// out of memory.
pub(crate) fn keep_all<'m>(
    alloc: Global,
    features: &mut Vec<Feature<'m>>,
    graph: &Graph<'m>,
    walk: &mut Walk,
) -> Result<(), AllocError>
    requires count { length graph.now.edges ≡ length features.old.items }
    requires room { length walk.old.met ≡ length graph.now.flags.items }
    ensures kept { OnOk result (AllTakeOver graph.now.edges graph.now.names
        graph.now.flags.items (texts_now graph.now.texts.items) (length graph.now.edges)
        features.old.items features.new.items) }
    ensures room { OnOk result (length walk.new.met ≡ length walk.old.met) }
{
    for own in 0..graph.edges.len() {
        if !graph.flags[own] {
            keep(alloc, features, graph, Node::at(own), walk)?;
        }
    }
    Ok(())
}
