//! Removed features are taken out of their graph, and others take over what they said.
ghost use Rattle.std.specs.{Prelude.◌≡◌, Prelude.IfOk, Prelude.length};
ghost use Rattle.cargo_toml_features.specs.InOrder.{HaveNoEnablers};
ghost use Rattle.cargo_toml_resolve.specs.Placed.{ArePlaced};

use crate::graph::{Graph, Walked};
use crate::keeping::keep_all;
use crate::passing::pass_bins;
use crate::redirects::{Redirects, find_redirects};
use crate::walk::Walk;
use cargo_toml_features::features::Feature;
use std::alloc::{AllocError, Global};

/// In each place what is kept of the feature there, and what stands for the removed ones. None of
/// them knows an enabler before.
///
/// A removed feature stays in its place with its names. It fails only when out of memory.
pub(crate) fn remove<'m>(
    alloc: Global,
    features: &mut Vec<Feature<'m>>,
    graph: Graph<'m>,
) -> Result<Walked<'m>, AllocError>
    requires count { length graph.edges ≡ length features.old.items }
    requires no_enablers { HaveNoEnablers features.old.items }
    ensures { IfOk result (ArePlaced graph.entry features.old.items features.new.items) }
{
    let mut walk = Walk::new(alloc, graph.flags.len())?;
    keep_all(alloc, features, &graph, &mut walk)?;
    let Graph {
        texts,
        edges,
        names,
        flags,
    } = graph;
    let is_removed = flags.as_slice();
    let found = find_redirects(alloc, edges, names, is_removed, &mut walk)?;
    let Redirects { rows, moved } = found;
    pass_bins(alloc, features, &rows, is_removed)?;
    Ok(Walked {
        texts,
        flags,
        redirects: rows,
        moved,
    })
}
