//! What stands for removed vertices, one after another.
ghost use Rattle.std.specs.Prelude.{◌≡◌, ◌<◌, ◌≤◌, ◌↔◌, ℕ, List, length, IfOk, OnOk};
ghost use Rattle.cargo_toml_graph.specs.Reach.{Among};
ghost use Rattle.cargo_toml_resolve.specs.Numbers.{AreWithin, FindsRedirects, HasLabel, IsPassed};
ghost use Rattle.cargo_toml_resolve.specs.Numbers.{Leads, Moves, Replaces};

use crate::rows::Rows;
use crate::walk::{Walk, has_flagged};
use cargo_toml_features::node::Node;
use std::alloc::{AllocError, Global};

// The row of a vertex becomes what it and the passed rows have, without the finished ones. Whether
// it had to change.
fn finish(
    rows: &mut Rows,
    own: Node,
    finished: &[bool],
    walk: &mut Walk,
) -> Result<bool, AllocError>
    requires own { own < length rows.old }
    requires passed { (b : ℕ) → Among walk.old.passed.items b → b < length rows.old }
    requires fits { length walk.old.met ≤ length finished.now }
    requires inside { (a x : ℕ) → Leads rows.old a x → x < length walk.old.met }
    ensures row { IfOk result (Moves own
        (HasLabel (Among walk.old.passed.items) rows.old finished.now own) rows.old rows.new) }
    ensures passed { OnOk result (walk.new.passed ≡ walk.old.passed) }
    ensures len { OnOk result (length walk.new.met ≡ length walk.old.met) }
{
    if walk.passed.is_empty() && !has_flagged(rows.row(own), finished) {
        return Ok(false);
    }
    walk.label(own, rows, finished)?;
    rows.replace(own, walk.labels.as_slice())?;
    Ok(true)
}

/// What stands for each removed vertex, and whether that may differ from what it has itself.
#[derive(Drop)]
pub struct Redirects {
    /// The redirect of each removed vertex. What other rows hold is open where `moved` is set.
    pub rows: Rows,
    /// For each node whether its row may differ from its labels.
    pub moved: Vec<bool>,
}

// The redirect of one removed vertex. Whether it had to change.
fn redirect(
    edges: &mut Rows,
    labels: &mut Rows,
    own: Node,
    finished: &[bool],
    walk: &mut Walk,
) -> Result<bool, AllocError>
    requires own { own < length edges.old }
    requires within { AreWithin edges.old labels.old finished.now }
    requires room { length walk.old.met ≡ length finished.now }
    ensures rows { IfOk result (λ is_moved. (passed : List ℕ)
        × ((b : ℕ) → Among passed b ↔ IsPassed edges.old finished.now own b)
        × Replaces own (HasLabel (Among passed) edges.old finished.now own) edges.old edges.new
        × Moves own (HasLabel (Among passed) labels.old finished.now own)
        labels.old labels.new is_moved) }
    ensures room { OnOk result (length walk.new.met ≡ length walk.old.met) }
{
    walk.pass(own, edges, finished)?;
    let is_moved = finish(labels, own, finished, walk)?;
    finish(edges, own, finished, walk)?;
    Ok(is_moved)
}

/// For each removed vertex its redirect: the labels that it has once the removed vertices below it
/// are taken out. The others keep their labels. It fails only when out of memory.
pub fn find_redirects(
    alloc: Global,
    mut edges: Rows,
    mut labels: Rows,
    is_removed: &[bool],
    walk: &mut Walk,
) -> Result<Redirects, AllocError>
    requires within { AreWithin edges labels is_removed.now }
    requires room { length walk.old.met ≡ length is_removed.now }
    ensures { IfOk result (λ r. FindsRedirects edges labels is_removed.now r.moved.items r.rows) }
{
    let total = is_removed.len();
    let mut finished = Vec::from_elem(alloc, false, total)?;
    let mut moved = Vec::from_elem(alloc, false, total)?;
    for r in 0..edges.len() {
        if is_removed[r] {
            let own = Node::at(r);
            let flags = finished.as_slice();
            moved[r] = redirect(&mut edges, &mut labels, own, flags, walk)?;
            finished[r] = true;
        }
    }
    Ok(Redirects {
        rows: labels,
        moved,
    })
}
