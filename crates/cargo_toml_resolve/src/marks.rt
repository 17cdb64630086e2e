//! A set of nodes that is emptied at no cost.
ghost use Rattle.std.specs.Prelude.{◌≡◌, ◌<◌, IfOk, false, true, length, not, replicate, slice_set};
ghost use Rattle.std.specs.List.{slice_index_or};

use cargo_toml_features::node::Node;
use std::alloc::{AllocError, Global};
use std::marker::Model;

/// Which nodes are marked. A node is marked where its stamp is the epoch, and the next epoch marks
/// none.
#[derive(Drop)]
pub struct Marks {
    stamps: Vec<usize>,
    epoch: usize,
}

impl Model for Marks {
    ghost use Rattle.std.specs.Prelude.{◌≤◌, ℕ, Bool, List, map, nat_eq};
    ghost use Rattle.std.specs.List.{slice_index_or};

    ghost Value = { List Bool };

    ghost view = { λ m. map (λ s. nat_eq s m.epoch) m.stamps.items };

    ghost invariant = { λ m. (x : ℕ) → slice_index_or m.stamps.items x 0 ≤ m.epoch };
}

impl Marks {
    /// So many nodes, none of which is marked. It fails only when out of memory.
    pub fn new(alloc: Global, count: usize) -> Result<Marks, AllocError>
        ensures { IfOk result (λ m. m ≡ replicate count false) }
    {
        let stamps = Vec::from_elem(alloc, 0, count)?;
        Ok(Marks { stamps, epoch: 1 })
    }

    /// None is marked.
    pub fn clear(&mut self)
        ensures { self.new ≡ replicate (length self.old) false }
    {
        match self.epoch.checked_add(1) {
            Some(epoch) => self.epoch = epoch,
            None => {
                self.stamps.fill(0);
                self.epoch = 1;
            }
        }
    }

    /// Marks a node. Whether it wasn't marked before.
    pub fn mark(&mut self, x: Node) -> bool
        requires { x < length self.old }
        ensures is_new { result ≡ not (slice_index_or self.old x false) }
        ensures marked { self.new ≡ slice_set self.old x true }
    {
        let stamp = &mut self.stamps[x.place()];
        if *stamp == self.epoch {
            return false;
        }
        *stamp = self.epoch;
        true
    }
}
