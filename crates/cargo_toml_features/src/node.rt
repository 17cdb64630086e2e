//! How a vertex of a graph is named.
ghost use Rattle.std.specs.Prelude.{◌≡◌, ℕ};

use std::marker::Model;

/// A vertex of a graph, or a label of one, by its place in the list of their texts.
///
/// A type of its own, so that it can't be mixed up with a count. A clause sees the place, also in
/// lists. That the place is below the end of the list stands in the type that holds both.
#[derive(Clone, Copy, Debug, PartialEq, Eq, PartialOrd, Ord)]
pub struct Node {
    place: usize,
}

impl Model for Node {
    ghost Value = { ℕ };

    ghost view = { λ n. n.place };

    ghost inverse = { λ n. record { place = n } };
}

impl Node {
    /// The node in a place.
    pub fn at(place: usize) -> Self
        ensures { result ≡ place }
    {
        Node { place }
    }

    /// Where it stands.
    pub fn place(self) -> usize
        ensures { result ≡ self }
    {
        self.place
    }
}
