//! Adjacency lists of nodes in one array.
ghost use Rattle.std.specs.Prelude.{◌≡◌, ◌<◌, ◌≤◌, ◌++◌, ◌∷◌, [], ℕ, IfOk, OnOk, length, slice_set};
ghost use Rattle.std.specs.List.{slice_index_or, slice_range};

use crate::span::Span;
use cargo_toml_features::node::Node;
use std::alloc::{AllocError, Global};
use std::marker::Model;

/// A row of nodes for each vertex. They stand in one list, and a row that is replaced moves to its
/// end.
#[derive(Drop)]
pub struct Rows {
    nodes: Vec<Node>,
    spans: Vec<Span>,
}

impl Model for Rows {
    ghost use Rattle.std.specs.Prelude.{ℕ, List, length};

    ghost Value = { List (List ℕ) };

    ghost use Rattle.cargo_toml_resolve.specs.Spans.{AreInside, rows_in};

    ghost view = { λ r. rows_in r.nodes.items r.spans.items };

    ghost invariant = { λ r. AreInside (length r.nodes.items) r.spans.items };
}

// The nodes of a span.
fn part(nodes: &[Node], span: Span) -> &[Node]
    requires order { span.start ≤ span.end }
    requires fits { span.end ≤ length nodes.now }
    ensures { result.now ≡ slice_range nodes.now span.start span.end }
{
    &nodes[span.start..span.end]
}

impl Rows {
    /// No rows, with room for so many, and for as many nodes. It fails only when out of memory.
    pub fn with_capacity(alloc: Global, count: usize) -> Result<Rows, AllocError>
        ensures { IfOk result (λ rows. rows ≡ []) }
    {
        Ok(Rows {
            nodes: Vec::with_capacity(alloc, count)?,
            spans: Vec::with_capacity(alloc, count)?,
        })
    }

    /// How many rows there are.
    pub fn len(&self) -> usize
        ensures { result ≡ length self.now }
    {
        self.spans.len()
    }

    /// The row of a vertex.
    pub fn row(&self, at: Node) -> &[Node]
        requires { at < length self.now }
        ensures { result.now ≡ slice_index_or self.now at [] }
    {
        part(&self.nodes, self.spans[at.place()])
    }

    /// One more row is put at the end, which is empty. It fails only when out of memory.
    pub fn push_none(&mut self) -> Result<(), AllocError>
        ensures { OnOk result (self.new ≡ self.old ++ [] ∷ []) }
    {
        let end = self.nodes.len();
        self.spans.push(Span { start: end, end })?;
        Ok(())
    }

    /// One more row is put at the end. It fails only when out of memory.
    pub fn push(&mut self, row: &[Node]) -> Result<(), AllocError>
        ensures { OnOk result (self.new ≡ self.old ++ row.now ∷ []) }
    {
        let start = self.nodes.len();
        self.nodes.extend_from_slice(row)?;
        let end = self.nodes.len();
        self.spans.push(Span { start, end })?;
        Ok(())
    }

    /// The row of a vertex is replaced. It fails only when out of memory.
    pub fn replace(&mut self, at: Node, row: &[Node]) -> Result<(), AllocError>
        requires { at < length self.old }
        ensures { OnOk result (self.new ≡ slice_set self.old at row.now) }
    {
        let start = self.nodes.len();
        self.nodes.extend_from_slice(row)?;
        let end = self.nodes.len();
        self.spans[at.place()] = Span { start, end };
        Ok(())
    }
}
