//! What a vertex reaches through removed vertices.
ghost use Rattle.std.specs.Prelude.{◌≡◌, ◌<◌, ◌≤◌, ◌↔◌, ℕ, length, true, false, IfOk, IsTrue, OnOk};
ghost use Rattle.cargo_toml_graph.specs.Reach.{Among};
ghost use Rattle.cargo_toml_resolve.specs.Numbers.{AreMarked, FindsNamed, HasLabel, IsPassed};
ghost use Rattle.cargo_toml_resolve.specs.Numbers.{IsWanted, Leads};

use crate::marks::Marks;
use crate::rows::Rows;
use cargo_toml_features::node::Node;
use std::alloc::{AllocError, Global};

/// Whether the flag of one of the row stands.
pub fn has_flagged(row: &[Node], flags: &[bool]) -> bool
    requires { (x : ℕ) → Among row.now x → x < length flags.now }
    ensures { IsTrue result ↔ ((x : ℕ) × Among row.now x × IsWanted flags.now true x) }
{
    for x in row {
        if flags[x.place()] {
            return true;
        }
    }
    false
}

// x is met, and put at the end where it was not met before.
fn meet(found: &mut Vec<Node>, met: &mut Marks, x: Node) -> Result<(), AllocError>
    requires inside { x < length met.old }
    requires marks { AreMarked found.old.items met.old }
    ensures { OnOk result
        (FindsNamed (λ y. y ≡ x) found.old.items found.new.items met.old met.new) }
{
    if met.mark(x) {
        found.push(x)?;
    }
    Ok(())
}

// The targets whose flag is `wanted` are met.
fn visit(
    found: &mut Vec<Node>,
    met: &mut Marks,
    targets: &[Node],
    flags: &[bool],
    wanted: bool,
) -> Result<(), AllocError>
    requires fits { length met.old ≤ length flags.now }
    requires inside { (y : ℕ) → Among targets.now y → y < length met.old }
    requires marks { AreMarked found.old.items met.old }
    ensures { OnOk result (FindsNamed
        (λ y. Among targets.now y × IsWanted flags.now wanted y)
        found.old.items found.new.items met.old met.new) }
{
    for x in targets {
        if flags[x.place()] == wanted {
            meet(found, met, *x)?;
        }
    }
    Ok(())
}

// The labels of the passed vertices whose flag is false are met.
fn visit_rows(
    found: &mut Vec<Node>,
    met: &mut Marks,
    labels: &Rows,
    passed: &[Node],
    flags: &[bool],
) -> Result<(), AllocError>
    requires passed { (b : ℕ) → Among passed.now b → b < length labels.now }
    requires fits { length met.old ≤ length flags.now }
    requires inside { (a x : ℕ) → Leads labels.now a x → x < length met.old }
    requires marks { AreMarked found.old.items met.old }
    ensures { OnOk result (FindsNamed
        (λ x. ((b : ℕ) × Among passed.now b × Leads labels.now b x)
        × IsWanted flags.now false x)
        found.old.items found.new.items met.old met.new) }
{
    for b in passed {
        visit(found, met, labels.row(*b), flags, false)?;
    }
    Ok(())
}

// The removed vertices that `start` reaches through removed ones.
fn passing(
    found: &mut Vec<Node>,
    met: &mut Marks,
    start: Node,
    edges: &Rows,
    is_removed: &[bool],
) -> Result<(), AllocError>
    requires start { start < length edges.now }
    requires fits { length met.old ≤ length is_removed.now }
    requires whole { (a b : ℕ) → Leads edges.now a b → b < length edges.now }
    requires inside { length edges.now ≤ length met.old }
    ensures passed { OnOk result ((b : ℕ) → Among found.new.items b
        ↔ IsPassed edges.now is_removed.now start b) }
    ensures len { OnOk result (length met.new ≡ length met.old) }
{
    found.clear();
    met.clear();
    visit(found, met, edges.row(start), is_removed, true)?;
    let mut next = 0;
    while next < found.len() {
        let at = found[next];
        visit(found, met, edges.row(at), is_removed, true)?;
        next += 1;
    }
    Ok(())
}

/// What walks over a graph use again and again, and what the last one found.
#[derive(Drop)]
pub struct Walk {
    /// Which nodes are met.
    pub met: Marks,
    /// The removed vertices that the last start passes.
    pub passed: Vec<Node>,
    /// The labels that were found last.
    pub labels: Vec<Node>,
}

impl Walk {
    /// For so many nodes. It fails only when out of memory.
    pub fn new(alloc: Global, count: usize) -> Result<Walk, AllocError>
        ensures { IfOk result (λ w. length w.met ≡ count) }
    {
        Ok(Walk {
            met: Marks::new(alloc, count)?,
            passed: Vec::new(alloc),
            labels: Vec::new(alloc),
        })
    }

    /// Finds the removed vertices that `start` reaches through removed ones. It fails only when out
    /// of memory.
    pub fn pass(&mut self, start: Node, edges: &Rows, is_removed: &[bool]) -> Result<(), AllocError>
        requires start { start < length edges.now }
        requires fits { length self.old.met ≤ length is_removed.now }
        requires whole { (a b : ℕ) → Leads edges.now a b → b < length edges.now }
        requires inside { length edges.now ≤ length self.old.met }
        ensures passed { OnOk result ((b : ℕ) → Among self.new.passed.items b
            ↔ IsPassed edges.now is_removed.now start b) }
        ensures len { OnOk result (length self.new.met ≡ length self.old.met) }
    {
        passing(&mut self.passed, &mut self.met, start, edges, is_removed)
    }

    /// Finds the labels of a vertex and of the passed ones, without those whose flag stands. It
    /// fails only when out of memory.
    pub fn label(&mut self, own: Node, labels: &Rows, flags: &[bool]) -> Result<(), AllocError>
        requires own { own < length labels.now }
        requires passed { (b : ℕ) → Among self.old.passed.items b → b < length labels.now }
        requires fits { length self.old.met ≤ length flags.now }
        requires inside { (a x : ℕ) → Leads labels.now a x → x < length self.old.met }
        ensures labels { OnOk result ((x : ℕ) → Among self.new.labels.items x
            ↔ HasLabel (Among self.old.passed.items) labels.now flags.now own x) }
        ensures passed { OnOk result (self.new.passed ≡ self.old.passed) }
        ensures len { OnOk result (length self.new.met ≡ length self.old.met) }
    {
        self.labels.clear();
        self.met.clear();
        visit(
            &mut self.labels,
            &mut self.met,
            labels.row(own),
            flags,
            false,
        )?;
        let passed = self.passed.as_slice();
        visit_rows(&mut self.labels, &mut self.met, labels, passed, flags)
    }
}
