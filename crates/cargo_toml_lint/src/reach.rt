//! What each vertex of a graph leads to, by any number of edges.
ghost use Rattle.std.specs.Prelude.{◌≡◌, ◌≢◌, ◌<◌, ◌≤◌, ◌+◌, ◌↔◌, ◌⊎◌, ◌++◌, ◌∷◌, [], ℕ, IfOk};
ghost use Rattle.std.specs.Prelude.{IsTrue, OnOk, length};
ghost use Rattle.cargo_toml_lint.specs.Reached.{HasEdges, IsFinished, IsFlagged, IsInRing, IsWhole};
ghost use Rattle.cargo_toml_lint.specs.Reached.{Leads, Path, Searches, Stands, edges_left, row_at};

use crate::AllocResult;
use std::alloc::Global;

/// A graph of numbered vertices, and what each leads to.
#[derive(Drop)]
pub struct Reach {
    /// The edges of each vertex.
    pub next: Vec<Vec<usize>>,
    /// Whether it leads to each, itself too: no flags without edges, or while that isn't sought.
    rows: Vec<Vec<bool>>,
}

// Sets the flags that stand in the other list too.
fn join(flags: &mut Vec<bool>, other: &[bool])
    requires { length other.now ≤ length flags.old.items }
    ensures len { length flags.new.items ≡ length flags.old.items }
    ensures joined { (x : ℕ) → IsFlagged flags.new.items x
        ↔ (IsFlagged flags.old.items x ⊎ IsFlagged other.now x) }
{
    for k in 0..other.len() {
        flags[k] |= other[k];
    }
}

// A vertex is met: what it leads to is flagged, or its edges are to be taken.
fn meet(row: &mut Vec<bool>, waiting: &mut Vec<usize>, reach: &Reach, x: usize) -> AllocResult<()>
    requires whole { IsWhole reach.now }
    requires inside { x < length reach.now.next.items }
    requires wide { length row.old.items ≡ length reach.now.next.items }
    ensures goes_on { OnOk result ((start : ℕ)
        → Searches reach.now start row.old.items (waiting.old.items ++ x ∷ [])
        → Searches reach.now start row.new.items waiting.new.items) }
    ensures work { OnOk result
        (length waiting.new.items + edges_left reach.now.next.items row.new.items
        ≤ length waiting.old.items + edges_left reach.now.next.items row.old.items) }
{
    if row[x] {
        return Ok(());
    }
    let own = reach.row(x);
    if own.is_empty() {
        row[x] = true;
        waiting.extend_from_slice(reach.targets(x))?;
    } else {
        join(row, own);
    }
    Ok(())
}

// What a vertex leads to, by what others do whose rows stand.
fn row_of(alloc: Global, reach: &Reach, start: usize) -> AllocResult<Vec<bool>>
    requires whole { IsWhole reach.now }
    requires inside { start < length reach.now.next.items }
    ensures wide { IfOk result (λ row. length row.items ≡ length reach.now.next.items) }
    ensures right { IfOk result (λ row. (y : ℕ) → IsFlagged row.items y
        ↔ Path reach.now.next.items start y) }
{
    let mut row = Vec::from_elem(alloc, false, reach.next.len())?;
    let mut waiting = vec![in alloc; start]?;
    while let Some(x) = waiting.pop() {
        meet(&mut row, &mut waiting, reach, x)?;
    }
    Ok(row)
}

// The row of a vertex is found, if it has edges.
fn settle(alloc: Global, reach: &mut Reach, x: usize) -> AllocResult<()>
    requires whole { IsWhole reach.old }
    requires inside { x < length reach.old.next.items }
    ensures whole { OnOk result (IsWhole reach.new) }
    ensures next { reach.new.next ≡ reach.old.next }
    ensures own { OnOk result (HasEdges reach.old x → Stands reach.new x) }
    ensures others { OnOk result ((y : ℕ) → Stands reach.old y → Stands reach.new y) }
{
    if reach.rows[x].is_empty() & !reach.next[x].is_empty() {
        let row = row_of(alloc, reach, x)?;
        reach.rows[x] = row;
    }
    Ok(())
}

// No row stands.
fn unsettled(alloc: Global, next: Vec<Vec<usize>>) -> AllocResult<Reach>
    requires { (a b : ℕ) → Leads next.items a b → b < length next.items }
    ensures whole { IfOk result IsWhole }
    ensures next { IfOk result (λ r. r.next ≡ next) }
{
    let mut rows = Vec::with_capacity(alloc, next.len())?;
    for _ in 0..next.len() {
        rows.push(Vec::new(alloc))?;
    }
    Ok(Reach { next, rows })
}

// The vertices as a search in depth ends with them: each behind those that it leads to, but for
// rings. It decides speed alone, so no clause says what it is.
fn by_ends(alloc: Global, next: &[Vec<usize>]) -> AllocResult<Vec<usize>> {
    let mut order = Vec::with_capacity(alloc, next.len())?;
    let mut is_met = Vec::from_elem(alloc, false, next.len())?;
    let mut open = Vec::new(alloc);
    for root in 0..next.len() {
        open.push((root, false))?;
        for _ in 0..u64::MAX {
            match open.pop() {
                Some((x, true)) => order.push(x)?,
                Some((x, false)) => open_if_new(next, &mut is_met, &mut open, x)?,
                None => break,
            }
        }
    }
    Ok(order)
}

// Those to which a vertex leads that is met for the first time are to be met before it ends.
fn open_if_new(
    next: &[Vec<usize>],
    is_met: &mut Vec<bool>,
    open: &mut Vec<(usize, bool)>,
    x: usize,
) -> AllocResult<()> {
    if x < next.len() && x < is_met.len() && !is_met[x] {
        is_met[x] = true;
        open.push((x, true))?;
        for to in &next[x] {
            open.push((*to, false))?;
        }
    }
    Ok(())
}

/// What each vertex of a graph leads to.
///
/// The row of a vertex is made behind those of the vertices that it leads to, which stand by then.
/// So a graph without rings takes edges times vertices steps at most, and each vertex in a ring up
/// to as many again. Only a vertex with edges has a row: another one leads to itself alone. The one
/// refusal is out of memory.
pub fn reach_all(alloc: Global, next: Vec<Vec<usize>>) -> AllocResult<Reach>
    requires { (a b : ℕ) → Leads next.items a b → b < length next.items }
    ensures finished { IfOk result IsFinished }
    ensures next { IfOk result (λ r. r.next ≡ next) }
{
    let order = by_ends(alloc, next.as_slice())?;
    let count = next.len();
    let mut reach = unsettled(alloc, next)?;
    for x in &order {
        if *x < count {
            settle(alloc, &mut reach, *x)?;
        }
    }
    // none is left out, whatever the order
    for own in 0..count {
        settle(alloc, &mut reach, own)?;
    }
    Ok(reach)
}

impl Reach {
    // Where edges lead from a vertex.
    fn targets(&self, a: usize) -> &[usize]
        requires { a < length self.now.next.items }
        ensures { result.now ≡ row_at self.now.next.items a }
    {
        self.next[a].as_slice()
    }

    // The flags of a vertex.
    fn row(&self, a: usize) -> &[bool]
        requires { a < length self.now.rows.items }
        ensures { result.now ≡ row_at self.now.rows.items a }
    {
        self.rows[a].as_slice()
    }

    /// Whether a vertex is the other, or edges lead there.
    pub fn leads(&self, from: usize, to: usize) -> bool
        requires finished { IsFinished self.now }
        requires from { from < length self.now.next.items }
        requires to { to < length self.now.next.items }
        ensures { IsTrue result ↔ Path self.now.next.items from to }
    {
        let row = self.row(from);
        if row.is_empty() { from == to } else { row[to] }
    }

    /// Whether a vertex leads to another that leads back.
    pub fn is_in_ring(&self, own: usize) -> bool
        requires finished { IsFinished self.now }
        requires inside { own < length self.now.next.items }
        ensures { IsTrue result ↔ IsInRing self.now.next.items own }
    {
        let targets = self.targets(own);
        for x in targets {
            if *x != own && self.leads(*x, own) {
                return true;
            }
        }
        false
    }

    /// Sets the flags of all that a vertex leads to, if that is wanted.
    pub fn add_reached(&self, flags: &mut Vec<bool>, a: usize, is_wanted: bool)
        requires finished { IsFinished self.now }
        requires inside { a < length self.now.next.items }
        requires wide { length flags.old.items ≡ length self.now.next.items }
        ensures len { length flags.new.items ≡ length flags.old.items }
        ensures flags { (b : ℕ) → IsFlagged flags.new.items b
            ↔ (IsFlagged flags.old.items b ⊎ (IsTrue is_wanted × Path self.now.next.items a b)) }
    {
        if is_wanted {
            flags[a] = true;
            join(flags, self.row(a));
        }
    }

    /// Sets the flags of the others to which a vertex leads at once, if that is wanted.
    pub fn add_named(&self, flags: &mut Vec<bool>, a: usize, is_wanted: bool)
        requires finished { IsFinished self.now }
        requires inside { a < length self.now.next.items }
        requires wide { length flags.old.items ≡ length self.now.next.items }
        ensures len { length flags.new.items ≡ length flags.old.items }
        ensures flags { (b : ℕ) → IsFlagged flags.new.items b
            ↔ (IsFlagged flags.old.items b
            ⊎ (IsTrue is_wanted × (b ≢ a) × Leads self.now.next.items a b)) }
    {
        for x in self.targets(a) {
            flags[*x] |= is_wanted & (*x != a);
        }
    }
}
