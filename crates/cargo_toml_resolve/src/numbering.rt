//! Features become a graph of nodes, by one look at each name.
ghost use Rattle.std.specs.Prelude.{◌≡◌, ◌↔◌, ◌⊎◌, ◌≢◌, ◌<◌, ◌≤◌, ◌++◌, ◌∷◌, [], ℕ, IfOk, IfSome};
ghost use Rattle.std.specs.Prelude.{if◌then◌else◌, Bool, IsTrue, None, OnOk, Some, false, length};
ghost use Rattle.std.specs.Prelude.{take, true};
ghost use Rattle.cargo_toml_graph.specs.{Action.Text, Graph.IsPlain, Graph.Table, Reach.Among};
ghost use Rattle.cargo_toml_graph.specs.Ascending.{Ascend};
ghost use Rattle.cargo_toml_features.specs.InOrder.{AreInOrder, AreTable, names_of};
ghost use Rattle.cargo_toml_features.specs.Views.{action_at, action_of, set_has};
ghost use Rattle.cargo_toml_features.specs.Places.{nth_text};
ghost use Rattle.cargo_toml_resolve.specs.{Enabling.LeadsTo, Numbering.AreRead};
ghost use Rattle.cargo_toml_resolve.specs.Numbering.{AreTextsOf, Extends, Gains, HasNames};
ghost use Rattle.cargo_toml_resolve.specs.Numbering.{IsFlagged, IsNodeOf};
ghost use Rattle.cargo_toml_resolve.specs.{Numbers.IsWanted, Placed.Shows, Texts.texts_now};

use crate::graph::Graph;
use crate::rows::Rows;
use crate::walk::has_flagged;
use cargo_toml_features::features::{DepAction, Feature};
use cargo_toml_features::node::Node;
use cargo_toml_features::places::place_near;
use std::alloc::{AllocError, Global};
use std::collections::{BTreeMap, BTreeSet};

/// The names of features, in their order. It fails only when out of memory.
pub(crate) fn keys_of<'m>(
    alloc: Global,
    features: &[Feature<'m>],
) -> Result<Vec<&'m str>, AllocError>
    ensures { IfOk result (λ v. texts_now v.items ≡ names_of features.now) }
{
    let mut keys = Vec::with_capacity(alloc, features.len())?;
    for feature in features {
        keys.push(feature.key)?;
    }
    Ok(keys)
}

/// Where the next key is looked for first: behind the last one that was found, since names come in
/// the order of keys.
#[derive(Drop)]
pub(crate) struct Cursor {
    near: usize,
}

impl Cursor {
    /// Before the first key.
    pub(crate) fn new() -> Cursor {
        Cursor { near: 0 }
    }

    // The key of this name, if there is one.
    fn seek(&mut self, keys: &[&str], name: &str) -> Option<Node>
        requires { Ascend (texts_now keys.now) }
        ensures found { IfSome result (λ i. (i < length keys.now)
            × (nth_text (texts_now keys.now) i ≡ name.now)) }
        ensures missing { result ≡ None → ¬ Among (texts_now keys.now) name.now }
    {
        let place = place_near(keys, name, self.near)?;
        self.near = place.saturating_add(1);
        Some(Node::at(place))
    }
}

// The node of a name. A name that is no key is a new text at the end.
fn node_of<'m>(
    texts: &mut Vec<&'m str>,
    count: usize,
    name: &'m str,
    cursor: &mut Cursor,
) -> Result<Node, AllocError>
    requires fits { count ≤ length texts.old.items }
    requires keys { Ascend (take count (texts_now texts.old.items)) }
    ensures extends { OnOk result
        (Extends count (texts_now texts.old.items) (texts_now texts.new.items)) }
    ensures node { IfOk result (IsNodeOf count (texts_now texts.new.items) name.now) }
{
    if let Some(node) = cursor.seek(&texts[..count], name) {
        return Ok(node);
    }
    let node = Node::at(texts.len());
    texts.push(name)?;
    Ok(node)
}

/// The name in a set of one. It costs less to take than to walk the set.
pub(crate) fn only_name<'m>(named: &BTreeSet<&'m str>) -> Option<&'m str>
    ensures { IfSome result (λ n. (x : Text) → (x ≡ n.now) ↔ IsTrue (set_has named.now x)) }
{
    if named.len() != 1 {
        return None;
    }
    named.first().copied()
}

// The row becomes the nodes of what a feature names.
fn name_row<'m>(
    row: &mut Vec<Node>,
    named: &BTreeSet<&'m str>,
    texts: &mut Vec<&'m str>,
    count: usize,
    cursor: &mut Cursor,
) -> Result<(), AllocError>
    requires fits { count ≤ length texts.old.items }
    requires keys { Ascend (take count (texts_now texts.old.items)) }
    requires empty { row.old.items ≡ [] }
    ensures extends { OnOk result
        (Extends count (texts_now texts.old.items) (texts_now texts.new.items)) }
    ensures names { OnOk result (HasNames count (texts_now texts.new.items)
        (λ k. IsTrue (set_has named.now k)) row.new.items) }
{
    // To begin a walk over an empty set costs more than this.
    if named.is_empty() {
        return Ok(());
    }
    if let Some(name) = only_name(named) {
        let node = node_of(texts, count, name, cursor)?;
        row.push(node)?;
        return Ok(());
    }
    for name in named.iter() {
        let node = node_of(texts, count, *name, cursor)?;
        row.push(node)?;
    }
    Ok(())
}

// Whether the node is a key other than the one in place `own`.
fn is_other_key(node: Node, count: usize, own: Node) -> bool
    ensures { IsTrue result ↔ ((node < count) × (node ≢ own)) }
{
    node.place() < count && node != own
}

// The row gains those of the nodes that are keys, other than the one in place `own`.
fn push_keys(row: &mut Vec<Node>, nodes: &[Node], count: usize, own: Node) -> Result<(), AllocError>
    ensures { OnOk result (Gains count own (Among nodes.now) row.old.items row.new.items) }
{
    for node in nodes {
        if is_other_key(*node, count, own) {
            row.push(*node)?;
        }
    }
    Ok(())
}

/// The key of this name, if there is one other than the one in place `own`, is put at the end. It
/// fails only when out of memory.
pub(crate) fn push_target(
    row: &mut Vec<Node>,
    name: &str,
    keys: &[&str],
    own: Node,
    cursor: &mut Cursor,
) -> Result<(), AllocError>
    requires { Ascend (texts_now keys.now) }
    ensures { OnOk result (Gains (length keys.now) own
        (λ x. nth_text (texts_now keys.now) x ≡ name.now) row.old.items row.new.items) }
{
    if let Some(target) = cursor.seek(keys, name) {
        if target != own {
            row.push(target)?;
        }
    }
    Ok(())
}

// Whether an action enables the feature of its key's name.
fn is_plain(action: &DepAction<'_>) -> bool
    ensures { IsTrue result ↔ IsPlain (Some (action_of action.now)) }
{
    !action.is_conditional && !action.is_dep_only
}

// What an action on the key enables, other than the one in place `own`, is put at the end.
fn push_action(
    row: &mut Vec<Node>,
    key: &str,
    action: &DepAction<'_>,
    keys: &[&str],
    own: Node,
    cursor: &mut Cursor,
) -> Result<(), AllocError>
    requires { Ascend (texts_now keys.now) }
    ensures { OnOk result (Gains (length keys.now) own
        (λ x. (nth_text (texts_now keys.now) x ≡ key.now) × IsPlain (Some (action_of action.now)))
        row.old.items row.new.items) }
{
    if is_plain(action) {
        push_target(row, key, keys, own, cursor)?;
    }
    Ok(())
}

/// Those that the actions enable, other than the one in place `own`, are put at the end. An implied
/// feature acts on the dependency of its own name, so the first is looked for there. It fails only
/// when out of memory.
pub(crate) fn push_actions(
    row: &mut Vec<Node>,
    actions: &BTreeMap<&str, DepAction<'_>>,
    keys: &[&str],
    own: Node,
) -> Result<(), AllocError>
    requires { Ascend (texts_now keys.now) }
    ensures { OnOk result (Gains (length keys.now) own
        (λ x. IsPlain (action_at actions.now (nth_text (texts_now keys.now) x)))
        row.old.items row.new.items) }
{
    // Most features act on nothing.
    if actions.is_empty() {
        return Ok(());
    }
    let mut cursor = Cursor { near: own.place() };
    // To begin a walk over a map costs more than this.
    if actions.len() == 1 {
        if let Some((key, action)) = actions.first_key_value() {
            return push_action(row, *key, action, keys, own, &mut cursor);
        }
    }
    for (key, action) in actions.iter() {
        push_action(row, *key, action, keys, own, &mut cursor)?;
    }
    Ok(())
}

/// Whether the feature names nothing and acts on nothing.
#[inline(always)]
pub(crate) fn leads_nowhere(feature: &Feature<'_>) -> bool
    ensures { IsTrue result → (x : Text) → ¬ LeadsTo feature.now x }
{
    if !feature.enables_features.is_empty() {
        return false;
    }
    feature.enables_deps.is_empty()
}

// What is used again for each feature.
#[derive(Drop)]
struct Look {
    edges: Vec<Node>,
    names: Vec<Node>,
    cursor: Cursor,
}

impl Look {
    // Reads the feature in place `own`: each of its names is looked for once.
    fn read<'m>(
        &mut self,
        feature: &Feature<'m>,
        own: Node,
        texts: &mut Vec<&'m str>,
        count: usize,
    ) -> Result<(), AllocError>
        requires fits { count ≤ length texts.old.items }
        requires keys { Ascend (take count (texts_now texts.old.items)) }
        ensures extends { OnOk result
            (Extends count (texts_now texts.old.items) (texts_now texts.new.items)) }
        ensures edges { OnOk result (Gains count own
            (λ x. LeadsTo feature.now (nth_text (texts_now texts.old.items) x))
            [] self.new.edges.items) }
        ensures names { OnOk result (HasNames count (texts_now texts.new.items)
            (λ k. IsTrue (set_has feature.now.enables_features k)) self.new.names.items) }
    {
        self.edges.clear();
        self.names.clear();
        let named = &feature.enables_features;
        name_row(&mut self.names, named, texts, count, &mut self.cursor)?;
        push_keys(&mut self.edges, self.names.as_slice(), count, own)?;
        push_actions(&mut self.edges, &feature.enables_deps, &texts[..count], own)
    }

    // Whether the names of what was read are asked for: it is removed, or has an edge to a removed
    // one. Any other names what it named.
    fn is_asked(&self, is_removed: bool, flags: &[bool]) -> bool
        requires { (x : ℕ) → Among self.now.edges.items x → x < length flags.now }
        ensures { IsTrue result ↔ (IsTrue is_removed
            ⊎ ((x : ℕ) × Among self.now.edges.items x × IsWanted flags.now true x)) }
    {
        is_removed || has_flagged(self.edges.as_slice(), flags)
    }
}

// The flags of features, and those of other texts, which aren't removed.
fn all_flags(mut flags: Vec<bool>, size: usize) -> Result<Vec<bool>, AllocError>
    requires { length flags.items ≤ size }
    ensures len { IfOk result (λ v. length v.items ≡ size) }
    ensures flags { IfOk result
        (λ v. (i : ℕ) → IsWanted v.items true i ↔ IsWanted flags.items true i) }
{
    flags.resize(size, false)?;
    Ok(flags)
}

// Where each feature leads, and what it names where that is asked for.
#[derive(Drop)]
struct FeatureRows {
    edges: Rows,
    names: Rows,
}

impl FeatureRows {
    // A feature that leads nowhere.
    fn push_none(&mut self) -> Result<(), AllocError>
        ensures edges { OnOk result (self.new.edges ≡ self.old.edges ++ [] ∷ []) }
        ensures names { OnOk result (self.new.names ≡ self.old.names ++ [] ∷ []) }
    {
        self.edges.push_none()?;
        self.names.push_none()
    }

    // The feature that was read, with its names if they are asked for.
    fn push(&mut self, look: &Look, is_asked: bool) -> Result<(), AllocError>
        ensures edges { OnOk result
            (self.new.edges ≡ self.old.edges ++ look.now.edges.items ∷ []) }
        ensures names { OnOk result (self.new.names ≡ self.old.names
            ++ (if is_asked then look.now.names.items else []) ∷ []) }
    {
        self.edges.push(look.edges.as_slice())?;
        if is_asked {
            self.names.push(look.names.as_slice())?;
        } else {
            self.names.push_none()?;
        }
        Ok(())
    }
}

// Reads all features. What they name that is no key is put at the end of the texts.
fn read_all<'m>(
    alloc: Global,
    features: &[Feature<'m>],
    flags: &[bool],
    texts: &mut Vec<&'m str>,
) -> Result<FeatureRows, AllocError>
    requires in_order { AreInOrder features.now }
    requires flags { length flags.now ≡ length features.now }
    requires keys { texts_now texts.old.items ≡ names_of features.now }
    ensures texts { OnOk result (AreTextsOf features.now (texts_now texts.new.items)) }
    ensures rows { IfOk result
        (λ l. AreRead features.now flags.now (texts_now texts.new.items) l.edges l.names) }
{
    let count = features.len();
    let edges = Rows::with_capacity(alloc, count)?;
    let names = Rows::with_capacity(alloc, count)?;
    let mut rows = FeatureRows { edges, names };
    let mut look = Look {
        edges: Vec::new(alloc),
        names: Vec::new(alloc),
        cursor: Cursor::new(),
    };
    for own in 0..count {
        let feature = &features[own];
        // In long lists most features lead nowhere: for them no function is called.
        if leads_nowhere(feature) {
            rows.push_none()?;
        } else {
            look.read(feature, Node::at(own), texts, count)?;
            let is_asked = look.is_asked(flags[own], flags);
            rows.push(&look, is_asked)?;
        }
    }
    Ok(rows)
}

/// The features as a graph of nodes, with a flag for each node. An edge leads from a feature to
/// another one that it names or acts on plainly. The features stand in byte order, with a flag for
/// each. It fails only when out of memory.
pub fn number<'m>(
    alloc: Global,
    features: &[Feature<'m>],
    flags: Vec<bool>,
) -> Result<Graph<'m>, AllocError>
    requires in_order { AreInOrder features.now }
    requires len { length flags.items ≡ length features.now }
    ensures numbered { IfOk result (λ g. (t : Table) (removed : Text → Bool)
        → AreTable t features.now
        → ((f : Text) → IsTrue (removed f) ↔ IsFlagged features.now flags.items f)
        → Shows g t removed features.now) }
    ensures count { IfOk result (λ g. length g.edges ≡ length features.now) }
    ensures vertices { IfOk result (λ g. (i : ℕ) → i < length features.now →
        nth_text (texts_now g.texts.items) i ≡ nth_text (names_of features.now) i) }
{
    let mut texts = keys_of(alloc, features)?;
    let FeatureRows { edges, names } = read_all(alloc, features, flags.as_slice(), &mut texts)?;
    let flags = all_flags(flags, texts.len())?;
    Ok(Graph {
        texts,
        edges,
        names,
        flags,
    })
}
