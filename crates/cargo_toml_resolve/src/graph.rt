//! Features as a graph of nodes, and what stands for its removed ones.
ghost use Rattle.std.specs.Prelude.{◌≡◌, ◌<◌, ◌≤◌, ℕ, IsTrue, length};
ghost use Rattle.cargo_toml_graph.specs.Admitted.{is_below};
ghost use Rattle.cargo_toml_features.specs.Places.{nth_text};
ghost use Rattle.cargo_toml_resolve.specs.{Numbers.Leads, Texts.texts_now};

use crate::rows::Rows;

/// Features as a graph of nodes.
///
/// A node is the place of a text. The features come first, in the byte order of their names, and
/// are the vertices. What they name beside them comes after, once for each mention, and has no
/// edges.
#[derive(Drop)]
pub struct Graph<'m> {
    /// The texts of the nodes.
    pub texts: Vec<&'m str>,
    /// Where the edges of each feature lead.
    pub edges: Rows,
    /// What is named by each feature that is removed or has an edge to a removed one. The row of
    /// any other is empty.
    pub names: Rows,
    /// For each node whether it is removed.
    pub flags: Vec<bool>,
    ghost once: { (i j : ℕ) → i < length edges → j < length texts.items
        → nth_text (texts_now texts.items) i ≡ nth_text (texts_now texts.items) j → i ≡ j },
    ghost in_order: { (i j : ℕ) → i < j → j < length edges → IsTrue
        (is_below (nth_text (texts_now texts.items) i) (nth_text (texts_now texts.items) j)) },
    ghost features_count: { length edges ≤ length texts.items },
    ghost names_count: { length names ≡ length edges },
    ghost flags_count: { length flags.items ≡ length texts.items },
    ghost edges_inside: { (a b : ℕ) → Leads edges a b → b < length edges },
    ghost names_inside: { (a x : ℕ) → Leads names a x → x < length texts.items },
}

/// What stands for the removed features of a graph, with the texts and the flags of its nodes.
#[derive(Drop)]
pub struct Walked<'m> {
    /// The texts of the nodes.
    pub texts: Vec<&'m str>,
    /// For each node whether it is removed.
    pub flags: Vec<bool>,
    /// What stands for each removed feature.
    pub redirects: Rows,
    /// For each node whether that may differ from what it names itself.
    pub moved: Vec<bool>,
    ghost features_count: { length redirects ≤ length texts.items },
    ghost flags_count: { length flags.items ≡ length texts.items },
    ghost moved_count: { length moved.items ≡ length texts.items },
    ghost redirects_inside: { (r x : ℕ) → Leads redirects r x → x < length texts.items },
}
