//! Values under names that stand in byte order, and names that do.
ghost use Rattle.std.specs.Prelude.{◌≡◌, length, map};
ghost use Rattle.cargo_toml_graph.specs.Ascending.{Ascend, Ascend-prop};

/// Values under names that stand in byte order, each name once. A name may be without a value.
///
/// Nothing is hashed, so no choice of names makes a look-up slow.
#[derive(Drop)]
pub struct Slots<'n, V> {
    /// The names, each below those after it.
    pub names: Vec<&'n str>,
    /// In the place of each name its value, if it has one.
    pub values: Vec<Option<V>>,
    ghost ascend: { Ascend (map (λ n. n.now) names.items) } by { Ascend-prop
        (map (λ n. n.now) names.items) },
    ghost count: { length values.items ≡ length names.items },
}

/// The features that a dependency has anyway, to be looked up.
#[derive(Drop)]
pub struct RedundantFeatures<'d> {
    /// Whether the dependency has its default features.
    pub has_default: bool,
    /// The features that its detail lists, in byte order, each once.
    pub listed: Vec<&'d str>,
    ghost ascend: { Ascend (map (λ t. t.now) listed.items) } by { Ascend-prop
        (map (λ t. t.now) listed.items) },
}
