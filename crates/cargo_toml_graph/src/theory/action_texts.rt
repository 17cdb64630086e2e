//! What some action texts say.
ghost use Rattle.std.specs.Prelude.{◌≡◌, codes, false, true};
ghost use Rattle.cargo_toml_graph.specs.Action.{Item, item_of};
ghost use Rattle.cargo_toml_graph.specs.SmallTables.{only};

/// Texts that name features: a `?` at the end goes, once, and a `?` elsewhere stays.
pub fn some_texts_name_features()
    // `a?`
    ensures optional { item_of (codes "a?") ≡ Item.Name (codes "a") }
    // the empty text
    ensures empty { item_of (codes "") ≡ Item.Name (codes "") }
    // `?`
    ensures mark_alone { item_of (codes "?") ≡ Item.Name (codes "") }
    // `a?b`
    ensures mark_inside { item_of (codes "a?b") ≡ Item.Name (codes "a?b") }
    // `x??`
    ensures two_marks { item_of (codes "x??") ≡ Item.Name (codes "x?") }
{}

/// Texts that act on dependencies: one `dep:` goes from the front, what follows the
/// first `/` is a feature.
pub fn some_texts_act_on_dependencies()
    // `dep:a?/b/c`
    ensures both { item_of (codes "dep:a?/b/c") ≡ Item.On (codes "a")
        (record { is_conditional = true; is_dep_only = true; features = only (codes "b/c") }) }
    // `dep:dep:x`
    ensures twice { item_of (codes "dep:dep:x") ≡ Item.On (codes "dep:x")
        (record { is_conditional = false; is_dep_only = true; features = λ x. false }) }
    // `/`
    ensures slash { item_of (codes "/") ≡ Item.On (codes "")
        (record { is_conditional = false; is_dep_only = false; features = only (codes "") }) }
    // `a//`
    ensures two_slashes { item_of (codes "a//") ≡ Item.On (codes "a")
        (record { is_conditional = false; is_dep_only = false; features = only (codes "/") }) }
    // `dep:?`
    ensures no_key { item_of (codes "dep:?") ≡ Item.On (codes "")
        (record { is_conditional = true; is_dep_only = true; features = λ x. false }) }
{}
