//! Worked examples of the definitions.
ghost use Rattle.std.specs.Prelude.{◌≡◌, ◌↔◌, ◌⊎◌, ◌∷◌, [], bytes_eq};
ghost use Rattle.std.specs.Prelude.{codes, false, true, IsFalse, IsTrue};
ghost use Rattle.cargo_toml_graph.specs.Action.{Text};
ghost use Rattle.cargo_toml_graph.specs.Admitted.{admitted, is_admitted};
ghost use Rattle.cargo_toml_graph.specs.Admitted.{is_below, is_explicit, names};
ghost use Rattle.cargo_toml_graph.specs.SmallTables.{four, hidden_cycle};
ghost use Rattle.cargo_toml_graph.specs.SmallTables.{hidden_names_itself, hidden_parent};
ghost use Rattle.cargo_toml_graph.specs.SmallTables.{left_of, ring, some_bins, two_hidden};
ghost use Rattle.cargo_toml_graph.specs.Graph.{KeepsName, IsEnabledBy};
ghost use Rattle.cargo_toml_graph.specs.Reach.{Among};
ghost use Rattle.cargo_toml_graph.specs.Recursive.{Enables};
ghost use Rattle.cargo_toml_graph.specs.Redirects.{RedirectsTo};
ghost use Rattle.cargo_toml_graph.specs.Removal.{is_removed, pass_all, unremoved};

/// With a limit of two the first two names in byte order count, and the first two actions of each,
/// and always `default`.
pub fn a_limit_leaves_out()
    ensures admitted { admitted 2 four ≡ (codes "b", []) ∷ (codes "default", codes "c" ∷ [])
        ∷ (codes "a", codes "x" ∷ codes "y" ∷ []) ∷ [] }
    ensures third { is_admitted 2 four (codes "c") ≡ false }
    ensures unlisted_default { is_explicit (admitted 2 []) (codes "default") ≡ true }
    ensures actions { (x : Text) → IsTrue (names (admitted 2 four) (codes "a") x)
        ↔ ((x ≡ codes "x") ⊎ (x ≡ codes "y")) }
    ensures default_actions { (x : Text) → IsTrue (names (admitted 2 four) (codes "default") x)
        ↔ (x ≡ codes "c") }
    ensures no_actions { (x : Text) → IsFalse (names (admitted 2 four) (codes "c") x) }
{}

/// `a = ["_h"]`, `_h = ["a"]` with `_h` removed: `a` names itself and is enabled by itself,
/// and stands for `_h`.
pub fn a_cycle_through_a_hidden_feature()
    ensures names { (x : Text) → KeepsName hidden_cycle (Among (codes "_h" ∷ [])) (codes "a") x
        ↔ (x ≡ codes "a") }
    ensures enabled_by { (e : Text)
        → IsEnabledBy hidden_cycle (Among (codes "_h" ∷ [])) (codes "a") e ↔ (e ≡ codes "a") }
    ensures redirect { (x : Text) → RedirectsTo hidden_cycle (Among (codes "_h" ∷ []))
        (λ a b. IsTrue (is_below a b)) (codes "_h") x ↔ (x ≡ codes "a") }
{}

/// `k = ["_s"]`, `_s = ["_s", "b"]`, `b = []` with `_s` removed: `k` names `b` alone, and `_s`
/// stays in its own redirect.
pub fn a_hidden_feature_that_names_itself()
    ensures names { (x : Text)
        → KeepsName hidden_names_itself (Among (codes "_s" ∷ [])) (codes "k") x ↔ (x ≡ codes "b") }
    ensures enabled_by { (e : Text)
        → IsEnabledBy hidden_names_itself (Among (codes "_s" ∷ [])) (codes "b") e
        ↔ (e ≡ codes "k") }
    ensures redirect { (x : Text) → RedirectsTo hidden_names_itself (Among (codes "_s" ∷ []))
        (λ a b. IsTrue (is_below a b)) (codes "_s") x
        ↔ ((x ≡ codes "_s") ⊎ (x ≡ codes "b")) }
{}

/// `a = ["b", "zz"]`, `b = ["a"]`: `a` enables `a` and `b`, since no feature is called `zz`.
pub fn a_ring_enables_itself()
    ensures { (x : Text) → Enables ring (codes "a") x ↔ ((x ≡ codes "a") ⊎ (x ≡ codes "b")) }
{}

/// Removed are the features that begin with `_` and that the filter doesn't keep.
pub fn features_that_are_removed()
    ensures hidden { is_removed two_hidden (λ _. false) (codes "_a") ≡ true }
    ensures plain { is_removed two_hidden (λ _. false) (codes "k") ≡ false }
    ensures unknown { is_removed two_hidden (λ _. false) (codes "_c") ≡ false }
    ensures filtered { is_removed two_hidden (λ f. bytes_eq f (codes "_a")) (codes "_a") ≡ false }
    ensures not_filtered { is_removed two_hidden (λ f. bytes_eq f (codes "_a")) (codes "_b")
        ≡ true }
    ensures none { (f : Text) → is_removed two_hidden (λ _. true) f ≡ false }
{}

/// `k = ["_a", "_b"]`, `_a = ["x"]`, `_b = ["y"]` with `_b` alone removed: `k` names `_a` and `y`.
pub fn a_filter_keeps_one_hidden_feature()
    ensures names { (x : Text)
        → IsTrue ((left_of two_hidden (codes "_b" ∷ [])).table.names (codes "k") x)
        ↔ ((x ≡ codes "_a") ⊎ (x ≡ codes "y")) }
    ensures kept_is_enabled { (left_of two_hidden (codes "_b" ∷ [])).enabled_by (codes "_a")
        (codes "k") ≡ true }
    ensures kept_enables { (left_of two_hidden (codes "_b" ∷ [])).enabled_by (codes "x")
        (codes "_a") ≡ true }
    ensures passed_on { (left_of two_hidden (codes "_b" ∷ [])).enabled_by (codes "y") (codes "k")
        ≡ true }
    ensures removed_is_gone { (left_of two_hidden (codes "_b" ∷ [])).table.has (codes "_b")
        ≡ false }
{}

/// `f = []`, `_h = ["f"]`: the binaries of `_h` follow those of `f`, each once.
pub fn binaries_of_a_hidden_feature()
    ensures { pass_all (codes "_h" ∷ []) (unremoved hidden_parent) some_bins (codes "f")
        ≡ codes "y" ∷ codes "z" ∷ codes "x" ∷ [] }
{}
