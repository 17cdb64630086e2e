//! Worked examples of what listed features and entries of dependencies say together.
//!
//! A theorem counts only where a function's contract names it, so each function here does nothing
//! and its contract is an example.
ghost use Rattle.std.specs.Prelude.{◌≡◌, ◌↔◌, ◌⊎◌, ◌∷◌, [], None, Some, bytes_eq, codes, false};
ghost use Rattle.std.specs.Prelude.{option_map, true, IsFalse, IsSome, IsTrue};
ghost use Rattle.std.specs.Option.{IsSomeAnd};
ghost use Rattle.cargo_toml_package.specs.Dependencies.{simple};
ghost use Rattle.cargo_toml_graph.specs.{Action.Text, Admitted.Listed, SmallTables.features_alone};
ghost use Rattle.cargo_toml_graph.specs.{SmallTables.left_of, Graph.Edge, Reach.Among};
ghost use Rattle.cargo_toml_graph.specs.Recursive.{Enables};
ghost use Rattle.cargo_toml_features.specs.declared.features.Kind.TheVariants.{Build, Dev, Normal};
ghost use Rattle.cargo_toml_features.specs.Examples.{detail, hidden_conditional, hidden_dep_only};
ghost use Rattle.cargo_toml_features.specs.Examples.{hidden_key, hidden_plain, redundancy, small};
ghost use Rattle.cargo_toml_features.specs.Examples.{small_entries, small_listed, three_kinds};
ghost use Rattle.cargo_toml_features.specs.{Examples.twice, Recorded.entries_at};
ghost use Rattle.cargo_toml_features.specs.Recorded.{first_target, is_implied, is_reserved};
ghost use Rattle.cargo_toml_features.specs.{Recorded.recorded_of, Resolved.joined_table};
ghost use Rattle.cargo_toml_features.specs.Resolved.{plain_action};

/// Without dependencies a table is what its listed features say.
pub fn features_alone_are_a_table()
    ensures has { (listed : Listed) (f : Text) → (joined_table listed []).has f
        ≡ (features_alone listed).has f }
    ensures names { (listed : Listed) (f x : Text) → (joined_table listed []).names f x
        ≡ (features_alone listed).names f x }
    ensures action { (listed : Listed) (f k : Text) → (joined_table listed []).action f k
        ≡ (features_alone listed).action f k }
{}

/// `default = ["fast"]`, `fast = ["log/std"]`, and an optional dependency `log`, which implies a
/// feature of its name.
pub fn a_small_table()
    // the features are these three, and no `std`
    ensures features { (f : Text) → IsTrue (small.has f)
        ↔ Among (codes "default" ∷ codes "fast" ∷ codes "log" ∷ []) f }
    // `log` is implied, and recorded under its key
    ensures implied { (is_implied small_listed small_entries (codes "log") ≡ true)
        × (option_map (λ r. r.crate_name)
        (recorded_of (entries_at small_listed small_entries (codes "log"))) ≡ Some (codes "log")) }
    // `default` names `fast` alone
    ensures names { (x : Text) → IsTrue (small.names (codes "default") x) ↔ (x ≡ codes "fast") }
    // `fast` acts on `log` plainly, with the feature `std`; `log` on itself, with none
    ensures acts { ((joined_table small_listed small_entries).action (codes "fast") (codes "log")
        ≡ Some (record {
          is_conditional = false;
          is_dep_only = false;
          features = λ x. bytes_eq x (codes "std");
        }))
        × ((joined_table small_listed small_entries).action (codes "log") (codes "log")
        ≡ Some plain_action) }
    // the same where redundant features go
    ensures effective { IsSomeAnd (small.action (codes "fast") (codes "log"))
        (λ a. IsFalse a.is_conditional × IsFalse a.is_dep_only
        × ((x : Text) → IsTrue (a.features x) ↔ (x ≡ codes "std"))) }
    // `default` leads to `fast`, and `fast` to `log`
    ensures edges { Edge small (codes "default") (codes "fast")
        × Edge small (codes "fast") (codes "log") }
    // from `default` on `fast` is enabled, and `log` is not reached by names
    ensures recursive { (x : Text) → Enables small (codes "default") x
        ↔ ((x ≡ codes "default") ⊎ (x ≡ codes "fast")) }
{}

/// `k = ["_h", "d?/a"]`, `_h = ["d/b"]`: the plain action of `_h` wins over the conditional one.
pub fn a_hidden_plain_action_wins()
    ensures { IsSomeAnd
        ((left_of hidden_plain (codes "_h" ∷ [])).table.action (codes "k") (codes "d"))
        (λ a. IsFalse a.is_conditional × IsFalse a.is_dep_only
        × ((x : Text) → IsTrue (a.features x) ↔ ((x ≡ codes "a") ⊎ (x ≡ codes "b")))) }
{}

/// `k = ["_d/x"]`, `_d = ["b"]`: acting plainly on the dependency `_d` leads to the feature `_d`,
/// so `k` names `b` once it is removed.
pub fn a_hidden_feature_named_as_a_dependency()
    ensures names { (x : Text)
        → IsTrue ((left_of hidden_key (codes "_d" ∷ [])).table.names (codes "k") x)
        ↔ (x ≡ codes "b") }
    ensures enabled_by { (left_of hidden_key (codes "_d" ∷ [])).enabled_by (codes "b") (codes "k")
        ≡ true }
    ensures acts { IsSomeAnd
        ((left_of hidden_key (codes "_d" ∷ [])).table.action (codes "k") (codes "_d"))
        (λ a. IsFalse a.is_conditional × IsFalse a.is_dep_only
        × ((x : Text) → IsTrue (a.features x) ↔ (x ≡ codes "x"))) }
{}

/// `k = ["_h"]`, `_h = ["opt?/f"]`: a conditional action enables no feature, and stays conditional.
pub fn a_hidden_conditional_action()
    ensures enabled_by { (left_of hidden_conditional (codes "_h" ∷ [])).enabled_by (codes "opt")
        (codes "k") ≡ false }
    ensures acts { IsSomeAnd
        ((left_of hidden_conditional (codes "_h" ∷ [])).table.action (codes "k") (codes "opt"))
        (λ a. IsTrue a.is_conditional × IsFalse a.is_dep_only
        × ((x : Text) → IsTrue (a.features x) ↔ (x ≡ codes "f"))) }
{}

/// `d = []`, `_a = ["dep:d"]`, `_p = ["d/x", "_a"]`, `k = ["_p"]`: `k` enables `d` though its
/// joined action turns dep-only.
pub fn a_join_that_turns_dep_only()
    ensures enabled_by { (left_of hidden_dep_only (codes "_a" ∷ codes "_p" ∷ [])).enabled_by
        (codes "d") (codes "k") ≡ true }
    ensures acts { IsSomeAnd ((left_of hidden_dep_only (codes "_a" ∷ codes "_p" ∷ [])).table.action
        (codes "k") (codes "d")) (λ a. IsFalse a.is_conditional × IsTrue a.is_dep_only
        × ((x : Text) → IsTrue (a.features x) ↔ (x ≡ codes "x"))) }
{}

/// Of the entries of one key those from the first optional one on count; the first of them
/// gives the crate's name.
pub fn entries_of_three_kinds()
    ensures recorded { IsSomeAnd (recorded_of (entries_at [] three_kinds (codes "d")))
        (λ r. (r.crate_name ≡ codes "q") × (r.targets (Normal, None) ≡ None)
        × IsSome (r.targets (Build, None)) × IsSome (r.targets (Dev, None))) }
    ensures first_target { first_target (entries_at [] three_kinds (codes "d"))
        ≡ Some (detail (Some (codes "q")) [] true) }
    ensures implied { is_implied [] three_kinds (codes "d") ≡ true }
{}

/// The first entry of a key and target stays, and a later optional one still implies a feature,
/// unless the key is reserved.
pub fn entries_of_one_target()
    ensures recorded { IsSomeAnd
        (recorded_of (entries_at ((codes "k", codes "d/x" ∷ []) ∷ []) twice (codes "d")))
        (λ r. (r.crate_name ≡ codes "d") × (r.targets (Normal, None) ≡ Some (simple []))) }
    ensures implied { is_implied ((codes "k", codes "d/x" ∷ []) ∷ []) twice (codes "d") ≡ true }
    ensures reserved { is_reserved ((codes "k", codes "dep:d" ∷ []) ∷ []) (codes "d") ≡ true }
    ensures not_implied { is_implied ((codes "k", codes "dep:d" ∷ []) ∷ []) twice (codes "d")
        ≡ false }
{}

/// Redundant features are those that the dependency's first target has, where it is a detail.
pub fn redundant_features_go()
    ensures not_detailed { IsSomeAnd ((redundancy (simple [])).action (codes "x") (codes "d")) (λ a.
        (y : Text) → IsTrue (a.features y) ↔ ((y ≡ codes "default") ⊎ (y ≡ codes "f"))) }
    ensures detailed { IsSomeAnd
        ((redundancy (detail None (codes "f" ∷ []) false)).action (codes "x") (codes "d"))
        (λ a. (y : Text) → IsFalse (a.features y)) }
{}
