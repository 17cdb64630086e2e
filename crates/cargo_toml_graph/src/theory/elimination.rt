//! What is left where features are taken out one after another.
ghost use Rattle.std.specs.Prelude.{◌↔◌, ◌≡◌, ◌≤◌, ◌++◌, ◌∷◌, Bool, IsFalse, IsTrue, List};
ghost use Rattle.cargo_toml_graph.specs.Ascending.{Ascend};
ghost use Rattle.cargo_toml_graph.specs.Action.{Text};
ghost use Rattle.cargo_toml_graph.specs.Admitted.{is_below};
ghost use Rattle.cargo_toml_graph.specs.Bins.{ArePassedOn, HasBins, IsComplete, mentions};
ghost use Rattle.cargo_toml_graph.specs.Graph.{IsKept, IsResolved, IsUnremoved, Resolution, Table};
ghost use Rattle.cargo_toml_graph.specs.Kept.{KeepsEnabling, LosesNothing, NoneIsLeft};
ghost use Rattle.cargo_toml_graph.specs.Reach.{Among, IsOnce};
ghost use Rattle.cargo_toml_graph.specs.Redirects.{RedirectsTo};
ghost use Rattle.cargo_toml_graph.specs.Removal.{SameKept, pass_all, unremoved, without_all};

/// Every table has a resolution with nothing removed.
pub fn every_table_is_unremoved_at_first()
    ensures { (t : Table) → IsUnremoved t (unremoved t) }
{}

/// Where nothing is removed, the table itself is resolved.
pub fn nothing_is_removed()
    ensures { (t : Table) (m : Resolution) (removed : Text → Bool)
        → ((v : Text) → IsFalse (removed v)) → IsUnremoved t m
        → IsResolved t (λ v. IsTrue (removed v)) m }
{}

/// Features taken out one after another, in any order, leave what the paths through them give.
pub fn elimination_is_exact()
    ensures { (t : Table) (m : Resolution) (removed : List Text) → IsUnremoved t m
        → ((v : Text) → Among removed v → IsTrue (t.has v)) → IsOnce removed
        → IsResolved t (Among removed) (without_all removed m) }
{}

/// A table and the removed features settle what is left.
pub fn what_is_left_is_settled()
    ensures { (t : Table) (removed : Text → Bool) (m n : Resolution)
        → IsResolved t (λ v. IsTrue (removed v)) m → IsResolved t (λ v. IsTrue (removed v)) n
        → SameKept m n }
{}

/// The order in which features are taken out makes no difference.
pub fn any_order_leaves_the_same()
    ensures { (t : Table) (m : Resolution) (a b : List Text) → IsUnremoved t m
        → ((v : Text) → Among a v → IsTrue (t.has v)) → IsOnce a → IsOnce b
        → ((v : Text) → Among a v ↔ Among b v) → SameKept (without_all a m) (without_all b m) }
{}

/// Between kept features, what enables what transitively is as in a resolution that removes
/// nothing.
pub fn removal_keeps_enabling()
    ensures { (t : Table) (removed nothing : Text → Bool) (full m : Resolution)
        → ((v : Text) → IsFalse (nothing v)) → IsResolved t (λ v. IsTrue (nothing v)) full
        → IsResolved t (λ v. IsTrue (removed v)) m → KeepsEnabling full m }
{}

/// No removed name is left: not among the features, nor among a kept feature's names and enablers.
pub fn no_removed_name_is_left()
    ensures { (t : Table) (removed : Text → Bool) (m : Resolution)
        → IsResolved t (λ v. IsTrue (removed v)) m → NoneIsLeft (λ v. IsTrue (removed v)) m }
{}

/// Against a resolution that removes nothing, what a kept feature enables recursively loses no kept
/// feature and no dependency.
pub fn removal_loses_nothing()
    ensures { (t : Table) (removed nothing : Text → Bool) (full m : Resolution)
        → ((v : Text) → IsFalse (nothing v)) → IsResolved t (λ v. IsTrue (nothing v)) full
        → IsResolved t (λ v. IsTrue (removed v)) m → LosesNothing full m }
{}

/// What a removed feature names at its turn, where they are taken out in byte
/// order, is its redirect.
pub fn redirects_are_names_in_turn()
    ensures { (t : Table) (m : Resolution) (before : List Text) (r : Text) (after : List Text)
        → IsUnremoved t m → ((v : Text) → Among (before ++ r ∷ after) v → IsTrue (t.has v))
        → Ascend (before ++ r ∷ after)
        → (x : Text) → IsTrue ((without_all before m).table.names r x)
        ↔ RedirectsTo t (Among (before ++ r ∷ after)) (λ a b. IsTrue (is_below a b)) r x }
{}

/// The binaries of a removed feature are passed on, and all of them where there are few mentions.
pub fn bins_are_passed_on()
    ensures bins { (t : Table) (own : Text → List Text) (removed : List Text) (m : Resolution)
        → IsUnremoved t m → ((v : Text) → Among removed v → IsTrue (t.has v))
        → IsOnce removed → (f : Text) → IsKept t (Among removed) f
        → HasBins t (Among removed) own f (pass_all removed m own f) }
    ensures complete { (t : Table) (own : Text → List Text) (removed : List Text) (m : Resolution)
        → IsUnremoved t m → ((v : Text) → Among removed v → IsTrue (t.has v)) → IsOnce removed
        → mentions own removed ≤ 10 → (f : Text) → IsKept t (Among removed) f
        → IsComplete t (Among removed) own f (pass_all removed m own f) }
{}

/// Binaries that are passed on in byte order are one function of the table, of what is removed and
/// of what binaries mention.
pub fn bins_in_byte_order_are_settled()
    ensures one { (t : Table) (own : Text → List Text) (removed : Text → Bool)
        (a b : Text → List Text) → ArePassedOn t (λ v. IsTrue (removed v)) own a
        → ArePassedOn t (λ v. IsTrue (removed v)) own b
        → (f : Text) → IsKept t (λ v. IsTrue (removed v)) f → a f ≡ b f }
    ensures bins { (t : Table) (own : Text → List Text) (removed : Text → Bool)
        (bins : Text → List Text) → ArePassedOn t (λ v. IsTrue (removed v)) own bins
        → ((v : Text) → IsTrue (removed v) → IsTrue (t.has v))
        → (f : Text) → IsKept t (λ v. IsTrue (removed v)) f
        → HasBins t (λ v. IsTrue (removed v)) own f (bins f) }
    ensures complete { (t : Table) (own : Text → List Text) (removed : Text → Bool)
        (bins : Text → List Text) → (passed : ArePassedOn t (λ v. IsTrue (removed v)) own bins)
        → ((v : Text) → IsTrue (removed v) → IsTrue (t.has v))
        → mentions own passed.order ≤ 10 → (f : Text) → IsKept t (λ v. IsTrue (removed v)) f
        → IsComplete t (λ v. IsTrue (removed v)) own f (bins f) }
{}
