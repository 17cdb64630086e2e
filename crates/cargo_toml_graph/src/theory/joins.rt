//! What several actions on one dependency say together.
ghost use Rattle.std.specs.Prelude.{◌≡◌, ◌↔◌, IsTrue, None, Option, Some};
ghost use Rattle.cargo_toml_graph.specs.Action.{Action, IsJoin, Item, JoinsInAnyOrder, Text};
ghost use Rattle.cargo_toml_graph.specs.Action.{join, join_option};
ghost use Rattle.cargo_toml_graph.specs.Admitted.{Listed, action_on, items, joined_action, names};
ghost use Rattle.cargo_toml_graph.specs.Reach.{Among};

/// The order and the grouping of actions make no difference, nor does an action
/// that is there twice.
pub fn actions_join_in_any_order()
    ensures { JoinsInAnyOrder join }
{}

/// The same where an action may be missing, and a missing one adds nothing.
pub fn missing_actions_add_nothing()
    ensures in_any_order { JoinsInAnyOrder join_option }
    ensures unit { (a : Option Action) → join_option a None ≡ a }
{}

/// What a feature names and how it acts on a dependency is what the items of its list say.
pub fn lists_say_what_their_items_say()
    ensures names { (listed : Listed) (f x : Text) → IsTrue (names listed f x)
        ↔ Among (items listed f) (Item.Name x) }
    ensures action { (listed : Listed) (f k : Text) → IsJoin
        (λ a. (i : Item) × Among (items listed f) i × (action_on k i ≡ Some a))
        (joined_action listed f k) }
{}
