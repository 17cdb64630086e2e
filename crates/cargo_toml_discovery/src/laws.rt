// Laws of discovery, each as the contract of a function that does nothing.
ghost use Rattle.std.specs.Prelude.{◌≡◌, ℕ, false, List};
ghost use Rattle.std.specs.List.Sorted.{IsSortedBy, IsStableBy};
ghost use Rattle.cargo_toml_discovery.specs.Around.{Around};
ghost use Rattle.cargo_toml_discovery.specs.Discovering.{discovered, restated, StatedMeaning};
ghost use Rattle.cargo_toml_discovery.specs.Names.{Name, is_source, stem, with_endings};
ghost use Rattle.cargo_toml_discovery.specs.Sorting.{in_order, product_lt};
ghost use Rattle.cargo_toml_parts.specs.Products.{ProductMeaning};

// Discovery of what was discovered, with the same names around the package, changes nothing.
fn discovering_again()
    ensures { (s : StatedMeaning) (a : Around) → discovered (restated s (discovered s a)) a
        ≡ discovered s a }
{}

// What is in order ascends by name and path, and products that tie stand in their old order.
fn order()
    ensures sorted { (ps : List ProductMeaning) → IsSortedBy product_lt (in_order ps) }
    ensures stable { (ps : List ProductMeaning) → IsStableBy product_lt ps (in_order ps) }
{}

// A stem does not end with `.rs`, and the name is the stem with some number of `.rs` after it.
fn stems()
    ensures end { (name : Name) → is_source (stem name) ≡ false }
    ensures whole { (name : Name) → (n : ℕ) × (with_endings n (stem name) ≡ name) }
{}
