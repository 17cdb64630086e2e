//! Worked examples of how values are written, and of how a package is read.
ghost use Rattle.std.specs.Prelude.{◌≡◌, ◌↔◌, [], codes, true, false, Some, option_map};
ghost use Rattle.toml.specs.Data.{Data, string, boolean, table, no_members, member};
ghost use Rattle.cargo_toml_manifest.specs.Manifests.{by_zero_rule};
ghost use Rattle.cargo_toml_manifest.specs.Texts.{any_tree};
ghost use Rattle.cargo_toml_package.specs.Packages.{package_of_table, new_package};
ghost use Rattle.cargo_toml_parts.specs.declared.inheritable.Inheritable.TheVariants.{Set};
ghost use Rattle.cargo_toml_parts.specs.declared.inheritable.Inheritable.TheVariants.{Inherited};
ghost use Rattle.cargo_toml_parts.specs.Settings.{everywhere};
ghost use Rattle.cargo_toml_write.specs.Examples.{path_dependency, untested_binary, only_name};
ghost use Rattle.cargo_toml_write.specs.Examples.{path_dependency_tree, untested_binary_tree};
ghost use Rattle.cargo_toml_write.specs.Ways.{text_way, inheritable_way};
ghost use Rattle.cargo_toml_write.specs.WrittenDependencies.{dependency_way};
ghost use Rattle.cargo_toml_write.specs.WrittenTables.{product_way};

/// `{ features = ["std"], optional = true, path = "../log" }`: what a missing key stands for is
/// left out, as the default features are, and the keys stand in their order.
pub fn a_dependency_is_written()
    ensures { dependency_way.trees path_dependency path_dependency_tree }
{}

/// `{ edition = "2021", name = "tool", required-features = [], test = false }`: the required
/// features are written even where there are none.
pub fn a_product_is_written()
    ensures { product_way.trees untested_binary untested_binary_tree }
{}

/// A text that is set is written as it is, and one that the workspace gives as
/// `{ workspace = true }`.
pub fn an_inheritable_text_is_written()
    ensures set { (d : Data) → (inheritable_way text_way).trees (Set (codes "MIT")) d
        ↔ (d ≡ string (codes "MIT")) }
    ensures inherited { (d : Data) → (inheritable_way text_way).trees Inherited d
        ↔ (d ≡ table (member (codes "workspace") (boolean true) no_members)) }
{}

/// A package that says no version has version 0.0.0, and is then published nowhere; one of version
/// 0.1.0 still everywhere.
pub fn version_zero_is_published_nowhere()
    ensures zero { option_map (λ p. (by_zero_rule p).publish) (package_of_table any_tree only_name)
        ≡ Some (Set (everywhere false)) }
    ensures other { (by_zero_rule {M = Data} (new_package (codes "tool") (0, 1, 0, [], []))).publish
        ≡ Set (everywhere true) }
{}
