//! Laws: which manifests can be written, and what is read again.
ghost use Rattle.std.specs.Prelude.{◌≡◌, ◌↔◌, ℕ, List, Option, Some, Ok};
ghost use Rattle.semver.specs.Parse.{Held, version_parts};
ghost use Rattle.toml.specs.Data.{Data, Members};
ghost use Rattle.cargo_toml_package.specs.Dependencies.{DetailMeaning, DependencyMeaning};
ghost use Rattle.cargo_toml_package.specs.Dependencies.{simple, detailed, dependency_of};
ghost use Rattle.cargo_toml_discovery.specs.Names.{Name};
ghost use Rattle.cargo_toml_discovery.specs.Told.{Told};
ghost use Rattle.cargo_toml_manifest.specs.declared.manifest.Manifest.{Manifest};
ghost use Rattle.cargo_toml_manifest.specs.Choosing.{Choice};
ghost use Rattle.cargo_toml_manifest.specs.Completing.{complete_by, gives};
ghost use Rattle.cargo_toml_manifest.specs.Manifests.{ManifestMeaning, manifest_reads, held};
ghost use Rattle.cargo_toml_manifest.specs.Manifests.{manifest_meaning};
ghost use Rattle.cargo_toml_manifest.specs.Texts.{any_tree, document_reads};
ghost use Rattle.cargo_toml_parts.specs.Floats.{without_floats};
ghost use Rattle.cargo_toml_parts.specs.Reads.{array_of, map_of};
ghost use Rattle.cargo_toml_parts.specs.Versions.{Parts};
ghost use Rattle.cargo_toml_parts.specs.Lints.{LintMeaning, lint_of};
ghost use Rattle.cargo_toml_write.specs.Asked.{EachValue, ManifestMeets};
ghost use Rattle.cargo_toml_write.specs.Reread.{IsTold, says_true, reread};
ghost use Rattle.cargo_toml_write.specs.Reread.{each_value, reread_dependency, ChoiceIsTold};
ghost use Rattle.cargo_toml_write.specs.Ways.{free_way, list_way, map_way};
ghost use Rattle.cargo_toml_write.specs.WrittenDependencies.{dependencies_way, DependencyAgain};
ghost use Rattle.cargo_toml_write.specs.WrittenManifests.{manifest_way};
ghost use Rattle.cargo_toml_write.specs.WrittenPackages.{IsVersionAgain};
ghost use Rattle.cargo_toml_write.specs.WrittenTables.{lint_groups_way, IsApart};

use crate::write::ToValue;
use cargo_toml_parts::FromValue;

/// The requirements and details that were read of a dependency are such as are read again, and so
/// is a version that a text says.
pub fn read_dependencies_are_told()
    ensures requirements { (d : Data) (r : List Held) → dependency_of d ≡ Some (simple r)
        → DependencyAgain (simple r) }
    ensures details { (d : Data) (x : DetailMeaning) → dependency_of d ≡ Some (detailed x)
        → DependencyAgain (detailed x) }
    ensures versions { (text : List ℕ) (v : Parts) → version_parts text ≡ Ok v
        → IsVersionAgain v }
{}

/// Lists and maps of what is read again are read again; so are tables of dependencies, and the
/// lints of each tool.
pub fn collections_are_read_again<T: ToValue>()
    ensures lists { (reads : Data → Option T.Meaning)
        → ((x : T.Meaning) (d : Data) → T.way.trees x d → reads d ≡ Some x)
        → (xs : List T.Meaning) (d : Data) → (list_way T.way).trees xs d
        → array_of reads d ≡ Some xs }
    ensures maps { (reads : Data → Option T.Meaning)
        → ((x : T.Meaning) (d : Data) → T.way.trees x d → reads d ≡ Some x)
        → (es : List (List ℕ × T.Meaning)) (d : Data) → (map_way T.way).trees es d
        → map_of reads d ≡ Some es }
    ensures dependencies { (es : List (List ℕ × DependencyMeaning))
        → EachValue (λ x. DependencyAgain (reread_dependency x)) es
        → (d : Data) → dependencies_way.trees es d
        → map_of dependency_of d ≡ Some (each_value reread_dependency es) }
    ensures lints { (groups : List (List ℕ × List (List ℕ × LintMeaning)))
        → EachValue (EachValue IsApart) groups → (d : Data) → lint_groups_way.trees groups d
        → map_of (map_of lint_of) d ≡ Some groups }
{}

/// A manifest that was read, of a tree or of a document, with metadata as a free value, is as asked
/// of one that is written, since what it was read of holds no float. So writing it is refused with
/// `Memory` alone.
pub fn read_manifests_are_written()
    ensures of_tree { (d : Data) (m : ManifestMeaning Data)
        → without_floats (manifest_reads any_tree) d ≡ Some m → (manifest_way free_way).asks m }
    ensures of_document { (document : Option Members) (m : ManifestMeaning Data)
        → document_reads (manifest_reads any_tree) document ≡ Some m
        → (manifest_way free_way).asks m }
{}

/// A manifest that was read, with metadata as a free value, is told, so that it is read again from
/// what is written of it. Then it is as it was, unless a dependency says `workspace = false`.
pub fn read_manifests_are_told()
    ensures of_tree { (d : Data) (m : ManifestMeaning Data)
        → without_floats (manifest_reads any_tree) d ≡ Some m → IsTold m }
    ensures of_document { (document : Option Members) (m : ManifestMeaning Data)
        → document_reads (manifest_reads any_tree) document ≡ Some m → IsTold m }
    ensures stays { (document : Option Members) (m : ManifestMeaning Data)
        → document_reads (manifest_reads any_tree) document ≡ Some m
        → ManifestMeets says_true m → reread m ≡ m }
{}

/// What completion gives of a manifest that is told, from a workspace that is, is told, so that it
/// is read again too. That doesn't depend on how its metadata are seen.
pub fn completed_manifests_are_told<Metadata: FromValue>()
    ensures completed { (m n : ManifestMeaning Metadata) (by : Choice) (folders : Name → Told)
        → IsTold m → ChoiceIsTold by → complete_by m by folders ≡ gives n → IsTold n }
    ensures alike { (m : Manifest Metadata)
        → IsTold (held m) ↔ IsTold (manifest_meaning Metadata.meaning m) }
{}
