//! The writer of manifests.
ghost use Rattle.std.specs.Prelude.{◌≡◌, IfErr};
ghost use Rattle.cargo_toml_manifest.specs.Manifests.{ManifestMeaning, manifest_meaning};
ghost use Rattle.cargo_toml_manifest.specs.Manifests.{manifest_reads};
ghost use Rattle.cargo_toml_parts.specs.declared.error.Error.{Error};
ghost use Rattle.cargo_toml_write.specs.Reread.{IsTold, reread};
ghost use Rattle.cargo_toml_write.specs.Writes.{IsReadAgain, IsWriting};
ghost use Rattle.cargo_toml_write.specs.WrittenDependencies.{AreTold, features_in};
ghost use Rattle.cargo_toml_write.specs.WrittenManifests.{all_features, manifest_way};
ghost use Rattle.cargo_toml_write.specs.WrittenPackages.{AreReadAgain};

use crate::write::ToValue;
use crate::write::dependency::Features;
use crate::write::writing::Writing;
use cargo_toml_manifest::Manifest;
use cargo_toml_parts::{Error, FromValue};
use std::alloc::Global;
use toml::Value;

/// A field that holds what a missing key stands for is left out: the default manifest is written
/// as the empty table.
///
/// A manifest that meets `IsTold`, as each that was read does, is read again as `reread` says,
/// where its metadata are read again. That is the manifest as it was, except
///
/// - dependencies that say `workspace = false`, which become details;
/// - the mark of dependencies that were inherited;
/// - the rule of version 0.0.0.
impl<Metadata: FromValue + ToValue> ToValue for Manifest<Metadata> {
    ghost Meaning = { ManifestMeaning Metadata.ToValue.Meaning };

    ghost meaning = { manifest_meaning Metadata.ToValue.meaning };

    ghost way = { manifest_way Metadata.way };

    fn to_value(&self, alloc: Global) -> Result<Value, Error>
        ensures written { IsWriting (manifest_way Metadata.way)
            (manifest_meaning Metadata.ToValue.meaning self.now) result }
        ensures read_again { IsTold (manifest_meaning Metadata.FromValue.meaning self.now)
            → AreReadAgain Metadata.way Metadata.ToValue.meaning Metadata.FromValue.meaning
            Metadata.from_tree
            → IsReadAgain (manifest_reads Metadata.from_tree)
            (reread (manifest_meaning Metadata.FromValue.meaning self.now)) result }
        ensures features_again { AreTold
            (all_features (manifest_meaning Metadata.ToValue.meaning self.now))
            → IsReadAgain features_in
            (all_features (manifest_meaning Metadata.ToValue.meaning self.now)) result }
        ensures memory { (manifest_way Metadata.way).asks
            (manifest_meaning Metadata.ToValue.meaning self.now)
            → IfErr result (λ e. e ≡ Error.Memory) }
    {
        let features = Features {
            lists: &self.features,
            details: &self.feature_details,
        };
        let mut writing = Writing::new(alloc);
        writing.optional("package", &self.package);
        writing.optional("workspace", &self.workspace);
        writing.given("dependencies", &self.dependencies);
        writing.given("dev-dependencies", &self.dev_dependencies);
        writing.given("build-dependencies", &self.build_dependencies);
        writing.given("target", &self.target);
        writing.given("features", &features);
        writing.given("replace", &self.replace);
        writing.given("patch", &self.patch);
        writing.optional("lib", &self.lib);
        writing.given("profile", &self.profile);
        writing.given("badges", &self.badges);
        writing.given("bin", &self.bin);
        writing.given("bench", &self.bench);
        writing.given("test", &self.test);
        writing.given("example", &self.example);
        writing.given("lints", &self.lints);
        writing.finish()
    }
}
