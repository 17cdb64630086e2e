//! A manifest on the heap.
ghost use Rattle.std.specs.Path.{path_parent};
ghost use Rattle.std.specs.Prelude.{◌≡◌, false, IfErr, IfOk, IfSome, IsSome, OnOk};
ghost use Rattle.toml.specs.View.{view};
ghost use Rattle.cargo_toml_parts.specs.{Floats.FloatsOr, Floats.without_floats, Reads.IsReading};
ghost use Rattle.cargo_toml_parts.specs.declared.error.Error.{Memory};
ghost use Rattle.cargo_toml_package.specs.Inheriting.{IsFilled};
ghost use Rattle.cargo_toml_manifest.specs.Inheriting.{needs};
ghost use Rattle.cargo_toml_manifest.specs.Manifests.{held, manifest_meaning, manifest_reads};
ghost use Rattle.cargo_toml_manifest.specs.Manifests.{ManifestRefuses};
ghost use Rattle.cargo_toml_manifest.specs.RealFiles.{IsPathFault, IsReadAndCompleted};
ghost use Rattle.cargo_toml_manifest.specs.Texts.{AnyRefuses, IsFromBytes, IsFromText, any_tree};

use crate::manifest::Manifest;
use cargo_toml_parts::{Error, FromValue};
use std::alloc::Global;
use std::rt::Files;
use toml::Value;

/// A manifest on the heap. Its `Drop` is written by hand, so that the proof of who owns it doesn't
/// look at what is in it.
pub struct HeldManifest {
    /// The manifest.
    pub manifest: Box<Manifest>,
}

impl Drop for HeldManifest {
    fn drop(self) {
        let HeldManifest { manifest } = self;
        drop(manifest);
    }
}

impl HeldManifest {
    /// Holds this manifest. The one refusal is [`Error::Memory`].
    pub fn new(alloc: Global, manifest: Manifest) -> Result<HeldManifest, Error>
        ensures same { IfOk result (λ h. h.manifest.value ≡ manifest) }
        ensures refused { IfErr result (λ e. e ≡ Memory) }
    {
        let manifest = Box::new(alloc, manifest)?;
        Ok(HeldManifest { manifest })
    }

    /// Holds the manifest that these bytes spell. Refuses as [`Manifest::from_slice`] does, with
    /// [`Error::Memory`] when out of memory.
    pub fn from_slice(alloc: Global, bytes: &[u8]) -> Result<HeldManifest, Error>
        ensures { IsFromBytes (λ h. manifest_meaning view h.manifest.value)
            (manifest_reads any_tree) (ManifestRefuses any_tree AnyRefuses) bytes.now result }
    {
        match Manifest::from_slice(alloc, bytes) {
            Ok(manifest) => HeldManifest::new(alloc, manifest),
            Err(fault) => Err(fault),
        }
    }

    /// Holds the manifest that this text spells. Refuses as [`Manifest::from_str`] does, with
    /// [`Error::Memory`] when out of memory.
    pub fn from_str(alloc: Global, text: &str) -> Result<HeldManifest, Error>
        ensures { IsFromText (λ h. manifest_meaning view h.manifest.value)
            (manifest_reads any_tree) (ManifestRefuses any_tree AnyRefuses) text.now result }
    {
        match Manifest::from_str(alloc, text) {
            Ok(manifest) => HeldManifest::new(alloc, manifest),
            Err(fault) => Err(fault),
        }
    }

    /// Holds the manifest that this tree gives. Refuses as [`FromValue::from_value`] does, with
    /// [`Error::Memory`] when out of memory.
    pub fn from_value(alloc: Global, value: Value) -> Result<HeldManifest, Error>
        ensures { IsReading (λ h. manifest_meaning view h.manifest.value)
            (without_floats (manifest_reads any_tree) (view value))
            (FloatsOr (ManifestRefuses any_tree AnyRefuses) (view value)) result }
    {
        match Manifest::from_value(alloc, value) {
            Ok(manifest) => HeldManifest::new(alloc, manifest),
            Err(fault) => Err(fault),
        }
    }

    /// Holds the manifest in the file at this path, completed from the real files around it.
    /// Refuses as [`Manifest::from_path`] does, with [`Error::Memory`] when out of memory.
    pub fn from_path<'a, R: Files + AllocGlobal>(
        rt: &'a R,
        alloc: Global,
        path: &'a str,
    ) -> Result<HeldManifest, Error>
        ensures given { IfOk result
            (λ h. IsReadAndCompleted (manifest_meaning view) (manifest_reads any_tree)
            h.manifest.value) }
        ensures named { OnOk result (IsSome (path_parent path.now)) }
        ensures needs { IfOk result (λ h. needs (held h.manifest.value) ≡ false) }
        ensures filled { IfOk result (λ h. IfSome h.manifest.value.«package» IsFilled) }
        ensures refused { IfErr result (IsPathFault path.now (manifest_meaning view)
            (manifest_reads any_tree) (ManifestRefuses any_tree AnyRefuses)) }
    {
        match Manifest::from_path(rt, alloc, path) {
            Ok(manifest) => HeldManifest::new(alloc, manifest),
            Err(fault) => Err(fault),
        }
    }
}
