//! One key of metadata.

use cargo_toml::Manifest;

/// Whether documentation is made with all features, where the metadata says so.
pub fn documents_all(manifest: &Manifest) -> Option<bool> {
    let metadata = manifest.package.as_ref()?.metadata.as_ref()?;
    metadata
        .get("docs")?
        .get("rs")?
        .get("all-features")?
        .as_bool()
}
