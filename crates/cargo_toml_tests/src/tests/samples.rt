//! What docs/USING.md shows, as it stands there.
mod archive;
mod counting;
mod docs_rs;

use archive::Archive;
use cargo_toml::features::Resolver;
use cargo_toml::{Error, Manifest, Value};
use cargo_toml_bench::HeldManifest;
use counting::count_enabled;
use docs_rs::documents_all;
use std::alloc::{AllocError, Global};
use std::test::Fail;

fn small_archive(alloc: Global) -> Result<Archive, AllocError> {
    let mut paths = Vec::new(alloc);
    for path in ["Cargo.toml", "src/lib.rs", "src/bin/tool.rs"] {
        paths.push(String::from_str(alloc, path)?)?;
    }
    Ok(Archive { paths })
}

#[test]
fn an_archive_tells_products(rt: HostRuntime) -> Result<(), Fail> {
    let alloc = rt.alloc();
    let files = small_archive(alloc)?;
    let mut held = HeldManifest::from_str(alloc, "package = { name = \"p\" }")?;
    held.manifest
        .complete_from_abstract_filesystem::<Value, _>(alloc, files, None)?;
    assert!(rt; held.manifest.lib.is_some());
    assert_eq!(rt; held.manifest.bin.len(), 1);
    assert_eq!(rt; held.manifest.example.len(), 0);
    Ok(())
}

fn counted(alloc: Global, manifest: &Manifest) -> Result<usize, Error> {
    let resolved = Resolver::new().parse(alloc, manifest)?;
    let count = count_enabled(alloc, &resolved);
    drop(resolved);
    count
}

#[test]
fn helpers_over_features_and_metadata(rt: HostRuntime) -> Result<(), Fail> {
    let alloc = rt.alloc();
    let text = "features = { a = [\"b\"], b = [] }\n\
        package = { name = \"p\", metadata.docs.rs.all-features = true }\n";
    let held = HeldManifest::from_str(alloc, text)?;
    assert_eq!(rt; documents_all(&held.manifest), Some(true));
    assert_eq!(rt; counted(alloc, &held.manifest)?, 4);
    Ok(())
}
