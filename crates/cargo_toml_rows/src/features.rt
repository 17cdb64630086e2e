//! What the features of a manifest come to, as text.
use crate::manifests::text_of;
use crate::row::{Row, Shown};
use cargo_toml::Error;
use cargo_toml::features::{
    DepAction, DependenciesEnabledByFeatures, Feature, FeatureDependency, Features, Resolver,
};
use cargo_toml_bench::HeldManifest;
use cargo_toml_bench::whole::{keep_a, resolve_by, resolve_whole};
use cargo_toml_program::{feature_lines, print_features};
use std::alloc::{AllocError, Global};
use std::collections::{BTreeSet, HashMap};
use std::fmt::Write;
use std::hash::BuildHasher;
use std::rt::Files;

/// The lines of features. These are dropped by a call: what a function owns itself where it ends is
/// taken apart field by field when it is proved.
pub fn lines_of<S: BuildHasher + Drop>(alloc: Global, features: Features<'_, '_, S>) -> Shown {
    let lines = feature_lines(alloc, &features);
    drop(features);
    lines
}

/// What the program `cargo-toml` prints of the manifest's features at a limit of items, which is at
/// least 1.
pub fn printed(alloc: Global, bytes: &[u8], max_items: usize) -> Shown {
    if max_items == 0 {
        return Err(Error::Other("no limit"));
    }
    let mut input = bytes;
    let mut output = Vec::new(alloc);
    print_features(alloc, &mut input, &mut output, max_items)?;
    text_of(alloc, output.as_slice())
}

/// The same at the limit that the file `max` of the row says.
pub fn limited<R: Files + AllocGlobal>(row: &Row<'_, R>, bytes: &[u8]) -> Shown {
    match row.text("max")?.as_str().parse() {
        Ok(max_items) => printed(row.alloc(), bytes, max_items),
        Err(_) => Err(Error::Other("no limit")),
    }
}

/// The lines of the manifest's features where every hidden name is kept.
pub fn whole(alloc: Global, bytes: &[u8]) -> Shown {
    let held = HeldManifest::from_slice(alloc, bytes)?;
    lines_of(alloc, resolve_whole(alloc, &*held.manifest)?)
}

/// The lines of the manifest's features where `_a` alone of the hidden names is kept.
pub fn kept(alloc: Global, bytes: &[u8]) -> Shown {
    let held = HeldManifest::from_slice(alloc, bytes)?;
    let keep = keep_a;
    let resolved = resolve_by(alloc, Some(&keep), &*held.manifest, 2048)?;
    lines_of(alloc, resolved)
}

/// The features that users are meant to ask for, each with its text.
pub fn documented(alloc: Global, bytes: &[u8]) -> Shown {
    let held = HeldManifest::from_slice(alloc, bytes)?;
    let resolved = Resolver::new().parse(alloc, &*held.manifest)?;
    documented_lines(alloc, &resolved.features)
}

fn documented_lines<S: BuildHasher>(
    alloc: Global,
    features: &HashMap<&str, Feature<'_>, S>,
) -> Shown {
    let mut text = String::new(alloc);
    for name in sorted(alloc, features)? {
        match features.get(name) {
            Some(feature) if feature.is_user_facing() => {
                write!(text, "{name}: {}\n", feature.doc.unwrap_or("-"))?;
            }
            _ => {}
        }
    }
    Ok(text)
}

/// What is recorded of the manifest's dependencies.
pub fn recorded(alloc: Global, bytes: &[u8]) -> Shown {
    let held = HeldManifest::from_slice(alloc, bytes)?;
    let features = Resolver::new().parse(alloc, &*held.manifest)?;
    let lines = dependency_lines(alloc, &features);
    // by a call, as in `lines_of`
    drop(features);
    lines
}

/// The keys of a map, in byte order.
fn sorted<'m, V, S: BuildHasher>(
    alloc: Global,
    map: &HashMap<&'m str, V, S>,
) -> Result<BTreeSet<&'m str>, AllocError> {
    let mut keys = BTreeSet::new(alloc);
    for key in map.keys() {
        keys.insert(*key)?;
    }
    Ok(keys)
}

/// A line for each dependency, in the order of their keys, and whether hidden features were
/// removed.
pub fn dependency_lines<S: BuildHasher>(alloc: Global, features: &Features<'_, '_, S>) -> Shown {
    let mut text = String::new(alloc);
    for key in sorted(alloc, &features.dependencies)? {
        if let Some(dependency) = features.dependencies.get(key) {
            push_dependency(&mut text, key, dependency)?;
        }
    }
    write!(text, "removed {}\n", features.removed_hidden_features)?;
    Ok(text)
}

/// Its crate, and then the kind and the target of each entry, with a `?` where that is optional.
fn push_dependency(
    text: &mut String,
    key: &str,
    dependency: &FeatureDependency<'_>,
) -> Result<(), Error> {
    write!(text, "dependency {key} | {} | ", dependency.crate_name)?;
    for (i, (key, entry)) in dependency.targets.iter().enumerate() {
        let before = if i == 0 { "" } else { ", " };
        let target = key.target.unwrap_or("-");
        let mark = if entry.optional() { "?" } else { "" };
        write!(text, "{before}{:?}/{target}{mark}", key.kind)?;
    }
    text.push_str("\n")?;
    Ok(())
}

/// What the feature that the file `start` of the row names enables transitively.
pub fn enabled<R: Files + AllocGlobal>(row: &Row<'_, R>, bytes: &[u8]) -> Shown {
    let alloc = row.alloc();
    let start = row.text("start")?;
    let held = HeldManifest::from_slice(alloc, bytes)?;
    let resolved = Resolver::new().parse(alloc, &*held.manifest)?;
    let Some(feature) = resolved.features.get(start.as_str()) else {
        return Err(Error::Other("no such feature"));
    };
    let (found, dependencies) = feature.enables_recursive(alloc, &resolved.features)?;
    enabled_lines(alloc, &found, &dependencies)
}

/// A line for each feature, in byte order, and one for each dependency with the features that act
/// on it, in the order in which they are visited.
fn enabled_lines<S: BuildHasher>(
    alloc: Global,
    found: &HashMap<&str, &Feature<'_>, S>,
    dependencies: &DependenciesEnabledByFeatures<'_, '_, S>,
) -> Shown {
    let mut text = String::new(alloc);
    for name in sorted(alloc, found)? {
        write!(text, "feature {name}\n")?;
    }
    for key in sorted(alloc, dependencies)? {
        if let Some(pairs) = dependencies.get(key) {
            push_pairs(&mut text, key, pairs.as_slice())?;
        }
    }
    Ok(text)
}

fn push_pairs(text: &mut String, key: &str, pairs: &[(&str, &DepAction<'_>)]) -> Result<(), Error> {
    write!(text, "dependency {key} | ")?;
    for (i, pair) in pairs.iter().enumerate() {
        let before = if i == 0 { "" } else { ", " };
        write!(text, "{before}{}", pair.0)?;
    }
    text.push_str("\n")?;
    Ok(())
}
