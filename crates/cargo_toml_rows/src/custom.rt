//! Features and dependencies, resolved as if they stood in no manifest.
use crate::features::dependency_lines;
use crate::row::{Row, Shown};
use cargo_toml::features::{Features, Kind, ParseDependency, Resolver};
use cargo_toml::{DepsSet, Error, FeatureSet, Manifest};
use cargo_toml_bench::HeldManifest;
use cargo_toml_bench::plain::without_hidden;
use cargo_toml_bench::whole::keep_every;
use cargo_toml_program::feature_lines;
use std::alloc::Global;
use std::collections::HashMap;
use std::hash::{BuildHasher, BuildHasherDefault, FoldHasher};
use std::rt::Files;

type Table = HashMap<String, Vec<String>, BuildHasherDefault<FoldHasher>>;

/// What is printed of them, and what is recorded of dependencies.
pub fn lines<R: Files + AllocGlobal>(row: &Row<'_, R>, bytes: &[u8]) -> Shown {
    let (called, _) = by_both(row, bytes)?;
    Ok(called)
}

/// The same as callers resolve them, and by the plain body.
pub type Both = Result<(String, String), Error>;

/// Both of the features of a manifest and of its dependencies, with those of `More.toml` behind.
pub fn by_both<R: Files + AllocGlobal>(row: &Row<'_, R>, bytes: &[u8]) -> Both {
    let alloc = row.alloc();
    let held = HeldManifest::from_slice(alloc, bytes)?;
    let more = row.find("More.toml")?.unwrap_or(String::new(alloc));
    let more = HeldManifest::from_str(alloc, more.as_str())?;
    let table = hashed(alloc, &held.manifest.features)?;
    let mut listed = entries(alloc, &*held.manifest)?;
    push(&mut listed, Kind::Normal, None, &more.manifest.dependencies)?;
    both(alloc, &table, listed.as_slice())
}

fn both(alloc: Global, table: &Table, entries: &[ParseDependency<'_, '_>]) -> Both {
    let called = text_of(alloc, Resolver::new().parse_custom(alloc, table, entries)?)?;
    let keep = keep_every;
    let every = Resolver::new_with_hasher_and_filter(BuildHasherDefault::new(), &keep);
    let no_filter: Option<&fn(&str) -> bool> = None;
    let plain = without_hidden(alloc, no_filter, every.parse_custom(alloc, table, entries)?)?;
    Ok((called, text_of(alloc, plain)?))
}

/// The lines of features and of dependencies. The features are dropped by a call, as in `lines_of`.
fn text_of<S: BuildHasher + Drop>(alloc: Global, features: Features<'_, '_, S>) -> Shown {
    let lines = feature_lines(alloc, &features);
    let recorded = dependency_lines(alloc, &features);
    drop(features);
    Ok(format!(in alloc; "{}{}", lines?, recorded?)?)
}

fn hashed(alloc: Global, features: &FeatureSet) -> Result<Table, Error> {
    let mut table = HashMap::with_hasher(alloc, BuildHasherDefault::new());
    for (name, actions) in features {
        table.insert(name.clone()?, actions.clone()?)?;
    }
    Ok(table)
}

/// The dependencies in the order in which a manifest's count.
fn entries<'m>(
    alloc: Global,
    manifest: &'m Manifest,
) -> Result<Vec<ParseDependency<'m, 'm>>, Error> {
    let mut listed = Vec::new(alloc);
    push(&mut listed, Kind::Normal, None, &manifest.dependencies)?;
    push(&mut listed, Kind::Build, None, &manifest.build_dependencies)?;
    for (name, tables) in &manifest.target {
        let name = Some(name.as_str());
        push(&mut listed, Kind::Normal, name, &tables.dependencies)?;
        push(&mut listed, Kind::Build, name, &tables.build_dependencies)?;
    }
    push(&mut listed, Kind::Dev, None, &manifest.dev_dependencies)?;
    for (name, tables) in &manifest.target {
        let name = Some(name.as_str());
        push(&mut listed, Kind::Dev, name, &tables.dev_dependencies)?;
    }
    Ok(listed)
}

fn push<'m>(
    listed: &mut Vec<ParseDependency<'m, 'm>>,
    kind: Kind,
    target: Option<&'m str>,
    table: &'m DepsSet,
) -> Result<(), Error> {
    for (key, dep) in table {
        let key = key.as_str();
        listed.push(ParseDependency {
            key,
            kind,
            target,
            dep,
        })?;
    }
    Ok(())
}
