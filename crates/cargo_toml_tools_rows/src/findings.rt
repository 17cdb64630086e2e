//! What is found of a manifest, as text.

use cargo_toml::{Error, Manifest};
use cargo_toml_bench::HeldManifest;
use cargo_toml_lint::{Finding, lint, lint_limited};
use std::alloc::Global;
use std::fmt::Write;
use std::fs;
use std::hash::{BuildHasherDefault, FoldHasher};
use std::rt::Files;

/// A line `LEVEL | CODE | FEATURE | TEXT | words` for each finding of the manifest in a file, at a
/// limit of items where one is handed in.
pub fn lines<R: Files + AllocGlobal>(
    rt: &R,
    file: &str,
    limit: Option<&str>,
) -> Result<String, Error> {
    let alloc = rt.alloc();
    let bytes = fs::read(rt, file)?;
    let held = HeldManifest::from_slice(alloc, bytes.as_slice())?;
    let findings = findings(alloc, &*held.manifest, limit)?;
    let mut text = String::new(alloc);
    for finding in &findings {
        push_finding(&mut text, finding)?;
    }
    Ok(text)
}

fn findings<'m>(
    alloc: Global,
    manifest: &'m Manifest,
    limit: Option<&str>,
) -> Result<Vec<Finding<'m>>, Error> {
    let state: BuildHasherDefault<FoldHasher> = BuildHasherDefault::new();
    let Some(limit) = limit else {
        return lint(alloc, state, manifest);
    };
    match limit.parse() {
        Ok(limit) if limit > 0 => lint_limited(alloc, state, manifest, limit),
        _ => Err(Error::Other("no limit")),
    }
}

fn push_finding(text: &mut String, finding: &Finding<'_>) -> Result<(), Error> {
    let code = finding.code;
    write!(
        text,
        "{} | {} | {} | {} | {}\n",
        code.level().name(),
        code.name(),
        finding.feature,
        finding.text,
        code.words()
    )?;
    Ok(())
}
