//! Features resolved by the body that callers get and by the plain one beside it, as text.
use crate::completed::completed;
use crate::custom;
use crate::features::lines_of;
use crate::row::{Row, Shown};
use cargo_toml::Error;
use cargo_toml_bench::HeldManifest;
use cargo_toml_bench::bodies::resolve_by_both;
use cargo_toml_bench::whole::{Answer, keep_a, keep_every};
use std::alloc::Global;
use std::rt::Files;

/// Whether the same is printed of the features of a row's manifest by both bodies. A row of
/// `parsed` is completed first, and in one of `custom` the features stand in no manifest. The row
/// `tables` is of all small tables.
pub fn answer<R: Files + AllocGlobal>(rt: &R, path: &str) -> Shown {
    let (alloc, row) = (rt.alloc(), Row { rt, path });
    let Some((kind, _)) = path.split_once('/') else {
        return tables(alloc);
    };
    let bytes = row.manifest()?;
    let bytes = bytes.as_slice();
    match kind {
        "custom" => return alike(alloc, custom::by_both(&row, bytes)?),
        "parsed" => return shown(alloc, &completed(&row, bytes)?),
        _ => {}
    }
    let held = HeldManifest::from_slice(alloc, bytes)?;
    let keep = keep_a;
    let every = keep_every;
    match kind {
        "kept" => compared(alloc, resolve_by_both(alloc, Some(&keep), &*held.manifest)?),
        "whole" => compared(
            alloc,
            resolve_by_both(alloc, Some(&every), &*held.manifest)?,
        ),
        _ => shown(alloc, &held),
    }
}

/// Whether the same is printed by both bodies where all hidden features are removed.
fn shown(alloc: Global, held: &HeldManifest) -> Shown {
    let no_filter: Option<&fn(&str) -> bool> = None;
    compared(alloc, resolve_by_both(alloc, no_filter, &*held.manifest)?)
}

/// Whether the same is printed of both answers, or else what is.
fn compared(alloc: Global, answers: (Answer<'_>, Answer<'_>)) -> Shown {
    let (called, plain) = answers;
    let called = lines_of(alloc, called);
    let plain = lines_of(alloc, plain);
    alike(alloc, (called?, plain?))
}

fn alike(alloc: Global, texts: (String, String)) -> Shown {
    let (called, plain) = texts;
    if called == plain {
        return Ok(String::from_str(alloc, "alike")?);
    }
    Ok(format!(in alloc; "{called}, and plainly {plain}")?)
}

/// The lists of `a`, `_a` and `_b`.
const LISTS: [&str; 8] = [
    "",
    "'a'",
    "'_a'",
    "'a', '_a'",
    "'_b'",
    "'a', '_b'",
    "'_a', '_b'",
    "'a', '_a', '_b'",
];

/// That the same is printed of each table in which every one of the three names such a list, or
/// else what is printed of the first that differs.
fn tables(alloc: Global) -> Shown {
    for a in LISTS {
        for hidden_a in LISTS {
            for hidden_b in LISTS {
                let text = table(alloc, a, hidden_a, hidden_b)?;
                let compared = shown(alloc, &HeldManifest::from_str(alloc, text.as_str())?)?;
                if compared.as_str() != "alike" {
                    return Ok(format!(in alloc; "{text} {compared}")?);
                }
            }
        }
    }
    Ok(String::from_str(alloc, "512 alike")?)
}

/// The table of these lists, and a binary for each feature that requires it.
fn table(alloc: Global, a: &str, hidden_a: &str, hidden_b: &str) -> Shown {
    Ok(format!(in alloc;
        "package.name = 'p'\nfeatures = {{ a = [{a}], _a = [{hidden_a}], _b = [{hidden_b}] }}\n\
        bin = [{{ name = 'x', required-features = ['a'] }}, \
        {{ name = 'y', required-features = ['_a'] }}, \
        {{ name = 'z', required-features = ['_b'] }}]\n"
    )?)
}
