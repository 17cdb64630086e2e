//! Paths: what two join to, the last name, the folder above and all folders above, and the
//! folder of a workspace.
use crate::row::Shown;
use cargo_toml::{Error, Value};
use cargo_toml_parts::paths::{ancestors, join, last_name, parent, workspace_folder};
use std::alloc::Global;
use std::fmt::Debug;

fn shown<T: Debug>(alloc: Global, answer: &T) -> Shown {
    Ok(format!(in alloc; "{answer:?}")?)
}

fn text_of(value: &Value) -> Result<&str, Error> {
    match value.as_str() {
        Some(text) => Ok(text),
        None => Err(Error::Other("a path that is no text")),
    }
}

/// The answer to a path, or to an array of two paths, by the name of the row.
pub fn answer(alloc: Global, row: &str, value: &str) -> Shown {
    let value = Value::from_str(alloc, value)?;
    if let Some([front, back]) = value.as_array().map(|paths| paths.as_slice()) {
        return shown(alloc, &join(alloc, text_of(front)?, text_of(back)?)?);
    }
    let path = text_of(&value)?;
    match row {
        "paths/last-names" => shown(alloc, &last_name(path)),
        "paths/folder-of-a-workspace" => shown(alloc, &workspace_folder(path)),
        "paths/ancestors" => all_above(alloc, path),
        _ => shown(alloc, &parent(path)),
    }
}

fn all_above(alloc: Global, path: &str) -> Shown {
    let mut above = Vec::new(alloc);
    for folder in ancestors(path) {
        above.push(folder.as_str())?;
    }
    shown(alloc, &above)
}
