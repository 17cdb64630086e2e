//! What comes of a manifest, as text.
use crate::row::Shown;
use cargo_toml::{Error, Manifest, ParseFault, ToValue, Value};
use cargo_toml_bench::HeldManifest;
use cargo_toml_bench::report::print_report;
use std::alloc::Global;
use toml::Table;

/// The text that a manifest is written as.
fn print(alloc: Global, held: &HeldManifest) -> Shown {
    match held.manifest.to_value(alloc)? {
        Value::Table(table) => print_table(alloc, &table),
        _ => Err(Error::Other("a manifest that is no table")),
    }
}

/// The text of a table. The text has to read as the same table.
pub fn print_table(alloc: Global, table: &Table) -> Shown {
    let Ok(text) = toml::table_to_string(alloc, table) else {
        return Err(Error::Other("a table that can't be printed"));
    };
    if toml::table_from_str(alloc, text.as_str())? == *table {
        return Ok(text);
    }
    Err(Error::Other("a text that reads as another table"))
}

/// How the manifest is written. What is written has to be written alike where it is read again.
pub fn written(alloc: Global, bytes: &[u8]) -> Shown {
    let text = print(alloc, &HeldManifest::from_slice(alloc, bytes)?)?;
    let again = print(alloc, &HeldManifest::from_str(alloc, text.as_str())?)?;
    same(alloc, text, again.as_str(), "read again")
}

/// The text where the other is the same, and else both.
pub fn same(alloc: Global, text: String, other: &str, how: &str) -> Shown {
    if text.as_str() == other {
        return Ok(text);
    }
    Ok(format!(in alloc; "{text}, and {how} {other}")?)
}

/// The manifest's text where the fields of what is written of it, read again, are shown alike, and
/// those that are shown otherwise.
pub fn again(alloc: Global, text: &str) -> Shown {
    let held = HeldManifest::from_str(alloc, text)?;
    let written = print(alloc, &held)?;
    let again = HeldManifest::from_str(alloc, written.as_str())?;
    if are_alike(alloc, &held, &again)? {
        return Ok(String::from_str(alloc, text)?);
    }
    shown(alloc, &again)
}

/// The text of a manifest's fields.
pub fn shown(alloc: Global, held: &HeldManifest) -> Shown {
    Ok(format!(in alloc; "{:?}", held.manifest)?)
}

/// The manifest by the call that reads metadata of a caller's own type.
fn with_metadata(alloc: Global, bytes: &[u8]) -> Result<HeldManifest, Error> {
    HeldManifest::new(alloc, Manifest::from_slice_with_metadata(alloc, bytes)?)
}

/// Whether two manifests have one text. They have to be equal just then, but for what is inherited,
/// which equals nothing.
fn are_alike(alloc: Global, one: &HeldManifest, other: &HeldManifest) -> Result<bool, Error> {
    let text = shown(alloc, one)?;
    let alike = text == shown(alloc, other)?;
    if alike == (*one.manifest == *other.manifest) || text.contains("Inherited") {
        return Ok(alike);
    }
    Err(Error::Other("equal manifests of two texts, or other ones of one"))
}

/// The text of the manifest's fields. A copy of the manifest has to be like it, and so have those
/// that the other calls read.
pub fn fields(alloc: Global, bytes: &[u8]) -> Shown {
    let held = HeldManifest::from_slice(alloc, bytes)?;
    let copy = HeldManifest {
        manifest: held.manifest.clone()?,
    };
    let spelled = text_of(alloc, bytes)?;
    let by_text = HeldManifest::from_str(alloc, spelled.as_str())?;
    let alike = are_alike(alloc, &held, &copy)?
        && are_alike(alloc, &held, &with_metadata(alloc, bytes)?)?
        && are_alike(alloc, &held, &by_text)?;
    if !alike {
        return Err(Error::Other("a copy, or another call, says something else"));
    }
    let _ = are_alike(alloc, &held, &HeldManifest::from_str(alloc, "")?)?;
    shown(alloc, &held)
}

/// The expected lines where each stands in the text, and the text otherwise.
pub fn with_lines(alloc: Global, text: String, expected: &str) -> Shown {
    for line in expected.split_terminator('\n') {
        if !text.contains(line) {
            return Ok(format!(in alloc; "no {line} in {text}")?);
        }
    }
    Ok(String::from_str(alloc, expected)?)
}

/// Why the manifest is refused: the variant of the fault and its words. The words of `toml` are its
/// own and are left out.
pub fn fault(alloc: Global, bytes: &[u8]) -> Shown {
    let fault = match HeldManifest::from_slice(alloc, bytes) {
        Ok(_) => return Ok(String::from_str(alloc, "nothing is refused")?),
        Err(fault) => fault,
    };
    let variant = match &fault {
        Error::Parse(ParseFault::Toml(_)) => return Ok(String::from_str(alloc, "Parse(Toml)\n")?),
        Error::Parse(ParseFault::Shape(_)) => "Parse(Shape)",
        Error::Other(_) => "Other",
        _ => "another fault",
    };
    Ok(format!(in alloc; "{variant}: {fault}\n")?)
}

/// The text that is printed.
pub fn text_of(alloc: Global, bytes: &[u8]) -> Shown {
    match str::from_utf8(bytes) {
        Ok(text) => Ok(String::from_str(alloc, text)?),
        Err(_) => Err(Error::Other("lines that aren't UTF-8")),
    }
}

/// What the proved caller prints of the manifest.
pub fn report(alloc: Global, bytes: &[u8]) -> Shown {
    let mut output = Vec::new(alloc);
    print_report(alloc, bytes, &mut output)?;
    text_of(alloc, output.as_slice())
}
