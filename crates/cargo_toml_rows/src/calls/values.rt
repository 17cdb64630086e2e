//! Values that may be inherited, publishing, optional files and settings.
use crate::row::Shown;
use cargo_toml::{
    DebugSetting, Edition, Error, Inheritable, Lint, LintLevel, OptionalFile, Publish, Resolver,
    ToValue,
};
use std::alloc::Global;
use std::collections::BTreeMap;

/// Publishing, beside a truth value.
pub fn eq_bool(alloc: Global) -> Shown {
    let mut names = Vec::new(alloc);
    names.push(String::from_str(alloc, "x")?)?;
    let named = Publish::Registry(names).eq_bool(true);
    let flag = Publish::Flag(false).eq_bool(false);
    Ok(format!(in alloc;
        "Registry([\"x\"]).eq_bool(true): {named}\nFlag(false).eq_bool(false): {flag}\n"
    )?)
}

/// A value that is inherited equals none.
pub fn equality(alloc: Global) -> Shown {
    let inherited = Inheritable::<bool>::Inherited == Inheritable::Inherited;
    let set = Inheritable::Set(true) == Inheritable::Set(true);
    Ok(format!(in alloc; "Inherited == Inherited: {inherited}\nSet(true) == Set(true): {set}\n")?)
}

/// A value that is inherited, taken over, and then put in by each way to do so.
pub fn inheritable(alloc: Global) -> Shown {
    let mut edition: Inheritable<Edition> = Inheritable::Inherited;
    let before = edition.is_set();
    edition.inherit(&Edition::E2018)?;
    let taken = edition;
    *edition.get_mut()? = Edition::E2021;
    let written = edition;
    if let Inheritable::Set(lent) = edition.as_mut() {
        *lent = Edition::E2015;
    }
    let lent = edition.is_default();
    edition.set(Edition::E2024);
    let told = edition.as_ref().is_set();
    let last = edition.unwrap();
    Ok(format!(in alloc;
        "Inherited.is_set(): {before}\ninherit(&E2018): {taken:?}\nget_mut(): {written:?}
as_mut(), is_default(): {lent}\nset(E2024), as_ref().is_set(): {told}\nunwrap(): {last:?}
"
    )?)
}

/// Defaults, options, and what is known to be empty.
pub fn conversions(alloc: Global) -> Shown {
    let default = Inheritable::<Edition>::default();
    let there = Inheritable::from(Some(7u8));
    let back: Option<u8> = Option::from(there);
    let none: Option<u8> = Option::from(Inheritable::from(None));
    let list: Inheritable<Vec<bool>> = Inheritable::Set(Vec::new(alloc));
    let map: Inheritable<BTreeMap<u8, bool>> = Inheritable::Set(BTreeMap::new(alloc));
    let (list, map) = (list.is_empty(), map.is_empty());
    let unknown = Inheritable::<BTreeMap<u8, bool>>::Inherited.is_empty();
    Ok(format!(in alloc;
        "default(): {default:?}\nfrom(Some(7)): {there:?}, {back:?}\nfrom(None): {none:?}
is_empty() of a list, a map, Inherited: {list}, {map}, {unknown}
"
    )?)
}

/// The questions to an optional file.
fn questions(alloc: Global, file: &OptionalFile) -> Shown {
    let (text, path, is_some) = (file.display(), file.as_path(), file.is_some());
    Ok(format!(in alloc; "{text}, {path:?}, {is_some}")?)
}

/// These of a path, of what is there where nothing is said, and of none.
pub fn optional_files(alloc: Global) -> Shown {
    let path = questions(alloc, &OptionalFile::Path(String::from_str(alloc, "R.md")?))?;
    let default = questions(alloc, &OptionalFile::default())?;
    let none = questions(alloc, &OptionalFile::Flag(false))?;
    Ok(format!(in alloc; "Path(\"R.md\"): {path}\ndefault(): {default}\nFlag(false): {none}\n")?)
}

/// The tree that a value is written as.
fn tree<T: ToValue + Drop>(alloc: Global, value: T) -> Shown {
    let tree = value.to_value(alloc)?;
    Ok(format!(in alloc; "{tree}")?)
}

fn warn(alloc: Global, priority: i8) -> Lint {
    Lint {
        level: LintLevel::Warn,
        priority,
        config: BTreeMap::new(alloc),
    }
}

/// Small values, written, and what editions need.
pub fn written_small(alloc: Global) -> Shown {
    let inherited = tree(alloc, Inheritable::<String>::Inherited)?;
    let set = tree(alloc, Inheritable::Set(String::from_str(alloc, "hello")?))?;
    let empty = Publish::Registry(Vec::new(alloc)).eq_bool(false);
    let lines = tree(alloc, DebugSetting::Lines)?;
    let text = tree(alloc, warn(alloc, 0))?;
    let table = tree(alloc, warn(alloc, -1))?;
    let new = Edition::E2024.min_rust_version_minor();
    let old = Edition::E2021.min_rust_version_minor();
    Ok(format!(in alloc;
        "Inherited: {inherited}\nSet(\"hello\"): {set}\nRegistry([]).eq_bool(false): {empty}
E2024 needs: {new}\nE2021 needs: {old}\nLines: {lines}\nwarn, 0: {text}\nwarn, -1: {table}
"
    )?)
}

/// Editions and resolvers as texts and as numbers.
pub fn numbers(alloc: Global) -> Shown {
    Ok(format!(in alloc;
        "E2018: {}\nV3: {}\nE2021 as a number: {}\nV2 as a number: {}\n",
        Edition::E2018,
        Resolver::V3,
        Edition::E2021 as u16,
        Resolver::V2 as u8
    )?)
}
