//! What is asked of a package, and what is written to it.
ghost use Rattle.std.specs.Prelude.{◌≡◌};
ghost use Rattle.cargo_toml.specs.PackageAnswers.{is_known};

use crate::row::Shown;
use cargo_toml::{Error, Inheritable, Package};
use cargo_toml_bench::HeldManifest;
use std::alloc::Global;
use std::fmt::Write;

fn set_texts(alloc: Global, package: &mut Package) -> Result<(), Error> {
    package.set_description(Some(String::from_str(alloc, "d")?));
    package.set_homepage(Some(String::from_str(alloc, "h")?));
    package.set_documentation(Some(String::from_str(alloc, "e")?));
    package.set_repository(Some(String::from_str(alloc, "r")?));
    package.set_rust_version(Some(String::from_str(alloc, "v")?));
    if package.categories.is_set() {
        package
            .categories_mut()
            .push(String::from_str(alloc, "c")?)?;
    }
    Ok(())
}

/// A package whose fields are set, each that has a setter, and then set to none where they may be.
pub fn setters(alloc: Global) -> Shown {
    let mut held = HeldManifest::from_str(alloc, "package = { name = 'p' }")?;
    let Some(package) = &mut held.manifest.package else {
        return Err(Error::Other("no package"));
    };
    set_texts(alloc, package)?;
    let set = format!(in alloc; "{package:?}")?;
    package.set_description(None);
    package.set_homepage(None);
    package.set_documentation(None);
    package.set_repository(None);
    package.set_rust_version(None);
    Ok(format!(in alloc; "set: {set}\nnone: {package:?}\n")?)
}

const ASKED: &str = "lints.rust.unused = 'warn'\n\
    [package]\nname = 'anvil'\nversion = '1.2.3'\nedition = '2024'\nrust-version = '1.85'\n\
    authors = ['Ann', 'Ben']\nlinks = 'z'\ndescription = 'Reads manifests'\n\
    homepage = 'https://home'\ndocumentation = 'https://docs'\nreadme = 'READ.md'\n\
    keywords = ['cargo']\ncategories = ['parsing', 'encoding']\nexclude = ['out']\n\
    include = ['src', 'LICENSE']\nlicense = 'MIT'\nlicense-file = 'COPYING'\n\
    repository = 'https://code'\npublish = false\n";

/// Whether a field, where it is there, is set.
fn is_known(field: &Option<Inheritable<String>>) -> bool
    ensures { result ≡ is_known field.now }
{
    match field {
        Some(value) => value.is_set(),
        None => true,
    }
}

/// Pushes a line for each question to a package that is answered where its field is known.
macro_rules! ask {
    ($text:ident, $package:ident, $is_known:path, $($field:ident)*) => {
        $(
            if !$is_known(&$package.$field) {
                return Err(Error::InheritedUnknownValue);
            }
            write!($text, "{}(): {:?}\n", stringify!($field), $package.$field())?;
        )*
    };
}

fn push_texts(text: &mut String, package: &Package) -> Result<(), Error> {
    ask!(text, package, is_known, rust_version description license license_file);
    ask!(text, package, is_known, homepage documentation repository);
    Ok(())
}

fn push_others(text: &mut String, package: &Package) -> Result<(), Error> {
    ask!(text, package, Inheritable::is_set, version edition readme publish);
    ask!(text, package, Inheritable::is_set, authors keywords categories exclude include);
    let (name, links) = (package.name(), package.links());
    write!(text, "name(): {name}\nlinks(): {links:?}\n")?;
    Ok(())
}

/// Each question to a package, and to its manifest.
pub fn getters(alloc: Global) -> Shown {
    let held = HeldManifest::from_str(alloc, ASKED)?;
    let manifest = &*held.manifest;
    if manifest.package.is_none() || !manifest.lints.is_set() {
        return Err(Error::InheritedUnknownValue);
    }
    let mut text = format!(in alloc; "lints(): {:?}\n", manifest.lints())?;
    push_texts(&mut text, manifest.package())?;
    push_others(&mut text, manifest.package())?;
    Ok(text)
}
