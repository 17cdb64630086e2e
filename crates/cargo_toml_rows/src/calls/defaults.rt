//! What is there where nothing is given, as it is written.
use crate::manifests::print_table;
use crate::row::Shown;
use cargo_toml::{
    Badges, DependencyDetail, Edition, Error, FeatureDetail, InheritedDependencyDetail,
    Maintenance, Manifest, OptionalFile, Package, PackageTemplate, Product, Profile, Profiles,
    Publish, Resolver, SemVer, Target, ToValue, Value, Workspace,
};
use std::alloc::Global;
use std::fmt::Write;

/// The line of a value: the tree that it is written as. The text of a table has to read as the
/// same. What the values are made of is dropped here, by their bound.
fn line<T: ToValue + Drop>(alloc: Global, name: &str, value: T) -> Shown {
    let tree = value.to_value(alloc)?;
    if let Value::Table(table) = &tree {
        let _ = print_table(alloc, table)?;
    }
    Ok(format!(in alloc; "{name}: {tree}\n")?)
}

/// A manifest.
pub fn manifest(alloc: Global) -> Shown {
    line::<Manifest>(alloc, "Manifest::default()", Manifest::default(alloc))
}

/// A package of this name and version.
pub fn new_package(alloc: Global) -> Shown {
    let name = String::from_str(alloc, "p")?;
    let package = Package::new(alloc, name, SemVer::new(1, 2, 3));
    line::<Package>(alloc, "Package::new(\"p\", 1.2.3)", package)
}

/// A target.
pub fn target(alloc: Global) -> Shown {
    line(alloc, "Target::default()", Target::default(alloc))
}

/// Pushes the line of the default value of each type, made with these arguments.
macro_rules! push_defaults {
    ($text:ident, $alloc:ident, $arguments:tt, $($name:ident)*) => {
        $(
            let value = $name::default $arguments;
            $text.push_str(line::<$name>($alloc, stringify!($name), value)?.as_str())?;
        )*
    };
}

/// All others that have a default.
pub fn others(alloc: Global) -> Shown {
    let mut text = String::new(alloc);
    push_defaults!(text, alloc, (alloc), Package Workspace Product Profile Profiles);
    push_defaults!(text, alloc, (alloc), DependencyDetail InheritedDependencyDetail);
    push_defaults!(text, alloc, (), PackageTemplate Badges Maintenance OptionalFile);
    push_defaults!(text, alloc, (), Publish Edition Resolver);
    write!(text, "{:?}\n", FeatureDetail::default())?;
    Ok(text)
}
