//! What is written of values that no text reads as.
use crate::row::Shown;
use cargo_toml::{
    Dependency, Error, FeatureDetail, FeatureDetails, Manifest, Profile, Profiles, ToValue, Value,
};
use cargo_toml_bench::HeldManifest;
use std::alloc::{AllocError, Global};

/// Says of a feature what is said of each that has no table of its own.
fn tell(alloc: Global, details: &mut FeatureDetails, name: &str) -> Result<(), AllocError> {
    drop(details.insert(String::from_str(alloc, name)?, FeatureDetail::default())?);
    Ok(())
}

/// Puts a value under a key that has a field of its own.
fn collect(
    alloc: Global,
    dependency: Option<&mut Dependency>,
    key: &str,
    value: Value,
) -> Result<(), Error> {
    if let Some(dependency) = dependency {
        let unstable = &mut dependency.try_detail_mut(alloc)?.unstable;
        drop(unstable.insert(String::from_str(alloc, key)?, value)?);
    }
    Ok(())
}

/// Puts a profile under a name of Cargo's own beside those that have fields.
fn hide(alloc: Global, profiles: &mut Profiles, name: &str) -> Result<(), AllocError> {
    let mut other = Profile::default(alloc);
    other.rpath = Some(false);
    let custom = &mut profiles.custom;
    drop(custom.insert(String::from_str(alloc, name)?, other)?);
    Ok(())
}

fn change(alloc: Global, manifest: &mut Manifest) -> Result<(), Error> {
    tell(alloc, &mut manifest.feature_details, "f")?;
    tell(alloc, &mut manifest.feature_details, "g")?;
    hide(alloc, &mut manifest.profile, "dev")?;
    hide(alloc, &mut manifest.profile, "release")?;
    let one = manifest.dependencies.get_mut("d");
    collect(alloc, one, "optional", Value::Integer(1))?;
    let other = manifest.dependencies.get_mut("e");
    collect(alloc, other, "optional", Value::Integer(1))
}

/// A changed manifest, and the same with a float.
///
/// What is said of a feature is written where the feature is there, and as a table even where it
/// says nothing. A key that was collected gives way to the field of its name, and so does a
/// profile.
pub fn changed(alloc: Global) -> Shown {
    let text = "features = { f = [] }\nprofile = { dev = {} }\n\
        dependencies = { d = { optional = true }, e = { git = \"g\" } }\n";
    let mut held = HeldManifest::from_str(alloc, text)?;
    change(alloc, &mut *held.manifest)?;
    let tree = held.manifest.to_value(alloc)?;
    let float = held.manifest.dependencies.get_mut("d");
    collect(alloc, float, "x", Value::Float(0.5))?;
    match held.manifest.to_value(alloc) {
        Ok(other) => Ok(format!(in alloc; "{tree}\n{other}\n")?),
        Err(fault) => Ok(format!(in alloc; "{tree}\nwith a float: {fault:?}\n")?),
    }
}
