//! The smallest program over `cargo_toml`: how much the feature `fast` of a manifest enables.
#![tactic(auto)]

use cargo_toml::features::Resolver;
use cargo_toml::{Error, Manifest};

fn main(rt: HostRuntime) -> Result<(), Error> {
    let alloc = rt.alloc();
    let text = "[features]\nfast = ['dep:log']\n\
        [dependencies]\nlog = { version = '1', optional = true }\n";
    let manifest = Manifest::from_str(alloc, text)?;
    let resolved = Resolver::new().parse(alloc, &manifest)?;
    if let Some(feature) = resolved.features.get("fast") {
        let (features, dependencies) = feature.enables_recursive(alloc, &resolved.features)?;
        println!(rt; "features: {}", features.len())?;
        println!(rt; "dependencies: {}", dependencies.len())?;
    }
    Ok(())
}
