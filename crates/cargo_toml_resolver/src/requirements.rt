//! Which features the binaries of a manifest require.
ghost use Rattle.std.specs.Prelude.{◌≡◌, ◌++◌, IfOk, OnOk, map};
ghost use Rattle.std.specs.List.{flat_map};
ghost use Rattle.cargo_toml_manifest.specs.Manifests.{held};
ghost use Rattle.cargo_toml_features.specs.OwnBins.{bin_requirement};
ghost use Rattle.cargo_toml_parts.specs.Products.{product_meaning};
ghost use Rattle.cargo_toml_resolver.specs.Parsed.{requirements, requirements_by};

use cargo_toml_features::required::Requirement;
use cargo_toml_manifest::Manifest;
use cargo_toml_parts::Product;
use std::alloc::{AllocError, Global};

// Adds what a binary requires, by its own name or else that of its package.
fn add_requirements<'m>(
    requirements: &mut Vec<Requirement<'m>>,
    bin: &'m Product,
    package_name: &'m str,
) -> Result<(), AllocError>
    ensures { OnOk result (map bin_requirement requirements.new.items
        ≡ map bin_requirement requirements.old.items
        ++ requirements_by package_name.now (product_meaning bin.now)) }
{
    let name = bin.name.as_deref().unwrap_or(package_name);
    for feature in &bin.required_features {
        requirements.push(Requirement {
            feature: feature.as_str(),
            bin: name,
        })?;
    }
    Ok(())
}

// What the binaries of a package of this name require.
fn requirements_of<'m>(
    alloc: Global,
    bins: &'m [Product],
    package_name: &'m str,
) -> Result<Vec<Requirement<'m>>, AllocError>
    ensures { IfOk result (λ v. map bin_requirement v.items
        ≡ flat_map (requirements_by package_name.now) (map product_meaning bins.now)) }
{
    let mut requirements = Vec::new(alloc);
    for bin in bins {
        add_requirements(&mut requirements, bin, package_name)?;
    }
    Ok(requirements)
}

/// What the binaries of a manifest require, in their order; nothing where it has no package. It
/// fails only when out of memory.
pub fn requirements<'m, M>(
    alloc: Global,
    manifest: &'m Manifest<M>,
) -> Result<Vec<Requirement<'m>>, AllocError>
    ensures { IfOk result
        (λ v. map bin_requirement v.items ≡ requirements (held manifest.now)) }
{
    match &manifest.package {
        Some(package) => requirements_of(alloc, manifest.bin.as_slice(), package.name.as_str()),
        None => Ok(Vec::new(alloc)),
    }
}
