//! What is found of features as they are written, and of targets that require some.
ghost use Rattle.std.specs.Prelude.{◌≡◌, [], Some, OnOk, map, string_bytes};
ghost use Rattle.std.specs.List.{flat_map};
ghost use Rattle.cargo_toml.specs.{Details.detail_of, Manifests.held, Products.product_meaning};
ghost use Rattle.cargo_toml.specs.Reads.{map_meaning};
ghost use Rattle.cargo_toml_lint.specs.Findings.{feature_findings, products_findings, told, when};
ghost use Rattle.cargo_toml_lint.specs.declared.finding.Code.TheVariants.{FeatureTable};
ghost use Rattle.cargo_toml_lint.specs.{Findings.product_findings, Names.held_names, Steps.Finds};
ghost use Rattle.cargo_toml_lint.specs.{Names.listed_by, Steps.is_beyond};

use crate::AllocResult;
use crate::faults::{required_fault, text_fault};
use crate::finding::{Code, Finding};
use crate::known::Known;
use crate::linking::FeatureMap;
use crate::names::is_feature_name;
use cargo_toml::{FeatureDetails, Manifest, Product};
use std::hash::BuildHasher;

/// Adds a finding of the code, if there is one.
pub(crate) fn add<'m>(
    found: &mut Vec<Finding<'m>>,
    fault: Option<Code>,
    feature: &'m str,
    text: &'m str,
) -> AllocResult<()>
    ensures { OnOk result (Finds (told feature.now text.now fault) found.old.items
        found.new.items) }
{
    if let Some(code) = fault {
        found.push(Finding {
            code,
            feature,
            text,
        })?;
    }
    Ok(())
}

/// Adds a finding of the code for a feature, if it holds.
pub(crate) fn add_if<'m>(
    found: &mut Vec<Finding<'m>>,
    holds: bool,
    code: Code,
    feature: &'m str,
) -> AllocResult<()>
    ensures { OnOk result (Finds (told feature.now [] (when holds code)) found.old.items
        found.new.items) }
{
    add(found, holds.then_some(code), feature, "")
}

// Adds what is found of a feature, which may be beyond the limit.
#[tactic(auto, using(crate::proofs::Adding::mapped_next))]
fn add_feature<'m>(
    found: &mut Vec<Finding<'m>>,
    known: &Known<'m>,
    name: &'m str,
    texts: &'m [String],
    is_over: bool,
) -> AllocResult<()>
    ensures { OnOk result (Finds (feature_findings (held_names known.now) is_over name.now
        (map string_bytes texts.now)) found.old.items found.new.items) }
{
    add_if(found, !is_feature_name(name), Code::BadName, name)?;
    let is_left_alone = known.optional.contains(name) & !known.acted.contains(name);
    add_if(found, is_left_alone, Code::SameName, name)?;
    add_if(found, is_over, Code::OverLimit, name)?;
    for text in texts {
        let text = text.as_str();
        add(found, text_fault(known, name, text), name, text)?;
    }
    Ok(())
}

// Whether the limit left out the name, or some of its texts.
fn is_over<S: BuildHasher>(
    features: &FeatureMap<'_, S>,
    name: &str,
    texts: &[String],
    limit: usize,
) -> bool
    ensures { result ≡ is_beyond features.now limit name.now (map string_bytes texts.now) }
{
    texts.len() > limit || !features.get(name).is_some_and(|feature| feature.explicit)
}

/// Adds what is found of each listed feature.
#[tactic(auto, using(crate::proofs::Adding::left_next, crate::proofs::Adding::left_none))]
pub(crate) fn add_features<'m, S: BuildHasher>(
    found: &mut Vec<Finding<'m>>,
    known: &Known<'m>,
    features: &FeatureMap<'m, S>,
    limit: usize,
) -> AllocResult<()>
    ensures { OnOk result (Finds (flat_map (λ e. feature_findings (held_names known.now)
        (is_beyond features.now limit e.0 e.1) e.0 e.1) (listed_by known.now))
        found.old.items found.new.items) }
{
    for (name, texts) in known.features {
        let name = name.as_str();
        let texts = texts.as_slice();
        let is_over = is_over(features, name, texts, limit);
        add_feature(found, known, name, texts, is_over)?;
    }
    Ok(())
}

/// Adds the features of which a table says something.
#[tactic(auto, using(crate::proofs::Adding::left_next, crate::proofs::Adding::left_none))]
pub(crate) fn add_details<'m>(
    found: &mut Vec<Finding<'m>>,
    details: &'m FeatureDetails,
) -> AllocResult<()>
    ensures { OnOk result (Finds (flat_map (λ e. told e.0 [] (Some FeatureTable))
        (map_meaning detail_of details.now)) found.old.items found.new.items) }
{
    for (name, _) in details {
        add(found, Some(Code::FeatureTable), name.as_str(), "")?;
    }
    Ok(())
}

// Adds what is found of the features that a target requires.
#[tactic(auto, using(crate::proofs::Adding::mapped_next))]
fn add_product<'m>(
    found: &mut Vec<Finding<'m>>,
    known: &Known<'m>,
    product: &'m Product,
) -> AllocResult<()>
    ensures { OnOk result (Finds (product_findings (held_names known.now)
        (product_meaning product.now)) found.old.items found.new.items) }
{
    let name = product.name.as_deref().unwrap_or("");
    for text in &product.required_features {
        let text = text.as_str();
        add(found, required_fault(known, text), name, text)?;
    }
    Ok(())
}

// Adds what is found of targets of one kind.
#[tactic(auto, using(crate::proofs::Adding::mapped_next))]
fn add_some<'m>(
    found: &mut Vec<Finding<'m>>,
    known: &Known<'m>,
    products: &'m [Product],
) -> AllocResult<()>
    ensures { OnOk result (Finds (flat_map (product_findings (held_names known.now))
        (map product_meaning products.now)) found.old.items found.new.items) }
{
    for product in products {
        add_product(found, known, product)?;
    }
    Ok(())
}

/// Adds what is found of all targets that require features.
pub(crate) fn add_products<'m, M>(
    found: &mut Vec<Finding<'m>>,
    known: &Known<'m>,
    manifest: &'m Manifest<M>,
) -> AllocResult<()>
    ensures { OnOk result (Finds (products_findings (held_names known.now) (held manifest.now))
        found.old.items found.new.items) }
{
    add_some(found, known, manifest.bin.as_slice())?;
    add_some(found, known, manifest.example.as_slice())?;
    add_some(found, known, manifest.test.as_slice())?;
    add_some(found, known, manifest.bench.as_slice())
}
