//! Which binaries require which features.
ghost use Rattle.std.specs.Prelude.{◌≡◌, ◌<◌, ◌∷◌, [], length, map, IfOk, OnOk};
ghost use Rattle.cargo_toml_features.specs.OwnBins.{own_of, bin_requirement};
ghost use Rattle.cargo_toml_features.specs.{FullGraph.RequiredAll, InOrder.AreInOrder};
ghost use Rattle.cargo_toml_features.specs.{InOrder.names_of, Places.nth_text};
ghost use Rattle.cargo_toml_features.specs.Vertices.{vertex_names};

use crate::features::Feature;
use crate::node::Node;
use crate::texts::place_of;
use crate::vertices::Vertex;
use std::alloc::AllocError;

/// A feature that a binary requires.
#[derive(Clone, Copy)]
pub struct Requirement<'m> {
    /// The feature's name.
    pub feature: &'m str,
    /// The binary's name.
    pub bin: &'m str,
}

// Adds a binary to a feature.
fn require_at<'m>(features: &mut [Feature<'m>], at: Node, bin: &'m str) -> Result<(), AllocError>
    requires at { at < length features.old }
    requires in_order { AreInOrder features.old }
    ensures required { OnOk result
        (RequiredAll (own_of ((nth_text (names_of features.old) at, bin.now) ∷ [])) features.old
        features.new) }
    ensures same_names { names_of features.new ≡ names_of features.old }
{
    features[at.place()].required_by_bins.push(bin)?;
    Ok(())
}

// Adds the binary to the feature that it requires, if there is one of that name.
fn require<'m>(
    features: &mut [Feature<'m>],
    vertices: &[Vertex<'m>],
    requirement: &Requirement<'m>,
) -> Result<(), AllocError>
    requires in_order { AreInOrder features.old }
    requires names { vertex_names vertices.now ≡ names_of features.old }
    ensures required { OnOk result
        (RequiredAll (own_of (bin_requirement requirement.now ∷ [])) features.old features.new) }
    ensures same_names { names_of features.new ≡ names_of features.old }
{
    let Some(place) = place_of(vertices, requirement.feature) else {
        return Ok(());
    };
    require_at(features, Node::at(place), requirement.bin)
}

// Adds each binary to the features that it requires.
fn require_all<'m>(
    features: &mut [Feature<'m>],
    vertices: &[Vertex<'m>],
    requirements: &[Requirement<'m>],
) -> Result<(), AllocError>
    requires in_order { AreInOrder features.old }
    requires names { vertex_names vertices.now ≡ names_of features.old }
    ensures required { OnOk result
        (RequiredAll (own_of (map bin_requirement requirements.now)) features.old features.new) }
    ensures same_names { names_of features.new ≡ names_of features.old }
{
    for requirement in requirements {
        require(features, vertices, requirement)?;
    }
    Ok(())
}

/// The features, which stand in the places of their vertices and in byte order, each with the
/// binaries that require it, once for each mention. A feature that isn't there is passed over. It
/// fails only when out of memory.
pub fn with_bins<'m>(
    mut features: Vec<Feature<'m>>,
    vertices: &[Vertex<'m>],
    requirements: &[Requirement<'m>],
) -> Result<Vec<Feature<'m>>, AllocError>
    requires in_order { AreInOrder features.items }
    requires names { vertex_names vertices.now ≡ names_of features.items }
    ensures in_order { IfOk result (λ vs. AreInOrder vs.items) }
    ensures required { IfOk result (λ vs.
        RequiredAll (own_of (map bin_requirement requirements.now)) features.entry.items vs.items) }
{
    require_all(features.as_mut_slice(), vertices, requirements)?;
    Ok(features)
}
