//! From what a manifest lists to the full graph: all that is resolved before any feature is
//! removed.
ghost use Rattle.std.specs.Prelude.{map, option_map, IfOk};
ghost use Rattle.cargo_toml_graph.specs.{Action.Text, Ascending.Ascend};
ghost use Rattle.cargo_toml_features.specs.Slots.{HeldHaveTargets, held_in};
ghost use Rattle.cargo_toml_features.specs.InOrder.{AreUnremoved, AreInOrder, HaveNoEnablers};
ghost use Rattle.cargo_toml_features.specs.OwnBins.{own_of, bin_requirement};
ghost use Rattle.cargo_toml_features.specs.{Marks.named_details, Views.listed_of, Views.entry_of};
ghost use Rattle.cargo_toml_features.specs.{Views.recorded_in, Recorded.entries_at};
ghost use Rattle.cargo_toml_features.specs.{Recorded.recorded_of, Resolved.SameRecorded};
ghost use Rattle.cargo_toml_features.specs.Vertices.{listing_names};

use crate::acted::acted_of;
use crate::admit::Listing;
use crate::features::{Feature, FeatureDependency, ParseDependency};
use crate::made::features_of;
use crate::record::{Mentions, record_dependencies};
use crate::redundant::drop_redundant;
use crate::required::{Requirement, with_bins};
use crate::said::items_of;
use crate::slots::Slots;
use crate::vertices::vertices_of;
use std::alloc::{AllocError, Global};

/// What is resolved before any feature is removed.
#[derive(Drop)]
pub struct Unremoved<'m, 'd> {
    /// The features, in the byte order of their names. None has its enablers yet.
    pub features: Vec<Feature<'m>>,
    /// By key, the dependencies that are optional, that a feature acts on, or whose key a feature
    /// has.
    pub dependencies: Slots<'d, FeatureDependency<'d>>,
}

/// Resolves the full graph: features as they are listed, with entries of whatever dependency tables
/// and what binaries require. None of them is removed.
///
/// Listings stand in the byte order of their names. No feature has its enablers yet:
/// `cargo_toml_resolve` sets them. It fails only when out of memory.
pub fn resolve_all<'m: 'd, 'd>(
    alloc: Global,
    listings: &[Listing<'m>],
    entries: &[ParseDependency<'m, 'd>],
    requirements: &[Requirement<'m>],
) -> Result<Unremoved<'m, 'd>, AllocError>
    requires { Ascend (listing_names listings.now) }
    ensures in_order { IfOk result (λ a. AreInOrder a.features.items) }
    ensures features { IfOk result (λ a. AreUnremoved (listed_of listings.now)
        (map entry_of entries.now) (named_details listings.now)
        (own_of (map bin_requirement requirements.now)) a.features.items) }
    ensures no_enablers { IfOk result (λ a. HaveNoEnablers a.features.items) }
    ensures dependencies { IfOk result (λ a. (k : Text) →
        SameRecorded (option_map recorded_in (held_in a.dependencies k))
        (recorded_of (entries_at (listed_of listings.now) (map entry_of entries.now) k))) }
    ensures targets { IfOk result (λ a. HeldHaveTargets a.dependencies) }
{
    let mut items = items_of(alloc, listings)?;
    let acted = acted_of(alloc, items.as_slice())?;
    let vertices = vertices_of(alloc, listings, &acted, entries)?;
    let mentions = Mentions { vertices, acted };
    let dependencies = record_dependencies(alloc, &mentions, entries)?;
    drop_redundant(alloc, &mut items, &dependencies)?;
    let vertices = mentions.vertices.as_slice();
    let made = features_of(alloc, vertices, items.as_slice())?;
    let features = with_bins(made, vertices, requirements)?;
    Ok(Unremoved {
        features,
        dependencies,
    })
}
