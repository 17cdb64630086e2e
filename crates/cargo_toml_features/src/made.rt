//! The features of the full graph are made, each of its vertex and the items of its list.
ghost use Rattle.std.specs.Prelude.{◌≡◌, ◌∷◌, ◌++◌, ◌≤◌, [], List, IfOk, OnOk, length, map};
ghost use Rattle.std.specs.List.{All};
ghost use Rattle.cargo_toml_features.specs.Made.{AreMadeOf, HasSpanWithin, IsMadeOf, IsTold};
ghost use Rattle.cargo_toml_features.specs.{Said.said_by, declared.vertices.Vertex.Vertex};
ghost use Rattle.cargo_toml_graph.specs.Action.{Item};

use crate::action::{ActionText, add_text, join_action};
use crate::features::Feature;
use crate::said::ListItem;
use crate::vertices::{Span, Vertex};
use std::alloc::{AllocError, Global};
use std::collections::{BTreeMap, BTreeSet};

// The feature of a vertex, of which nothing is said.
fn bare_feature<'m>(alloc: Global, vertex: &Vertex<'m>) -> Feature<'m>
    ensures { IsTold vertex.now result }
{
    let (public, doc) = match vertex.detail {
        Some(detail) => (detail.public, detail.doc.as_deref()),
        None => (true, None),
    };
    Feature {
        key: vertex.name,
        enables_deps: BTreeMap::new(alloc),
        enables_features: BTreeSet::new(alloc),
        enabled_by: BTreeSet::new(alloc),
        required_by_bins: Vec::new(alloc),
        explicit: vertex.is_listed,
        public,
        doc,
    }
}

// An implied feature acts on the dependency of its name.
fn add_own<'m>(
    alloc: Global,
    feature: &mut Feature<'m>,
    vertex: &Vertex<'m>,
) -> Result<(), AllocError>
    requires { IsTold vertex.now feature.old }
    ensures { OnOk result (IsMadeOf vertex.now [] feature.new) }
{
    if vertex.is_listed {
        return Ok(());
    }
    let action = ActionText {
        target: vertex.name,
        is_conditional: false,
        is_dep_only: false,
        dep_feature: None,
    };
    join_action(alloc, &mut feature.enables_deps, action)?;
    Ok(())
}

// One more item of the feature's list.
fn add_item<'m>(
    alloc: Global,
    feature: &mut Feature<'m>,
    item: &ListItem<'m>,
) -> Result<(), AllocError>
    ensures { OnOk result ((v : Vertex) (items : List Item) → IsMadeOf v items feature.old
        → IsMadeOf v (items ++ said_by item.now ∷ []) feature.new) }
{
    if item.acts {
        join_action(alloc, &mut feature.enables_deps, item.said)?;
    } else {
        add_text(&mut feature.enables_features, item.said.target)?;
    }
    Ok(())
}

// The feature of a vertex, whose list says these items.
fn feature_of<'m>(
    alloc: Global,
    vertex: &Vertex<'m>,
    items: &[ListItem<'m>],
) -> Result<Feature<'m>, AllocError>
    ensures { IfOk result (IsMadeOf vertex.now (map said_by items.now)) }
{
    let mut feature = bare_feature(alloc, vertex);
    add_own(alloc, &mut feature, vertex)?;
    for item in items {
        add_item(alloc, &mut feature, item)?;
    }
    Ok(feature)
}

/// The features of the vertices, with the items of all lists. It fails only when out of memory.
pub fn features_of<'m>(
    alloc: Global,
    vertices: &[Vertex<'m>],
    items: &[ListItem<'m>],
) -> Result<Vec<Feature<'m>>, AllocError>
    requires { All (HasSpanWithin (length items.now)) vertices.now }
    ensures { IfOk result (λ fs. AreMadeOf items.now vertices.now fs.items) }
{
    let mut features = Vec::with_capacity(alloc, vertices.len())?;
    for vertex in vertices {
        let Span { start, end } = vertex.items;
        let feature = feature_of(alloc, vertex, &items[start..end])?;
        features.push(feature)?;
    }
    Ok(features)
}
