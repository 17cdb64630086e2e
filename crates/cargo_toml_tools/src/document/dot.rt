//! The graph of features, in Graphviz's language.

use super::listing::is_private;
use crate::escape::{Escaped, Format, comma_before};
use cargo_toml::Manifest;
use cargo_toml::features::{Feature, Features};
use cargo_toml_lint::{AllocResult, Links};
use std::alloc::Global;
use std::collections::BTreeSet;
use std::fmt::Write;
use std::hash::BuildHasher;

/// The graph of all features, and of the dependencies that they act on, in Graphviz's language.
///
/// Hidden and private features are dashed, `default` is bold where it is listed, and else left out
/// with the edges to it. Dependencies are boxes, and an action that counts only where something
/// else turns the dependency on is dotted. `resolved` is what the manifest resolves to with no
/// feature removed. The one refusal is out of memory.
pub fn graph<M, S: BuildHasher>(
    alloc: Global,
    manifest: &Manifest<M>,
    resolved: &Features<'_, '_, S>,
) -> AllocResult<String> {
    let links = Links::new(alloc, manifest, &resolved.features)?;
    let mut graph = String::new(alloc);
    graph.push_str("digraph {\n    rankdir=LR;\n")?;
    if let Some(package) = &manifest.package {
        let name = Escaped(package.name.as_str(), Format::Dot);
        writeln!(graph, "    label=\"{name}\";")?;
    }
    let has_default = manifest.features.contains_key("default");
    let mut keys = BTreeSet::new(alloc);
    for place in 0..links.names.len() {
        let feature = resolved.features.get(links.names[place]);
        if let Some(feature) = feature.filter(|one| has_default || one.key != "default") {
            let style = match feature.key {
                _ if is_private(feature) => "style=dashed",
                "default" => "style=bold",
                _ => "style=solid",
            };
            push_node(&mut graph, "feature", feature.key, style)?;
            push_edges(&mut graph, feature, &links, place, has_default)?;
            keys.extend(feature.enables_deps.keys().copied())?;
        }
    }
    for key in &keys {
        push_node(&mut graph, "dependency", *key, "shape=box")?;
    }
    graph.push_str("}\n")?;
    Ok(graph)
}

/// A node, whose name begins with its kind: a feature and a dependency may have one name.
fn push_node(graph: &mut String, kind: &str, name: &str, style: &str) -> AllocResult<()> {
    let name = Escaped(name, Format::Dot);
    writeln!(graph, "    \"{kind}:{name}\" [label=\"{name}\", {style}];")
}

fn push_edge(graph: &mut String, from: &str, kind: &str, to: &str) -> AllocResult<()> {
    let from = Escaped(from, Format::Dot);
    let to = Escaped(to, Format::Dot);
    write!(graph, "    \"feature:{from}\" -> \"{kind}:{to}\"")
}

/// The edges from a feature to those that it turns on in one step, and to what it acts on, each of
/// these with what is asked for, and whether that is conditional. `default` has edges to it only
/// where it has a node.
fn push_edges(
    graph: &mut String,
    feature: &Feature<'_>,
    links: &Links<'_>,
    place: usize,
    has_default: bool,
) -> AllocResult<()> {
    let mut targets = BTreeSet::new(*graph.allocator());
    for other in links.next(place) {
        if let Some(name) = links.names.get(*other) {
            if has_default || *name != "default" {
                targets.insert(*name)?;
            }
        }
    }
    for name in &targets {
        push_edge(graph, feature.key, "feature", *name)?;
        graph.push_str(";\n")?;
    }
    for (key, action) in &feature.enables_deps {
        push_edge(graph, feature.key, "dependency", *key)?;
        graph.push_str(" [label=\"")?;
        for (i, asked) in action.dep_features.iter().enumerate() {
            let asked = Escaped(*asked, Format::Dot);
            write!(graph, "{}{asked}", comma_before(i))?;
        }
        let style = action.is_conditional.then_some(", style=dotted");
        writeln!(graph, "\"{}];", style.unwrap_or(""))?;
    }
    Ok(())
}
