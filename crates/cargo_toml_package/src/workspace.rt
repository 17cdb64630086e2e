//! What a manifest says of its workspace.
ghost use Rattle.std.specs.Prelude.{◌≡◌, Option, Some};
ghost use Rattle.toml.specs.Data.{Data, no_members};
ghost use Rattle.toml.specs.View.{table_view};
ghost use Rattle.cargo_toml_parts.specs.Reads.{IsReading};
ghost use Rattle.cargo_toml_package.specs.Workspaces.{WorkspaceMeaning, workspace_meaning};
ghost use Rattle.cargo_toml_package.specs.Workspaces.{workspace_of, WorkspaceFaults};
ghost use Rattle.cargo_toml_package.specs.Workspaces.{workspace_reads, WorkspaceRefuses};

use crate::{DepsSet, PackageTemplate};
use cargo_toml_parts::copying::Copying;
use cargo_toml_parts::read::{Read, into_table};
use cargo_toml_parts::reading::{Reading, ended};
use cargo_toml_parts::{Error, FromValue, LintGroups, Resolver};
use std::alloc::{AllocError, Global};
use std::collections::BTreeMap;
use toml::{Table, Value};

/// The table `[workspace]`: which packages belong together, and what they share.
///
/// A manifest may have it beside a package, or without one. Where a field's name has `_`, its key
/// has `-`. A list or a map whose key is missing is empty, and any other field is then `None`; keys
/// that are not listed here are ignored.
#[derive(Debug, PartialEq, Drop)]
pub struct Workspace<Metadata = Value> {
    /// The paths of the members' folders, relative to the workspace. Patterns among them stay
    /// as they are written.
    pub members: Vec<String>,

    /// The members that Cargo works on where no package is named.
    pub default_members: Vec<String>,

    /// The values of the package fields that members leave to the workspace.
    pub package: Option<PackageTemplate>,

    /// The paths of folders that are no members.
    pub exclude: Vec<String>,

    /// The free table `metadata`, which Cargo leaves to other tools, as the type that they give it.
    pub metadata: Option<Metadata>,

    /// The version of Cargo's resolver of dependencies.
    pub resolver: Option<Resolver>,

    /// The dependencies that members may take from the workspace.
    pub dependencies: DepsSet,

    /// The lints that members may take from the workspace.
    pub lints: LintGroups,
}

/// A clone of each field. It fails only when out of memory, or by the metadata's own `Clone`.
impl<Metadata: Clone> Clone for Workspace<Metadata> {
    ghost is_clone = { λ x copy.
        ⟦<Vec<String> as Clone>⟧.is_clone x.members copy.members
        × (⟦<Vec<String> as Clone>⟧.is_clone x.default_members copy.default_members
        × (⟦<Option<PackageTemplate> as Clone>⟧.is_clone x.«package» copy.«package»
        × (⟦<Vec<String> as Clone>⟧.is_clone x.exclude copy.exclude
        × (⟦<Option<Metadata> as Clone>⟧.is_clone x.metadata copy.metadata
        × (⟦<Option<Resolver> as Clone>⟧.is_clone x.resolver copy.resolver
        × (⟦<DepsSet as Clone>⟧.is_clone x.dependencies copy.dependencies
        × ⟦<LintGroups as Clone>⟧.is_clone x.lints copy.lints)))))) };

    ghost is_infallible = { λ x.
        ⟦<Vec<String> as Clone>⟧.is_infallible x.members
        × (⟦<Vec<String> as Clone>⟧.is_infallible x.default_members
        × (⟦<Option<PackageTemplate> as Clone>⟧.is_infallible x.«package»
        × (⟦<Vec<String> as Clone>⟧.is_infallible x.exclude
        × (⟦<Option<Metadata> as Clone>⟧.is_infallible x.metadata
        × (⟦<Option<Resolver> as Clone>⟧.is_infallible x.resolver
        × (⟦<DepsSet as Clone>⟧.is_infallible x.dependencies
        × ⟦<LintGroups as Clone>⟧.is_infallible x.lints)))))) };

    fn clone(&self) -> Result<Workspace<Metadata>, AllocError> {
        let alloc = *self.members.allocator();
        let mut copying = Copying::new();
        let copy = Workspace {
            members: copying.of(&self.members, Vec::new(alloc)),
            default_members: copying.of(&self.default_members, Vec::new(alloc)),
            package: copying.of(&self.package, None),
            exclude: copying.of(&self.exclude, Vec::new(alloc)),
            metadata: copying.of(&self.metadata, None),
            resolver: copying.of(&self.resolver, None),
            dependencies: copying.of(&self.dependencies, BTreeMap::new(alloc)),
            lints: copying.of(&self.lints, BTreeMap::new(alloc)),
        };
        copying.finish(copy)
    }
}

impl<Metadata> Workspace<Metadata> {
    /// The workspace of an empty table: the lists and maps are empty, and the rest is `None`.
    /// It takes no memory.
    pub fn default(alloc: Global) -> Workspace<Metadata>
        ensures { (reads : Data → Option Metadata)
            → workspace_of reads no_members ≡ Some (workspace_meaning (λ x. x) result) }
    {
        Workspace {
            members: Vec::new(alloc),
            default_members: Vec::new(alloc),
            package: None,
            exclude: Vec::new(alloc),
            metadata: None,
            resolver: None,
            dependencies: BTreeMap::new(alloc),
            lints: BTreeMap::new(alloc),
        }
    }
}

fn read_table<Metadata: FromValue>(
    alloc: Global,
    table: Table,
) -> Result<Workspace<Metadata>, Error>
    ensures { IsReading (workspace_meaning Metadata.meaning)
        (workspace_of Metadata.from_tree (table_view table))
        (WorkspaceFaults Metadata.from_tree Metadata.from_refuses (table_view table)) result }
{
    let mut rest = table;
    let mut reading = Reading::new(alloc);
    let mut whole = Workspace::default(alloc);
    reading.take(&mut rest, "members", &mut whole.members);
    reading.take(&mut rest, "default-members", &mut whole.default_members);
    reading.take_optional(&mut rest, "package", &mut whole.package);
    reading.take(&mut rest, "exclude", &mut whole.exclude);
    reading.take_metadata(&mut rest, "metadata", &mut whole.metadata);
    reading.take_optional(&mut rest, "resolver", &mut whole.resolver);
    reading.take(&mut rest, "dependencies", &mut whole.dependencies);
    reading.take(&mut rest, "lints", &mut whole.lints);
    ended(reading.fault, whole)
}

impl<Metadata: FromValue> Read for Workspace<Metadata> {
    ghost Meaning = { WorkspaceMeaning Metadata.Meaning };

    ghost meaning = { workspace_meaning Metadata.meaning };

    ghost reads = { workspace_reads Metadata.from_tree };

    ghost refuses = { WorkspaceRefuses Metadata.from_tree Metadata.from_refuses };

    #[tactic(auto, unfolding(crate::specs::Workspaces::workspace_reads, crate::specs::Workspaces::WorkspaceRefuses))]
    fn read_owned(alloc: Global, value: Value) -> Result<Workspace<Metadata>, Error> {
        read_table(alloc, into_table(value)?)
    }
}
