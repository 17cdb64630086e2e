//! The report on a workspace: what each member is, and what is odd.
ghost use Rattle.std.specs.Prelude.{◌≡◌, [], ◌∷◌, IfOk, OnOk, map, option_map, string_bytes};
ghost use Rattle.cargo_toml.specs.{Dependencies.dependency_meaning, Manifests.held};
ghost use Rattle.cargo_toml.specs.{Reads.map_meaning, Templates.template_meaning};
ghost use Rattle.cargo_toml_audit.specs.AuditedFiles.{Takes, held_in};
ghost use Rattle.cargo_toml_audit.specs.Entries.{asked_in, entries_of, inherited_in, left_keys};
ghost use Rattle.cargo_toml_audit.specs.Oddities.{differences, only_found, overall_oddities};

pub mod dependencies;
pub mod findings;
mod report;
mod root;
mod summary;

use crate::members::{picked, set_of};
use cargo_toml::{Manifest, Workspace};
use cargo_toml_lint::AllocResult;
use dependencies::{add_inherited, add_uses, entries, further, inherited_keys};
use findings::{add_differences, add_shared, find_all, names};
pub use findings::{has_no_target, is_bare, named_by, refusal_rows};
pub use report::{json, lines};
pub use root::{Root, needs};
use std::collections::BTreeSet;
pub use summary::{summarize, untold_words};

/// What a member is. What isn't there is `None`.
#[derive(Debug, Drop)]
pub struct Member {
    /// The place of its folder.
    pub folder: String,
    /// The name of its package.
    pub name: String,
    /// The version.
    pub version: String,
    /// The edition.
    pub edition: String,
    /// The oldest compiler that it promises to build with.
    pub rust_version: Option<String>,
    /// The licence.
    pub license: Option<String>,
    /// Where it may be published: `yes`, `no` or the names of registries.
    pub publish: String,
    /// What it leaves to the workspace, by key.
    pub inherits: Vec<String>,
}

/// What kind of oddity was found. They stand in the order of their words.
#[derive(Debug, Clone, Copy, PartialEq, Eq, PartialOrd, Ord)]
pub enum Code {
    /// A member, or what a member depends on by a path, has no manifest.
    Absent,
    /// An entry of `members` or `default-members` is no pattern, or has over 4,096 bytes.
    BadPattern,
    /// An entry of `default-members` leads to a place that is no member's, alone or among others. A
    /// place that `members` lists and `exclude` excludes doesn't count.
    DefaultMember,
    /// A member's features have errors by `lint`.
    Features,
    /// A member doesn't read or complete, or has no package. Or a dependency by a path, outside the
    /// workspace, doesn't read or complete.
    Incomplete,
    /// A member is listed twice.
    ListedTwice,
    /// A member inherits lints of a workspace without any.
    NoLints,
    /// A member has nothing to build.
    NoTarget,
    /// A member has a dependency with `workspace = false`.
    NotInherited,
    /// A dependency of the workspace is optional.
    OptionalShared,
    /// A member's edition is another than the workspace's.
    OtherEdition,
    /// A member's licence is another than the workspace's.
    OtherLicense,
    /// A member names another workspace.
    OtherWorkspace,
    /// A member lies outside the workspace's folder, and doesn't name it.
    Outside,
    /// Members have one name.
    SameName,
    /// Members ask for one crate by several requirements.
    SeveralRequirements,
    /// A manifest names a workspace, and has one.
    TwoWorkspaces,
    /// What was asked for lies in the workspace, and is no member.
    Unlisted,
    /// A path to which an entry may lead can't be looked at, or a folder there can't be read whole.
    Unseen,
    /// No member inherits a dependency of the workspace.
    UnusedDependency,
    /// A root without a package has tables that only packages have.
    Virtual,
    /// A member has a workspace of its own.
    WorkspaceWithin,
}

impl Code {
    /// The word that stands for it in a report, and what it says of each subject, where it says one
    /// thing.
    fn told(self) -> (&'static str, &'static str) {
        let is_optional = "a dependency of the workspace can't be optional";
        let leads_away = "its `package.workspace` leads to another workspace";
        let is_outside = "it lies outside the workspace's folder, and doesn't name the workspace";
        let has_tables = "a workspace without a package has tables of packages";
        match self {
            Code::Absent => ("absent", "there is no manifest"),
            Code::BadPattern => ("bad-pattern", "it is no pattern, or longer than a path"),
            Code::DefaultMember => ("default-member", "it leads to what is no member"),
            Code::Features => ("features", "`lint` finds errors in its features"),
            Code::Incomplete => ("incomplete", ""),
            Code::ListedTwice => ("listed-twice", "two entries of members lead to it"),
            Code::NoLints => ("no-lints", "it inherits lints, and the workspace has none"),
            Code::NoTarget => ("no-target", "it has no target"),
            Code::NotInherited => ("not-inherited", "a dependency has `workspace = false`"),
            Code::OptionalShared => ("optional-shared", is_optional),
            Code::OtherEdition => ("other-edition", ""),
            Code::OtherLicense => ("other-license", ""),
            Code::OtherWorkspace => ("other-workspace", leads_away),
            Code::Outside => ("outside", is_outside),
            Code::SameName => ("same-name", "two members have this name"),
            Code::SeveralRequirements => ("several-requirements", ""),
            Code::TwoWorkspaces => (
                "two-workspaces",
                "it has `package.workspace` and `[workspace]`",
            ),
            Code::Unlisted => ("unlisted", "it lies in the workspace, and is no member"),
            Code::Unseen => ("unseen", "it can't be looked at, or not to its end"),
            Code::UnusedDependency => ("unused-dependency", "no member inherits it"),
            Code::Virtual => ("virtual", has_tables),
            Code::WorkspaceWithin => ("workspace-within", "it has a workspace of its own"),
        }
    }

    /// The word that stands for it in a report.
    pub fn word(self) -> &'static str {
        self.told().0
    }

    /// What it says of each subject, where it says one thing.
    pub fn words(self) -> &'static str {
        self.told().1
    }

    /// Whether it is about a place.
    pub fn is_of_place(self) -> bool {
        match self {
            Code::BadPattern | Code::DefaultMember | Code::OptionalShared => false,
            Code::SameName | Code::SeveralRequirements | Code::UnusedDependency => false,
            _ => true,
        }
    }
}

/// Something odd, of a member or a dependency.
#[derive(Debug, PartialEq, Eq, PartialOrd, Ord, Drop)]
pub struct Finding {
    /// What kind of oddity.
    pub code: Code,
    /// A place, or the name of a package, a key or an entry.
    pub subject: String,
    /// What is odd.
    pub words: String,
}

/// A crate that a member asks for.
#[derive(Debug, PartialEq, Eq, PartialOrd, Ord, Drop)]
pub struct Use {
    /// The name of the crate.
    pub name: String,
    /// The requirement on its version, as `semver` writes it.
    pub requirement: String,
    /// The member's folder.
    pub folder: String,
}

/// A report that is being made.
#[derive(Drop)]
pub struct Audit {
    /// The place of the workspace.
    pub root: String,
    /// The members that complete, in the order in which they were added.
    pub members: Vec<Member>,
    /// What is odd.
    pub findings: Vec<Finding>,
    /// What the members ask for by a requirement.
    pub uses: Vec<Use>,
    /// The keys of the workspace's dependencies that members inherit.
    pub inherited: Vec<String>,
    /// The places of members, and of what is refused as one, though no clause says which.
    pub places: BTreeSet<String>,
}

impl Audit {
    /// The report on no member of the workspace that lies at this place.
    pub fn new(root: String) -> Audit
        ensures root { result.root ≡ root }
        ensures empty { held_in result ≡ only_found [] }
    {
        let alloc = *root.allocator();
        Audit {
            root,
            members: Vec::new(alloc),
            findings: Vec::new(alloc),
            uses: Vec::new(alloc),
            inherited: Vec::new(alloc),
            places: BTreeSet::new(alloc),
        }
    }

    /// Takes in a member's manifest as it is written: notes which dependencies of the workspace it
    /// inherits, and answers the keys that it leaves to the workspace.
    pub fn add_written<M>(&mut self, manifest: &Manifest<M>) -> AllocResult<Vec<String>>
        ensures keys { IfOk result
            (λ keys. map string_bytes keys.items ≡ left_keys (held manifest.now)) }
        ensures takes { OnOk result (Takes (record {
          members = [];
          found = [];
          inherited = inherited_in (entries_of (held manifest.now));
          asked = [];
        })
            self.old self.new) }
    {
        let alloc = *self.root.allocator();
        let entries = entries(alloc, manifest)?;
        let mut keys = inherited_keys(alloc, manifest)?;
        add_inherited(entries.as_slice(), &mut keys, &mut self.inherited)?;
        Ok(keys)
    }

    /// Adds a member, and notes what its completed manifest asks for.
    pub fn add_member<M>(
        &mut self,
        member: Member,
        manifest: &Manifest<M>,
        workspace: &Workspace<M>,
    ) -> AllocResult<()>
        ensures { OnOk result (Takes (record {
          members = member ∷ [];
          found = differences (option_map template_meaning workspace.now.«package») member;
          inherited = [];
          asked = asked_in (entries_of (held manifest.now));
        })
            self.old self.new) }
    {
        let alloc = *self.root.allocator();
        let entries = entries(alloc, manifest)?;
        add_uses(member.folder.as_str(), entries.as_slice(), &mut self.uses)?;
        add_differences(&member, workspace, &mut self.findings)?;
        self.members.push(member)?;
        Ok(())
    }

    /// Adds what shows once all members were added: dependencies of the workspace that none
    /// inherits or that are optional, names that several members have, and crates that are asked
    /// for by several requirements.
    pub fn finish<M>(&mut self, workspace: &Workspace<M>) -> AllocResult<()>
        ensures { OnOk result (Takes (only_found (overall_oddities
            (map_meaning dependency_meaning workspace.now.dependencies) (held_in self.old)))
            self.old self.new) }
    {
        let alloc = *self.root.allocator();
        let inherited = set_of(alloc, self.inherited.as_slice())?;
        let names = names(alloc, self.members.as_slice())?;
        let same = picked(alloc, names.as_slice(), true)?;
        let mut further = further(alloc, self.uses.as_slice())?;
        add_shared(&workspace.dependencies, &inherited, &mut self.findings)?;
        find_all(&mut self.findings, Code::SameName, same.as_slice())?;
        self.findings.append(&mut further)?;
        Ok(())
    }
}
