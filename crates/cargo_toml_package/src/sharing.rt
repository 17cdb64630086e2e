//! What a manifest takes from its workspace, all together; and how its lints are made.
ghost use Rattle.std.specs.Prelude.{option_map};
ghost use Rattle.std.specs.Option.{option_copied};
ghost use Rattle.cargo_toml_parts.specs.Answers.{Gives};
ghost use Rattle.cargo_toml_parts.specs.Inherits.{inheritable_map};
ghost use Rattle.cargo_toml_parts.specs.Reads.{map_meaning};
ghost use Rattle.cargo_toml_package.specs.Inheriting.{put_field};
ghost use Rattle.cargo_toml_parts.specs.Lints.{lint_meaning};
ghost use Rattle.cargo_toml_package.specs.Sharing.{inherited_lints};

use crate::inheriting::NewFields;
use crate::workspace_dependencies::NewTarget;
use cargo_toml_parts::lint::duplicate_lints;
use cargo_toml_parts::{Error, Inheritable, LintGroups};
use std::alloc::Global;

/// What a manifest takes from its workspace, in place of what it left to it.
#[derive(Drop)]
pub struct NewParts {
    /// In place of the inherited dependencies of its own three tables.
    pub tables: NewTarget,

    /// In place of those of each target, in the order of the targets' names.
    pub targets: Vec<NewTarget>,

    /// In place of the lints; `None` where the manifest keeps its own.
    pub lints: Option<LintGroups>,

    /// In place of fields of the package, where there is one.
    pub package: Option<NewFields>,
}

/// What inherited lints become, by those of the workspace where it has a table; `None` where a
/// manifest keeps its own.
///
/// Refused by `WorkspaceIntegrity` where they are left to a workspace without a table, and by
/// `Memory`.
pub fn new_lints(
    alloc: Global,
    lints: &Inheritable<LintGroups>,
    groups: Option<&LintGroups>,
) -> Result<Option<LintGroups>, Error>
    ensures { Gives
        (λ new. put_field (inheritable_map (map_meaning (map_meaning lint_meaning)) lints.now)
        (option_map (map_meaning (map_meaning lint_meaning)) new))
        result
        (inherited_lints
        (option_map (map_meaning (map_meaning lint_meaning)) (option_copied groups.entry))
        (inheritable_map (map_meaning (map_meaning lint_meaning)) lints.now)) }
{
    match (lints, groups) {
        (Inheritable::Set(_), _) => Ok(None),
        (Inheritable::Inherited, Some(groups)) => Ok(Some(duplicate_lints(groups)?)),
        (Inheritable::Inherited, None) => {
            let text = "lints are inherited, but there is no workspace table";
            Err(Error::WorkspaceIntegrity(String::from_str(alloc, text)?))
        }
    }
}
