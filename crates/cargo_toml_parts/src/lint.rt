//! Lints.
ghost use Rattle.std.specs.Prelude.{◌≡◌, IfOk};
ghost use Rattle.toml.specs.View.{table_view};
ghost use Rattle.cargo_toml_parts.specs.Faults.{IsShape, wrong_shape};
ghost use Rattle.cargo_toml_parts.specs.Lints.{level_of, LintMeaning, lint_meaning};
ghost use Rattle.cargo_toml_parts.specs.Lints.{level_alone, table_lint, lint_of};
ghost use Rattle.cargo_toml_parts.specs.Reads.{IsReading, map_meaning};

use crate::error::Error;
use crate::read::{Read, without_spare};
use crate::reading::{Reading, ended};
use crate::scalar::Scalar;
use std::alloc::{AllocError, Global};
use std::collections::BTreeMap;
use toml::{Table, Value};

/// The lints of one tool, by name.
pub type LintSet = BTreeMap<String, Lint>;

/// The table `lints`: for each tool its lints.
pub type LintGroups = BTreeMap<String, LintSet>;

/// What is done about a lint: a level alone, or a table.
#[derive(Clone, Debug, PartialEq, Drop)]
pub struct Lint {
    /// How severe it is: the level, or the key `level`, which has to be there.
    pub level: LintLevel,
    /// From -128 to 127: the key `priority`, 0 where it is missing. The lower of two is handed to
    /// the compiler first, so the higher one prevails.
    pub priority: i8,
    /// The other keys, which the tool reads.
    pub config: BTreeMap<String, Value>,
}

/// How severe a lint is: a text.
#[derive(Clone, Copy, Debug, PartialEq, Eq, Hash)]
pub enum LintLevel {
    /// The text `allow`: it is passed over.
    Allow,
    /// The text `warn`: there is a warning.
    Warn,
    /// The text `force-warn`: there is a warning, whatever the code says.
    ForceWarn,
    /// The text `deny`: it is an error.
    Deny,
    /// The text `forbid`: it is an error, whatever the code says.
    Forbid,
}

impl Scalar for LintLevel {
    ghost says = { level_of };

    fn said(value: &Value) -> Option<LintLevel> {
        match value.as_str()? {
            "allow" => Some(LintLevel::Allow),
            "warn" => Some(LintLevel::Warn),
            "force-warn" => Some(LintLevel::ForceWarn),
            "deny" => Some(LintLevel::Deny),
            "forbid" => Some(LintLevel::Forbid),
            _ => None,
        }
    }
}

fn of_level(alloc: Global, level: LintLevel) -> Lint
    ensures { lint_meaning result ≡ level_alone level }
{
    Lint {
        level,
        priority: 0,
        config: BTreeMap::new(alloc),
    }
}

fn of_table(alloc: Global, table: Table) -> Result<Lint, Error>
    ensures { IsReading lint_meaning (table_lint (table_view table)) (IsShape wrong_shape) result }
{
    let mut rest = table;
    let mut reading = Reading::new(alloc);
    let mut whole = of_level(alloc, LintLevel::Warn);
    reading.take_required(&mut rest, "level", &mut whole.level);
    reading.take(&mut rest, "priority", &mut whole.priority);
    // All known keys were taken out of it.
    whole.config = without_spare(alloc, rest);
    ended(reading.fault, whole)
}

impl Read for Lint {
    ghost Meaning = { LintMeaning };

    ghost meaning = { lint_meaning };

    ghost reads = { lint_of };

    fn read_owned(alloc: Global, value: Value) -> Result<Lint, Error> {
        match value {
            Value::Table(table) => of_table(alloc, table),
            level => Ok(of_level(alloc, LintLevel::read_owned(alloc, level)?)),
        }
    }
}

/// A copy that holds the same lints. It fails only when out of memory.
pub fn duplicate_lints(groups: &LintGroups) -> Result<LintGroups, AllocError>
    ensures { IfOk result (λ copy. map_meaning (map_meaning lint_meaning) copy
        ≡ map_meaning (map_meaning lint_meaning) groups.now) }
{
    groups.clone()
}
