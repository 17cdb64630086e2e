//! Badges of a package.
ghost use Rattle.std.specs.Prelude.{◌≡◌, ◌∷◌, [], MatchResult, codes, option_map, option_and_then};
ghost use Rattle.toml.specs.Data.{as_table, as_str, get_member, no_members};
ghost use Rattle.toml.specs.View.{table_view};
ghost use Rattle.cargo_toml_parts.specs.declared.error.Error.{Memory};
ghost use Rattle.cargo_toml_parts.specs.Badges.{status_of, maintenance_of, maintenance_reads};
ghost use Rattle.cargo_toml_parts.specs.Badges.{maintenance_at, BadgeMeaning, badge_meaning};
ghost use Rattle.cargo_toml_parts.specs.Badges.{badge_of, badge_reads};
ghost use Rattle.cargo_toml_parts.specs.Badges.{BadgesMeaning, badges_meaning, badges_of};
ghost use Rattle.cargo_toml_parts.specs.Faults.{IsShape, wrong_shape};
ghost use Rattle.cargo_toml_parts.specs.Reads.{IsReading, LacksOnlyIf};
ghost use Rattle.cargo_toml_parts.specs.Readings.{without};

use crate::copying::Copying;
use crate::error::Error;
use crate::read::{Read, into_table, member, take, wrong_shape};
use crate::reading::{Reading, ended};
use crate::scalar::Scalar;
use std::alloc::{AllocError, Global};
use toml::{Table, Value};

/// A badge: where a service finds the repository whose state it shows.
#[derive(Clone, Debug, PartialEq, Eq, Drop)]
pub struct Badge {
    /// The repository: the key `repository`, which has to be there.
    pub repository: String,
    /// Its branch: the key `branch`, `master` where it is missing.
    pub branch: String,
    /// The host of the repository: the key `service`.
    pub service: Option<String>,
    /// The service's own name of the project: the key `id`.
    pub id: Option<String>,
    /// The name of the project: the key `project-name`.
    pub project_name: Option<String>,
}

/// The table `badges`, in which a badge that does not read counts as missing. What is no table is
/// refused.
#[derive(Debug, PartialEq, Eq, Drop)]
pub struct Badges {
    /// The badge `appveyor`.
    pub appveyor: Option<Badge>,
    /// The badge `circle-ci`.
    pub circle_ci: Option<Badge>,
    /// The badge `gitlab`.
    pub gitlab: Option<Badge>,
    /// The badge `travis-ci`.
    pub travis_ci: Option<Badge>,
    /// The badge `codecov`.
    pub codecov: Option<Badge>,
    /// The badge `coveralls`.
    pub coveralls: Option<Badge>,
    /// The badge `is-it-maintained-issue-resolution`.
    pub is_it_maintained_issue_resolution: Option<Badge>,
    /// The badge `is-it-maintained-open-issues`.
    pub is_it_maintained_open_issues: Option<Badge>,
    /// How the package is maintained: the badge `maintenance`, of status none where it is missing
    /// or doesn't read.
    pub maintenance: Maintenance,
}

/// A clone of each field. It fails only when out of memory.
impl Clone for Badges {
    ghost is_clone = { λ p copy.
        ⟦<Option<Badge> as Clone>⟧.is_clone p.appveyor copy.appveyor
        × (⟦<Option<Badge> as Clone>⟧.is_clone p.circle_ci copy.circle_ci
        × (⟦<Option<Badge> as Clone>⟧.is_clone p.gitlab copy.gitlab
        × (⟦<Option<Badge> as Clone>⟧.is_clone p.travis_ci copy.travis_ci
        × (⟦<Option<Badge> as Clone>⟧.is_clone p.codecov copy.codecov
        × (⟦<Option<Badge> as Clone>⟧.is_clone p.coveralls copy.coveralls
        × (⟦<Option<Badge> as Clone>⟧.is_clone p.is_it_maintained_issue_resolution
        copy.is_it_maintained_issue_resolution
        × (⟦<Option<Badge> as Clone>⟧.is_clone p.is_it_maintained_open_issues
        copy.is_it_maintained_open_issues
        × (⟦<Maintenance as Clone>⟧.is_clone p.maintenance copy.maintenance)))))))) };

    ghost is_infallible = { λ p.
        ⟦<Option<Badge> as Clone>⟧.is_infallible p.appveyor
        × (⟦<Option<Badge> as Clone>⟧.is_infallible p.circle_ci
        × (⟦<Option<Badge> as Clone>⟧.is_infallible p.gitlab
        × (⟦<Option<Badge> as Clone>⟧.is_infallible p.travis_ci
        × (⟦<Option<Badge> as Clone>⟧.is_infallible p.codecov
        × (⟦<Option<Badge> as Clone>⟧.is_infallible p.coveralls
        × (⟦<Option<Badge> as Clone>⟧.is_infallible p.is_it_maintained_issue_resolution
        × (⟦<Option<Badge> as Clone>⟧.is_infallible p.is_it_maintained_open_issues
        × (⟦<Maintenance as Clone>⟧.is_infallible p.maintenance)))))))) };

    fn clone(&self) -> Result<Badges, AllocError> {
        let mut copying = Copying::new();
        let copy = Badges {
            appveyor: copying.of(&self.appveyor, None),
            circle_ci: copying.of(&self.circle_ci, None),
            gitlab: copying.of(&self.gitlab, None),
            travis_ci: copying.of(&self.travis_ci, None),
            codecov: copying.of(&self.codecov, None),
            coveralls: copying.of(&self.coveralls, None),
            is_it_maintained_issue_resolution: copying.of(
                &self.is_it_maintained_issue_resolution,
                None,
            ),
            is_it_maintained_open_issues: copying.of(&self.is_it_maintained_open_issues, None),
            maintenance: copying.of(&self.maintenance, Maintenance::default()),
        };
        copying.finish(copy)
    }
}

/// How a package is maintained: the table `maintenance` of the badges.
#[derive(Clone, Copy, Debug, Default, PartialEq, Eq)]
pub struct Maintenance {
    /// The key `status`, which has to be there.
    pub status: MaintenanceStatus,
}

/// How a package is maintained: a text.
#[derive(Clone, Copy, Debug, Default, PartialEq, Eq, Hash)]
pub enum MaintenanceStatus {
    /// The text `none`: nothing is said.
    #[default]
    None,
    /// The text `actively-developed`.
    ActivelyDeveloped,
    /// The text `passively-maintained`.
    PassivelyMaintained,
    /// The text `as-is`.
    AsIs,
    /// The text `experimental`.
    Experimental,
    /// The text `looking-for-maintainer`.
    LookingForMaintainer,
    /// The text `deprecated`.
    Deprecated,
}

/// No badge at all, and a maintenance of status none.
impl Default for Badges {
    ghost is_default = { λ badges. badges_meaning badges ≡ badges_of no_members };

    fn default() -> Badges {
        Badges {
            appveyor: None,
            circle_ci: None,
            gitlab: None,
            travis_ci: None,
            codecov: None,
            coveralls: None,
            is_it_maintained_issue_resolution: None,
            is_it_maintained_open_issues: None,
            maintenance: Maintenance {
                status: MaintenanceStatus::None,
            },
        }
    }
}

impl Scalar for MaintenanceStatus {
    ghost says = { status_of };

    fn said(value: &Value) -> Option<MaintenanceStatus> {
        match value.as_str()? {
            "none" => Some(MaintenanceStatus::None),
            "actively-developed" => Some(MaintenanceStatus::ActivelyDeveloped),
            "passively-maintained" => Some(MaintenanceStatus::PassivelyMaintained),
            "as-is" => Some(MaintenanceStatus::AsIs),
            "experimental" => Some(MaintenanceStatus::Experimental),
            "looking-for-maintainer" => Some(MaintenanceStatus::LookingForMaintainer),
            "deprecated" => Some(MaintenanceStatus::Deprecated),
            _ => None,
        }
    }
}

fn read_maintenance(table: &Table) -> Result<Maintenance, Error>
    ensures reads { IsReading (λ m. m.status) (maintenance_of (table_view table.now))
        (IsShape wrong_shape) result }
    ensures memory { LacksOnlyIf ⊥ result }
{
    if let Some(value) = member(table, "status") {
        if let Some(status) = MaintenanceStatus::said(value) {
            return Ok(Maintenance { status });
        }
    }
    Err(wrong_shape())
}

impl Read for Maintenance {
    ghost use Rattle.cargo_toml_parts.specs.declared.badge.MaintenanceStatus.{MaintenanceStatus};

    ghost Meaning = { MaintenanceStatus };

    ghost meaning = { λ m. m.status };

    ghost reads = { maintenance_reads };

    ghost takes_memory = { ⊥ };

    fn read_owned(_alloc: Global, value: Value) -> Result<Maintenance, Error> {
        read_maintenance(&into_table(value)?)
    }
}

fn read_badge(alloc: Global, table: Table) -> Result<Badge, Error>
    ensures { IsReading badge_meaning (badge_of (table_view table)) (IsShape wrong_shape) result }
{
    let mut rest = table;
    let mut reading = Reading::new(alloc);
    let mut whole = Badge {
        repository: String::new(alloc),
        branch: String::from_str(alloc, "master")?,
        service: None,
        id: None,
        project_name: None,
    };
    reading.take_required(&mut rest, "repository", &mut whole.repository);
    reading.take(&mut rest, "branch", &mut whole.branch);
    reading.take_optional(&mut rest, "service", &mut whole.service);
    reading.take_optional(&mut rest, "id", &mut whole.id);
    reading.take_optional(&mut rest, "project-name", &mut whole.project_name);
    ended(reading.fault, whole)
}

impl Read for Badge {
    ghost Meaning = { BadgeMeaning };

    ghost meaning = { badge_meaning };

    ghost reads = { badge_reads };

    fn read_owned(alloc: Global, value: Value) -> Result<Badge, Error> {
        read_badge(alloc, into_table(value)?)
    }
}

// What reads at the key, which is taken out of the table; every refusal except `Memory` is passed
// over.
fn passing_over<T: Read>(alloc: Global, rest: &mut Table, key: &str) -> Result<Option<T>, Error>
    ensures value { MatchResult result (λ x. option_map T.meaning x
        ≡ option_and_then T.reads (get_member key.now (table_view rest.old))) (λ e. e ≡ Memory) }
    ensures left { table_view rest.new ≡ without (key.now ∷ []) (table_view rest.old) }
{
    let Some(value) = take(rest, key) else {
        return Ok(None);
    };
    match T::read_owned(alloc, value) {
        Ok(x) => Ok(Some(x)),
        Err(Error::Memory) => Err(Error::Memory),
        Err(_) => Ok(None),
    }
}

fn maintenance_or_none(alloc: Global, rest: &mut Table) -> Result<Maintenance, Error>
    ensures { MatchResult result
        (λ m. m.status ≡ maintenance_at (codes "maintenance") (table_view rest.old))
        (λ e. e ≡ Memory) }
{
    match passing_over::<Maintenance>(alloc, rest, "maintenance")? {
        Some(maintenance) => Ok(maintenance),
        None => Ok(Maintenance {
            status: MaintenanceStatus::None,
        }),
    }
}

fn read_badges(alloc: Global, table: Table) -> Result<Badges, Error>
    ensures { MatchResult result (λ b. badges_meaning b ≡ badges_of (table_view table))
        (λ e. e ≡ Memory) }
{
    let mut rest = table;
    let mut badges = Badges::default();
    badges.appveyor = passing_over(alloc, &mut rest, "appveyor")?;
    badges.circle_ci = passing_over(alloc, &mut rest, "circle-ci")?;
    badges.gitlab = passing_over(alloc, &mut rest, "gitlab")?;
    badges.travis_ci = passing_over(alloc, &mut rest, "travis-ci")?;
    badges.codecov = passing_over(alloc, &mut rest, "codecov")?;
    badges.coveralls = passing_over(alloc, &mut rest, "coveralls")?;
    badges.is_it_maintained_issue_resolution = passing_over(
        alloc,
        &mut rest,
        "is-it-maintained-issue-resolution",
    )?;
    badges.is_it_maintained_open_issues = passing_over(
        alloc,
        &mut rest,
        "is-it-maintained-open-issues",
    )?;
    badges.maintenance = maintenance_or_none(alloc, &mut rest)?;
    Ok(badges)
}

impl Read for Badges {
    ghost Meaning = { BadgesMeaning };

    ghost meaning = { badges_meaning };

    ghost reads = { λ d. option_map badges_of (as_table d) };

    fn read_owned(alloc: Global, value: Value) -> Result<Badges, Error> {
        read_badges(alloc, into_table(value)?)
    }
}
