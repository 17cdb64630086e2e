//! What is found of tables of dependencies.
ghost use Rattle.std.specs.Prelude.{◌≡◌, IfOk, OnOk, map};
ghost use Rattle.cargo_toml.specs.{Dependencies.dependency_meaning, Manifests.held};
ghost use Rattle.cargo_toml.specs.Reads.{map_meaning};
ghost use Rattle.cargo_toml_lint.specs.Findings.{entry_findings, table_findings, tables_findings};
ghost use Rattle.cargo_toml_lint.specs.{Known.tables_of, Names.table_of, Steps.Finds};

use crate::AllocResult;
use crate::finding::{Code, Finding};
use crate::gathering::{add, add_if};
use crate::names::is_feature_name;
use cargo_toml::{Dependency, DepsSet, Manifest};
use std::alloc::Global;

/// All tables of dependencies of a manifest, each with whether it is of dev-dependencies.
#[tactic(auto, using(crate::proofs::Adding::left_next, crate::proofs::Adding::left_none))]
pub(crate) fn tables_of<M>(
    alloc: Global,
    manifest: &Manifest<M>,
) -> AllocResult<Vec<(&DepsSet, bool)>>
    ensures { IfOk result (λ v. map table_of v.items ≡ tables_of (held manifest.now)) }
{
    let mut tables = Vec::new(alloc);
    for (_, target) in &manifest.target {
        tables.push((&target.dependencies, false))?;
        tables.push((&target.build_dependencies, false))?;
        tables.push((&target.dev_dependencies, true))?;
    }
    tables.push((&manifest.dependencies, false))?;
    tables.push((&manifest.build_dependencies, false))?;
    tables.push((&manifest.dev_dependencies, true))?;
    Ok(tables)
}

// Adds what is found of an entry, which may be of dev-dependencies, or beyond the limit.
#[tactic(auto, using(crate::proofs::Adding::mapped_next, crate::proofs::Adding::asked_is))]
fn add_entry<'m>(
    found: &mut Vec<Finding<'m>>,
    key: &'m str,
    dependency: &'m Dependency,
    is_dev: bool,
    is_over: bool,
) -> AllocResult<()>
    ensures { OnOk result (Finds (entry_findings is_dev is_over key.now
        (dependency_meaning dependency.now)) found.old.items found.new.items) }
{
    let is_refused = is_dev & dependency.optional();
    add_if(found, is_refused, Code::OptionalDev, key)?;
    add_if(found, is_over, Code::OverLimit, key)?;
    let texts = dependency.req_features();
    for text in texts {
        let text = text.as_str();
        let fault = (!is_feature_name(text)).then_some(Code::BadRequest);
        add(found, fault, key, text)?;
    }
    Ok(())
}

// Adds what is found of a table, of which as many entries count as the limit says.
#[tactic(auto, using(crate::proofs::Adding::table_next, crate::proofs::Adding::table_none))]
fn add_table<'m>(
    found: &mut Vec<Finding<'m>>,
    table: &'m DepsSet,
    is_dev: bool,
    limit: usize,
) -> AllocResult<()>
    ensures { OnOk result (Finds (table_findings is_dev limit
        (map_meaning dependency_meaning table.now)) found.old.items found.new.items) }
{
    let mut left = limit;
    for (key, dependency) in table {
        add_entry(found, key.as_str(), dependency, is_dev, left == 0)?;
        left = left.saturating_sub(1);
    }
    Ok(())
}

/// Adds what is found of all tables of dependencies.
#[tactic(auto, using(crate::proofs::Adding::mapped_next))]
pub(crate) fn add_tables<'m, M>(
    found: &mut Vec<Finding<'m>>,
    manifest: &'m Manifest<M>,
    limit: usize,
) -> AllocResult<()>
    ensures { OnOk result (Finds (tables_findings limit (held manifest.now))
        found.old.items found.new.items) }
{
    for table in &tables_of(*found.allocator(), manifest)? {
        add_table(found, table.0, table.1, limit)?;
    }
    Ok(())
}
