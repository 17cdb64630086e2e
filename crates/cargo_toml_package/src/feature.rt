//! Features: what each enables, and what is said of it beside.
ghost use Rattle.std.specs.Prelude.{◌≡◌, ◌++◌, IfOk, OnOk, codes, map, option_map, string_bytes};
ghost use Rattle.std.specs.List.Sorted.{IsStrictlySortedBy};
ghost use Rattle.std.specs.Map.{keys_of};
ghost use Rattle.std.specs.String.{string_cmp};
ghost use Rattle.toml.specs.Data.{get_member};
ghost use Rattle.toml.specs.View.{view, table_view};
ghost use Rattle.cargo_toml_parts.specs.Faults.{IsShape, wrong_shape};
ghost use Rattle.cargo_toml_parts.specs.Readings.{Goes, Loses};
ghost use Rattle.cargo_toml_parts.specs.Reads.{Faulty, IsReading, given_of};
ghost use Rattle.cargo_toml_parts.specs.Reads.{members_reads, pairs_meaning, WrongShape};
ghost use Rattle.cargo_toml_package.specs.Details.{detail_of};
ghost use Rattle.cargo_toml_package.specs.Features.{FeaturesMeaning, apart, details_of};
ghost use Rattle.cargo_toml_package.specs.Features.{feature_meaning, feature_of};
ghost use Rattle.cargo_toml_package.specs.Features.{features_meaning, features_of};
ghost use Rattle.cargo_toml_package.specs.Features.{list_feature, lists_of, no_features};
ghost use Rattle.cargo_toml_package.specs.Features.{said_of, table_feature};

use crate::target::{FeatureDetail, FeatureDetails, FeatureSet};
use cargo_toml_parts::error::Error;
use cargo_toml_parts::read::{Read, into_table, map_of_pairs};
use cargo_toml_parts::reading::{Reading, ended};
use std::alloc::{AllocError, Global};
use std::collections::BTreeMap;
use toml::{Table, Value};

// A feature as it is written: what it enables, and what is said of it.
#[derive(Drop)]
struct WrittenFeature {
    enables: Vec<String>,
    detail: FeatureDetail,
}

fn of_table(alloc: Global, table: Table) -> Result<WrittenFeature, Error>
    ensures { IsReading feature_meaning (table_feature (table_view table)) (IsShape wrong_shape)
        result }
{
    let mut rest = table;
    let mut reading = Reading::new(alloc);
    let mut enables = Vec::new(alloc);
    let mut detail = FeatureDetail::default();
    reading.take(&mut rest, "enables", &mut enables);
    reading.take(&mut rest, "public", &mut detail.public);
    reading.take_optional(&mut rest, "doc", &mut detail.doc);
    ended(reading.fault, WrittenFeature { enables, detail })
}

fn of_list(alloc: Global, value: Value) -> Result<WrittenFeature, Error>
    ensures { IsReading feature_meaning (list_feature (view value)) (IsShape wrong_shape) result }
{
    let enables = Vec::read_owned(alloc, value)?;
    Ok(WrittenFeature {
        enables,
        detail: FeatureDetail::default(),
    })
}

// A feature, as a list or a table says it.
fn of_value(alloc: Global, value: Value) -> Result<WrittenFeature, Error>
    ensures { IsReading feature_meaning (feature_of (view value)) (IsShape wrong_shape) result }
{
    match value {
        Value::Table(table) => of_table(alloc, table),
        list => of_list(alloc, list),
    }
}

// The features of a table: the lists of all, and the details of some.
#[derive(Drop)]
struct WrittenFeatures {
    lists: FeatureSet,
    details: FeatureDetails,
}

impl Read for WrittenFeatures {
    ghost Meaning = { FeaturesMeaning };

    ghost meaning = { λ f. features_meaning f.lists f.details };

    ghost reads = { features_of };

    fn read_owned(alloc: Global, value: Value) -> Result<WrittenFeatures, Error> {
        read_features(alloc, into_table(value)?)
    }
}

fn read_features(alloc: Global, table: Table) -> Result<WrittenFeatures, Error>
    ensures { IsReading (λ f. features_meaning f.lists f.details)
        (option_map apart (members_reads feature_of (table_view table)))
        (IsShape wrong_shape) result }
{
    let written = pairs(alloc, table)?;
    let Halves { lists, details } = split(alloc, written)?;
    let lists = map_of_pairs(alloc, lists)?;
    let details = map_of_pairs(alloc, details)?;
    Ok(WrittenFeatures { lists, details })
}

// The features in the order of their names, which are moved.
fn pairs(alloc: Global, table: Table) -> Result<Vec<(String, WrittenFeature)>, Error>
    ensures reads { IsReading (λ v. pairs_meaning feature_meaning v.items)
        (members_reads feature_of (table_view table)) (IsShape wrong_shape) result }
    ensures ascend { IfOk result (λ v. IsStrictlySortedBy string_cmp (keys_of v.items)) }
{
    let mut pairs = Vec::with_capacity(alloc, table.len())?;
    for (name, member) in table {
        pairs.push((name, of_value(alloc, member)?))?;
    }
    Ok(pairs)
}

// What features enable, and what is said of those of which something is, in the order of the names.
#[derive(Drop)]
struct Halves {
    lists: Vec<(String, Vec<String>)>,
    details: Vec<(String, FeatureDetail)>,
}

fn split(alloc: Global, written: Vec<(String, WrittenFeature)>) -> Result<Halves, AllocError>
    ensures lists { IfOk result (λ h. pairs_meaning (λ v. map string_bytes v.items) h.lists.items
        ≡ lists_of (pairs_meaning feature_meaning written.items)) }
    ensures details { IfOk result (λ h. pairs_meaning detail_of h.details.items
        ≡ details_of (pairs_meaning feature_meaning written.items)) }
{
    let mut lists = Vec::with_capacity(alloc, written.len())?;
    let mut details = Vec::new(alloc);
    for (name, feature) in written {
        push_said(alloc, &mut details, name.as_str(), feature.detail)?;
        lists.push((name, feature.enables))?;
    }
    Ok(Halves { lists, details })
}

// One detail more, unless it says nothing.
fn push_said(
    alloc: Global,
    details: &mut Vec<(String, FeatureDetail)>,
    name: &str,
    detail: FeatureDetail,
) -> Result<(), AllocError>
    ensures { OnOk result (pairs_meaning detail_of details.new.items
        ≡ pairs_meaning detail_of details.old.items ++ said_of name.now (detail_of detail)) }
{
    if detail.public && detail.doc.is_none() {
        return Ok(());
    }
    details.push((String::from_str(alloc, name)?, detail))?;
    Ok(())
}

/// Reads the key `features` into two places, what each enables and what is said of some, and takes
/// it out of the table.
///
/// Each is a list, or a table with the list `enables` and the keys `public` and `doc`. A table with
/// `public` as false or with a `doc` gives an entry. There are none where there is no value.
#[inline(never)]
pub fn take_features(
    reading: &mut Reading,
    rest: &mut Table,
    lists: &mut FeatureSet,
    details: &mut FeatureDetails,
)
    ensures value { Goes reading.old.fault reading.new.fault
        (given_of features_of no_features (get_member (codes "features") (table_view rest.old)))
        (features_meaning lists.new details.new)
        (Faulty features_of WrongShape (get_member (codes "features") (table_view rest.old))) }
    ensures left { Loses reading.old.fault (codes "features") (table_view rest.old)
        (table_view rest.new) }
{
    let mut written = WrittenFeatures {
        lists: BTreeMap::new(reading.alloc),
        details: BTreeMap::new(reading.alloc),
    };
    reading.take(rest, "features", &mut written);
    let WrittenFeatures {
        lists: enabled,
        details: said,
    } = written;
    *lists = enabled;
    *details = said;
}
