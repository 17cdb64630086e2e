//! Calls with values that no manifest spells, and what they answer, as text.
mod defaults;
mod dependencies;
mod faults;
mod packages;
mod values;
mod written;

use crate::row::Shown;
use cargo_toml::Error;
use std::alloc::Global;

/// What is answered to the calls of a row: a line for each, `CALL: ANSWER`.
pub fn lines(alloc: Global, row: &str) -> Shown {
    match row {
        "calls/eq-bool-of-lists-and-flags" => values::eq_bool(alloc),
        "calls/inherited-equals-nothing" => values::equality(alloc),
        "calls/inheritable-values" => values::inheritable(alloc),
        "calls/inheritable-conversions" => values::conversions(alloc),
        "calls/editions-and-resolvers" => values::numbers(alloc),
        "calls/optional-files" => values::optional_files(alloc),
        "calls/written-small-values" => values::written_small(alloc),
        "calls/questions-to-dependencies" => dependencies::questions(alloc),
        "calls/questions-to-inherited" => dependencies::questions_to_inherited(alloc),
        "calls/rev-is-not-crates-io" => dependencies::rev_is_not_crates_io(alloc),
        "calls/simple-becomes-detailed" => dependencies::simple_becomes_detailed(alloc),
        "calls/try-req-without-version" => dependencies::try_req_without_version(alloc),
        "calls/display-without-path" => faults::without_path(alloc),
        "calls/display-nested" => faults::nested(alloc),
        "calls/display-before-inner-words" => faults::before_inner_words(alloc),
        "calls/outcomes" => faults::outcomes(alloc),
        "calls/default-manifest-written" => defaults::manifest(alloc),
        "calls/new-package-written" => defaults::new_package(alloc),
        "calls/default-target-written" => defaults::target(alloc),
        "calls/defaults-written" => defaults::others(alloc),
        "calls/package-setters" => packages::setters(alloc),
        "calls/package-getters" => packages::getters(alloc),
        "calls/changed-manifest-written" => written::changed(alloc),
        _ => Err(Error::Other("no such calls")),
    }
}
