//! What values read as, and how these are written.
use crate::manifests::same;
use crate::row::Shown;
use cargo_toml::{
    Badge, Badges, DebugSetting, Dependency, DependencyDetail, Edition, Error, FromValue,
    Inheritable, InheritedDependencyDetail, Lint, LintGroups, LintLevel, LtoSetting, Maintenance,
    MaintenanceStatus, Manifest, OptionalFile, Package, PackageTemplate, ParseFault, PatchSet,
    Product, Profile, Profiles, Publish, Resolver, SemVer, StripSetting, Target, TargetDepsSet,
    ToValue, Value, VersionReq, Workspace,
};
use std::alloc::Global;
use std::fmt::Debug;

/// What a value reads as and how that is written, or why it is refused, with ` -> ` between them.
pub fn answer(alloc: Global, row: &str, value: &str) -> Shown {
    let value = Value::from_str(alloc, value)?;
    match row {
        "values/debug" => setting_answer::<DebugSetting>(alloc, &value),
        "values/strip" => setting_answer::<StripSetting>(alloc, &value),
        "values/lto" => setting_answer::<LtoSetting>(alloc, &value),
        "values/edition" => answer_of::<Edition>(alloc, &value),
        "values/resolver" => answer_of::<Resolver>(alloc, &value),
        "values/optional-file" => answer_of::<OptionalFile>(alloc, &value),
        "values/publish" => answer_of::<Publish>(alloc, &value),
        "values/lint-level" => answer_of::<LintLevel>(alloc, &value),
        "values/maintenance-status" => answer_of::<MaintenanceStatus>(alloc, &value),
        "values/lint" => answer_of::<Lint>(alloc, &value),
        "values/lint-groups" => answer_of::<LintGroups>(alloc, &value),
        "values/badge" => answer_of::<Badge>(alloc, &value),
        "values/badges" => answer_of::<Badges>(alloc, &value),
        "values/maintenance" => answer_of::<Maintenance>(alloc, &value),
        "values/product" => answer_of::<Product>(alloc, &value),
        "values/profile" => answer_of::<Profile>(alloc, &value),
        "values/profiles" => answer_of::<Profiles>(alloc, &value),
        "values/inheritable-version" => answer_of::<Inheritable<SemVer>>(alloc, &value),
        "values/inheritable-text" => answer_of::<Inheritable<String>>(alloc, &value),
        "values/inheritable-edition" => answer_of::<Inheritable<Edition>>(alloc, &value),
        "values/template" => answer_of::<PackageTemplate>(alloc, &value),
        "values/package" => answer_of::<Package>(alloc, &value),
        "values/workspace" => answer_of::<Workspace>(alloc, &value),
        "values/manifest" => answer_of::<Manifest>(alloc, &value),
        "values/dependency" => answer_of::<Dependency>(alloc, &value),
        "values/dependency-detail" => answer_of::<DependencyDetail>(alloc, &value),
        "values/inherited-detail" => answer_of::<InheritedDependencyDetail>(alloc, &value),
        "values/target" => answer_of::<Target>(alloc, &value),
        "values/targets" => answer_of::<TargetDepsSet>(alloc, &value),
        "values/patches" => answer_of::<PatchSet>(alloc, &value),
        "values/requirement" => answer_of::<VersionReq>(alloc, &value),
        "values/value" => answer_of::<Value>(alloc, &value),
        _ => Err(Error::Other("no such type")),
    }
}

/// What a value reads as, and how that is written; or the words of a fault of shape.
fn answer_of<T: FromValue + ToValue + Clone + Debug + Drop>(alloc: Global, value: &Value) -> Shown {
    match T::from_value(alloc, value.clone()?) {
        Ok(read) => written(alloc, &*Box::new(alloc, read)?),
        Err(Error::Parse(ParseFault::Shape(words))) => Ok(format!(in alloc; "refused: {words}")?),
        Err(fault) => Err(fault),
    }
}

/// The same of a setting, which a value is tried as too.
fn setting_answer<T: FromValue + ToValue + TryFrom<Value, Error = Error> + Clone + Debug + Drop>(
    alloc: Global,
    value: &Value,
) -> Shown {
    let read = answer_of::<T>(alloc, value)?;
    let tried = match T::try_from(value.clone()?) {
        Ok(setting) => written(alloc, &setting)?,
        Err(Error::Other(words)) => format!(in alloc; "refused: {words}")?,
        Err(fault) => return Err(fault),
    };
    same(alloc, read, tried.as_str(), "tried")
}

/// The text of what was read, and how it is written. A copy has to have the same text. What is
/// written has to read as the same.
fn written<T: FromValue + ToValue + Clone + Debug + Drop>(alloc: Global, value: &T) -> Shown {
    let tree = value.to_value(alloc)?;
    let text = format!(in alloc; "{value:?} -> {tree}")?;
    let copy = Box::new(alloc, value.clone()?)?;
    if format!(in alloc; "{copy:?} -> {tree}")? != text {
        return Ok(format!(in alloc; "{text}, and copied {copy:?}")?);
    }
    let again = Box::new(alloc, T::from_value(alloc, tree)?)?;
    let again = format!(in alloc; "{again:?} -> {}", again.to_value(alloc)?)?;
    same(alloc, text, again.as_str(), "read again")
}
