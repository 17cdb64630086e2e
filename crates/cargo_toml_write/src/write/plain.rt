//! Writers of texts, numbers, versions, free values, and of the enums and settings that stand for
//! one value.
ghost use Rattle.std.specs.Prelude.{◌≡◌, ℕ, ℤ, List, Bool, IfErr, string_bytes};
ghost use Rattle.toml.specs.Data.{Data};
ghost use Rattle.toml.specs.View.{view};
ghost use Rattle.semver.specs.Identifiers.{parts_of};
ghost use Rattle.semver.specs.Parse.{Held};
ghost use Rattle.cargo_toml_parts.specs.Badges.{status_of};
ghost use Rattle.cargo_toml_parts.specs.Lints.{level_of};
ghost use Rattle.cargo_toml_parts.specs.ProfileSettings.{debug_of, strip_of, lto_of};
ghost use Rattle.cargo_toml_parts.specs.Settings.{File, Registries, file_of, file_meaning};
ghost use Rattle.cargo_toml_parts.specs.Settings.{publish_of, edition_reads, resolver_reads};
ghost use Rattle.cargo_toml_parts.specs.Settings.{publish_meaning};
ghost use Rattle.cargo_toml_parts.specs.Versions.{Parts, requirement_meaning, requirement_of};
ghost use Rattle.cargo_toml_parts.specs.declared.badge.MaintenanceStatus.{MaintenanceStatus};
ghost use Rattle.cargo_toml_parts.specs.declared.error.Error.{Error};
ghost use Rattle.cargo_toml_parts.specs.declared.lint.LintLevel.{LintLevel};
ghost use Rattle.cargo_toml_parts.specs.declared.profile_settings.DebugSetting.{DebugSetting};
ghost use Rattle.cargo_toml_parts.specs.declared.profile_settings.LtoSetting.{LtoSetting};
ghost use Rattle.cargo_toml_parts.specs.declared.profile_settings.StripSetting.{StripSetting};
ghost use Rattle.cargo_toml_parts.specs.declared.settings.Edition.{Edition};
ghost use Rattle.cargo_toml_parts.specs.declared.settings.Resolver.{Resolver};
ghost use Rattle.cargo_toml_write.specs.Requirements.{CanBeRead};
ghost use Rattle.cargo_toml_write.specs.Ways.{text_way, free_way, small_way, truth_way, number_way};
ghost use Rattle.cargo_toml_write.specs.Ways.{version_way, requirement_way};
ghost use Rattle.cargo_toml_write.specs.Writes.{IsReadAgain, IsWriting};
ghost use Rattle.cargo_toml_write.specs.WrittenTables.{edition_way, resolver_way, publish_way};
ghost use Rattle.cargo_toml_write.specs.WrittenTables.{level_way, status_way, debug_way, lto_way};
ghost use Rattle.cargo_toml_write.specs.WrittenTables.{file_way, strip_way};

use crate::write::requirement::requirement_text;
use crate::write::{LeftOut, ToValue};
use cargo_toml_parts::floats::has_no_float;
use cargo_toml_parts::{
    DebugSetting, Edition, Error, LintLevel, LtoSetting, MaintenanceStatus, OptionalFile, Publish,
    Resolver, SemVer, StripSetting, VersionReq,
};
use std::alloc::Global;
use toml::Value;

impl ToValue for bool {
    ghost Meaning = { Bool };

    ghost meaning = { λ b. b };

    ghost way = { truth_way };

    fn to_value(&self, _alloc: Global) -> Result<Value, Error> {
        Ok(Value::Boolean(*self))
    }
}

impl ToValue for u16 {
    ghost Meaning = { ℕ };

    ghost meaning = { λ n. n };

    ghost way = { number_way };

    fn to_value(&self, _alloc: Global) -> Result<Value, Error> {
        Ok(Value::Integer(i64::from(*self)))
    }
}

impl ToValue for i8 {
    ghost Meaning = { ℤ };

    ghost meaning = { λ z. z };

    ghost way = { small_way };

    fn to_value(&self, _alloc: Global) -> Result<Value, Error> {
        Ok(Value::Integer(i64::from(*self)))
    }
}

impl ToValue for String {
    ghost Meaning = { List ℕ };

    ghost meaning = { string_bytes };

    ghost way = { text_way };

    fn to_value(&self, _alloc: Global) -> Result<Value, Error> {
        Ok(Value::String(self.clone()?))
    }
}

impl ToValue for SemVer {
    ghost Meaning = { Parts };

    ghost meaning = { parts_of };

    ghost way = { version_way };

    fn to_value(&self, alloc: Global) -> Result<Value, Error> {
        Ok(Value::String(self.to_string(alloc)?))
    }
}

impl ToValue for VersionReq {
    ghost Meaning = { List Held };

    ghost meaning = { requirement_meaning };

    ghost way = { requirement_way };

    fn to_value(&self, alloc: Global) -> Result<Value, Error>
        ensures written { IsWriting requirement_way (requirement_meaning self.now) result }
        ensures read_again { CanBeRead (requirement_meaning self.now)
            → IsReadAgain requirement_of (requirement_meaning self.now) result }
        ensures memory { IfErr result (λ e. e ≡ Error.Memory) }
    {
        Ok(Value::String(requirement_text(alloc, self)?))
    }
}

/// A free value is written as it is, unless it holds a float.
impl ToValue for Value {
    ghost Meaning = { Data };

    ghost meaning = { view };

    ghost way = { free_way };

    fn to_value(&self, _alloc: Global) -> Result<Value, Error> {
        if !has_no_float(self) {
            return Err(Error::Other("floats are not supported"));
        }
        Ok(self.clone()?)
    }
}

impl ToValue for Edition {
    ghost Meaning = { Edition };

    ghost meaning = { λ x. x };

    ghost way = { edition_way };

    fn to_value(&self, alloc: Global) -> Result<Value, Error>
        ensures written { IsWriting edition_way self.now result }
        ensures read_again { IsReadAgain edition_reads self.now result }
        ensures memory { IfErr result (λ e. e ≡ Error.Memory) }
    {
        Ok(Value::String(self.to_string(alloc)?))
    }
}

impl ToValue for Resolver {
    ghost Meaning = { Resolver };

    ghost meaning = { λ x. x };

    ghost way = { resolver_way };

    fn to_value(&self, alloc: Global) -> Result<Value, Error>
        ensures written { IsWriting resolver_way self.now result }
        ensures read_again { IsReadAgain resolver_reads self.now result }
        ensures memory { IfErr result (λ e. e ≡ Error.Memory) }
    {
        Ok(Value::String(self.to_string(alloc)?))
    }
}

impl ToValue for LintLevel {
    ghost Meaning = { LintLevel };

    ghost meaning = { λ x. x };

    ghost way = { level_way };

    fn to_value(&self, alloc: Global) -> Result<Value, Error>
        ensures written { IsWriting level_way self.now result }
        ensures read_again { IsReadAgain level_of self.now result }
        ensures memory { IfErr result (λ e. e ≡ Error.Memory) }
    {
        let text = match self {
            LintLevel::Allow => "allow",
            LintLevel::Warn => "warn",
            LintLevel::ForceWarn => "force-warn",
            LintLevel::Deny => "deny",
            LintLevel::Forbid => "forbid",
        };
        Ok(Value::string(alloc, text)?)
    }
}

impl ToValue for MaintenanceStatus {
    ghost Meaning = { MaintenanceStatus };

    ghost meaning = { λ x. x };

    ghost way = { status_way };

    fn to_value(&self, alloc: Global) -> Result<Value, Error>
        ensures written { IsWriting status_way self.now result }
        ensures read_again { IsReadAgain status_of self.now result }
        ensures memory { IfErr result (λ e. e ≡ Error.Memory) }
    {
        let text = match self {
            MaintenanceStatus::None => "none",
            MaintenanceStatus::ActivelyDeveloped => "actively-developed",
            MaintenanceStatus::PassivelyMaintained => "passively-maintained",
            MaintenanceStatus::AsIs => "as-is",
            MaintenanceStatus::Experimental => "experimental",
            MaintenanceStatus::LookingForMaintainer => "looking-for-maintainer",
            MaintenanceStatus::Deprecated => "deprecated",
        };
        Ok(Value::string(alloc, text)?)
    }
}

impl ToValue for OptionalFile {
    ghost Meaning = { File };

    ghost meaning = { file_meaning };

    ghost way = { file_way };

    fn to_value(&self, _alloc: Global) -> Result<Value, Error>
        ensures written { IsWriting file_way (file_meaning self.now) result }
        ensures read_again { IsReadAgain file_of (file_meaning self.now) result }
        ensures memory { IfErr result (λ e. e ≡ Error.Memory) }
    {
        match self {
            OptionalFile::Flag(flag) => Ok(Value::Boolean(*flag)),
            OptionalFile::Path(path) => Ok(Value::String(path.clone()?)),
        }
    }
}

/// A file is left out where it is on.
impl LeftOut for OptionalFile {
    fn is_left_out(&self) -> bool {
        matches!(self, OptionalFile::Flag(true))
    }
}

impl ToValue for Publish {
    ghost Meaning = { Registries };

    ghost meaning = { publish_meaning };

    ghost way = { publish_way };

    fn to_value(&self, alloc: Global) -> Result<Value, Error>
        ensures written { IsWriting publish_way (publish_meaning self.now) result }
        ensures read_again { IsReadAgain publish_of (publish_meaning self.now) result }
        ensures memory { IfErr result (λ e. e ≡ Error.Memory) }
    {
        match self {
            Publish::Flag(flag) => Ok(Value::Boolean(*flag)),
            Publish::Registry(names) => names.to_value(alloc),
        }
    }
}

/// Where to publish is left out where that is everywhere.
impl LeftOut for Publish {
    fn is_left_out(&self) -> bool {
        matches!(self, Publish::Flag(true))
    }
}

impl ToValue for DebugSetting {
    ghost Meaning = { DebugSetting };

    ghost meaning = { λ x. x };

    ghost way = { debug_way };

    fn to_value(&self, _alloc: Global) -> Result<Value, Error>
        ensures written { IsWriting debug_way self.now result }
        ensures read_again { IsReadAgain debug_of self.now result }
        ensures memory { IfErr result (λ e. e ≡ Error.Memory) }
    {
        match self {
            DebugSetting::None => Ok(Value::Boolean(false)),
            DebugSetting::Lines => Ok(Value::Integer(1)),
            DebugSetting::Full => Ok(Value::Boolean(true)),
        }
    }
}

impl ToValue for StripSetting {
    ghost Meaning = { StripSetting };

    ghost meaning = { λ x. x };

    ghost way = { strip_way };

    fn to_value(&self, alloc: Global) -> Result<Value, Error>
        ensures written { IsWriting strip_way self.now result }
        ensures read_again { IsReadAgain strip_of self.now result }
        ensures memory { IfErr result (λ e. e ≡ Error.Memory) }
    {
        match self {
            StripSetting::None => Ok(Value::Boolean(false)),
            StripSetting::Debuginfo => Ok(Value::string(alloc, "debuginfo")?),
            StripSetting::Symbols => Ok(Value::Boolean(true)),
        }
    }
}

impl ToValue for LtoSetting {
    ghost Meaning = { LtoSetting };

    ghost meaning = { λ x. x };

    ghost way = { lto_way };

    fn to_value(&self, alloc: Global) -> Result<Value, Error>
        ensures written { IsWriting lto_way self.now result }
        ensures read_again { IsReadAgain lto_of self.now result }
        ensures memory { IfErr result (λ e. e ≡ Error.Memory) }
    {
        match self {
            LtoSetting::None => Ok(Value::string(alloc, "off")?),
            LtoSetting::ThinLocal => Ok(Value::Boolean(false)),
            LtoSetting::Thin => Ok(Value::string(alloc, "thin")?),
            LtoSetting::Fat => Ok(Value::Boolean(true)),
        }
    }
}
