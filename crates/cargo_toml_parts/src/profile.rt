//! Profiles: how Cargo compiles.
ghost use Rattle.std.specs.Prelude.{◌≡◌, Some, option_and_then};
ghost use Rattle.toml.specs.Data.{as_table, no_members};
ghost use Rattle.toml.specs.View.{table_view};
ghost use Rattle.cargo_toml_parts.specs.Profiles.{ProfileMeaning, profile_meaning, profile_of};
ghost use Rattle.cargo_toml_parts.specs.Profiles.{profile_reads, ProfileFaults, ProfileRefuses};
ghost use Rattle.cargo_toml_parts.specs.Profiles.{ProfilesMeaning, profiles_meaning, profiles_of};
ghost use Rattle.cargo_toml_parts.specs.Profiles.{ProfilesFaults};
ghost use Rattle.cargo_toml_parts.specs.Reads.{IsReading, TableRefuses};

use crate::copying::Copying;
use crate::error::Error;
use crate::read::{Read, into_table};
use crate::reading::{Reading, ended};
use crate::{DebugSetting, LtoSetting, StripSetting};
use std::alloc::{AllocError, Global};
use std::collections::BTreeMap;
use toml::{Table, Value};

/// The table `profile`: the profiles that Cargo knows, and those of other names.
#[derive(Debug, PartialEq, Drop)]
pub struct Profiles {
    /// The table `release`, used by `cargo build --release`.
    pub release: Option<Profile>,
    /// The table `dev`, used by `cargo build`.
    pub dev: Option<Profile>,
    /// The table `test`, used by `cargo test`.
    pub test: Option<Profile>,
    /// The table `bench`, used by `cargo bench`.
    pub bench: Option<Profile>,
    /// The table `doc`, which Cargo passes over today: `cargo doc` uses `dev`.
    pub doc: Option<Profile>,
    /// The profiles of other names, by name.
    pub custom: BTreeMap<String, Profile>,
}

/// A clone of each field. It fails only when out of memory.
impl Clone for Profiles {
    ghost is_clone = { λ p copy.
        ⟦<BTreeMap<String, Profile> as Clone>⟧.is_clone p.custom copy.custom
        × (⟦<Option<Profile> as Clone>⟧.is_clone p.release copy.release
        × (⟦<Option<Profile> as Clone>⟧.is_clone p.dev copy.dev
        × (⟦<Option<Profile> as Clone>⟧.is_clone p.test copy.test
        × (⟦<Option<Profile> as Clone>⟧.is_clone p.bench copy.bench
        × (⟦<Option<Profile> as Clone>⟧.is_clone p.doc copy.doc))))) };

    ghost is_infallible = { λ p.
        ⟦<BTreeMap<String, Profile> as Clone>⟧.is_infallible p.custom
        × (⟦<Option<Profile> as Clone>⟧.is_infallible p.release
        × (⟦<Option<Profile> as Clone>⟧.is_infallible p.dev
        × (⟦<Option<Profile> as Clone>⟧.is_infallible p.test
        × (⟦<Option<Profile> as Clone>⟧.is_infallible p.bench
        × (⟦<Option<Profile> as Clone>⟧.is_infallible p.doc))))) };

    fn clone(&self) -> Result<Profiles, AllocError> {
        let custom = self.custom.clone()?;
        let mut copying = Copying::new();
        let copy = Profiles {
            release: copying.of(&self.release, None),
            dev: copying.of(&self.dev, None),
            test: copying.of(&self.test, None),
            bench: copying.of(&self.bench, None),
            doc: copying.of(&self.doc, None),
            custom,
        };
        copying.finish(copy)
    }
}

/// How Cargo compiles in one case. A key that is missing gives `None`, and `package` an empty map.
/// Cargo then goes by the profile that this one inherits from, or by its own defaults.
#[derive(Debug, PartialEq, Drop)]
pub struct Profile {
    /// How much to optimize, any value: the key `opt-level`.
    pub opt_level: Option<Value>,
    /// How much debug information to write: the key `debug`.
    pub debug: Option<DebugSetting>,
    /// Where the debug information goes: the key `split-debuginfo`.
    pub split_debuginfo: Option<String>,
    /// Whether binaries name the folders of their libraries: the key `rpath`.
    pub rpath: Option<bool>,
    /// How the linker optimizes: the key `lto`.
    pub lto: Option<LtoSetting>,
    /// Whether `debug_assert` is checked: the key `debug-assertions`.
    pub debug_assertions: Option<bool>,
    /// Into how many parts a crate is cut, from 0 to 65535: the key `codegen-units`.
    pub codegen_units: Option<u16>,
    /// What a panic does: the key `panic`.
    pub panic: Option<String>,
    /// Whether crates are compiled again in part only: the key `incremental`.
    pub incremental: Option<bool>,
    /// Whether overflow is checked: the key `overflow-checks`.
    pub overflow_checks: Option<bool>,
    /// What is stripped from a binary: the key `strip`.
    pub strip: Option<StripSetting>,
    /// What is done otherwise for some packages, any value for each: the table `package`.
    pub package: BTreeMap<String, Value>,
    /// What is done otherwise for build scripts, any value: the key `build-override`.
    pub build_override: Option<Value>,
    /// The name of the profile that this one begins with: the key `inherits`.
    pub inherits: Option<String>,
}

/// A clone of each field. It fails only when out of memory.
impl Clone for Profile {
    ghost is_clone = { λ p copy.
        ⟦<BTreeMap<String, Value> as Clone>⟧.is_clone p.«package» copy.«package»
        × (⟦<Option<Value> as Clone>⟧.is_clone p.opt_level copy.opt_level
        × (⟦<Option<DebugSetting> as Clone>⟧.is_clone p.debug copy.debug
        × (⟦<Option<String> as Clone>⟧.is_clone p.split_debuginfo copy.split_debuginfo
        × (⟦<Option<bool> as Clone>⟧.is_clone p.rpath copy.rpath
        × (⟦<Option<LtoSetting> as Clone>⟧.is_clone p.lto copy.lto
        × (⟦<Option<bool> as Clone>⟧.is_clone p.debug_assertions copy.debug_assertions
        × (⟦<Option<u16> as Clone>⟧.is_clone p.codegen_units copy.codegen_units
        × (⟦<Option<String> as Clone>⟧.is_clone p.panic copy.panic
        × (⟦<Option<bool> as Clone>⟧.is_clone p.incremental copy.incremental
        × (⟦<Option<bool> as Clone>⟧.is_clone p.overflow_checks copy.overflow_checks
        × (⟦<Option<StripSetting> as Clone>⟧.is_clone p.strip copy.strip
        × (⟦<Option<Value> as Clone>⟧.is_clone p.build_override copy.build_override
        × (⟦<Option<String> as Clone>⟧.is_clone p.inherits copy.inherits))))))))))))) };

    ghost is_infallible = { λ p.
        ⟦<BTreeMap<String, Value> as Clone>⟧.is_infallible p.«package»
        × (⟦<Option<Value> as Clone>⟧.is_infallible p.opt_level
        × (⟦<Option<DebugSetting> as Clone>⟧.is_infallible p.debug
        × (⟦<Option<String> as Clone>⟧.is_infallible p.split_debuginfo
        × (⟦<Option<bool> as Clone>⟧.is_infallible p.rpath
        × (⟦<Option<LtoSetting> as Clone>⟧.is_infallible p.lto
        × (⟦<Option<bool> as Clone>⟧.is_infallible p.debug_assertions
        × (⟦<Option<u16> as Clone>⟧.is_infallible p.codegen_units
        × (⟦<Option<String> as Clone>⟧.is_infallible p.panic
        × (⟦<Option<bool> as Clone>⟧.is_infallible p.incremental
        × (⟦<Option<bool> as Clone>⟧.is_infallible p.overflow_checks
        × (⟦<Option<StripSetting> as Clone>⟧.is_infallible p.strip
        × (⟦<Option<Value> as Clone>⟧.is_infallible p.build_override
        × (⟦<Option<String> as Clone>⟧.is_infallible p.inherits))))))))))))) };

    fn clone(&self) -> Result<Profile, AllocError> {
        let package = self.package.clone()?;
        let mut copying = Copying::new();
        let copy = Profile {
            opt_level: copying.of(&self.opt_level, None),
            debug: copying.of(&self.debug, None),
            split_debuginfo: copying.of(&self.split_debuginfo, None),
            rpath: copying.of(&self.rpath, None),
            lto: copying.of(&self.lto, None),
            debug_assertions: copying.of(&self.debug_assertions, None),
            codegen_units: copying.of(&self.codegen_units, None),
            panic: copying.of(&self.panic, None),
            incremental: copying.of(&self.incremental, None),
            overflow_checks: copying.of(&self.overflow_checks, None),
            strip: copying.of(&self.strip, None),
            package,
            build_override: copying.of(&self.build_override, None),
            inherits: copying.of(&self.inherits, None),
        };
        copying.finish(copy)
    }
}

impl Profile {
    /// A profile without any key. It takes no memory.
    pub fn default(alloc: Global) -> Profile
        ensures { profile_of no_members ≡ Some (profile_meaning result) }
    {
        Profile {
            opt_level: None,
            debug: None,
            split_debuginfo: None,
            rpath: None,
            lto: None,
            debug_assertions: None,
            codegen_units: None,
            panic: None,
            incremental: None,
            overflow_checks: None,
            strip: None,
            package: BTreeMap::new(alloc),
            build_override: None,
            inherits: None,
        }
    }
}

impl Profiles {
    /// No profile at all. It takes no memory.
    pub fn default(alloc: Global) -> Profiles
        ensures { profiles_of no_members ≡ Some (profiles_meaning result) }
    {
        Profiles {
            release: None,
            dev: None,
            test: None,
            bench: None,
            doc: None,
            custom: BTreeMap::new(alloc),
        }
    }
}

fn read_profile(alloc: Global, table: Table) -> Result<Profile, Error>
    ensures { IsReading profile_meaning (profile_of (table_view table))
        (ProfileFaults (table_view table)) result }
{
    let mut rest = table;
    let mut reading = Reading::new(alloc);
    let mut whole = Profile::default(alloc);
    reading.take_optional(&mut rest, "opt-level", &mut whole.opt_level);
    reading.take_optional(&mut rest, "debug", &mut whole.debug);
    reading.take_optional(&mut rest, "split-debuginfo", &mut whole.split_debuginfo);
    reading.take_optional(&mut rest, "panic", &mut whole.panic);
    reading.take_optional(&mut rest, "inherits", &mut whole.inherits);
    reading.take_optional(&mut rest, "rpath", &mut whole.rpath);
    reading.take_optional(&mut rest, "debug-assertions", &mut whole.debug_assertions);
    reading.take_optional(&mut rest, "incremental", &mut whole.incremental);
    reading.take_optional(&mut rest, "overflow-checks", &mut whole.overflow_checks);
    reading.take_optional(&mut rest, "lto", &mut whole.lto);
    reading.take_optional(&mut rest, "codegen-units", &mut whole.codegen_units);
    reading.take_optional(&mut rest, "strip", &mut whole.strip);
    reading.take(&mut rest, "package", &mut whole.package);
    reading.take_optional(&mut rest, "build-override", &mut whole.build_override);
    ended(reading.fault, whole)
}

impl Read for Profile {
    ghost Meaning = { ProfileMeaning };

    ghost meaning = { profile_meaning };

    ghost reads = { profile_reads };

    ghost refuses = { ProfileRefuses };

    fn read_owned(alloc: Global, value: Value) -> Result<Profile, Error> {
        read_profile(alloc, into_table(value)?)
    }
}

fn read_profiles(alloc: Global, table: Table) -> Result<Profiles, Error>
    ensures { IsReading profiles_meaning (profiles_of (table_view table))
        (ProfilesFaults (table_view table)) result }
{
    let mut rest = table;
    let mut reading = Reading::new(alloc);
    let mut whole = Profiles::default(alloc);
    reading.take_optional(&mut rest, "release", &mut whole.release);
    reading.take_optional(&mut rest, "dev", &mut whole.dev);
    reading.take_optional(&mut rest, "test", &mut whole.test);
    reading.take_optional(&mut rest, "bench", &mut whole.bench);
    reading.take_optional(&mut rest, "doc", &mut whole.doc);
    // All known keys were taken out of it.
    let custom = BTreeMap::read_owned(alloc, Value::Table(rest));
    whole.custom = reading.keep(custom, BTreeMap::new(alloc));
    ended(reading.fault, whole)
}

impl Read for Profiles {
    ghost Meaning = { ProfilesMeaning };

    ghost meaning = { profiles_meaning };

    ghost reads = { λ d. option_and_then profiles_of (as_table d) };

    ghost refuses = { λ d e. TableRefuses ProfilesFaults (as_table d) e };

    fn read_owned(alloc: Global, value: Value) -> Result<Profiles, Error> {
        read_profiles(alloc, into_table(value)?)
    }
}
