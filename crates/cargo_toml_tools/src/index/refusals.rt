//! What an index refuses.
ghost use Rattle.std.specs.Prelude.{◌≡◌, IfOk, Some, map, option_map, string_bytes};
ghost use Rattle.std.specs.Option.{option_copied};
ghost use Rattle.std.specs.{Char.is_ascii_digit, List.list_all, List.list_any};
ghost use Rattle.semver.specs.Identifiers.{parts_of};
ghost use Rattle.toml.specs.View.{table_view, view};
ghost use Rattle.cargo_toml.specs.{Dependencies.dependency_meaning, Inherits.inheritable_map};
ghost use Rattle.cargo_toml.specs.{Packages.held_package, Settings.publish_meaning};
ghost use Rattle.cargo_toml_tools.specs.Indexed.{are_numbers, entry_refusal, finding_refusal};
ghost use Rattle.cargo_toml_tools.specs.Indexed.{first_refusal, folder_of, folder_refusal};
ghost use Rattle.cargo_toml_tools.specs.Indexed.{has_other_flag};
ghost use Rattle.cargo_toml_tools.specs.Indexed.{in_package, is_artifact, is_named, is_number};
ghost use Rattle.cargo_toml_tools.specs.Indexed.{is_2024, is_left_out, is_open, keeps};
ghost use Rattle.cargo_toml_tools.specs.Indexed.{naming_refusal};
ghost use Rattle.cargo_toml_tools.specs.Indexed.{package_refusal, publish_refusal, rust_refusal};
ghost use Rattle.cargo_toml_tools.specs.Indexed.{is_padded, is_u64};
ghost use Rattle.cargo_toml_tools.specs.Indexed.{table_refusal, target_refusal, turns_off};
ghost use Rattle.cargo_toml_tools.specs.Indexed.{version_refusal};
ghost use Rattle.cargo_toml_tools.specs.declared.index.refusals.Fault.TheVariants.{OtherCrate};
ghost use Rattle.cargo_toml_tools.specs.Sections.{names_of, refused, table_of, wanted_of};

use super::Options;
use super::entry::has_default;
use super::platform::is_target;
use super::registries::{CRATES_IO, address_named, elsewhere, is_same, source_of};
use super::sections::{Section, flag_in, table_in};
use crate::requirement::required_version;
use cargo_toml::features::Kind;
use cargo_toml::{Dependency, Edition, Inheritable, Package, Publish, SemVer};
use cargo_toml_lint::{AllocResult, Finding, Level, is_package_name};
use cargo_toml_parts::read::member;
use std::alloc::Global;
use toml::{Table, Value};

/// What an index doesn't take.
#[derive(Debug, Clone, Copy, PartialEq, Eq)]
pub enum Fault {
    /// The manifest has no package.
    NoPackage,
    /// Cargo doesn't take the package's name.
    BadName,
    /// The package states no version.
    NoVersion,
    /// The folder is another crate's than the manifest says.
    OtherCrate,
    /// What has this key is left to the workspace: the manifest isn't completed.
    Incomplete,
    /// Cargo doesn't take the target of this name.
    BadTarget,
    /// The table of this name, which has `_` for `-`, isn't read.
    OtherTable,
    /// The dependency of this key has `default_features`, which isn't read.
    OtherFlag,
    /// The dependency of this key has `artifact`, `lib` or `target`, which stable Cargo refuses.
    Artifact,
    /// The dependency of this key turns off its workspace's default features, in edition 2024.
    TurnsOff,
    /// The dependency of this key has no version.
    NoRequirement,
    /// The dependency of this key names its registry, whose index has no known address.
    NoAddress,
    /// The dependency of this key is of another registry, which crates.io doesn't take.
    OtherRegistry,
    /// The package's `rust-version` isn't one to three numbers of 64 bits, with dots between and no
    /// zeros in front.
    OddRust,
    /// The package isn't published in the registry.
    NotPublished,
    /// Lint finds an error of the feature, dependency or target of this name.
    Features,
}

/// A fault, and the key or the name that has it.
pub(super) type Refusal<'a> = (Fault, &'a str);
/// The options, and whether the package is of edition 2024.
type Terms<'a> = (Options<'a>, bool);

/// The refusal of the name of a package, which was read from this document, or of its version.
pub(super) fn naming_refusal<M>(package: &Package<M>, document: &Table) -> Option<Refusal<'static>>
    ensures { option_map refused result
        ≡ naming_refusal (table_view document.now) (held_package «package».now) }
{
    if !is_package_name(package.name.as_str()) {
        return Some((Fault::BadName, ""));
    }
    version_refusal(&package.version, document)
}

/// The name of the folder, and that of the folder that the package's own archive unpacks to, where
/// these differ.
pub(super) fn other_crate<M>(
    alloc: Global,
    package: &Package<M>,
    folder: Option<&str>,
) -> AllocResult<Option<String>>
    ensures { IfOk result (λ names. option_map (λ t. (OtherCrate, string_bytes t)) names
        ≡ folder_refusal (option_copied folder.entry) (folder_of (held_package «package».now))) }
{
    let Some(folder) = folder else {
        return Ok(None);
    };
    match folder_of(alloc, package)? {
        Some(own) => differing(alloc, folder, own.as_str()),
        None => Ok(None),
    }
}

/// The name of the folder that a package's archive unpacks to.
fn folder_of<M>(alloc: Global, package: &Package<M>) -> AllocResult<Option<String>>
    ensures { IfOk result (λ own. option_map string_bytes own
        ≡ folder_of (held_package «package».now)) }
{
    let Inheritable::Set(version) = &package.version else {
        return Ok(None);
    };
    let name = package.name.as_str();
    Ok(Some(format!(in alloc; "{name}-{version}")?))
}

/// Two names of folders, where they differ.
fn differing(alloc: Global, folder: &str, own: &str) -> AllocResult<Option<String>>
    ensures { IfOk result (λ names. option_map (λ t. (OtherCrate, string_bytes t)) names
        ≡ folder_refusal (Some folder.now) (Some own.now)) }
{
    if folder == own {
        return Ok(None);
    }
    Ok(Some(format!(in alloc; "{folder}, {own}")?))
}

/// The first refusal of a package that is well named, which was read from this document, and of its
/// tables of dependencies. `findings` is what lint finds of its features.
pub(super) fn package_refusal<'a, M>(
    package: &'a Package<M>,
    document: &'a Table,
    sections: &'a [Section<'a>],
    findings: &'a [Finding<'a>],
    options: Options<'a>,
) -> Option<Refusal<'a>>
    ensures { option_map refused result ≡ package_refusal (wanted_of options.entry)
        findings.now (table_view document.now) (map table_of sections.now)
        (held_package «package».now) }
{
    let terms = (options, is_2024(&package.edition));
    if let Some(refusal) = tables_refusal(terms, sections) {
        return Some(refusal);
    }
    if let Some(refusal) = rust_refusal(&package.rust_version) {
        return Some(refusal);
    }
    if options.force {
        return None;
    }
    publish_refusal(options, document, &package.publish).or(features_refusal(findings))
}

/// A manifest without a version reads as of version 0.0.0.
fn version_refusal(version: &Inheritable<SemVer>, document: &Table) -> Option<Refusal<'static>>
    ensures { option_map refused result ≡ version_refusal (table_view document.now)
        (inheritable_map parts_of version.now) }
{
    let Inheritable::Set(version) = version else {
        return Some((Fault::Incomplete, "version"));
    };
    let is_missing = version.major == 0
        && version.minor == 0
        && version.patch == 0
        && version.pre.is_empty()
        && version.build.is_empty()
        && in_package(document, "version").is_none();
    is_missing.then_some((Fault::NoVersion, ""))
}

/// What the table `package` has under a key.
fn in_package<'a>(document: &'a Table, key: &str) -> Option<&'a Value>
    ensures { option_map (λ v. view v.now) result ≡ in_package key.now (table_view document.now) }
{
    member(table_in(document, "package")?, key)
}

/// A `rust-version` may be left to the workspace, or of another form.
fn rust_refusal(text: &Option<Inheritable<String>>) -> Option<Refusal<'_>>
    ensures { option_map refused result
        ≡ rust_refusal (option_map (inheritable_map string_bytes) text.now) }
{
    match text {
        None => None,
        Some(Inheritable::Inherited) => Some((Fault::Incomplete, "rust-version")),
        Some(Inheritable::Set(text)) => {
            let text = text.as_str();
            (!are_numbers(text)).then_some((Fault::OddRust, text))
        }
    }
}

/// Whether a text is one to three numbers, with dots between.
fn are_numbers(text: &str) -> bool
    ensures { result ≡ are_numbers text.now }
{
    let are_few = text.split('.').nth(3).is_none();
    are_few & text.split('.').all(is_number)
}

/// Whether a text is a number of 64 bits: decimal digits, with no zero in front of another.
fn is_number(text: &str) -> bool
    ensures { result ≡ is_number text.now }
{
    !is_padded(text.as_bytes()) && is_u64(text)
}

/// Whether a zero stands in front of another byte.
fn is_padded(digits: &[u8]) -> bool
    ensures { result ≡ is_padded digits.now }
{
    digits.len() > 1 && digits[0] == b'0'
}

fn is_u64(text: &str) -> bool
    ensures { result ≡ is_u64 text.now }
{
    are_digits(text.as_bytes()) && text.parse::<u64>().is_ok()
}

fn are_digits(bytes: &[u8]) -> bool
    ensures { result ≡ list_all is_ascii_digit bytes.now }
{
    bytes.iter().all(|byte| byte.is_ascii_digit())
}

/// Whether a package is of edition 2024.
fn is_2024(edition: &Inheritable<Edition>) -> bool
    ensures { result ≡ is_2024 (inheritable_map (λ x. x) edition.now) }
{
    matches!(edition, Inheritable::Set(Edition::E2024))
}

/// The first refusal of these tables.
fn tables_refusal<'a>(terms: Terms<'a>, sections: &'a [Section<'a>]) -> Option<Refusal<'a>>
    ensures { option_map refused result ≡ first_refusal
        (table_refusal (wanted_of terms.entry.0) terms.entry.1) (map table_of sections.now) }
{
    for section in sections {
        if let Some(refusal) = table_refusal(terms, section) {
            return Some(refusal);
        }
    }
    None
}

fn table_refusal<'a>(terms: Terms<'a>, section: &'a Section<'a>) -> Option<Refusal<'a>>
    ensures { option_map refused result
        ≡ table_refusal (wanted_of terms.entry.0) terms.entry.1 (table_of section.now) }
{
    if let Some(refusal) = target_refusal(section.target) {
        return Some(refusal);
    }
    if let Some(name) = section.other_name {
        return Some((Fault::OtherTable, name));
    }
    for (key, dependency) in section.entries {
        if let Some(refusal) = entry_refusal(terms, section, key.as_str(), dependency) {
            return Some(refusal);
        }
    }
    None
}

/// The refusal of the name of a target.
fn target_refusal(target: Option<&str>) -> Option<Refusal<'_>>
    ensures { option_map refused result ≡ target_refusal (option_copied target.entry) }
{
    match target {
        Some(name) if !is_target(name) => Some((Fault::BadTarget, name)),
        _ => None,
    }
}

/// The refusal of a dependency.
fn entry_refusal<'a>(
    terms: Terms<'a>,
    section: &Section<'a>,
    key: &'a str,
    dependency: &'a Dependency,
) -> Option<Refusal<'a>>
    ensures { option_map refused result
        ≡ entry_refusal (wanted_of terms.entry.0) terms.entry.1 (table_of section.now)
        (key.now, dependency_meaning dependency.now) }
{
    if matches!(dependency, Dependency::Inherited(_)) {
        Some((Fault::Incomplete, key))
    } else if has_other_flag(section, key, dependency) {
        Some((Fault::OtherFlag, key))
    } else if is_artifact(dependency) {
        Some((Fault::Artifact, key))
    } else if terms.1 && turns_off(section, key, dependency) {
        Some((Fault::TurnsOff, key))
    } else if is_left_out(section.kind, dependency) {
        None
    } else if required_version(dependency).is_none() {
        Some((Fault::NoRequirement, key))
    } else {
        let source = source_of(terms.0.names, dependency);
        if source.is_none() {
            Some((Fault::NoAddress, key))
        } else {
            let is_public = is_same(terms.0.registry, CRATES_IO);
            let is_other = is_public && elsewhere(CRATES_IO, source).is_some();
            is_other.then_some((Fault::OtherRegistry, key))
        }
    }
}

/// Whether an entry turns off the default features that its workspace asks for.
fn turns_off(section: &Section<'_>, key: &str, dependency: &Dependency) -> bool
    ensures { result ≡ turns_off (table_of section.now).written key.now
        (dependency_meaning dependency.now) }
{
    let flag = flag_in(section, key, "default-features");
    has_default(section, key, dependency) & !flag.and_then(Value::as_bool).unwrap_or(true)
}

/// Whether an entry, or what it inherits, has `default_features`.
fn has_other_flag(section: &Section<'_>, key: &str, dependency: &Dependency) -> bool
    ensures { result ≡ has_other_flag (table_of section.now).written key.now
        (dependency_meaning dependency.now) }
{
    flag_in(section, key, "default_features").is_some() || keeps(dependency, "default_features")
}

/// Whether a dependency has a key of those on artifacts.
fn is_artifact(dependency: &Dependency) -> bool
    ensures { result ≡ is_artifact (dependency_meaning dependency.now) }
{
    keeps(dependency, "artifact") || keeps(dependency, "lib") || keeps(dependency, "target")
}

/// Whether a dependency, or what it inherits, has this key, which the library doesn't read.
fn keeps(dependency: &Dependency, key: &str) -> bool
    ensures { result ≡ keeps key.now (dependency_meaning dependency.now) }
{
    match dependency {
        Dependency::Detailed(detail) => detail.unstable.contains_key(key),
        _ => false,
    }
}

/// Whether a dependency is for tests and has a path or a repository, and no version.
fn is_left_out(kind: Kind, dependency: &Dependency) -> bool
    ensures { result ≡ is_left_out kind (dependency_meaning dependency.now) }
{
    match (kind, dependency) {
        (Kind::Dev, Dependency::Detailed(detail)) => {
            detail.version.is_none() && (detail.path.is_some() || detail.git.is_some())
        }
        _ => false,
    }
}

/// The refusal of a package that isn't published in the registry.
fn publish_refusal(
    options: Options<'_>,
    document: &Table,
    publish: &Inheritable<Publish>,
) -> Option<Refusal<'static>>
    ensures { option_map refused result ≡ publish_refusal (wanted_of options.entry)
        (table_view document.now) (inheritable_map publish_meaning publish.now) }
{
    let Inheritable::Set(publish) = publish else {
        return Some((Fault::Incomplete, "publish"));
    };
    let is_published = match publish {
        Publish::Flag(everywhere) => *everywhere || is_open(document),
        Publish::Registry(names) => names_registry(options, names.as_slice()),
    };
    (!is_published).then_some((Fault::NotPublished, ""))
}

/// Whether nothing is written of publishing, or that it is wanted. A package of version 0.0.0 reads
/// as not published all the same.
fn is_open(document: &Table) -> bool
    ensures { result ≡ is_open (table_view document.now) }
{
    in_package(document, "publish").is_none_or(|flag| flag.as_bool().unwrap_or(false))
}

/// Whether one of these names is that of the registry.
fn names_registry(options: Options<'_>, names: &[String]) -> bool
    ensures { result ≡ list_any (is_named options.entry.registry.now
        (names_of options.entry.names.now)) (map string_bytes names.now) }
{
    for name in names {
        if let Some(address) = address_named(options.names, name.as_str()) {
            if is_same(address, options.registry) {
                return true;
            }
        }
    }
    false
}

/// The first error of features.
fn features_refusal<'a>(findings: &'a [Finding<'a>]) -> Option<Refusal<'a>>
    ensures { option_map refused result ≡ first_refusal finding_refusal findings.now }
{
    for finding in findings {
        if matches!(finding.code.level(), Level::Error) {
            return Some((Fault::Features, finding.feature));
        }
    }
    None
}
