//! What a workspace gives to its packages: the template of their fields, and what a package takes
//! of it, first made, then put in, so that a refusal changes nothing.
ghost use Rattle.std.specs.Prelude.{◌≡◌, IfOk, Some, None, false, map, option_map};
ghost use Rattle.std.specs.Option.{option_copied};
ghost use Rattle.toml.specs.Data.{no_members};
ghost use Rattle.toml.specs.View.{table_view};
ghost use Rattle.cargo_toml_parts.specs.Answers.{Gives};
ghost use Rattle.cargo_toml_parts.specs.Faults.{IsShape, wrong_shape};
ghost use Rattle.cargo_toml_parts.specs.Inherits.{inheritable_map};
ghost use Rattle.cargo_toml_parts.specs.Reads.{IsReading};
ghost use Rattle.cargo_toml_package.specs.Inheriting.{IsFilled, any_field_left, checked_package};
ghost use Rattle.cargo_toml_package.specs.Inheriting.{inherited_package, field_is_left};
ghost use Rattle.cargo_toml_package.specs.Inheriting.{is_left_there, installed_package};
ghost use Rattle.cargo_toml_package.specs.Inheriting.{leavable_rows};
ghost use Rattle.cargo_toml_package.specs.Inheriting.{put_field, put_if_there};
ghost use Rattle.cargo_toml_package.specs.Inheriting.{with_template, with_template_if_there};
ghost use Rattle.cargo_toml_package.specs.Packages.{held_package};
ghost use Rattle.cargo_toml_package.specs.Templates.{TemplateMeaning, template_meaning};
ghost use Rattle.cargo_toml_package.specs.Templates.{template_of, template_reads};

mod filling;

use crate::package::Package;
use cargo_toml_parts::copying::Copying;
use cargo_toml_parts::read::{Read, into_table};
use cargo_toml_parts::reading::{Reading, ended};
use cargo_toml_parts::{Edition, Error, Inheritable, OptionalFile, Publish};
use filling::Filling;
use semver::Version;
use std::alloc::{AllocError, Global};
use toml::{Table, Value};

/// The table `[workspace.package]`: the values of the package fields that members leave
/// to their workspace.
///
/// Paths in it are relative to the workspace. Where a field's name has `_`, its key has `-`. A key
/// that is missing gives `None`, unless another value is named at the field; keys that are not
/// listed here are ignored.
#[derive(Debug, PartialEq, Eq, Drop)]
pub struct PackageTemplate {
    /// Who wrote the packages.
    pub authors: Option<Vec<String>>,

    /// The registry's categories that the packages belong to.
    pub categories: Option<Vec<String>>,

    /// What the packages are for, in a few words.
    pub description: Option<String>,

    /// The address of the documentation.
    pub documentation: Option<String>,

    /// The edition of the language.
    pub edition: Option<Edition>,

    /// Patterns of files that are left out of what is published.
    pub exclude: Option<Vec<String>>,

    /// The address of the project's page.
    pub homepage: Option<String>,

    /// Patterns of the only files that are published.
    pub include: Option<Vec<String>>,

    /// Words to find the packages by.
    pub keywords: Option<Vec<String>>,

    /// The licence, as an expression of names.
    pub license: Option<String>,

    /// The path of a file that holds the licence.
    pub license_file: Option<String>,

    /// Where the packages may be published. Missing: `Flag(true)`, everywhere.
    pub publish: Publish,

    /// The readme file. Missing: `Flag(true)`, one of the usual name if there is any.
    pub readme: OptionalFile,

    /// The address of the source's repository.
    pub repository: Option<String>,

    /// The oldest compiler that the packages promise to build with, as a text that
    /// need not be a version.
    pub rust_version: Option<String>,

    /// The version, by the rules of semantic versioning.
    pub version: Option<Version>,
}

/// A clone of each field. It fails only when out of memory.
impl Clone for PackageTemplate {
    ghost is_clone = { λ p copy.
        ⟦<Option<Vec<String>> as Clone>⟧.is_clone p.authors copy.authors
        × ⟦<Option<Vec<String>> as Clone>⟧.is_clone p.categories copy.categories
        × ⟦<Option<String> as Clone>⟧.is_clone p.description copy.description
        × ⟦<Option<String> as Clone>⟧.is_clone p.documentation copy.documentation
        × ⟦<Option<Edition> as Clone>⟧.is_clone p.edition copy.edition
        × ⟦<Option<Vec<String>> as Clone>⟧.is_clone p.exclude copy.exclude
        × ⟦<Option<String> as Clone>⟧.is_clone p.homepage copy.homepage
        × ⟦<Option<Vec<String>> as Clone>⟧.is_clone p.include copy.include
        × ⟦<Option<Vec<String>> as Clone>⟧.is_clone p.keywords copy.keywords
        × ⟦<Option<String> as Clone>⟧.is_clone p.license copy.license
        × ⟦<Option<String> as Clone>⟧.is_clone p.license_file copy.license_file
        × ⟦<Publish as Clone>⟧.is_clone p.publish copy.publish
        × ⟦<OptionalFile as Clone>⟧.is_clone p.readme copy.readme
        × ⟦<Option<String> as Clone>⟧.is_clone p.repository copy.repository
        × ⟦<Option<String> as Clone>⟧.is_clone p.rust_version copy.rust_version
        × ⟦<Option<Version> as Clone>⟧.is_clone p.version copy.version };

    ghost is_infallible = { λ p.
        ⟦<Option<Vec<String>> as Clone>⟧.is_infallible p.authors
        × ⟦<Option<Vec<String>> as Clone>⟧.is_infallible p.categories
        × ⟦<Option<String> as Clone>⟧.is_infallible p.description
        × ⟦<Option<String> as Clone>⟧.is_infallible p.documentation
        × ⟦<Option<Edition> as Clone>⟧.is_infallible p.edition
        × ⟦<Option<Vec<String>> as Clone>⟧.is_infallible p.exclude
        × ⟦<Option<String> as Clone>⟧.is_infallible p.homepage
        × ⟦<Option<Vec<String>> as Clone>⟧.is_infallible p.include
        × ⟦<Option<Vec<String>> as Clone>⟧.is_infallible p.keywords
        × ⟦<Option<String> as Clone>⟧.is_infallible p.license
        × ⟦<Option<String> as Clone>⟧.is_infallible p.license_file
        × ⟦<Publish as Clone>⟧.is_infallible p.publish
        × ⟦<OptionalFile as Clone>⟧.is_infallible p.readme
        × ⟦<Option<String> as Clone>⟧.is_infallible p.repository
        × ⟦<Option<String> as Clone>⟧.is_infallible p.rust_version
        × ⟦<Option<Version> as Clone>⟧.is_infallible p.version };

    fn clone(&self) -> Result<PackageTemplate, AllocError> {
        let mut copying = Copying::new();
        let copy = PackageTemplate {
            authors: copying.of(&self.authors, None),
            categories: copying.of(&self.categories, None),
            description: copying.of(&self.description, None),
            documentation: copying.of(&self.documentation, None),
            edition: copying.of(&self.edition, None),
            exclude: copying.of(&self.exclude, None),
            homepage: copying.of(&self.homepage, None),
            include: copying.of(&self.include, None),
            keywords: copying.of(&self.keywords, None),
            license: copying.of(&self.license, None),
            license_file: copying.of(&self.license_file, None),
            publish: copying.of(&self.publish, Publish::Flag(true)),
            readme: copying.of(&self.readme, OptionalFile::Flag(true)),
            repository: copying.of(&self.repository, None),
            rust_version: copying.of(&self.rust_version, None),
            version: copying.of(&self.version, None),
        };
        copying.finish(copy)
    }
}

/// The template of an empty table: `publish` and `readme` are `Flag(true)`, and the rest is `None`.
impl Default for PackageTemplate {
    ghost is_default = { λ template. template_of no_members ≡ Some (template_meaning template) };

    fn default() -> PackageTemplate {
        PackageTemplate {
            authors: None,
            categories: None,
            description: None,
            documentation: None,
            edition: None,
            exclude: None,
            homepage: None,
            include: None,
            keywords: None,
            license: None,
            license_file: None,
            publish: Publish::Flag(true),
            readme: OptionalFile::Flag(true),
            repository: None,
            rust_version: None,
            version: None,
        }
    }
}

fn read_table(alloc: Global, table: Table) -> Result<PackageTemplate, Error>
    ensures { IsReading template_meaning (template_of (table_view table)) (IsShape wrong_shape)
        result }
{
    let mut rest = table;
    let mut reading = Reading::new(alloc);
    let mut whole = PackageTemplate::default();
    reading.take_optional(&mut rest, "authors", &mut whole.authors);
    reading.take_optional(&mut rest, "categories", &mut whole.categories);
    reading.take_optional(&mut rest, "description", &mut whole.description);
    reading.take_optional(&mut rest, "documentation", &mut whole.documentation);
    reading.take_optional(&mut rest, "edition", &mut whole.edition);
    reading.take_optional(&mut rest, "exclude", &mut whole.exclude);
    reading.take_optional(&mut rest, "homepage", &mut whole.homepage);
    reading.take_optional(&mut rest, "include", &mut whole.include);
    reading.take_optional(&mut rest, "keywords", &mut whole.keywords);
    reading.take_optional(&mut rest, "license", &mut whole.license);
    reading.take_optional(&mut rest, "license-file", &mut whole.license_file);
    reading.take(&mut rest, "publish", &mut whole.publish);
    reading.take(&mut rest, "readme", &mut whole.readme);
    reading.take_optional(&mut rest, "repository", &mut whole.repository);
    reading.take_optional(&mut rest, "rust-version", &mut whole.rust_version);
    reading.take_optional(&mut rest, "version", &mut whole.version);
    ended(reading.fault, whole)
}

impl Read for PackageTemplate {
    ghost Meaning = { TemplateMeaning };

    ghost meaning = { template_meaning };

    ghost reads = { template_reads };

    #[tactic(auto, unfolding(crate::specs::Templates::template_reads))]
    fn read_owned(alloc: Global, value: Value) -> Result<PackageTemplate, Error> {
        read_table(alloc, into_table(value)?)
    }
}

/// The values that a package takes from its workspace: `None` where it keeps its own, or
/// has no such field. By default a package takes none.
#[derive(Default, Drop)]
pub struct NewFields {
    /// In place of the version.
    pub version: Option<Version>,

    /// In place of the edition.
    pub edition: Option<Edition>,

    /// In place of the oldest compiler that is promised.
    pub rust_version: Option<String>,

    /// In place of the authors.
    pub authors: Option<Vec<String>>,

    /// In place of what the package is for.
    pub description: Option<String>,

    /// In place of the address of the project's page.
    pub homepage: Option<String>,

    /// In place of the address of the documentation.
    pub documentation: Option<String>,

    /// In place of the readme file; a path is joined to the workspace's folder.
    pub readme: Option<OptionalFile>,

    /// In place of the words to find the package by.
    pub keywords: Option<Vec<String>>,

    /// In place of the categories.
    pub categories: Option<Vec<String>>,

    /// In place of the patterns of files that are left out.
    pub exclude: Option<Vec<String>>,

    /// In place of the patterns of the only files that are published.
    pub include: Option<Vec<String>>,

    /// In place of the licence.
    pub license: Option<String>,

    /// In place of the licence's file; its path is joined to the workspace's folder.
    pub license_file: Option<String>,

    /// In place of the address of the source's repository.
    pub repository: Option<String>,

    /// In place of where the package may be published.
    pub publish: Option<Publish>,
}

// What a package takes from a template, joined to the workspace's folder where it is a path.
fn fields_from<M>(
    alloc: Global,
    package: &Package<M>,
    template: &PackageTemplate,
    base: &str,
) -> Result<NewFields, AllocError>
    ensures { IfOk result (λ n. installed_package (held_package «package».now) n
        ≡ with_template base.now (template_meaning template.now)
        (held_package «package».now)) }
{
    let mut filling = Filling::new(alloc);
    let new = NewFields {
        version: filling.optional(&package.version, &template.version),
        edition: filling.optional(&package.edition, &template.edition),
        rust_version: filling.if_there(&package.rust_version, &template.rust_version),
        authors: filling.optional(&package.authors, &template.authors),
        description: filling.if_there(&package.description, &template.description),
        homepage: filling.if_there(&package.homepage, &template.homepage),
        documentation: filling.if_there(&package.documentation, &template.documentation),
        readme: filling.file(&package.readme, base, &template.readme),
        keywords: filling.optional(&package.keywords, &template.keywords),
        categories: filling.optional(&package.categories, &template.categories),
        exclude: filling.optional(&package.exclude, &template.exclude),
        include: filling.optional(&package.include, &template.include),
        license: filling.if_there(&package.license, &template.license),
        license_file: filling.path_if_there(&package.license_file, base, &template.license_file),
        repository: filling.if_there(&package.repository, &template.repository),
        publish: filling.given(&package.publish, &template.publish),
    };
    filling.finish(new)
}

/// Puts in a new value, if there is one. It takes no memory.
pub fn put<T: Read>(field: &mut Inheritable<T>, value: Option<T>)
    ensures { inheritable_map T.meaning field.new
        ≡ put_field (inheritable_map T.meaning field.old) (option_map T.meaning value) }
{
    if let Some(value) = value {
        *field = Inheritable::Set(value);
    }
}

// The same of a field that may not be there.
fn put_if_there<T: Read>(field: &mut Option<Inheritable<T>>, value: Option<T>)
    ensures { option_map (inheritable_map T.meaning) field.new
        ≡ put_if_there (option_map (inheritable_map T.meaning) field.old)
        (option_map T.meaning value) }
{
    if let Some(field) = field {
        put(field, value);
    }
}

/// Puts these values in place of the package's own. Its other fields stay, and its metadata are not
/// touched. It takes no memory.
pub fn install<M: Drop>(package: &mut Package<M>, new: NewFields)
    ensures { held_package «package».new
        ≡ installed_package (held_package «package».old) new }
{
    put(&mut package.version, new.version);
    put(&mut package.edition, new.edition);
    put_if_there(&mut package.rust_version, new.rust_version);
    put(&mut package.authors, new.authors);
    put_if_there(&mut package.description, new.description);
    put_if_there(&mut package.homepage, new.homepage);
    put_if_there(&mut package.documentation, new.documentation);
    put(&mut package.readme, new.readme);
    put(&mut package.keywords, new.keywords);
    put(&mut package.categories, new.categories);
    put(&mut package.exclude, new.exclude);
    put(&mut package.include, new.include);
    put_if_there(&mut package.license, new.license);
    put_if_there(&mut package.license_file, new.license_file);
    put_if_there(&mut package.repository, new.repository);
    put(&mut package.publish, new.publish);
}

// Whether a field is left to the workspace once this value is put in.
fn stays<T: Read>(field: &Inheritable<T>, value: &Option<T>) -> bool
    ensures { result ≡ field_is_left (put_field (inheritable_map T.meaning field.now)
        (option_map T.meaning value.now)) }
{
    !field.is_set() && value.is_none()
}

// The same of a field that may not be there.
fn stays_there<T: Read>(field: &Option<Inheritable<T>>, value: &Option<T>) -> bool
    ensures { result
        ≡ is_left_there (put_if_there (option_map (inheritable_map T.meaning) field.now)
        (option_map T.meaning value.now)) }
{
    match field {
        Some(field) => stays(field, value),
        None => false,
    }
}

// Whether some field is left to the workspace once these values are put in.
fn any_stays<M>(package: &Package<M>, new: &NewFields) -> bool
    ensures { result ≡ any_field_left (installed_package (held_package «package».now) new.now) }
{
    stays(&package.version, &new.version)
        || stays(&package.edition, &new.edition)
        || stays(&package.authors, &new.authors)
        || stays(&package.categories, &new.categories)
        || stays(&package.exclude, &new.exclude)
        || stays(&package.include, &new.include)
        || stays(&package.keywords, &new.keywords)
        || stays(&package.publish, &new.publish)
        || stays(&package.readme, &new.readme)
        || stays_there(&package.description, &new.description)
        || stays_there(&package.documentation, &new.documentation)
        || stays_there(&package.homepage, &new.homepage)
        || stays_there(&package.license, &new.license)
        || stays_there(&package.license_file, &new.license_file)
        || stays_there(&package.repository, &new.repository)
        || stays_there(&package.rust_version, &new.rust_version)
}

/// Whether some field is left to the workspace. Where none is, each getter of the
/// package may be called.
pub fn any_field_inherited<M>(package: &Package<M>) -> bool
    ensures exact { result ≡ any_field_left (held_package «package».now) }
    ensures else_filled { result ≡ false → IsFilled «package».now }
{
    any_stays(package, &NewFields::default())
}

/// A row for each key that a package may leave to its workspace: the key, and whether it is left.
pub type LeavableRows = [(&'static str, bool); 16];

/// The keys that a package may leave to its workspace, each with whether it does.
pub fn leavable_rows<M>(package: &Package<M>) -> LeavableRows
    ensures { map (λ r. (r.0.now, r.1)) result ≡ leavable_rows (held_package «package».now) }
{
    [
        ("version", stays(&package.version, &None)),
        ("edition", stays(&package.edition, &None)),
        ("authors", stays(&package.authors, &None)),
        ("categories", stays(&package.categories, &None)),
        ("exclude", stays(&package.exclude, &None)),
        ("include", stays(&package.include, &None)),
        ("keywords", stays(&package.keywords, &None)),
        ("publish", stays(&package.publish, &None)),
        ("readme", stays(&package.readme, &None)),
        ("description", stays_there(&package.description, &None)),
        ("documentation", stays_there(&package.documentation, &None)),
        ("homepage", stays_there(&package.homepage, &None)),
        ("license", stays_there(&package.license, &None)),
        ("license-file", stays_there(&package.license_file, &None)),
        ("repository", stays_there(&package.repository, &None)),
        ("rust-version", stays_there(&package.rust_version, &None)),
    ]
}

// What a package takes from a template, if there is one.
fn fields_for<M>(
    alloc: Global,
    package: &Package<M>,
    template: Option<&PackageTemplate>,
    base: &str,
) -> Result<NewFields, AllocError>
    ensures { IfOk result (λ n. installed_package (held_package «package».now) n
        ≡ with_template_if_there base.now (option_map template_meaning
        (option_copied template.entry)) (held_package «package».now)) }
{
    match template {
        Some(template) => fields_from(alloc, package, template, base),
        None => Ok(NewFields::default()),
    }
}

// Refuses where some field would still be left to the workspace.
fn check_none_stays<M>(alloc: Global, package: &Package<M>, new: &NewFields) -> Result<(), Error>
    ensures { Gives (λ _. installed_package (held_package «package».now) new.now) result
        (checked_package (installed_package (held_package «package».now) new.now)) }
{
    if any_stays(package, new) {
        let name = package.name.as_str();
        let text = format!(in alloc;
            "not all fields of `{name}` have been present in workspace.package"
        )?;
        return Err(Error::WorkspaceIntegrity(text));
    }
    Ok(())
}

/// What a package takes from the template of its workspace, where there is one. A path of the
/// workspace is joined to `base`, the workspace's folder.
///
/// Refused by `WorkspaceIntegrity`, which holds the package's name, where a field would still be
/// left to the workspace, and by `Memory`. The package is only read: [`install`] changes it.
pub fn new_fields<M>(
    alloc: Global,
    package: &Package<M>,
    template: Option<&PackageTemplate>,
    base: &str,
) -> Result<NewFields, Error>
    ensures { Gives (λ n. installed_package (held_package «package».now) n) result
        (inherited_package (option_map template_meaning (option_copied template.entry)) base.now
        (held_package «package».now)) }
{
    let new = fields_for(alloc, package, template, base)?;
    check_none_stays(alloc, package, &new).and(Ok(new))
}
