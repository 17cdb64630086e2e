// What is asked of a dependency, and its detail to be written.
ghost use Rattle.std.specs.Prelude.{◌≡◌, Some, true, false, option_map};
ghost use Rattle.std.specs.Prelude.{IsSomeAnd, IfOk, IfErr, OnErr, OnOk};
ghost use Rattle.std.specs.Borrow.{sem};
ghost use Rattle.cargo_toml_package.specs.Dependencies.{dependency_meaning, detail_meaning};

use super::{Dependency, DependencyDetail};
use cargo_toml_parts::error::Error;
use semver::VersionReq;
use std::alloc::Global;

impl Dependency {
    ghost use Rattle.cargo_toml_package.specs.Dependencies.{is_optional, package_of};
    ghost use Rattle.cargo_toml_package.specs.DependencyAnswers.{is_inherited, detail_at};
    ghost use Rattle.cargo_toml_package.specs.DependencyAnswers.{requirement_at, features_at};
    ghost use Rattle.cargo_toml_package.specs.DependencyAnswers.{git_of, rev_of};
    ghost use Rattle.cargo_toml_package.specs.DependencyAnswers.{is_from_crates_io};
    ghost use Rattle.cargo_toml_package.specs.DependencyAnswers.{made_detailed, RefusesDetail};
    ghost use Rattle.cargo_toml_package.specs.DependencyLending.{LendsDetail};

    /// The detail: none for a mere requirement, and none where it is inherited.
    pub fn detail(&self) -> Option<&DependencyDetail>
        ensures { option_map (λ d. d.now) result ≡ detail_at self.now }
    {
        match self {
            Dependency::Detailed(detail) => Some(detail),
            _ => None,
        }
    }

    // Turns a mere requirement into the detail of that version alone.
    fn make_detailed(&mut self, alloc: Global) -> Result<(), Error>
        ensures made { OnOk result (IsSomeAnd (detail_at self.new)
            (λ d. made_detailed (dependency_meaning self.old) ≡ Some (detail_meaning d))) }
        ensures fault { IfErr result (RefusesDetail self.old) }
        ensures refused_unchanged { OnErr result (self.new ≡ self.old) }
    {
        match self {
            Dependency::Inherited(_) => Err(Error::InheritedUnknownValue),
            Dependency::Detailed(_) => Ok(()),
            Dependency::Simple(req) => {
                let mut detail = Box::new(alloc, DependencyDetail::default(alloc))?;
                detail.version = Some(std::mem::replace(req, VersionReq::star(alloc)));
                *self = Dependency::Detailed(detail);
                Ok(())
            }
        }
    }

    /// The detail, to be written, of a dependency that must not be inherited: ask `try_detail_mut`
    /// where that isn't known. A mere requirement is turned into a detail with that version, the
    /// default features on, and nothing else.
    ///
    /// Refused by `Memory` alone, and only where it was a mere requirement, which it then stays.
    pub fn detail_mut(&mut self, alloc: Global) -> Result<&mut DependencyDetail, Error>
        requires { is_inherited self.old ≡ false }
        ensures* writes_back { sem 𝓛 (LendsDetail self.entry result) }
        ensures value { IfOk result
            (λ d. made_detailed (dependency_meaning self.old) ≡ Some (detail_meaning d.now)) }
        ensures fault { IfErr result (RefusesDetail self.old) }
    {
        self.try_detail_mut(alloc)
    }

    /// The detail, to be written. A mere requirement is turned into a detail with that version, the
    /// default features on, and nothing else.
    ///
    /// Refused by `InheritedUnknownValue` exactly where it is inherited, and by `Memory` only where
    /// it was a mere requirement. A refusal leaves the dependency unchanged.
    pub fn try_detail_mut(&mut self, alloc: Global) -> Result<&mut DependencyDetail, Error>
        ensures* writes_back { sem 𝓛 (LendsDetail self.entry result) }
        ensures value { IfOk result
            (λ d. made_detailed (dependency_meaning self.old) ≡ Some (detail_meaning d.now)) }
        ensures fault { IfErr result (RefusesDetail self.old) }
    {
        self.make_detailed(alloc)?;
        match self {
            Dependency::Detailed(detail) => Ok(&mut **detail),
            _ => unreachable!(),
        }
    }

    /// The requirement on the version, of a dependency that must not be inherited: ask `try_req`
    /// where that isn't known. None means any version.
    pub fn req(&self) -> Option<&VersionReq>
        requires { is_inherited self.now ≡ false }
        ensures { option_map (λ r. r.now) result ≡ requirement_at self.now }
    {
        match self {
            Dependency::Simple(req) => Some(req),
            Dependency::Inherited(_) => None,
            Dependency::Detailed(detail) => detail.version.as_ref(),
        }
    }

    /// The requirement on the version; none means any version. Refused by `InheritedUnknownValue`
    /// exactly where the dependency is inherited.
    pub fn try_req(&self) -> Result<Option<&VersionReq>, Error>
        ensures value { IfOk result (λ o. option_map (λ r. r.now) o ≡ requirement_at self.now) }
        ensures known { OnOk result (is_inherited self.now ≡ false) }
        ensures fault { IfErr result (λ e. e ≡ Error.InheritedUnknownValue) }
        ensures only_inherited { OnErr result (is_inherited self.now ≡ true) }
    {
        if let Dependency::Inherited(_) = self {
            return Err(Error::InheritedUnknownValue);
        }
        Ok(self.req())
    }

    /// The features that are asked for beside the default ones: none for a mere requirement, and
    /// for an inherited dependency those that its own entry adds, without the workspace's.
    pub fn req_features(&self) -> &[String]
        ensures { result.now ≡ features_at self.now }
    {
        match self {
            Dependency::Simple(_) => &[],
            Dependency::Inherited(detail) => detail.features.as_slice(),
            Dependency::Detailed(detail) => detail.features.as_slice(),
        }
    }

    /// Whether the dependency is optional: what its table says, and false for a mere requirement.
    pub fn optional(&self) -> bool
        ensures { result ≡ is_optional (dependency_meaning self.now) }
    {
        match self {
            Dependency::Simple(_) => false,
            Dependency::Inherited(detail) => detail.optional,
            Dependency::Detailed(detail) => detail.optional,
        }
    }

    /// The name of the dependency's crate where a detail says it by the key `package`. `None` where
    /// the dependency's own key is that name, and where it is inherited: the workspace may name it.
    pub fn package(&self) -> Option<&str>
        ensures { option_map (λ t. t.now) result ≡ package_of (dependency_meaning self.now) }
    {
        self.detail()?.package.as_deref()
    }

    /// The address of the repository that a detail names by the key `git`; `None` without a detail,
    /// or where it names none.
    pub fn git(&self) -> Option<&str>
        ensures { option_map (λ t. t.now) result ≡ git_of (dependency_meaning self.now) }
    {
        self.detail()?.git.as_deref()
    }

    /// The revision that a detail names by the key `rev`; `None` without a detail, or where it
    /// names none.
    pub fn git_rev(&self) -> Option<&str>
        ensures { option_map (λ t. t.now) result ≡ rev_of (dependency_meaning self.now) }
    {
        self.detail()?.rev.as_deref()
    }

    /// Whether the dependency, which must not be inherited, comes from crates.io: so does a mere
    /// requirement, and a detail that names no path, no registry by name or index, and no
    /// repository, tag, branch or revision.
    pub fn is_crates_io(&self) -> bool
        requires { is_inherited self.now ≡ false }
        ensures { result ≡ is_from_crates_io (dependency_meaning self.now) }
    {
        match self {
            Dependency::Simple(_) => true,
            Dependency::Inherited(_) => false,
            Dependency::Detailed(detail) => detail.is_from_crates_io(),
        }
    }
}

impl DependencyDetail {
    ghost use Rattle.cargo_toml_package.specs.DependencyAnswers.{names_no_source};

    /// Whether nothing says that the crate comes from elsewhere than crates.io.
    pub(crate) fn is_from_crates_io(&self) -> bool
        ensures { result ≡ names_no_source (detail_meaning self.now) }
    {
        self.path.is_none()
            && self.registry.is_none()
            && self.registry_index.is_none()
            && self.git.is_none()
            && self.tag.is_none()
            && self.branch.is_none()
            && self.rev.is_none()
    }
}
