//! Metadata of a caller's own, for `package.metadata` and `workspace.metadata`: who may rely on a
//! package.
ghost use Rattle.std.specs.Prelude.{◌≡◌, IfErr, IfOk};
ghost use Rattle.toml.specs.View.{view};
ghost use Rattle.cargo_toml.specs.Manifests.{held};
ghost use Rattle.cargo_toml_bench.specs.Audiences.{AudienceRefuses, IsAudienceOf, IsOwnText};
ghost use Rattle.cargo_toml_bench.specs.Audiences.{IsRewrittenOwn, Refuses, RefusesRewriting};
ghost use Rattle.cargo_toml_bench.specs.Audiences.{audience_in, audience_reads, audience_way};
ghost use Rattle.cargo_toml_bench.specs.declared.audience.Audience.{Audience};

use cargo_toml::{Error, FromValue, Manifest, ToValue, Value};
use std::alloc::Global;

/// Who may rely on a package.
#[derive(Clone, Copy, Debug, PartialEq, Eq)]
pub enum Audience {
    /// The text `everyone`.
    Everyone,
    /// The text `team`.
    Team,
    /// It isn't settled yet. No text stands for it, so it is never read, and can't be written.
    Undecided,
}

/// Any other tree is refused as `unknown audience`.
impl FromValue for Audience {
    ghost Meaning = { Audience };

    ghost meaning = { λ x. x };

    ghost from_tree = { audience_reads };

    ghost from_refuses = { AudienceRefuses };

    fn from_value(_alloc: Global, value: Value) -> Result<Audience, Error> {
        match value.as_str() {
            Some("everyone") => Ok(Audience::Everyone),
            Some("team") => Ok(Audience::Team),
            _ => Err(Error::Other("unknown audience")),
        }
    }
}

/// What isn't settled is refused as `undecided audience`.
impl ToValue for Audience {
    ghost Meaning = { Audience };

    ghost meaning = { λ x. x };

    ghost way = { audience_way };

    fn to_value(&self, alloc: Global) -> Result<Value, Error> {
        match self {
            Audience::Everyone => Ok(Value::string(alloc, "everyone")?),
            Audience::Team => Ok(Value::string(alloc, "team")?),
            Audience::Undecided => Err(Error::Other("undecided audience")),
        }
    }
}

/// Who may rely on the package of the manifest that the bytes spell; `None` where there is no
/// package, or its metadata don't say.
///
/// Refuses as [`Manifest::from_slice_with_metadata`] does: among others with the fault of metadata
/// that are no audience.
pub fn audience_of(alloc: Global, bytes: &[u8]) -> Result<Option<Audience>, Error>
    ensures answer { IfOk result (IsAudienceOf bytes.now) }
    ensures refused { IfErr result (Refuses bytes.now) }
{
    let manifest = read(alloc, bytes)?;
    Ok(package_audience(&manifest))
}

// The manifest that the bytes spell.
fn read(alloc: Global, bytes: &[u8]) -> Result<Manifest<Audience>, Error>
    ensures spelled { IfOk result (λ m. IsOwnText bytes.now (held m)) }
    ensures refused { IfErr result (Refuses bytes.now) }
{
    Manifest::from_slice_with_metadata(alloc, bytes)
}

// The audience that the metadata of a manifest's package say.
fn package_audience(manifest: &Manifest<Audience>) -> Option<Audience>
    ensures { result ≡ audience_in (held manifest.now) }
{
    match &manifest.package {
        Some(package) => package.metadata,
        None => None,
    }
}

/// A tree of the manifest that these bytes spell: what was read is written again. Metadata that
/// can't be written are refused with their own fault.
pub fn rewrite(alloc: Global, bytes: &[u8]) -> Result<Value, Error>
    ensures answer { IfOk result (λ v. IsRewrittenOwn bytes.now (view v)) }
    ensures refused { IfErr result (RefusesRewriting bytes.now) }
{
    let manifest = read(alloc, bytes)?;
    manifest.to_value(alloc)
}
