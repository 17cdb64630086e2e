//! The addresses of registries.
ghost use Rattle.std.specs.{Prelude.◌≡◌, Prelude.codes, Option.option_copied};
ghost use Rattle.cargo_toml.specs.Dependencies.{dependency_meaning};
ghost use Rattle.cargo_toml.specs.Action.{without_end, without_start};
ghost use Rattle.cargo_toml_tools.specs.Indexed.{address_named, bare, elsewhere, is_same};
ghost use Rattle.cargo_toml_tools.specs.Indexed.{source_of};
ghost use Rattle.cargo_toml_tools.specs.Sections.{names_of};

use cargo_toml::Dependency;

/// The address of the index of crates.io.
pub const CRATES_IO: &str = "https://github.com/rust-lang/crates.io-index";

/// A name of a registry, and the address of its index.
pub type Named<'a> = (&'a str, &'a str);

/// The address of the index that a dependency is looked for in: the one that it states, that of the
/// registry that it names, or else that of crates.io. `None` where the name isn't known.
pub(super) fn source_of<'a>(names: &'a [Named<'a>], dependency: &'a Dependency) -> Option<&'a str>
    ensures { option_copied result
        ≡ source_of (names_of names.now) (dependency_meaning dependency.now) }
{
    let Dependency::Detailed(detail) = dependency else {
        return Some(CRATES_IO);
    };
    match (&detail.registry_index, &detail.registry) {
        (Some(address), _) => Some(address.as_str()),
        (None, Some(name)) => address_named(names, name.as_str()),
        (None, None) => Some(CRATES_IO),
    }
}

/// The address of the index of the registry with this name, where it is known.
pub(super) fn address_named<'a>(names: &'a [Named<'a>], name: &str) -> Option<&'a str>
    ensures { option_copied result ≡ address_named (names_of names.now) name.now }
{
    for known in names {
        if known.0 == name {
            return Some(known.1);
        }
    }
    (name == "crates-io").then_some(CRATES_IO)
}

/// Whether two addresses are of one registry: `sparse+` in front and a last `/` don't count.
pub(super) fn is_same(one: &str, other: &str) -> bool
    ensures { result ≡ is_same one.now other.now }
{
    bare(one) == bare(other)
}

/// An address without `sparse+` in front and a last `/`.
fn bare(address: &str) -> &str
    ensures { result.now ≡ bare address.now }
{
    without_slash(without_sparse(address))
}

fn without_sparse(address: &str) -> &str
    ensures { result.now ≡ without_start (codes "sparse+") address.now }
{
    match address.strip_prefix("sparse+") {
        Some(rest) => rest,
        None => address,
    }
}

fn without_slash(address: &str) -> &str
    ensures { result.now ≡ without_end (codes "/") address.now }
{
    match address.strip_suffix("/") {
        Some(rest) => rest,
        None => address,
    }
}

/// An address, unless it is the registry's own.
pub(super) fn elsewhere<'a>(own: &str, address: Option<&'a str>) -> Option<&'a str>
    ensures { option_copied result ≡ elsewhere own.now (option_copied address.entry) }
{
    address.filter(|address| !is_same(address, own))
}
