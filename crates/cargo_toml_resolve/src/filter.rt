//! Which names of features are hidden and removed.
ghost use Rattle.std.specs.Prelude.{◌≡◌, ◌&&◌, Bool, codes, nat_eq, not};
ghost use Rattle.std.specs.{Fn.FnReturnsAt, List.starts_with};
ghost use Rattle.cargo_toml_graph.specs.Action.{Text};
ghost use Rattle.cargo_toml_resolve.specs.Filter.{Answers, HasNameFilter, IsFlagOf, IsNameFilter};
ghost use Rattle.cargo_toml_resolve.specs.Filter.{FilterTells};

// What the filter answers of a name.
fn answer<F: Fn(&str) -> bool>(filter: &F, name: &str) -> bool
    requires { IsNameFilter F.Fn filter.now }
    ensures { FnReturnsAt F.Fn filter.now name.now result }
{
    filter(name)
}

// Whether the filter keeps a name; without a filter none is kept.
fn is_kept<F: Fn(&str) -> bool>(filter: Option<&F>, name: &str) -> bool
    requires { HasNameFilter F.Fn filter }
    ensures answered { Answers F.Fn filter.entry name.now result }
    ensures told { (keep : Text → Bool) → FilterTells F.Fn filter.entry keep
        → result ≡ keep name.now }
{
    match filter {
        Some(filter) => answer(filter, name),
        None => false,
    }
}

/// Whether a feature of this name is removed. The filter is asked only for names
/// that begin with `_`.
pub fn is_hidden<F: Fn(&str) -> bool>(filter: Option<&F>, name: &str) -> bool
    requires { HasNameFilter F.Fn filter }
    ensures flag { IsFlagOf F.Fn filter.entry name.now result }
    ensures told { (keep : Text → Bool) → FilterTells F.Fn filter.entry keep
        → result ≡ (starts_with nat_eq name.now (codes "_") && not (keep name.now)) }
{
    name.starts_with('_') && !is_kept(filter, name)
}
