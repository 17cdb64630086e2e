//! Texts of a list, as sets.
ghost use Rattle.std.specs.Prelude.{◌≡◌, ◌<◌, IfOk, bytes_eq, map, nat_eq};
ghost use Rattle.std.specs.{BTreeSet.contains_text, List.list_any, List.slice_split};
ghost use Rattle.cargo_toml.specs.Action.{Text};

use cargo_toml_lint::AllocResult;
use std::alloc::Global;
use std::collections::BTreeSet;

/// The texts that each of these characters ends, and what stands behind the last.
pub(crate) fn ended_by(alloc: Global, text: &str, end: char) -> AllocResult<Vec<&str>>
    requires { end < 128 }
    ensures { IfOk result (λ v. map (λ t. t.now) v.items
        ≡ slice_split (λ b. nat_eq b end) text.now) }
{
    text.split(end).collect(alloc)
}

/// The set of these texts.
pub(crate) fn set_of(alloc: Global, texts: &[&str]) -> AllocResult<BTreeSet<String>>
    ensures { IfOk result (λ set. (text : Text)
        → contains_text set text ≡ list_any (bytes_eq text) (map (λ t. t.now) texts.now)) }
{
    let mut set = BTreeSet::new(alloc);
    for text in texts {
        set.insert(String::from_str(alloc, *text)?)?;
    }
    Ok(set)
}
