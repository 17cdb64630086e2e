//! Sets of texts.
ghost use Rattle.std.specs.Prelude.{◌≡◌, ◌++◌, ◌&&◌, ◌||◌, [], ◌∷◌, ℕ, IfOk, List, OnOk, bytes_eq};
ghost use Rattle.std.specs.Prelude.{if◌then◌else◌, map, string_bytes};
ghost use Rattle.std.specs.BTreeSet.{contains_text};
ghost use Rattle.cargo_toml_audit.specs.{MemberFolders.picked, Places.is_in};

use cargo_toml_lint::AllocResult;
use std::alloc::Global;
use std::collections::BTreeSet;

/// Puts a text into a set, where `is_one` is set.
pub fn note(alloc: Global, set: &mut BTreeSet<String>, text: &str, is_one: bool) -> AllocResult<()>
    ensures { OnOk result ((t : List ℕ) → contains_text set.new t
        ≡ (contains_text set.old t || (is_one && bytes_eq text.now t))) }
{
    if !is_one {
        return Ok(());
    }
    set.insert(String::from_str(alloc, text)?)?;
    Ok(())
}

/// The texts as a set.
pub fn set_of(alloc: Global, texts: &[String]) -> AllocResult<BTreeSet<String>>
    ensures { IfOk result
        (λ set. (t : List ℕ) → contains_text set t ≡ is_in (map string_bytes texts.now) t) }
{
    let mut set = BTreeSet::new(alloc);
    for text in texts {
        note(alloc, &mut set, text.as_str(), true)?;
    }
    Ok(set)
}

/// Each text of a list once; or, where `again` is set, those that stand there a further time.
pub fn picked(alloc: Global, texts: &[String], again: bool) -> AllocResult<Vec<String>>
    ensures { IfOk result
        (λ all. map string_bytes all.items ≡ picked again [] (map string_bytes texts.now)) }
{
    let mut seen = BTreeSet::new(alloc);
    let mut all = Vec::new(alloc);
    for text in texts {
        let text = text.as_str();
        push_if(&mut all, text, seen.contains(text) == again)?;
        note(alloc, &mut seen, text, true)?;
    }
    Ok(all)
}

/// Adds a text to a list, where `holds` is set.
pub fn push_if(all: &mut Vec<String>, text: &str, holds: bool) -> AllocResult<()>
    ensures { OnOk result (map string_bytes all.new.items
        ≡ map string_bytes all.old.items ++ (if holds then text.now ∷ [] else [])) }
{
    if holds {
        all.push(String::from_str(*all.allocator(), text)?)?;
    }
    Ok(())
}
