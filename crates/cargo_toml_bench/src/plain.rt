//! Hidden features are removed one after another, by names: a plain body beside the one that
//! resolving uses, to compare with.
ghost use Rattle.std.specs.Prelude.{◌≡◌, ◌∷◌, [], if◌then◌else◌, Bool, IfOk, IsSome, List, OnOk};
ghost use Rattle.std.specs.Prelude.{filter, take, true};
ghost use Rattle.cargo_toml_graph.specs.Reach.{Among, IsOnce};
ghost use Rattle.cargo_toml_graph.specs.Removal.{SameKept, put_each};
ghost use Rattle.cargo_toml_graph.specs.{Action.Text, Admitted.Listed, Graph.Resolution};
ghost use Rattle.cargo_toml_features.specs.Views.{action_at, answer_of, resolution_of, set_has};
ghost use Rattle.cargo_toml_features.specs.Views.{value_at};
ghost use Rattle.cargo_toml_features.specs.{Marks.NamedDetails, Recorded.Entry, Resolved.IsAnswer};
ghost use Rattle.cargo_toml_resolve.specs.Filter.{HasNameFilter, FilterTells};
ghost use Rattle.cargo_toml_resolve.specs.Texts.{texts_now};
ghost use Rattle.cargo_toml_bench.specs.Removing.{AreNames, AreTakenOut, ChangesAll, ChangesAt};
ghost use Rattle.cargo_toml_bench.specs.Removing.{Loses, Redirects, TakesOut, actions_then};
ghost use Rattle.cargo_toml_bench.specs.Removing.{bins_at, is_hidden, passed_on};

use crate::sets::names_in_order;
use cargo_toml::features::Features;
use cargo_toml_features::features::{DepAction, Feature};
use cargo_toml_resolve::filter::is_hidden;
use cargo_toml_resolve::joining::{add_actions, add_all};
use cargo_toml_resolve::passing::first_ten;
use std::alloc::{AllocError, Global};
use std::collections::{BTreeMap, BTreeSet, HashMap};
use std::hash::{BuildHasher, BuildHasherDefault, FoldHasher};

/// Removes the hidden features that the filter doesn't keep from an answer that has all of them.
///
/// It answers as resolving by that filter does, more slowly and in a way that is easy to follow: to
/// compare with. It fails only when out of memory.
pub fn without_hidden<'m, 'd, F: Fn(&str) -> bool>(
    alloc: Global,
    filter: Option<&F>,
    whole: Features<'m, 'd, BuildHasherDefault<FoldHasher>>,
) -> Result<Features<'m, 'd, BuildHasherDefault<FoldHasher>>, AllocError>
    requires { HasNameFilter F.Fn filter }
    ensures { IfOk result (λ a. (listed : Listed) (entries : List Entry) (details : NamedDetails)
        (own : Text → List Text) (keep : Text → Bool) → FilterTells F.Fn filter.entry keep
        → IsAnswer listed entries details own (λ _. true) (answer_of whole.entry)
        → IsAnswer listed entries details own keep (answer_of a)) }
{
    let Features {
        mut features,
        dependencies,
        ..
    } = whole;
    let mut hidden = HashMap::with_hasher(alloc, BuildHasherDefault::new());
    let names = names_in_order(alloc, &features)?;
    let all = names.as_slice();
    let removed = hidden_names(alloc, all, filter)?;
    let gone = removed.as_slice();
    remove_all(alloc, &mut features, &mut hidden, all, gone)?;
    Ok(Features {
        features,
        dependencies,
        removed_hidden_features: !gone.is_empty(),
        hidden_features: hidden,
    })
}

// The names of the features that are removed, in their order: of those that begin with `_` the ones
// that the filter doesn't keep, and without a filter all.
fn hidden_names<'m, F: Fn(&str) -> bool>(
    alloc: Global,
    names: &[&'m str],
    kept_by: Option<&F>,
) -> Result<Vec<&'m str>, AllocError>
    requires { HasNameFilter F.Fn kept_by }
    ensures { IfOk result (λ v. (keep : Text → Bool) → FilterTells F.Fn kept_by.entry keep
        → texts_now v.items ≡ filter (is_hidden keep) (texts_now names.now)) }
{
    let mut hidden = Vec::new(alloc);
    for name in names {
        if is_hidden(kept_by, *name) {
            hidden.push(*name)?;
        }
    }
    Ok(hidden)
}

// Takes features out one after another, in the order of `removed`; `names` has the name of each
// feature, once.
//
// At its turn each leaves to others what it says by then. Those that enable it name what it names
// and act as it acts. Those that it enables are enabled by what enables it. Those that it names are
// required by its first ten binaries, too. What it names itself goes to `hidden`, under its name.
fn remove_all<'m, S: BuildHasher>(
    alloc: Global,
    features: &mut HashMap<&'m str, Feature<'m>, S>,
    hidden: &mut HashMap<&'m str, BTreeSet<&'m str>, S>,
    names: &[&'m str],
    removed: &[&'m str],
) -> Result<(), AllocError>
    ensures { OnOk result ((m : Resolution) (own : Text → List Text)
        → SameKept m (resolution_of features.old)
        → ((f : Text) → IsSome (value_at features.old f) → bins_at features.old f ≡ own f)
        → ((v : Text) → Among (texts_now removed.now) v → IsSome (value_at features.old v))
        → IsOnce (texts_now removed.now) → AreNames features.old (texts_now names.now)
        → AreTakenOut m own (texts_now removed.now) features.old features.new
        hidden.old hidden.new) }
{
    let Some((key, others)) = removed.split_first() else {
        return Ok(());
    };
    remove_one(alloc, features, hidden, names, *key)?;
    remove_all(alloc, features, hidden, names, others)?;
    Ok(())
}

// Takes the feature `key` out; `names` has the name of each feature, once.
fn remove_one<'a, S: BuildHasher>(
    alloc: Global,
    features: &mut HashMap<&'a str, Feature<'a>, S>,
    hidden: &mut HashMap<&'a str, BTreeSet<&'a str>, S>,
    names: &[&'a str],
    key: &'a str,
) -> Result<(), AllocError>
    ensures { OnOk result (IsSome (value_at features.old key.now)
        → AreNames features.old (texts_now names.now)
        → TakesOut key.now features.old features.new
        × Redirects key.now (resolution_of features.old) hidden.old hidden.new) }
{
    if let Some(gone) = features.remove(key) {
        lose_all(alloc, features, names, &gone, key)?;
        hidden.insert(key, into_names(gone))?;
    }
    Ok(())
}

// What the feature that is gone names.
fn into_names<'a>(gone: Feature<'a>) -> BTreeSet<&'a str>
    ensures { result ≡ gone.entry.enables_features }
{
    gone.enables_features
}

// Each feature of these names loses the one that is gone.
fn lose_all<'a, S: BuildHasher>(
    alloc: Global,
    features: &mut HashMap<&'a str, Feature<'a>, S>,
    names: &[&'a str],
    gone: &Feature<'a>,
    key: &'a str,
) -> Result<(), AllocError>
    ensures { OnOk result (IsOnce (texts_now names.now)
        → ChangesAll (Loses gone.now key.now) (texts_now names.now) features.old features.new) }
{
    let Some((name, others)) = names.split_first() else {
        return Ok(());
    };
    lose_at(alloc, features, *name, gone, key)?;
    lose_all(alloc, features, others, gone, key)?;
    Ok(())
}

fn lose_at<'a, S: BuildHasher>(
    alloc: Global,
    features: &mut HashMap<&'a str, Feature<'a>, S>,
    name: &'a str,
    gone: &Feature<'a>,
    key: &'a str,
) -> Result<(), AllocError>
    ensures { OnOk result
        (ChangesAt (Loses gone.now key.now name.now) name.now features.old features.new) }
{
    if let Some(feature) = features.get_mut(name) {
        lose(alloc, feature, name, gone, key)?;
    }
    Ok(())
}

// The feature `name` loses the one that is gone, whose name is `key`.
fn lose<'a>(
    alloc: Global,
    feature: &mut Feature<'a>,
    name: &'a str,
    gone: &Feature<'a>,
    key: &'a str,
) -> Result<(), AllocError>
    ensures { OnOk result (Loses gone.now key.now name.now feature.old feature.new) }
{
    let names = &gone.enables_features;
    let is_parent = gone.enabled_by.contains(name);
    pass_on(is_parent, &mut feature.enables_features, names, key)?;
    pass_actions(alloc, is_parent, &mut feature.enables_deps, gone)?;
    let is_enabled = feature.enabled_by.contains(key);
    pass_on(is_enabled, &mut feature.enabled_by, &gone.enabled_by, key)?;
    let is_named = names.contains(name);
    pass_bins(alloc, is_named, &mut feature.required_by_bins, gone)
}

// If so, the set gains the texts of the feature that is gone, and loses its key.
fn pass_on<'a>(
    is_so: bool,
    texts: &mut BTreeSet<&'a str>,
    gone: &BTreeSet<&'a str>,
    key: &'a str,
) -> Result<(), AllocError>
    ensures { OnOk result ((x : Text) → set_has texts.new x
        ≡ passed_on is_so texts.old gone.now key.now x) }
{
    if is_so {
        add_all(texts, gone)?;
        texts.remove(key);
    }
    Ok(())
}

fn pass_actions<'a>(
    alloc: Global,
    is_so: bool,
    actions: &mut BTreeMap<&'a str, DepAction<'a>>,
    gone: &Feature<'a>,
) -> Result<(), AllocError>
    ensures { OnOk result ((k : Text) → action_at actions.new k
        ≡ actions_then is_so actions.old gone.now.enables_deps k) }
{
    if is_so {
        add_actions(alloc, actions, &gone.enables_deps)?;
    }
    Ok(())
}

fn pass_bins<'a>(
    alloc: Global,
    is_so: bool,
    bins: &mut Vec<&'a str>,
    gone: &Feature<'a>,
) -> Result<(), AllocError>
    ensures { OnOk result (texts_now bins.new.items ≡ (if is_so
        then put_each (texts_now bins.old.items)
        (take 10 (texts_now gone.now.required_by_bins.items))
        else texts_now bins.old.items)) }
{
    if is_so {
        let first = first_ten(alloc, gone.required_by_bins.as_slice())?;
        put_bins(bins, first.as_slice())?;
    }
    Ok(())
}

// The binary is put at the end, unless it is there.
fn put_bin<'m>(own: &mut Vec<&'m str>, bin: &'m str) -> Result<(), AllocError>
    ensures { OnOk result (texts_now own.new.items
        ≡ put_each (texts_now own.old.items) (bin.now ∷ [])) }
{
    if !own.contains(&bin) {
        own.push(bin)?;
    }
    Ok(())
}

#[tactic(auto, using(cargo_toml_resolve::proofs::BinTurns::put_more))]
fn put_bins<'m>(own: &mut Vec<&'m str>, bins: &[&'m str]) -> Result<(), AllocError>
    ensures { OnOk result (texts_now own.new.items
        ≡ put_each (texts_now own.old.items) (texts_now bins.now)) }
{
    for bin in bins {
        put_bin(own, *bin)?;
    }
    Ok(())
}
