//! Methods of a feature, about itself and its enablers, and of a dependency, about its first
//! target.
ghost use Rattle.std.specs.Prelude.{◌≡◌, ◌<◌, ◌⊎◌, ◌↔◌, IsTrue, IsFalse, List, Option, Some};
ghost use Rattle.std.specs.{Prelude.nat_eq, Prelude.codes, Borrow.Bor, List.starts_with};
ghost use Rattle.std.specs.{List.Sorted.IsStrictlySortedBy, BTreeSet.btree_set_len};
ghost use Rattle.std.specs.{Cmp.Lexicographic.slice_cmp, Ordering.nat_cmp, Iterator.YieldsFirst};
ghost use Rattle.std.specs.Iterator.{item_count};
ghost use Rattle.cargo_toml_package.specs.Dependencies.{dependency_meaning};
ghost use Rattle.cargo_toml_graph.specs.Action.{Text};
ghost use Rattle.cargo_toml_features.specs.FirstTarget.{HasTarget, IsFirst};
ghost use Rattle.cargo_toml_features.specs.{NonDefault.without_default, Recorded.Entry};
ghost use Rattle.cargo_toml_features.specs.Recorded.{Target, first_target, recorded_of};
ghost use Rattle.cargo_toml_features.specs.{Resolved.SameRecorded, Views.recorded_in};

use crate::features::{Feature, FeatureDependency, Kind};
use cargo_toml_package::Dependency;
use std::collections::btree_set;
use std::marker::Model;

/// The names of the features that enable a feature, in byte order, except `default`.
#[derive(Debug, Drop)]
pub struct NonDefaultEnabledBy<'f, 'a> {
    names: btree_set::Iter<'f, &'a str>,
}

impl<'f, 'a> Model for NonDefaultEnabledBy<'f, 'a> {
    ghost Value = { List (Bor Text) };

    ghost view = { λ n. without_default n.names };
}

impl<'f, 'a> Iterator for NonDefaultEnabledBy<'f, 'a> {
    type Item = &'a str;

    ghost next_gives = { YieldsFirst (λ n. n) };

    ghost remaining = { item_count (λ n. n) };

    fn next(&mut self) -> Option<&'a str> {
        self.names.find(|name| **name != "default").copied()
    }
}

impl<'a> Feature<'a> {
    /// Whether some feature enables this one, directly or through removed ones alone.
    pub fn is_referenced(&self) -> bool
        ensures { IsTrue result ↔ (0 < btree_set_len self.now.enabled_by) }
    {
        !self.enabled_by.is_empty()
    }

    /// Whether users are meant to ask for this feature: it is public, its name doesn't begin with
    /// `_`, and the manifest lists it or no feature enables it.
    pub fn is_user_facing(&self) -> bool
        ensures { IsTrue result
            ↔ ((IsTrue self.now.explicit ⊎ (btree_set_len self.now.enabled_by ≡ 0))
            × IsFalse (starts_with nat_eq self.now.key.now (codes "_")) × IsTrue self.now.public) }
    {
        (self.explicit || !self.is_referenced()) && !self.key.starts_with('_') && self.public
    }

    /// The names of the features that enable this one, directly or through removed ones alone, in
    /// byte order and except `default`.
    pub fn non_default_enabled_by(&self) -> NonDefaultEnabledBy<'_, 'a>
        ensures names { result ≡ without_default self.now.enabled_by.keys }
        ensures in_order { IsStrictlySortedBy (λ x y. slice_cmp nat_cmp x.now y.now) result }
    {
        NonDefaultEnabledBy {
            names: self.enabled_by.iter(),
        }
    }
}

impl<'d> FeatureDependency<'d> {
    /// The dependency of the first target: of those of the least kind the one for no platform, else
    /// the one for the first platform in byte order.
    ///
    /// There must be a target, as each dependency that a resolver answers has one.
    pub fn dep(&self) -> &'d Dependency
        requires { HasTarget self.now }
        ensures first { (t : Target) × IsFirst (recorded_in self.now) t
            (dependency_meaning result.now) }
        ensures recorded { (es : List Entry)
            → SameRecorded (Some (recorded_in self.now)) (recorded_of es)
            → Some (dependency_meaning result.now) ≡ first_target es }
    {
        self.detail().0
    }

    /// The same, with the kind of that target. There must be one.
    pub fn detail(&self) -> (&'d Dependency, Kind)
        requires { HasTarget self.now }
        ensures first { (name : Option Text)
            × IsFirst (recorded_in self.now) (result.1, name) (dependency_meaning result.0.now) }
        ensures recorded { (es : List Entry)
            → SameRecorded (Some (recorded_in self.now)) (recorded_of es)
            → Some (dependency_meaning result.0.now) ≡ first_target es }
    {
        match self.targets.first_key_value() {
            Some((target, dependency)) => (*dependency, target.kind),
            None => unreachable!(),
        }
    }
}
