//! Laws of the orders of kinds and of targets, of the default kind and of the limit, each as the
//! contract of a function that does nothing. A function that calls it has the law in its proof.
ghost use Rattle.std.specs.Prelude.{◌≡◌};
ghost use Rattle.cargo_toml_features.specs.TargetLaws.{EqualAlike, IsDefaultKind, IsKindEquality};
ghost use Rattle.cargo_toml_features.specs.TargetLaws.{IsKindOrder, IsTargetEquality};
ghost use Rattle.cargo_toml_features.specs.TargetLaws.{IsTargetOrder};
ghost use Rattle.cargo_toml_features.specs.declared.admit.TheConstants.{MAX_ITEMS};

use crate::features::{Kind, TargetKey};

/// Kinds compare as normal, then build, then development dependencies, in agreement with
/// their equality. The default is normal.
pub fn kinds()
    ensures order { IsKindOrder ⟦<Kind as Ord>⟧.cmp }
    ensures equality { IsKindEquality ⟦<Kind as PartialEq>⟧.eq }
    ensures agree { EqualAlike ⟦<Kind as Ord>⟧.cmp ⟦<Kind as PartialEq>⟧.eq }
    ensures default { IsDefaultKind ⟦<Kind as Default>⟧.is_default }
{}

/// Keys of targets compare by kind, then no target before a named one, in agreement with their
/// equality.
pub fn targets<'a>()
    ensures order { IsTargetOrder ⟦<TargetKey<'a> as Ord>⟧.cmp }
    ensures equality { IsTargetEquality ⟦<TargetKey<'a> as PartialEq>⟧.eq }
    ensures agree { EqualAlike ⟦<TargetKey<'a> as Ord>⟧.cmp ⟦<TargetKey<'a> as PartialEq>⟧.eq }
{}

/// Where no other limit is set, 2048 items count.
pub fn limit()
    ensures { MAX_ITEMS ≡ 2048 }
{}
