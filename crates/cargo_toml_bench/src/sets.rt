//! The names of features in byte order.
ghost use Rattle.std.specs.Prelude.{◌≡◌, IfOk, is_some};
ghost use Rattle.cargo_toml_graph.specs.{Action.Text, Ascending.Ascend, Removal.lists_text};
ghost use Rattle.cargo_toml_features.specs.Views.{value_at};
ghost use Rattle.cargo_toml_resolve.specs.Texts.{texts_now};

use cargo_toml_features::texts::keys_in_order;
use std::alloc::{AllocError, Global};
use std::collections::HashMap;
use std::hash::BuildHasher;

// The keys of a map, each once.
pub(crate) fn names_in_order<'m, X, S: BuildHasher>(
    alloc: Global,
    found: &HashMap<&'m str, X, S>,
) -> Result<Vec<&'m str>, AllocError>
    ensures all { IfOk result (λ v. (f : Text)
        → lists_text (texts_now v.items) f ≡ is_some (value_at found.now f)) }
    ensures ascending { IfOk result (λ v. Ascend (texts_now v.items)) }
{
    let keys = keys_in_order(alloc, found)?;
    keys.iter().copied().collect(alloc)
}
