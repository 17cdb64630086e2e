//! Values of few bits: they are read from one value of a tree, mean themselves and take no memory.
ghost use Rattle.std.specs.Prelude.{◌≡◌, Option};
ghost use Rattle.toml.specs.Data.{Data, as_bool};
ghost use Rattle.toml.specs.View.{view};

use crate::error::Error;
use crate::read::{Read, wrong_shape};
use std::alloc::Global;
use toml::Value;

/// What means itself and takes no memory: a truth value, a small number, or a name of a few.
pub trait Scalar: Drop {
    // which of its values a tree says, if any
    ghost says: { Data → Option Self };

    /// The value that the tree says, if it says one.
    fn said(value: &Value) -> Option<Self>
        ensures { result ≡ says (view value.now) };
}

/// A tree that says no value is of the wrong shape.
impl<T: Scalar> Read for T {
    ghost Meaning = { T };

    ghost meaning = { λ x. x };

    ghost reads = { T.says };

    ghost takes_memory = { ⊥ };

    fn read_owned(_alloc: Global, value: Value) -> Result<T, Error> {
        match T::said(&value) {
            Some(x) => Ok(x),
            None => Err(wrong_shape()),
        }
    }
}

impl Scalar for bool {
    ghost says = { as_bool };

    fn said(value: &Value) -> Option<bool> {
        value.as_bool()
    }
}
