//! Writers of trees, of which the writers of all types are made.
ghost use Rattle.std.specs.Prelude.{◌≡◌, OnOk, IfErr};
ghost use Rattle.toml.specs.View.{view, table_view};
ghost use Rattle.cargo_toml_parts.specs.declared.error.Error.{Error};
ghost use Rattle.cargo_toml_write.specs.Writes.{Way, IsWriting, put_member};

pub mod collections;
pub mod dependency;
pub mod manifest;
pub mod package;
pub mod plain;
pub mod requirement;
pub mod tables;
pub mod writing;

use cargo_toml_parts::Error;
use std::alloc::Global;
use toml::{Table, Value};

/// What can be written to a value of TOML. Each type of a manifest is. The type of its metadata has
/// to be; a manifest and a package ask `FromValue` of that type, too.
///
/// For proofs alone, a type says what its values mean, and the way in which that is written:
///
/// - which trees a value is written to;
/// - with which faults a value that has no tree may be refused;
/// - what is asked of a value so that it has a tree.
///
/// A way is lawful: a value that is as asked is refused with `Memory` alone, and no other has a
/// tree. No tree holds a float, so that no reader refuses one for that.
pub trait ToValue {
    // what its values mean: the type of meanings
    ghost Meaning: { Type 0 };

    // what a value means
    ghost meaning: { Self → Meaning };

    // how a meaning is written: its trees, and its faults where it has none
    ghost way: { Way Meaning };

    /// A tree of the value. A value that has none is refused with a fault of its own, and any value
    /// may be refused as [`Error::Memory`], out of memory.
    ///
    /// Of the types of a manifest two kinds of values have no tree. One in which a free value holds
    /// a float is refused as [`Error::Other`] with the text `floats are not supported`. One whose
    /// metadata, of a caller's own type, have no tree is refused with the fault of that type, as it
    /// is. Where a value is of both kinds, either fault is reported.
    fn to_value(&self, alloc: Global) -> Result<Value, Error>
        ensures { IsWriting way (meaning self.now) result };
}

/// What is left out of a table where it is what a missing key stands for.
pub trait LeftOut: ToValue {
    /// Whether the value is what a missing key stands for.
    fn is_left_out(&self) -> bool
        ensures { result ≡ Self.way.left_out (Self.meaning self.now) };
}

/// Puts a value at a key, in place of one that stood there, which is dropped. Other keys stay. It
/// fails only when out of memory; no clause says what it then leaves.
pub fn put(table: &mut Table, alloc: Global, key: &str, value: Value) -> Result<(), Error>
    ensures ok { OnOk result (table_view table.new
        ≡ put_member key.now (view value) (table_view table.old)) }
    ensures memory { IfErr result (λ e. e ≡ Error.Memory) }
{
    let name = String::from_str(alloc, key)?;
    drop(table.insert(name, value)?);
    Ok(())
}
