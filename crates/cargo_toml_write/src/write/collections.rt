//! Lists and maps of what can be written, and values that a workspace may give.
ghost use Rattle.std.specs.Prelude.{ℕ, List, map};
ghost use Rattle.cargo_toml_parts.specs.declared.inheritable.Inheritable.{Inheritable};
ghost use Rattle.cargo_toml_parts.specs.Inherits.{inheritable_map};
ghost use Rattle.cargo_toml_parts.specs.Reads.{map_meaning};
ghost use Rattle.cargo_toml_write.specs.Ways.{MakesTable};
ghost use Rattle.cargo_toml_write.specs.Ways.{map_way, inheritable_way, left_way, list_way};
ghost use Rattle.cargo_toml_write.specs.Writes.{IsWriting};

use crate::write::{LeftOut, ToValue, put};
use cargo_toml_parts::read::map_of_pairs;
use cargo_toml_parts::{Error, Inheritable};
use std::alloc::Global;
use std::collections::BTreeMap;
use toml::{Table, Value};

impl<T: ToValue> ToValue for Vec<T> {
    ghost Meaning = { List T.Meaning };

    ghost meaning = { λ v. map T.meaning v.items };

    ghost way = { list_way T.way };

    fn to_value(&self, alloc: Global) -> Result<Value, Error> {
        let mut values = Vec::with_capacity(alloc, self.len())?;
        for x in self {
            values.push(x.to_value(alloc)?)?;
        }
        Ok(Value::Array(values))
    }
}

/// An empty list is left out.
impl<T: ToValue> LeftOut for Vec<T> {
    fn is_left_out(&self) -> bool {
        self.is_empty()
    }
}

/// The table of a map: its keys, each with the tree of its value.
pub(crate) fn table_of<T: ToValue>(alloc: Global, map: &BTreeMap<String, T>) -> Result<Table, Error>
    ensures { MakesTable T.way (map_meaning T.meaning map.now) result }
{
    let mut pairs = Vec::with_capacity(alloc, map.len())?;
    for (key, x) in map.iter() {
        let name = String::from_str(alloc, key.as_str())?;
        pairs.push((name, x.to_value(alloc)?))?;
    }
    Ok(map_of_pairs(alloc, pairs)?)
}

impl<T: ToValue> ToValue for BTreeMap<String, T> {
    ghost Meaning = { List (List ℕ × T.Meaning) };

    ghost meaning = { map_meaning T.meaning };

    ghost way = { map_way T.way };

    fn to_value(&self, alloc: Global) -> Result<Value, Error> {
        Ok(Value::Table(table_of(alloc, self)?))
    }
}

/// An empty map is left out.
impl<T: ToValue> LeftOut for BTreeMap<String, T> {
    fn is_left_out(&self) -> bool {
        self.is_empty()
    }
}

// The table `{ workspace = true }`, which says that the workspace gives a value.
fn inherited_value(alloc: Global) -> Result<Value, Error>
    ensures { IsWriting left_way tt result }
{
    let mut table = Table::new(alloc);
    put(&mut table, alloc, "workspace", Value::Boolean(true))?;
    Ok(Value::Table(table))
}

/// A value that the workspace gives is written as `{ workspace = true }`.
impl<T: ToValue> ToValue for Inheritable<T> {
    ghost Meaning = { Inheritable T.Meaning };

    ghost meaning = { inheritable_map T.meaning };

    ghost way = { inheritable_way T.way };

    fn to_value(&self, alloc: Global) -> Result<Value, Error> {
        match self {
            Inheritable::Set(x) => x.to_value(alloc),
            Inheritable::Inherited => inherited_value(alloc),
        }
    }
}

/// What is set is left out as it is alone. What is inherited is always written.
impl<T: LeftOut> LeftOut for Inheritable<T> {
    fn is_left_out(&self) -> bool {
        match self {
            Inheritable::Set(x) => x.is_left_out(),
            Inheritable::Inherited => false,
        }
    }
}
