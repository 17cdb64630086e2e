//! Writing the keys of a table one after the other, up to the first fault.
//!
//! A type that is a table is written in a straight line: each key by a call, and then
//! [`Writing::finish`], which is the only place where a fault comes out.
ghost use Rattle.std.specs.Prelude.{◌≡◌, [], ◌∷◌, None, Some, option_map};
ghost use Rattle.toml.specs.Data.{no_members};
ghost use Rattle.toml.specs.View.{table_view};
ghost use Rattle.cargo_toml_parts.specs.Reads.{map_meaning};
ghost use Rattle.cargo_toml_write.specs.Ways.{Begins, flag_row};
ghost use Rattle.cargo_toml_write.specs.Writes.{WritesRows, WritingEnds, optional_row};
ghost use Rattle.cargo_toml_write.specs.Writes.{required_row, given_row};

use crate::write::collections::table_of;
use crate::write::{LeftOut, ToValue, put};
use cargo_toml_parts::Error;
use std::alloc::Global;
use std::collections::BTreeMap;
use toml::{Table, Value};

/// The writing of one table, key by key, and the first fault that was met. Once there is a fault
/// nothing more is written.
#[derive(Drop)]
pub struct Writing {
    // where memory is taken from
    alloc: Global,
    // what was written so far
    table: Table,
    // the first fault that was met
    fault: Option<Error>,
}

#[tactic(auto, unfolding(crate::specs::Writes::WritesFrom))]
impl Writing {
    /// A writing that wrote nothing and met no fault yet.
    pub fn new(alloc: Global) -> Writing
        ensures no_fault { result.fault ≡ None }
        ensures no_key { table_view result.table ≡ no_members }
    {
        Writing {
            alloc,
            table: Table::new(alloc),
            fault: None,
        }
    }

    /// A writing that begins with the values of a map, each at its key.
    pub fn over<T: ToValue>(alloc: Global, map: &BTreeMap<String, T>) -> Writing
        ensures { Begins T.way (map_meaning T.meaning map.now) result.fault
            (table_view result.table) }
    {
        match table_of(alloc, map) {
            Ok(table) => Writing {
                table,
                ..Writing::new(alloc)
            },
            Err(fault) => Writing {
                fault: Some(fault),
                ..Writing::new(alloc)
            },
        }
    }

    /// Writes a value at a key.
    pub fn required<T: ToValue>(&mut self, key: &str, x: &T)
        ensures { WritesRows (required_row key.now T.way (T.meaning x.now) ∷ []) self.old self.new }
    {
        if self.fault.is_some() {
            return;
        }
        match x.to_value(self.alloc) {
            Ok(value) => {
                if let Err(fault) = put(&mut self.table, self.alloc, key, value) {
                    self.fault = Some(fault);
                }
            }
            Err(fault) => self.fault = Some(fault),
        }
    }

    /// Writes a value at a key, where it is there.
    pub fn optional<T: ToValue>(&mut self, key: &str, x: &Option<T>)
        ensures { WritesRows (optional_row key.now T.way (option_map T.meaning x.now) ∷ [])
            self.old self.new }
    {
        if let Some(x) = x {
            self.required(key, x);
        }
    }

    /// Writes a value at a key, unless it is what a missing key stands for.
    pub fn given<T: LeftOut>(&mut self, key: &str, x: &T)
        ensures { WritesRows (given_row key.now T.way (T.meaning x.now) ∷ []) self.old self.new }
    {
        if !x.is_left_out() {
            self.required(key, x);
        }
    }

    /// Writes a truth value at a key, unless it is the one that a missing key stands for.
    pub fn flag(&mut self, key: &str, missing: bool, flag: bool)
        ensures { WritesRows (flag_row key.now missing flag ∷ []) self.old self.new }
    {
        if flag != missing {
            self.required(key, &flag);
        }
    }

    /// The table, unless a fault was met.
    pub fn finish(self) -> Result<Value, Error>
        ensures { WritingEnds self.fault (table_view self.table) result }
    {
        let Writing { table, fault, .. } = self;
        match fault {
            None => Ok(Value::Table(table)),
            Some(fault) => Err(fault),
        }
    }
}
