//! What a package builds: its library, binaries, examples, tests and benchmarks.
ghost use Rattle.std.specs.Prelude.{◌≡◌, Some, option_and_then};
ghost use Rattle.toml.specs.Data.{as_table, no_members};
ghost use Rattle.toml.specs.View.{table_view};
ghost use Rattle.cargo_toml_parts.specs.Faults.{IsShape, wrong_shape};
ghost use Rattle.cargo_toml_parts.specs.Products.{ProductMeaning, product_meaning};
ghost use Rattle.cargo_toml_parts.specs.Products.{product_of, proc_macro_of};
ghost use Rattle.cargo_toml_parts.specs.Reads.{IsReading};

use crate::Edition;
use crate::copying::Copying;
use crate::error::Error;
use crate::read::{Read, into_table, member, wrong_shape};
use crate::reading::{Reading, ended};
use std::alloc::{AllocError, Global};
use toml::{Table, Value};

/// A target that Cargo builds: the table `lib`, or a table of the lists `bin`, `example`,
/// `test` and `bench`.
#[derive(Debug, PartialEq, Eq, Drop)]
pub struct Product {
    /// Where its main file is, from the folder of the `Cargo.toml` on: the key `path`.
    pub path: Option<String>,
    /// Its name: the key `name`.
    pub name: Option<String>,
    /// Whether `cargo test` runs its unit tests: the key `test`, true where it is missing.
    pub test: bool,
    /// Whether `cargo test` runs the examples of its documentation: the key `doctest`, true
    /// where it is missing.
    pub doctest: bool,
    /// Whether `cargo bench` runs its benchmarks: the key `bench`, true where it is missing.
    pub bench: bool,
    /// Whether `cargo doc` documents it: the key `doc`, true where it is missing.
    pub doc: bool,
    /// Whether it is a plugin of the compiler: the key `plugin`, false where it is missing.
    pub plugin: bool,
    /// Whether it is a procedural macro: the key `proc-macro` or `proc_macro`, of which at most one
    /// may be there, and false where both are missing.
    pub proc_macro: bool,
    /// Whether the test harness of the compiler is used: the key `harness`, true
    /// where it is missing.
    pub harness: bool,
    /// Its edition: the key `edition`. Where it is missing, Cargo takes the package's, which
    /// completion puts into the library and into products that it adds.
    pub edition: Option<Edition>,
    /// The kinds of crate to make: the list `crate-type`.
    pub crate_type: Vec<String>,
    /// The features without which it is not built: the list `required-features`.
    pub required_features: Vec<String>,
}

/// A clone of each field. It fails only when out of memory.
impl Clone for Product {
    ghost is_clone = { λ p copy.
        ⟦<Vec<String> as Clone>⟧.is_clone p.crate_type copy.crate_type
        × (⟦<Vec<String> as Clone>⟧.is_clone p.required_features copy.required_features
        × (⟦<Option<String> as Clone>⟧.is_clone p.path copy.path
        × (⟦<Option<String> as Clone>⟧.is_clone p.name copy.name
        × (⟦<bool as Clone>⟧.is_clone p.test copy.test
        × (⟦<bool as Clone>⟧.is_clone p.doctest copy.doctest
        × (⟦<bool as Clone>⟧.is_clone p.bench copy.bench
        × (⟦<bool as Clone>⟧.is_clone p.doc copy.doc
        × (⟦<bool as Clone>⟧.is_clone p.plugin copy.plugin
        × (⟦<bool as Clone>⟧.is_clone p.proc_macro copy.proc_macro
        × (⟦<bool as Clone>⟧.is_clone p.harness copy.harness
        × (⟦<Option<Edition> as Clone>⟧.is_clone p.edition copy.edition))))))))))) };

    ghost is_infallible = { λ p.
        ⟦<Vec<String> as Clone>⟧.is_infallible p.crate_type
        × (⟦<Vec<String> as Clone>⟧.is_infallible p.required_features
        × (⟦<Option<String> as Clone>⟧.is_infallible p.path
        × (⟦<Option<String> as Clone>⟧.is_infallible p.name
        × (⟦<bool as Clone>⟧.is_infallible p.test
        × (⟦<bool as Clone>⟧.is_infallible p.doctest
        × (⟦<bool as Clone>⟧.is_infallible p.bench
        × (⟦<bool as Clone>⟧.is_infallible p.doc
        × (⟦<bool as Clone>⟧.is_infallible p.plugin
        × (⟦<bool as Clone>⟧.is_infallible p.proc_macro
        × (⟦<bool as Clone>⟧.is_infallible p.harness
        × (⟦<Option<Edition> as Clone>⟧.is_infallible p.edition))))))))))) };

    fn clone(&self) -> Result<Product, AllocError> {
        let crate_type = self.crate_type.clone()?;
        let required_features = self.required_features.clone()?;
        let mut copying = Copying::new();
        let copy = Product {
            path: copying.of(&self.path, None),
            name: copying.of(&self.name, None),
            test: copying.of(&self.test, false),
            doctest: copying.of(&self.doctest, false),
            bench: copying.of(&self.bench, false),
            doc: copying.of(&self.doc, false),
            plugin: copying.of(&self.plugin, false),
            proc_macro: copying.of(&self.proc_macro, false),
            harness: copying.of(&self.harness, false),
            edition: copying.of(&self.edition, None),
            crate_type,
            required_features,
        };
        copying.finish(copy)
    }
}

impl Product {
    /// A product without any key. It takes no memory.
    pub fn default(alloc: Global) -> Product
        ensures { product_of no_members ≡ Some (product_meaning result) }
    {
        Product {
            path: None,
            name: None,
            test: true,
            doctest: true,
            bench: true,
            doc: true,
            plugin: false,
            proc_macro: false,
            harness: true,
            edition: None,
            crate_type: Vec::new(alloc),
            required_features: Vec::new(alloc),
        }
    }
}

fn proc_macro(table: &Table) -> Result<bool, Error>
    ensures { IsReading (λ b. b) (proc_macro_of (table_view table.now))
        (IsShape wrong_shape) result }
{
    match (member(table, "proc-macro"), member(table, "proc_macro")) {
        (None, None) => Ok(false),
        (Some(value), None) | (None, Some(value)) => match value.as_bool() {
            Some(flag) => Ok(flag),
            None => Err(wrong_shape()),
        },
        (Some(_), Some(_)) => Err(wrong_shape()),
    }
}

fn read_product(alloc: Global, table: Table) -> Result<Product, Error>
    ensures { IsReading product_meaning (product_of (table_view table)) (IsShape wrong_shape)
        result }
{
    let mut rest = table;
    let mut reading = Reading::new(alloc);
    let mut whole = Product::default(alloc);
    reading.take_optional(&mut rest, "path", &mut whole.path);
    reading.take_optional(&mut rest, "name", &mut whole.name);
    reading.take(&mut rest, "test", &mut whole.test);
    reading.take(&mut rest, "doctest", &mut whole.doctest);
    reading.take(&mut rest, "bench", &mut whole.bench);
    reading.take(&mut rest, "doc", &mut whole.doc);
    reading.take(&mut rest, "harness", &mut whole.harness);
    reading.take(&mut rest, "plugin", &mut whole.plugin);
    whole.proc_macro = reading.keep(proc_macro(&rest), false);
    reading.take_optional(&mut rest, "edition", &mut whole.edition);
    reading.take(&mut rest, "crate-type", &mut whole.crate_type);
    reading.take(&mut rest, "required-features", &mut whole.required_features);
    ended(reading.fault, whole)
}

impl Read for Product {
    ghost Meaning = { ProductMeaning };

    ghost meaning = { product_meaning };

    ghost reads = { λ d. option_and_then product_of (as_table d) };

    fn read_owned(alloc: Global, value: Value) -> Result<Product, Error> {
        read_product(alloc, into_table(value)?)
    }
}
