//! JSON, written as it is made.
ghost use Rattle.std.specs.Prelude.{◌≡◌, ◌∷◌, [], IfOk, OnOk, string_bytes, map};
ghost use Rattle.std.specs.Option.{option_copied};
ghost use Rattle.json.specs.{Print.print, Token.key};
ghost use Rattle.serde_json.specs.Data.{array, boolean, no_members, number, object, string};
ghost use Rattle.serde_json.specs.{Data.unsigned, View.items_of};
ghost use Rattle.cargo_toml_answers.specs.Adding.{Adds, tokens_of};
ghost use Rattle.cargo_toml_check.specs.Listed.{texts_json};
ghost use Rattle.cargo_toml_tools.specs.IndexEntries.{text_or_null, with_rows};

use cargo_toml_lint::AllocResult;
use json::Writer;
use std::alloc::{AllocError, Global};
use std::collections::{BTreeMap, BTreeSet};

/// What is written as a value of JSON.
pub(crate) trait Put {
    ghost use Rattle.std.specs.Prelude.{OnOk};
    ghost use Rattle.serde_json.specs.Data.{Data};
    ghost use Rattle.cargo_toml_answers.specs.Adding.{Adds, tokens_of};

    // the value
    ghost json: { Self → Data };

    /// Writes it. The one refusal is out of memory.
    fn put(&self, out: &mut Writer) -> AllocResult<()>
        ensures { OnOk result (Adds out.old out.new (tokens_of (json self.now))) };
}

impl Put for bool {
    ghost json = { boolean };

    fn put(&self, out: &mut Writer) -> AllocResult<()> {
        out.boolean(*self)
    }
}

impl Put for usize {
    ghost json = { λ n. number (unsigned n) };

    fn put(&self, out: &mut Writer) -> AllocResult<()> {
        out.u64(*self as u64)
    }
}

impl Put for &str {
    ghost json = { λ text. string text.now };

    fn put(&self, out: &mut Writer) -> AllocResult<()> {
        out.string(*self)
    }
}

impl Put for Option<&str> {
    ghost json = { λ text. text_or_null (option_copied text) };

    fn put(&self, out: &mut Writer) -> AllocResult<()> {
        match *self {
            Some(text) => out.string(text),
            None => out.null(),
        }
    }
}

/// A list of texts in order.
impl Put for BTreeSet<&str> {
    ghost json = { λ texts. texts_json texts.keys };

    fn put(&self, out: &mut Writer) -> AllocResult<()> {
        out.begin_array()?;
        for text in self.iter() {
            out.string(*text)?;
        }
        out.end_array()?;
        Ok(())
    }
}

/// An object, by its keys.
impl<X: Put> Put for BTreeMap<&str, X> {
    ghost json = { λ m. object
        (with_rows (map (λ e. (e.0.now, X.json e.1)) m.entries) no_members) };

    fn put(&self, out: &mut Writer) -> AllocResult<()> {
        out.begin_object()?;
        for (name, one) in self.iter() {
            put_member(out, *name, one)?;
        }
        out.end_object()?;
        Ok(())
    }
}

/// Writes a member of an object.
pub(crate) fn put_member<X: Put>(out: &mut Writer, name: &str, value: &X) -> AllocResult<()>
    ensures { OnOk result (Adds out.old out.new (key name.now ∷ tokens_of (X.json value.now))) }
{
    out.key(name)?;
    value.put(out)
}

/// Writes a list as a member of an object.
pub(crate) fn put_list<X: Put>(out: &mut Writer, name: &str, list: &[X]) -> AllocResult<()>
    ensures { OnOk result (Adds out.old out.new
        (key name.now ∷ tokens_of (array (items_of (map X.json list.now))))) }
{
    out.key(name)?;
    out.begin_array()?;
    for one in list {
        one.put(out)?;
    }
    out.end_array()?;
    Ok(())
}

/// Nothing is written yet.
pub(crate) fn writer(alloc: Global) -> AllocResult<Writer>
    ensures before { IfOk result (λ out. out.before ≡ []) }
    ensures tokens { IfOk result (λ out. out.tokens ≡ []) }
{
    Ok(Writer::new(Vec::with_capacity(alloc, 128)?))
}

/// The text that was written.
pub(crate) fn text_of(out: Writer) -> AllocResult<String>
    ensures { IfOk result (λ text. out.before ≡ [] → string_bytes text ≡ print out.tokens) }
{
    match String::from_utf8(out.into_inner()) {
        Ok(text) => Ok(text),
        Err(_) => Err(AllocError),
    }
}
