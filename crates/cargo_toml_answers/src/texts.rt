//! What is asked of the bytes of an argument, and the keys of hashed maps.
ghost use Rattle.std.specs.Prelude.{◌≡◌, IfErr, IfOk, IsUtf8, OnOk, false};
ghost use Rattle.cargo_toml.specs.Faults.{IsOther};
ghost use Rattle.cargo_toml_answers.specs.Refused.{IsAnswered, IsRefusal, IsRefusalFor, IsUnread};
ghost use Rattle.cargo_toml_depth.specs.Nesting.{is_too_deep};
ghost use Rattle.cargo_toml_tools.specs.FromFiles.{IsManifestIn, RefusesText};

use crate::refusal::{Refusal, bad_argument, refuse};
use cargo_toml::Error;
use cargo_toml_depth::is_too_deep;
use cargo_toml_manifest::HeldManifest;
use std::alloc::Global;
use std::hash::{BuildHasher, DefaultHasher, Hasher};

/// The keys of the hashed maps of a call: two numbers that a stranger doesn't know, so that names
/// can't be made to collide.
#[derive(Clone, Copy)]
pub struct Keys {
    // a hasher that was fed with both
    start: DefaultHasher,
}

impl Keys {
    /// The keys that are these two numbers.
    pub fn new(first: u64, second: u64) -> Keys {
        let mut start = DefaultHasher::new();
        start.write_u64(first);
        start.write_u64(second);
        Keys { start }
    }
}

impl BuildHasher for Keys {
    type Hasher = DefaultHasher;

    ghost build_hasher = { λ keys. keys.start };

    fn build_hasher(&self) -> DefaultHasher {
        self.start
    }
}

/// The fault with these words.
fn other(words: &'static str) -> Error
    ensures { IsOther words.now result }
{
    Error::Other(words)
}

/// The text of these bytes. Refused where they aren't UTF-8, or where the text nests deeper than
/// 128.
pub(crate) fn readable(alloc: Global, bytes: &[u8]) -> Result<&str, Refusal>
    ensures same { IfOk result (λ text. text.now ≡ bytes.now) }
    ensures shallow { OnOk result (is_too_deep bytes.now ≡ false) }
    ensures refused { IfErr result (IsRefusalFor ⊥ (IsUnread bytes.now)) }
{
    let Ok(text) = str::from_utf8(bytes) else {
        return Err(refuse(alloc, "", &other("utf8")));
    };
    if is_too_deep(alloc, text)? {
        return Err(refuse(alloc, "", &other("the text is nested deeper than 128")));
    }
    Ok(text)
}

/// The text of an argument. Refused with these words where the bytes aren't UTF-8.
pub(crate) fn argument<'a>(alloc: Global, bytes: &'a [u8], words: &str) -> Result<&'a str, Refusal>
    ensures same { IfOk result (λ text. text.now ≡ bytes.now) }
    ensures refused { IfErr result (IsRefusal (¬ IsUtf8 bytes.now) (λ _. ⊥)) }
{
    match str::from_utf8(bytes) {
        Ok(text) => Ok(text),
        Err(_) => Err(bad_argument(alloc, words)),
    }
}

/// The manifest that a text spells which doesn't nest too deep.
pub(crate) fn manifest_in(alloc: Global, text: &str) -> Result<HeldManifest, Error>
    requires { is_too_deep text.now ≡ false }
    ensures read { IfOk result (λ h. IsManifestIn text.now h.manifest.value) }
    ensures refused { IfErr result (RefusesText text.now) }
{
    HeldManifest::from_str(alloc, text)
}

/// What was made of a text, or else its refusal.
pub(crate) fn answered(
    alloc: Global,
    text: &str,
    made: Result<String, Error>,
) -> Result<String, Refusal>
    ensures { IsAnswered made result }
{
    match made {
        Ok(json) => Ok(json),
        Err(fault) => Err(refuse(alloc, text, &fault)),
    }
}
