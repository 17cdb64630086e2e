//! The library for C, and for the languages that call C.
//!
//! Each export is one function of `cargo_toml_answers`, or tells the version. Its answer is put
//! into a buffer of the caller's: as much as fits, and its whole length into `needed`. It returns a
//! status. The header bindings/c/cargo_toml.h says what a caller in C has to know.
#![tactic(auto)]

ghost use Rattle.std.specs.Prelude.{◌≡◌, ◌≢◌, ◌⊎◌, ◌^◌, ◌≤◌, IsUtf8, codes, false, length, true};
ghost use Rattle.cargo_toml.specs.{Error.Memory, Manifests.manifest_meaning};
ghost use Rattle.cargo_toml_answers.specs.Answered.{AreTold, IsChecked, IsDocumented};
ghost use Rattle.cargo_toml_answers.specs.Answered.{IsIndexRefusal, IsIndexed};
ghost use Rattle.cargo_toml_answers.specs.Answered.{IsListed, IsRefusedFor, IsShownIn, Reads};
ghost use Rattle.cargo_toml_answers.specs.Answered.{checksum_of, is_line, is_sum, wanted_with};
ghost use Rattle.cargo_toml_answers.specs.Archived.{CompletesTo, IsUncompleted, given};
ghost use Rattle.cargo_toml_answers.specs.Refused.{IsRefusalFor, IsUnread};
ghost use Rattle.cargo_toml_c.specs.Handed.{HandsOut, HandsRefusal, came_status, came_text, filled};
ghost use Rattle.cargo_toml_check.specs.Shown.{IsUnshown};
ghost use Rattle.cargo_toml_depth.specs.Nesting.{is_too_deep};
ghost use Rattle.toml.specs.View.{view};

use cargo_toml_answers::{
    Asked, Keys, Refusal, Surroundings, check, complete, document, features, index, lint, manifest,
};
use std::alloc::Global;

/// The answer is what was asked for.
const DONE: u32 = 0;
/// The text is refused, and the answer says why.
const REFUSED: u32 = 1;
/// Out of memory: there is no answer.
const MEMORY: u32 = 2;
/// An argument beside the text isn't what it has to be, and the answer says why.
const BAD_ARGUMENT: u32 = 3;

/// What `cargo_toml_version` tells.
const VERSION: &str = "1.0.1+1";

/// Puts as much of an answer into a buffer as fits, and tells its whole length.
fn hand_out(answer: &[u8], out: &mut [u8], needed: &mut usize)
    ensures whole { needed.new ≡ length answer.now }
    ensures buffer { out.new ≡ filled answer.now out.old }
{
    *needed = answer.len();
    let count = answer.len().min(out.len());
    out[..count].copy_from_slice(&answer[..count]);
}

/// Hands out what came of a call, and returns its status.
fn put(came: Result<String, Refusal>, out: &mut [u8], needed: &mut usize) -> u32
    ensures status { result ≡ came_status came }
    ensures whole { needed.new ≡ length (came_text came) }
    ensures buffer { out.new ≡ filled (came_text came) out.old }
{
    let (status, answer) = match came {
        Ok(answer) => (DONE, answer),
        Err(Refusal::Text(answer)) => (REFUSED, answer),
        Err(Refusal::Argument(answer)) => (BAD_ARGUMENT, answer),
        Err(Refusal::Memory) => {
            hand_out(&[], out, needed);
            return MEMORY;
        }
    };
    hand_out(answer.as_bytes(), out, needed);
    status
}

/// The version of this library, a text and no JSON. The status is 0.
#[unsafe(no_mangle)]
pub extern "C" fn cargo_toml_version(out: &mut [u8], needed: &mut usize) -> u32
    ensures status { result ≡ 0 }
    ensures whole { needed.new ≡ length (codes "1.0.1+1") }
    ensures buffer { out.new ≡ filled (codes "1.0.1+1") out.old }
{
    hand_out(VERSION.as_bytes(), out, needed);
    DONE
}

/// The manifest in a text, as it is.
#[unsafe(no_mangle)]
pub extern "C" fn cargo_toml_manifest(
    alloc: Global,
    text: &[u8],
    out: &mut [u8],
    needed: &mut usize,
) -> u32
    ensures shallow { (result ≡ 0) → is_too_deep text.now ≡ false }
    ensures shown { (result ≡ 0) → HandsOut
        (λ json. Reads text.now (λ m. IsShownIn (manifest_meaning view m) json))
        out.old out.new needed.new }
    ensures refused { (result ≢ 0) → HandsRefusal
        (IsRefusalFor ⊥ (IsRefusedFor text.now (λ m. IsUnshown (manifest_meaning view m))))
        out.old out.new needed.new result }
{
    put(manifest(alloc, text), out, needed)
}

/// The manifest in a text, completed by the paths of its package's files, and by the text of its
/// workspace's root and the root's path, unless that is empty.
#[unsafe(no_mangle)]
pub extern "C" fn cargo_toml_complete(
    alloc: Global,
    text: &[u8],
    paths: &[u8],
    root: &[u8],
    root_path: &[u8],
    out: &mut [u8],
    needed: &mut usize,
) -> u32
    ensures shallow { (result ≡ 0) → is_too_deep text.now ≡ false }
    ensures completed { (result ≡ 0) → HandsOut
        (λ json. Reads text.now (λ m. CompletesTo paths.now (given root.now root_path.now) m json))
        out.old out.new needed.new }
    ensures refused { (result ≢ 0) → HandsRefusal
        (IsRefusalFor ((¬ IsUtf8 paths.now) ⊎ (¬ IsUtf8 root_path.now))
        (λ e. IsUnread root.now e ⊎ IsRefusedFor text.now (λ m e. (e ≡ Memory)
        ⊎ IsUncompleted paths.now (given root.now root_path.now) m e) e))
        out.old out.new needed.new result }
{
    let around = Surroundings {
        paths,
        root,
        root_path,
    };
    put(complete(alloc, text, around), out, needed)
}

/// The features of the manifest in a text, where `keep` has the hidden names that are kept, a line
/// each, and so many items count, from 1 to 4294967295.
#[unsafe(no_mangle)]
pub extern "C" fn cargo_toml_features(
    alloc: Global,
    text: &[u8],
    keep: &[u8],
    max_items: u64,
    key_1: u64,
    key_2: u64,
    out: &mut [u8],
    needed: &mut usize,
) -> u32
    ensures shallow { (result ≡ 0) → is_too_deep text.now ≡ false }
    ensures listed { (result ≡ 0) → HandsOut
        (λ json. Reads text.now (λ m. IsListed max_items (is_line keep.now) m json))
        out.old out.new needed.new }
    ensures refused { (result ≢ 0) → HandsRefusal
        (IsRefusalFor ((¬ IsUtf8 keep.now) ⊎ ((max_items ≡ 0) ⊎ (2 ^ 32 ≤ max_items)))
        (IsRefusedFor text.now (λ _ e. e ≡ Memory)))
        out.old out.new needed.new result }
{
    let asked = Asked { keep, max_items };
    let keys = Keys::new(key_1, key_2);
    put(features(alloc, text, asked, keys), out, needed)
}

/// What keeps a text from being a manifest.
#[unsafe(no_mangle)]
pub extern "C" fn cargo_toml_check(
    alloc: Global,
    text: &[u8],
    out: &mut [u8],
    needed: &mut usize,
) -> u32
    ensures shallow { (result ≡ 0) → is_too_deep text.now ≡ false }
    ensures checked { (result ≡ 0) → HandsOut (IsChecked text.now) out.old out.new needed.new }
    ensures refused { (result ≢ 0) → HandsRefusal (IsRefusalFor ⊥ (IsUnread text.now))
        out.old out.new needed.new result }
{
    put(check(alloc, text), out, needed)
}

/// What is amiss with the features of the manifest in a text.
#[unsafe(no_mangle)]
pub extern "C" fn cargo_toml_lint(
    alloc: Global,
    text: &[u8],
    key_1: u64,
    key_2: u64,
    out: &mut [u8],
    needed: &mut usize,
) -> u32
    ensures shallow { (result ≡ 0) → is_too_deep text.now ≡ false }
    ensures told { (result ≡ 0) → HandsOut (λ json. Reads text.now (λ _. AreTold json))
        out.old out.new needed.new }
    ensures refused { (result ≢ 0) → HandsRefusal
        (IsRefusalFor ⊥ (IsRefusedFor text.now (λ _ e. e ≡ Memory)))
        out.old out.new needed.new result }
{
    let keys = Keys::new(key_1, key_2);
    put(lint(alloc, text, keys), out, needed)
}

/// The line that the index of crates.io has of the crate of the manifest in a text, with a checksum
/// of 64 hex digits, or with none where that is empty.
#[unsafe(no_mangle)]
pub extern "C" fn cargo_toml_index(
    alloc: Global,
    text: &[u8],
    checksum: &[u8],
    key_1: u64,
    key_2: u64,
    out: &mut [u8],
    needed: &mut usize,
) -> u32
    ensures shallow { (result ≡ 0) → is_too_deep text.now ≡ false }
    ensures indexed { (result ≡ 0) → HandsOut
        (λ json. Reads text.now
        (λ m. IsIndexed text.now (wanted_with (checksum_of checksum.now)) m json))
        out.old out.new needed.new }
    ensures sum { (result ≡ 0) → is_sum checksum.now ≡ true }
    ensures refused { (result ≢ 0) → HandsRefusal (IsIndexRefusal text.now checksum.now)
        out.old out.new needed.new result }
{
    let keys = Keys::new(key_1, key_2);
    put(index(alloc, text, checksum, keys), out, needed)
}

/// What is documented of the features of the manifest in a text.
#[unsafe(no_mangle)]
pub extern "C" fn cargo_toml_document(
    alloc: Global,
    text: &[u8],
    key_1: u64,
    key_2: u64,
    out: &mut [u8],
    needed: &mut usize,
) -> u32
    ensures shallow { (result ≡ 0) → is_too_deep text.now ≡ false }
    ensures documented { (result ≡ 0) → HandsOut
        (λ json. Reads text.now (λ m. IsDocumented m json)) out.old out.new needed.new }
    ensures refused { (result ≢ 0) → HandsRefusal
        (IsRefusalFor ⊥ (IsRefusedFor text.now (λ _ e. e ≡ Memory)))
        out.old out.new needed.new result }
{
    let keys = Keys::new(key_1, key_2);
    put(document(alloc, text, keys), out, needed)
}
