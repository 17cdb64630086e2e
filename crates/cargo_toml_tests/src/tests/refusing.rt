//! Code of a caller's own that answers out of memory: the state of hashed maps, and a value that is
//! inherited.
ghost use Rattle.std.specs.Prelude.{◌≡◌, false};

use cargo_toml::features::Resolver;
use cargo_toml::{Error, Inheritable, Manifest};
use cargo_toml_bench::HeldManifest;
use std::alloc::{AllocError, Global};
use std::hash::{BuildHasher, FoldHasher};
use std::test::Fail;

// What can't be copied without memory.
#[derive(Debug, Drop)]
struct Costly;

impl Clone for Costly {
    fn clone(&self) -> Result<Costly, AllocError> {
        Err(AllocError)
    }
}

#[test]
fn refused_memory_of_a_copy(rt: HostRuntime) {
    let mut own: Inheritable<Costly> = Inheritable::Inherited;
    let answer = own.inherit(&Costly);
    let is_refused = matches!(&answer, Err(Error::Memory));
    drop(answer);
    assert!(rt; is_refused);
    assert!(rt; !own.is_set());
}

// A state of hashed maps that can't be copied without memory.
#[derive(Drop)]
struct State {
    hasher: FoldHasher,
}

impl Clone for State {
    fn clone(&self) -> Result<State, AllocError> {
        Err(AllocError)
    }
}

impl BuildHasher for State {
    type Hasher = FoldHasher;

    ghost build_hasher = { λ s. s.hasher };

    fn build_hasher(&self) -> FoldHasher {
        self.hasher
    }
}

fn keep_none(_name: &str) -> bool
    ensures { result ≡ false }
{
    false
}

// Whether there is no memory to resolve with such a state.
fn is_refused(alloc: Global, manifest: &Manifest) -> bool {
    let keep = keep_none;
    let state = State {
        hasher: FoldHasher::default(),
    };
    let resolver = Resolver::new_with_hasher_and_filter(state, &keep);
    let answer = resolver.parse(alloc, manifest);
    let is_refused = matches!(&answer, Err(Error::Memory));
    drop(answer);
    drop(resolver);
    is_refused
}

#[test]
fn refused_memory_of_a_state(rt: HostRuntime) -> Result<(), Fail> {
    let alloc = rt.alloc();
    let held = HeldManifest::from_str(alloc, "features = { a = [] }")?;
    assert!(rt; is_refused(alloc, &*held.manifest));
    Ok(())
}
