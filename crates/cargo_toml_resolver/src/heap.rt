//! What is kept of the C library's heap for resolving.
use std::alloc::Global;

// For each listing and for each entry, more than half of what resolving leaves free at the heap's
// end once its answer is dropped. No block of an answer is so large that it is mapped by itself.
const LISTING: usize = 320;

const ENTRY: usize = 360;

/// Has the C library keep as much of its heap as resolving so many listings and entries takes.
pub fn keep_heap(alloc: Global, listings: usize, entries: usize) {
    let size = listings
        .saturating_mul(LISTING)
        .saturating_add(entries.saturating_mul(ENTRY));
    cargo_toml_parts::heap::keep_heap(alloc, size);
}
