//! What is kept of the C library's heap for reading.
use std::alloc::Global;

// What a text of more bytes takes is more than the C library keeps by itself.
const LONG: usize = 256 * 1024;

// Reading takes more than this many bytes for each byte of a text.
const ROOM: usize = 7;

/// Has the C library keep as much of its heap as reading a text of this length takes.
pub(crate) fn keep_heap(alloc: Global, length: usize) {
    if length > LONG {
        cargo_toml_parts::heap::keep_heap(alloc, length.saturating_mul(ROOM));
    }
}
