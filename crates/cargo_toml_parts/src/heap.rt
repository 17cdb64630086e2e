//! The end of the C library's heap, which it would give back after each call.
use std::alloc::{AllocError, Global};

// A block of more bytes is mapped by itself.
const MAPPED: usize = 128 * 1024;

// glibc raises no threshold for a larger block.
const LARGEST: usize = 32 * 1024 * 1024 - 8192;

/// Has the C library keep so many bytes of its heap, for a call that takes as many.
///
/// glibc gives the end of its heap back to the system whenever more than 128 KB of it are free, and
/// each call then has hundreds of pages faulted in anew. Once a block of up to 32 MB that was
/// mapped by itself is dropped, twice its size may be free. So one is made and dropped. It is never
/// touched, so the system gives no page for it. Where there is no room for it, nothing is lost;
/// with another C library it costs two calls.
pub fn keep_heap(alloc: Global, size: usize) {
    if size > MAPPED {
        let _block: Result<Vec<u8>, AllocError> = Vec::with_capacity(alloc, size.min(LARGEST));
    }
}
