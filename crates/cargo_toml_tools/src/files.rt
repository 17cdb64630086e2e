//! What the tools make of files: each manifest is read, completed and held here, on the heap.
#![tactic(auto, using(std::proofs::lemmas::Result::err_from_is_err_and))]

mod alone;
mod documenting;
mod indexing;
mod reading;

pub use alone::{Source, completed_beside, completed_from, needed};
pub use documenting::{document, document_text, resolved};
pub use indexing::{Fault, Indexed, index_of};
pub use reading::{completed_of, findings_of, manifest_in, manifest_of, text_in};
