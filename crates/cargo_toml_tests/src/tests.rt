//! Tests that are no rows: code of a caller's own, a proved caller, and output that fails.
//! What a text reads as, is written as and is resolved to stands in the rows of `cargo_toml_rows`,
//! and so do calls with values that no text spells.
mod caller;
mod completing;
mod entries;
mod printing;
mod refusing;
mod samples;
