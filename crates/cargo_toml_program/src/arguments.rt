//! What the program can be asked to do.

/// What the program is asked to do, with the path of a manifest.
#[derive(Debug, Clone, Copy, PartialEq, Eq)]
pub enum Command<'a> {
    /// Print a line for each feature, resolved with this limit of items, which is at least 1.
    Features(&'a str, usize),
    /// Print what completion finds.
    Complete(&'a str),
}
