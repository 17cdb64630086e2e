//! How far an audit goes: the steps that it may take, and what ends it.
ghost use Rattle.std.specs.Prelude.{◌≡◌, ◌<◌, ◌≤◌, ◌-◌, IfErr, OnOk};
ghost use Rattle.cargo_toml_audit.specs.declared.limits.LookError.TheVariants.{Memory, TooFar};

use cargo_toml::Error;
use std::alloc::{AllocError, AllocFailed};

/// The steps of an audit: of the patterns in its lists, and of the walk over places. Links and
/// patterns that lead up again, as `*/../*/..`, make more places of two folders than can be read.
pub const MAX_STEPS: usize = 128 * 1024 * 1024;

/// Why it isn't told which places there are.
#[derive(Debug, Clone, Copy, PartialEq, Eq)]
pub enum LookError {
    /// They are too many: no step is left.
    TooFar,
    /// Out of memory.
    Memory,
}

impl From<AllocError> for LookError {
    ghost from_gives = { λ _ e. e ≡ Memory };

    fn from(_fault: AllocError) -> LookError {
        LookError::Memory
    }
}

impl<T: Drop> From<AllocFailed<T>> for LookError {
    ghost from_gives = { λ _ e. e ≡ Memory };

    fn from(_fault: AllocFailed<T>) -> LookError {
        LookError::Memory
    }
}

/// Out of memory is `Memory`, and too many places are told in words.
impl From<LookError> for Error {
    ghost use Rattle.cargo_toml_audit.specs.Limits.{IsToldAs};

    ghost from_gives = { IsToldAs };

    fn from(fault: LookError) -> Error {
        match fault {
            LookError::TooFar => Error::Other("there are too many places"),
            LookError::Memory => Error::Memory,
        }
    }
}

/// What looking for places gives, or why it ended.
pub type LookResult<T> = Result<T, LookError>;

/// The steps that are left of [`MAX_STEPS`].
#[derive(Debug, Drop)]
pub struct Steps {
    /// How many.
    pub left: usize,
}

impl Steps {
    /// All of them.
    pub fn new() -> Steps
        ensures { result.left ≡ MAX_STEPS }
    {
        Steps { left: MAX_STEPS }
    }

    /// Takes so many. Refused where none would be left; then none is.
    pub fn take(&mut self, count: usize) -> LookResult<()>
        ensures left { self.new.left ≡ self.old.left - count }
        ensures taken { OnOk result (count < self.old.left) }
        ensures refused { IfErr result (λ e. (e ≡ TooFar) × (self.old.left ≤ count)) }
    {
        self.left = self.left.saturating_sub(count);
        if self.left == 0 {
            return Err(LookError::TooFar);
        }
        Ok(())
    }
}
