//! Copies that hold the same, whatever their type's `Clone` promises.
ghost use Rattle.std.specs.Prelude.{◌≡◌, IfOk};

use crate::read::Read;
use semver::{Version, VersionReq};
use std::alloc::{AllocError, Global};

/// What can be copied so that the copy holds the same.
pub trait Duplicate: Read {
    /// A copy that holds the same. It fails only when out of memory.
    fn duplicate(&self, alloc: Global) -> Result<Self, AllocError>
        ensures { IfOk result (λ copy. Self.meaning copy ≡ Self.meaning self.now) };
}

impl Duplicate for String {
    fn duplicate(&self, alloc: Global) -> Result<String, AllocError> {
        String::from_str(alloc, self.as_str())
    }
}

impl Duplicate for Version {
    fn duplicate(&self, _alloc: Global) -> Result<Version, AllocError> {
        self.clone()
    }
}

impl Duplicate for VersionReq {
    fn duplicate(&self, _alloc: Global) -> Result<VersionReq, AllocError> {
        self.clone()
    }
}

impl<T: Duplicate> Duplicate for Vec<T> {
    fn duplicate(&self, alloc: Global) -> Result<Vec<T>, AllocError> {
        let mut copy = Vec::with_capacity(alloc, self.len())?;
        for item in self {
            copy.push(item.duplicate(alloc)?)?;
        }
        Ok(copy)
    }
}
