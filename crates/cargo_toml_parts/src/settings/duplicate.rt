// Copies of settings that hold the same.
use crate::duplicate::Duplicate;
use crate::settings::{Edition, OptionalFile, Publish};
use std::alloc::{AllocError, Global};

/// It takes no memory.
impl Duplicate for Edition {
    fn duplicate(&self, _alloc: Global) -> Result<Edition, AllocError> {
        Ok(*self)
    }
}

impl Duplicate for OptionalFile {
    fn duplicate(&self, alloc: Global) -> Result<OptionalFile, AllocError> {
        match self {
            OptionalFile::Flag(flag) => Ok(OptionalFile::Flag(*flag)),
            OptionalFile::Path(path) => Ok(OptionalFile::Path(path.duplicate(alloc)?)),
        }
    }
}

impl Duplicate for Publish {
    fn duplicate(&self, alloc: Global) -> Result<Publish, AllocError> {
        match self {
            Publish::Flag(flag) => Ok(Publish::Flag(*flag)),
            Publish::Registry(names) => Ok(Publish::Registry(names.duplicate(alloc)?)),
        }
    }
}
