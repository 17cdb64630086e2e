// Making the values of fields one after the other, and whether memory was refused for one.
ghost use Rattle.std.specs.Prelude.{◌≡◌, Some, IfOk, IsOkAnd, false, option_map, string_bytes};
ghost use Rattle.std.specs.Path.{path_join};
ghost use Rattle.cargo_toml_parts.specs.Copies.{Finishes};
ghost use Rattle.cargo_toml_parts.specs.Inherits.{inheritable_map};
ghost use Rattle.cargo_toml_parts.specs.Settings.{file_meaning};
ghost use Rattle.cargo_toml_package.specs.Inheriting.{based, filled_field, filled_if_there};
ghost use Rattle.cargo_toml_package.specs.Inheriting.{put_field, put_if_there, Fills};

use cargo_toml_parts::duplicate::Duplicate;
use cargo_toml_parts::paths::join;
use cargo_toml_parts::{Inheritable, OptionalFile};
use std::alloc::{AllocError, Global};

// The file of a workspace; its path is joined to the workspace's folder.
fn based_file(alloc: Global, base: &str, file: &OptionalFile) -> Result<OptionalFile, AllocError>
    ensures { IfOk result (λ f. file_meaning f ≡ based base.now (file_meaning file.now)) }
{
    match file {
        OptionalFile::Flag(flag) => Ok(OptionalFile::Flag(*flag)),
        OptionalFile::Path(path) => Ok(OptionalFile::Path(join(alloc, base, path.as_str())?)),
    }
}

/// The making of one value after the other, and whether memory was refused. After a refusal an
/// answer may be a stand-in, and `finish` refuses.
#[derive(Drop)]
pub struct Filling {
    /// Where memory is taken from.
    pub alloc: Global,
    /// Whether memory was refused.
    pub refused: bool,
}

impl Filling {
    /// A filling in which nothing was refused yet.
    pub fn new(alloc: Global) -> Filling
        ensures { result.refused ≡ false }
    {
        Filling {
            alloc,
            refused: false,
        }
    }

    // What was made, if memory was not refused.
    fn keep<T: Drop>(&mut self, made: Result<T, AllocError>) -> Option<T>
        ensures { Fills self.old.refused self.new.refused (IsOkAnd made (λ x. result ≡ Some x)) }
    {
        match made {
            Ok(value) => Some(value),
            Err(_) => {
                self.refused = true;
                None
            }
        }
    }

    /// A copy of the workspace's value for a field that is inherited.
    pub fn given<T: Duplicate>(&mut self, field: &Inheritable<T>, value: &T) -> Option<T>
        ensures { Fills self.old.refused self.new.refused
            (put_field (inheritable_map T.meaning field.now) (option_map T.meaning result)
            ≡ filled_field (inheritable_map T.meaning field.now) (Some (T.meaning value.now))) }
    {
        match field {
            Inheritable::Set(_) => None,
            Inheritable::Inherited => self.keep(value.duplicate(self.alloc)),
        }
    }

    /// The same of a value that the workspace may lack.
    pub fn optional<T: Duplicate>(&mut self, field: &Inheritable<T>, value: &Option<T>) -> Option<T>
        ensures { Fills self.old.refused self.new.refused
            (put_field (inheritable_map T.meaning field.now) (option_map T.meaning result)
            ≡ filled_field (inheritable_map T.meaning field.now) (option_map T.meaning value.now)) }
    {
        match value {
            Some(value) => self.given(field, value),
            None => None,
        }
    }

    /// The same of a field that may not be there.
    pub fn if_there<T: Duplicate>(
        &mut self,
        field: &Option<Inheritable<T>>,
        value: &Option<T>,
    ) -> Option<T>
        ensures { Fills self.old.refused self.new.refused
            (put_if_there (option_map (inheritable_map T.meaning) field.now)
            (option_map T.meaning result)
            ≡ filled_if_there (option_map (inheritable_map T.meaning) field.now)
            (option_map T.meaning value.now)) }
    {
        match field {
            Some(field) => self.optional(field, value),
            None => None,
        }
    }

    /// The workspace's file, whose folder is `base`, for a field that is inherited.
    pub fn file(
        &mut self,
        field: &Inheritable<OptionalFile>,
        base: &str,
        file: &OptionalFile,
    ) -> Option<OptionalFile>
        ensures { Fills self.old.refused self.new.refused
            (put_field (inheritable_map file_meaning field.now) (option_map file_meaning result)
            ≡ filled_field (inheritable_map file_meaning field.now)
            (Some (based base.now (file_meaning file.now)))) }
    {
        match field {
            Inheritable::Set(_) => None,
            Inheritable::Inherited => self.keep(based_file(self.alloc, base, file)),
        }
    }

    /// The workspace's path, where it has one, joined to `base`, for a field that is
    /// there and inherited.
    pub fn path_if_there(
        &mut self,
        field: &Option<Inheritable<String>>,
        base: &str,
        path: &Option<String>,
    ) -> Option<String>
        ensures { Fills self.old.refused self.new.refused
            (put_if_there (option_map (inheritable_map string_bytes) field.now)
            (option_map string_bytes result)
            ≡ filled_if_there (option_map (inheritable_map string_bytes) field.now)
            (option_map (path_join base.now) (option_map string_bytes path.now))) }
    {
        match (field, path) {
            (Some(Inheritable::Inherited), Some(path)) => self.keep(join(
                self.alloc,
                base,
                path.as_str(),
            )),
            _ => None,
        }
    }

    /// The whole, unless memory was refused.
    pub fn finish<X: Drop>(self, whole: X) -> Result<X, AllocError>
        ensures { Finishes self.refused whole result }
    {
        if self.refused {
            return Err(AllocError);
        }
        Ok(whole)
    }
}
