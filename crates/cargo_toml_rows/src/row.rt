//! A row, and the files in its folder.
use cargo_toml::Error;
use cargo_toml_bench::templates::{read, text_in};
use std::alloc::Global;
use std::rt::Files;

/// What is shown of a row, or why nothing is.
pub type Shown = Result<String, Error>;

/// A row: what its files are read by, and the path of its folder, or of its one file.
#[derive(Drop)]
pub struct Row<'a, R> {
    /// What its files are read by.
    pub rt: &'a R,
    /// The path, KIND/NAME.
    pub path: &'a str,
}

impl<R: Files + AllocGlobal> Row<'_, R> {
    /// Where its texts are held.
    pub fn alloc(&self) -> Global {
        self.rt.alloc()
    }

    /// The bytes of its manifest.
    pub fn manifest(&self) -> Result<Vec<u8>, Error> {
        let path = format!(in self.alloc(); "{}/Cargo.toml", self.path)?;
        read(self.rt, path.as_str())
    }

    /// The text of a file in its folder, if that or its template is there.
    pub fn find(&self, name: &str) -> Result<Option<String>, Error> {
        text_in(self.rt, self.path, name)
    }

    /// The same of a file that has to be there, without the line feed at the end.
    pub fn text(&self, name: &str) -> Shown {
        match self.find(name)? {
            Some(text) => Ok(
                text.as_str()
                    .trim_end_matches('\n')
                    .to_string(self.alloc())?,
            ),
            None => Err(Error::Other("a file of the row is missing")),
        }
    }
}
