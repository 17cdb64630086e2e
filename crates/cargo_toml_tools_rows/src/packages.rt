//! Packages in the lines of a tree.
use std::alloc::{AllocError, Global};

/// What stands between the folder of a package and its name.
const PACKAGE: &str = " !package ";

/// The lines of a tree. In place of `FOLDER !package NAME` stand those of a package with an empty
/// `src/lib.rs`, version 1.0.0 and edition 2021. The lines behind it go on with its manifest.
pub fn with_packages(alloc: Global, lines: &str) -> Result<String, AllocError> {
    let mut text = String::new(alloc);
    for line in lines.split_terminator('\n') {
        let written = match line.split_once(PACKAGE) {
            Some((folder, name)) => package(alloc, folder, name)?,
            None => String::from_str(alloc, line)?,
        };
        text.push_str(written.as_str())?;
        text.push_str("\n")?;
    }
    Ok(text)
}

fn package(alloc: Global, folder: &str, name: &str) -> Result<String, AllocError> {
    format!(in alloc;
        "{folder}/src/lib.rs\n\
        {folder}/Cargo.toml\n  \
          package.name = \"{name}\"\n  \
          package.version = \"1.0.0\"\n  \
          package.edition = \"2021\""
    )
}
