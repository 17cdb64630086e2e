//! What comes of completion where one of the folders that it asks for answers a fault.
use crate::completed::{answer_of, complete_alone, completed_text, files_around};
use crate::recorder::Recorder;
use crate::row::{Row, Shown};
use cargo_toml::Error;
use cargo_toml_bench::HeldManifest;
use cargo_toml_bench::in_memory::{Answer, InMemory};
use std::alloc::Global;
use std::collections::BTreeSet;
use std::fmt::Write;
use std::rt::Files;

/// A line for each path that completion asks for, in byte order: `PATH: ` and what comes where that
/// path answers what the file `answered` says.
pub fn lines<R: Files + AllocGlobal>(row: &Row<'_, R>, bytes: &[u8]) -> Shown {
    let alloc = row.alloc();
    let words = row.text("answered")?;
    let mut lines = String::new(alloc);
    for path in asked(alloc, bytes, &files_around(row)?)? {
        let files = files_around(row)?;
        let failing = answer_of(alloc, words.as_str())?;
        let text = with_answer(alloc, bytes, files, path.as_str(), failing)?;
        let files = files_around(row)?;
        let empty = Answer::Names(Vec::new(alloc));
        let without = with_answer(alloc, bytes, files, path.as_str(), empty)?;
        let same = text == without;
        let came = if same { "as if empty" } else { text.as_str() };
        write!(lines, "{path}: {came}\n")?;
    }
    Ok(lines)
}

/// The paths that completion asks for where none fails.
fn asked(alloc: Global, bytes: &[u8], files: &InMemory) -> Result<BTreeSet<String>, Error> {
    let mut held = HeldManifest::from_slice(alloc, bytes)?;
    let recorder = Recorder::new(alloc, files, &*held.manifest, false);
    complete_alone(alloc, &mut *held.manifest, &recorder)?;
    Ok(recorder.into_paths())
}

/// What comes of completion where the path answers so.
fn with_answer(
    alloc: Global,
    bytes: &[u8],
    mut files: InMemory,
    path: &str,
    answer: Answer,
) -> Shown {
    // of two answers of one path the first counts
    let path = String::from_str(alloc, path)?;
    files.folders.insert(0, (path, answer))?;
    completed_text(alloc, bytes, &files)
}
