//! What is told of a folder of whose entries the system gives a fault.
use cargo_toml_discovery::disk::entry_names;
use std::alloc::{AllocError, Global};
use std::fs::DirEntry;
use std::io;
use std::io::ErrorKind;
use std::test::Fail;

// What is told where the one entry is such a fault.
fn told_of_entry(alloc: Global, kind: ErrorKind) -> Result<String, AllocError> {
    let entry: io::Result<DirEntry> = Err(io::Error::new(kind, "gone"));
    let answer = entry_names(alloc, vec![in alloc; entry]?.into_iter());
    let told = match &answer {
        Ok(names) => format!(in alloc; "{} names", names.len()),
        Err(fault) => format!(in alloc; "{:?}: {fault}", fault.kind()),
    };
    drop(answer);
    told
}

#[test]
fn missing_entry_is_no_absent_folder(rt: HostRuntime) -> Result<(), Fail> {
    let alloc = rt.alloc();
    for (kind, words) in [
        (ErrorKind::NotFound, "Other: gone"),
        (ErrorKind::NotADirectory, "Other: gone"),
        (ErrorKind::PermissionDenied, "PermissionDenied: gone"),
    ] {
        assert_eq!(rt; told_of_entry(alloc, kind)?.as_str(), words);
    }
    Ok(())
}
