//! Completion over implementors of a caller's own, which state nothing, and the call that
//! `Filesystem` leaves out.
use cargo_toml::{AbstractFilesystem, Error, Filesystem, NoRoot, Value};
use cargo_toml_bench::HeldManifest;
use std::alloc::Global;
use std::collections::HashSet;
use std::io;
use std::test::Fail;

/// An implementor that writes neither of the calls for a root.
struct Silent;

impl AbstractFilesystem for Silent {
    type Roots = NoRoot;

    fn file_names_in(&self, alloc: Global, _rel_path: &str) -> Result<HashSet<String>, Error> {
        Ok(HashSet::new(alloc))
    }
}

fn is_unsupported(fault: &Error) -> bool {
    match fault {
        Error::Io(fault) => fault.kind() == io::ErrorKind::Unsupported,
        _ => false,
    }
}

// Whether that is the fault, wrapped with this hint.
fn is_wrapped(outcome: Result<(), Error>, hint: &str) -> bool {
    let is_wrapped = match &outcome {
        Err(Error::Workspace(inner)) => {
            is_unsupported(&inner.0) && inner.1.as_deref() == Some(hint)
        }
        _ => false,
    };
    drop(outcome);
    is_wrapped
}

const MEMBER: &str = "package = { name = \"m\", workspace = \"../\", version.workspace = true }";

#[test]
fn root_for_hint_of_a_silent_implementor(rt: HostRuntime) -> Result<(), Fail> {
    let alloc = rt.alloc();
    let mut member = HeldManifest::from_str(alloc, MEMBER)?;
    let before = format!(in alloc; "{:?}", member.manifest)?;
    let outcome = member
        .manifest
        .complete_from_abstract_filesystem::<Value, _>(alloc, &Silent, None);
    assert!(rt; is_wrapped(outcome, "../"));
    assert_eq!(rt; format!(in alloc; "{:?}", member.manifest)?, before);
    Ok(())
}

#[test]
fn root_bytes_are_never_read_among_real_files(rt: HostRuntime) -> Result<(), Fail> {
    let read = Filesystem::new(&rt, "").read_root_workspace(rt.alloc(), None);
    let is_refused = matches!(&read, Err(fault) if is_unsupported(fault));
    drop(read);
    assert!(rt; is_refused);
    Ok(())
}
