//! A proved caller of `cargo_toml_bench`, with metadata of its own.
use cargo_toml::Error;
use cargo_toml_bench::audience::{Audience, audience_of, rewrite};
use std::alloc::Global;
use std::test::Fail;

// What a function owns where it may end costs proof. So an answer is looked at in a function that
// has no other exit, and that ends it by `drop`.
fn is_unknown(answer: Result<Option<Audience>, Error>) -> bool {
    let is_unknown = match &answer {
        Err(Error::Other(words)) => *words == "unknown audience",
        _ => false,
    };
    drop(answer);
    is_unknown
}

// The tree of what is written again.
fn rewritten(alloc: Global, bytes: &[u8]) -> Result<String, Error> {
    let tree = rewrite(alloc, bytes)?;
    let text = format!(in alloc; "{tree}");
    drop(tree);
    Ok(text?)
}

#[test]
fn metadata_read_and_written(rt: HostRuntime) -> Result<(), Fail> {
    let alloc = rt.alloc();
    let text = b"[package]\nname = \"p\"\nmetadata = \"everyone\"\n";
    assert_eq!(rt; audience_of(alloc, text)?, Some(Audience::Everyone));
    assert_eq!(rt; audience_of(alloc, b"")?, None);
    assert!(rt; is_unknown(audience_of(alloc, b"[package]\nname = \"p\"\nmetadata = 3\n")));
    assert_eq!(rt;
        rewritten(alloc, b"[workspace]\nmetadata = \"team\"\n")?.as_str(),
        "{ workspace = { members = [], metadata = \"team\" } }"
    );
    Ok(())
}
