//! Output and input that fail, and what is printed of a manifest that is not completed.
use cargo_toml::{Error, Manifest};
use cargo_toml_bench::HeldManifest;
use cargo_toml_program::{print_complete, print_features};
use std::alloc::Global;
use std::io;
use std::io::{Read, Write};
use std::test::Fail;

/// Gives one byte, then fails.
#[derive(Drop)]
struct Broken {
    given: bool,
}

impl Read for Broken {
    fn read(&mut self, buf: &mut [u8]) -> io::Result<usize> {
        match buf.first_mut() {
            Some(place) if !self.given => {
                self.given = true;
                *place = b'#';
                Ok(1)
            }
            _ => Err(io::Error::from(io::ErrorKind::BrokenPipe)),
        }
    }
}

/// Takes nothing.
#[derive(Drop)]
struct Full;

impl Write for Full {
    fn write(&mut self, _buf: &[u8]) -> io::Result<usize> {
        Err(io::Error::from(io::ErrorKind::BrokenPipe))
    }

    fn flush(&mut self) -> io::Result<()> {
        Ok(())
    }
}

/// Takes everything, and can't hand it on.
#[derive(Drop)]
struct Kept;

impl Write for Kept {
    fn write(&mut self, buf: &[u8]) -> io::Result<usize> {
        Ok(buf.len())
    }

    fn flush(&mut self) -> io::Result<()> {
        Err(io::Error::from(io::ErrorKind::BrokenPipe))
    }
}

fn is_broken(outcome: Result<(), Error>) -> bool {
    let is_broken = match &outcome {
        Err(Error::Io(fault)) => fault.kind() == io::ErrorKind::BrokenPipe,
        _ => false,
    };
    drop(outcome);
    is_broken
}

// Whether all that is printed into this output ends so.
fn is_refused_by<W: Write>(alloc: Global, manifest: &Manifest, output: &mut W) -> bool {
    is_broken(print_features(alloc, &mut b"".as_slice(), output, 2048))
        && is_broken(print_complete(alloc, manifest, output))
}

#[test]
fn input_and_output_that_fail(rt: HostRuntime) -> Result<(), Fail> {
    let alloc = rt.alloc();
    let mut output = Vec::new(alloc);
    assert!(rt; is_broken(print_features(alloc, &mut Broken { given: false }, &mut output, 2048)));
    assert!(rt; output.is_empty());
    let text = "package = { name = \"p\", version = \"1.0.0\", readme = { workspace = true } }";
    let held = HeldManifest::from_str(alloc, text)?;
    assert!(rt; is_refused_by(alloc, &*held.manifest, &mut Full));
    assert!(rt; is_refused_by(alloc, &*held.manifest, &mut Kept));
    print_complete(alloc, &*held.manifest, &mut output)?;
    let lines = b"build | -\nreadme | -\n";
    assert_eq!(rt; output.as_slice(), lines.as_slice());
    Ok(())
}
