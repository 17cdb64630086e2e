//! What comes of a manifest that is cut off, or has a byte that no text has.
use crate::row::Shown;
use cargo_toml::Error;
use cargo_toml_bench::HeldManifest;
use std::alloc::Global;

/// That each beginning of the manifest, of every length from 0, is read or answers `Parse`, or else
/// what is answered to one.
pub fn beginnings(alloc: Global, bytes: &[u8]) -> Shown {
    for len in 0..=bytes.len() {
        match HeldManifest::from_slice(alloc, &bytes[..len]) {
            Ok(_) | Err(Error::Parse(_)) => {}
            Err(fault) => return Ok(format!(in alloc; "{len} bytes: {fault:?}")?),
        }
    }
    Ok(format!(in alloc;
        "of {} bytes each beginning is read or answers Parse\n",
        bytes.len()
    )?)
}

/// That the manifest with any one byte replaced by FF is no text, or else what is answered.
pub fn replaced(alloc: Global, bytes: &[u8]) -> Shown {
    for at in 0..bytes.len() {
        let mut changed = bytes.to_vec(alloc)?;
        if let Some(byte) = changed.get_mut(at) {
            *byte = 0xFF;
        }
        match HeldManifest::from_slice(alloc, changed.as_slice()) {
            Err(Error::Other("utf8")) => {}
            Err(fault) => return Ok(format!(in alloc; "byte {at}: {fault:?}")?),
            Ok(_) => return Ok(format!(in alloc; "byte {at}: nothing is refused")?),
        }
    }
    Ok(format!(in alloc;
        "of {} bytes each, replaced by FF, answers Other(\"utf8\")\n",
        bytes.len()
    )?)
}
