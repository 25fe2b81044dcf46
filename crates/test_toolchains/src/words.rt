//! Words of a step, and of what came of it.
use crate::fault::Fault;
use dist_types::text::Bytes;
use dist_types::toolchain::Toolchain;
use path_pkg::mem_packager::MemPackager;
use std::alloc::Global;

/// A text in front of its first blank, and what stands behind that.
pub(crate) fn cut(text: &str) -> (&str, &str) {
    match text.split_once(' ') {
        Some(parts) => parts,
        None => (text, ""),
    }
}

/// A text of its own.
pub(crate) fn said(alloc: Global, text: &str) -> Result<String, Fault> {
    let text = String::from_str(alloc, text)?;
    Ok(text)
}

/// The bytes of a word in hex.
pub(crate) fn bytes_of(alloc: Global, word: &str) -> Result<Vec<u8>, Fault> {
    match hex::decode(alloc, word.as_bytes()) {
        Ok(bytes) => Ok(bytes),
        Err(_) => Err(Fault::BadStep),
    }
}

/// Bytes in hex, or `-` where there are none.
pub(crate) fn hex_of(alloc: Global, bytes: &[u8]) -> Result<String, Fault> {
    if bytes.is_empty() {
        return said(alloc, "-");
    }
    let word = hex::encode(alloc, bytes)?;
    Ok(word)
}

/// The toolchain of an id.
pub(crate) fn toolchain(id: &str) -> Result<Toolchain, Fault> {
    match Toolchain::new(id) {
        Ok(tc) => Ok(tc),
        Err(_) => Err(Fault::BadStep),
    }
}

/// A packager that refuses its first call.
fn refusing(alloc: Global) -> Result<MemPackager, Fault> {
    let mut refuses = Vec::new(alloc);
    refuses.push(0)?;
    Ok(MemPackager::new(alloc, Bytes::new(Vec::new(alloc)), refuses))
}

/// A packager of these bytes in hex, or one that refuses, for the word `refuses`.
pub(crate) fn packager(alloc: Global, word: &str) -> Result<MemPackager, Fault> {
    if word == "refuses" {
        return refusing(alloc);
    }
    let bytes = bytes_of(alloc, word)?;
    Ok(MemPackager::new(alloc, Bytes::new(bytes), Vec::new(alloc)))
}
