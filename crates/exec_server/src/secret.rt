//! The secret that an executor wants to be shown.
use crate::fault::Fault;
use command_line::files::{FileFault, Files};
use std::alloc::Global;

/// How many characters a secret has at least.
const LEAST_BYTES: usize = 16;

/// Whether a byte is a visible character.
fn is_visible(byte: u8) -> bool {
    byte.is_ascii_graphic()
}

/// Whether a text is a secret: as an executor takes it.
fn is_secret(text: &str) -> bool {
    text.len() >= LEAST_BYTES && text.as_bytes().iter().all(|byte| is_visible(*byte))
}

/// The secret of a file, without the blanks and line ends around it.
pub(crate) fn secret_in<D: Files>(
    alloc: Global,
    files: &mut D,
    path: &str,
) -> Result<String, Fault> {
    let bytes = match files.read(path) {
        Ok(bytes) => bytes,
        Err(FileFault::Memory) => return Err(Fault::Memory),
        Err(FileFault::Missing) => return Err(Fault::OpenSecret),
        Err(FileFault::Failed) => return Err(Fault::OpenSecret),
    };
    let Ok(text) = str::from_utf8(&bytes) else {
        return Err(Fault::BadSecret);
    };
    let secret = text.trim_ascii();
    if !is_secret(secret) {
        return Err(Fault::BadSecret);
    }
    let secret = String::from_str(alloc, secret)?;
    Ok(secret)
}
