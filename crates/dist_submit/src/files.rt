//! The files that the words name.
use dist_types::source::{Source, read_whole};
use std::alloc::Global;
use std::fs;
use std::rt::Files;
use submit_words::job::{Job, Token};
use submit_words::refusal::Refusal;

/// The most bytes of the inputs.
const MAX_INPUT: u32 = 2_147_483_648;

/// The bytes of a file.
pub(crate) fn read<R: Files + AllocGlobal>(rt: &R, name: &str) -> Option<Vec<u8>> {
    fs::read(rt, name).ok()
}

/// The bytes of the inputs: of a file, of standard input, or none.
pub(crate) fn inputs<R: Files + AllocGlobal, I: Source>(
    rt: &R,
    alloc: Global,
    job: &Job<'_>,
    input: &mut I,
) -> Result<Vec<u8>, Refusal> {
    let Some(name) = job.input else {
        return Ok(Vec::new(alloc));
    };
    let bytes = if name == "-" {
        read_whole(alloc, input, MAX_INPUT).ok()
    } else {
        read(rt, name)
    };
    match bytes {
        Some(bytes) => Ok(bytes),
        None => {
            let name = String::from_str(alloc, name)?;
            Err(Refusal::InputUnread(name))
        }
    }
}

/// A text without the line ends at its end.
fn without_ends(text: &str) -> &str {
    text.trim_end_matches('\n').trim_end_matches('\r')
}

/// The clients' token: of a file the text without line ends at its end.
pub(crate) fn token<R: Files + AllocGlobal>(
    rt: &R,
    alloc: Global,
    job: &Job<'_>,
) -> Result<String, Refusal> {
    let name = match job.token {
        Token::Word(text) => {
            let token = String::from_str(alloc, text)?;
            return Ok(token);
        }
        Token::File(name) => name,
    };
    if let Some(bytes) = read(rt, name) {
        if let Ok(text) = str::from_utf8(&bytes) {
            let token = String::from_str(alloc, without_ends(text))?;
            return Ok(token);
        }
    }
    let name = String::from_str(alloc, name)?;
    Err(Refusal::TokenUnread(name))
}

/// Makes the directory of a file. Answers whether it stands.
fn make_directory<R: Files + AllocGlobal>(rt: &R, path: &str) -> bool {
    match path.rsplit_once('/') {
        Some((dir, _name)) => dir.is_empty() || fs::create_dir_all(rt, dir).is_ok(),
        None => true,
    }
}

/// Writes a file under another name first, so that none is ever half written. Answers whether it is.
pub(crate) fn write<R: Files + AllocGlobal>(rt: &R, path: &str, part: &str, bytes: &[u8]) -> bool {
    make_directory(rt, path)
        && fs::write(rt, part, bytes).is_ok()
        && fs::rename(rt, part, path).is_ok()
}
