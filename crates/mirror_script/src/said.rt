//! What a step of a mirror's run gave, and its line.
ghost use Rattle.std.specs.Prelude.{◌≡◌, IfOk, string_bytes};
ghost use Rattle.mirror_script.specs.Said.{hex_text, said_text};

use dist_types::text::Bytes;
use dist_types::toolchain::Toolchain;
use std::alloc::{AllocError, Global};

/// What a step gave.
#[derive(Debug, Drop)]
pub enum Said {
    /// The bytes were put, as the archive of this toolchain.
    Put(Toolchain),
    /// The bytes are more than the cache takes.
    TooLarge,
    /// The near cache lists the archive, which has these bytes.
    Near(Bytes),
    /// The archive came from the far side, and is listed near now.
    Fetched(Bytes),
    /// The archive came from the far side, and the near cache did not take it.
    Unlisted(Bytes),
    /// Neither cache lists the archive.
    NotAnywhere,
    /// The ask of the far side failed.
    FetchFault,
    /// The far side answered with this status, or 0 where its reply was not readable.
    BadReply(u16),
    /// What the far side sent is another archive.
    WrongDigest,
    /// A later ask fails.
    Lose,
    /// A later ask is answered with a given body.
    Lie,
}

/// Bytes in lower-case hex, or a dash for none.
fn hex_of(alloc: Global, bytes: &[u8]) -> Result<String, AllocError>
    ensures { IfOk result (λ t. string_bytes t ≡ hex_text bytes.now) }
{
    match bytes {
        [] => String::from_str(alloc, "-"),
        [_, ..] => hex::encode(alloc, bytes),
    }
}

/// The line, with its end. Refused for want of memory alone.
pub fn text(alloc: Global, said: &Said) -> Result<String, AllocError>
    ensures text { IfOk result (λ t. string_bytes t ≡ said_text said.now) }
{
    match said {
        Said::Put(tc) => {
            let id = tc.archive_id();
            format!(in alloc; "put {id}\n")
        }
        Said::TooLarge => String::from_str(alloc, "too large\n"),
        Said::Near(bytes) => {
            let hex = hex_of(alloc, bytes.get())?;
            format!(in alloc; "near {hex}\n")
        }
        Said::Fetched(bytes) => {
            let hex = hex_of(alloc, bytes.get())?;
            format!(in alloc; "fetched {hex}\n")
        }
        Said::Unlisted(bytes) => {
            let hex = hex_of(alloc, bytes.get())?;
            format!(in alloc; "fetched unlisted {hex}\n")
        }
        Said::NotAnywhere => String::from_str(alloc, "not anywhere\n"),
        Said::FetchFault => String::from_str(alloc, "fetch fault\n"),
        Said::BadReply(code) => format!(in alloc; "bad reply {code}\n"),
        Said::WrongDigest => String::from_str(alloc, "wrong digest\n"),
        Said::Lose => String::from_str(alloc, "lose\n"),
        Said::Lie => String::from_str(alloc, "lie\n"),
    }
}
