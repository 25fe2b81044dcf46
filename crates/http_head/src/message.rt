//! What a request and a reply are read by: with a small room for fields first, and then with one for all.
ghost use Rattle.std.specs.Prelude.{◌≡◌, IfOk, IfErr, MatchOption, length};

use crate::error::HttpError;
use httparse::{EMPTY_HEADER, Header};
use std::alloc::Global;

/// How many fields a head has at most.
pub const MAX_HEADERS: usize = 100;

/// How many fields the room has that is tried first. Most heads have fewer, and a small room is soon made.
pub(crate) const FEW_HEADERS: usize = 16;

/// A request or a reply.
pub(crate) trait Message: Sized {
    ghost use Rattle.std.specs.Prelude.{ℕ, List};
    ghost use Rattle.http_head.specs.declared.error.HttpError.{HttpError};

    /// The bytes are that message.
    ghost is: { List ℕ → Self → Type 0 };

    /// Each head that begins the bytes has more fields than there is room for.
    ghost overflows: { ℕ → List ℕ → Type 0 };

    /// What a refusal says of the bytes.
    ghost refuses: { List ℕ → HttpError → Type 0 };

    /// The message that the bytes are, where its fields have room; None where they have none.
    fn read_in<'b>(
        alloc: Global,
        room: &mut [Header<'b>],
        bytes: &'b [u8],
    ) -> Result<Option<Self>, HttpError>
        ensures ok { IfOk result
            (λ message. MatchOption message (overflows (length room.old) bytes.now) (is bytes.now)) }
        ensures err { IfErr result (refuses bytes.now) };

    /// The refusal of bytes that are no such message.
    fn refusal() -> HttpError
        ensures { (bytes : List ℕ) → overflows 100 bytes → refuses bytes result };
}

/// The message that the bytes are, with room for all fields.
fn read_crowded<M: Message>(alloc: Global, bytes: &[u8]) -> Result<M, HttpError>
    ensures ok { IfOk result (M.is bytes.now) }
    ensures err { IfErr result (M.refuses bytes.now) }
{
    let mut room = [EMPTY_HEADER; MAX_HEADERS];
    match M::read_in(alloc, &mut room, bytes) {
        Ok(Some(message)) => Ok(message),
        Ok(None) => Err(M::refusal()),
        Err(e) => Err(e),
    }
}

/// The message that the bytes are.
pub(crate) fn read<M: Message>(alloc: Global, bytes: &[u8]) -> Result<M, HttpError>
    ensures ok { IfOk result (M.is bytes.now) }
    ensures err { IfErr result (M.refuses bytes.now) }
{
    let mut room = [EMPTY_HEADER; FEW_HEADERS];
    match M::read_in(alloc, &mut room, bytes) {
        Ok(Some(message)) => Ok(message),
        Ok(None) => read_crowded(alloc, bytes),
        Err(e) => Err(e),
    }
}
