//! A reply as it stands in the bytes that it came in: nothing is copied.
ghost use Rattle.std.specs.Prelude.{MatchOption, length};
ghost use Rattle.http_head.specs.Head.{IsNoReply};
ghost use Rattle.http_head.specs.Lent.{Lends, FindsLent};

use crate::fields::allows;
use crate::head::{Parsed, after, parse_reply_head};
use crate::message::{FEW_HEADERS, MAX_HEADERS};
use httparse::{EMPTY_HEADER, Header};

/// The status and the body of a reply.
#[derive(Clone, Copy, Debug)]
pub struct LentReply<'a> {
    /// The status code, three digits.
    pub code: u16,
    /// All bytes after the head.
    pub body: &'a [u8],
}

/// What is found in a room.
#[derive(Clone, Copy)]
enum Lent<'a> {
    /// A reply.
    Found(LentReply<'a>),
    /// No reply.
    Nothing,
    /// More fields than there is room for.
    Crowded,
}

/// The reply that the bytes are, where its fields have room.
fn lent_in<'b>(room: &mut [Header<'b>], bytes: &'b [u8]) -> Lent<'b>
    ensures { FindsLent (length room.old) bytes.now result }
{
    let mut head = httparse::Response::new(room);
    let len = match parse_reply_head(&mut head, bytes) {
        Parsed::Head(len) => len,
        Parsed::Nothing => return Lent::Nothing,
        Parsed::Crowded => return Lent::Crowded,
    };
    let code = head.code.unwrap();
    let headers: &[Header<'_>] = head.headers;
    let body = after(bytes, len);
    if !allows(headers, body) {
        return Lent::Nothing;
    }
    Lent::Found(LentReply { code, body })
}

/// The same with room for all fields.
fn crowded_reply(bytes: &[u8]) -> Option<LentReply<'_>>
    ensures { MatchOption result (IsNoReply bytes.now) (Lends bytes.now) }
{
    let mut room = [EMPTY_HEADER; MAX_HEADERS];
    match lent_in(&mut room, bytes) {
        Lent::Found(reply) => Some(reply),
        Lent::Nothing => None,
        Lent::Crowded => None,
    }
}

/// The reply that the bytes are, as `read_reply_head` reads it, without its fields; None exactly where they
/// are no reply. It takes no memory.
pub fn lent_reply(bytes: &[u8]) -> Option<LentReply<'_>>
    ensures { MatchOption result (IsNoReply bytes.now) (Lends bytes.now) }
{
    let mut room = [EMPTY_HEADER; FEW_HEADERS];
    match lent_in(&mut room, bytes) {
        Lent::Found(reply) => Some(reply),
        Lent::Nothing => None,
        Lent::Crowded => crowded_reply(bytes),
    }
}
