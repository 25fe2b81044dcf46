//! The heads of requests and replies (RFC 9112, sections 2 to 6, as the crate `httparse` reads them).
ghost use Rattle.std.specs.Prelude.{◌≡◌, ◌≤◌, IfOk, IfErr, MatchOption, map, length, drop};
ghost use Rattle.httparse.specs.Borrowed.{header_parts};
ghost use Rattle.http_head.specs.Head.{IsRequest, Refuses, FindsHead, IsReply, RefusesReply, FindsReplyHead};
ghost use Rattle.http_head.specs.Head.{HasStatus, Overflows, ReplyOverflows};

use crate::error::HttpError;
use crate::field::Field;
use crate::fields::{allows, is_body};
pub use crate::message::MAX_HEADERS;
use crate::message::{Message, read};
use crate::reply::Reply;
use crate::request::Request;
use dist_types::text::{Bytes, Items, Text};
use httparse::{EMPTY_HEADER, Error, Header, Status};
use std::alloc::{AllocError, Global};

/// How many bytes a head has at most.
pub const MAX_HEAD_BYTES: usize = 65536;

/// What a parse finds.
#[derive(Clone, Copy, Drop)]
pub(crate) enum Parsed {
    /// A head of so many bytes.
    Head(usize),
    /// No head.
    Nothing,
    /// More fields than there is room for.
    Crowded,
}

/// Parses the request's head that begins the bytes, within the limits.
pub(crate) fn parse_head<'b>(head: &mut httparse::Request<'_, 'b>, bytes: &'b [u8]) -> Parsed
    ensures { FindsHead (length head.old.headers.now) bytes.now head.new result }
{
    let len = match head.parse(bytes) {
        Ok(Status::Complete(len)) => len,
        Ok(Status::Partial) => return Parsed::Nothing,
        Err(Error::TooManyHeaders) => return Parsed::Crowded,
        Err(_) => return Parsed::Nothing,
    };
    if head.headers.len() > MAX_HEADERS {
        return Parsed::Nothing;
    }
    if len > MAX_HEAD_BYTES {
        return Parsed::Nothing;
    }
    Parsed::Head(len)
}

/// Parses the reply's head that begins the bytes, within the limits.
pub(crate) fn parse_reply_head<'b>(head: &mut httparse::Response<'_, 'b>, bytes: &'b [u8]) -> Parsed
    ensures { FindsReplyHead (length head.old.headers.now) bytes.now head.new result }
{
    let len = match head.parse(bytes) {
        Ok(Status::Complete(len)) => len,
        Ok(Status::Partial) => return Parsed::Nothing,
        Err(Error::TooManyHeaders) => return Parsed::Crowded,
        Err(_) => return Parsed::Nothing,
    };
    if head.headers.len() > MAX_HEADERS {
        return Parsed::Nothing;
    }
    if len > MAX_HEAD_BYTES {
        return Parsed::Nothing;
    }
    Parsed::Head(len)
}

pub(crate) fn copy_headers(
    alloc: Global,
    headers: &[Header<'_>],
) -> Result<Items<Field>, AllocError>
    ensures { IfOk result (λ h. h ≡ map header_parts headers.now) }
{
    let mut copies = Vec::with_capacity(alloc, headers.len())?;
    for h in headers {
        let copy = Field::of(alloc, h.name, h.value)?;
        copies.push(copy)?;
    }
    Ok(Items::new(copies))
}

fn copy_request(
    alloc: Global,
    method: &str,
    target: &str,
    headers: &[Header<'_>],
    body: &[u8],
) -> Result<Request, AllocError>
    ensures { IfOk result (λ r. r ≡ record {
      method = method.now;
      target = target.now;
      headers = map header_parts headers.now;
      body = body.now;
    }) }
{
    Ok(Request {
        method: Text::of(alloc, method)?,
        target: Text::of(alloc, target)?,
        headers: copy_headers(alloc, headers)?,
        body: Bytes::from_slice(alloc, body)?,
    })
}

fn copy_reply(
    alloc: Global,
    code: u16,
    headers: &[Header<'_>],
    body: &[u8],
) -> Result<Reply, AllocError>
    ensures { IfOk result (λ r. r ≡ record {
      code = code;
      headers = map header_parts headers.now;
      body = body.now;
    }) }
{
    Ok(Reply {
        code,
        headers: copy_headers(alloc, headers)?,
        body: Bytes::from_slice(alloc, body)?,
    })
}

pub(crate) fn after(bytes: &[u8], len: usize) -> &[u8]
    requires { len ≤ length bytes.now }
    ensures { result.now ≡ drop len bytes.now }
{
    &bytes[len..]
}

impl Message for Request {
    ghost is = { IsRequest };

    ghost overflows = { Overflows };

    ghost refuses = { Refuses };

    fn read_in<'b>(
        alloc: Global,
        room: &mut [Header<'b>],
        bytes: &'b [u8],
    ) -> Result<Option<Request>, HttpError> {
        let mut head = httparse::Request::new(room);
        let len = match parse_head(&mut head, bytes) {
            Parsed::Head(len) => len,
            Parsed::Nothing => return Err(HttpError::BadHead),
            Parsed::Crowded => return Ok(None),
        };
        let method = head.method.unwrap();
        let target = head.path.unwrap();
        let headers: &[Header<'_>] = head.headers;
        let body = after(bytes, len);
        if !is_body(headers, body) {
            return Err(HttpError::BadHead);
        }
        let request = copy_request(alloc, method, target, headers, body)?;
        Ok(Some(request))
    }

    fn refusal() -> HttpError {
        HttpError::BadHead
    }
}

impl Message for Reply {
    ghost is = { IsReply };

    ghost overflows = { ReplyOverflows };

    ghost refuses = { RefusesReply };

    fn read_in<'b>(
        alloc: Global,
        room: &mut [Header<'b>],
        bytes: &'b [u8],
    ) -> Result<Option<Reply>, HttpError> {
        let mut head = httparse::Response::new(room);
        let len = match parse_reply_head(&mut head, bytes) {
            Parsed::Head(len) => len,
            Parsed::Nothing => return Err(HttpError::ParseError),
            Parsed::Crowded => return Ok(None),
        };
        let code = head.code.unwrap();
        let headers: &[Header<'_>] = head.headers;
        let body = after(bytes, len);
        if !allows(headers, body) {
            return Err(HttpError::ParseError);
        }
        let reply = copy_reply(alloc, code, headers, body)?;
        Ok(Some(reply))
    }

    fn refusal() -> HttpError {
        HttpError::ParseError
    }
}

/// The request that the bytes are: a head, and exactly as many bytes after it as its one
/// Content-Length says, or none. BadHead exactly where they are no request; else refused for want of
/// memory alone.
pub fn read_head(alloc: Global, bytes: &[u8]) -> Result<Request, HttpError>
    ensures ok { IfOk result (IsRequest bytes.now) }
    ensures err { IfErr result (Refuses bytes.now) }
{
    read(alloc, bytes)
}

/// The reply that the bytes are: a head, and all bytes after it, which a Content-Length counts if
/// there is one. ParseError exactly where they are no reply; else refused for want of memory alone.
pub fn read_reply_head(alloc: Global, bytes: &[u8]) -> Result<Reply, HttpError>
    ensures ok { IfOk result (IsReply bytes.now) }
    ensures err { IfErr result (RefusesReply bytes.now) }
{
    read(alloc, bytes)
}

/// The status of the reply's head that begins the bytes, whatever it says of its body; None exactly where
/// none begins them. It takes no memory.
pub fn status_of(bytes: &[u8]) -> Option<u16>
    ensures { HasStatus bytes.now result }
{
    let mut room = [EMPTY_HEADER; MAX_HEADERS];
    let mut head = httparse::Response::new(&mut room);
    match parse_reply_head(&mut head, bytes) {
        Parsed::Head(_) => head.code,
        Parsed::Nothing => None,
        Parsed::Crowded => None,
    }
}
