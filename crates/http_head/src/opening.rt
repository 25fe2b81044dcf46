//! The head that begins the bytes of a connection, by one parse.
ghost use Rattle.std.specs.Prelude.{◌≡◌, IfOk, length, map};
ghost use Rattle.httparse.specs.Borrowed.{header_parts};
ghost use Rattle.http_head.specs.Opening.{FindsOpening, FindsOpeningIn};

use crate::field::Field;
use crate::fields::read_body_length;
use crate::head::{Parsed, copy_headers, parse_head};
use crate::message::{FEW_HEADERS, MAX_HEADERS};
use dist_types::text::{Items, Text};
use httparse::{EMPTY_HEADER, Header};
use std::alloc::{AllocError, Global};

/// A head that begins bytes, and how many bytes of a body it announces.
#[derive(Debug, Drop)]
pub struct Head {
    /// The method, in any case that was sent.
    pub method: Text,
    /// The target, with its query.
    pub target: Text,
    /// Each field's name and value, in the order of the head.
    pub headers: Items<Field>,
    /// How many bytes the head has.
    pub len: usize,
    /// How many bytes come after it.
    pub body_len: usize,
}

/// What is found in a room.
#[derive(Drop)]
enum Opening {
    /// A head that announces a body.
    Found(Head),
    /// No such head.
    Nothing,
    /// More fields than there is room for.
    Crowded,
}

fn copy_head(
    alloc: Global,
    method: &str,
    target: &str,
    headers: &[Header<'_>],
    len: usize,
    body_len: usize,
) -> Result<Head, AllocError>
    ensures { IfOk result (λ h. h ≡ record {
      method = method.now;
      target = target.now;
      headers = map header_parts headers.now;
      len = len;
      body_len = body_len;
    }) }
{
    Ok(Head {
        method: Text::of(alloc, method)?,
        target: Text::of(alloc, target)?,
        headers: copy_headers(alloc, headers)?,
        len,
        body_len,
    })
}

/// The head that begins the bytes, where its fields have room.
fn opening_in<'b>(
    alloc: Global,
    room: &mut [Header<'b>],
    bytes: &'b [u8],
) -> Result<Opening, AllocError>
    ensures { IfOk result (FindsOpeningIn (length room.old) bytes.now) }
{
    let mut head = httparse::Request::new(room);
    let len = match parse_head(&mut head, bytes) {
        Parsed::Head(len) => len,
        Parsed::Nothing => return Ok(Opening::Nothing),
        Parsed::Crowded => return Ok(Opening::Crowded),
    };
    let method = head.method.unwrap();
    let target = head.path.unwrap();
    let headers: &[Header<'_>] = head.headers;
    let Some(body_len) = read_body_length(headers) else {
        return Ok(Opening::Nothing);
    };
    let copy = copy_head(alloc, method, target, headers, len, body_len)?;
    Ok(Opening::Found(copy))
}

/// The same with room for all fields.
fn crowded_head(alloc: Global, bytes: &[u8]) -> Result<Option<Head>, AllocError>
    ensures { IfOk result (FindsOpening bytes.now) }
{
    let mut room = [EMPTY_HEADER; MAX_HEADERS];
    match opening_in(alloc, &mut room, bytes) {
        Ok(Opening::Found(head)) => Ok(Some(head)),
        Ok(Opening::Nothing) => Ok(None),
        Ok(Opening::Crowded) => Ok(None),
        Err(e) => Err(e),
    }
}

/// The request's head that begins the bytes, within the limits of `read_head`, and how many bytes of a body
/// it announces. None exactly where none begins them, or it announces no number. Refused for want of memory
/// alone.
pub fn head_of(alloc: Global, bytes: &[u8]) -> Result<Option<Head>, AllocError>
    ensures { IfOk result (FindsOpening bytes.now) }
{
    let mut room = [EMPTY_HEADER; FEW_HEADERS];
    match opening_in(alloc, &mut room, bytes) {
        Ok(Opening::Found(head)) => Ok(Some(head)),
        Ok(Opening::Nothing) => Ok(None),
        Ok(Opening::Crowded) => crowded_head(alloc, bytes),
        Err(e) => Err(e),
    }
}
