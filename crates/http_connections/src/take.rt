//! Taking a request: the stop, one parse, and exactly the body behind it, which is kept or dropped.
ghost use Rattle.std.specs.Prelude.{◌≡◌, ◌≢◌, ◌⊎◌, ◌≤◌, List, ℕ, length, drop, IfOk, IfErr, IfSome, OnOk};
ghost use Rattle.std.specs.Prelude.{OnErr, Err, IsTrue};
ghost use Rattle.dist_types.specs.Cause.{Rose};
ghost use Rattle.dist_types.specs.Content.{TookFront, TookAtMost, IsAtEnd};
ghost use Rattle.http_head.specs.declared.request.Request.{Request as Asked};
ghost use Rattle.http_connections.specs.Taking.{TakesOrDrops, TakesWithin, IsBodyAt, IsDropped, LacksBody};
ghost use Rattle.http_connections.specs.Taking.{TookSome};

use crate::stop::read_stop;
use dist_types::fault::Failed;
use dist_types::link::Link;
use dist_types::source::{ReadError, Source, read_up_to};
use dist_types::text::Bytes;
use http_head::opening::{Head, head_of};
use http_head::request::Request;
use std::alloc::Global;

/// How many bytes of a body that is dropped are read at once.
const DROPPED_BYTES: usize = 16_384;

/// Tells of a head whether it settles what is asked, so that nobody reads the body behind it.
pub trait HeadTest {
    /// Of which requests that holds, whatever their bodies are.
    ghost settled: { Self → Asked → Type 0 };

    /// Whether the head settles what the request asks, which has no body here. It may say no of any.
    fn is_settled(&self, request: &Request) -> bool
        ensures { IsTrue result → settled self.now request.now };
}

fn rest_of(alloc: Global, bytes: &[u8], len: usize) -> Result<Vec<u8>, ReadError>
    requires { len ≤ length bytes.now }
    ensures rest { IfOk result (λ v. v.items ≡ drop len bytes.now) }
    ensures memory { IfErr result (λ e. e ≡ ReadError.Memory) }
{
    match Vec::from_slice(alloc, &bytes[len..]) {
        Ok(rest) => Ok(rest),
        Err(_) => Err(ReadError::Memory),
    }
}

/// The body behind a head of so many bytes that begins the stop.
fn body_of<S: Source>(
    alloc: Global,
    link: &mut S,
    stop: &[u8],
    len: usize,
    limit: usize,
) -> Result<Vec<u8>, ReadError>
    requires { len ≤ length stop.now }
    ensures body { IfOk result (λ v.
        IsBodyAt stop.now len limit v.items (S.left link.old) (S.left link.new)) }
    ensures steady { result ≢ Err ReadError.Failed → S.faults link.new ≡ S.faults link.old }
    ensures later { S.faults link.old ≤ S.faults link.new }
    ensures cause { result ≡ Err ReadError.Failed → Rose (S.faults link.old) (S.faults link.new) }
    ensures never_long { IfErr result (λ e. ¬ (e ≡ ReadError.TooLong)) }
    ensures front { OnErr result (TookFront (S.left link.old) (S.left link.new)) }
    ensures lacks { OnErr result (
        LacksBody stop.now len limit (S.left link.old) (S.left link.new)) }
    ensures apart { S.apart link.new ≡ S.apart link.old }
{
    if len == stop.len() {
        return read_up_to(alloc, link, limit);
    }
    rest_of(alloc, stop, len)
}

/// Reads to the end, or as many bytes as the limit says, and keeps none: how many came. Failed comes only where the
/// count of faults rose; then a front was read, of no more bytes than the limit.
fn drop_up_to<S: Source>(link: &mut S, limit: usize) -> Result<usize, Failed>
    ensures came { IfOk result (λ n. TookSome n (S.left link.old) (S.left link.new)) }
    ensures within { IfOk result (λ n. n ≤ limit) }
    ensures whole { IfOk result (λ n. (n ≡ limit) ⊎ IsAtEnd (S.left link.new)) }
    ensures steady { OnOk result (S.faults link.new ≡ S.faults link.old) }
    ensures later { S.faults link.old ≤ S.faults link.new }
    ensures cause { OnErr result (Rose (S.faults link.old) (S.faults link.new)) }
    ensures bounded { OnErr result (TookAtMost limit (S.left link.old) (S.left link.new)) }
    ensures apart { S.apart link.new ≡ S.apart link.old }
{
    let mut buf = [0u8; DROPPED_BYTES];
    let mut came = 0;
    while came < limit {
        let want = (limit - came).min(DROPPED_BYTES);
        let n = link.read(&mut buf[..want])?;
        if n == 0 {
            return Ok(came);
        }
        came += n;
    }
    Ok(came)
}

/// How many bytes come of the body behind a head of so many bytes that begins the stop. None is kept.
fn drop_body<S: Source>(
    link: &mut S,
    stop: &[u8],
    len: usize,
    limit: usize,
) -> Result<usize, ReadError>
    requires { len ≤ length stop.now }
    ensures body { IfOk result (λ n.
        IsDropped stop.now len limit n (S.left link.old) (S.left link.new)) }
    ensures steady { OnOk result (S.faults link.new ≡ S.faults link.old) }
    ensures later { S.faults link.old ≤ S.faults link.new }
    ensures failed { IfErr result (λ e. e ≡ ReadError.Failed) }
    ensures cause { OnErr result (Rose (S.faults link.old) (S.faults link.new)) }
    ensures lacks { OnErr result (
        LacksBody stop.now len limit (S.left link.old) (S.left link.new)) }
    ensures apart { S.apart link.new ≡ S.apart link.old }
{
    if len < stop.len() {
        return Ok(stop.len() - len);
    }
    match drop_up_to(link, limit) {
        Ok(n) => Ok(n),
        Err(Failed) => Err(ReadError::Failed),
    }
}

fn request_of(head: Head, body: Vec<u8>) -> Request
    ensures { result ≡ record {
      method = head.method;
      target = head.target;
      headers = head.headers;
      body = body.items;
    } }
{
    let Head {
        method,
        target,
        headers,
        ..
    } = head;
    Request {
        method,
        target,
        headers,
        body: Bytes::new(body),
    }
}

fn with_body(request: Request, body: Vec<u8>) -> Request
    ensures { result ≡ record {
      method = request.method;
      target = request.target;
      headers = request.headers;
      body = body.items;
    } }
{
    let Request {
        method,
        target,
        headers,
        ..
    } = request;
    Request {
        method,
        target,
        headers,
        body: Bytes::new(body),
    }
}

/// Takes the cut of what the link has left: the request that it is, or None where it is no request. The body of a
/// request that its head settles is dropped as it comes, and the request then has none. Failed comes only where
/// the link's count of read faults rose, and TooLong never; after an error a front of the cut was taken. Nothing
/// is written.
pub fn take<L: Link, T: HeadTest>(
    alloc: Global,
    link: &mut L,
    test: &T,
) -> Result<Option<Request>, ReadError>
    ensures cut { IfOk result (λ request. IfSome (L.left link.old) (λ bytes.
        TakesOrDrops (T.settled test.now) bytes (L.left link.new) request)) }
    ensures steady { result ≢ Err ReadError.Failed → L.Source.faults link.new ≡ L.Source.faults link.old }
    ensures later { L.Source.faults link.old ≤ L.Source.faults link.new }
    ensures cause { result ≡ Err ReadError.Failed
        → Rose (L.Source.faults link.old) (L.Source.faults link.new) }
    ensures never_long { IfErr result (λ e. ¬ (e ≡ ReadError.TooLong)) }
    ensures front { OnErr result (TookFront (L.left link.old) (L.left link.new)) }
    ensures within { OnErr result (IfSome (L.left link.old) (λ bytes.
        TakesWithin bytes (L.left link.new))) }
    ensures writes { (L.held link.new ≡ L.held link.old) × (L.Sink.faults link.new ≡ L.Sink.faults link.old) }
{
    let stop = read_stop(alloc, link)?;
    let Some(head) = head_of(alloc, &stop)? else {
        return Ok(None);
    };
    let len = head.len;
    let body_len = head.body_len;
    let request = request_of(head, Vec::new(alloc));
    if test.is_settled(&request) {
        let came = match drop_body(link, &stop, len, body_len) {
            Ok(came) => came,
            Err(fault) => return Err(fault),
        };
        if came != body_len {
            return Ok(None);
        }
        return Ok(Some(request));
    }
    let body = match body_of(alloc, link, &stop, len, body_len) {
        Ok(body) => body,
        Err(fault) => return Err(fault),
    };
    if body.len() != body_len {
        return Ok(None);
    }
    Ok(Some(with_body(request, body)))
}
