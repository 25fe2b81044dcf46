//! A check of clients' tokens that asks a peer.
use dist_token::checks::ClientAuthCheck;
use dist_token::proxy::ProxyTokenCheck;
use dist_types::dialer::{AskFault, MemDialer};
use dist_types::text::Bytes;
use dist_types::token_error::TokenError;
use std::alloc::{AllocError, Global};
use std::process::Abort;
use url::Url;

/// Adds those replies.
fn add(alloc: Global, all: &mut Vec<Bytes>, replies: &[&str]) -> Result<(), AllocError> {
    for reply in replies {
        all.push(Bytes::from_slice(alloc, reply.as_bytes())?)?;
    }
    Ok(())
}

/// A dialer that gives these replies, and whose calls of these numbers fail.
fn dialer(rt: &impl Abort, alloc: Global, replies: &[&str], fails: &[u64]) -> MemDialer {
    let mut all = Vec::new(alloc);
    add(alloc, &mut all, replies).expect(rt, "memory");
    let fails = fails.to_vec(alloc).expect(rt, "memory");
    MemDialer::new(alloc, all, fails)
}

/// A check that asks the peer at this URL through the dialer.
fn asking(
    rt: &impl Abort,
    alloc: Global,
    at: &str,
    cache_secs: Option<u64>,
    dialer: MemDialer,
) -> ProxyTokenCheck<MemDialer> {
    let url = Url::parse(alloc, at).expect(rt, "a URL");
    assert!(rt; url.scheme() == "http");
    ProxyTokenCheck::new(alloc, dialer, url, cache_secs)
}

const YES: &str = "HTTP/1.1 200 OK\r\nContent-Length: 0\r\n\r\n";

const NO: &str = "HTTP/1.1 403 Forbidden\r\n\r\n";

/// Whether the token is accepted at that moment.
fn accepts(check: &mut ProxyTokenCheck<MemDialer>, now: u64) -> bool {
    check.check(now, "t") == Ok(())
}

/// Whether the token is refused at that moment, with the status of the peer's reply.
fn refuses(check: &mut ProxyTokenCheck<MemDialer>, now: u64, status: u16) -> bool {
    check.check(now, "t") == Err(TokenError::ForwardRefused(status))
}

/// Whether it asked so often.
fn asked(check: &ProxyTokenCheck<MemDialer>, times: usize) -> bool {
    check.dialer().asked().len() == times
}

/// A token is asked about at 0, not at 59999, and again at 60000; a refusal is not kept.
fn keep(rt: &impl Abort, check: &mut ProxyTokenCheck<MemDialer>) {
    assert!(rt; accepts(check, 0) && asked(check, 1));
    assert!(rt; accepts(check, 59999) && asked(check, 1));
    assert!(rt; accepts(check, 60000) && asked(check, 2));
    assert!(rt; accepts(check, 59000) && asked(check, 2));
    assert!(rt; refuses(check, 120000, 403));
    assert!(rt; accepts(check, 120001) && asked(check, 4));
}

/// Whether this is where it asked first, and what.
fn is_first(check: &ProxyTokenCheck<MemDialer>, host: &str, port: u16, request: &[u8]) -> bool {
    match check.dialer().asked().first() {
        Some(row) => row.host.get() == host && row.port == port && row.request.get() == request,
        None => false,
    }
}

/// Whether that is what the client is told.
fn shows(check: &ProxyTokenCheck<MemDialer>, text: &str) -> bool {
    match check.visible(&TokenError::LinkFault) {
        Ok(shown) => shown.text() == text,
        Err(_) => false,
    }
}

#[test]
fn kept_for_sixty_seconds(rt: HostRuntime) {
    let dialer = dialer(&rt, rt.alloc(), &[YES, YES, NO, YES], &[]);
    let mut check = asking(&rt, rt.alloc(), "http://proxy/auth?x=1", Some(60), dialer);
    keep(&rt, &mut check);
    let request =
        b"GET /auth?x=1 HTTP/1.1\r\nHost: proxy:80\r\nAuthorization: Bearer t\r\nConnection: close\r\n\r\n".as_slice();
    assert!(&rt; is_first(&check, "proxy", 80, request));
    assert!(&rt; shows(&check, "Validation with token forwarding failed"));
}

/// What the peer replies, one to a call; the tenth call fails.
const REPLIES: &[&str] = &[
    NO,
    "HTTP/1.1 199 Odd\r\n\r\n",
    "HTTP/1.1 300 Odd\r\n\r\n",
    "HTTP/1.1 500 Odd\r\n\r\nbody",
    "",
    "HTTP/1.1 200 OK\r\n",
    "200",
    "HTTP/1.1 299 Odd\r\n\r\n",
    YES,
];

/// The status of each of them without a success: an unreadable one has 0.
const STATUSES: &[u16] = &[403, 199, 300, 500, 0, 0, 0];

/// Each reply without a success is carried, an unreadable one as 0, and nothing is kept.
fn refuse(rt: &impl Abort, check: &mut ProxyTokenCheck<MemDialer>) {
    for status in STATUSES {
        assert!(rt; refuses(check, 0, *status), "{status}");
    }
    assert!(rt; accepts(check, 0));
    assert!(rt; accepts(check, 0));
    assert!(rt; check.check(0, "t") == Err(TokenError::LinkFault));
}

/// Whether the last call was to that address, and failed.
fn is_last(check: &ProxyTokenCheck<MemDialer>, host: &str, port: u16) -> bool {
    match check.dialer().asked().last() {
        Some(row) => {
            let failed = matches!(row.answer, Err(AskFault::Failed));
            failed && row.host.get() == host && row.port == port
        }
        None => false,
    }
}

#[test]
fn refused_or_not_kept(rt: HostRuntime) {
    let dialer = dialer(&rt, rt.alloc(), REPLIES, &[9]);
    let mut check = asking(&rt, rt.alloc(), "http://[::1]:8080/", None, dialer);
    refuse(&rt, &mut check);
    assert!(&rt; asked(&check, 10) && is_last(&check, "[::1]", 8080));
}
