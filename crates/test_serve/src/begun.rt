//! Links whose first bytes were read before: wherever the request is split, it is taken whole and answered.
use crate::calls::{Desk, STATUS, link, serve};
use dist_http::Served;
use dist_types::source::read_up_to;
use http_connections::begun_link::BegunLink;
use std::alloc::Global;
use std::process::Abort;
use std::sync::Wait;

/// Whether a status request is answered, of which so many bytes were read before, and nothing of it is left.
fn is_answered<R: Abort + Wait>(rt: &R, alloc: Global, begun: usize) -> bool {
    let (front, rest) = STATUS.split_at(begun.min(STATUS.len()));
    let front = Vec::from_slice(alloc, front).expect(rt, "memory");
    let mut link = BegunLink::new(front, link(rt, alloc, rest, &[], &[]));
    let mut desk = Desk::new(rt, alloc, 1, b"");
    let served = serve(rt, alloc, &mut desk, &mut link);
    let rest = read_up_to(alloc, &mut link, 1).expect(rt, "a read");
    served == Served::Answered && rest.is_empty()
}

#[test]
fn split_anywhere(rt: HostRuntime) {
    for begun in 0..=STATUS.len() {
        assert!(&rt; is_answered(&rt, rt.alloc(), begun));
    }
}
