//! Writing one reply.
ghost use Rattle.std.specs.Prelude.{◌≡◌};
ghost use Rattle.dist_types.specs.Cause.{Rose};
ghost use Rattle.dist_types.specs.Content.{Added, Began};
ghost use Rattle.http_routes.specs.Reply.{reply_text};
ghost use Rattle.http_connections.specs.declared.served.Served.TheVariants as served;

use crate::served::Served;
use dist_types::sink::{Sink, write_all};
use http_routes::reply::Response;
use std::alloc::Global;

/// Writes the reply, whose bytes are all made before the first is written.
pub fn send<K: Sink>(alloc: Global, link: &mut K, reply: &Response) -> Served
    ensures answered { result ≡ served.Answered → Added (reply_text reply.now) (K.held link.old)
        (K.held link.new) }
    ensures failed { result ≡ served.WriteFault → Rose (K.faults link.old) (K.faults link.new)
        × Began (reply_text reply.now) (K.held link.old) (K.held link.new) }
    ensures memory { result ≡ served.Memory → K.held link.new ≡ K.held link.old }
    ensures steady { ¬ (result ≡ served.WriteFault) → K.faults link.new ≡ K.faults link.old }
    ensures no_read { ¬ (result ≡ served.ReadFault) }
    ensures apart { K.apart link.new ≡ K.apart link.old }
{
    let bytes = match reply.bytes(alloc) {
        Ok(bytes) => bytes,
        Err(_) => return Served::Memory,
    };
    match write_all(link, &bytes) {
        Ok(()) => Served::Answered,
        Err(_) => Served::WriteFault,
    }
}
