//! What the reply of the far side says.
ghost use Rattle.std.specs.Prelude.{◌≡◌, IfOk};
ghost use Rattle.mirror.specs.Asking.{said_of, Tells};

use dist_types::fault::Memory;
use dist_types::text::Bytes;
use http_head::error::HttpError;
use http_head::head::read_reply_head;
use http_head::reply::Reply;
use std::alloc::Global;

/// The status of a reply with an archive.
const FOUND: u16 = 200;

/// The status by which the far side says that it has no such archive.
const NOT_FOUND: u16 = 404;

/// What the far side says.
#[derive(Debug, Drop)]
pub enum Said {
    /// These bytes are the archive.
    Archive(Bytes),
    /// There is no such archive.
    NotThere,
    /// Something else, by that status; or nothing that can be read, by 0.
    Bad(u16),
}

/// What a reply says.
fn said_of(reply: Reply) -> Said
    ensures { result ≡ said_of reply }
{
    if reply.code == FOUND {
        return Said::Archive(reply.body);
    }
    if reply.code == NOT_FOUND {
        return Said::NotThere;
    }
    Said::Bad(reply.code)
}

/// What the bytes of a reply say. Refused for want of memory alone.
fn said_in(alloc: Global, bytes: &[u8]) -> Result<Said, Memory>
    ensures { IfOk result (Tells bytes.now) }
{
    match read_reply_head(alloc, bytes) {
        Ok(reply) => Ok(said_of(reply)),
        Err(HttpError::ParseError) => Ok(Said::Bad(0)),
        Err(_) => Err(Memory),
    }
}

/// What a reply says, which is let go: what is left of it is the archive. Refused for want of memory alone.
pub(crate) fn read(alloc: Global, reply: Bytes) -> Result<Said, Memory>
    ensures { IfOk result (Tells reply) }
{
    let said = said_in(alloc, reply.get());
    said
}
