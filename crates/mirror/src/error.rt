//! Why a get gives no archive.
use lru_disk_cache::Error as CacheError;
use thiserror::Error;

/// Why a get gives no archive.
#[derive(Clone, Copy, Debug, PartialEq, Eq, Error)]
pub enum MirrorError {
    /// Neither side has it: the far side answered 404.
    #[error("not anywhere")]
    NotAnywhere,
    /// No reply came: the dialer failed, and its count of faults rose.
    #[error("fetch fault")]
    FetchFault,
    /// The far side answered another status than 200 and 404; or 0, where what came is no reply: its head is
    /// unreadable, or its body is another than its Content-Length tells.
    #[error("bad reply {0}")]
    BadReply(u16),
    /// The SHA-256 (FIPS 180-4) of what the far side sent is not the id.
    #[error("wrong digest")]
    WrongDigest,
    /// The near cache failed, and its folder's count of faults rose.
    #[error("{0}")]
    Near(CacheError),
    /// Memory ran out.
    #[error("out of memory")]
    Memory,
}
