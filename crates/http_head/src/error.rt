//! Why a call of a client, a route or a reader of heads refuses.
use crate::word::Word;
use dist_types::fault::Memory;
use dist_types::text::Bytes;
use dist_types::toolchain_error::ToolchainError;
use std::alloc::{AllocError, AllocFailed};
use thiserror::Error;

/// Why a call refuses. Each call names those that it answers; `WrongContentType`, `BadRealIp`, `NoRoute`,
/// `Unauthorised` and `BadRunHead` name refusals that the routes turn into replies, and no call answers them.
#[derive(Debug, Drop, Error)]
pub enum HttpError {
    /// The bytes are no request.
    #[error("bad request head")]
    BadHead,
    /// A message is due, and the content type is another.
    #[error("the request didn't have a binary content type")]
    WrongContentType,
    /// The bytes are no reply, or no spelling of a message begins its body.
    #[error("no message begins the body")]
    ParseError,
    /// The header X-Real-IP does not say where the request came from.
    #[error("bad X-Real-IP")]
    BadRealIp,
    /// There is no such route.
    #[error("no route")]
    NoRoute,
    /// The request does not show who sent it.
    #[error("unauthorised: {0}")]
    Unauthorised(Word),
    /// The body is no run: whether it has the four bytes of a length.
    #[error("bad run head")]
    BadRunHead(bool),
    /// The head of a run has 2^32 bytes or more.
    #[error("run head too long")]
    HeadTooLong,
    /// A reply has this status, and not 200, and this body.
    #[error("status {0}")]
    Status(u16, Bytes),
    /// The scheme of the scheduler's URL is not `http`.
    #[error("bad base URL")]
    BadBase,
    /// No reply came.
    #[error("no reply")]
    LinkFault,
    /// The client has no such archive.
    #[error("no such toolchain")]
    NotLocal,
    /// Memory ran out.
    #[error("out of memory")]
    Memory,
    /// The packager refused, and its count of refusals rose.
    #[error("packager refused")]
    Packager,
    /// The client's toolchains refused.
    #[error("{0}")]
    Local(ToolchainError),
}

impl From<AllocError> for HttpError {
    ghost use Rattle.std.specs.Prelude.{◌≡◌};
    ghost use Rattle.http_head.specs.declared.error.HttpError.TheVariants.{Memory as OutOfMemory};

    ghost from_gives = { λ _ e. e ≡ OutOfMemory };

    fn from(_: AllocError) -> Self {
        HttpError::Memory
    }
}

impl<T: Drop> From<AllocFailed<T>> for HttpError {
    ghost use Rattle.std.specs.Prelude.{◌≡◌};
    ghost use Rattle.http_head.specs.declared.error.HttpError.TheVariants.{Memory as OutOfMemory};

    ghost from_gives = { λ _ e. e ≡ OutOfMemory };

    fn from(_: AllocFailed<T>) -> Self {
        HttpError::Memory
    }
}

impl From<Memory> for HttpError {
    ghost use Rattle.std.specs.Prelude.{◌≡◌};
    ghost use Rattle.http_head.specs.declared.error.HttpError.TheVariants.{Memory as OutOfMemory};

    ghost from_gives = { λ _ e. e ≡ OutOfMemory };

    fn from(_: Memory) -> Self {
        HttpError::Memory
    }
}
