//! Why a token is refused.
use crate::fault::Memory;
use std::alloc::AllocError;
use thiserror::Error;

/// The part of a token that is at fault, as the tests meet it.
#[derive(Clone, Copy, Debug, PartialEq, Eq)]
pub enum Part {
    /// The token is not three parts joined by dots.
    Shape,
    /// The MAC's text is not base64url.
    Mac,
    /// The header is not the one that is asked for.
    Header,
    /// The claims are not those of this kind of token.
    Claims,
}

/// Why a token is refused, or could not be asked about.
#[derive(Clone, Copy, Debug, PartialEq, Eq, Error)]
pub enum TokenError {
    /// A part of the token is at fault.
    #[error("bad token")]
    BadToken(Part),
    /// The MAC is another key's or another text's.
    #[error("bad message authentication code")]
    BadMac,
    /// The claims are another job's or another server's.
    #[error("mismatched claims")]
    MismatchedClaims,
    /// The token is not the fixed one.
    #[error("fixed token mismatch")]
    FixedMismatch,
    /// The service that was asked refused the token with this status, 0 where its reply could not be read.
    #[error("forwarded token refused with status {0}")]
    ForwardRefused(u16),
    /// The service could not be asked.
    #[error("link fault")]
    LinkFault,
    /// Memory ran out.
    #[error("out of memory")]
    Memory,
}

impl From<Memory> for TokenError {
    ghost use Rattle.std.specs.Prelude.{◌≡◌};
    ghost use Rattle.dist_types.specs.declared.token_error.TokenError.TheVariants.{Memory as OutOfMemory};

    ghost from_gives = { λ _ e. e ≡ OutOfMemory };

    fn from(_: Memory) -> Self {
        TokenError::Memory
    }
}

impl From<AllocError> for TokenError {
    ghost use Rattle.std.specs.Prelude.{◌≡◌};
    ghost use Rattle.dist_types.specs.declared.token_error.TokenError.TheVariants.{Memory as OutOfMemory};

    ghost from_gives = { λ _ e. e ≡ OutOfMemory };

    fn from(_: AllocError) -> Self {
        TokenError::Memory
    }
}
