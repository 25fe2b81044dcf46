//! The word of a 401 reply (RFC 6750, section 3).
use std::fmt;

/// The word of a 401 reply, which says why a request was refused as unauthorised.
#[derive(Clone, Copy, Debug, PartialEq, Eq)]
pub enum Word {
    /// A client shows no `Authorization: Bearer TOKEN`.
    NoBearerAuth,
    /// Another token than the client's.
    BearerAuthFailed,
    /// A server shows no token, or one that is no server's.
    InvalidBearerToken,
    /// The token of a server with another IP.
    MismatchedAddress,
    /// A token that is not the job's.
    InvalidJwt,
    /// The token could not be checked. It prints as BearerAuthFailed.
    LinkFailed,
}

impl fmt::Display for Word {
    ghost use Rattle.std.specs.Prelude.{Some};
    ghost use Rattle.http_head.specs.Word.{word_text};

    ghost output = { λ w. Some (word_text w) };

    fn fmt<W: fmt::Write>(&self, f: &mut fmt::Formatter<W>) -> fmt::Result {
        match self {
            Word::NoBearerAuth => write!(f, "no_bearer_auth"),
            Word::BearerAuthFailed => write!(f, "bearer_auth_failed"),
            Word::InvalidBearerToken => write!(f, "invalid_bearer_token"),
            Word::MismatchedAddress => write!(f, "invalid_bearer_token_mismatched_address"),
            Word::InvalidJwt => write!(f, "invalid_jwt"),
            Word::LinkFailed => write!(f, "bearer_auth_failed"),
        }
    }
}
