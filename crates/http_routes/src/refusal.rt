//! Why a request is refused, and the reply to each refusal.
ghost use Rattle.std.specs.Prelude.{◌≡◌, [], ◌∷◌, IfOk, IfErr};
ghost use Rattle.http_routes.specs.ErrJson.{texts_of, err_text};
ghost use Rattle.http_routes.specs.Fault.{input_text};
ghost use Rattle.http_routes.specs.Refusal.{jwt_text, run_head_text, invalid_jwt, refusal_response};
ghost use Rattle.http_routes.specs.declared.reply.Response.TheVariants.{BadRequest, ServerError};

use crate::err_json::ErrJson;
use crate::error::HttpError;
use crate::reply::{Response, Word};
use dist_types::text::Text;
use dist_types::token_error::TokenError;
use std::alloc::Global;
use std::fmt;

/// Why a route refuses a request: each refusal has one reply.
#[derive(Debug, Drop)]
pub enum Refusal {
    /// The bytes are no request.
    BadHead,
    /// A message is due, and the content type is another.
    WrongContentType,
    /// A message is due, and no spelling of one begins the body.
    NoMessage,
    /// The header X-Real-IP is no IP.
    BadRealIp,
    /// There is no such route.
    NoRoute,
    /// A client shows no token.
    NoClientToken,
    /// The check of clients refuses the token, by this word, and the client sees this text.
    ClientRefused(Word, Text),
    /// A server shows no token, or one that is accepted for none.
    NoServer,
    /// The token is accepted for a server with another IP.
    OtherAddress,
    /// The token of a job is due, and none is shown.
    NoJobToken,
    /// The token that is shown is not accepted for the job.
    JobRefused(TokenError),
    /// The body is no run: whether it has the four bytes of a length.
    BadRunHead(bool),
}

/// Why a route does not say what is asked of it.
#[derive(Debug, Drop)]
pub(crate) enum Unrouted {
    /// The request is refused.
    Refused(Refusal),
    /// Memory ran out.
    Memory,
}

/// Why a message is not taken from the body of a request.
#[derive(Clone, Copy, Debug, PartialEq, Eq)]
pub enum RouilleBincodeError {
    /// The body was taken before. It is never answered.
    BodyAlreadyExtracted,
    /// The content type is another than `application/octet-stream`.
    WrongContentType,
    /// No spelling of a message begins the body.
    ParseError,
}

impl fmt::Display for RouilleBincodeError {
    ghost use Rattle.std.specs.Prelude.{Some};
    ghost use Rattle.http_routes.specs.Fault.{input_text};

    ghost output = { λ e. Some (input_text e) };

    fn fmt<W: fmt::Write>(&self, f: &mut fmt::Formatter<W>) -> fmt::Result {
        match self {
            RouilleBincodeError::BodyAlreadyExtracted => {
                write!(f, "the body of the request was already extracted")
            }
            RouilleBincodeError::WrongContentType => {
                write!(f, "the request didn't have a binary content type")
            }
            RouilleBincodeError::ParseError => write!(f, "error while parsing the bincode body"),
        }
    }
}

/// A fault without a cause, of that text.
fn said(alloc: Global, text: &str) -> Result<ErrJson, HttpError>
    ensures texts { IfOk result (λ e. texts_of e ≡ text.now ∷ []) }
    ensures memory { IfErr result (λ e. e ≡ HttpError.Memory) }
{
    let text = Text::of(alloc, text)?;
    Ok(ErrJson::of(text))
}

/// The JSON of a fault without a cause.
fn json_of(alloc: Global, text: &str) -> Result<Text, HttpError>
    ensures text { IfOk result (λ json. json ≡ err_text (text.now ∷ [])) }
    ensures memory { IfErr result (λ e. e ≡ HttpError.Memory) }
{
    let fault = said(alloc, text)?;
    let json = fault.into_data(alloc)?;
    Ok(Text::new(json))
}

/// The text of an error.
fn text_of(alloc: Global, error: RouilleBincodeError) -> Result<Text, HttpError>
    ensures text { IfOk result (λ t. t ≡ input_text error) }
    ensures memory { IfErr result (λ e. e ≡ HttpError.Memory) }
{
    let text = format!(in alloc; "{error}")?;
    Ok(Text::new(text))
}

/// The reply 400 that tells a fault.
fn bad_request(alloc: Global, fault: ErrJson) -> Result<Response, HttpError>
    ensures ok { IfOk result (λ reply. reply ≡ BadRequest (err_text (texts_of fault))) }
    ensures err { IfErr result (λ e. e ≡ HttpError.Memory) }
{
    let json = fault.into_data(alloc)?;
    Ok(Response::BadRequest(Text::new(json)))
}

fn bad_head(alloc: Global) -> Result<Response, HttpError>
    ensures ok { IfOk result (λ reply. reply ≡ refusal_response Refusal.BadHead) }
    ensures err { IfErr result (λ e. e ≡ HttpError.Memory) }
{
    let fault = said(alloc, "bad request head")?;
    bad_request(alloc, fault)
}

fn wrong_content_type(alloc: Global) -> Result<Response, HttpError>
    ensures ok { IfOk result (λ reply. reply ≡ refusal_response Refusal.WrongContentType) }
    ensures err { IfErr result (λ e. e ≡ HttpError.Memory) }
{
    let text = text_of(alloc, RouilleBincodeError::WrongContentType)?;
    bad_request(alloc, ErrJson::of(text))
}

fn no_message(alloc: Global) -> Result<Response, HttpError>
    ensures ok { IfOk result (λ reply. reply ≡ refusal_response Refusal.NoMessage) }
    ensures err { IfErr result (λ e. e ≡ HttpError.Memory) }
{
    let cause = said(alloc, "no message begins the body")?;
    let text = text_of(alloc, RouilleBincodeError::ParseError)?;
    let fault = cause.under(alloc, text)?;
    bad_request(alloc, fault)
}

/// The reply 401 with a word alone.
fn unshown(alloc: Global, word: Word) -> Result<Response, HttpError>
    ensures ok { IfOk result (λ reply. reply ≡ Response.Unauthorised word []) }
    ensures err { IfErr result (λ e. e ≡ HttpError.Memory) }
{
    let body = Text::of(alloc, "")?;
    Ok(Response::Unauthorised(word, body))
}

fn jwt_text(e: TokenError) -> &'static str
    ensures { result.now ≡ jwt_text e }
{
    match e {
        TokenError::BadToken(_) => "JWT decode failed: InvalidToken",
        TokenError::BadMac => "JWT decode failed: InvalidSignature",
        TokenError::MismatchedClaims => "mismatched claims",
        TokenError::FixedMismatch => "fixed token mismatch",
        TokenError::ForwardRefused(_) => "forwarded token refused",
        TokenError::LinkFault => "link fault",
        TokenError::Memory => "out of memory",
    }
}

/// The reply 401 to a job's token.
fn invalid_jwt(alloc: Global, text: &str) -> Result<Response, HttpError>
    ensures ok { IfOk result (λ reply. reply ≡ invalid_jwt text.now) }
    ensures err { IfErr result (λ e. e ≡ HttpError.Memory) }
{
    let body = json_of(alloc, text)?;
    Ok(Response::Unauthorised(Word::InvalidJwt, body))
}

fn run_head_text(told: bool) -> &'static str
    ensures { result.now ≡ run_head_text told }
{
    if told {
        "failed to deserialize run job request"
    } else {
        "failed to read run job input length"
    }
}

/// The reply 500 to a body that is no run.
fn bad_run_head(alloc: Global, told: bool) -> Result<Response, HttpError>
    ensures ok { IfOk result (λ reply. reply ≡ ServerError (err_text (run_head_text told ∷ []))) }
    ensures err { IfErr result (λ e. e ≡ HttpError.Memory) }
{
    let json = json_of(alloc, run_head_text(told))?;
    Ok(Response::ServerError(json))
}

/// The reply to a refusal. Refused for want of memory alone.
pub fn refusal_response(alloc: Global, refusal: Refusal) -> Result<Response, HttpError>
    ensures ok { IfOk result (λ reply. reply ≡ refusal_response refusal) }
    ensures err { IfErr result (λ e. e ≡ HttpError.Memory) }
{
    match refusal {
        Refusal::BadHead => bad_head(alloc),
        Refusal::WrongContentType => wrong_content_type(alloc),
        Refusal::NoMessage => no_message(alloc),
        Refusal::BadRealIp => Ok(Response::BadRealIp),
        Refusal::NoRoute => Ok(Response::NotFound),
        Refusal::NoClientToken => unshown(alloc, Word::NoBearerAuth),
        Refusal::ClientRefused(word, text) => Ok(Response::Unauthorised(word, text)),
        Refusal::NoServer => unshown(alloc, Word::InvalidBearerToken),
        Refusal::OtherAddress => unshown(alloc, Word::MismatchedAddress),
        Refusal::NoJobToken => invalid_jwt(alloc, "no Authorization header"),
        Refusal::JobRefused(e) => invalid_jwt(alloc, jwt_text(e)),
        Refusal::BadRunHead(told) => bad_run_head(alloc, told),
    }
}
