//! What the check of clients says of the token that is shown to it.
ghost use Rattle.std.specs.Prelude.{◌≡◌, IfOk, IfErr, IfSome, Result, ⊤, option_copied};
ghost use Rattle.dist_types.specs.declared.token_error.TokenError.{TokenError as Refusal};
ghost use Rattle.http_routes.specs.Admission.{client_token, word_by, IsAdmission, Admits, MayBeAsked};

use crate::error::HttpError;
use crate::place::is_at;
use crate::reply::Word;
use crate::request::Request;
use dist_token::checks::ClientAuthCheck;
use dist_types::fault::Memory;
use dist_types::text::Text;
use dist_types::token_error::TokenError;
use http_head::bearer::token_in;
use std::alloc::Global;

/// What the check of clients says of a token.
#[derive(Debug, Drop)]
pub enum Admission {
    /// Its client is let in.
    Admitted,
    /// It is refused, by this word, and its client sees this text.
    Refused(Word, Text),
}

/// The token that a request shows to the check of clients: it asks for a job, and shows one.
#[tactic(auto, unfolding(crate::specs::Admission::client_token))]
pub(crate) fn client_token(request: &Request) -> Option<&str>
    ensures { option_copied result ≡ client_token request.now }
{
    if is_at(request, "POST", "/api/v1/scheduler/alloc_job") {
        token_in(request.header("authorization"))
    } else {
        None
    }
}

/// The word of a token that a check refuses. None where memory ran out, and nothing is said of the token.
fn word_of(e: &TokenError) -> Option<Word>
    ensures known { IfSome result (λ word. (word ≡ word_by e.now) × ¬ (e.now ≡ TokenError.Memory)) }
{
    match e {
        TokenError::BadToken(_) => Some(Word::BearerAuthFailed),
        TokenError::BadMac => Some(Word::BearerAuthFailed),
        TokenError::MismatchedClaims => Some(Word::BearerAuthFailed),
        TokenError::FixedMismatch => Some(Word::BearerAuthFailed),
        TokenError::ForwardRefused(_) => Some(Word::BearerAuthFailed),
        TokenError::LinkFault => Some(Word::LinkFailed),
        TokenError::Memory => None,
    }
}

/// What a refused client is told.
fn refused<K: ClientAuthCheck>(
    alloc: Global,
    client: &K,
    e: TokenError,
) -> Result<Admission, HttpError>
    ensures ok { IfOk result (λ says. (says ≡ Admission.Refused (word_by e) (K.shown client.now e))
        × ¬ (e ≡ TokenError.Memory)) }
    ensures err { IfErr result (λ fault. fault ≡ HttpError.Memory) }
{
    let Some(word) = word_of(&e) else {
        return Err(HttpError::Memory);
    };
    match client.visible(&e) {
        Ok(msg) => {
            let text = Text::of(alloc, msg.text())?;
            Ok(Admission::Refused(word, text))
        }
        Err(Memory) => Err(HttpError::Memory),
    }
}

/// What the check says of a token at a moment.
fn asked<K: ClientAuthCheck>(
    alloc: Global,
    client: &mut K,
    now: u64,
    token: &str,
) -> Result<Admission, HttpError>
    ensures ok { IfOk result
        (λ says. IsAdmission K.may_answer K.shown client.old now token.now says client.new) }
    ensures err { IfErr result (λ fault. fault ≡ HttpError.Memory) }
    ensures left { (answer : Result ⊤ Refusal) × K.may_answer client.old now token.now answer client.new }
{
    match client.check(now, token) {
        Ok(()) => Ok(Admission::Admitted),
        Err(e) => refused(alloc, client, e),
    }
}

/// What the check says of the token that a request shows to it; none where it shows none. Refused for want of
/// memory alone.
pub(crate) fn said_of<K: ClientAuthCheck>(
    alloc: Global,
    request: &Request,
    now: u64,
    client: &mut K,
) -> Result<Option<Admission>, HttpError>
    ensures ok { IfOk result
        (λ said. Admits K.may_answer K.shown (client_token request.now) now client.old said client.new) }
    ensures err { IfErr result (λ fault. fault ≡ HttpError.Memory) }
    ensures left { MayBeAsked K.may_answer (client_token request.now) now client.old client.new }
{
    match client_token(request) {
        Some(token) => {
            let says = asked(alloc, client, now, token)?;
            Ok(Some(says))
        }
        None => Ok(None),
    }
}
