//! The check that forwards a client's token to a peer, and lets in whom that peer lets in.
ghost use Rattle.std.specs.Prelude.{◌≡◌, IfOk, OnOk, string_bytes};
ghost use Rattle.http_head.specs.WrittenRequest.{request_text};
ghost use Rattle.dist_types.specs.Cause.{Rose};
ghost use Rattle.dist_types.specs.declared.token_error.TokenError.TheVariants.{LinkFault};
ghost use Rattle.dist_types.specs.declared.token_error.TokenError.TheVariants.{Memory as OutOfMemory};
ghost use Rattle.dist_token.specs.Forwarded.{target_of, forwarded, HasCode, is_success, is_fresh, Shows};
ghost use Rattle.dist_token.specs.Forwarded.{host_of, port_of};

use crate::checks::{ClientAuthCheck, ClientVisibleMsg, TokenRefusal};
use crate::kept::{Kept, forget, keep, moment_of, none_kept};
use dist_types::dialer::{AskFault, Dialer};
use dist_types::fault::Memory;
use dist_types::text::{Bytes, Text};
use dist_types::token_error::TokenError;
use http_head::head::status_of;
use http_head::written_request::{Method, WrittenRequest};
use std::alloc::Global;
use url::Url;

/// Milliseconds of a second.
const MS: u64 = 1000;

// The path, and where there is one `?` and the query.
#[tactic(auto, unfolding(crate::specs::Forwarded::target_of))]
fn target_of(alloc: Global, url: &Url) -> Result<String, Memory>
    ensures { IfOk result (λ target. string_bytes target ≡ target_of url.now) }
{
    let path = url.path();
    match url.query() {
        Some(query) => Ok(format!(in alloc; "{path}?{query}")?),
        None => Ok(String::from_str(alloc, path)?),
    }
}

fn host_of(url: &Url) -> &str
    ensures { result.now ≡ host_of url.now }
{
    url.host_str().unwrap_or("")
}

fn port_of(url: &Url) -> u16
    ensures { result ≡ port_of url.now }
{
    url.port_or_known_default().unwrap_or(80)
}

// The bytes of a GET of the URL with the token.
fn request_for(alloc: Global, url: &Url, token: &str) -> Result<Bytes, Memory>
    ensures { IfOk result (λ request. request ≡ request_text (forwarded url.now token.now)) }
{
    let target = target_of(alloc, url)?;
    let host = host_of(url);
    let port = port_of(url);
    let host = format!(in alloc; "{host}:{port}")?;
    let token = Text::of(alloc, token)?;
    let request = WrittenRequest {
        method: Method::Get,
        target: Text::new(target),
        host: Text::new(host),
        token: Some(token),
        body: None,
    };
    let bytes = request.bytes(alloc)?;
    Ok(bytes)
}

// The status of the reply, or 0 where it has no head.
fn code_of(reply: &[u8]) -> u16
    ensures { HasCode reply.now result }
{
    match status_of(reply) {
        Some(status) => status,
        None => 0,
    }
}

fn is_success(status: u16) -> bool
    ensures { result ≡ is_success status }
{
    200 <= status && status <= 299
}

// Whether a token that was accepted at a moment is accepted without asking.
fn is_fresh(cache_secs: Option<u64>, now: u64, moment: Option<u64>) -> bool
    ensures { result ≡ is_fresh cache_secs now moment }
{
    match cache_secs {
        Some(cache_secs) => match moment {
            Some(moment) => now.saturating_sub(moment) < cache_secs.saturating_mul(MS),
            None => false,
        },
        None => false,
    }
}

// Asks the peer with the token, and gives the status of its reply.
fn asked_status<D: Dialer>(
    alloc: Global,
    dialer: &mut D,
    url: &Url,
    token: &str,
) -> Result<u16, TokenError>
    ensures shown { Shows url.now token.now result (D.asked dialer.old) (D.asked dialer.new) }
    ensures steady { OnOk result (D.faults dialer.new ≡ D.faults dialer.old) }
    ensures uncounted { result ≡ Err OutOfMemory → D.faults dialer.new ≡ D.faults dialer.old }
    ensures cause { result ≡ Err LinkFault → Rose (D.faults dialer.old) (D.faults dialer.new) }
{
    let request = match request_for(alloc, url, token) {
        Ok(request) => request,
        Err(Memory) => return Err(TokenError::Memory),
    };
    match dialer.ask(host_of(url), port_of(url), request.get()) {
        Ok(reply) => Ok(code_of(&reply)),
        Err(AskFault::Failed) => Err(TokenError::LinkFault),
        Err(AskFault::Memory) => Err(TokenError::Memory),
    }
}

/// Lets in the clients whose token a peer accepts, which it is asked by a GET of the URL with that
/// token. A token that was accepted is kept, and accepted again for so many seconds without asking.
#[derive(Drop)]
pub struct ProxyTokenCheck<D> {
    alloc: Global,
    dialer: D,
    url: Url,
    cache_secs: Option<u64>,
    kept: Kept,
}

impl<D: Dialer> ProxyTokenCheck<D> {
    ghost use Rattle.std.specs.Prelude.{◌≡◌, ℕ, List, None, codes};
    ghost use Rattle.dist_token.specs.ProxyViews.{seen};

    /// A check that asks at this URL, and keeps a token for so many seconds, or keeps none. It takes no
    /// memory.
    pub fn new(alloc: Global, dialer: D, url: Url, cache_secs: Option<u64>) -> Self
        requires { url.scheme ≡ codes "http" }
        ensures url { (seen D.asked D.faults result).url ≡ url }
        ensures cache_secs { (seen D.asked D.faults result).cache_secs ≡ cache_secs }
        ensures cached { (token : List ℕ) → (seen D.asked D.faults result).moment_of token ≡ None }
        ensures asked { (seen D.asked D.faults result).asked ≡ D.asked dialer }
        ensures faults { (seen D.asked D.faults result).faults ≡ D.faults dialer }
    {
        ProxyTokenCheck {
            alloc,
            dialer,
            url,
            cache_secs,
            kept: none_kept(alloc),
        }
    }

    /// The dialer, with its record.
    pub fn dialer(&self) -> &D
        ensures asked { D.asked result.now ≡ (seen D.asked D.faults self.now).asked }
    {
        &self.dialer
    }
}

/// The peer is asked about any.
impl<D: Dialer> TokenRefusal for ProxyTokenCheck<D> {
    ghost use Rattle.std.specs.Prelude.{false};

    ghost refuses = { λ check token. false };

    fn is_refused(&self, _token: &str) -> bool {
        false
    }
}

impl<D: Dialer + Send> ClientAuthCheck for ProxyTokenCheck<D> {
    ghost use Rattle.dist_token.specs.CheckLaws.{none_refused};
    ghost use Rattle.dist_token.specs.Forwarded.{MayAnswer, forwarding_shown};
    ghost use Rattle.dist_token.specs.ProxyViews.{seen};

    ghost may_answer = { λ old now token answer new. MayAnswer (seen D.asked D.faults old) now token answer
        (seen D.asked D.faults new) };

    ghost shown = { λ check e. forwarding_shown };

    ghost refusals = { λ check now token answer new says refused. none_refused answer refused };

    fn check(&mut self, now: u64, token: &str) -> Result<(), TokenError> {
        if is_fresh(self.cache_secs, now, moment_of(&self.kept, token)) {
            return Ok(());
        }
        forget(&mut self.kept, token);
        match asked_status(self.alloc, &mut self.dialer, &self.url, token) {
            Ok(status) => {
                if !is_success(status) {
                    return Err(TokenError::ForwardRefused(status));
                }
                match self.cache_secs {
                    Some(_) => match keep(self.alloc, &mut self.kept, token, now) {
                        Ok(()) => Ok(()),
                        Err(Memory) => Err(TokenError::Memory),
                    },
                    None => Ok(()),
                }
            }
            Err(e) => Err(e),
        }
    }

    fn visible(&self, _e: &TokenError) -> Result<ClientVisibleMsg, Memory> {
        let text = String::from_str(self.alloc, "Validation with token forwarding failed")?;
        Ok(ClientVisibleMsg::from_nonsensitive(text))
    }
}
