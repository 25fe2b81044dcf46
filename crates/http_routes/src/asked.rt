//! What the bytes that a peer sent ask of the scheduler.
ghost use Rattle.std.specs.Prelude.{◌≡◌, IfOk, IfErr, OnErr};
ghost use Rattle.http_routes.specs.Admission.{equal_admission};
ghost use Rattle.http_routes.specs.Asked.{bad_question, IsAskedOf, IsAskedUnder, IsAsked, MayBeAskedBy};

use crate::error::HttpError;
use crate::head::read_head;
use crate::refusal::{Refusal, refusal_response};
use crate::route::{Asked, SchedRouted, Terms, scheduler_route, wants_json};
use dist_token::checks::{ClientAuthCheck, EqCheck, PlainServerCheck, ServerAuthCheck};
use std::alloc::Global;

/// What is asked by bytes that are no request.
fn bad_question(alloc: Global) -> Result<Asked, HttpError>
    ensures ok { IfOk result (λ asked. asked ≡ bad_question) }
    ensures err { IfErr result (λ e. e ≡ HttpError.Memory) }
{
    let reply = refusal_response(alloc, Refusal::BadHead)?;
    Ok(Asked {
        what: SchedRouted::Done(reply),
        json: false,
    })
}

/// What the bytes that a peer sent ask of the scheduler at that moment, under its checks of clients and of
/// servers, and by its rules; bytes that are no request get their reply. The check of clients is asked once
/// at most, about the token of a request for a job. Refused for want of memory alone.
pub fn asked_of_checks<K: ClientAuthCheck, V: ServerAuthCheck>(
    alloc: Global,
    bytes: &[u8],
    terms: Terms,
    now: u64,
    client: &mut K,
    server: &V,
) -> Result<Asked, HttpError>
    ensures ok { IfOk result (λ asked. IsAskedOf terms.rules K.may_answer K.shown
        (V.server_of server.now) bytes.now terms.peer now client.old asked client.new) }
    ensures err { IfErr result (λ e. e ≡ HttpError.Memory) }
    ensures left { OnErr result (MayBeAskedBy K.may_answer bytes.now now client.old client.new) }
{
    match read_head(alloc, bytes) {
        Ok(request) => {
            let json = wants_json(&request);
            let Terms { peer, rules } = terms;
            let what = scheduler_route(alloc, &request, peer, now, client, server, rules)?;
            Ok(Asked { what, json })
        }
        Err(HttpError::BadHead) => bad_question(alloc),
        Err(_) => Err(HttpError::Memory),
    }
}

/// The same of a scheduler whose clients all have one token. The check stays as it was, for want of memory
/// too. Refused for want of memory alone.
#[tactic(auto, using(crate::proofs::AskLemmas::asked_equal, crate::proofs::AskLemmas::left_equal))]
pub fn asked_under<V: ServerAuthCheck>(
    alloc: Global,
    bytes: &[u8],
    terms: Terms,
    client: &mut EqCheck,
    server: &V,
) -> Result<Asked, HttpError>
    ensures ok { IfOk result
        (IsAskedUnder terms.rules (equal_admission client.old) (V.server_of server.now) bytes.now
        terms.peer) }
    ensures same { client.new ≡ client.old }
    ensures err { IfErr result (λ e. e ≡ HttpError.Memory) }
{
    let asked = asked_of_checks(alloc, bytes, terms, 0, client, server)?;
    Ok(asked)
}

/// What the bytes that a peer sent ask of the scheduler, under one token of all clients and one of all
/// servers; bytes that are no request get their reply. Refused for want of memory alone.
pub fn asked(
    alloc: Global,
    bytes: &[u8],
    terms: Terms,
    client_token: &str,
    server_token: &str,
) -> Result<Asked, HttpError>
    ensures ok { IfOk result (IsAsked terms.rules bytes.now terms.peer client_token.now
        server_token.now) }
    ensures err { IfErr result (λ e. e ≡ HttpError.Memory) }
{
    let mut client = EqCheck::new(String::from_str(alloc, client_token)?);
    let server = PlainServerCheck::new(String::from_str(alloc, server_token)?);
    let asked = asked_under(alloc, bytes, terms, &mut client, &server)?;
    Ok(asked)
}
