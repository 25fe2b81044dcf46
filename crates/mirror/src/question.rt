//! The request for an archive, written and read.
ghost use Rattle.std.specs.Prelude.{◌≡◌, IfOk, option_copied};
ghost use Rattle.dist_types.specs.Toolchain.{digest_in};
ghost use Rattle.http_head.specs.WrittenRequest.{request_text};
ghost use Rattle.http_routes.specs.Place.{stripped};
ghost use Rattle.mirror.specs.Question.{mirror_question, id_asked};

use dist_types::fault::Memory;
use dist_types::text::{Bytes, Text};
use dist_types::toolchain::Toolchain;
use http_head::request::Request;
use http_head::written_request::{Method, WrittenRequest};
use std::alloc::Global;

/// The bytes of the request for the archive of a toolchain. Refused for want of memory alone.
#[tactic(auto, unfolding(crate::specs::Question::mirror_question))]
pub(crate) fn question(
    alloc: Global,
    host: &str,
    port: u16,
    tc: &Toolchain,
) -> Result<Bytes, Memory>
    ensures text { IfOk result
        (λ bytes. bytes ≡ request_text (mirror_question host.now port tc.now)) }
{
    let id = tc.archive_id();
    let target = format!(in alloc; "/api/v1/mirror/{id}")?;
    let host = format!(in alloc; "{host}:{port}")?;
    let request = WrittenRequest {
        method: Method::Get,
        target: Text::new(target),
        host: Text::new(host),
        token: None,
        body: None,
    };
    let bytes = request.bytes(alloc)?;
    Ok(bytes)
}

/// What follows the front, where the text begins with it.
#[tactic(auto, using(http_routes::proofs::PlaceLemmas::strips))]
fn behind<'a>(front: &str, text: &'a str) -> Option<&'a str>
    ensures { option_copied result ≡ stripped front.now text.now }
{
    text.strip_prefix(front)
}

/// The toolchain of an id.
fn toolchain_in(text: &str) -> Option<Toolchain>
    ensures { result ≡ digest_in text.now }
{
    match Toolchain::new(text) {
        Ok(tc) => Some(tc),
        Err(_) => None,
    }
}

/// The toolchain whose archive a request asks for. It takes no memory.
#[tactic(auto, unfolding(crate::specs::Question::id_asked))]
pub(crate) fn id_asked(request: &Request) -> Option<Toolchain>
    ensures { result ≡ id_asked request.now }
{
    if request.method.get() != "GET" {
        return None;
    }
    let id = behind("/api/v1/mirror/", request.path())?;
    toolchain_in(id)
}
