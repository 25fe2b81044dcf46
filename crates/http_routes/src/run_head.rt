//! The body of a request to run a job: a head, behind its length, and the inputs.
ghost use Rattle.std.specs.Prelude.{◌≡◌, true, option_map};
ghost use Rattle.dist_wire.specs.Reading.{exactly_at};
ghost use Rattle.http_routes.specs.declared.refusal.Refusal.TheVariants.{BadRunHead};
ghost use Rattle.http_routes.specs.RunHead.{length_at, run_alone, run_in};
ghost use Rattle.http_routes.specs.Steps.{Decides, unless_none};

use crate::refusal::{Refusal, Unrouted};
use dist_wire::error::WireError;
use dist_wire::message::Message;
use dist_wire::run::RunJobHttpRequest;
use std::alloc::Global;

/// So many bytes in front, and what follows them.
#[tactic(auto, unfolding(dist_wire::specs::Reading::exactly_at))]
fn exactly_at(count: usize, bytes: &[u8]) -> Option<(&[u8], &[u8])>
    ensures { option_map (λ p. (p.0.now, p.1.now)) result ≡ exactly_at count bytes.now }
{
    if bytes.len() < count {
        return None;
    }
    Some(bytes.split_at(count))
}

/// The length in front, and what follows it.
#[tactic(auto, unfolding(crate::specs::RunHead::length_at, dist_wire::specs::Reading::exactly_at))]
fn length_at(bytes: &[u8]) -> Option<(u32, &[u8])>
    ensures { option_map (λ p. (p.0, p.1.now)) result ≡ length_at bytes.now }
{
    if bytes.len() < 4 {
        return None;
    }
    let (b, rest) = bytes.split_at(4);
    Some((u32::from_be_bytes([b[0], b[1], b[2], b[3]]), rest))
}

/// The run that the head is.
#[tactic(auto, unfolding(crate::specs::RunHead::run_alone))]
fn run_alone(alloc: Global, head: &[u8]) -> Result<RunJobHttpRequest, Unrouted>
    ensures { Decides (unless_none (BadRunHead true) (run_alone head.now)) result }
{
    match RunJobHttpRequest::read(alloc, head) {
        Ok((run, len)) => {
            if len == head.len() {
                Ok(run)
            } else {
                Err(Unrouted::Refused(Refusal::BadRunHead(true)))
            }
        }
        Err(WireError::ParseError) => Err(Unrouted::Refused(Refusal::BadRunHead(true))),
        Err(WireError::Memory) => Err(Unrouted::Memory),
    }
}

/// The run that a body holds, and where in it the inputs begin. Nothing of them is copied.
#[tactic(auto, unfolding(crate::specs::RunHead::run_in))]
pub(crate) fn run_in(alloc: Global, body: &[u8]) -> Result<(RunJobHttpRequest, usize), Unrouted>
    ensures { Decides (run_in body.now) result }
{
    let Some((len, rest)) = length_at(body) else {
        return Err(Unrouted::Refused(Refusal::BadRunHead(false)));
    };
    let Some((head, _inputs)) = exactly_at(len as usize, rest) else {
        return Err(Unrouted::Refused(Refusal::BadRunHead(true)));
    };
    let run = run_alone(alloc, head)?;
    Ok((run, 4 + len as usize))
}
