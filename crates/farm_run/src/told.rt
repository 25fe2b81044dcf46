//! What a step logged, as an effect tells it: the one place that copies an entry out of the log.
ghost use Rattle.std.specs.Prelude.{◌≡◌, ◌<◌, ◌-◌, Some, None, Option, length, slice_get, IfOk, IfErr};
ghost use Rattle.core_rules.specs.Log.{Core as Seen};
ghost use Rattle.core_rules.specs.declared.entry.CoreEntry.{CoreEntry as Entry};
ghost use Rattle.farm_entries.specs.Effects.{reply_effect, reply_to};
ghost use Rattle.farm_entries.specs.Seen.{with_core};
ghost use Rattle.line_program.specs.declared.fault.FarmFault.TheVariants as fault;

use crate::pending::Made;
use core_rules::entry::CoreEntry;
use dist_token::job_token::JWTJobAuthorizer;
use dist_types::text::Bytes;
use farm_entries::entry::{Effect, Reply};
use http_routes::replies::want_of_memory;
use http_routes::reply::Response;
use line_program::fault::FarmFault;
use sched_core::state::SchedState;
use std::alloc::{AllocError, Global};

/// Where and when what is asked is answered.
#[derive(Clone, Copy, Debug)]
pub struct Turn {
    /// The entry that is replied to.
    pub root: u64,
    pub json: bool,
    pub at: u64,
}

/// The reply of an entry.
pub fn reply(alloc: Global, number: u64, response: &Response) -> Result<Reply, AllocError>
    ensures ok { IfOk result (λ r. r ≡ reply_to number response.now) }
{
    match response.bytes(alloc) {
        Ok(bytes) => Ok(Reply {
            to: number,
            bytes: Bytes::new(bytes),
        }),
        Err(error) => Err(want_of_memory(error)),
    }
}

/// A copy of the last entry of a log.
fn last_copy(alloc: Global, log: &[CoreEntry]) -> Result<CoreEntry, AllocError>
    requires { 0 < length log.now }
    ensures { IfOk result (λ e. slice_get log.now (length log.now - 1) ≡ Some e) }
{
    log[log.len() - 1].copy(alloc)
}

/// The entry that was made since the log had so many, if one was. It is told of every core that the state
/// could have had then.
pub fn made_since(
    alloc: Global,
    state: &SchedState<JWTJobAuthorizer>,
    before: usize,
) -> Result<Option<CoreEntry>, AllocError>
    ensures { IfOk result (λ o. (core : Seen) (made : Option Entry) → length core.log ≡ before
        → state.now ≡ with_core core made → o ≡ made) }
{
    let log = state.history();
    if log.len() <= before {
        return Ok(None);
    }
    let entry = last_copy(alloc, log)?;
    Ok(Some(entry))
}

/// What was made since, and the reply to the entry of that number.
pub fn told_since(
    alloc: Global,
    state: &SchedState<JWTJobAuthorizer>,
    before: usize,
    number: u64,
    response: &Response,
) -> Result<Made, FarmFault>
    ensures effect { IfOk result (λ m. (core : Seen) (made : Option Entry) → length core.log ≡ before
        → state.now ≡ with_core core made → m.effect ≡ reply_effect made (reply_to number response.now)) }
    ensures silent { IfOk result (λ m. (m.effect.call ≡ None) × (m.pending ≡ None)) }
    ensures err { IfErr result (λ e. e ≡ fault.Memory) }
{
    let core = made_since(alloc, state, before)?;
    let reply = reply(alloc, number, response)?;
    Ok(Made::whole(Effect::of_reply(core, reply)))
}
