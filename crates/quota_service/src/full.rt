//! What a client is told that holds as many reservations as it may.
ghost use Rattle.std.specs.Prelude.{◌≡◌, IfOk};
ghost use Rattle.scheduler_steps.specs.Settling.{FailsWith};
ghost use Rattle.quota_service.specs.Full.{full_text};

use dist_types::fault::Memory;
use dist_types::results::AllocJobResult;
use dist_types::text::Text;
use scheduler_steps::fault::SchedFault;
use std::alloc::Global;
use std::fmt;

/// A client holds so many reservations, and may hold no more.
#[derive(Drop)]
struct Quota {
    held: u64,
    limit: u64,
}

impl fmt::Display for Quota {
    ghost use Rattle.std.specs.Prelude.{Some};
    ghost use Rattle.quota_service.specs.Full.{full_text};

    ghost output = { λ q. Some (full_text q.held q.limit) };

    fn fmt<W: fmt::Write>(&self, f: &mut fmt::Formatter<W>) -> fmt::Result {
        let held = self.held;
        let limit = self.limit;
        write!(
            f,
            "Client quota reached: {held} of {limit} reservations held"
        )
    }
}

/// The text of that. Refused for want of memory alone.
fn text_of(alloc: Global, quota: Quota) -> Result<Text, Memory>
    ensures text { IfOk result (λ text. text ≡ full_text quota.held quota.limit) }
{
    let text = format!(in alloc; "{quota}")?;
    Ok(Text::new(text))
}

/// No job, since the client holds so many of so many reservations.
pub(crate) fn full(alloc: Global, held: u64, limit: u64) -> Result<AllocJobResult, SchedFault>
    ensures { FailsWith (full_text held limit) result }
{
    match text_of(alloc, Quota { held, limit }) {
        Ok(msg) => Ok(AllocJobResult::Fail { msg }),
        Err(_) => Err(SchedFault::Memory),
    }
}
