//! Why a call of a scheduler with quotas gives no answer.
use core_rules::error::SchedError;
use std::alloc::AllocError;
use thiserror::Error;

/// Why a call of a scheduler with quotas gives no answer.
#[derive(Clone, Copy, Debug, PartialEq, Eq, Drop, Error)]
pub enum QuotaFault {
    /// A client's name stands twice: the place, from 0, of the first name that an earlier one equals.
    #[error("client {0} has the name of an earlier one")]
    DuplicateClient(u64),
    /// The scheduler refuses the call. Want of memory is never told so, but as `Memory`.
    #[error("the call is refused: {0}")]
    Core(SchedError),
    /// Memory ran out.
    #[error("out of memory")]
    Memory,
}

impl From<AllocError> for QuotaFault {
    ghost use Rattle.std.specs.Prelude.{◌≡◌};
    ghost use Rattle.quota.specs.declared.fault.QuotaFault.TheVariants.{Memory};

    ghost from_gives = { λ _ e. e ≡ Memory };

    fn from(_error: AllocError) -> QuotaFault {
        QuotaFault::Memory
    }
}
