//! The calls of a scheduler with quotas, and of one without, by the same names.

use crate::short_tokens::QuotaTokens;
use core_rules::answers::Committed;
use dist_types::addr::Addr;
use dist_types::ids::{JobId, ServerId, ServerNonce};
use dist_types::results::JobState;
use dist_types::roles::JobAuthorizer;
use quota::picked::QuotaPicked;
use quota::state::QuotaState;
use sched_core::answers::Picked;
use sched_core::reservation::Reservation;
use sched_core::state::SchedState;
use std::alloc::Global;

/// How many processors the one server has.
const CPUS: u64 = 64;

/// A scheduler whose calls are measured. Its one server answers each question as it should.
pub(crate) trait Books {
    /// How many entries the log has.
    fn entries(&self) -> usize;

    /// A reserve for a client, if it is granted.
    fn take(&mut self, now: u64, client: &str) -> Option<Reservation>;

    /// A commit as ready. Whether the job is kept.
    fn keep(&mut self, now: u64, r: Reservation) -> bool;

    /// An undo.
    fn give_back(&mut self, now: u64, r: Reservation);

    /// The server's report that a job is in a new state. Whether it is accepted.
    fn tell(&mut self, now: u64, job: JobId, to: JobState) -> bool;

    /// A heartbeat of the server. Whether it is accepted.
    fn hear(&mut self, now: u64, key: QuotaTokens) -> bool;
}

/// The one server.
fn server() -> ServerId {
    ServerId::new(Addr::V4([127, 0, 0, 1], 10501))
}

/// What the server says who it is.
fn nonce() -> ServerNonce {
    ServerNonce::new(7)
}

/// The key of the server, which is empty.
pub(crate) fn key(alloc: Global) -> QuotaTokens {
    QuotaTokens::of_key(Vec::new(alloc))
}

/// Whether a commit kept its job.
fn is_kept(committed: Committed) -> bool {
    match committed {
        Committed::Kept(_) => true,
        Committed::Dropped(_) => false,
        Committed::Foreign(_) => false,
    }
}

impl Books for SchedState<QuotaTokens> {
    fn entries(&self) -> usize {
        self.history().len()
    }

    #[inline(always)]
    fn take(&mut self, now: u64, _client: &str) -> Option<Reservation> {
        match self.reserve(now) {
            Ok(Picked::Reserved(r)) => Some(r),
            Ok(Picked::NoRoom(_)) => None,
            Err(_) => None,
        }
    }

    fn keep(&mut self, now: u64, r: Reservation) -> bool {
        is_kept(self.commit(now, r, JobState::Ready))
    }

    fn give_back(&mut self, now: u64, r: Reservation) {
        let _undone = self.undo(now, r);
    }

    fn tell(&mut self, now: u64, job: JobId, to: JobState) -> bool {
        self.update(now, server(), job, to).is_ok()
    }

    fn hear(&mut self, now: u64, key: QuotaTokens) -> bool {
        self.beat(now, server(), nonce(), CPUS, key).is_ok()
    }
}

impl Books for QuotaState<QuotaTokens> {
    fn entries(&self) -> usize {
        self.history().len()
    }

    #[inline(always)]
    fn take(&mut self, now: u64, client: &str) -> Option<Reservation> {
        match self.reserve_for(now, client) {
            Ok(QuotaPicked::Picked(Picked::Reserved(r))) => Some(r),
            Ok(QuotaPicked::Picked(Picked::NoRoom(_))) => None,
            Ok(QuotaPicked::Full { held: _, limit: _ }) => None,
            Ok(QuotaPicked::NoClient) => None,
            Err(_) => None,
        }
    }

    fn keep(&mut self, now: u64, r: Reservation) -> bool {
        is_kept(self.commit(now, r, JobState::Ready))
    }

    fn give_back(&mut self, now: u64, r: Reservation) {
        let _undone = self.undo(now, r);
    }

    fn tell(&mut self, now: u64, job: JobId, to: JobState) -> bool {
        self.update(now, server(), job, to).is_ok()
    }

    fn hear(&mut self, now: u64, key: QuotaTokens) -> bool {
        self.beat(now, server(), nonce(), CPUS, key).is_ok()
    }
}
