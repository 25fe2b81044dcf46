//! Calls that wait to be settled.
use build_server::run::RunDone;
use dist_types::addr::Addr;
use dist_types::ids::JobId;
use dist_wire::run::RunJobHttpRequest;
use sched_core::reservation::Reservation;

/// What a build server tells the scheduler, with what is kept to go on with.
#[derive(Debug)]
pub enum Told {
    /// That a job is ready: its archive begins at that place of the bytes that were brought.
    Ready {
        job: JobId,
        archive: usize,
    },
    /// That a job is started, which is to be run so; its inputs begin at that place.
    Started {
        job: JobId,
        run: RunJobHttpRequest,
        inputs: usize,
    },
    /// That a job is complete, which went so.
    Complete {
        job: JobId,
        done: RunDone,
    },
    /// That it is alive.
    Heartbeat,
}

/// What a call asks, with what is kept to go on with.
#[derive(Debug)]
pub enum Ask {
    /// The scheduler asks that a server takes the job of a reservation.
    Assign(Reservation),
    /// The server at that address tells the scheduler something, in that life of its.
    Report { server: Addr, life: u64, told: Told },
}

/// What is kept of a call that waits.
#[derive(Debug)]
pub struct Pending {
    /// The number of the entry that is replied to when the call is settled.
    pub root: u64,
    /// Whether that reply is wanted in JSON.
    pub json: bool,
    pub ask: Ask,
}
