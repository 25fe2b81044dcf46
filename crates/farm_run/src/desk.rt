//! The scheduler of a farm at its desk.
use dist_token::job_token::JWTJobAuthorizer;
use farm_entries::site::Site;
use sched_core::state::SchedState;
use std::alloc::Global;

/// How a farm was set up, and its scheduler's state.
#[derive(Drop)]
pub struct Desk {
    pub alloc: Global,
    pub setup: Site,
    pub state: SchedState<JWTJobAuthorizer>,
}
