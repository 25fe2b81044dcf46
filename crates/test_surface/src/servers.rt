//! The scheduler and the build server.

use build_server::Held;
use build_server::echo::EchoBuilder;
use build_server::fault::{BuildCause, ServerFault, Update};
use build_server::keeping::{Keeping, assign_on, run_on, submit_on};
use build_server::run::{Ran, RunDone, RunHeld};
use build_server::server::{Server, ServerIncoming, Shared};
use build_server::state::ServerState;
use build_server::submit::{Dropped, Submit, Submitted};
use sched::fault::SchedFault;
use sched::incoming::SchedulerIncoming;
use sched::pass::Pass;
use sched::scheduler::{PassesOut, Scheduler};
use sched_core::answers::{Committed, Picked, Undone};
use sched_core::entry::{CoreEntry, CoreKind};
use sched_core::error::SchedError;
use sched_core::reservation::Reservation;
use sched_core::rows::{Jobs, Servers};
use sched_core::state::SchedState;
