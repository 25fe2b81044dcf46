//! The system's own: what serves by listeners and workers.
ghost use Rattle.std.specs.Prelude.{◌≡◌, ◌≤◌, None, OnOk, OnErr};
ghost use Rattle.dist_types.specs.Cause.{Rose};
ghost use Rattle.dist_types.specs.Content.{Recorded, KeptOrRecorded};
ghost use Rattle.dist_config.specs.Serve.{scheduler_call, server_call};
ghost use Rattle.dist_http.specs.Starts.{start_of, left_of, IsOneCall};

use crate::starts::Starts;
use dist_config::config::{SchedulerConfig, ServerConfig};
use dist_config::serve::Serve;
use dist_types::fault::{Failed, raise};
use http_connections::start::{Start, StartFault};
use rand_core::Rng;

/// A start of a scheduler.
pub type SchedulerCall = Box<dyn FnMut(&SchedulerConfig, Start) -> Result<(), StartFault> + Drop>;

/// A start of a build server.
pub type ServerCall = Box<dyn FnMut(&ServerConfig, Start) -> Result<(), StartFault> + Drop>;

/// Serves by the two calls that it is made of, which `main` makes of `serve_scheduler` and `serve_server`
/// over the runtime of the system: what a call sends to threads may not rest on a bound, so no type parameter
/// can be that runtime. It tells no record, but each of its calls is one of those two.
#[derive(Drop)]
pub struct RealServe<G> {
    /// What serves as a scheduler.
    pub scheduler: SchedulerCall,
    /// What serves as a build server.
    pub server: ServerCall,
    /// What its starts are given.
    pub starts: Starts<G>,
    faults: u64,
    ghost schedules: { SchedulerCall.IsAlwaysCallable scheduler },
    ghost serves: { ServerCall.IsAlwaysCallable server },
}

impl<G> RealServe<G> {
    /// Serves for good, on a machine with so many processors, with random words from the generator. It takes
    /// no memory.
    pub fn new(scheduler: SchedulerCall, server: ServerCall, random: G, cpus: u64) -> Self
        requires schedules { SchedulerCall.IsAlwaysCallable scheduler }
        requires serves { ServerCall.IsAlwaysCallable server }
        ensures starts { result.starts
            ≡ record { random = random; cpus = cpus; limit = None; timeout_ms = 30000 } }
        ensures faults { result.faults ≡ 0 }
        ensures scheduler { result.scheduler ≡ scheduler }
        ensures server { result.server ≡ server }
    {
        RealServe::with_starts(scheduler, server, Starts::new(random, cpus))
    }

    /// The same, with these starts. It takes no memory.
    pub fn with_starts(scheduler: SchedulerCall, server: ServerCall, starts: Starts<G>) -> Self
        requires schedules { SchedulerCall.IsAlwaysCallable scheduler }
        requires serves { ServerCall.IsAlwaysCallable server }
        ensures starts { result.starts ≡ starts }
        ensures faults { result.faults ≡ 0 }
        ensures scheduler { result.scheduler ≡ scheduler }
        ensures server { result.server ≡ server }
    {
        RealServe {
            scheduler,
            server,
            starts,
            faults: 0,
        }
    }
}

/// Each call draws one start, makes one call with it, and answers Ok exactly where that does.
impl<G: Rng> Serve for RealServe<G> {
    ghost calls = { λ _. None };

    ghost faults = { λ s. s.faults };

    fn scheduler(&mut self, config: &SchedulerConfig) -> Result<(), Failed>
        ensures ok { OnOk result (Recorded (scheduler_call config.now result) None None) }
        ensures failed { OnErr result (KeptOrRecorded (scheduler_call config.now result) None None) }
        ensures steady { OnOk result (self.new.faults ≡ self.old.faults) }
        ensures later { self.old.faults ≤ self.new.faults }
        ensures cause { OnErr result (Rose self.old.faults self.new.faults) }

        ensures drawn { G.stream self.new.starts.random ≡ left_of (G.stream self.old.starts.random) }
        ensures called { IsOneCall (λ answer left. SchedulerCall.step self.old.scheduler config.entry
            (start_of (G.stream self.old.starts.random) self.old.starts.cpus self.old.starts.limit
            self.old.starts.timeout_ms) answer left) self.new.scheduler result }
        ensures server { self.new.server ≡ self.old.server }
    {
        let start = self.starts.draw();
        match (self.scheduler)(config, start) {
            Ok(()) => Ok(()),
            Err(_) => {
                raise(&mut self.faults);
                Err(Failed)
            }
        }
    }

    fn server(&mut self, config: &ServerConfig) -> Result<(), Failed>
        ensures ok { OnOk result (Recorded (server_call config.now result) None None) }
        ensures failed { OnErr result (KeptOrRecorded (server_call config.now result) None None) }
        ensures steady { OnOk result (self.new.faults ≡ self.old.faults) }
        ensures later { self.old.faults ≤ self.new.faults }
        ensures cause { OnErr result (Rose self.old.faults self.new.faults) }

        ensures drawn { G.stream self.new.starts.random ≡ left_of (G.stream self.old.starts.random) }
        ensures called { IsOneCall (λ answer left. ServerCall.step self.old.server config.entry
            (start_of (G.stream self.old.starts.random) self.old.starts.cpus self.old.starts.limit
            self.old.starts.timeout_ms) answer left) self.new.server result }
        ensures scheduler { self.new.scheduler ≡ self.old.scheduler }
    {
        let start = self.starts.draw();
        match (self.server)(config, start) {
            Ok(()) => Ok(()),
            Err(_) => {
                raise(&mut self.faults);
                Err(Failed)
            }
        }
    }
}
