//! A scheduler and a build server of a configuration, which something that serves is handed.
ghost use Rattle.std.specs.Prelude.{◌≡◌, ◌≤◌, OnOk, OnErr};
ghost use Rattle.dist_types.specs.Cause.{Rose};
ghost use Rattle.dist_types.specs.Content.{Recorded, KeptOrRecorded};
ghost use Rattle.dist_config.specs.Serve.{scheduler_call, server_call};

use crate::config::{SchedulerConfig, ServerConfig};
use crate::serve::Serve;
use dist_types::fault::Failed;
use std::marker::Model;

/// A scheduler of a configuration.
#[derive(Debug, Drop)]
pub struct Scheduler {
    config: SchedulerConfig,
}

impl Model for Scheduler {
    ghost use Rattle.dist_config.specs.declared.config.SchedulerConfig.{SchedulerConfig};

    ghost Value = { SchedulerConfig };

    ghost view = { λ s. s.config };
}

impl Scheduler {
    /// The scheduler of a configuration. It takes no memory.
    pub fn new(config: SchedulerConfig) -> Self
        ensures config { result ≡ config }
    {
        Scheduler { config }
    }

    /// Hands its configuration on; Ok where the listener ended by itself.
    pub fn start<N: Serve>(self, serve: &mut N) -> Result<(), Failed>
        ensures ok { OnOk result (Recorded (scheduler_call self result) (N.calls serve.old)
            (N.calls serve.new)) }
        ensures failed { OnErr result
            (KeptOrRecorded (scheduler_call self result) (N.calls serve.old) (N.calls serve.new)) }
        ensures steady { OnOk result (N.faults serve.new ≡ N.faults serve.old) }
        ensures later { N.faults serve.old ≤ N.faults serve.new }
        ensures cause { OnErr result (Rose (N.faults serve.old) (N.faults serve.new)) }
    {
        serve.scheduler(&self.config)
    }
}

/// A build server of a configuration.
#[derive(Debug, Drop)]
pub struct Server {
    config: ServerConfig,
}

impl Model for Server {
    ghost use Rattle.dist_config.specs.declared.config.ServerConfig.{ServerConfig};

    ghost Value = { ServerConfig };

    ghost view = { λ s. s.config };
}

impl Server {
    /// The build server of a configuration. It takes no memory.
    pub fn new(config: ServerConfig) -> Self
        ensures config { result ≡ config }
    {
        Server { config }
    }

    /// Hands its configuration on; Ok where the listener ended by itself.
    pub fn start<N: Serve>(self, serve: &mut N) -> Result<(), Failed>
        ensures ok { OnOk result
            (Recorded (server_call self result) (N.calls serve.old) (N.calls serve.new)) }
        ensures failed { OnErr result
            (KeptOrRecorded (server_call self result) (N.calls serve.old) (N.calls serve.new)) }
        ensures steady { OnOk result (N.faults serve.new ≡ N.faults serve.old) }
        ensures later { N.faults serve.old ≤ N.faults serve.new }
        ensures cause { OnErr result (Rose (N.faults serve.old) (N.faults serve.new)) }
    {
        serve.server(&self.config)
    }
}
