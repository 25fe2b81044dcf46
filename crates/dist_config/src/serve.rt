//! What takes a configuration and serves: the trait, and the one in memory.
ghost use Rattle.std.specs.Prelude.{◌≡◌, ◌≤◌, List, ℕ, Option, Some, OnOk, OnErr};
ghost use Rattle.dist_types.specs.Cause.{Rose};
ghost use Rattle.dist_types.specs.Content.{Recorded, KeptOrRecorded};
ghost use Rattle.dist_config.specs.Serve.{scheduler_call, server_call};
ghost use Rattle.dist_config.specs.declared.serve.ServeCall.{ServeCall};

use crate::config::{SchedulerConfig, ServerConfig};
use dist_types::fault::{Failed, Memory, raise};
use dist_types::try_clone::{TryClone, push};
use std::alloc::Global;

/// The configuration of the one or of the other.
#[derive(Debug, Drop)]
pub enum Configuration {
    /// A scheduler's.
    Scheduler(SchedulerConfig),
    /// A build server's.
    Server(ServerConfig),
}

/// One call of what serves: the configuration that it was handed, and what it answered.
#[derive(Debug, Drop)]
pub struct ServeCall {
    /// The configuration.
    pub config: Configuration,
    /// Ok where the listener ended by itself.
    pub answer: Result<(), Failed>,
}

/// Takes a configuration, and serves by it until its listener ends.
pub trait Serve {
    /// The record: a row for each call in order, where it is told. A call that failed may have none.
    ghost calls: { Self → Option (List ServeCall) };

    /// How often it failed.
    ghost faults: { Self → ℕ };

    /// Serves as a scheduler; Ok where the listener ended by itself.
    fn scheduler(&mut self, config: &SchedulerConfig) -> Result<(), Failed>
        ensures ok { OnOk result
            (Recorded (scheduler_call config.now result) (calls self.old) (calls self.new)) }
        ensures failed { OnErr result
            (KeptOrRecorded (scheduler_call config.now result) (calls self.old) (calls self.new)) }
        ensures steady { OnOk result (faults self.new ≡ faults self.old) }
        ensures later { faults self.old ≤ faults self.new }
        ensures cause { OnErr result (Rose (faults self.old) (faults self.new)) };

    /// Serves as a build server; Ok where the listener ended by itself.
    fn server(&mut self, config: &ServerConfig) -> Result<(), Failed>
        ensures ok { OnOk result
            (Recorded (server_call config.now result) (calls self.old) (calls self.new)) }
        ensures failed { OnErr result
            (KeptOrRecorded (server_call config.now result) (calls self.old) (calls self.new)) }
        ensures steady { OnOk result (faults self.new ≡ faults self.old) }
        ensures later { faults self.old ≤ faults self.new }
        ensures cause { OnErr result (Rose (faults self.old) (faults self.new)) };
}

/// Serves nobody, and keeps a record. A listed call, counted from 0, fails, and so does one that finds no
/// memory for its row: it leaves none, and is counted apart.
#[derive(Debug, Drop)]
pub struct MemServe {
    fails: Vec<u64>,
    made: u64,
    missed: u64,
    faults: u64,
    calls: Vec<ServeCall>,
}

impl MemServe {
    ghost use Rattle.std.specs.Prelude.{[], ◌∷◌, ◌++◌, true, IsErr};
    ghost use Rattle.dist_types.specs.Cause.{counted};
    ghost use Rattle.dist_types.specs.InMemory.{is_listed};
    ghost use Rattle.dist_config.specs.Serve.{serve_fails, serve_made, serve_faults, serve_calls};
    ghost use Rattle.dist_config.specs.Serve.{serve_missed, LeavesRow};

    /// One that was handed nothing so far. It takes no memory.
    pub fn new(alloc: Global, fails: Vec<u64>) -> Self
        ensures fails { serve_fails result ≡ fails.items }
        ensures made { serve_made result ≡ 0 }
        ensures missed { serve_missed result ≡ 0 }
        ensures faults { serve_faults result ≡ 0 }
        ensures calls { serve_calls result ≡ [] }
    {
        MemServe {
            fails,
            made: 0,
            missed: 0,
            faults: 0,
            calls: Vec::new(alloc),
        }
    }

    /// The record.
    pub fn calls(&self) -> &[ServeCall]
        ensures calls { result.now ≡ serve_calls self.now }
    {
        &self.calls
    }

    /// How many calls found no memory for their row.
    pub fn missed(&self) -> u64
        ensures missed { result ≡ serve_missed self.now }
    {
        self.missed
    }

    /// Counts a call that found no memory for a copy of its configuration.
    fn pass(&mut self) -> Result<(), Failed>
        ensures err { IsErr result }
        ensures counted { serve_faults self.new ≡ counted (serve_faults self.old) }
        ensures later { serve_faults self.old ≤ serve_faults self.new }
        ensures kept { serve_calls self.new ≡ serve_calls self.old }
        ensures missed { serve_missed self.new ≡ counted (serve_missed self.old) }
        ensures fails { serve_fails self.new ≡ serve_fails self.old }
        ensures made { serve_made self.new ≡ counted (serve_made self.old) }
    {
        self.made = self.made.saturating_add(1);
        self.miss()
    }

    /// Counts a call that found no memory for its row.
    fn miss(&mut self) -> Result<(), Failed>
        ensures err { IsErr result }
        ensures counted { serve_faults self.new ≡ counted (serve_faults self.old) }
        ensures later { serve_faults self.old ≤ serve_faults self.new }
        ensures kept { serve_calls self.new ≡ serve_calls self.old }
        ensures missed { serve_missed self.new ≡ counted (serve_missed self.old) }
        ensures fails { serve_fails self.new ≡ serve_fails self.old }
        ensures made { serve_made self.new ≡ serve_made self.old }
    {
        self.missed = self.missed.saturating_add(1);
        self.fail()
    }

    /// Counts one more fault.
    fn fail(&mut self) -> Result<(), Failed>
        ensures err { result ≡ Err (record {}) }
        ensures counted { serve_faults self.new ≡ counted (serve_faults self.old) }
        ensures later { serve_faults self.old ≤ serve_faults self.new }
        ensures kept { serve_calls self.new ≡ serve_calls self.old }
        ensures missed { serve_missed self.new ≡ serve_missed self.old }
        ensures fails { serve_fails self.new ≡ serve_fails self.old }
        ensures made { serve_made self.new ≡ serve_made self.old }
    {
        raise(&mut self.faults);
        Err(Failed)
    }

    /// Takes a configuration, and answers by the list of the calls that are to fail.
    fn take(&mut self, config: Configuration) -> Result<(), Failed>
        ensures ok { OnOk result (serve_calls self.new ≡ serve_calls self.old
            ++ record { config = config; answer = result } ∷ []) }
        ensures failed { OnErr result (KeptOrRecorded (record { config = config; answer = result })
            (Some (serve_calls self.old)) (Some (serve_calls self.new))) }
        ensures listed { is_listed (serve_fails self.old) (serve_made self.old) ≡ true → IsErr result }
        ensures row { LeavesRow (λ answer. record { config = config; answer = answer }) result self.old
            self.new }
        ensures counted { OnErr result (serve_faults self.new ≡ counted (serve_faults self.old)) }
        ensures steady { OnOk result (serve_faults self.new ≡ serve_faults self.old) }
        ensures later { serve_faults self.old ≤ serve_faults self.new }
        ensures fails { serve_fails self.new ≡ serve_fails self.old }
        ensures made { serve_made self.new ≡ counted (serve_made self.old) }
    {
        let number = self.made;
        self.made = self.made.saturating_add(1);
        if self.fails.contains(&number) {
            self.keep_row(ServeCall {
                config,
                answer: Err(Failed),
            })?;
            return self.fail();
        }
        self.keep_row(ServeCall {
            config,
            answer: Ok(()),
        })?;
        Ok(())
    }

    /// One more row.
    fn keep_row(&mut self, row: ServeCall) -> Result<(), Failed>
        ensures ok { OnOk result ((serve_calls self.new ≡ serve_calls self.old ++ row ∷ [])
            × (serve_missed self.new ≡ serve_missed self.old)
            × (serve_faults self.new ≡ serve_faults self.old)) }
        ensures err { OnErr result ((serve_calls self.new ≡ serve_calls self.old)
            × (serve_missed self.new ≡ counted (serve_missed self.old))
            × (serve_faults self.new ≡ counted (serve_faults self.old))) }
        ensures later { serve_faults self.old ≤ serve_faults self.new }
        ensures fails { serve_fails self.new ≡ serve_fails self.old }
        ensures made { serve_made self.new ≡ serve_made self.old }
    {
        match self.calls.push(row) {
            Ok(()) => Ok(()),
            Err(_) => self.miss(),
        }
    }
}

impl Serve for MemServe {
    ghost use Rattle.std.specs.Prelude.{Some, true, IsErr};
    ghost use Rattle.dist_types.specs.Cause.{counted};
    ghost use Rattle.dist_types.specs.InMemory.{is_listed};
    ghost use Rattle.dist_config.specs.Serve.{serve_fails, serve_made, serve_faults, serve_calls};
    ghost use Rattle.dist_config.specs.Serve.{LeavesRow};

    ghost calls = { λ s. Some s.calls.items };

    ghost faults = { λ s. s.faults };

    /// Fails where this call is listed, and where no memory is left for its row. It leaves one row, or, for
    /// want of memory, none.
    fn scheduler(&mut self, config: &SchedulerConfig) -> Result<(), Failed>
        ensures ok { OnOk result (Recorded (scheduler_call config.now result)
            (Some (serve_calls self.old)) (Some (serve_calls self.new))) }
        ensures failed { OnErr result (KeptOrRecorded (scheduler_call config.now result)
            (Some (serve_calls self.old)) (Some (serve_calls self.new))) }
        ensures steady { OnOk result (serve_faults self.new ≡ serve_faults self.old) }
        ensures later { serve_faults self.old ≤ serve_faults self.new }
        ensures cause { OnErr result (Rose (serve_faults self.old) (serve_faults self.new)) }

        ensures row { LeavesRow (scheduler_call config.now) result self.old self.new }
        ensures listed { is_listed (serve_fails self.old) (serve_made self.old) ≡ true → IsErr result }
        ensures counted { OnErr result (serve_faults self.new ≡ counted (serve_faults self.old)) }
        ensures fails { serve_fails self.new ≡ serve_fails self.old }
        ensures made { serve_made self.new ≡ counted (serve_made self.old) }
    {
        match config.clone() {
            Ok(config) => self.take(Configuration::Scheduler(config)),
            Err(Memory) => self.pass(),
        }
    }

    /// Fails where this call is listed, and where no memory is left for its row. It leaves one row, or, for
    /// want of memory, none.
    fn server(&mut self, config: &ServerConfig) -> Result<(), Failed>
        ensures ok { OnOk result (Recorded (server_call config.now result)
            (Some (serve_calls self.old)) (Some (serve_calls self.new))) }
        ensures failed { OnErr result (KeptOrRecorded (server_call config.now result)
            (Some (serve_calls self.old)) (Some (serve_calls self.new))) }
        ensures steady { OnOk result (serve_faults self.new ≡ serve_faults self.old) }
        ensures later { serve_faults self.old ≤ serve_faults self.new }
        ensures cause { OnErr result (Rose (serve_faults self.old) (serve_faults self.new)) }

        ensures row { LeavesRow (server_call config.now) result self.old self.new }
        ensures listed { is_listed (serve_fails self.old) (serve_made self.old) ≡ true → IsErr result }
        ensures counted { OnErr result (serve_faults self.new ≡ counted (serve_faults self.old)) }
        ensures fails { serve_fails self.new ≡ serve_fails self.old }
        ensures made { serve_made self.new ≡ counted (serve_made self.old) }
    {
        match config.clone() {
            Ok(config) => self.take(Configuration::Server(config)),
            Err(Memory) => self.pass(),
        }
    }
}
