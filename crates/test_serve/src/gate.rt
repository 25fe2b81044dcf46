//! Connections are served at once, and not one after another.
ghost use Rattle.std.specs.Prelude.{None};

use crate::calls::{STATUS, TestScheduler, client, dialer, server};
use dist_http::{Kit, Served, Tasks, serve_scheduler_workers};
use dist_token::checks::EqCheck;
use dist_types::addr::Addr;
use dist_types::clock::MemClock;
use dist_types::dialer::MemDialer;
use dist_types::fault::{Failed, raise};
use dist_types::link::Link;
use dist_types::sink::Sink;
use dist_types::source::Source;
use std::alloc::Global;
use std::process::Abort;
use std::sync::Wait;
use std::sync::atomic::{AtomicBool, AtomicU64, Ordering};
use std::thread;
use std::thread::Threads;

/// How often a flag is looked at before one gives up.
const MAX_LOOKS: u64 = 1_000_000_000;

/// Looks for the flag, and yields now and then; false where it gave up.
fn is_set(flag: &AtomicBool) -> bool {
    for look in 0..MAX_LOOKS {
        if flag.load(Ordering::SeqCst) {
            return true;
        }
        if look % 1024 == 0 {
            thread::yield_now();
        }
    }
    false
}

/// Whether the first link was asked for its bytes, whether the second was answered, and the tickets that are
/// drawn.
#[derive(Drop)]
pub struct Gate {
    begun: AtomicBool,
    answered: AtomicBool,
    tickets: AtomicU64,
}

impl Gate {
    /// A gate that no link has reached.
    pub fn new() -> Self {
        Gate {
            begun: AtomicBool::new(false),
            answered: AtomicBool::new(false),
            tickets: AtomicU64::new(0),
        }
    }
}

/// A status request whose first read waits: that of the first ticket until the other link was answered, and
/// that of the other until the first has begun. A read that gives up fails.
#[derive(Drop)]
pub struct GateLink<'a> {
    gate: &'a Gate,
    ticket: u64,
    at: usize,
    reads: u64,
}

impl Source for GateLink<'_> {
    ghost left = { λ _. None };

    ghost faults = { λ l. l.reads };

    fn read(&mut self, buf: &mut [u8]) -> Result<usize, Failed> {
        if self.at == 0 {
            let let_go = if self.ticket == 0 {
                self.gate.begun.store(true, Ordering::SeqCst);
                is_set(&self.gate.answered)
            } else {
                is_set(&self.gate.begun)
            };
            if !let_go {
                raise(&mut self.reads);
                return Err(Failed);
            }
        }
        match STATUS.get(self.at) {
            Some(byte) => {
                if buf.is_empty() {
                    return Ok(0);
                }
                buf[0] = *byte;
                self.at = self.at.saturating_add(1);
                Ok(1)
            }
            None => Ok(0),
        }
    }
}

impl Sink for GateLink<'_> {
    ghost held = { λ _. None };

    ghost faults = { λ _. 0 };

    ghost apart = { λ l. (None, l.reads) };

    fn write(&mut self, bytes: &[u8]) -> Result<usize, Failed> {
        Ok(bytes.len())
    }
}

impl Link for GateLink<'_> {
    ghost use Rattle.std.specs.Prelude.{refl};

    ghost reads_alone = { λ _. refl };

    ghost writes_alone = { λ _. refl };
}

/// One link, and what became of it.
#[derive(Drop)]
pub struct OneLink<'a> {
    gate: &'a Gate,
    given: bool,
    served: Option<Served>,
}

impl<'a> OneLink<'a> {
    /// A link to that gate, not given yet.
    pub fn new(gate: &'a Gate) -> Self {
        OneLink {
            gate,
            given: false,
            served: None,
        }
    }

    /// Whether it was answered.
    pub fn is_answered(&self) -> bool {
        self.served == Some(Served::Answered)
    }
}

impl<'a> Tasks for OneLink<'a> {
    type L = GateLink<'a>;

    ghost told = { λ _. None };

    fn take(&mut self) -> Option<(GateLink<'a>, Addr)> {
        if self.given {
            return None;
        }
        self.given = true;
        let link = GateLink {
            gate: self.gate,
            ticket: self.gate.tickets.fetch_add(1, Ordering::SeqCst),
            at: 0,
            reads: 0,
        };
        Some((link, Addr::V4([127, 0, 0, 1], 40000)))
    }

    fn done(&mut self, link: GateLink<'a>, served: Served) {
        if link.ticket != 0 {
            self.gate.answered.store(true, Ordering::SeqCst);
        }
        self.served = Some(served);
    }
}

/// One link to serve, and what it is served with.
type OneKit<'a> = Kit<OneLink<'a>, MemDialer, MemClock, EqCheck>;

/// A kit with one link.
fn kit<'a>(rt: &impl Abort, alloc: Global, gate: &'a Gate) -> OneKit<'a> {
    Kit {
        tasks: OneLink::new(gate),
        dialer: dialer(rt, alloc, b""),
        clock: MemClock::new(Vec::new(alloc)),
        client: client(rt, alloc),
    }
}

/// Whether all links were answered.
fn are_answered(kits: &[OneKit<'_>]) -> bool {
    let mut answered = true;
    for kit in kits {
        answered = answered && kit.tasks.is_answered();
    }
    answered
}

/// Whether both links were answered, and how many entries that made.
fn both<R: Abort + Threads + Wait + Sync>(rt: &R, alloc: Global, gate: &Gate) -> (bool, u64) {
    let (scheduler, mut pass) = TestScheduler::new(alloc, 1).expect(rt, "memory");
    let server = server(rt, alloc);
    let kits = vec![in alloc; kit(rt, alloc, gate), kit(rt, alloc, gate)].expect(rt, "memory");
    let back = serve_scheduler_workers(rt, alloc, &scheduler, &mut pass, kits, &server);
    let answered = are_answered(&back.expect(rt, "memory"));
    (answered, pass.count())
}

/// The first of two links is held until the second was answered.
#[test]
fn gate_workers(rt: HostRuntime) {
    assert!(&rt; both(&rt, rt.alloc(), &Gate::new()) == (true, 2));
}
