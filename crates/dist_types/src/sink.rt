//! What is written: the trait, the sink in memory, the one of the system, and writing all of a text.
ghost use Rattle.std.specs.Prelude.{◌≡◌, ◌≤◌, ◌<◌, [], List, ℕ, length, take, IfOk, OnOk, OnErr, Option};
ghost use Rattle.std.specs.Prelude.{Some, None};
ghost use Rattle.dist_types.specs.Cause.{Rose};
ghost use Rattle.dist_types.specs.Real.{std_sink_faults};
ghost use Rattle.dist_types.specs.Content.{Added, Began};

use crate::fault::{Failed, raise};
use std::alloc::Global;
use std::io::{ErrorKind, Write};

/// Where bytes are written.
pub trait Sink {
    /// What it holds, where it is told.
    ghost held: { Self → Option (List ℕ) };

    /// How often it failed.
    ghost faults: { Self → ℕ };

    /// What writing leaves as it is, where the object is more than a sink.
    ghost apart: { Self → Option (List ℕ) × ℕ } = { λ _. (None, 0) };

    /// Writes a front of the bytes, at least one byte of a piece that is not empty.
    fn write(&mut self, bytes: &[u8]) -> Result<usize, Failed>
        ensures within { IfOk result (λ n. n ≤ length bytes.now) }
        ensures some { IfOk result (λ n. 0 < length bytes.now → 0 < n) }
        ensures added { IfOk result (λ n. Added (take n bytes.now) (held self.old) (held self.new)) }
        ensures same { OnErr result (held self.new ≡ held self.old) }
        ensures steady { OnOk result (faults self.new ≡ faults self.old) }
        ensures later { faults self.old ≤ faults self.new }
        ensures cause { OnErr result (Rose (faults self.old) (faults self.new)) }
        ensures apart { apart self.new ≡ apart self.old };
}

/// What was written. The calls of the listed numbers, from 0 on, fail, and no others but for want of memory.
#[derive(Debug, Drop)]
pub struct MemSink {
    bytes: Vec<u8>,
    fails: Vec<u64>,
    calls: u64,
    faults: u64,
}

impl MemSink {
    ghost use Rattle.dist_types.specs.InMemory.{sink_held, sink_fails, sink_calls, sink_faults};

    /// A sink that holds nothing, no call made so far. It takes no memory.
    pub fn new(alloc: Global, fails: Vec<u64>) -> Self
        ensures held { sink_held result ≡ [] }
        ensures fails { sink_fails result ≡ fails.items }
        ensures calls { sink_calls result ≡ 0 }
        ensures faults { sink_faults result ≡ 0 }
    {
        MemSink {
            bytes: Vec::new(alloc),
            fails,
            calls: 0,
            faults: 0,
        }
    }

    /// What was written.
    pub fn bytes(&self) -> &[u8]
        ensures { result.now ≡ sink_held self.now }
    {
        &self.bytes
    }
}

impl Sink for MemSink {
    ghost use Rattle.std.specs.Prelude.{◌+◌, ◌⊎◌, IsTrue, is_err, true};
    ghost use Rattle.dist_types.specs.Cause.{counted};
    ghost use Rattle.dist_types.specs.InMemory.{is_listed, sink_held, sink_fails, sink_calls, sink_faults};
    ghost use Rattle.dist_types.specs.InMemory.{sink_room};

    ghost held = { λ s. Some s.bytes.items };

    ghost faults = { λ s. s.faults };

    /// Fails where this call is listed or memory ran out, and else writes all.
    fn write(&mut self, bytes: &[u8]) -> Result<usize, Failed>
        ensures within { IfOk result (λ n. n ≤ length bytes.now) }
        ensures some { IfOk result (λ n. 0 < length bytes.now → 0 < n) }
        ensures added { IfOk result (λ n.
            Added (take n bytes.now) (Some (sink_held self.old)) (Some (sink_held self.new))) }
        ensures same { OnErr result (sink_held self.new ≡ sink_held self.old) }
        ensures steady { OnOk result (sink_faults self.new ≡ sink_faults self.old) }
        ensures later { sink_faults self.old ≤ sink_faults self.new }
        ensures cause { OnErr result (Rose (sink_faults self.old) (sink_faults self.new)) }

        ensures fails { is_listed (sink_fails self.old) (sink_calls self.old) ≡ true → is_err result ≡ true }
        ensures no_other { OnErr result ((is_listed (sink_fails self.old) (sink_calls self.old) ≡ true)
            ⊎ (sink_room self.old < length (sink_held self.old) + length bytes.now)) }
        ensures amount { IfOk result (λ n. n ≡ length bytes.now) }
        ensures counted { OnErr result (sink_faults self.new ≡ counted (sink_faults self.old)) }
        ensures calls { sink_calls self.new ≡ counted (sink_calls self.old) }
        ensures listed { sink_fails self.new ≡ sink_fails self.old }
    {
        let number = self.calls;
        self.calls = self.calls.saturating_add(1);
        if self.fails.contains(&number) {
            self.faults = self.faults.saturating_add(1);
            return Err(Failed);
        }
        match self.bytes.extend_from_slice(bytes) {
            Ok(()) => Ok(bytes.len()),
            Err(_) => {
                self.faults = self.faults.saturating_add(1);
                Err(Failed)
            }
        }
    }
}

/// One write to a writer of std, tried again where a signal interrupted it. A write of nothing fails.
pub(crate) fn write_some<W: Write>(writer: &mut W, bytes: &[u8]) -> Result<usize, Failed>
    ensures within { IfOk result (λ n. n ≤ length bytes.now) }
    ensures some { IfOk result (λ n. 0 < length bytes.now → 0 < n) }
{
    for _ in 0..u64::MAX {
        match writer.write(bytes) {
            Ok(n) => {
                return if n == 0 && !bytes.is_empty() {
                    Err(Failed)
                } else {
                    Ok(n)
                };
            }
            Err(e) => {
                if e.kind() != ErrorKind::Interrupted {
                    return Err(Failed);
                }
            }
        }
    }
    Err(Failed)
}

/// A writer of std.
#[derive(Drop)]
pub struct StdSink<W: Write> {
    writer: W,
    faults: u64,
}

impl<W: Write> StdSink<W> {
    /// A sink that writes to a writer, no fault so far. It takes no memory.
    pub fn new(writer: W) -> Self
        ensures faults { std_sink_faults result ≡ 0 }
    {
        StdSink { writer, faults: 0 }
    }
}

impl<W: Write> Sink for StdSink<W> {
    ghost held = { λ _. None };

    ghost faults = { λ s. s.faults };

    fn write(&mut self, bytes: &[u8]) -> Result<usize, Failed> {
        match write_some(&mut self.writer, bytes) {
            Ok(n) => Ok(n),
            Err(_) => {
                raise(&mut self.faults);
                Err(Failed)
            }
        }
    }
}

/// Writes all of a text. Each turn writes a byte or fails.
#[tactic(auto, using(crate::proofs::Contents::added_then, crate::proofs::Contents::added_none, crate::proofs::Contents::take_add))]
pub fn write_all<K: Sink>(out: &mut K, text: &[u8]) -> Result<(), Failed>
    ensures ok { OnOk result (Added text.now (K.held out.old) (K.held out.new)) }
    ensures began { OnErr result (Began text.now (K.held out.old) (K.held out.new)) }
    ensures steady { OnOk result (K.faults out.new ≡ K.faults out.old) }
    ensures apart { K.apart out.new ≡ K.apart out.old }
    ensures later { K.faults out.old ≤ K.faults out.new }
    ensures cause { OnErr result (Rose (K.faults out.old) (K.faults out.new)) }
{
    let mut at = 0;
    while at < text.len() {
        let n = out.write(&text[at..])?;
        at += n;
    }
    Ok(())
}
