//! What is read: the trait, the source in memory, the one of the system, and reading to a limit.
ghost use Rattle.std.specs.Prelude.{◌≡◌, ◌≤◌, ◌<◌, ◌+◌, ◌≢◌, ◌⊎◌, List, ℕ, length, take, drop, IfOk, IfErr};
ghost use Rattle.std.specs.Prelude.{IfSome, OnOk, OnErr, Option, Some, None, Err};
ghost use Rattle.dist_types.specs.Cause.{Rose};
ghost use Rattle.dist_types.specs.Real.{std_source_faults};
ghost use Rattle.dist_types.specs.Content.{Taken, TookFront, TookAtMost, IsAtEnd, left_behind};
ghost use Rattle.dist_types.specs.declared.source.ReadError.TheVariants.{Failed, Memory};

use crate::fault::{Failed, raise};
use std::alloc::{AllocError, Global};
use std::io::{ErrorKind, Read};
use thiserror::Error;

/// Bytes that are read.
pub trait Source {
    /// What is left, where it is told.
    ghost left: { Self → Option (List ℕ) };

    /// How often it failed.
    ghost faults: { Self → ℕ };

    /// What reading leaves as it is, where the object is more than a source.
    ghost apart: { Self → Option (List ℕ) × ℕ } = { λ _. (None, 0) };

    /// Reads some bytes into the front of the buffer. At 0 bytes and a buffer with room, nothing is left.
    fn read(&mut self, buf: &mut [u8]) -> Result<usize, Failed>
        ensures within { IfOk result (λ n. n ≤ length buf.old) }
        ensures taken { IfOk result (λ n. Taken (take n buf.new) (left self.old) (left self.new)) }
        ensures end { IfOk result (λ n. n ≡ 0 → 0 < length buf.old → IsAtEnd (left self.new)) }
        ensures same { OnErr result (left self.new ≡ left self.old) }
        ensures steady { OnOk result (faults self.new ≡ faults self.old) }
        ensures later { faults self.old ≤ faults self.new }
        ensures cause { OnErr result (Rose (faults self.old) (faults self.new)) }
        ensures apart { apart self.new ≡ apart self.old };
}

/// Contents, read from the front. The calls of the listed numbers, from 0 on, fail, and no others.
#[derive(Debug, Drop)]
pub struct MemSource {
    bytes: Vec<u8>,
    at: usize,
    fails: Vec<u64>,
    calls: u64,
    faults: u64,
}

impl MemSource {
    ghost use Rattle.dist_types.specs.InMemory.{source_left, source_fails, source_calls, source_faults};

    /// A source of bytes, no call made so far. It takes no memory.
    pub fn new(bytes: Vec<u8>, fails: Vec<u64>) -> Self
        ensures left { source_left result ≡ bytes.items }
        ensures fails { source_fails result ≡ fails.items }
        ensures calls { source_calls result ≡ 0 }
        ensures faults { source_faults result ≡ 0 }
    {
        MemSource {
            bytes,
            at: 0,
            fails,
            calls: 0,
            faults: 0,
        }
    }
}

impl Source for MemSource {
    ghost use Rattle.std.specs.Prelude.{is_err, min};
    ghost use Rattle.dist_types.specs.Cause.{counted};
    ghost use Rattle.dist_types.specs.InMemory.{is_listed, source_left, source_fails, source_calls};
    ghost use Rattle.dist_types.specs.InMemory.{source_faults};

    ghost left = { λ s. Some (drop s.at s.bytes.items) };

    ghost faults = { λ s. s.faults };

    /// Fails exactly where this call is listed, and else reads as many bytes as fit.
    fn read(&mut self, buf: &mut [u8]) -> Result<usize, Failed>
        ensures within { IfOk result (λ n. n ≤ length buf.old) }
        ensures taken { IfOk result (λ n.
            Taken (take n buf.new) (Some (source_left self.old)) (Some (source_left self.new))) }
        ensures end { IfOk result (λ n. n ≡ 0 → 0 < length buf.old → IsAtEnd (Some (source_left self.new))) }
        ensures same { OnErr result (source_left self.new ≡ source_left self.old) }
        ensures steady { OnOk result (source_faults self.new ≡ source_faults self.old) }
        ensures later { source_faults self.old ≤ source_faults self.new }
        ensures cause { OnErr result (Rose (source_faults self.old) (source_faults self.new)) }

        ensures fails { is_err result ≡ is_listed (source_fails self.old) (source_calls self.old) }
        ensures amount { IfOk result (λ n. n ≡ min (length buf.old) (length (source_left self.old))) }
        ensures counted { OnErr result (source_faults self.new ≡ counted (source_faults self.old)) }
        ensures calls { source_calls self.new ≡ counted (source_calls self.old) }
        ensures listed { source_fails self.new ≡ source_fails self.old }
    {
        let number = self.calls;
        self.calls = self.calls.saturating_add(1);
        if self.fails.contains(&number) {
            self.faults = self.faults.saturating_add(1);
            return Err(Failed);
        }
        if self.at >= self.bytes.len() {
            return Ok(0);
        }
        let n = buf.len().min(self.bytes.len() - self.at);
        buf[..n].copy_from_slice(&self.bytes[self.at..self.at + n]);
        self.at += n;
        Ok(n)
    }
}

/// One read from a reader of std, tried again where a signal interrupted it.
pub(crate) fn read_some<R: Read>(reader: &mut R, buf: &mut [u8]) -> Result<usize, Failed>
    ensures within { IfOk result (λ n. n ≤ length buf.old) }
{
    for _ in 0..u64::MAX {
        match reader.read(buf) {
            Ok(n) => return Ok(n),
            Err(e) => {
                if e.kind() != ErrorKind::Interrupted {
                    return Err(Failed);
                }
            }
        }
    }
    Err(Failed)
}

/// A reader of std.
#[derive(Drop)]
pub struct StdSource<R: Read> {
    reader: R,
    faults: u64,
}

impl<R: Read> StdSource<R> {
    /// A source that reads from a reader, no fault so far. It takes no memory.
    pub fn new(reader: R) -> Self
        ensures faults { std_source_faults result ≡ 0 }
    {
        StdSource { reader, faults: 0 }
    }
}

impl<R: Read> Source for StdSource<R> {
    ghost left = { λ _. None };

    ghost faults = { λ s. s.faults };

    fn read(&mut self, buf: &mut [u8]) -> Result<usize, Failed> {
        match read_some(&mut self.reader, buf) {
            Ok(n) => Ok(n),
            Err(_) => {
                raise(&mut self.faults);
                Err(Failed)
            }
        }
    }
}

/// Why not all was read.
#[derive(Clone, Copy, Debug, PartialEq, Eq, Error)]
pub enum ReadError {
    /// A read failed, and the source's count of faults rose.
    #[error("read fault")]
    Failed,
    /// More came than the limit says.
    #[error("too long")]
    TooLong,
    /// Memory ran out.
    #[error("out of memory")]
    Memory,
}

impl From<AllocError> for ReadError {
    ghost from_gives = { λ _ e. e ≡ Memory };

    fn from(_: AllocError) -> Self {
        ReadError::Memory
    }
}

impl From<Failed> for ReadError {
    ghost from_gives = { λ _ e. e ≡ Failed };

    fn from(_: Failed) -> Self {
        ReadError::Failed
    }
}

/// Reads to the end, or as many bytes as the limit says: what is left is what stands behind the limit.
/// Each turn reads a byte or ends. After an error a front was read, of no more bytes than the limit.
#[tactic(auto, using(crate::proofs::Contents::taken_then, crate::proofs::Contents::taken_none, crate::proofs::Contents::behind_limit))]
pub fn read_up_to<S: Source>(
    alloc: Global,
    input: &mut S,
    limit: usize,
) -> Result<Vec<u8>, ReadError>
    ensures taken { IfOk result (λ v. Taken v.items (S.left input.old) (S.left input.new)) }
    ensures within { IfOk result (λ v. length v.items ≤ limit) }
    ensures whole { IfOk result (λ v. (length v.items ≡ limit) ⊎ IsAtEnd (S.left input.new)) }
    ensures rest { OnOk result (S.left input.new ≡ left_behind limit (S.left input.old)) }
    ensures steady { OnOk result (S.faults input.new ≡ S.faults input.old) }
    ensures uncounted { result ≢ Err ReadError.Failed → S.faults input.new ≡ S.faults input.old }
    ensures apart { S.apart input.new ≡ S.apart input.old }
    ensures later { S.faults input.old ≤ S.faults input.new }
    ensures cause { result ≡ Err ReadError.Failed → Rose (S.faults input.old) (S.faults input.new) }
    ensures front { OnErr result (TookFront (S.left input.old) (S.left input.new)) }
    ensures bounded { OnErr result (TookAtMost limit (S.left input.old) (S.left input.new)) }
    ensures never_long { IfErr result (λ e. ¬ (e ≡ ReadError.TooLong)) }
{
    let mut out = Vec::new(alloc);
    let mut buf = [0u8; 4096];
    while out.len() < limit {
        let want = (limit - out.len()).min(4096);
        let n = input.read(&mut buf[..want])?;
        if n == 0 {
            return Ok(out);
        }
        match out.extend_from_slice(&buf[..n]) {
            Ok(()) => {}
            Err(_) => return Err(ReadError::Memory),
        }
    }
    Ok(out)
}

/// All that a source has left. Failed only where the source's count of faults rose, TooLong exactly where
/// more bytes than the limit came: then one byte past it was read. After another error a front was read, of
/// at most one byte past the limit.
pub fn read_whole<S: Source>(alloc: Global, input: &mut S, limit: u32) -> Result<Vec<u8>, ReadError>
    ensures all { IfOk result (λ v. Taken v.items (S.left input.old) (S.left input.new)) }
    ensures at_end { OnOk result (IsAtEnd (S.left input.new)) }
    ensures short { IfOk result (λ v. length v.items ≤ limit) }
    ensures too_long { result ≡ Err ReadError.TooLong
        → IfSome (S.left input.old) (λ left. limit < length left) }
    ensures rest { result ≡ Err ReadError.TooLong
        → S.left input.new ≡ left_behind (limit + 1) (S.left input.old) }
    ensures front { OnErr result (TookFront (S.left input.old) (S.left input.new)) }
    ensures bounded { OnErr result (TookAtMost (limit + 1) (S.left input.old) (S.left input.new)) }
    ensures steady { OnOk result (S.faults input.new ≡ S.faults input.old) }
    ensures uncounted { result ≢ Err ReadError.Failed → S.faults input.new ≡ S.faults input.old }
    ensures apart { S.apart input.new ≡ S.apart input.old }
    ensures later { S.faults input.old ≤ S.faults input.new }
    ensures cause { result ≡ Err ReadError.Failed → Rose (S.faults input.old) (S.faults input.new) }
{
    let limit = limit as usize;
    let bytes = read_up_to(alloc, input, limit + 1)?;
    if bytes.len() > limit {
        return Err(ReadError::TooLong);
    }
    Ok(bytes)
}
