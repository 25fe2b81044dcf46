//! The calls of a folder in memory, and which of them fail.
ghost use Rattle.std.specs.Prelude.{◌≡◌, ◌≤◌, ◌-◌, [], false, Ok, Err, OnOk, IfOk, if◌then◌else◌, length};
ghost use Rattle.dist_types.specs.Cause.{counted};
ghost use Rattle.folders.specs.Numbers.{fails_before, fails_after, piece_fails, piece_breaks, piece_length};

use crate::fault::FolderFault;
use dist_types::fault::raise;

/// How many calls were made, which of them fail, and how many failed.
#[derive(Debug, Drop)]
pub struct Calls {
    before: Vec<u64>,
    after: Vec<u64>,
    middle: Vec<u64>,
    count: u64,
    pub(crate) faults: u64,
}

/// What a call that writes bytes is to do.
#[derive(Clone, Copy)]
pub(crate) struct Piece {
    /// How many of the bytes it writes.
    pub(crate) length: usize,
    /// Whether it fails behind that.
    pub(crate) breaks: bool,
}

impl Calls {
    /// No call so far. The calls of the numbers `before`, from 0 on, fail before they do anything, and those
    /// of `after` behind it.
    pub fn new(before: Vec<u64>, after: Vec<u64>) -> Self
        ensures before { result.before ≡ before }
        ensures after { result.after ≡ after }
        ensures middle { result.middle.items ≡ [] }
        ensures count { result.count ≡ 0 }
        ensures faults { result.faults ≡ 0 }
    {
        let middle = Vec::new(*before.allocator());
        Calls {
            before,
            after,
            middle,
            count: 0,
            faults: 0,
        }
    }

    /// The calls of the numbers `middle` are to stop in the middle as well: one that writes bytes leaves all
    /// but the last of them and fails, and each other fails before it does anything.
    pub fn stopping(self, middle: Vec<u64>) -> Self
        ensures { result ≡ record self { middle = middle } }
    {
        Calls { middle, ..self }
    }

    /// One more call. Gives whether it fails behind what it does.
    pub(crate) fn begin(&mut self) -> Result<bool, FolderFault>
        ensures answer { result ≡ (if fails_before self.old then Err FolderFault.Failed
            else Ok (fails_after self.old)) }
        ensures calls { self.new ≡ record self.old {
          count = counted self.old.count;
          faults = (if fails_before self.old then counted self.old.faults else self.old.faults);
        } }
        ensures steady { OnOk result (self.new.faults ≡ self.old.faults) }
        ensures later { self.old.faults ≤ self.new.faults }
    {
        let number = self.count;
        self.count = self.count.saturating_add(1);
        let breaks = self.after.contains(&number);
        if self.before.contains(&number) || self.middle.contains(&number) {
            raise(&mut self.faults);
            return Err(FolderFault::Failed);
        }
        Ok(breaks)
    }

    /// One more call, which writes bytes. Gives how many of them it writes, and whether it fails behind that.
    pub(crate) fn begin_piece(&mut self, bytes: &[u8]) -> Result<Piece, FolderFault>
        ensures answer { result ≡ (if piece_fails self.old bytes.now then Err FolderFault.Failed
            else Ok (record { length = piece_length self.old bytes.now; breaks = piece_breaks self.old })) }
        ensures within { IfOk result (λ p. p.length ≤ length bytes.now) }
        ensures whole { IfOk result (λ p. p.breaks ≡ false → p.length ≡ length bytes.now) }
        ensures calls { self.new ≡ record self.old {
          count = counted self.old.count;
          faults = (if piece_fails self.old bytes.now then counted self.old.faults
              else self.old.faults);
        } }
        ensures steady { OnOk result (self.new.faults ≡ self.old.faults) }
        ensures later { self.old.faults ≤ self.new.faults }
    {
        let number = self.count;
        self.count = self.count.saturating_add(1);
        let stops = self.middle.contains(&number);
        let breaks = stops || self.after.contains(&number);
        let length = piece_length(bytes.len(), stops);
        if self.before.contains(&number) || (stops && bytes.is_empty()) {
            raise(&mut self.faults);
            return Err(FolderFault::Failed);
        }
        Ok(Piece { length, breaks })
    }

    /// The end of a call that did what it does.
    pub(crate) fn end(&mut self, breaks: bool) -> Result<(), FolderFault>
        ensures answer { result ≡ (if breaks then Err FolderFault.Failed else Ok tt) }
        ensures calls { self.new ≡ record self.old
            { faults = (if breaks then counted self.old.faults else self.old.faults) } }
        ensures later { self.old.faults ≤ self.new.faults }
    {
        if breaks {
            raise(&mut self.faults);
            return Err(FolderFault::Failed);
        }
        Ok(())
    }
}

// How many of some bytes a call writes, by whether it stops in the middle.
fn piece_length(length: usize, stops: bool) -> usize
    ensures is { result ≡ (if stops then length - 1 else length) }
    ensures within { result ≤ length }
{
    if stops {
        length.saturating_sub(1)
    } else {
        length
    }
}
