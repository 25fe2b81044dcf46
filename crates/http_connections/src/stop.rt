//! Reading a connection up to where a request's head may end.
ghost use Rattle.std.specs.Prelude.{◌≡◌, ◌≤◌, IfOk, IfSome, IfNone, OnOk, OnErr, IfErr, Err, ◌≢◌, vec_len};
ghost use Rattle.std.specs.Prelude.{option_to_list};
ghost use Rattle.dist_types.specs.Cause.{Rose};
ghost use Rattle.dist_types.specs.Content.{Taken, TookFront, IsAtEnd};
ghost use Rattle.http_head.specs.Stop.{stop_of};
ghost use Rattle.http_connections.specs.Taking.{TakesOfStop};

use crate::scan::{ends, start, step};
use dist_types::fault::Failed;
use dist_types::source::{ReadError, Source};
use std::alloc::Global;

/// How many bytes are read at most before a head must have ended.
pub(crate) const MAX_STOP_BYTES: usize = 65537;

/// Reads one byte, or none at the end.
fn read_byte<S: Source>(link: &mut S) -> Result<Option<u8>, Failed>
    ensures taken { IfOk result (λ b. Taken (option_to_list b) (S.left link.old) (S.left link.new)) }
    ensures end { IfOk result (λ b. IfNone b (IsAtEnd (S.left link.new))) }
    ensures same { OnErr result (S.left link.new ≡ S.left link.old) }
    ensures steady { OnOk result (S.faults link.new ≡ S.faults link.old) }
    ensures later { S.faults link.old ≤ S.faults link.new }
    ensures cause { OnErr result (Rose (S.faults link.old) (S.faults link.new)) }
    ensures apart { S.apart link.new ≡ S.apart link.old }
{
    let mut byte = [0u8; 1];
    let n = link.read(&mut byte)?;
    if n == 0 {
        return Ok(None);
    }
    Ok(Some(byte[0]))
}

/// Reads a byte at a time, up to the stop. Failed comes only where the count of faults rose, and TooLong
/// never; after an error a front of the stop was taken.
pub(crate) fn read_stop<S: Source>(alloc: Global, link: &mut S) -> Result<Vec<u8>, ReadError>
    ensures stop { IfOk result (λ s. IfSome (S.left link.old) (λ bytes. stop_of bytes ≡ s.items)) }
    ensures taken { IfOk result (λ s. Taken s.items (S.left link.old) (S.left link.new)) }
    ensures short { IfOk result (λ s. vec_len s ≤ 65537) }
    ensures steady { result ≢ Err ReadError.Failed → S.faults link.new ≡ S.faults link.old }
    ensures never_long { IfErr result (λ e. ¬ (e ≡ ReadError.TooLong)) }
    ensures later { S.faults link.old ≤ S.faults link.new }
    ensures cause { result ≡ Err ReadError.Failed → Rose (S.faults link.old) (S.faults link.new) }
    ensures front { OnErr result (TookFront (S.left link.old) (S.left link.new)) }
    ensures within { OnErr result (IfSome (S.left link.old) (λ bytes.
        TakesOfStop bytes (S.left link.new))) }
    ensures apart { S.apart link.new ≡ S.apart link.old }
{
    let mut out = Vec::new(alloc);
    let mut scan = start();
    loop {
        let Some(byte) = read_byte(link)? else {
            return Ok(out);
        };
        let ended = ends(scan, byte);
        scan = step(scan, byte);
        match out.push(byte) {
            Ok(()) => {}
            Err(_) => return Err(ReadError::Memory),
        }
        if ended {
            return Ok(out);
        }
        if out.len() == MAX_STOP_BYTES {
            return Ok(out);
        }
    }
}
