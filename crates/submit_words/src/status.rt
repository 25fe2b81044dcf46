//! The status that the program ends with, and how long it waits before a job is asked for again.
ghost use Rattle.std.specs.Prelude.{◌≡◌, ◌*◌, min};
ghost use Rattle.submit_words.specs.Status.{bits_of, own_status, ended, is_reserved};

use crate::refusal::Refusal;

/// How long it waits before the second time, in milliseconds.
pub const FIRST_WAIT: u64 = 250;

/// The longest wait, in milliseconds.
pub const LONGEST_WAIT: u64 = 8_000;

// The low eight bits, but 1 where that would make 0 of another code.
fn status_of(bits: u32) -> u8
    ensures { result ≡ own_status bits }
{
    let low = bits % 256;
    if low == 0 && bits != 0 { 1 } else { low as u8 }
}

/// The status that the system gives for a job's code: its low eight bits, but 1 where that would make 0 of another code.
pub fn own_status(code: i32) -> u8
    ensures { result ≡ own_status (bits_of code) }
{
    status_of(code.cast_unsigned())
}

/// How a job ended of which the outputs were handed on or not: with its own status where its code is not 0, else with
/// that of what was not handed on.
pub fn ended(code: i32, handed_on: Result<(), Refusal>) -> Result<u8, Refusal>
    ensures { result ≡ ended (bits_of code) handed_on }
{
    let bits = code.cast_unsigned();
    match handed_on {
        Ok(()) => Ok(status_of(bits)),
        Err(refusal) => {
            if bits == 0 {
                Err(refusal)
            } else {
                Ok(status_of(bits))
            }
        }
    }
}

/// Whether a status is one that a refusal has: where it is a job's own, that is said.
pub fn is_reserved(status: u8) -> bool
    ensures { result ≡ is_reserved status }
{
    120 <= status && status <= 124
}

/// How long it waits the next time: twice as long, and never longer than the longest.
pub fn next_wait(wait: u64) -> u64
    ensures { result ≡ min 8000 (2 * wait) }
{
    if wait >= LONGEST_WAIT / 2 {
        return LONGEST_WAIT;
    }
    2 * wait
}
