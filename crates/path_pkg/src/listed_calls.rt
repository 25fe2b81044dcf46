//! Objects in memory whose listed calls fail.
ghost use Rattle.std.specs.Prelude.{◌≡◌, ◌≤◌, if◌then◌else◌, is_err};
ghost use Rattle.dist_types.specs.Cause.{counted};
ghost use Rattle.dist_types.specs.InMemory.{is_listed};

use dist_types::fault::{Failed, raise};

/// One more call. It fails, and raises the count of faults, exactly where its number, which is the count of
/// the calls before it, is listed. Both counts stop at their end, 2^64 - 1.
pub fn begin_call(fails: &[u64], calls: &mut u64, faults: &mut u64) -> Result<(), Failed>
    ensures fails { is_err result ≡ is_listed fails.now calls.old }
    ensures calls { calls.new ≡ counted calls.old }
    ensures counted { faults.new ≡ (if is_err result then counted faults.old else faults.old) }
    ensures later { faults.old ≤ faults.new }
{
    let number = *calls;
    *calls = calls.saturating_add(1);
    let _ = *faults;
    if fails.contains(&number) {
        raise(faults);
        return Err(Failed);
    }
    Ok(())
}
