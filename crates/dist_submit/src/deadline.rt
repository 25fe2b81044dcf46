//! How long a job may take.
use std::io::{self, ErrorKind};
use std::time::{Clock, Duration};

/// The moment until which it may take, by the system's clock that never goes back; none where there is no limit.
#[derive(Clone, Copy, Debug)]
pub(crate) struct Deadline {
    end: Option<Duration>,
}

/// The milliseconds of the system's clock that never goes back; 0 where it does not tell.
pub(crate) fn millis<C: Clock>(clock: &C) -> u64 {
    match clock.monotonic() {
        Ok(now) => u64::try_from(now.as_millis()).unwrap_or(u64::MAX),
        Err(_) => 0,
    }
}

/// How many milliseconds went by since a moment.
pub(crate) fn since<C: Clock>(clock: &C, begin: u64) -> u64 {
    millis(clock).saturating_sub(begin)
}

impl Deadline {
    /// So many seconds from now on, or no limit.
    pub(crate) fn within<C: Clock>(clock: &C, seconds: Option<u64>) -> Self {
        let Some(seconds) = seconds else {
            return Deadline { end: None };
        };
        match clock.monotonic() {
            Ok(now) => Deadline {
                end: now.checked_add(Duration::from_secs(seconds)),
            },
            Err(_) => Deadline { end: None },
        }
    }

    /// The time that is left, none where there is no limit. An error where it is over.
    pub(crate) fn left<C: Clock>(&self, clock: &C) -> io::Result<Option<Duration>> {
        let Some(end) = self.end else {
            return Ok(None);
        };
        let now = clock.monotonic()?;
        match end.checked_sub(now) {
            Some(left) if !left.is_zero() => Ok(Some(left)),
            _ => Err(io::Error::from(ErrorKind::TimedOut)),
        }
    }

    /// Whether the time is over.
    pub(crate) fn is_over<C: Clock>(&self, clock: &C) -> bool {
        self.left(clock).is_err()
    }

    /// So many milliseconds, but no more than are left.
    pub(crate) fn at_most<C: Clock>(&self, clock: &C, millis: u64) -> Duration {
        let wanted = Duration::from_millis(millis);
        match self.left(clock) {
            Ok(None) => wanted,
            Ok(Some(left)) => { if left < wanted { left } else { wanted } }
            Err(_) => Duration::ZERO,
        }
    }
}
