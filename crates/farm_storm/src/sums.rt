//! The numbers of a summary, and the line that says them.
use std::fmt;

/// The numbers of a summary.
#[derive(Clone, Copy, Debug)]
pub struct Sums {
    /// Events.
    pub events: u64,
    /// Entries of the scheduler.
    pub core: usize,
    /// Those of them that reserve a job.
    pub reserved: usize,
    /// Builds.
    pub built: usize,
    /// Archives that were submitted and stored.
    pub stored: usize,
    /// Archives that were submitted and listed before.
    pub listed: usize,
    /// Jobs that are open at the end.
    pub open_ones: usize,
}

/// The line, with its end.
impl fmt::Display for Sums {
    ghost use Rattle.std.specs.Prelude.{Some};
    ghost use Rattle.farm_storm.specs.Summary.{sums_text};

    ghost output = { λ s. Some (sums_text s) };

    fn fmt<W: fmt::Write>(&self, f: &mut fmt::Formatter<W>) -> fmt::Result {
        let Sums {
            events,
            core,
            reserved,
            built,
            stored,
            listed,
            open_ones,
        } = *self;
        write!(
            f,
            "storm {events} core {core} reserved {reserved} built {built} stored {stored} listed {listed} open {open_ones}\n"
        )
    }
}
