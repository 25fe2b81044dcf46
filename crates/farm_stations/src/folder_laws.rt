//! The law of the folders that a farm makes: in memory, with no call that is to fail.
ghost use Rattle.folders.specs.InMemory.{SameNumbers};
ghost use Rattle.folders.specs.declared.calls.Calls.{Calls};
ghost use Rattle.farm_stations.specs.Unlisted.{NoneListed, FailsNowhere};

/// A folder in memory of which no call is listed never fails: its next call does not, whatever it finds and
/// writes, and behind a call, which keeps the numbers, still none is listed.
pub fn unlisted_calls_never_fail()
    ensures { (calls next : Calls) → NoneListed calls
        → FailsNowhere calls × (SameNumbers calls next → NoneListed next) }
{}
