//! What holds of every list of calls.
ghost use Rattle.std.specs.Prelude.{List};
ghost use Rattle.quota.specs.Calls.{IsIsolated};
ghost use Rattle.quota.specs.Quota.{Quota};
ghost use Rattle.quota.specs.declared.call.QuotaCall.{QuotaCall};

/// A client that is refused leaves the log and the answers of all other calls as they were: those of the list
/// without the calls that were answered Full or NoClient.
pub fn refused_calls_leave_others()
    ensures { (q : Quota) (calls : List QuotaCall) → IsIsolated q calls }
{}
