//! Laws: what follows for a reader from the clauses of the running server's calls.
ghost use Rattle.build_server.specs.Laws.{RunsAreTold, SubmissionsAreTold};

use dist_types::outgoing::ServerOutgoing;

/// A run's answer is what its rows say. Complete is what the builder's one new row gave, BuildFailed(Refused)
/// where that row refused; the builder has no new row where JobNotFound, Unlisted or Folder is answered.
/// Before these Started and Complete were accepted, in this order; an update that was not accepted is told,
/// and is the last.
pub fn runs_are_told<O: ServerOutgoing>()
    ensures { RunsAreTold O.says }
{}

/// A submission reports Ready once, and answers UpdateFailed exactly where that is not accepted. Where a read
/// failed, which the reader's count shows, or more than 1,073,741,824 bytes came, it answers CannotCache,
/// whatever is held, and nothing is stored; else it ends with all that the reader had left.
pub fn submissions_are_told<O: ServerOutgoing>()
    ensures { SubmissionsAreTold O.says }
{}
