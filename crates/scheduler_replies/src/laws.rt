//! What is replied, by the entry that its step made. The law is the contract of a function that does nothing.
ghost use Rattle.std.specs.Prelude.{◌≡◌, ℕ, List, Bool, Option, Some, Result, Ok, Err};
ghost use Rattle.dist_types.specs.declared.addr.Addr.{Addr};
ghost use Rattle.dist_types.specs.declared.ids.JobId.{JobId};
ghost use Rattle.dist_types.specs.declared.outgoing.CallFault.{CallFault};
ghost use Rattle.dist_types.specs.declared.results.AllocJobResult.{AllocJobResult};
ghost use Rattle.dist_types.specs.declared.results.AssignJobResult.{AssignJobResult};
ghost use Rattle.dist_types.specs.declared.results.HeartbeatServerResult.{HeartbeatServerResult};
ghost use Rattle.dist_types.specs.declared.results.JobState.{JobState};
ghost use Rattle.dist_types.specs.declared.results.SchedulerStatusResult.{SchedulerStatusResult};
ghost use Rattle.dist_types.specs.declared.results.UpdateJobStateResult.{UpdateJobStateResult};
ghost use Rattle.dist_wire.specs.declared.drain.DrainServerHttpRequest.{DrainServerHttpRequest};
ghost use Rattle.dist_wire.specs.declared.heartbeat.HeartbeatServerHttpRequest.{HeartbeatServerHttpRequest};
ghost use Rattle.core_rules.specs.Log.{Core};
ghost use Rattle.core_rules.specs.Texts.{no_room_text};
ghost use Rattle.core_rules.specs.Ticket.{Ticket};
ghost use Rattle.core_rules.specs.declared.call.Call.TheVariants as call;
ghost use Rattle.core_rules.specs.declared.entry.CoreEntry.{CoreEntry};
ghost use Rattle.sched_core.specs.declared.answers.Picked.TheVariants as picked;
ghost use Rattle.http_routes.specs.Replies.{heard_response, status_response, alloc_response, update_response};
ghost use Rattle.http_routes.specs.Replies.{drained_response};
ghost use Rattle.http_routes.specs.declared.reply.Response.{Response};
ghost use Rattle.http_routes.specs.declared.route.SchedRouted.TheVariants as asked;
ghost use Rattle.scheduler_steps.specs.Settling.{spend_call, TellsSettle, RefusesSettle, FailsWith, Answers};
ghost use Rattle.scheduler_steps.specs.Step.{Gives};
ghost use Rattle.scheduler_steps.specs.Telling.{TellsReserve, TellsHeard, RefusesHeard, TellsReported};
ghost use Rattle.scheduler_steps.specs.Telling.{TellsCounted, TellsDrained, WantsMemory};
ghost use Rattle.scheduler_steps.specs.declared.fault.SchedFault.{SchedFault};
ghost use Rattle.scheduler_steps.specs.declared.settled.Settled.{Settled};
ghost use Rattle.scheduler_replies.specs.ByEntry.{RepliesAt, settled_reply};
ghost use Rattle.scheduler_replies.specs.Replies.{told_fault, report_fault, Replies};

use dist_types::roles::JobAuthorizer;

/// What a step gives and what is replied to its answer are told by its entry: of a heartbeat, a report, a
/// status request and a drain, of an allocation that no server has room for or that no id is left for, and
/// of one whose server was asked, by the entry that spent its reservation.
pub fn replies_are_by_entry<A: JobAuthorizer>()
    ensures heartbeats { (json : Bool) (server : Addr) (beat : HeartbeatServerHttpRequest) (now : ℕ) (s : Core)
        (made : Option CoreEntry) (answer : Result HeartbeatServerResult SchedFault) (response : Response)
        → Gives (call.Beat now server beat.server_nonce beat.num_cpus beat.jwt_key) (TellsHeard beat.num_cpus)
        (RefusesHeard beat.num_cpus) s made answer
        → Replies (heard_response json) told_fault answer response
        → RepliesAt json (asked.Beat server beat) now s made response }
    ensures reports { (json : Bool) (server : Addr) (job : JobId) (state : JobState) (now : ℕ) (s : Core)
        (made : Option CoreEntry) (answer : Result UpdateJobStateResult SchedFault) (response : Response)
        → Gives (call.Update now server job state) TellsReported WantsMemory s made answer
        → Replies (update_response json) (report_fault server job) answer response
        → RepliesAt json (asked.Update server job state) now s made response }
    ensures statuses { (json : Bool) (now : ℕ) (s : Core) (made : Option CoreEntry)
        (answer : Result SchedulerStatusResult SchedFault) (response : Response)
        → Gives (call.Status now) TellsCounted WantsMemory s made answer
        → Replies (status_response json) told_fault answer response
        → RepliesAt json asked.Status now s made response }
    ensures drains { (json : Bool) (server : Addr) (drain : DrainServerHttpRequest) (now : ℕ) (s : Core)
        (made : Option CoreEntry) (answer : Result Bool SchedFault) (response : Response)
        → Gives (call.Drain now server drain.server_nonce drain.draining) TellsDrained WantsMemory s made
        answer
        → Replies (drained_response json) told_fault answer response
        → RepliesAt json (asked.Drain server drain) now s made response }
    ensures full { (json : Bool) (tc : List ℕ) (standing now : ℕ) (s : Core) (made : Option CoreEntry)
        (answer : Result AllocJobResult SchedFault) (response : Response)
        → Gives (call.Reserve now) (TellsReserve A.key_of A.token_for) WantsMemory s made
        (Ok (picked.NoRoom standing))
        → FailsWith (no_room_text standing) answer → Replies (alloc_response json) told_fault answer response
        → RepliesAt json (asked.Alloc tc) now s made response }
    ensures spent { (json : Bool) (tc : List ℕ) (now : ℕ) (s : Core) (made : Option CoreEntry)
        (fault : SchedFault) (answer : Result AllocJobResult SchedFault) (response : Response)
        → Gives (call.Reserve now) (TellsReserve A.key_of A.token_for) WantsMemory s made (Err fault)
        → answer ≡ Err fault → Replies (alloc_response json) told_fault answer response
        → RepliesAt json (asked.Alloc tc) now s made response }
    ensures settled { (json : Bool) (r : Ticket) (heard : Result AssignJobResult CallFault) (now : ℕ) (s : Core)
        (e : CoreEntry) (settled : Settled) (answer : Result AllocJobResult SchedFault) (response : Response)
        → Gives (spend_call now r heard) (TellsSettle r heard) (RefusesSettle r heard) s (Some e) settled
        → Answers settled answer → Replies (alloc_response json) told_fault answer response
        → response ≡ settled_reply json r heard e.kind }
{}
