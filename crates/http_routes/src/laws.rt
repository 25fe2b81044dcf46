//! Laws over all bytes: each is a function with no body, whose contract is the law.
ghost use Rattle.std.specs.Prelude.{◌≡◌, ◌↔◌, ◌⊎◌, ◌≤◌, ◌<◌, ◌^◌, ℕ, Bool, List, length, Option, Some};
ghost use Rattle.std.specs.Prelude.{None, Result, Ok, Err, ⊤, true, false, codes};
ghost use Rattle.dist_types.specs.Addr.{addr_text, ip_of, IsAddr};
ghost use Rattle.dist_types.specs.declared.addr.Addr.{Addr};
ghost use Rattle.dist_types.specs.declared.ids.JobId.{JobId};
ghost use Rattle.dist_types.specs.declared.outgoing.CallFault.{CallFault};
ghost use Rattle.dist_types.specs.declared.results.AssignJobResult.{AssignJobResult};
ghost use Rattle.dist_types.specs.declared.results.JobState.{JobState};
ghost use Rattle.dist_types.specs.declared.rules.Rules.{Rules};
ghost use Rattle.dist_types.specs.declared.rules.Rules.TheVariants.{One, Two};
ghost use Rattle.dist_types.specs.declared.token_error.TokenError.{TokenError};
ghost use Rattle.dist_wire.specs.Codec.{IsBytes};
ghost use Rattle.dist_wire.specs.Spelling.{SpellsToolchain, SpellsHeartbeat, SpellsDrain, SpellsRun};
ghost use Rattle.dist_wire.specs.Written.{bytes_text, heartbeat_text, drain_text, run_text};
ghost use Rattle.dist_wire.specs.declared.drain.DrainServerHttpRequest.{DrainServerHttpRequest};
ghost use Rattle.dist_wire.specs.declared.heartbeat.HeartbeatServerHttpRequest.{HeartbeatServerHttpRequest};
ghost use Rattle.dist_wire.specs.declared.run.RunJobHttpRequest.{RunJobHttpRequest};
ghost use Rattle.core_rules.specs.Rule.{is_initial};
ghost use Rattle.http_head.specs.declared.reply.Reply.{Reply};
ghost use Rattle.http_head.specs.declared.request.Request.{Request};
ghost use Rattle.http_head.specs.Head.{IsRequest, IsNoRequest, IsReply};
ghost use Rattle.http_head.specs.WrittenRequest.{request_text, is_visible, IsWithinLimits};
ghost use Rattle.std.specs.List.{list_all};
ghost use Rattle.http_routes.specs.declared.admission.Admission.{Admission};
ghost use Rattle.http_routes.specs.declared.admission.Admission.TheVariants.{Admitted};
ghost use Rattle.http_routes.specs.declared.kind.Kind.TheVariants.{Waits};
ghost use Rattle.http_routes.specs.declared.kind.Role.TheVariants as role;
ghost use Rattle.http_routes.specs.declared.refusal.Refusal.{Refusal};
ghost use Rattle.http_routes.specs.declared.refusal.Refusal.TheVariants.{BadHead, NoRoute};
ghost use Rattle.http_routes.specs.declared.reply.Response.{Response};
ghost use Rattle.http_routes.specs.declared.route.Asked.{Asked};
ghost use Rattle.http_routes.specs.declared.route.SchedRouted.{SchedRouted};
ghost use Rattle.http_routes.specs.declared.route.SchedRouted.TheVariants.{Alloc, Beat, Update, Status};
ghost use Rattle.http_routes.specs.declared.route.SchedRouted.TheVariants.{Drain, Done};
ghost use Rattle.http_routes.specs.declared.server_route.ServerAsked.{ServerAsked};
ghost use Rattle.http_routes.specs.declared.server_route.ServerRouted.TheVariants as server;
ghost use Rattle.http_routes.specs.Admission.{Admits};
ghost use Rattle.http_routes.specs.Asked.{IsAskedOf, IsAskedUnder};
ghost use Rattle.http_routes.specs.CallReply.{IsToldBy, IsAnswer, IsAssigned};
ghost use Rattle.http_routes.specs.InOrder.{IsAt, InForm, IsAllocation, IsHeartbeat, IsUpdate, IsStatus};
ghost use Rattle.http_routes.specs.InOrder.{IsDrain, IsAssignment, IsSubmission, IsRun};
ghost use Rattle.http_routes.specs.Kind.{kind_of};
ghost use Rattle.http_routes.specs.Message.{BeginsWith};
ghost use Rattle.http_routes.specs.ReadAs.{allocated, IsReadAs};
ghost use Rattle.http_routes.specs.ReadBack.{seen};
ghost use Rattle.http_routes.specs.Refusal.{refusal_response};
ghost use Rattle.http_routes.specs.Refused.{IsRefused, IsServerRefused};
ghost use Rattle.http_routes.specs.Reply.{body_of, reply_text};
ghost use Rattle.http_routes.specs.Route.{asked_of, answered, IsNoDrain};
ghost use Rattle.http_routes.specs.ServerRoute.{body_at, IsServerAsked, AsksAssign, AsksSubmit, AsksRun};
ghost use Rattle.http_routes.specs.Settled.{server_settled, scheduler_settled, IsSettledFor, IsSettledAt};
ghost use Rattle.http_routes.specs.Requests.{alloc_with, status_with, heartbeat_with, state_with};
ghost use Rattle.http_routes.specs.Requests.{drain_with, assign_with, submit_with, run_with, CanGo};

use dist_token::checks::ClientAuthCheck;
use dist_wire::message::Message;

/// A reply that was written is read as it was meant.
pub fn replies_read_back()
    ensures { (r : Response) → length (body_of r) ≤ 1073741824 → IsReply (reply_text r) (seen r) }
{}

/// Bytes that a peer sent ask one thing of the scheduler at most, in one form.
pub fn one_question()
    ensures { (rules : Rules) (lets : List ℕ → Admission) (serves : List ℕ → Option Addr) (bytes : List ℕ)
        (peer : Addr) (a b : Asked)
        → IsAskedUnder rules lets serves bytes peer a → IsAskedUnder rules lets serves bytes peer b → a ≡ b }
{}

/// Bytes ask for a job exactly where they are a request that does, with that toolchain, and shows a token
/// that lets its client in.
pub fn allocations_asked()
    ensures { (rules : Rules) (lets : List ℕ → Admission) (serves : List ℕ → Option Addr) (bytes : List ℕ)
        (peer : Addr) (tc : List ℕ) (json : Bool) → IsBytes bytes
        → IsAskedUnder rules lets serves bytes peer (record { what = Alloc tc; json = json })
        ↔ ((r : Request) × IsRequest bytes r × IsAllocation r lets tc × InForm r json) }
{}

/// Bytes ask for a heartbeat to be noted exactly where they are a request that is that heartbeat of
/// that server.
pub fn heartbeats_asked()
    ensures { (rules : Rules) (lets : List ℕ → Admission) (serves : List ℕ → Option Addr) (bytes : List ℕ)
        (peer server : Addr) (m : HeartbeatServerHttpRequest) (json : Bool) → IsBytes bytes
        → IsAskedUnder rules lets serves bytes peer (record { what = Beat server m; json = json })
        ↔ ((r : Request) × IsRequest bytes r × IsHeartbeat r peer serves server m × InForm r json) }
{}

/// Bytes ask for a state of a job to be taken exactly where they are a request that tells it, of that server.
pub fn updates_asked()
    ensures { (rules : Rules) (lets : List ℕ → Admission) (serves : List ℕ → Option Addr) (bytes : List ℕ)
        (peer server : Addr) (job : JobId) (state : JobState) (json : Bool) → IsBytes bytes
        → IsAskedUnder rules lets serves bytes peer (record { what = Update server job state; json = json })
        ↔ ((r : Request) × IsRequest bytes r × IsUpdate r peer serves server job state × InForm r json) }
{}

/// Bytes ask for the status exactly where they are a request for it.
pub fn statuses_asked()
    ensures { (rules : Rules) (lets : List ℕ → Admission) (serves : List ℕ → Option Addr) (bytes : List ℕ)
        (peer : Addr) (json : Bool)
        → IsAskedUnder rules lets serves bytes peer (record { what = Status; json = json })
        ↔ ((r : Request) × IsRequest bytes r × IsStatus r × InForm r json) }
{}

/// Bytes ask that a registration drain, or drain no more, exactly where the rules are version 2 and they are
/// a request that is that wish of that server.
pub fn drains_asked()
    ensures { (rules : Rules) (lets : List ℕ → Admission) (serves : List ℕ → Option Addr) (bytes : List ℕ)
        (peer server : Addr) (m : DrainServerHttpRequest) (json : Bool) → IsBytes bytes
        → IsAskedUnder rules lets serves bytes peer (record { what = Drain server m; json = json })
        ↔ ((r : Request) × IsRequest bytes r × IsDrain rules r peer serves server m × InForm r json) }
{}

/// In version 1 no request and no bytes ask for a drain, and a POST to where version 2 has its route is at
/// no route.
pub fn no_drain_in_version_1()
    ensures requests { (serves : List ℕ → Option Addr) (r : Request) (peer : Addr) (said : Option Admission)
        → IsNoDrain (answered (asked_of One serves r peer said)) }
    ensures bytes { (lets : List ℕ → Admission) (serves : List ℕ → Option Addr) (bytes : List ℕ)
        (peer : Addr) (a : Asked) → IsAskedUnder One lets serves bytes peer a → IsNoDrain a.what }
    ensures refused { (serves : List ℕ → Option Addr) (r : Request) (peer : Addr) (said : Option Admission)
        → IsAt r (codes "POST") (codes "/api/v1/scheduler/drain_server")
        → asked_of One serves r peer said ≡ Err NoRoute }
{}

/// A reply of the scheduler is known at once exactly where the bytes are a request that one test of its route
/// refuses, in the tests' order, and it is the reply to that refusal; or they are no request, and it is the
/// reply to a bad head.
pub fn replies_at_once()
    ensures { (rules : Rules) (lets : List ℕ → Admission) (serves : List ℕ → Option Addr) (bytes : List ℕ)
        (peer : Addr) (reply : Response) (json : Bool) → IsBytes bytes
        → IsAskedUnder rules lets serves bytes peer (record { what = Done reply; json = json })
        ↔ (((r : Request) × (refusal : Refusal) × IsRequest bytes r
        × IsRefused rules r peer lets serves refusal × (reply ≡ refusal_response refusal) × InForm r json)
        ⊎ (IsNoRequest bytes × (reply ≡ refusal_response BadHead) × (json ≡ false))) }
{}

/// Bytes ask one thing of a build server at most, in one form.
pub fn one_server_question()
    ensures { (verdict : ℕ → List ℕ → Result ⊤ TokenError) (bytes : List ℕ) (a b : ServerAsked)
        → IsServerAsked verdict bytes a → IsServerAsked verdict bytes b → a ≡ b }
{}

/// Bytes ask a server to take a job exactly where they are a request that does, with that toolchain, and
/// shows a token that is accepted for the job.
pub fn assignments_asked()
    ensures { (verdict : ℕ → List ℕ → Result ⊤ TokenError) (bytes : List ℕ) (job : JobId) (tc : List ℕ)
        (json : Bool)
        (body : ℕ) → IsBytes bytes
        → IsServerAsked verdict bytes (record { what = server.Assign job tc; json = json; body = body })
        ↔ ((r : Request) × IsRequest bytes r × IsAssignment r verdict job tc × InForm r json
        × (body ≡ body_at bytes r)) }
{}

/// Bytes bring a server a job's toolchain exactly where they are a request that does, and shows a token that
/// is accepted for the job.
pub fn submissions_asked()
    ensures { (verdict : ℕ → List ℕ → Result ⊤ TokenError) (bytes : List ℕ) (job : JobId) (json : Bool)
        (body : ℕ)
        → IsServerAsked verdict bytes (record { what = server.Submit job; json = json; body = body })
        ↔ ((r : Request) × IsRequest bytes r × IsSubmission r verdict job × InForm r json
        × (body ≡ body_at bytes r)) }
{}

/// Bytes ask a server to run a job exactly where they are a request that does, with that run, whose inputs
/// begin at that place of its body, and shows a token that is accepted for the job.
pub fn runs_asked()
    ensures { (verdict : ℕ → List ℕ → Result ⊤ TokenError) (bytes : List ℕ) (job : JobId)
        (run : RunJobHttpRequest)
        (at : ℕ) (json : Bool) (body : ℕ) → IsBytes bytes
        → IsServerAsked verdict bytes (record { what = server.Run job run at; json = json; body = body })
        ↔ ((r : Request) × IsRequest bytes r × IsRun r verdict job run at × InForm r json
        × (body ≡ body_at bytes r)) }
{}

/// A reply of a server is known at once exactly where the bytes are a request that one test of its route
/// refuses, in the tests' order, and it is the reply to that refusal; or they are no request, and it is the
/// reply to a bad head.
pub fn server_replies_at_once()
    ensures { (verdict : ℕ → List ℕ → Result ⊤ TokenError) (bytes : List ℕ) (reply : Response) (json : Bool)
        (body : ℕ)
        → IsBytes bytes
        → IsServerAsked verdict bytes (record { what = server.Done reply; json = json; body = body })
        ↔ (((r : Request) × (refusal : Refusal) × IsRequest bytes r × IsServerRefused r verdict refusal
        × (reply ≡ refusal_response refusal) × InForm r json × (body ≡ body_at bytes r))
        ⊎ (IsNoRequest bytes × (reply ≡ refusal_response BadHead) × (json ≡ false) × (body ≡ length bytes))) }
{}

/// The bytes of a reply tell a message exactly where they are a reply with status 200 whose body the message
/// begins.
pub fn replies_told<M: Message>()
    ensures { (bytes : List ℕ) (m : M) → IsBytes bytes
        → IsToldBy M.at bytes (Ok m) ↔ ((r : Reply) × IsReply bytes r × (r.code ≡ 200)
        × BeginsWith M.spells r.body m) }
{}

/// The bytes of the reply to a call say one thing at most.
pub fn one_answer<M: Message>()
    ensures { (bytes : List ℕ) (a b : Result M CallFault) → IsAnswer M.at bytes a → IsAnswer M.at bytes b
        → a ≡ b }
{}

/// The bytes of a reply to an assignment say one thing at most.
pub fn one_assignment()
    ensures { (bytes : List ℕ) (a b : Result AssignJobResult CallFault) → IsAssigned bytes a
        → IsAssigned bytes b → a ≡ b }
{}

/// An answer to an assignment that is taken tells a state that an assignment may tell.
pub fn assignments_begin()
    ensures { (bytes : List ℕ) (a : AssignJobResult) → IsAssigned bytes (Ok a) → is_initial a.state ≡ true }
{}

/// The text of an address has no control byte and no space, so it can stand in a head.
pub fn addresses_are_visible()
    ensures { (addr : Addr) → IsAddr addr → list_all is_visible (addr_text addr) ≡ true }
{}

/// A request for a job, where its token lets a client in, is read as one for that toolchain.
pub fn allocations_read_back()
    ensures { (rules : Rules) (host token tc : List ℕ) (lets : List ℕ → Admission)
        (serves : List ℕ → Option Addr) (peer : Addr)
        → CanGo host token (alloc_with host token tc) → SpellsToolchain tc (bytes_text tc)
        → lets token ≡ Admitted
        → IsAskedUnder rules lets serves (request_text (alloc_with host token tc)) peer
        (record { what = Alloc tc; json = false }) }
{}

/// A request for the status is read as one.
pub fn statuses_read_back()
    ensures { (rules : Rules) (host : List ℕ) (lets : List ℕ → Admission) (serves : List ℕ → Option Addr)
        (peer : Addr)
        → list_all is_visible host ≡ true → IsWithinLimits (status_with host)
        → IsAskedUnder rules lets serves (request_text (status_with host)) peer
        (record { what = Status; json = false }) }
{}

/// A request for a job is read as one for that toolchain, under that token, whatever a check of clients says of
/// the token: it is what is asked where the check lets the client in, and else refused.
pub fn allocations_read_as()
    ensures { (host token tc : List ℕ)
        → CanGo host token (alloc_with host token tc) → SpellsToolchain tc (bytes_text tc)
        → IsReadAs (request_text (alloc_with host token tc)) (Some token) (allocated tc) }
{}

/// A request for the status is read as one, and shows no token.
pub fn statuses_read_as()
    ensures { (host : List ℕ) → list_all is_visible host ≡ true → IsWithinLimits (status_with host)
        → IsReadAs (request_text (status_with host)) None (λ said. Status) }
{}

/// Bytes that are read so ask that of a scheduler under each check of clients, in whatever state it is: the check
/// is asked about the token that is shown, and about nothing else, and its word settles what is asked.
pub fn read_under_checks<K: ClientAuthCheck>()
    ensures { (rules : Rules) (serves : List ℕ → Option Addr) (bytes : List ℕ) (shown : Option (List ℕ))
        (what : Option Admission → SchedRouted) (peer : Addr) (now : ℕ) (old new : K) (asked : Asked)
        → IsReadAs bytes shown what
        → IsAskedOf rules K.may_answer K.shown serves bytes peer now old asked new
        ↔ ((said : Option Admission) × Admits K.may_answer K.shown shown now old said new
        × (asked ≡ record { what = what said; json = false })) }
{}

/// A heartbeat, written under a token that is accepted for a server and sent from its IP, is read as that
/// server's.
pub fn heartbeats_read_back()
    ensures { (rules : Rules) (host token : List ℕ) (beat : HeartbeatServerHttpRequest)
        (lets : List ℕ → Admission) (serves : List ℕ → Option Addr) (peer server : Addr)
        → CanGo host token (heartbeat_with host token beat) → SpellsHeartbeat beat (heartbeat_text beat)
        → serves token ≡ Some server → ip_of peer ≡ ip_of server
        → IsAskedUnder rules lets serves (request_text (heartbeat_with host token beat)) peer
        (record { what = Beat server beat; json = false }) }
{}

/// A report of a job's state, written under a token that is accepted for a server and sent from its IP, is
/// read as that server's update of that job to that state.
pub fn states_read_back()
    ensures { (rules : Rules) (host token : List ℕ) (job : JobId) (state : JobState)
        (lets : List ℕ → Admission) (serves : List ℕ → Option Addr) (peer server : Addr)
        → CanGo host token (state_with host token job state) → job.0 < 2 ^ 64
        → serves token ≡ Some server → ip_of peer ≡ ip_of server
        → IsAskedUnder rules lets serves (request_text (state_with host token job state)) peer
        (record { what = Update server job state; json = false }) }
{}

/// A wish to drain, written under a token that is accepted for a server and sent from its IP, is read in
/// version 2 as that server's.
pub fn drains_read_back()
    ensures { (host token : List ℕ) (drain : DrainServerHttpRequest) (lets : List ℕ → Admission)
        (serves : List ℕ → Option Addr) (peer server : Addr)
        → CanGo host token (drain_with host token drain) → SpellsDrain drain (drain_text drain)
        → serves token ≡ Some server → ip_of peer ≡ ip_of server
        → IsAskedUnder Two lets serves (request_text (drain_with host token drain)) peer
        (record { what = Drain server drain; json = false }) }
{}

/// A request to take a job, written under a token that is accepted for the job, is read as one, with that
/// toolchain.
pub fn assignments_read_back()
    ensures { (server : Addr) (token tc : List ℕ) (job : JobId) (verdict : ℕ → List ℕ → Result ⊤ TokenError)
        → CanGo (addr_text server) token (assign_with server job token (bytes_text tc)) → job.0 < 2 ^ 64
        → SpellsToolchain tc (bytes_text tc) → verdict job.0 token ≡ Ok tt
        → AsksAssign verdict (request_text (assign_with server job token (bytes_text tc))) job tc }
{}

/// An archive, written under a token that is accepted for the job, is read as that job's.
pub fn submissions_read_back()
    ensures { (host token archive : List ℕ) (job : JobId) (verdict : ℕ → List ℕ → Result ⊤ TokenError)
        → CanGo host token (submit_with host token job archive) → job.0 < 2 ^ 64 → verdict job.0 token ≡ Ok tt
        → AsksSubmit verdict (request_text (submit_with host token job archive)) job archive }
{}

/// A request to run a job, written under a token that is accepted for the job, is read as one, with that run
/// and those inputs.
pub fn runs_read_back()
    ensures { (host token inputs : List ℕ) (job : JobId) (run : RunJobHttpRequest)
        (verdict : ℕ → List ℕ → Result ⊤ TokenError)
        → CanGo host token (run_with host token job run inputs) → job.0 < 2 ^ 64
        → SpellsRun run (run_text run)
        → length (run_text run) < 2 ^ 32 → verdict job.0 token ≡ Ok tt
        → AsksRun verdict (request_text (run_with host token job run inputs)) job run inputs }
{}

/// A request for a job may wait for a peer, and so may one that brings a toolchain or runs a job: what is
/// quick asks for none of these.
pub fn waiting_kinds()
    ensures allocations { (lets : List ℕ → Admission) (r : Request) (tc : List ℕ)
        → IsAllocation r lets tc → kind_of role.Scheduler r.method r.target ≡ Waits }
    ensures submissions { (verdict : ℕ → List ℕ → Result ⊤ TokenError) (r : Request) (job : JobId)
        → IsSubmission r verdict job → kind_of role.Server r.method r.target ≡ Waits }
    ensures runs { (verdict : ℕ → List ℕ → Result ⊤ TokenError) (r : Request) (job : JobId)
        (run : RunJobHttpRequest) (at : ℕ)
        → IsRun r verdict job run at → kind_of role.Server r.method r.target ≡ Waits }
{}

/// What the head settles the body does not change: a request that a server refuses so is refused alike with any
/// other body, and one to the scheduler asks the same, whatever a check of clients that refuses these tokens at any
/// moment may say of its token.
pub fn heads_settle()
    ensures servers { (verdict : ℕ → List ℕ → Result ⊤ TokenError) (r : Request)
        → server_settled verdict r ≡ true → IsSettledFor verdict r }
    ensures schedulers { (rules : Rules) (refuses : List ℕ → Bool) (serves : List ℕ → Option Addr)
        (r : Request) (peer : Addr)
        → scheduler_settled rules refuses serves r peer ≡ true → IsSettledAt rules refuses serves r peer }
{}
