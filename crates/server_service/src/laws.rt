//! What holds of connections of build servers. Each law is the contract of a function that does nothing.
ghost use Rattle.std.specs.Prelude.{◌≡◌, ◌≢◌, ◌⊎◌, List, ℕ, Option, Ok, Err, Some, drop, length, slice_get};
ghost use Rattle.url.specs.Parts.{Parts};
ghost use Rattle.dist_types.specs.Cause.{Rose};
ghost use Rattle.dist_types.specs.declared.dialer.Asked.{Asked};
ghost use Rattle.dist_types.specs.declared.dialer.AskFault.TheVariants.{Failed};
ghost use Rattle.dist_token.specs.Verdict.{job_verdict};
ghost use Rattle.http_connections.specs.Served.{Shown, IsServedBy};
ghost use Rattle.http_connections.specs.declared.served.Served.{Served};
ghost use Rattle.http_connections.specs.declared.served.Served.TheVariants.{Memory};
ghost use Rattle.http_head.specs.declared.request.Request.{Request as Taken};
ghost use Rattle.http_routes.specs.declared.reply.Response.{Response as Reply};
ghost use Rattle.http_routes.specs.declared.server_route.ServerRouted.TheVariants.{Done};
ghost use Rattle.server_service.specs.OneAnswer.{MeetAlike, DoAlike, EndAlike, IsGivenUp, HasOneAnswer};
ghost use Rattle.server_service.specs.Replied.{Means, IsReplied};
ghost use Rattle.server_service.specs.Routed.{routed_of};
ghost use Rattle.server_service.specs.Told.{peer_of};

/// One request that is replied to twice, under one key and for one scheduler, where both meet the same, has
/// one reply, asks the same of the dialer and of the builder, and leaves the same kept, but for the archives
/// where the folder failed.
pub fn one_reply()
    ensures { (key : List ℕ) (scheduler : Parts) (auth : List ℕ) (request : Option Taken) (r s : Reply)
        (old new before after : Means)
        → IsReplied (job_verdict key) (peer_of scheduler auth) request old new (Ok r)
        → IsReplied (job_verdict key) (peer_of scheduler auth) request before after (Ok s)
        → MeetAlike old new before after
        → (r ≡ s) × DoAlike old new before after }
{}

/// A request that its route answers, as it does what is refused, is replied to so, and nothing changes, whatever is
/// kept.
pub fn routes_settle()
    ensures { (key : List ℕ) (scheduler : Parts) (auth : List ℕ) (request : Option Taken) (reply r : Reply)
        (old new : Means)
        → routed_of (job_verdict key) request ≡ Done reply
        → IsReplied (job_verdict key) (peer_of scheduler auth) request old new (Ok r)
        → (r ≡ reply) × (new ≡ old) }
{}

/// A connection that was served has one answer. Two that are answered, over links that hold the same bytes,
/// however these come, under one key and for one scheduler, have one request, and what its route answers is the
/// reply of both; where they meet the same, they have one reply, ask the same of the dialer and of the builder, and
/// keep the same, but for the archives where the folder failed.
pub fn one_answer()
    ensures { (key : List ℕ) (scheduler : Parts) (auth : List ℕ) (begun done : Shown) (old new : Means)
        (served : Served)
        → IsServedBy (IsReplied (job_verdict key) (peer_of scheduler auth)) begun done old new served
        → HasOneAnswer (job_verdict key) (peer_of scheduler auth) begun done old new served }
{}

/// A limit on a link changes no answer. Two connections over links that hold the same bytes, however these come, under
/// one key and for one scheduler, that meet the same: they have one answer, unless one of the links was given up, of
/// which then a count rose, or memory ran out.
pub fn limits_change_no_answer()
    ensures { (key : List ℕ) (scheduler : Parts) (auth bytes : List ℕ)
        (begun done begun_too done_too : Shown) (old new before after : Means) (served served_too : Served)
        → begun.left ≡ Some bytes → begun_too.left ≡ Some bytes
        → IsServedBy (IsReplied (job_verdict key) (peer_of scheduler auth)) begun done old new served
        → IsServedBy (IsReplied (job_verdict key) (peer_of scheduler auth)) begun_too done_too before after
        served_too
        → served ≢ Memory → served_too ≢ Memory → MeetAlike old new before after
        → IsGivenUp begun done ⊎ (IsGivenUp begun_too done_too
        ⊎ EndAlike (IsReplied (job_verdict key) (peer_of scheduler auth)) begun done begun_too done_too
        old new before after) }
{}

/// Each call of the dialer that was given up, its limit among the reasons, is one of which the dialer's count rose,
/// whatever is replied.
pub fn lost_calls_are_counted()
    ensures { (key : List ℕ) (scheduler : Parts) (auth : List ℕ) (request : Option Taken) (reply : Reply)
        (old new : Means) (first last : List Asked) (row : Asked) (place : ℕ)
        → IsReplied (job_verdict key) (peer_of scheduler auth) request old new (Ok reply)
        → old.dialing.asked ≡ Some first → new.dialing.asked ≡ Some last
        → slice_get (drop (length first) last) place ≡ Some row → row.answer ≡ Err Failed
        → Rose old.dialing.faults new.dialing.faults }
{}
