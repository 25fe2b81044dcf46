//! What holds of connections of schedulers. Each law is the contract of a function that does nothing.
ghost use Rattle.std.specs.Prelude.{◌≡◌, ◌≢◌, ◌⊎◌, List, ℕ, drop, length, Option, Some, Ok, Err, slice_get};
ghost use Rattle.dist_types.specs.declared.addr.Addr.{Addr};
ghost use Rattle.http_connections.specs.Served.{Shown, IsServedBy};
ghost use Rattle.dist_types.specs.Cause.{Rose};
ghost use Rattle.dist_types.specs.declared.dialer.Asked.{Asked};
ghost use Rattle.dist_types.specs.declared.dialer.AskFault.TheVariants.{Failed};
ghost use Rattle.http_connections.specs.declared.served.Served.{Served};
ghost use Rattle.http_connections.specs.declared.served.Served.TheVariants.{Memory};
ghost use Rattle.http_head.specs.declared.request.Request.{Request as Taken};
ghost use Rattle.http_routes.specs.declared.reply.Response.{Response as Reply};
ghost use Rattle.scheduler_service.specs.Connection.{Around, IsReplied};
ghost use Rattle.scheduler_service.specs.OneAnswer.{MeetAlike, DoAlike, EndAlike};
ghost use Rattle.scheduler_service.specs.OneAnswer.{IsGivenUp, HasOneAnswer, HearsAlike, SaysOne};
ghost use Rattle.scheduler_service.specs.Checks.{may_answer, shown};
ghost use Rattle.scheduler_service.specs.declared.checks.ClientCheck.{ClientCheck as Chosen};

use dist_token::checks::ClientAuthCheck;
use dist_types::dialer::Dialer;

/// One request that is replied to twice, at one peer, where both meet the same, has one reply, makes the same
/// entries, asks the same of the dialer, and leaves the same clock, and the same check where that becomes one.
pub fn one_reply<K: ClientAuthCheck>()
    ensures { (serves : List ℕ → Option Addr) (peer : Addr) (request : Option Taken) (r s : Reply)
        (old new before after : Around K)
        → IsReplied K.may_answer K.shown serves peer request old new (Ok r)
        → IsReplied K.may_answer K.shown serves peer request before after (Ok s)
        → MeetAlike K.may_answer K.shown old new before after
        → (r ≡ s) × DoAlike K.may_answer old new before after }
{}

/// A connection that was served has one answer: two that are answered, over links that hold the same bytes,
/// however these come, for one peer, and that meet the same, have one request and one reply, make the same
/// entries, ask the same, and leave the same bytes, clock and check.
pub fn one_answer<K: ClientAuthCheck>()
    ensures { (serves : List ℕ → Option Addr) (peer : Addr) (begun done : Shown) (old new : Around K)
        (served : Served)
        → IsServedBy (IsReplied K.may_answer K.shown serves peer) begun done old new served
        → HasOneAnswer K.may_answer K.shown serves peer begun done old new served }
{}

/// A check of clients that a configuration chose says one thing to both, as `one_answer` takes it: one that forwards,
/// where its dialer tells its record and the same was answered to what it asked.
pub fn chosen_checks_say_one<D: Dialer + Send>()
    ensures { (old new after : Chosen D) → HearsAlike D.asked D.faults old new after
        → SaysOne (may_answer D.asked D.faults) shown old new after }
{}

/// A limit on a link changes no answer. Two connections over links that hold the same bytes, however these come, for
/// one peer, and that meet the same: they have one answer, unless one of the links was given up, of which then a
/// count rose, or memory ran out.
pub fn limits_change_no_answer<K: ClientAuthCheck>()
    ensures { (serves : List ℕ → Option Addr) (peer : Addr) (bytes : List ℕ)
        (begun done begun_too done_too : Shown) (old new before after : Around K) (served served_too : Served)
        → begun.left ≡ Some bytes → begun_too.left ≡ Some bytes
        → IsServedBy (IsReplied K.may_answer K.shown serves peer) begun done old new served
        → IsServedBy (IsReplied K.may_answer K.shown serves peer) begun_too done_too before after served_too
        → served ≢ Memory → served_too ≢ Memory → MeetAlike K.may_answer K.shown old new before after
        → IsGivenUp begun done ⊎ (IsGivenUp begun_too done_too
        ⊎ EndAlike K.may_answer K.shown serves peer begun done begun_too done_too old new before after) }
{}

/// A call of the dialer that was given up, its limit among the reasons, is one of which the dialer's count rose,
/// whatever is replied.
pub fn lost_calls_are_counted<K: ClientAuthCheck>()
    ensures { (serves : List ℕ → Option Addr) (peer : Addr) (request : Option Taken) (reply : Reply)
        (old new : Around K) (first last : List Asked) (row : Asked) (place : ℕ)
        → IsReplied K.may_answer K.shown serves peer request old new (Ok reply)
        → old.means.asked ≡ Some first → new.means.asked ≡ Some last
        → slice_get (drop (length first) last) place ≡ Some row → row.answer ≡ Err Failed
        → Rose old.means.faults new.means.faults }
{}
