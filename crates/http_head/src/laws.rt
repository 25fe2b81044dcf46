//! Laws over all bytes: each is a function with no body, whose contract is the law.
ghost use Rattle.std.specs.Prelude.{◌≡◌, ◌++◌, ◌<◌, ℕ, List, Option, length};
ghost use Rattle.http_head.specs.declared.reply.Reply.{Reply};
ghost use Rattle.http_head.specs.declared.request.Request.{Request};
ghost use Rattle.http_head.specs.declared.written_request.WrittenRequest.{WrittenRequest};
ghost use Rattle.http_head.specs.Cut.{IsCut, Begins, IsShortest};
ghost use Rattle.http_head.specs.Head.{IsRequest, IsReply, HasStatus};
ghost use Rattle.http_head.specs.Stop.{stop_of};
ghost use Rattle.http_head.specs.WrittenRequest.{request_text, IsSendable, Carries};

/// Bytes are one request at most.
pub fn one_request()
    ensures { (bytes : List ℕ) (r q : Request) → IsRequest bytes r → IsRequest bytes q → r ≡ q }
{}

/// Bytes are one reply at most.
pub fn one_reply()
    ensures { (bytes : List ℕ) (r q : Reply) → IsReply bytes r → IsReply bytes q → r ≡ q }
{}

/// The head of a reply has one status.
#[tactic(auto, using(crate::proofs::ReplyLemmas::one_status))]
pub fn one_status()
    ensures { (bytes : List ℕ) (a b : Option ℕ) → HasStatus bytes a → HasStatus bytes b → a ≡ b }
{}

/// What is written is what is read: the text of a sendable request is a request, with exactly the method, the
/// target, the token, the content type and the body that were written, and nothing that a route looks for
/// beside them.
pub fn requests_read_back()
    ensures { (w : WrittenRequest) → IsSendable w
        → (r : Request) × IsRequest (request_text w) r × Carries w r }
{}

/// The stop is the shortest front that is one, or all of the bytes.
pub fn shortest_stop()
    ensures { (bytes : List ℕ) → IsShortest bytes (stop_of bytes) }
{}

/// Bytes have one cut.
pub fn one_cut()
    ensures { (bytes a b : List ℕ) → IsCut bytes a → IsCut bytes b → a ≡ b }
{}

/// The cut begins the bytes.
#[tactic(auto, using(crate::proofs::CutLemmas::cut_begins))]
pub fn cut_begins()
    ensures { (bytes cut : List ℕ) → IsCut bytes cut → Begins cut bytes }
{}

/// Where the cut is not all of the bytes, other bytes behind it change nothing.
#[tactic(auto, using(crate::proofs::CutLemmas::cut_stays))]
pub fn cut_stays()
    ensures { (cut rest other : List ℕ) → 0 < length rest
        → IsCut (cut ++ rest) cut → IsCut (cut ++ other) cut }
{}
