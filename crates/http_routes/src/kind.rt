//! Of what kind a request is: whether it may wait for a peer before it is answered.
ghost use Rattle.std.specs.Prelude.{◌≡◌};
ghost use Rattle.http_routes.specs.Kind.{begins_so, may_wait, kind_of};

/// Which of the two a listener serves.
#[derive(Clone, Copy, Debug, PartialEq, Eq)]
pub enum Role {
    /// The scheduler.
    Scheduler,
    /// A build server.
    Server,
}

/// Whether a request may wait for a peer before it is answered.
#[derive(Clone, Copy, Debug, PartialEq, Eq)]
pub enum Kind {
    /// It waits for nobody.
    Quick,
    /// It may wait for a peer.
    Waits,
}

/// Whether a request is a POST whose target begins so.
fn begins_so(front: &str, method: &str, target: &str) -> bool
    ensures { result ≡ begins_so front.now method.now target.now }
{
    if method != "POST" {
        return false;
    }
    target.as_bytes().starts_with(front.as_bytes())
}

fn may_wait(role: Role, method: &str, target: &str) -> bool
    ensures { result ≡ may_wait role method.now target.now }
{
    match role {
        Role::Scheduler => begins_so("/api/v1/scheduler/alloc_job", method, target),
        Role::Server => {
            if begins_so("/api/v1/distserver/submit_toolchain/", method, target) {
                return true;
            }
            begins_so("/api/v1/distserver/run_job/", method, target)
        }
    }
}

/// Of what kind a request to that role is, by its method and its target alone. It may wait only where it is a
/// POST for a job at the scheduler, or one that brings a toolchain or runs a job at a build server; so may
/// some that are refused. It takes no memory.
pub fn kind_of(role: Role, method: &str, target: &str) -> Kind
    ensures kind { result ≡ kind_of role method.now target.now }
{
    if may_wait(role, method, target) {
        Kind::Waits
    } else {
        Kind::Quick
    }
}
