//! A requester over a dialer that its caller lends it: the caller's clause is over the dialer's record alone,
//! though the calls are made by a function that knows no dialer.
ghost use Rattle.std.specs.Prelude.{◌≡◌, ◌≢◌, IfOk, IfErr, Err, string_bytes};
ghost use Rattle.dist_types.specs.Outgoing.{Peer};
ghost use Rattle.test_types.specs.Told.{CallsTwice, ToldTwice, update_text, answer_in};

use dist_types::dialer::{AskFault, Dialer, MemDialer};
use dist_types::ids::JobId;
use dist_types::outgoing::{CallFault, ServerOutgoing};
use dist_types::results::{JobState, UpdateJobStateResult};
use dist_types::text::Bytes;
use std::alloc::{AllocError, Global};
use std::test::Fail;

/// Tells a scheduler through a dialer, always the same scheduler under the same token.
#[derive(Drop)]
struct Telling<'d, D: Dialer> {
    alloc: Global,
    dialer: &'d mut D,
    host: &'d str,
    port: u16,
    token: &'d str,
}

#[tactic(auto, unfolding(crate::specs::Told::update_text))]
fn update_text(
    alloc: Global,
    token: &str,
    job: JobId,
    state: JobState,
) -> Result<String, AllocError>
    ensures { IfOk result (λ text. string_bytes text ≡ update_text token.now job.0 state) }
{
    format!(in alloc; "{token} {job} {state}")
}

#[tactic(auto, unfolding(crate::specs::Told::answer_in))]
fn answer_in(reply: &[u8]) -> Result<UpdateJobStateResult, CallFault>
    ensures answer { result ≡ answer_in reply.now }
    ensures heard { IfErr result (λ e. e ≡ CallFault.Unreadable) }
{
    if reply == b"ok".as_slice() {
        return Ok(UpdateJobStateResult::Success);
    }
    Err(CallFault::Unreadable)
}

impl<'d, D: Dialer> ServerOutgoing for Telling<'d, D> {
    ghost use Rattle.std.specs.Prelude.{None};
    ghost use Rattle.test_types.specs.Told.{IsTold};

    ghost updated = { λ _. None };

    ghost faults = { λ s. D.faults s.dialer.now };

    ghost lent = { λ s. record {
      name = s.dialer.ghost_name;
      peer = record { host = s.host.now; port = s.port; token = s.token.now };
      asked = D.asked s.dialer.now;
    } };

    ghost says = { IsTold };

    fn do_update_job_state(
        &mut self,
        job_id: JobId,
        state: JobState,
    ) -> Result<UpdateJobStateResult, CallFault> {
        let request = update_text(self.alloc, self.token, job_id, state)?;
        match self.dialer.ask(self.host, self.port, request.as_bytes()) {
            Ok(reply) => answer_in(&reply),
            Err(AskFault::Failed) => Err(CallFault::Lost),
            Err(AskFault::Memory) => Err(CallFault::Memory),
        }
    }
}

// Tells that a job started, and then that it is complete.
fn tell_both<O: ServerOutgoing>(
    requester: &mut O,
    job: JobId,
) -> (
    Result<UpdateJobStateResult, CallFault>,
    Result<UpdateJobStateResult, CallFault>,
)
    ensures { CallsTwice O.says job.0 JobState.Started JobState.Complete result.0 result.1
        (O.lent requester.old) (O.lent requester.new) }
{
    let first = requester.do_update_job_state(job, JobState::Started);
    let second = requester.do_update_job_state(job, JobState::Complete);
    (first, second)
}

// The same over the caller's dialer.
#[tactic(auto, using(crate::proofs::ToldLemmas::told_twice))]
fn tell_through<D: Dialer>(
    alloc: Global,
    dialer: &mut D,
    peer: (&str, u16),
    token: &str,
    job: JobId,
) -> (
    Result<UpdateJobStateResult, CallFault>,
    Result<UpdateJobStateResult, CallFault>,
)
    ensures { result.0 ≢ Err CallFault.Memory → result.1 ≢ Err CallFault.Memory
        → ToldTwice (record { host = peer.entry.0.now; port = peer.entry.1; token = token.now }) job.0
        JobState.Started JobState.Complete result.0 result.1 (D.asked dialer.old) (D.asked dialer.new) }
{
    let mut telling = Telling {
        alloc,
        dialer,
        host: peer.0,
        port: peer.1,
        token,
    };
    tell_both(&mut telling, job)
}

#[test]
fn a_lent_dialer_keeps_the_record(rt: HostRuntime) -> Result<(), Fail> {
    let alloc = rt.alloc();
    let replies = vec![in alloc; Bytes::from_slice(alloc, b"ok")?]?;
    let mut dialer = MemDialer::new(alloc, replies, Vec::new(alloc));
    let (first, second) = tell_through(alloc, &mut dialer, ("scheduler", 10600), "t", JobId(7));
    assert!(rt; first.is_ok());
    assert!(rt; second.err() == Some(CallFault::Lost));
    let rows = dialer.asked();
    assert!(rt; rows.len() == 2);
    assert!(rt; rows[0].request.get() == b"t 7 started".as_slice());
    assert!(rt; rows[1].request.get() == b"t 7 complete".as_slice());
    assert!(rt; (rows[1].host.get(), rows[1].port) == ("scheduler", 10600));
    Ok(())
}
