//! The state's own calls, each once.
use core_rules::answers::{Committed, Undone};
use core_rules::entry::CoreKind;
use core_rules::error::SchedError;
use dist_token::job_token::JWTJobAuthorizer;
use dist_types::addr::Addr;
use dist_types::ids::{JobId, ServerId, ServerNonce};
use dist_types::results::JobState;
use dist_types::roles::JobAuthorizer;
use dist_types::token_error::TokenError;
use sched_core::answers::Picked;
use sched_core::reservation::Reservation;
use sched_core::state::SchedState;
use std::alloc::Global;
use std::process::Abort;
use std::test::Fail;

type State = SchedState<JWTJobAuthorizer>;

/// The authorizer of the key 010202.
fn key(rt: &impl Abort, alloc: Global) -> JWTJobAuthorizer {
    JWTJobAuthorizer::of_key([1u8, 2, 2].to_vec(alloc).expect(rt, "memory"))
}

/// What a heartbeat's entry says of its registration: whether it is new, and which one it replaces.
fn beat_of(kind: &CoreKind) -> Option<(bool, Option<u64>)> {
    match kind {
        CoreKind::Beat {
            is_new,
            replaced,
            ..
        } => Some((*is_new, *replaced)),
        _ => None,
    }
}

/// The registrations that an entry prunes.
fn pruned_of(kind: &CoreKind) -> &[u64] {
    match kind {
        CoreKind::Beat { pruned, .. } => pruned.get(),
        CoreKind::Status { pruned, .. } => pruned.get(),
        _ => &[],
    }
}

/// The one server.
fn server() -> ServerId {
    ServerId::new(Addr::V4([127, 0, 0, 1], 10501))
}

/// A heartbeat of the server. Whether it makes a registration.
fn beat(rt: &impl Abort, alloc: Global, state: &mut State, now: u64, sent: (u64, u64)) -> bool {
    let (nonce, cpus) = sent;
    let answer = state.beat(now, server(), ServerNonce::new(nonce), cpus, key(rt, alloc));
    answer.expect(rt, "a heartbeat").is_new
}

/// The servers, the processors and the jobs that a status counts.
fn status(rt: &impl Abort, state: &mut State, now: u64) -> (u64, u64, u64) {
    let answer = state.status(now).expect(rt, "a status");
    (answer.num_servers, answer.num_cpus, answer.in_progress)
}

/// A heartbeat makes a registration, a second renews it, one with another nonce replaces it; a status
/// counts it, until it is silent for too long.
fn register(rt: &impl Abort, alloc: Global, state: &mut State) {
    assert!(rt; beat(rt, alloc, state, 0, (7, 8)));
    assert_eq!(rt; status(rt, state, 5), (1, 8, 0));
    assert!(rt; !beat(rt, alloc, state, 90000, (7, 2)));
    assert!(rt; beat(rt, alloc, state, 90001, (8, 4)));
    let standing = state
        .servers()
        .next()
        .map(|row| (row.reg, row.cpus, row.seen, row.load));
    assert_eq!(rt; standing, Some((3, 4, 90001, 0)));
    let refused = state.beat(
        90002,
        server(),
        ServerNonce::new(8),
        4294967296,
        key(rt, alloc),
    );
    assert!(rt; matches!(refused, Err(SchedError::BadCpus(4294967296))));
    assert_eq!(rt; status(rt, state, 180002), (0, 0, 0));
}

#[test]
fn heartbeats_and_statuses(rt: HostRuntime) -> Result<(), Fail> {
    let alloc = rt.alloc();
    let mut state = SchedState::new(alloc, 4096);
    register(&rt, alloc, &mut state);
    assert_eq!(&rt;
        (state.base(), state.count(), state.history().len()),
        (4096, 0, 5)
    );
    let beats = [
        Some((true, None)),
        None,
        Some((false, None)),
        Some((true, Some(0))),
        None,
    ];
    for (entry, beat) in state.history().iter().zip(&beats) {
        assert_eq!(&rt; beat_of(&entry.kind), *beat);
    }
    let pruned: [&[u64]; 5] = [&[], &[], &[], &[], &[3]];
    for (entry, numbers) in state.history().iter().zip(&pruned) {
        assert_eq!(&rt; pruned_of(&entry.kind), *numbers);
    }
    Ok(())
}

/// A state whose one registration has eight processors and the key 010202.
fn with_server(rt: &impl Abort, alloc: Global, base: u64) -> State {
    let mut state = SchedState::new(alloc, base);
    assert!(rt; beat(rt, alloc, &mut state, 0, (7, 8)));
    state
}

/// A reservation, where there is room.
fn reserve(rt: &impl Abort, state: &mut State, now: u64) -> Reservation {
    match state.reserve(now) {
        Ok(Picked::Reserved(r)) => r,
        Ok(Picked::NoRoom(_)) => panic!(rt; "no room"),
        Err(_) => panic!(rt; "refused"),
    }
}

/// The token of the next reservation, which is then given back.
fn token(rt: &impl Abort, alloc: Global, state: &mut State) -> String {
    let r = reserve(rt, state, 1);
    let token = String::from_str(alloc, r.auth()).expect(rt, "memory");
    state.undo(1, r);
    token
}

const HEADER: &str = "eyJ0eXAiOiJKV1QiLCJhbGciOiJIUzI1NiJ9.";

/// A job's token is the one for its id under the key of its registration's own heartbeat: refused for
/// another id and under another key, and the same when it is made again.
fn compare_token(rt: &impl Abort, alloc: Global, token: &str) {
    assert!(rt; token.starts_with(HEADER));
    assert!(rt; token.contains(".eyJleHAiOjAsImpvYl9pZCI6NTV9."));
    let own = key(rt, alloc);
    let again = own.generate_token(JobId(55)).expect(rt, "memory");
    assert_eq!(rt; again.as_str(), token);
    assert!(rt; own.verify_token(JobId(55), token).is_ok());
    let other_job = own.verify_token(JobId(56), token);
    assert!(rt; matches!(other_job, Err(TokenError::MismatchedClaims)));
}

/// The authorizer of the key 010203.
fn other_key(rt: &impl Abort, alloc: Global) -> JWTJobAuthorizer {
    JWTJobAuthorizer::of_key([1u8, 2, 3].to_vec(alloc).expect(rt, "memory"))
}

#[test]
fn job_tokens(rt: HostRuntime) -> Result<(), Fail> {
    let alloc = rt.alloc();
    let mut state = with_server(&rt, alloc, 55);
    let first = token(&rt, alloc, &mut state);
    compare_token(&rt, alloc, first.as_str());
    let other = other_key(&rt, alloc);
    let refused = other.verify_token(JobId(55), first.as_str());
    assert!(&rt; matches!(refused, Err(TokenError::BadMac)));
    // A heartbeat that renews a registration changes no key.
    let renewed = state.beat(2, server(), ServerNonce::new(7), 8, other);
    assert!(&rt; !renewed.expect(&rt, "a heartbeat").is_new);
    let second = token(&rt, alloc, &mut state);
    assert!(&rt; second.contains(".eyJleHAiOjAsImpvYl9pZCI6NTZ9."));
    let own = key(&rt, alloc);
    assert!(&rt; own.verify_token(JobId(56), second.as_str()).is_ok());
    Ok(())
}

/// A reservation of another state is foreign, and changes nothing, where this state has no unspent one of
/// its number and job; where it has one, that one is spent.
fn spend_foreign(rt: &impl Abort, one: &mut State, other: &mut State) {
    let mine = reserve(rt, one, 1);
    let answer = other.commit(2, mine, JobState::Pending);
    assert!(rt; matches!(answer, Committed::Foreign(JobId(4096))));
    assert_eq!(rt; other.history().len(), 1);
    let mine = reserve(rt, one, 3);
    let theirs = reserve(rt, other, 3);
    let numbers = (mine.number(), theirs.number());
    let answers = (other.undo(4, mine), other.undo(5, theirs));
    assert_eq!(rt; numbers, (2, 1));
    assert!(rt; answers == (Undone::Foreign, Undone::Unassigned));
    assert_eq!(rt; other.history().len(), 3);
}

#[test]
fn foreign_reservations(rt: HostRuntime) -> Result<(), Fail> {
    let alloc = rt.alloc();
    let mut one = with_server(&rt, alloc, 4096);
    let mut other = with_server(&rt, alloc, 4096);
    spend_foreign(&rt, &mut one, &mut other);
    Ok(())
}

/// Where a reservation of another state has the number and the job of an unspent one, it spends that one.
fn spend_twins(rt: &impl Abort, one: &mut State, other: &mut State) {
    let mine = reserve(rt, one, 1);
    let theirs = reserve(rt, other, 1);
    let kept = matches!(other.commit(2, mine, JobState::Ready), Committed::Kept(_));
    let answer = other.undo(3, theirs);
    assert!(rt; kept);
    assert!(rt; answer == Undone::Foreign);
    assert_eq!(rt; status(rt, other, 4), (1, 8, 1));
}

#[test]
fn twins(rt: HostRuntime) -> Result<(), Fail> {
    let alloc = rt.alloc();
    let mut one = with_server(&rt, alloc, 4096);
    let mut other = with_server(&rt, alloc, 4096);
    spend_twins(&rt, &mut one, &mut other);
    Ok(())
}
