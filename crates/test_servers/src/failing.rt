//! The generated orders of calls over folders of which each call fails in turn, before it does anything or
//! behind that.
use crate::orders::{
    CAPACITY, Numbers, ORDERS, STEPS, Step, are_at, assert_ended, assert_kept, assign, run, submit,
};
use crate::outside::{cache_of, toolchain};
use crate::plain::{Ended, Plain};
use build_server::run::Ran;
use build_server::state::ServerState;
use build_server::submit::Submitted;
use folders::fault::FolderFault;
use folders::folder::Folder;
use folders::mem_folder::MemFolder;
use std::alloc::Global;
use std::process::Abort;

/// More calls than an order makes of its folder.
const MANY: u64 = 1000;

/// A folder's fault leaves a front of what the store would drop out of the list.
fn assert_failed(rt: &impl Abort, plain: &mut Plain, outcome: &Submitted, want: &Ended) {
    match (outcome, want) {
        (Submitted::Folder(dropped), Ended::Stored(gone)) => {
            let front = gone.get(..dropped.get().len()).expect(rt, "a front");
            assert!(rt; are_at(rt, dropped.get(), front));
            plain.forget(front);
        }
        _ => assert!(rt; false, "a fault where no store was due"),
    }
}

/// A submission on both. Whether the folder failed in it.
fn submit_both(
    rt: &impl Abort,
    state: &mut ServerState<MemFolder>,
    plain: &mut Plain,
    job: u64,
    given: usize,
) -> bool {
    let want = plain.submit(rt, job, given);
    let outcome = submit(rt, state, job, given);
    if let Submitted::Folder(_) = outcome {
        assert_failed(rt, plain, &outcome, &want);
        return true;
    }
    assert_ended(rt, plain, given, &outcome, &want);
    false
}

/// A run on both. Whether the folder failed in it.
fn run_both(
    rt: &impl Abort,
    alloc: Global,
    state: &mut ServerState<MemFolder>,
    plain: &mut Plain,
    job: u64,
) -> bool {
    let ran = run(rt, alloc, state, job);
    let Some(place) = plain.take(job) else {
        assert_eq!(rt; ran, Ran::None);
        return false;
    };
    if !plain.lists(place) {
        assert_eq!(rt; ran, Ran::Unlisted(toolchain(rt, place)));
        return false;
    }
    plain.touch(rt, place);
    if ran == Ran::Folder(toolchain(rt, place)) {
        return true;
    }
    assert_eq!(rt; ran, Ran::Built(toolchain(rt, place)));
    false
}

/// One call on both. Whether the folder failed in it.
fn take(
    rt: &impl Abort,
    alloc: Global,
    state: &mut ServerState<MemFolder>,
    plain: &mut Plain,
    step: Step,
) -> bool {
    match step {
        Step::Assign(job, place) => {
            assign(rt, state, plain, job, place);
            false
        }
        Step::Submit(job, given) => submit_both(rt, state, plain, job, given),
        Step::Run(job) => run_both(rt, alloc, state, plain, job),
    }
}

/// An order over a folder of which one call fails: how often a call of the state told so, and the folder;
/// None where the opening failed.
fn over(
    rt: &impl Abort,
    alloc: Global,
    seed: u64,
    call: u64,
    behind: bool,
) -> Option<(u64, MemFolder)> {
    let one = Vec::from_slice(alloc, &[call]).expect(rt, "memory");
    let (before, after) = if behind {
        (Vec::new(alloc), one)
    } else {
        (one, Vec::new(alloc))
    };
    let cache = cache_of(alloc, CAPACITY, before, after)?;
    let mut state = ServerState::new(alloc, cache);
    let mut plain = Plain::new(alloc, CAPACITY);
    let mut numbers = Numbers::new(seed);
    let mut failed: u64 = 0;
    for _ in 0..STEPS {
        let fails = take(rt, alloc, &mut state, &mut plain, numbers.step());
        failed = failed.saturating_add(u64::from(fails));
        assert_kept(rt, &state, &plain);
    }
    Some((failed, state.into_cache().into_folder()))
}

/// How many calls of the folder an order makes: the call of the number `MANY` fails, which is sought behind
/// them.
fn calls_of(rt: &impl Abort, alloc: Global, seed: u64) -> u64 {
    let (failed, mut folder) = over(rt, alloc, seed, MANY, false).expect(rt, "a cache");
    assert_eq!(rt; failed, 0);
    for more in 0..MANY {
        if folder.size("none") == Err(FolderFault::Failed) {
            return MANY.saturating_sub(more);
        }
    }
    0
}

/// An order over folders of which each call fails in turn. How often a call of the state told so.
fn fail_each(rt: &impl Abort, alloc: Global, seed: u64) -> u64 {
    let calls = calls_of(rt, alloc, seed);
    assert!(rt; calls > 0, "the order {seed} makes no call of its folder");
    let mut told: u64 = 0;
    for call in 0..calls {
        for behind in [false, true] {
            if let Some((failed, _)) = over(rt, alloc, seed, call, behind) {
                assert_eq!(rt;
                    failed,
                    1,
                    "the fault of the call {call} of the order {seed}"
                );
                told = told.saturating_add(failed);
            }
        }
    }
    told
}

#[test]
fn each_call_of_the_folder_fails_once_in_each_order(rt: HostRuntime) {
    let alloc = rt.alloc();
    let mut told: u64 = 0;
    for seed in 0..ORDERS {
        told = told.saturating_add(fail_each(&rt, alloc, seed));
    }
    assert!(rt; told >= ORDERS, "only {told} faults are told");
}
