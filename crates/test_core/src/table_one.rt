//! Histories of version 1: calls, what each call's entry says, and the books behind them, as the model in
//! `vectors/core.py` has them. The file is written by `vectors/core_table.py`.
use crate::rows::{Ask, History, Said, compare};
use dist_types::results::JobState;
use dist_types::rules::Rules;
use std::test::Fail;

/// A job is ready for 59,999 milliseconds, and for a minute.
const READY_A_MINUTE: History = History {
    rules: Rules::One,
    steps: &[
        (0, Ask::Beat(1, 7, 1), Said::New(&[], None)),
        (0, Ask::Reserve, Said::Job(4096, 0, &[])),
        (0, Ask::Commit(4096, JobState::Pending), Said::Kept(true)),
        (50000, Ask::Update(1, 4096, JobState::Ready), Said::Accepted),
        (80000, Ask::Beat(1, 7, 1), Said::Old(&[], &[4096])),
        (109999, Ask::Beat(1, 7, 1), Said::Old(&[], &[])),
        (110000, Ask::Beat(1, 7, 1), Said::Old(&[], &[])),
    ],
    servers: &[(1, [0, 1, 7, 110000, 0], None, false)],
    jobs: &[],
};

#[test]
fn ready_a_minute(rt: HostRuntime) -> Result<(), Fail> {
    compare(&rt, rt.alloc(), &READY_A_MINUTE);
    Ok(())
}

/// It is ready by its commit.
const READY_BY_COMMIT: History = History {
    rules: Rules::One,
    steps: &[
        (0, Ask::Beat(1, 7, 1), Said::New(&[], None)),
        (0, Ask::Reserve, Said::Job(4096, 0, &[])),
        (30000, Ask::Commit(4096, JobState::Ready), Said::Kept(true)),
        (59999, Ask::Beat(1, 7, 1), Said::Old(&[], &[])),
        (60000, Ask::Beat(1, 7, 1), Said::Old(&[], &[4096])),
        (89999, Ask::Beat(1, 7, 1), Said::Old(&[], &[])),
        (90000, Ask::Beat(1, 7, 1), Said::Old(&[], &[])),
    ],
    servers: &[(1, [0, 1, 7, 90000, 0], None, false)],
    jobs: &[],
};

#[test]
fn ready_by_commit(rt: HostRuntime) -> Result<(), Fail> {
    compare(&rt, rt.alloc(), &READY_BY_COMMIT);
    Ok(())
}

/// Moments go backwards: it is ready for longer than its reservation is old.
const READY_BEFORE: History = History {
    rules: Rules::One,
    steps: &[
        (100000, Ask::Beat(1, 7, 1), Said::New(&[], None)),
        (100000, Ask::Reserve, Said::Job(4096, 0, &[])),
        (50000, Ask::Commit(4096, JobState::Ready), Said::Kept(true)),
        (109999, Ask::Beat(1, 7, 1), Said::Old(&[], &[])),
        (110000, Ask::Beat(1, 7, 1), Said::Old(&[], &[])),
        (160000, Ask::Beat(1, 7, 1), Said::Old(&[], &[4096])),
    ],
    servers: &[(1, [0, 1, 7, 160000, 0], None, false)],
    jobs: &[],
};

#[test]
fn ready_before(rt: HostRuntime) -> Result<(), Fail> {
    compare(&rt, rt.alloc(), &READY_BEFORE);
    Ok(())
}
