//! Histories of version 2: calls, what each call's entry says, and the books behind them, as the model in
//! `vectors/core.py` has them. The file is written by `vectors/core_table.py`.
use crate::rows::{Ask, History, Said, compare};
use dist_types::results::JobState;
use dist_types::rules::Rules;
use std::test::Fail;

/// A drained server has no room, and has it again; a drain with another nonce names none.
const DRAINED: History = History {
    rules: Rules::Two,
    steps: &[
        (0, Ask::Beat(1, 7, 1), Said::New(&[], None)),
        (1, Ask::Drain(1, 7, true), Said::Named(Some(0))),
        (2, Ask::Reserve, Said::NoRoom(1)),
        (3, Ask::Drain(1, 7, false), Said::Named(Some(0))),
        (4, Ask::Reserve, Said::Job(4096, 0, &[])),
        (5, Ask::Drain(1, 8, true), Said::Named(None)),
        (6, Ask::Status, Said::Counted(&[], [1, 1, 0])),
    ],
    servers: &[(1, [0, 1, 7, 0, 1], None, false)],
    jobs: &[([4096, 4, 0, 4], None, false)],
};

#[test]
fn drained(rt: HostRuntime) -> Result<(), Fail> {
    compare(&rt, rt.alloc(), &DRAINED);
    Ok(())
}

/// A draining server has the least load.
const LEAST_LOAD: History = History {
    rules: Rules::Two,
    steps: &[
        (0, Ask::Beat(1, 7, 8), Said::New(&[], None)),
        (0, Ask::Beat(2, 7, 1), Said::New(&[], None)),
        (1, Ask::Drain(1, 7, true), Said::Named(Some(0))),
        (2, Ask::Reserve, Said::Job(4096, 1, &[])),
        (3, Ask::Reserve, Said::Job(4097, 1, &[])),
        (4, Ask::Reserve, Said::NoRoom(2)),
        (5, Ask::Drain(1, 7, false), Said::Named(Some(0))),
        (6, Ask::Reserve, Said::Job(4098, 0, &[])),
    ],
    servers: &[
        (1, [0, 8, 7, 0, 1], None, false),
        (2, [1, 1, 7, 0, 2], None, false),
    ],
    jobs: &[
        ([4096, 3, 1, 2], None, false),
        ([4097, 4, 1, 3], None, false),
        ([4098, 7, 0, 6], None, false),
    ],
};

#[test]
fn least_load(rt: HostRuntime) -> Result<(), Fail> {
    compare(&rt, rt.alloc(), &LEAST_LOAD);
    Ok(())
}

/// The jobs of a draining server go on.
const JOBS_GO_ON: History = History {
    rules: Rules::Two,
    steps: &[
        (0, Ask::Beat(1, 7, 4), Said::New(&[], None)),
        (0, Ask::Reserve, Said::Job(4096, 0, &[])),
        (0, Ask::Reserve, Said::Job(4097, 0, &[])),
        (0, Ask::Reserve, Said::Job(4098, 0, &[])),
        (1, Ask::Commit(4096, JobState::Pending), Said::Kept(true)),
        (2, Ask::Drain(1, 7, true), Said::Named(Some(0))),
        (3, Ask::Commit(4097, JobState::Ready), Said::Kept(true)),
        (4, Ask::Undo(4098), Said::Undone(Some(0), true)),
        (5, Ask::Update(1, 4096, JobState::Ready), Said::Accepted),
        (6, Ask::Update(1, 4096, JobState::Started), Said::Accepted),
        (7, Ask::Update(1, 4096, JobState::Complete), Said::Accepted),
        (
            8,
            Ask::Update(1, 4097, JobState::Complete),
            Said::Transition(JobState::Ready),
        ),
        (60002, Ask::Beat(1, 7, 4), Said::Old(&[], &[])),
        (60003, Ask::Beat(1, 7, 4), Said::Old(&[], &[4097])),
    ],
    servers: &[(1, [0, 4, 7, 60003, 0], Some(4), true)],
    jobs: &[],
};

#[test]
fn jobs_go_on(rt: HostRuntime) -> Result<(), Fail> {
    compare(&rt, rt.alloc(), &JOBS_GO_ON);
    Ok(())
}

/// A drain is no sign of its server.
const NO_SIGN: History = History {
    rules: Rules::Two,
    steps: &[
        (0, Ask::Beat(1, 7, 1), Said::New(&[], None)),
        (0, Ask::Beat(2, 7, 1), Said::New(&[], None)),
        (90000, Ask::Drain(1, 7, true), Said::Named(Some(0))),
        (90000, Ask::Beat(2, 7, 1), Said::Old(&[], &[])),
        (90001, Ask::Drain(1, 7, true), Said::Named(Some(0))),
        (90001, Ask::Status, Said::Counted(&[0], [1, 1, 0])),
        (90002, Ask::Drain(1, 7, true), Said::Named(None)),
    ],
    servers: &[(2, [1, 1, 7, 90000, 0], None, false)],
    jobs: &[],
};

#[test]
fn no_sign(rt: HostRuntime) -> Result<(), Fail> {
    compare(&rt, rt.alloc(), &NO_SIGN);
    Ok(())
}

/// A heartbeat that says old ends no draining.
const OLD_HEARTBEAT: History = History {
    rules: Rules::Two,
    steps: &[
        (0, Ask::Beat(1, 7, 1), Said::New(&[], None)),
        (1, Ask::Drain(1, 7, true), Said::Named(Some(0))),
        (2, Ask::Beat(1, 7, 1), Said::Old(&[], &[])),
        (3, Ask::Reserve, Said::NoRoom(1)),
    ],
    servers: &[(1, [0, 1, 7, 2, 0], None, true)],
    jobs: &[],
};

#[test]
fn old_heartbeat(rt: HostRuntime) -> Result<(), Fail> {
    compare(&rt, rt.alloc(), &OLD_HEARTBEAT);
    Ok(())
}

/// A heartbeat that replaces does.
const REPLACED: History = History {
    rules: Rules::Two,
    steps: &[
        (0, Ask::Beat(1, 7, 1), Said::New(&[], None)),
        (1, Ask::Drain(1, 7, true), Said::Named(Some(0))),
        (2, Ask::Beat(1, 8, 1), Said::New(&[], Some(0))),
        (3, Ask::Reserve, Said::Job(4096, 2, &[])),
        (4, Ask::Drain(1, 7, true), Said::Named(None)),
        (5, Ask::Reserve, Said::Job(4097, 2, &[])),
        (6, Ask::Drain(1, 8, true), Said::Named(Some(2))),
        (7, Ask::Reserve, Said::NoRoom(1)),
    ],
    servers: &[(1, [2, 1, 8, 2, 2], None, true)],
    jobs: &[
        ([4096, 3, 2, 3], None, false),
        ([4097, 5, 2, 5], None, false),
    ],
};

#[test]
fn replaced(rt: HostRuntime) -> Result<(), Fail> {
    compare(&rt, rt.alloc(), &REPLACED);
    Ok(())
}

/// A job is ready for 59,999 milliseconds, and for a minute.
const READY_A_MINUTE: History = History {
    rules: Rules::Two,
    steps: &[
        (0, Ask::Beat(1, 7, 1), Said::New(&[], None)),
        (0, Ask::Reserve, Said::Job(4096, 0, &[])),
        (0, Ask::Commit(4096, JobState::Pending), Said::Kept(true)),
        (50000, Ask::Update(1, 4096, JobState::Ready), Said::Accepted),
        (80000, Ask::Beat(1, 7, 1), Said::Old(&[], &[])),
        (109999, Ask::Beat(1, 7, 1), Said::Old(&[], &[])),
        (110000, Ask::Beat(1, 7, 1), Said::Old(&[], &[4096])),
    ],
    servers: &[(1, [0, 1, 7, 110000, 0], None, false)],
    jobs: &[],
};

#[test]
fn ready_a_minute(rt: HostRuntime) -> Result<(), Fail> {
    compare(&rt, rt.alloc(), &READY_A_MINUTE);
    Ok(())
}

/// It is ready by its commit.
const READY_BY_COMMIT: History = History {
    rules: Rules::Two,
    steps: &[
        (0, Ask::Beat(1, 7, 1), Said::New(&[], None)),
        (0, Ask::Reserve, Said::Job(4096, 0, &[])),
        (30000, Ask::Commit(4096, JobState::Ready), Said::Kept(true)),
        (59999, Ask::Beat(1, 7, 1), Said::Old(&[], &[])),
        (60000, Ask::Beat(1, 7, 1), Said::Old(&[], &[])),
        (89999, Ask::Beat(1, 7, 1), Said::Old(&[], &[])),
        (90000, Ask::Beat(1, 7, 1), Said::Old(&[], &[4096])),
    ],
    servers: &[(1, [0, 1, 7, 90000, 0], None, false)],
    jobs: &[],
};

#[test]
fn ready_by_commit(rt: HostRuntime) -> Result<(), Fail> {
    compare(&rt, rt.alloc(), &READY_BY_COMMIT);
    Ok(())
}

/// Moments go backwards: it is ready for longer than its reservation is old.
const READY_BEFORE: History = History {
    rules: Rules::Two,
    steps: &[
        (100000, Ask::Beat(1, 7, 1), Said::New(&[], None)),
        (100000, Ask::Reserve, Said::Job(4096, 0, &[])),
        (50000, Ask::Commit(4096, JobState::Ready), Said::Kept(true)),
        (109999, Ask::Beat(1, 7, 1), Said::Old(&[], &[])),
        (110000, Ask::Beat(1, 7, 1), Said::Old(&[], &[4096])),
        (160000, Ask::Beat(1, 7, 1), Said::Old(&[], &[])),
    ],
    servers: &[(1, [0, 1, 7, 160000, 0], None, false)],
    jobs: &[],
};

#[test]
fn ready_before(rt: HostRuntime) -> Result<(), Fail> {
    compare(&rt, rt.alloc(), &READY_BEFORE);
    Ok(())
}
