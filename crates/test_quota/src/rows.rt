//! Inputs, and what they print: the worked rows, small ones that were written by hand, and faulty ones.
use crate::ran::{NOTHING, called};
use std::alloc::Global;
use std::test::Fail;

/// An input, and its output.
const ROWS: &[(&str, &str)] = &[
    // a client that is full, and another one
    (
        "ids 0\n\
        client a limit 1\n\
        client b limit 1\n\
        0 beat 127.0.0.1:10501 nonce 7 cpus 1\n\
        0 alloc a\n\
        0 alloc a\n\
        0 alloc b\n",
        "core 0 beat 127.0.0.1:10501 nonce 7 cpus 1 pruned - reaped - replaced - new\n\
        core 1 reserve job 0 reg 0 forgiven -\n\
        full 1 1\n\
        core 2 reserve job 1 reg 0 forgiven -\n",
    ),
    // an undo makes room, and a client that is not listed
    (
        "ids 0\n\
        client a limit 1\n\
        client b limit 1\n\
        0 beat 127.0.0.1:10501 nonce 7 cpus 1\n\
        0 alloc a\n\
        0 alloc a\n\
        0 alloc b\n\
        0 undo 0\n\
        0 alloc a\n\
        0 alloc c\n",
        "core 0 beat 127.0.0.1:10501 nonce 7 cpus 1 pruned - reaped - replaced - new\n\
        core 1 reserve job 0 reg 0 forgiven -\n\
        full 1 1\n\
        core 2 reserve job 1 reg 0 forgiven -\n\
        core 3 undo job 0 noted 0 ended yes\n\
        core 4 reserve job 2 reg 0 forgiven -\n\
        no client\n",
    ),
    // a limit of 0, and a client that never asks
    (
        "ids 5\n\
        client a limit 0\n\
        client b limit 9\n\
        0 alloc a\n",
        "full 0 0\n",
    ),
    // a spent reservation is none, nor is one of a job that was never given; nor are too many processors, or none
    (
        "ids 0\n\
        client a limit 1\n\
        client b limit 1\n\
        0 beat 127.0.0.1:10501 nonce 7 cpus 1\n\
        0 alloc a\n\
        0 commit 0 ready\n\
        0 commit 0 ready\n\
        0 undo 0\n\
        0 undo 9\n\
        0 beat 127.0.0.1:1 nonce 1 cpus 0\n\
        0 beat 127.0.0.1:1 nonce 1 cpus 4294967296\n\
        0 alloc a\n",
        "core 0 beat 127.0.0.1:10501 nonce 7 cpus 1 pruned - reaped - replaced - new\n\
        core 1 reserve job 0 reg 0 forgiven -\n\
        core 2 commit job 0 state ready kept\n\
        no reservation\n\
        no reservation\n\
        no reservation\n\
        bad cpus\n\
        bad cpus\n\
        full 1 1\n",
    ),
    // Complete ends what a client holds; a job that is reserved to the end is given back in no line
    (
        "ids 0\n\
        client a limit 1\n\
        client b limit 1\n\
        0 beat 127.0.0.1:10501 nonce 7 cpus 1\n\
        0 alloc a\n\
        0 commit 0 ready\n\
        0 update 127.0.0.1:10501 0 started\n\
        0 alloc a\n\
        0 update 127.0.0.1:10501 0 complete\n\
        0 alloc a\n",
        "core 0 beat 127.0.0.1:10501 nonce 7 cpus 1 pruned - reaped - replaced - new\n\
        core 1 reserve job 0 reg 0 forgiven -\n\
        core 2 commit job 0 state ready kept\n\
        core 3 update 127.0.0.1:10501 job 0 state started accepted\n\
        full 1 1\n\
        core 4 update 127.0.0.1:10501 job 0 state complete accepted\n\
        core 5 reserve job 1 reg 0 forgiven -\n",
    ),
    // a script without events
    ("ids 0\n", ""),
];

/// Words, an input with a fault, its status, and the fault that is told.
const FAULTY: &[(&str, &str, u8, &str)] = &[
    (
        "sccache_quota|word",
        "ids 0\n",
        2,
        "these words name no command",
    ),
    (
        "sccache_quota|",
        "ids 0\n",
        2,
        "these words name no command",
    ),
    ("sccache_quota", "", 1, "bad line 1"),
    (
        "sccache_quota",
        "# none\n\
        \n",
        1,
        "bad line 3",
    ),
    ("sccache_quota", "0 status\n", 1, "bad line 1"),
    (
        "sccache_quota",
        "ids 0\n\
        ids 0\n",
        1,
        "bad line 2",
    ),
    (
        "sccache_quota",
        "ids 0\n\
        client a limit 1\n\
        client b limit 1\n\
        client a limit 2\n",
        1,
        "bad line 4",
    ),
    (
        "sccache_quota",
        "ids 0\n\
        0 status\n\
        client a limit 1\n",
        1,
        "bad line 3",
    ),
    (
        "sccache_quota",
        "ids 0\n\
        0 commit 0 started\n",
        1,
        "bad line 2",
    ),
    (
        "sccache_quota",
        "ids 0\n\
        0 commit 0 complete\n",
        1,
        "bad line 2",
    ),
    (
        "sccache_quota",
        "ids 18446744073709551616\n",
        1,
        "bad line 1",
    ),
    (
        "sccache_quota",
        "ids 0\n\
        0 status\n\
        0 beat [::1%4]:1 nonce 1 cpus 1\n\
        0 none\n",
        1,
        "scoped address on line 3",
    ),
    (
        "sccache_quota",
        "ids 0\n\
        0 update [::1%4]:1 0 ready\n",
        1,
        "scoped address on line 2",
    ),
];

fn prints(alloc: Global, row: &(&str, &str)) -> Result<bool, Fail> {
    let ran = called(alloc, "sccache_quota", row.0, NOTHING)?;
    Ok(ran.status == 0 && ran.out.as_slice() == row.1.as_bytes() && ran.errs.is_empty())
}

fn is_refused(alloc: Global, row: &(&str, &str, u8, &str)) -> Result<bool, Fail> {
    let ran = called(alloc, row.0, row.1, NOTHING)?;
    let told = format!(in alloc; "sccache_quota: {}\n", row.3)?;
    Ok(ran.status == row.2 && ran.out.is_empty() && ran.errs.as_slice() == told.as_bytes())
}

#[test]
fn prints_each_answer(rt: HostRuntime) -> Result<(), Fail> {
    for (place, row) in ROWS.iter().enumerate() {
        assert!(rt; prints(rt.alloc(), row)?, "row {place}");
    }
    Ok(())
}

#[test]
fn names_the_first_faulty_line(rt: HostRuntime) -> Result<(), Fail> {
    for (place, row) in FAULTY.iter().enumerate() {
        assert!(rt; is_refused(rt.alloc(), row)?, "row {place}");
    }
    Ok(())
}
