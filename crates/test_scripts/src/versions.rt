//! The line that says the version of the rules, in and out of its place.
use crate::judged::{BAD, READ, Row, SCOPED, judge};
use dist_types::rules::Rules;
use farm_script::script::read_script;
use std::test::Fail;

/// Whole scripts.
const VERSIONS: &[Row] = &[
    (
        READ,
        0,
        "version 2\nscheduler 127.0.0.1:10600 base 4096 count 0 client c1 plain s1",
        "version 2",
    ),
    (
        READ,
        0,
        "# x\n\nversion 2\n\n# y\nscheduler 127.0.0.1:10600 base 4096 count 0 client c1 plain s1",
        "between skipped lines",
    ),
    (
        BAD,
        2,
        "version 2\nversion 2\nscheduler 127.0.0.1:10600 base 4096 count 0 client c1 plain s1",
        "twice",
    ),
    (
        BAD,
        2,
        "scheduler 127.0.0.1:10600 base 4096 count 0 client c1 plain s1\nversion 2",
        "behind the scheduler line",
    ),
    (
        BAD,
        3,
        "version 2\nscheduler 127.0.0.1:10600 base 4096 count 0 client c1 plain s1\nversion 2",
        "again behind the scheduler line",
    ),
    (
        BAD,
        3,
        "scheduler 127.0.0.1:10600 base 4096 count 0 client c1 plain s1\nserver 127.0.0.1:10501 cpus 1 nonce 7 key 010202 capacity 1000\nversion 2",
        "behind a server",
    ),
    (
        BAD,
        2,
        "0 deliver 0\nversion 2\nscheduler 127.0.0.1:10600 base 4096 count 0 client c1 plain s1",
        "behind an event",
    ),
    (
        BAD,
        3,
        "scheduler 127.0.0.1:10600 base 4096 count 0 client c1 plain s1\n0 deliver 0\nversion 2",
        "behind the scheduler line and an event",
    ),
    (
        BAD,
        1,
        "version 1\nscheduler 127.0.0.1:10600 base 4096 count 0 client c1 plain s1",
        "version 1",
    ),
    (
        BAD,
        1,
        "version 3\nscheduler 127.0.0.1:10600 base 4096 count 0 client c1 plain s1",
        "version 3",
    ),
    (
        BAD,
        1,
        "version 02\nscheduler 127.0.0.1:10600 base 4096 count 0 client c1 plain s1",
        "a leading zero",
    ),
    (
        BAD,
        1,
        "version  2\nscheduler 127.0.0.1:10600 base 4096 count 0 client c1 plain s1",
        "two spaces",
    ),
    (
        BAD,
        1,
        "version 2 \nscheduler 127.0.0.1:10600 base 4096 count 0 client c1 plain s1",
        "a trailing space",
    ),
    (
        BAD,
        1,
        "VERSION 2\nscheduler 127.0.0.1:10600 base 4096 count 0 client c1 plain s1",
        "capitals",
    ),
    (
        BAD,
        1,
        "version\nscheduler 127.0.0.1:10600 base 4096 count 0 client c1 plain s1",
        "no number",
    ),
    (BAD, 2, "version 2", "alone: the number after the last line"),
    (
        BAD,
        2,
        "version 2\nserver 127.0.0.1:10501 cpus 1 nonce 7 key 010202 capacity 1000\nscheduler 127.0.0.1:10600 base 4096 count 0 client c1 plain s1",
        "a server before the scheduler",
    ),
    (
        BAD,
        3,
        "version 2\n0 deliver 0\nscheduler 127.0.0.1:10600 base 4096 count 0 client c1 plain s1",
        "an event before the scheduler",
    ),
    (
        SCOPED,
        2,
        "version 2\nscheduler [fe80::1%3]:10600 base 4096 count 0 client c1 plain s1",
        "a scoped scheduler behind it",
    ),
];

#[test]
fn reads_version_two_as_the_first_line_alone(rt: HostRuntime) {
    for row in VERSIONS {
        let (cause, line, script, why) = *row;
        judge(&rt, rt.alloc(), script.as_bytes(), cause, line, why);
    }
}

#[test]
fn keeps_the_version(rt: HostRuntime) -> Result<(), Fail> {
    let one = b"scheduler 127.0.0.1:10600 base 4096 count 0 client c1 plain s1\n";
    let (setup, _) = read_script(rt.alloc(), one)?;
    assert!(rt; setup.rules == Rules::One);
    let two = b"version 2\nscheduler 127.0.0.1:10600 base 4096 count 0 client c1 plain s1\n";
    let (setup, _) = read_script(rt.alloc(), two)?;
    assert!(rt; setup.rules == Rules::Two);
    Ok(())
}
