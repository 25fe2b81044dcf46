//! Scripts of a scheduler's lives: their lines, the ranges of their ids, and the first faulty line.
use crate::judged::{BAD, DUPLICATE, READ, Row, SCOPED};
use line_program::fault::FarmFault;
use lives_script::script::{Life, read_lives};
use std::alloc::Global;
use std::process::Abort;
use std::test::Fail;

/// The first faulty line begins a life whose range meets an earlier one.
const OVERLAPPING: u8 = 5;

/// Something else.
const OTHER: u8 = 4;

/// A setup of two lines.
const SETUP: &str =
    "scheduler 10.0.0.1:1 base 0 count 0 client c1 plain s1\nserver 10.0.0.2:1 cpus 8 nonce 7 key 01 capacity 0\n";

/// What is told of a script of lives, and the number of the line, or 0.
fn told(alloc: Global, script: &[u8]) -> (u8, u64) {
    match read_lives(alloc, script) {
        Ok(_) => (READ, 0),
        Err(FarmFault::BadLine(n)) => (BAD, n),
        Err(FarmFault::DuplicateAddress(n)) => (DUPLICATE, n),
        Err(FarmFault::ScopedAddress(n)) => (SCOPED, n),
        Err(FarmFault::OverlappingIds(n)) => (OVERLAPPING, n),
        Err(_) => (OTHER, 0),
    }
}

/// That is told of the script.
fn judge(rt: &impl Abort, alloc: Global, script: &[u8], cause: u8, line: u64, why: &str) {
    let (told_cause, told_line) = told(alloc, script);
    assert_eq!(rt; told_cause, cause, "{why}");
    assert_eq!(rt; told_line, line, "{why}");
}

/// The same of the lines behind the setup, whose first is line 3.
fn judge_behind(rt: &impl Abort, alloc: Global, row: &Row) -> Result<(), Fail> {
    let (cause, line, lines, why) = *row;
    let script = format!(in alloc; "{SETUP}{lines}")?;
    judge(rt, alloc, script.as_bytes(), cause, line, why);
    Ok(())
}

/// Ranges behind the setup.
const RANGES: &[Row] = &[
    (READ, 0, "life 100 2", "one life"),
    (READ, 0, "life 100 2\nlife 102 5", "the next id"),
    (READ, 0, "life 100 2\nlife 98 2", "the ids before"),
    (OVERLAPPING, 4, "life 100 2\nlife 101 5", "the last id"),
    (OVERLAPPING, 4, "life 100 2\nlife 99 2", "the first id"),
    (OVERLAPPING, 4, "life 100 5\nlife 101 1", "an id in between"),
    (OVERLAPPING, 4, "life 101 1\nlife 100 5", "an id around"),
    (
        OVERLAPPING,
        5,
        "life 1 1\nlife 3 1\nlife 0 4",
        "the first of two",
    ),
    (
        OVERLAPPING,
        5,
        "life 3 1\nlife 1 1\nlife 2 2",
        "the second of two",
    ),
    (READ, 0, "life 3 1\nlife 1 1\nlife 2 1", "between two"),
    (OVERLAPPING, 4, "life 7 1\nlife 7 1", "one id twice"),
    (
        READ,
        0,
        "life 18446744073709551615 1\nlife 0 1",
        "the greatest and 0",
    ),
    (
        OVERLAPPING,
        4,
        "life 18446744073709551615 2\nlife 0 1",
        "0 behind the greatest",
    ),
    (
        OVERLAPPING,
        4,
        "life 0 1\nlife 18446744073709551615 2",
        "0 before it wraps",
    ),
    (
        OVERLAPPING,
        4,
        "life 18446744073709551615 2\nlife 18446744073709551614 3",
        "both wrap",
    ),
    (
        READ,
        0,
        "life 18446744073709551615 2\nlife 1 1",
        "behind what wraps",
    ),
    (
        READ,
        0,
        "life 18446744073709551615 2\nlife 18446744073709551614 1",
        "before it",
    ),
    (
        OVERLAPPING,
        4,
        "life 0 18446744073709551615\nlife 0 18446744073709551615",
        "nearly all ids twice",
    ),
    (
        READ,
        0,
        "life 0 18446744073709551615\nlife 18446744073709551615 1",
        "all ids",
    ),
    (
        OVERLAPPING,
        5,
        "life 0 18446744073709551615\nlife 18446744073709551615 1\nlife 9 1",
        "and one more",
    ),
    (
        READ,
        0,
        "life 5 18446744073709551615\nlife 4 1",
        "all ids but one, and that",
    ),
    (
        OVERLAPPING,
        4,
        "life 5 18446744073709551615\nlife 3 1",
        "all ids but one, and another",
    ),
];

/// Lines behind the setup.
const LINES: &[Row] = &[
    (BAD, 3, "", "no life"),
    (BAD, 4, "# life 0 1\n", "no life behind a skipped line"),
    (BAD, 3, "life 0 0", "no id"),
    (BAD, 3, "life 0 18446744073709551616", "too many ids"),
    (BAD, 3, "life 18446744073709551616 1", "too great an id"),
    (BAD, 3, "life 00 1", "a leading zero"),
    (BAD, 3, "life 0 01", "a leading zero of the count"),
    (BAD, 3, "life 0", "no count"),
    (BAD, 3, "life ", "no number"),
    (BAD, 3, "life", "the word alone"),
    (BAD, 3, "life 0 1 ", "a space behind"),
    (BAD, 3, "life 0  1", "two spaces"),
    (BAD, 3, " life 0 1", "a space before"),
    (BAD, 3, "life 0 1 2", "three numbers"),
    (BAD, 3, "life -1 1", "a number below 0"),
    (BAD, 3, "Life 0 1", "another letter"),
    (BAD, 3, "life 0 1\r\n", "another line end"),
    (
        READ,
        0,
        "\n# x\nlife 0 1\n\n0 deliver 0\n# y\nlife 1 1\n",
        "skipped lines",
    ),
    (
        READ,
        0,
        "life 0 1\n5 deliver 0\n3 fail 9\nlife 1 1\n0 deliver 0",
        "events of two lives",
    ),
    (
        BAD,
        3,
        "0 deliver 0\nlife 0 1",
        "an event before the first life",
    ),
    (
        BAD,
        6,
        "life 0 1\n0 deliver 0\nlife 1 1\nx",
        "a bad line in the second life",
    ),
    (
        BAD,
        4,
        "life 0 1\nserver 10.0.0.3:1 cpus 8 nonce 7 key 01 capacity 0",
        "a server behind a life",
    ),
    (
        BAD,
        4,
        "life 0 1\nserver 10.0.0.2:1 cpus 8 nonce 7 key 01 capacity 0",
        "and its address again",
    ),
    (
        BAD,
        4,
        "life 0 1\nserver [fe80::1%1]:1 cpus 8 nonce 7 key 01 capacity 0",
        "and a scope",
    ),
    (
        BAD,
        4,
        "life 0 1\nbuilder 10.0.0.2:1 refuse",
        "a builder behind a life",
    ),
    (BAD, 4, "life 0 1\nversion 2", "a version behind a life"),
    (
        BAD,
        4,
        "life 0 1\nscheduler 10.0.0.9:1 base 0 count 0 client c1 plain s1",
        "a scheduler behind a life",
    ),
    (
        BAD,
        3,
        "builder 10.0.0.3:1 refuse\nlife 0 1",
        "a builder of no server",
    ),
    (READ, 0, "builder 10.0.0.2:1 refuse\nlife 0 1", "a builder"),
    (
        DUPLICATE,
        3,
        "server 10.0.0.2:1 cpus 8 nonce 7 key 01 capacity 0\nlife 0 1",
        "the address of a server",
    ),
    (
        DUPLICATE,
        3,
        "server 10.0.0.1:1 cpus 8 nonce 7 key 01 capacity 0\nlife 0 1",
        "the address of the scheduler",
    ),
    (
        SCOPED,
        3,
        "server [fe80::1%1]:1 cpus 8 nonce 7 key 01 capacity 0\nlife 0 1",
        "a server with a scope",
    ),
    (
        SCOPED,
        5,
        "life 0 1\nlife 1 1\n0 beat [fe80::1%1]:1",
        "an event with a scope",
    ),
    (
        BAD,
        3,
        "0 beat [fe80::1%1]:1\nlife 0 1",
        "an event with a scope before the first life",
    ),
    (OVERLAPPING, 4, "life 0 2\nlife 1 1\nx", "a bad line behind"),
    (BAD, 4, "life 0 2\nx\nlife 1 1", "a bad line before"),
    (
        BAD,
        5,
        "life 0 2\n0 deliver 0\nlife 1 0",
        "no id of an earlier life",
    ),
];

/// Whole scripts.
const WHOLE: &[Row] = &[
    (BAD, 1, "", "nothing"),
    (BAD, 1, "life 0 1", "no scheduler"),
    (
        BAD,
        1,
        "life 0 1\nscheduler 10.0.0.1:1 base 0 count 0 client c1 plain s1",
        "a life before the scheduler",
    ),
    (
        READ,
        0,
        "scheduler 10.0.0.1:1 base 0 count 0 client c1 plain s1\nlife 0 1",
        "no server",
    ),
    (
        READ,
        0,
        "version 2\nscheduler 10.0.0.1:1 base 0 count 0 client c1 jwt 01\nlife 0 1",
        "version 2",
    ),
    (
        BAD,
        1,
        "scheduler 10.0.0.1:1 base 1 count 0 client c1 plain s1\nlife 0 1",
        "another base",
    ),
    (
        BAD,
        1,
        "scheduler 10.0.0.1:1 base 0 count 1 client c1 plain s1\nlife 0 1",
        "another count",
    ),
    (
        BAD,
        1,
        "scheduler [fe80::1%1]:1 base 1 count 0 client c1 plain s1\nlife 0 1",
        "another base with a scope",
    ),
    (
        SCOPED,
        1,
        "scheduler [fe80::1%1]:1 base 0 count 0 client c1 plain s1\nlife 0 1",
        "a scheduler with a scope",
    ),
];

#[test]
fn tells_which_ranges_meet(rt: HostRuntime) -> Result<(), Fail> {
    let alloc = rt.alloc();
    for row in RANGES {
        judge_behind(&rt, alloc, row)?;
    }
    Ok(())
}

#[test]
fn tells_the_first_faulty_line_of_lives(rt: HostRuntime) -> Result<(), Fail> {
    let alloc = rt.alloc();
    for row in LINES {
        judge_behind(&rt, alloc, row)?;
    }
    for row in WHOLE {
        let (cause, line, script, why) = *row;
        judge(&rt, alloc, script.as_bytes(), cause, line, why);
    }
    Ok(())
}

/// The life has these ids, and so much happens in it.
fn is_life(rt: &impl Abort, life: &Life, from: u64, count: u64, events: usize) {
    assert_eq!(rt; life.from, from);
    assert_eq!(rt; life.count, count);
    assert_eq!(rt; life.events.get().len(), events);
}

#[test]
fn reads_lives_in_their_order(rt: HostRuntime) -> Result<(), Fail> {
    let alloc = rt.alloc();
    let script = format!(in alloc;
        "{SETUP}life 9 2\n4 deliver 0\n3 deliver 1\nlife 0 1\nlife 18446744073709551615 1\n0 fail 0\n"
    )?;
    match read_lives(alloc, script.as_bytes()) {
        Ok(script) => {
            assert_eq!(&rt; script.setup.servers.get().len(), 1);
            match script.lives.get() {
                [first, second, third] => {
                    is_life(&rt, first, 9, 2, 2);
                    is_life(&rt, second, 0, 1, 0);
                    is_life(&rt, third, 18_446_744_073_709_551_615, 1, 1);
                }
                _ => assert!(&rt; false, "three lives"),
            }
        }
        Err(_) => assert!(&rt; false, "the script is read"),
    }
    Ok(())
}

#[test]
fn judges_many_lives(rt: HostRuntime) -> Result<(), Fail> {
    let alloc = rt.alloc();
    let mut script = String::from_str(alloc, SETUP)?;
    for i in 0..20_000u64 {
        let from = (i * 7_919) % 20_000 * 3;
        let line = format!(in alloc; "life {from} 3\n")?;
        script.push_str(line.as_str())?;
    }
    judge(&rt, alloc, script.as_bytes(), READ, 0, "20,000 lives");
    script.push_str("life 59999 2\n")?;
    judge(
        &rt,
        alloc,
        script.as_bytes(),
        OVERLAPPING,
        20_003,
        "one more that meets one",
    );
    Ok(())
}
