//! Lines of scripts, good and faulty: each script runs, or its first faulty line is named.
use crate::ran::farm;
use std::alloc::Global;
use std::process::Abort;
use std::test::Fail;

/// A script, the number of its first faulty line, or 0 where it has none, and what it shows.
type Case = (&'static str, u64, &'static str);

/// The script runs, or the line is named and nothing is written.
fn judge(rt: &impl Abort, alloc: Global, case: Case) -> Result<(), Fail> {
    let (script, line, why) = case;
    judge_script(rt, alloc, script, line, why)
}

/// The same for a script of any origin.
fn judge_script(
    rt: &impl Abort,
    alloc: Global,
    script: &str,
    line: u64,
    why: &str,
) -> Result<(), Fail> {
    let ran = farm(alloc, script)?;
    if line == 0 {
        assert_eq!(rt; ran.status, 0, "{why}");
        assert_eq!(rt; ran.errs.len(), 0, "{why}");
    } else {
        let told = format!(in alloc; "sccache-dist: bad line {line}\n")?;
        assert_eq!(rt; ran.status, 1, "{why}");
        assert_eq!(rt; ran.errs.as_slice(), told.as_bytes(), "{why}");
        assert_eq!(rt; ran.out.len(), 0, "{why}");
    }
    Ok(())
}

static ENDS_AND_SKIPPED_LINES: [Case; 14] = [
    (
        "scheduler 127.0.0.1:10600 base 4096 count 0 client c1 plain s1",
        0,
        "the last line end may be missing",
    ),
    (
        "scheduler 127.0.0.1:10600 base 4096 count 0 client c1 plain s1\r\n",
        1,
        "CR LF is no line end",
    ),
    (
        "# x\n\nscheduler 127.0.0.1:10600 base 4096 count 0 client c1 plain s1\n\n# \n",
        0,
        "empty lines and # lines are skipped",
    ),
    (
        "#é\nscheduler 127.0.0.1:10600 base 4096 count 0 client c1 plain s1\n",
        0,
        "a # line holds any text",
    ),
    (
        " # x\nscheduler 127.0.0.1:10600 base 4096 count 0 client c1 plain s1\n",
        1,
        "a blank before #",
    ),
    (
        "\r\nscheduler 127.0.0.1:10600 base 4096 count 0 client c1 plain s1\n",
        1,
        "a line of CR alone",
    ),
    ("", 1, "nothing has no scheduler line"),
    (
        "\n\n# x\n",
        4,
        "no scheduler line: the number after the last line",
    ),
    ("\n\n# x", 4, "the same without the last line end"),
    (
        "0 request 127.0.0.1:10600 127.0.0.1:40000 474554\n",
        2,
        "an event alone: the number after the last line",
    ),
    (
        "0 request 127.0.0.1:10600 127.0.0.1:40000 474554\nscheduler 127.0.0.1:10600 base 4096 count 0 client c1 plain s1\n",
        2,
        "a scheduler line behind an event",
    ),
    (
        "scheduler 127.0.0.1:10600 base 4096 count 0 client c1 plain s1\nscheduler 127.0.0.1:10600 base 4096 count 0 client c1 plain s1\n",
        2,
        "a second scheduler line",
    ),
    (
        "scheduler 127.0.0.1:10600 base 4096 count 0 client c1 plain s1\n0 request 127.0.0.1:10600 127.0.0.1:40000 474554\nscheduler 127.0.0.1:10600 base 4096 count 0 client c1 plain s1\n",
        3,
        "a scheduler line behind events",
    ),
    (
        "scheduler 127.0.0.1:10600 base 4096 count 0 client c1 plain s1\n0 request 127.0.0.1:10600 127.0.0.1:40000 474554\nx\ny\n",
        3,
        "the first of two faulty lines",
    ),
];

static WORDS_OF_THE_SCHEDULER: [Case; 18] = [
    (
        "scheduler 127.0.0.1:10600 base 0 count 18446744073709551615 client c plain s\n",
        0,
        "the greatest count",
    ),
    (
        "scheduler 127.0.0.1:10600 base 18446744073709551616 count 0 client c plain s\n",
        1,
        "2^64",
    ),
    (
        "scheduler 127.0.0.1:10600 base 184467440737095516150 count 0 client c plain s\n",
        1,
        "ten times the greatest",
    ),
    (
        "scheduler 127.0.0.1:10600 base 00 count 0 client c plain s\n",
        1,
        "two zeros",
    ),
    (
        "scheduler 127.0.0.1:10600 base 0 count 01 client c plain s\n",
        1,
        "a leading zero",
    ),
    (
        "scheduler 127.0.0.1:10600 base +1 count 0 client c plain s\n",
        1,
        "a sign",
    ),
    (
        "scheduler 127.0.0.1:10600 base  count 0 client c plain s\n",
        1,
        "no number",
    ),
    (
        "scheduler  127.0.0.1:10600 base 0 count 0 client c plain s\n",
        1,
        "two spaces",
    ),
    (
        "scheduler\t127.0.0.1:10600 base 0 count 0 client c plain s\n",
        1,
        "a tab",
    ),
    (
        "scheduler 127.0.0.1:10600 base 0 count 0 client c plain s \n",
        1,
        "a trailing space",
    ),
    (
        "scheduler 127.0.0.1:10600 base 0 count 0 client c plain \n",
        1,
        "an empty token",
    ),
    (
        "scheduler 127.0.0.1:10600 base 0 count 0 client c plain\n",
        1,
        "a missing token",
    ),
    (
        "scheduler 127.0.0.1:10600 base 0 count 0 client !~ plain \"#$\n",
        0,
        "tokens of visible bytes",
    ),
    (
        "scheduler 127.0.0.1:10600 base 0 count 0 client c plain \x7f\n",
        1,
        "a token with DEL",
    ),
    (
        "scheduler 127.0.0.1:10600 base 0 count 0 client é plain s\n",
        1,
        "a token that is not ASCII",
    ),
    (
        "Scheduler 127.0.0.1:10600 base 0 count 0 client c plain s\n",
        1,
        "a capital",
    ),
    (
        "scheduler 127.0.0.1:10600 count 0 base 0 client c plain s\n",
        1,
        "another order",
    ),
    (
        "scheduler 127.0.0.1:10600 base 0 count 0 client c token s\n",
        1,
        "another word",
    ),
];

static WORDS_OF_EVENTS: [Case; 22] = [
    (
        "scheduler 127.0.0.1:10600 base 4096 count 0 client c1 plain s1\n18446744073709551615 request 127.0.0.1:10600 127.0.0.1:40000 -\n",
        0,
        "the greatest moment, no bytes",
    ),
    (
        "scheduler 127.0.0.1:10600 base 4096 count 0 client c1 plain s1\n18446744073709551616 request 127.0.0.1:10600 127.0.0.1:40000 -\n",
        2,
        "2^64",
    ),
    (
        "scheduler 127.0.0.1:10600 base 4096 count 0 client c1 plain s1\n05 request 127.0.0.1:10600 127.0.0.1:40000 -\n",
        2,
        "a leading zero",
    ),
    (
        "scheduler 127.0.0.1:10600 base 4096 count 0 client c1 plain s1\n-1 request 127.0.0.1:10600 127.0.0.1:40000 -\n",
        2,
        "a negative moment",
    ),
    (
        "scheduler 127.0.0.1:10600 base 4096 count 0 client c1 plain s1\n0 request 255.255.255.255:65535 0.0.0.0:0 00\n",
        0,
        "the ends of addresses",
    ),
    (
        "scheduler 127.0.0.1:10600 base 4096 count 0 client c1 plain s1\n0 request 127.0.0.1:65536 127.0.0.1:40000 -\n",
        2,
        "a port past 65535",
    ),
    (
        "scheduler 127.0.0.1:10600 base 4096 count 0 client c1 plain s1\n0 request 127.0.0.1:00080 127.0.0.1:40000 -\n",
        0,
        "a port with leading zeros",
    ),
    (
        "scheduler 127.0.0.1:10600 base 4096 count 0 client c1 plain s1\n0 request 127.0.0.1:000080 127.0.0.1:40000 -\n",
        2,
        "a port of six digits",
    ),
    (
        "scheduler 127.0.0.1:10600 base 4096 count 0 client c1 plain s1\n0 request 127.0.0.01:80 127.0.0.1:40000 -\n",
        2,
        "an octet with a leading zero",
    ),
    (
        "scheduler 127.0.0.1:10600 base 4096 count 0 client c1 plain s1\n0 request 127.0.0.256:80 127.0.0.1:40000 -\n",
        2,
        "an octet past 255",
    ),
    (
        "scheduler 127.0.0.1:10600 base 4096 count 0 client c1 plain s1\n0 request 127.0.0.1 127.0.0.1:40000 -\n",
        2,
        "no port",
    ),
    (
        "scheduler 127.0.0.1:10600 base 4096 count 0 client c1 plain s1\n0 request localhost:80 127.0.0.1:40000 -\n",
        2,
        "a name",
    ),
    (
        "scheduler 127.0.0.1:10600 base 4096 count 0 client c1 plain s1\n0 request 127.0.0.1:80 127.0.0.1:40000 0aFf\n",
        0,
        "hex of either case",
    ),
    (
        "scheduler 127.0.0.1:10600 base 4096 count 0 client c1 plain s1\n0 request 127.0.0.1:80 127.0.0.1:40000 ABCDEF\n",
        0,
        "capital hex",
    ),
    (
        "scheduler 127.0.0.1:10600 base 4096 count 0 client c1 plain s1\n0 request 127.0.0.1:80 127.0.0.1:40000 0\n",
        2,
        "odd hex",
    ),
    (
        "scheduler 127.0.0.1:10600 base 4096 count 0 client c1 plain s1\n0 request 127.0.0.1:80 127.0.0.1:40000 0g\n",
        2,
        "no hex digit",
    ),
    (
        "scheduler 127.0.0.1:10600 base 4096 count 0 client c1 plain s1\n0 request 127.0.0.1:80 127.0.0.1:40000 --\n",
        2,
        "two dashes",
    ),
    (
        "scheduler 127.0.0.1:10600 base 4096 count 0 client c1 plain s1\n0 request 127.0.0.1:80 127.0.0.1:40000 \n",
        2,
        "no hex word",
    ),
    (
        "scheduler 127.0.0.1:10600 base 4096 count 0 client c1 plain s1\n0 request 127.0.0.1:80 127.0.0.1:40000 - \n",
        2,
        "a trailing space",
    ),
    (
        "scheduler 127.0.0.1:10600 base 4096 count 0 client c1 plain s1\n0  request 127.0.0.1:80 127.0.0.1:40000 -\n",
        2,
        "two spaces",
    ),
    (
        "scheduler 127.0.0.1:10600 base 4096 count 0 client c1 plain s1\n0 request 127.0.0.1:80 127.0.0.1:40000 - -\n",
        2,
        "a word more",
    ),
    (
        "scheduler 127.0.0.1:10600 base 4096 count 0 client c1 plain s1\nrequest 0 127.0.0.1:80 127.0.0.1:40000 -\n",
        2,
        "the kind before the moment",
    ),
];

/// The number of the first faulty line where each of these stands behind a scheduler line, or 0 where it
/// is in the grammar, and what it shows.
const LINES_OF_CALLS: &[(u64, &str, &str)] = &[
    (0, "0 deliver 0", "a delivery"),
    (
        0,
        "18446744073709551615 deliver 18446744073709551615",
        "the greatest numbers",
    ),
    (2, "0 deliver 18446744073709551616", "2^64"),
    (2, "0 deliver 00", "two zeros"),
    (2, "0 deliver +0", "a sign"),
    (2, "0 deliver -", "no number but a dash"),
    (2, "0 deliver", "no number"),
    (2, "0 deliver ", "an empty number"),
    (2, "0 deliver 0 ", "a trailing space"),
    (2, "0 deliver 0 0", "a word more"),
    (2, "0 deliver  0", "two spaces"),
    (2, "0 Deliver 0", "a capital"),
    (2, "0 delivers 0", "another word"),
    (2, "deliver 0", "no moment"),
    (2, "00 deliver 0", "a moment with a leading zero"),
    (0, "0 fail 7", "a loss"),
    (2, "0 fail 07", "a leading zero"),
    (2, "0 fail", "no number"),
    (2, "0 fail 7 -", "bytes of a loss"),
    (0, "0 answer 0 -", "an answer of no bytes"),
    (0, "0 answer 0 0aFf", "hex of either case"),
    (2, "0 answer 0 0", "odd hex"),
    (2, "0 answer 0 0g", "no hex digit"),
    (2, "0 answer 0 ", "no hex word"),
    (2, "0 answer 0", "no bytes"),
    (2, "0 answer -", "no number"),
    (2, "0 answer 01 -", "a leading zero"),
    (2, "0 answer 18446744073709551616 -", "2^64"),
    (2, "0 answer 0 - ", "a trailing space"),
    (2, "0 answer 0 - -", "a word more"),
    (0, "0 return 0", "a return of no delivery"),
];

/// The script of one line behind a scheduler line.
fn judge_line(
    rt: &impl Abort,
    alloc: Global,
    row: &(u64, &'static str, &'static str),
) -> Result<(), Fail> {
    let (number, line, why) = *row;
    let script = format!(in alloc;
        "scheduler 127.0.0.1:10600 base 4096 count 0 client c1 plain s1\n{line}\n"
    )?;
    judge_script(rt, alloc, script.as_str(), number, why)
}

#[test]
fn reads_lines_of_calls(rt: HostRuntime) -> Result<(), Fail> {
    for row in LINES_OF_CALLS {
        judge_line(&rt, rt.alloc(), row)?;
    }
    Ok(())
}

#[test]
fn reads_ends_and_skipped_lines(rt: HostRuntime) -> Result<(), Fail> {
    for case in ENDS_AND_SKIPPED_LINES {
        judge(&rt, rt.alloc(), case)?;
    }
    Ok(())
}

#[test]
fn reads_words_of_the_scheduler(rt: HostRuntime) -> Result<(), Fail> {
    for case in WORDS_OF_THE_SCHEDULER {
        judge(&rt, rt.alloc(), case)?;
    }
    Ok(())
}

#[test]
fn reads_words_of_events(rt: HostRuntime) -> Result<(), Fail> {
    for case in WORDS_OF_EVENTS {
        judge(&rt, rt.alloc(), case)?;
    }
    Ok(())
}
