//! The limits of a script, met exactly and passed by one.
use crate::ran::{NOTHING, Ran, called};
use std::alloc::Global;
use std::process::Abort;
use std::test::Fail;

/// The scheduler line.
const SETUP: &str = "scheduler 127.0.0.1:10600 base 4096 count 0 client c1 plain s1\n";

/// Its run.
const RUN: &str = "run 1 entries 0\nbooks\nids base 4096 count 0\nend\n";

fn run(alloc: Global, script: Vec<u8>) -> Result<Ran, Fail> {
    called(alloc, "farm", script, NOTHING)
}

fn is_run(rt: &impl Abort, ran: &Ran) {
    assert_eq!(rt; ran.status, 0);
    assert_eq!(rt; ran.out.as_slice(), RUN.as_bytes());
}

fn is_bad(rt: &impl Abort, alloc: Global, ran: &Ran, line: u64) -> Result<(), Fail> {
    let told = format!(in alloc; "sccache-dist: bad line {line}\n")?;
    assert_eq!(rt; ran.status, 1);
    assert_eq!(rt; ran.errs.as_slice(), told.as_bytes());
    assert_eq!(rt; ran.out.len(), 0);
    Ok(())
}

/// The scheduler line, and so many bytes behind it.
fn behind(alloc: Global, byte: u8, count: usize) -> Result<Vec<u8>, Fail> {
    let mut script = Vec::from_slice(alloc, SETUP.as_bytes())?;
    let more = vec![in alloc; byte; count]?;
    script.extend_from_slice(&more)?;
    Ok(script)
}

#[test]
fn takes_a_million_lines(rt: HostRuntime) -> Result<(), Fail> {
    is_run(&rt, &run(rt.alloc(), behind(rt.alloc(), b'\n', 999_999)?)?);
    let ran = run(rt.alloc(), behind(rt.alloc(), b'\n', 1_000_000)?)?;
    is_bad(&rt, rt.alloc(), &ran, 1_000_001)
}

#[test]
fn takes_two_mebibytes_a_line(rt: HostRuntime) -> Result<(), Fail> {
    is_run(&rt, &run(rt.alloc(), behind(rt.alloc(), b'#', 2_097_152)?)?);
    let ran = run(rt.alloc(), behind(rt.alloc(), b'#', 2_097_153)?)?;
    is_bad(&rt, rt.alloc(), &ran, 2)
}

/// So many lines of 2,000,000 bytes with their ends, and a last one of so many bytes.
fn long_script(alloc: Global, last: usize) -> Result<Vec<u8>, Fail> {
    let mut script = Vec::from_slice(alloc, SETUP.as_bytes())?;
    let mut line = vec![in alloc; b'#'; 1_999_999]?;
    line.push(b'\n')?;
    for _ in 0..33 {
        script.extend_from_slice(&line)?;
    }
    let end = vec![in alloc; b'#'; last]?;
    script.extend_from_slice(&end)?;
    Ok(script)
}

#[test]
fn takes_64_mebibytes(rt: HostRuntime) -> Result<(), Fail> {
    // 63 bytes of the scheduler line, 66,000,000 bytes of 33 lines, and the last.
    let last = 67_108_864 - 66_000_000 - SETUP.len();
    is_run(&rt, &run(rt.alloc(), long_script(rt.alloc(), last)?)?);
    let ran = run(rt.alloc(), long_script(rt.alloc(), last + 1)?)?;
    is_bad(&rt, rt.alloc(), &ran, 35)
}

/// A script whose client token has so many bytes.
fn with_token(alloc: Global, length: usize) -> Result<Vec<u8>, Fail> {
    let mut script = Vec::from_slice(
        alloc,
        b"scheduler 127.0.0.1:10600 base 4096 count 0 client ",
    )?;
    let token = vec![in alloc; b't'; length]?;
    script.extend_from_slice(&token)?;
    script.extend_from_slice(b" plain s1\n")?;
    Ok(script)
}

#[test]
fn takes_tokens_of_1024_bytes(rt: HostRuntime) -> Result<(), Fail> {
    is_run(&rt, &run(rt.alloc(), with_token(rt.alloc(), 1024)?)?);
    let ran = run(rt.alloc(), with_token(rt.alloc(), 1025)?)?;
    is_bad(&rt, rt.alloc(), &ran, 1)
}
