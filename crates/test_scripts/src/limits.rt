//! The limits on servers and keys, met exactly and passed by one.
use crate::judged::{BAD, DUPLICATE, READ, SCOPED, judge};
use std::alloc::{AllocError, Global};
use std::test::Fail;

/// A scheduler line.
const SCHEDULER: &str = "scheduler 127.0.0.1:10600 base 4096 count 0 client c1 plain s1\n";

/// A scheduler and so many servers.
fn servers(alloc: Global, count: u16) -> Result<String, AllocError> {
    let mut script = String::from_str(alloc, SCHEDULER)?;
    for port in 0..count {
        let line = format!(in alloc; "server 10.0.0.1:{port} cpus 1 nonce 7 key 01 capacity 1\n")?;
        script.push_str(line.as_str())?;
    }
    Ok(script)
}

#[test]
fn takes_a_thousand_servers(rt: HostRuntime) -> Result<(), Fail> {
    let alloc = rt.alloc();
    let most = servers(alloc, 1000)?;
    judge(&rt, alloc, most.as_bytes(), READ, 0, "1,000 servers");
    let more = servers(alloc, 1001)?;
    judge(&rt, alloc, more.as_bytes(), BAD, 1002, "1,001 servers");
    Ok(())
}

#[test]
fn tells_the_1001st_server_as_bad(rt: HostRuntime) -> Result<(), Fail> {
    let alloc = rt.alloc();
    let mut twice = servers(alloc, 1000)?;
    twice.push_str("server 10.0.0.1:0 cpus 1 nonce 7 key 01 capacity 1\n")?;
    judge(
        &rt,
        alloc,
        twice.as_bytes(),
        BAD,
        1002,
        "a duplicate past the limit",
    );
    let mut scoped = servers(alloc, 1000)?;
    scoped.push_str("server [fe80::1%3]:0 cpus 1 nonce 7 key 01 capacity 1\n")?;
    judge(
        &rt,
        alloc,
        scoped.as_bytes(),
        BAD,
        1002,
        "a scope past the limit",
    );
    Ok(())
}

#[test]
fn tells_the_thousandth_server_by_its_cause(rt: HostRuntime) -> Result<(), Fail> {
    let alloc = rt.alloc();
    let mut twice = servers(alloc, 999)?;
    twice.push_str("server 10.0.0.1:0 cpus 1 nonce 7 key 01 capacity 1\n")?;
    judge(
        &rt,
        alloc,
        twice.as_bytes(),
        DUPLICATE,
        1001,
        "a duplicate within the limit",
    );
    let mut scoped = servers(alloc, 999)?;
    scoped.push_str("server [fe80::1%3]:0 cpus 1 nonce 7 key 01 capacity 1\n")?;
    judge(
        &rt,
        alloc,
        scoped.as_bytes(),
        SCOPED,
        1001,
        "a scope within the limit",
    );
    Ok(())
}

/// Hex of so many bytes.
fn hex_of(alloc: Global, count: u16) -> Result<String, AllocError> {
    let mut text = String::new(alloc);
    for _ in 0..count {
        text.push_str("a7")?;
    }
    Ok(text)
}

#[test]
fn takes_keys_of_1024_bytes(rt: HostRuntime) -> Result<(), Fail> {
    let alloc = rt.alloc();
    let most = hex_of(alloc, 1024)?;
    let more = hex_of(alloc, 1025)?;
    let server = format!(in alloc;
        "{SCHEDULER}server 10.0.0.1:1 cpus 1 nonce 7 key {most} capacity 1\n"
    )?;
    judge(
        &rt,
        alloc,
        server.as_bytes(),
        READ,
        0,
        "a server's key of 1,024 bytes",
    );
    let server = format!(in alloc;
        "{SCHEDULER}server 10.0.0.1:1 cpus 1 nonce 7 key {more} capacity 1\n"
    )?;
    judge(
        &rt,
        alloc,
        server.as_bytes(),
        BAD,
        2,
        "a server's key of 1,025 bytes",
    );
    let restart = format!(in alloc; "{SCHEDULER}0 restart 10.0.0.1:1 key {most} nonce 7\n")?;
    judge(
        &rt,
        alloc,
        restart.as_bytes(),
        READ,
        0,
        "a restart's key of 1,024 bytes",
    );
    let restart = format!(in alloc; "{SCHEDULER}0 restart 10.0.0.1:1 key {more} nonce 7\n")?;
    judge(
        &rt,
        alloc,
        restart.as_bytes(),
        BAD,
        2,
        "a restart's key of 1,025 bytes",
    );
    Ok(())
}

#[test]
fn takes_the_schedulers_key_of_1024_bytes(rt: HostRuntime) -> Result<(), Fail> {
    let alloc = rt.alloc();
    let most = hex_of(alloc, 1024)?;
    let script = format!(in alloc; "scheduler 10.0.0.1:1 base 0 count 0 client c jwt {most}\n")?;
    judge(
        &rt,
        alloc,
        script.as_bytes(),
        READ,
        0,
        "the scheduler's key of 1,024 bytes",
    );
    let more = hex_of(alloc, 1025)?;
    let script = format!(in alloc; "scheduler 10.0.0.1:1 base 0 count 0 client c jwt {more}\n")?;
    judge(
        &rt,
        alloc,
        script.as_bytes(),
        BAD,
        1,
        "the scheduler's key of 1,025 bytes",
    );
    Ok(())
}
