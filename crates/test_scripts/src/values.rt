//! What is read of a script, value by value, and what faults print.
use dist_types::addr::Addr;
use dist_types::text::Text;
use farm_script::event::EventKind;
use farm_script::script::read_script;
use farm_script::setup::{BuilderLine, SetupAuth, SetupServer};
use line_program::fault::{ConfigCause, FarmFault};
use line_program::why::Why;
use std::alloc::{AllocError, Global};
use std::process::Abort;
use std::test::Fail;

/// Two servers, whose builders' lines alternate.
const SCRIPT: &[u8] = b"scheduler 127.0.0.1:10600 base 4096 count 5 client c1 jwt 0aFF\n\
server 127.0.0.1:10501 cpus 2 nonce 7 key 010202 capacity 1000\n\
server [::1]:80 cpus 3 nonce 8 key 0a capacity 2000\n\
builder 127.0.0.1:10501 ok -3 6f6b - 6f 0102 c3a9 -\n\
builder [::1]:80 ok 1 - 65\n\
builder 127.0.0.1:10501 refuse\n\
builder 127.0.0.1:10501 ok 2 - -\n\
1 return 9\n\
2 restart 127.0.0.1:10501 key 05 nonce 11\n";

/// The exit codes of a builder's answers, in order, and 99 for a refusal.
fn codes_of(alloc: Global, server: &SetupServer) -> Result<Vec<i32>, AllocError> {
    let mut codes = Vec::new(alloc);
    for answer in server.builder.get() {
        let code = match answer {
            BuilderLine::Listed { code, .. } => *code,
            BuilderLine::Refuse => 99,
        };
        codes.push(code)?;
    }
    Ok(codes)
}

fn is_server(
    rt: &impl Abort,
    alloc: Global,
    server: &SetupServer,
    cpus: u64,
    codes: &[i32],
) -> Result<(), Fail> {
    assert_eq!(rt; server.cpus, cpus);
    assert_eq!(rt; codes_of(alloc, server)?.as_slice(), codes);
    Ok(())
}

#[test]
fn reads_servers_and_their_answers_in_order(rt: HostRuntime) -> Result<(), Fail> {
    let (setup, _) = read_script(rt.alloc(), SCRIPT)?;
    let servers = setup.servers.get();
    assert_eq!(rt; servers.len(), 2);
    is_server(&rt, rt.alloc(), &servers[0], 2, [-3, 99, 2].as_slice())?;
    is_server(&rt, rt.alloc(), &servers[1], 3, [1].as_slice())?;
    assert_eq!(rt; servers[0].key.get(), [1, 2, 2].as_slice());
    assert_eq!(rt; servers[1].addr, Addr::V6([0, 0, 0, 0, 0, 0, 0, 1], 80));
    assert_eq!(rt; servers[1].nonce.get(), 8);
    assert_eq!(rt; servers[1].capacity, 2000);
    Ok(())
}

/// Stdout, stderr and the outputs of an answer.
fn is_first(rt: &impl Abort, answer: &BuilderLine) {
    match answer {
        BuilderLine::Listed {
            stdout,
            stderr,
            outputs,
            ..
        } => {
            assert_eq!(rt; stdout.get(), b"ok".as_slice());
            assert_eq!(rt; stderr.get().len(), 0);
            let outputs = outputs.get();
            assert_eq!(rt; outputs.len(), 2);
            assert_eq!(rt; outputs[0].0.get(), "o");
            assert_eq!(rt; outputs[0].1.get(), [1, 2].as_slice());
            assert_eq!(rt; outputs[1].0.get(), "é");
            assert_eq!(rt; outputs[1].1.get().len(), 0);
        }
        BuilderLine::Refuse => assert!(rt; false),
    }
}

#[test]
fn reads_an_answer_whole(rt: HostRuntime) -> Result<(), Fail> {
    let (setup, _) = read_script(rt.alloc(), SCRIPT)?;
    let servers = setup.servers.get();
    assert_eq!(rt; servers.len(), 2);
    let answers = servers[0].builder.get();
    assert_eq!(rt; answers.len(), 3);
    is_first(&rt, &answers[0]);
    Ok(())
}

/// The number of a return.
fn delivery_of(kind: &EventKind) -> u64 {
    match kind {
        EventKind::Return { delivery } => *delivery,
        _ => 0,
    }
}

/// The nonce of a restart.
fn nonce_of(kind: &EventKind) -> u64 {
    match kind {
        EventKind::Restart { nonce, .. } => nonce.get(),
        _ => 0,
    }
}

#[test]
fn reads_the_scheduler_and_events(rt: HostRuntime) -> Result<(), Fail> {
    let (setup, events) = read_script(rt.alloc(), SCRIPT)?;
    assert_eq!(rt; setup.scheduler.count, 5);
    match &setup.scheduler.auth {
        SetupAuth::Jwt(key) => assert_eq!(rt; key.get(), [10, 255].as_slice()),
        SetupAuth::Plain(_) => assert!(rt; false),
    }
    assert_eq!(rt; events.len(), 2);
    assert_eq!(rt; events[0].at, 1);
    assert_eq!(rt; delivery_of(&events[0].kind), 9);
    assert_eq!(rt; nonce_of(&events[1].kind), 11);
    Ok(())
}

fn prints(rt: &impl Abort, alloc: Global, fault: FarmFault, text: &str) -> Result<(), Fail> {
    let printed = format!(in alloc; "{fault}")?;
    assert_eq!(rt; printed.as_str(), text);
    Ok(())
}

#[test]
fn prints_refused_runs(rt: HostRuntime) -> Result<(), Fail> {
    let alloc = rt.alloc();
    let text = FarmFault::AuditRefused(1, Why::Text);
    let core = FarmFault::AuditRefused(7, Why::Core);
    let build = FarmFault::AuditRefused(10, Why::Build);
    let books = FarmFault::AuditRefused(u64::MAX, Why::Books);
    prints(&rt, alloc, text, "audit refused line 1: text")?;
    prints(&rt, alloc, core, "audit refused line 7: core")?;
    prints(&rt, alloc, build, "audit refused line 10: build")?;
    let last = "audit refused line 18446744073709551615: books";
    prints(&rt, alloc, books, last)
}

#[test]
fn prints_faults_of_lines(rt: HostRuntime) -> Result<(), Fail> {
    let alloc = rt.alloc();
    prints(&rt, alloc, FarmFault::BadLine(3), "bad line 3")?;
    prints(
        &rt,
        alloc,
        FarmFault::DuplicateAddress(3),
        "duplicate address on line 3",
    )?;
    prints(
        &rt,
        alloc,
        FarmFault::ScopedAddress(2),
        "scoped address on line 2",
    )?;
    prints(
        &rt,
        alloc,
        FarmFault::OverlappingIds(4),
        "overlapping ids on line 4",
    )?;
    prints(&rt, alloc, FarmFault::Usage, "these words name no command")?;
    prints(&rt, alloc, FarmFault::Memory, "out of memory")
}

#[test]
fn prints_other_faults(rt: HostRuntime) -> Result<(), Fail> {
    let alloc = rt.alloc();
    prints(&rt, alloc, FarmFault::ReadFault, "read fault")?;
    prints(&rt, alloc, FarmFault::WriteFault, "write fault")?;
    prints(&rt, alloc, FarmFault::ServeFault, "serve fault")?;
    let key = ConfigCause::Key(Text::of(alloc, "server_auth")?);
    prints(
        &rt,
        alloc,
        FarmFault::BadConfig(key),
        "bad configuration: key server_auth",
    )?;
    prints(
        &rt,
        alloc,
        FarmFault::BadConfig(ConfigCause::Missing),
        "bad configuration: file missing",
    )?;
    prints(
        &rt,
        alloc,
        FarmFault::BadConfig(ConfigCause::Unreadable),
        "bad configuration: file unreadable",
    )?;
    prints(
        &rt,
        alloc,
        FarmFault::BadConfig(ConfigCause::NotToml),
        "bad configuration: not TOML",
    )
}
