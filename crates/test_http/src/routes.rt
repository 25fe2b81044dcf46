//! What requests in order ask.
use dist_types::addr::Addr;
use dist_types::results::JobState;
use dist_types::rules::Rules;
use http_routes::asked::asked;
use http_routes::route::{Asked, SchedRouted, Terms};
use std::alloc::{AllocError, Global};
use std::process::Abort;

const LOCAL: Addr = Addr::V4([127, 0, 0, 1], 40000);

const SERVER: Addr = Addr::V4([127, 0, 0, 1], 10501);

fn ask(rt: &impl Abort, alloc: Global, bytes: &[u8]) -> Asked {
    let terms = Terms {
        peer: LOCAL,
        rules: Rules::One,
    };
    asked(alloc, bytes, terms, "c1", "s1").expect(rt, "a request")
}

/// Whether a job is asked for with that toolchain, and not in JSON.
fn is_job(asked: &Asked, archive_id: &str) -> bool {
    match &asked.what {
        SchedRouted::Alloc(tc) => !asked.json && tc.archive_id() == archive_id,
        _ => false,
    }
}

#[test]
fn a_job_is_asked_for_with_its_toolchain(rt: HostRuntime) {
    let asked = ask(
        &rt,
        rt.alloc(),
        b"POST /api/v1/scheduler/alloc_job HTTP/1.1\r\nAuthorization: Bearer c1\r\nContent-Type: application/octet-stream\r\nContent-Length: 72\r\n\r\n\x40\0\0\0\0\0\0\0BA7816BF8F01CFEA414140DE5DAE2223B00361A396177A9CB410FF61F20015AD",
    );
    let archive_id = "ba7816bf8f01cfea414140de5dae2223b00361a396177a9cb410ff61f20015ad";
    assert!(&rt; is_job(&asked, archive_id));
}

/// Whether that is the heartbeat of the server: its key, its processors and its nonce.
pub(crate) fn is_beat(what: &SchedRouted, key: &[u8], cpus: u64, nonce: u64) -> bool {
    match what {
        SchedRouted::Beat(server, beat) => {
            server.addr() == SERVER
                && beat.jwt_key.get() == key
                && (beat.num_cpus, beat.server_nonce.get()) == (cpus, nonce)
        }
        _ => false,
    }
}

#[test]
fn a_heartbeat_is_taken_whole(rt: HostRuntime) {
    let asked = ask(
        &rt,
        rt.alloc(),
        b"POST /api/v1/scheduler/heartbeat_server HTTP/1.1\r\nAuthorization: Bearer 127.0.0.1:10501 s1\r\nContent-Type: application/octet-stream\r\nContent-Length: 27\r\n\r\n\x03\0\0\0\0\0\0\0\x01\x02\x03\x08\0\0\0\0\0\0\0\x07\0\0\0\0\0\0\0",
    );
    assert!(&rt; is_beat(&asked.what, &[1, 2, 3], 8, 7));
}

/// Whether the server reports that this job has started.
pub(crate) fn is_started(what: &SchedRouted, started: u64) -> bool {
    match what {
        SchedRouted::Update(server, job, state) => {
            (server.addr(), job.0, *state) == (SERVER, started, JobState::Started)
        }
        _ => false,
    }
}

#[test]
fn a_state_names_its_job(rt: HostRuntime) {
    let asked = ask(
        &rt,
        rt.alloc(),
        b"POST /api/v1/scheduler/job_state/+0064?a=b HTTP/1.1\r\nAuthorization: Bearer 127.0.0.1:10501 s1\r\nContent-Type: application/octet-stream\r\nContent-Length: 4\r\n\r\n\x02\0\0\0",
    );
    assert!(&rt; is_started(&asked.what, 64));
}

/// Fields of a request for the status, and whether they ask for JSON.
const FORMS: &[(&[u8], bool)] = &[
    (
        b"Host: 127.0.0.1:10600\r\nUser-Agent: curl/8.5.0\r\nAccept: application/json\r\n",
        true,
    ),
    (b"accept: \t application/json \t\r\n", true),
    (
        b"Host: 127.0.0.1:10600\r\nUser-Agent: curl/8.5.0\r\nAccept: */*\r\n",
        false,
    ),
    (b"", false),
    (b"Accept: application/jsonx\r\n", false),
    (b"Accept: Application/JSON\r\n", false),
    (b"Accept: application/json, text/plain\r\n", false),
    (b"Accept: application/json;q=0.9\r\n", false),
    (b"Accept: text/plain\r\nAccept: application/json\r\n", false),
    (b"Accept: application/json\r\nAccept: text/plain\r\n", true),
    (b"Accept: \xff\r\n", false),
];

/// Writes a request for the status with these fields.
fn write_status(bytes: &mut Vec<u8>, fields: &[u8]) -> Result<(), AllocError> {
    bytes.extend_from_slice(b"GET /api/v1/scheduler/status HTTP/1.1\r\n")?;
    bytes.extend_from_slice(fields)?;
    bytes.extend_from_slice(b"\r\n")
}

/// Whether a request for the status with these fields asks for JSON.
fn is_json(rt: &impl Abort, alloc: Global, fields: &[u8]) -> bool {
    let mut bytes = Vec::new(alloc);
    write_status(&mut bytes, fields).expect(rt, "memory");
    let asked = ask(rt, alloc, &bytes);
    assert!(rt; matches!(&asked.what, SchedRouted::Status));
    asked.json
}

#[test]
fn json_is_asked_for_by_its_exact_name(rt: HostRuntime) {
    for (fields, want) in FORMS {
        assert!(&rt; is_json(&rt, rt.alloc(), fields) == *want);
    }
}
