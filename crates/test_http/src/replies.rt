//! The bytes of replies.
use core_rules::answers::Undone;
use dist_types::addr::Addr;
use dist_types::ids::{JobId, ServerId};
use dist_types::outgoing::CallFault;
use dist_types::results::{HeartbeatServerResult, JobState, SchedulerStatusResult};
use dist_types::text::Text;
use http_routes::err_json::ErrJson;
use http_routes::error::HttpError;
use http_routes::fault::{RouteFault, dropped_text, fault_response, no_room_text};
use http_routes::head::{read_head, read_reply_head};
use http_routes::refusal::RouilleBincodeError;
use http_routes::reply::{Response, Word, bincode_response, prepare_response, respond};
use std::alloc::Global;
use std::process::Abort;

const STATUS: SchedulerStatusResult = SchedulerStatusResult {
    num_servers: 1,
    num_cpus: 8,
    in_progress: 0,
};

const STATUS_JSON: &[u8] =
    b"HTTP/1.1 200 OK\r\nContent-Type: application/json\r\nContent-Length: 46\r\nConnection: close\r\n\r\n{\"in_progress\":0,\"num_cpus\":8,\"num_servers\":1}";

const STATUS_BINARY: &[u8] =
    b"HTTP/1.1 200 OK\r\nContent-Type: application/octet-stream\r\nContent-Length: 24\r\nConnection: close\r\n\r\n\x01\0\0\0\0\0\0\0\x08\0\0\0\0\0\0\0\0\0\0\0\0\0\0\0";

/// Whether the reader of a reply sees that code.
fn has_code(alloc: Global, bytes: &[u8], code: u16) -> bool {
    match read_reply_head(alloc, bytes) {
        Ok(reply) => reply.code == code,
        Err(_) => false,
    }
}

/// Whether a reply was made whose bytes are these, and its reader sees that code.
fn is_reply(made: Result<Response, HttpError>, alloc: Global, code: u16, text: &[u8]) -> bool {
    match made {
        Ok(response) => is_written(&response, alloc, code, text),
        Err(_) => false,
    }
}

/// Whether the bytes of a reply are these, and its reader sees that code.
fn is_written(response: &Response, alloc: Global, code: u16, text: &[u8]) -> bool {
    match response.bytes(alloc) {
        Ok(bytes) => bytes.as_slice() == text && has_code(alloc, &bytes, code),
        Err(_) => false,
    }
}

#[test]
fn a_status_is_told_in_both_forms(rt: HostRuntime) {
    let alloc = rt.alloc();
    assert!(&rt; is_reply(respond(alloc, true, &STATUS), alloc, 200, STATUS_JSON));
    assert!(&rt; is_reply(respond(alloc, false, &STATUS), alloc, 200, STATUS_BINARY));
}

/// Whether that is the reply with the status to a request with this head.
fn is_answered(alloc: Global, head: &[u8], text: &[u8]) -> bool {
    match read_head(alloc, head) {
        Ok(request) => is_reply(prepare_response(alloc, &request, &STATUS), alloc, 200, text),
        Err(_) => false,
    }
}

#[test]
fn a_reply_has_the_form_that_its_request_asks_for(rt: HostRuntime) {
    let alloc = rt.alloc();
    let curl =
        b"GET /api/v1/scheduler/status HTTP/1.1\r\nAccept: application/json\r\n\r\n".as_slice();
    assert!(&rt; is_answered(alloc, curl, STATUS_JSON));
    let heard = bincode_response(alloc, &HeartbeatServerResult { is_new: true });
    let text =
        b"HTTP/1.1 200 OK\r\nContent-Type: application/octet-stream\r\nContent-Length: 1\r\nConnection: close\r\n\r\n\x01".as_slice();
    assert!(&rt; is_reply(heard, alloc, 200, text));
}

/// Words with the body that a reply gives beside them, and the reply's bytes.
const WORDS: &[(Word, &str, &[u8])] = &[
    (
        Word::InvalidJwt,
        "x",
        b"HTTP/1.1 401 Unauthorized\r\nWWW-Authenticate: Bearer error=\"invalid_jwt\"\r\nContent-Length: 1\r\nConnection: close\r\n\r\nx",
    ),
    (
        Word::LinkFailed,
        "",
        b"HTTP/1.1 401 Unauthorized\r\nWWW-Authenticate: Bearer error=\"bearer_auth_failed\"\r\nContent-Length: 0\r\nConnection: close\r\n\r\n",
    ),
];

/// Whether a reply with that word and that body has these bytes.
fn is_challenge(alloc: Global, word: Word, body: &str, text: &[u8]) -> bool {
    match Text::of(alloc, body) {
        Ok(body) => is_written(&Response::Unauthorised(word, body), alloc, 401, text),
        Err(_) => false,
    }
}

#[test]
fn words_are_shown_as_a_challenge(rt: HostRuntime) {
    for (word, body, text) in WORDS {
        assert!(&rt; is_challenge(rt.alloc(), *word, body, text), "{word}");
    }
}

const SERVER: Addr = Addr::V4([127, 0, 0, 1], 10501);

/// Whether that JSON is told of the fault.
fn is_told(alloc: Global, fault: &RouteFault, want: &str) -> bool {
    let response = fault_response(alloc, fault);
    match &response {
        Ok(Response::ServerError(json)) => json.get() == want,
        _ => false,
    }
}

#[test]
fn faults_without_a_cause_are_told(rt: HostRuntime) {
    let alloc = rt.alloc();
    let cpus =
        "{\"cause\":null,\"description\":\"Invalid number of CPUs (0) specified in heartbeat\"}";
    assert!(&rt; is_told(alloc, &RouteFault::BadCpus(0), cpus));
    let unknown = "{\"cause\":null,\"description\":\"Unknown job\"}";
    assert!(&rt; is_told(alloc, &RouteFault::UnknownJob, unknown));
    let server = RouteFault::WrongServer(JobId(4096), ServerId::new(SERVER));
    let elsewhere =
        "{\"cause\":null,\"description\":\"Job id 4096 is not registered on server ServerId(127.0.0.1:10501)\"}";
    assert!(&rt; is_told(alloc, &server, elsewhere));
    let transition = RouteFault::BadTransition(JobState::Started, JobState::Started);
    let again =
        "{\"cause\":null,\"description\":\"Invalid job state transition from started to started\"}";
    assert!(&rt; is_told(alloc, &transition, again));
    let spent = "{\"cause\":null,\"description\":\"No job ids left\"}";
    assert!(&rt; is_told(alloc, &RouteFault::IdsSpent, spent));
}

/// What became of the reservation, why the call failed, and what is told of both.
const FAILED: &[(Undone, CallFault, &str)] = &[
    (
        Undone::Unassigned,
        CallFault::Lost,
        "{\"cause\":{\"cause\":{\"cause\":null,\"description\":\"no reply\"},\"description\":\"POST to scheduler assign_job failed\"},\"description\":\"assign job failed, job un-assigned from the server\"}",
    ),
    (
        Undone::NotKnown,
        CallFault::Status(201),
        "{\"cause\":{\"cause\":{\"cause\":null,\"description\":\"Error 201\"},\"description\":\"POST to scheduler assign_job failed\"},\"description\":\"assign job failed and job not known to the server\"}",
    ),
    (
        Undone::Foreign,
        CallFault::Unreadable,
        "{\"cause\":{\"cause\":{\"cause\":null,\"description\":\"unreadable reply\"},\"description\":\"POST to scheduler assign_job failed\"},\"description\":\"assign job failed and job not known to the server\"}",
    ),
    (
        Undone::NoServer,
        CallFault::BadState(JobState::Started),
        "{\"cause\":{\"cause\":{\"cause\":null,\"description\":\"state started in an assignment\"},\"description\":\"POST to scheduler assign_job failed\"},\"description\":\"assign job failed and server not known\"}",
    ),
];

#[test]
fn failed_assignments_are_told_with_their_causes(rt: HostRuntime) {
    for (undone, call, want) in FAILED {
        let fault = RouteFault::AssignFailed(*undone, *call);
        assert!(&rt; is_told(rt.alloc(), &fault, want), "{want}");
    }
}

#[test]
fn a_fault_is_written_whole(rt: HostRuntime) {
    let spent = fault_response(rt.alloc(), &RouteFault::IdsSpent);
    let text =
        b"HTTP/1.1 500 Internal Server Error\r\nContent-Type: application/json\r\nContent-Length: 46\r\nConnection: close\r\n\r\n{\"cause\":null,\"description\":\"No job ids left\"}".as_slice();
    assert!(&rt; is_reply(spent, rt.alloc(), 500, text));
}

/// The JSON of two texts, the second the cause of the first.
fn json(rt: &impl Abort, alloc: Global, text: &str, cause: &str) -> String {
    let texts = [
        Text::of(alloc, text).expect(rt, "memory"),
        Text::of(alloc, cause).expect(rt, "memory"),
    ];
    let json = ErrJson::new(alloc, &texts).expect(rt, "memory");
    json.into_data(alloc).expect(rt, "memory")
}

#[test]
fn texts_are_escaped(rt: HostRuntime) {
    assert!(&rt;
        json(&rt, rt.alloc(), "a \"b\"\\\n\u{1}\u{e9}", "/").as_str()
            == "{\"cause\":{\"cause\":null,\"description\":\"/\"},\"description\":\"a \\\"b\\\"\\\\\\n\\u0001\u{e9}\"}"
    );
}

/// Whether that text was made.
fn is_text(made: Result<Text, HttpError>, want: &str) -> bool {
    match made {
        Ok(text) => text.get() == want,
        Err(_) => false,
    }
}

/// Whether the error is shown by that text.
fn is_shown(alloc: Global, error: RouilleBincodeError, want: &str) -> bool {
    match format!(in alloc; "{error}") {
        Ok(text) => text.as_str() == want,
        Err(_) => false,
    }
}

#[test]
fn texts_are_told(rt: HostRuntime) {
    let alloc = rt.alloc();
    let none = "Insufficient capacity across 1 available servers";
    assert!(&rt; is_text(no_room_text(alloc, 1), none));
    let dropped = "Job 4096 assignment was cleaned up before allocation completed";
    assert!(&rt; is_text(dropped_text(alloc, JobId(4096)), dropped));
    let taken = "the body of the request was already extracted";
    assert!(&rt; is_shown(alloc, RouilleBincodeError::BodyAlreadyExtracted, taken));
}
