//! What a client's calls write, and what their replies give.
use dist_types::addr::Addr;
use dist_types::command::CompileCommand;
use dist_types::fault::Failed;
use dist_types::ids::{JobId, ServerId};
use dist_types::results::{AllocJobResult, JobAlloc, RunJobResult, SubmitToolchainResult};
use dist_types::text::{Items, Text};
use dist_types::toolchain::Toolchain;
use http_calls::alloc_call::AllocCall;
use http_calls::builder::{RequestBuilder, ReqwestRequestBuilderExt};
use http_calls::error::HttpError;
use http_calls::run_call::RunCall;
use http_calls::status_call::StatusCall;
use http_calls::submit_call::SubmitCall;
use std::alloc::Global;
use std::process::Abort;
use url::Url;

fn base(rt: &impl Abort, alloc: Global) -> Url {
    Url::parse(alloc, "http://[::1]:10600/x?y").expect(rt, "a URL")
}

fn job(rt: &impl Abort, alloc: Global) -> JobAlloc {
    JobAlloc {
        auth: Text::of(alloc, "a.b.c").expect(rt, "memory"),
        job_id: JobId(4096),
        server_id: ServerId::new(Addr::V6([0, 0, 0, 0, 0, 0xffff, 0x0102, 0x0304], 80)),
    }
}

/// A call that asks for a job.
fn alloc_call(rt: &impl Abort, alloc: Global) -> AllocCall {
    let tc = Toolchain::new("BA7816BF8F01CFEA414140DE5DAE2223B00361A396177A9CB410FF61F20015AD");
    let tc = tc.expect(rt, "a toolchain");
    AllocCall::start(alloc, &base(rt, alloc), "t k", &tc).expect(rt, "a call")
}

/// Whether the reply says that there is no job.
fn fails(call: AllocCall, reply: &[u8]) -> bool {
    let answer = call.resume(Ok(reply));
    matches!(&answer, Ok(AllocJobResult::Fail { .. }))
}

#[test]
fn a_job_is_asked_for(rt: HostRuntime) {
    let call = alloc_call(&rt, rt.alloc());
    assert!(&rt;
        call.request()
            == b"POST /api/v1/scheduler/alloc_job HTTP/1.1\r\nHost: [::1]:10600\r\nAuthorization: Bearer t k\r\nContent-Type: application/octet-stream\r\nContent-Length: 72\r\nConnection: close\r\n\r\n\x40\0\0\0\0\0\0\0ba7816bf8f01cfea414140de5dae2223b00361a396177a9cb410ff61f20015ad".as_slice()
    );
    let reply =
        b"HTTP/1.1 200 OK\r\nContent-Length: 13\r\n\r\n\x01\0\0\0\x01\0\0\0\0\0\0\0x".as_slice();
    assert!(&rt; fails(call, reply));
}

/// A call that asks for the status.
fn status_call(rt: &impl Abort, alloc: Global) -> StatusCall {
    StatusCall::start(alloc, &base(rt, alloc)).expect(rt, "a call")
}

/// Whether those are the servers, the processors and the jobs that the reply counts.
fn counts(call: StatusCall, reply: &[u8], want: (u64, u64, u64)) -> bool {
    match call.resume(Ok(reply)) {
        Ok(told) => (told.num_servers, told.num_cpus, told.in_progress) == want,
        Err(_) => false,
    }
}

#[test]
fn the_status_is_asked_for_without_a_token(rt: HostRuntime) {
    let call = status_call(&rt, rt.alloc());
    assert!(&rt;
        call.request()
            == b"GET /api/v1/scheduler/status HTTP/1.1\r\nHost: [::1]:10600\r\nConnection: close\r\n\r\n".as_slice()
    );
    let reply =
        b"HTTP/1.1 200 OK\r\n\r\n\x01\0\0\0\0\0\0\0\x08\0\0\0\0\0\0\0\0\0\0\0\0\0\0\0".as_slice();
    assert!(&rt; counts(call, reply, (1, 8, 0)));
}

/// A call that brings an archive.
fn submit_call(rt: &impl Abort, alloc: Global) -> SubmitCall {
    SubmitCall::start(alloc, &job(rt, alloc), b"abc").expect(rt, "a call")
}

/// The reply to a call whose answer is the first of its kind.
const FIRST: &[u8] = b"HTTP/1.1 200 OK\r\nContent-Length: 4\r\n\r\n\0\0\0\0";

#[test]
fn an_archive_is_brought_to_the_jobs_server(rt: HostRuntime) {
    let call = submit_call(&rt, rt.alloc());
    assert!(&rt;
        call.request()
            == b"POST /api/v1/distserver/submit_toolchain/4096 HTTP/1.1\r\nHost: [::ffff:1.2.3.4]:80\r\nAuthorization: Bearer a.b.c\r\nContent-Type: application/octet-stream\r\nContent-Length: 3\r\nConnection: close\r\n\r\nabc".as_slice()
    );
    let answer = call.resume(Ok(FIRST));
    assert!(&rt; matches!(&answer, Ok(SubmitToolchainResult::Success)));
}

/// A command without arguments.
fn command(rt: &impl Abort, alloc: Global) -> CompileCommand {
    let executable = Text::of(alloc, "cc").expect(rt, "memory");
    let cwd = Text::of(alloc, "/").expect(rt, "memory");
    CompileCommand {
        executable,
        arguments: Items::new(Vec::new(alloc)),
        env_vars: Items::new(Vec::new(alloc)),
        cwd,
    }
}

/// One output.
fn outputs(rt: &impl Abort, alloc: Global) -> Vec<String> {
    let output = String::from_str(alloc, "o").expect(rt, "memory");
    vec![in alloc; output].expect(rt, "memory")
}

/// A call that runs the command over these inputs.
fn run_call(rt: &impl Abort, alloc: Global, inputs: &[u8]) -> RunCall {
    let command = command(rt, alloc);
    let outputs = outputs(rt, alloc);
    RunCall::start(alloc, &job(rt, alloc), command, outputs, inputs).expect(rt, "a call")
}

#[test]
fn a_run_is_sent_behind_its_length(rt: HostRuntime) {
    let call = run_call(&rt, rt.alloc(), b"in");
    assert!(&rt;
        call.request()
            == b"POST /api/v1/distserver/run_job/4096 HTTP/1.1\r\nHost: [::ffff:1.2.3.4]:80\r\nAuthorization: Bearer a.b.c\r\nContent-Type: application/octet-stream\r\nContent-Length: 58\r\nConnection: close\r\n\r\n\0\0\0\x34\x02\0\0\0\0\0\0\0cc\0\0\0\0\0\0\0\0\0\0\0\0\0\0\0\0\x01\0\0\0\0\0\0\0/\x01\0\0\0\0\0\0\0\x01\0\0\0\0\0\0\0oin".as_slice()
    );
    let answer = call.resume(Ok(FIRST));
    assert!(&rt; matches!(&answer, Ok(RunJobResult::JobNotFound)));
}

/// Why the reply to a status call is no answer.
fn fault(rt: &impl Abort, alloc: Global, reply: Result<&[u8], Failed>) -> HttpError {
    match status_call(rt, alloc).resume(reply) {
        Ok(_) => panic!(rt; "an answer"),
        Err(fault) => fault,
    }
}

#[test]
fn each_reply_that_is_no_answer_is_told(rt: HostRuntime) {
    let alloc = rt.alloc();
    assert!(&rt; matches!(&fault(&rt, alloc, Err(Failed)), HttpError::LinkFault));
    let none = b"HTTP/1.1 200 OK\r\nContent-Length: 1\r\n\r\n\0".as_slice();
    assert!(&rt; matches!(&fault(&rt, alloc, Ok(none)), HttpError::ParseError));
    let cut = b"HTTP/1.1 200 OK\r\nContent-Length: 9\r\n\r\n\0".as_slice();
    assert!(&rt; matches!(&fault(&rt, alloc, Ok(cut)), HttpError::ParseError));
    let created =
        b"HTTP/1.1 201 Created\r\n\r\n\x01\0\0\0\0\0\0\0\x08\0\0\0\0\0\0\0\0\0\0\0\0\0\0\0".as_slice();
    assert!(&rt; matches!(&fault(&rt, alloc, Ok(created)), HttpError::Status(201, _)));
}

/// A request for the URL.
fn get(rt: &impl Abort, alloc: Global, url: &Url) -> Vec<u8> {
    let request = RequestBuilder::get(alloc, url).expect(rt, "a request");
    request.build().expect(rt, "a request")
}

/// A request that brings a body of one byte.
fn post(rt: &impl Abort, alloc: Global, url: &Url) -> Vec<u8> {
    let body = Vec::from_slice(alloc, b"b").expect(rt, "memory");
    let request = RequestBuilder::post(alloc, url).expect(rt, "a request");
    let request = request.bytes(body).expect(rt, "a request");
    request.build().expect(rt, "a request")
}

#[test]
fn a_url_gives_target_and_host(rt: HostRuntime) {
    let url = Url::parse(rt.alloc(), "http://a.example/p?q").expect(&rt, "a URL");
    assert!(&rt;
        get(&rt, rt.alloc(), &url).as_slice()
            == b"GET /p?q HTTP/1.1\r\nHost: a.example:80\r\nConnection: close\r\n\r\n".as_slice()
    );
    assert!(&rt;
        post(&rt, rt.alloc(), &url).as_slice()
            == b"POST /p?q HTTP/1.1\r\nHost: a.example:80\r\nContent-Type: application/octet-stream\r\nContent-Length: 1\r\nConnection: close\r\n\r\nb".as_slice()
    );
}
