//! Requests, replies, calls, connections and workers.

use dist_http::calls::Client;
use dist_http::urls::{
    scheduler_alloc_job, scheduler_drain_server, scheduler_heartbeat_server, scheduler_job_state,
    scheduler_status, server_assign_job, server_run_job, server_submit_toolchain,
};
use dist_http::{
    AllocCall, BuildKit, ClientAuth, ErrJson, HEARTBEAT_TIMEOUT, HttpError, Kit, MemServe, Request,
    RequestBuilder, ReqwestRequestBuilderExt, Response, RouilleBincodeError, RunCall, SchedRouted,
    SchedulerConfig, Serve, Served, ServerAuth, ServerConfig, ServerRouted, StatusCall, SubmitCall,
    Tasks, Word, bincode_response, http, prepare_response, read_head, read_reply, scheduler_route,
    serve_scheduler_connection, serve_scheduler_workers, serve_server_connection,
    serve_server_workers, server_route,
};

/// The number of each refusal of a call: these are all, in this order.
pub fn number_of(refusal: &HttpError) -> u8 {
    match refusal {
        HttpError::BadHead => 1,
        HttpError::WrongContentType => 2,
        HttpError::ParseError => 3,
        HttpError::BadRealIp => 4,
        HttpError::NoRoute => 5,
        HttpError::Unauthorised(_) => 6,
        HttpError::BadRunHead(_) => 7,
        HttpError::HeadTooLong => 8,
        HttpError::Status(_, _) => 9,
        HttpError::BadBase => 10,
        HttpError::LinkFault => 11,
        HttpError::NotLocal => 12,
        HttpError::Memory => 13,
        HttpError::Packager => 14,
        HttpError::Local(_) => 15,
    }
}
