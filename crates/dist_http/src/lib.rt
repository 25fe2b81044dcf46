//! Schedulers and build servers over HTTP/1.1 (RFC 9112), under one roof: the names of the crates below
//! again, and `RealServe`, by which a configuration is served on the system.
//!
//! The layers above use the calls on connections and on workers, the starts and `RealServe` from here.
#![tactic(auto)]

pub mod http;
pub mod real_serve;
pub mod starts;

pub use core_rules::HEARTBEAT_TIMEOUT;
pub use dist_config::config::{ClientAuth, SchedulerConfig, ServerAuth, ServerConfig};
pub use dist_config::serve::{MemServe, Serve};
pub use http_calls::alloc_call::AllocCall;
pub use http_calls::builder::{RequestBuilder, ReqwestRequestBuilderExt};
pub use http_calls::run_call::RunCall;
pub use http_calls::status_call::StatusCall;
pub use http_calls::submit_call::SubmitCall;
pub use http_calls::{calls, urls};
pub use http_connections::served::Served;
pub use http_connections::start::{Start, StartFault};
pub use http_connections::tasks::Tasks;
pub use http_head::error::HttpError;
pub use http_head::head::read_head;
pub use http_head::request::Request;
pub use http_head::word::Word;
pub use http_routes::call_reply::read_reply;
pub use http_routes::err_json::ErrJson;
pub use http_routes::refusal::RouilleBincodeError;
pub use http_routes::reply::{Response, bincode_response, prepare_response};
pub use http_routes::route::{SchedRouted, scheduler_route};
pub use http_routes::server_route::{ServerRouted, server_route};
pub use scheduler_service::connection::serve_scheduler_connection;
pub use scheduler_service::run_scheduler::serve_scheduler;
pub use scheduler_service::workers::{Kit, serve_scheduler_kits, serve_scheduler_workers};
pub use server_service::connection::serve_server_connection;
pub use server_service::heartbeat::{HEARTBEAT_FAULT_WAIT_MS, HEARTBEAT_WAIT_MS};
pub use server_service::run_server::serve_server;
pub use server_service::workers::{BuildKit, serve_server_workers};
