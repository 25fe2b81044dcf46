//! The scheduler and the build server that a configuration is of, and the client.
pub use dist_config::start::{Scheduler, Server};
pub use http_calls::http::Client;
