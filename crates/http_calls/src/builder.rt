//! Requests, built part by part: the builder of the crate below, by which the farm writes its requests too.

pub use http_routes::builder::{RequestBuilder, ReqwestRequestBuilderExt};
