//! Refusals of calls, as the program tells them.
use disk_cache::ToolchainError;
use http_calls::error::HttpError;
use std::alloc::Global;
use submit_words::refusal::{Refusal, Step};

/// A refusal of the client's toolchains.
pub(crate) fn toolchain(alloc: Global, refusal: ToolchainError) -> Refusal {
    match refusal {
        ToolchainError::Memory => Refusal::Memory,
        other => match format!(in alloc; "{other}") {
            Ok(cause) => Refusal::Toolchain(cause),
            Err(_) => Refusal::Memory,
        },
    }
}

/// The body of a reply, where it is a text.
fn text_of(body: Vec<u8>) -> String {
    match String::from_utf8(body) {
        Ok(text) => text,
        Err(refused) => {
            let bytes = refused.into_bytes();
            String::new(*bytes.allocator())
        }
    }
}

fn named(alloc: Global, cause: &str) -> Refusal {
    match String::from_str(alloc, cause) {
        Ok(cause) => Refusal::Toolchain(cause),
        Err(_) => Refusal::Memory,
    }
}

/// A refusal of a call at a step, by its name.
pub(crate) fn call(alloc: Global, step: Step, refusal: HttpError) -> Refusal {
    match refusal {
        HttpError::BadBase => Refusal::BadBase,
        HttpError::HeadTooLong => Refusal::HeadTooLong,
        HttpError::LinkFault => Refusal::LinkFault(step),
        HttpError::ParseError => Refusal::ParseError(step),
        HttpError::Status(code, body) => Refusal::Status(step, code, text_of(body.into_inner())),
        HttpError::NotLocal => named(alloc, "the archive is not there"),
        HttpError::Packager => named(alloc, "the inputs were not packed"),
        HttpError::Local(refusal) => toolchain(alloc, refusal),
        HttpError::Memory => Refusal::Memory,
        other => match format!(in alloc; "{other}") {
            Ok(cause) => Refusal::Toolchain(cause),
            Err(_) => Refusal::Memory,
        },
    }
}
