//! The requests that are written.
ghost use Rattle.std.specs.Prelude.{◌≡◌, ◌++◌, IfOk, OnOk, option_copied, string_bytes};
ghost use Rattle.http_head.specs.WrittenRequest.{request_text, head_text, body_of, method_text};
ghost use Rattle.http_head.specs.WrittenRequest.{token_line, content_lines};

use dist_types::text::{Bytes, Text};
use std::alloc::{AllocError, Global};
use std::fmt;

/// The methods that are sent.
#[derive(Clone, Copy, Debug, PartialEq, Eq)]
pub enum Method {
    /// Asks for what is there. It has no body.
    Get,
    /// Brings a body.
    Post,
}

/// The parts of a request that is written.
#[derive(Debug, Drop)]
pub struct WrittenRequest {
    /// The method.
    pub method: Method,
    /// The target: a path, and its query where it has one.
    pub target: Text,
    /// The host and the port that it is sent to.
    pub host: Text,
    /// The token that it shows, if it shows one.
    pub token: Option<Text>,
    /// The body, if one was given.
    pub body: Option<Bytes>,
}

impl fmt::Display for Method {
    ghost use Rattle.std.specs.Prelude.{Some};
    ghost use Rattle.http_head.specs.WrittenRequest.{method_text};

    ghost output = { λ m. Some (method_text m) };

    fn fmt<W: fmt::Write>(&self, f: &mut fmt::Formatter<W>) -> fmt::Result {
        match *self {
            Method::Get => write!(f, "GET"),
            Method::Post => write!(f, "POST"),
        }
    }
}

fn token_of(request: &WrittenRequest) -> Option<&str>
    ensures { option_copied result ≡ request.now.token }
{
    match &request.token {
        Some(token) => Some(token.get()),
        None => None,
    }
}

fn body_of(request: &WrittenRequest) -> &[u8]
    ensures { result.now ≡ body_of request.now }
{
    match &request.body {
        Some(body) => body.get(),
        None => &[],
    }
}

/// How many bytes a head has beside its target, its host and its token, at most.
const REST_OF_HEAD: usize = 160;

/// Room for a whole request, so that it is written in one piece of memory.
fn room_for(request: &WrittenRequest) -> usize {
    let target = request.target.get().len();
    let host = request.host.get().len();
    let token = token_of(request).unwrap_or("").len();
    let body = body_of(request).len();
    REST_OF_HEAD
        .saturating_add(target)
        .saturating_add(host)
        .saturating_add(token)
        .saturating_add(body)
}

fn name_of(method: Method) -> &'static str
    ensures { result.now ≡ method_text method }
{
    match method {
        Method::Get => "GET",
        Method::Post => "POST",
    }
}

/// Adds the line of a token, if there is one.
fn push_token(head: &mut String, token: Option<&str>) -> Result<(), AllocError>
    ensures { OnOk result
        (string_bytes head.new ≡ string_bytes head.old ++ token_line (option_copied token.entry)) }
{
    if let Some(token) = token {
        head.push_str("Authorization: Bearer ")?;
        head.push_str(token)?;
        head.push_str("\r\n")?;
    }
    Ok(())
}

/// Adds the lines of a body of so many bytes.
fn push_content(head: &mut String, method: Method, len: usize) -> Result<(), AllocError>
    ensures { OnOk result (string_bytes head.new ≡ string_bytes head.old ++ content_lines method len) }
{
    match method {
        Method::Get => Ok(()),
        Method::Post => {
            head.push_str("Content-Type: application/octet-stream\r\nContent-Length: ")?;
            write!(head, "{len}")?;
            head.push_str("\r\n")?;
            Ok(())
        }
    }
}

fn head_of(alloc: Global, request: &WrittenRequest) -> Result<String, AllocError>
    ensures { IfOk result (λ head. string_bytes head ≡ head_text request.now) }
{
    let mut head = String::with_capacity(alloc, room_for(request))?;
    head.push_str(name_of(request.method))?;
    head.push_str(" ")?;
    head.push_str(request.target.get())?;
    head.push_str(" HTTP/1.1\r\nHost: ")?;
    head.push_str(request.host.get())?;
    head.push_str("\r\n")?;
    push_token(&mut head, token_of(request))?;
    push_content(&mut head, request.method, body_of(request).len())?;
    head.push_str("Connection: close\r\n\r\n")?;
    Ok(head)
}

impl WrittenRequest {
    /// The bytes of the request. Refused for want of memory alone.
    #[tactic(auto, unfolding(crate::specs::WrittenRequest::request_text))]
    pub fn bytes(&self, alloc: Global) -> Result<Bytes, AllocError>
        ensures text { IfOk result (λ bytes. bytes ≡ request_text self.now) }
    {
        let head = head_of(alloc, self)?;
        let mut bytes = head.into_bytes();
        bytes.extend_from_slice(body_of(self))?;
        Ok(Bytes::new(bytes))
    }
}
