//! Requests, built part by part.
ghost use Rattle.std.specs.Prelude.{◌≡◌, ℕ, List, Some, None, string_bytes, unwrap_or, OnOk, IfOk, IfErr};
ghost use Rattle.http_head.specs.declared.written_request.Method.TheVariants.{Get, Post};
ghost use Rattle.http_head.specs.WrittenRequest.{request_text};
ghost use Rattle.url.specs.Host.{host_text};
ghost use Rattle.url.specs.Parts.{host_or_empty};
ghost use Rattle.http_routes.specs.Builder.{target_of, host_of};

use crate::error::HttpError;
use dist_types::text::{Bytes, Text};
use dist_wire::error::WireError;
use dist_wire::message::Message;
use http_head::written_request::{Method, WrittenRequest};
use std::alloc::Global;
use std::marker::Model;
use url::Url;

/// A request that is being built, which contracts see as its parts.
#[derive(Debug, Drop)]
pub struct RequestBuilder {
    written: WrittenRequest,
}

impl Model for RequestBuilder {
    ghost use Rattle.http_head.specs.declared.written_request.WrittenRequest.{WrittenRequest};

    ghost Value = { WrittenRequest };

    ghost view = { λ b. b.written };
}

/// The target of a URL: its path, and `?` and its query where it has one.
fn target_of(alloc: Global, url: &Url) -> Result<Text, HttpError>
    ensures ok { IfOk result (λ target. target ≡ target_of url.now) }
    ensures err { IfErr result (λ e. e ≡ HttpError.Memory) }
{
    let path = url.path();
    match url.query() {
        Some(query) => {
            let target = format!(in alloc; "{path}?{query}")?;
            Ok(Text::new(target))
        }
        None => {
            let target = Text::of(alloc, path)?;
            Ok(target)
        }
    }
}

/// The host of a URL as it writes it.
pub fn host_text<'a>(url: &'a Url) -> &'a str
    ensures { result.now ≡ host_text (host_or_empty url.now) }
{
    match url.host_str() {
        Some(host) => host,
        None => "",
    }
}

/// The port of a URL, which is 80 where it names none.
pub fn port_of(url: &Url) -> u16
    ensures { result ≡ unwrap_or url.now.port 80 }
{
    match url.port() {
        Some(port) => port,
        None => 80,
    }
}

/// The host and the port of a URL, which is 80 where it names none.
fn host_of(alloc: Global, url: &Url) -> Result<Text, HttpError>
    ensures ok { IfOk result (λ host. host ≡ host_of url.now) }
    ensures err { IfErr result (λ e. e ≡ HttpError.Memory) }
{
    let host = host_text(url);
    let port = port_of(url);
    let host = format!(in alloc; "{host}:{port}")?;
    Ok(Text::new(host))
}

/// A request with neither token nor body.
fn begun(method: Method, target: Text, host: Text) -> RequestBuilder
    ensures { result ≡ record {
      method = method;
      target = target;
      host = host;
      token = None;
      body = None;
    } }
{
    let written = WrittenRequest {
        method,
        target,
        host,
        token: None,
        body: None,
    };
    RequestBuilder { written }
}

impl RequestBuilder {
    /// A GET of a URL. Refused for want of memory alone.
    pub fn get(alloc: Global, url: &Url) -> Result<RequestBuilder, HttpError>
        ensures ok { IfOk result (λ b. b ≡ record {
          method = Get;
          target = target_of url.now;
          host = host_of url.now;
          token = None;
          body = None;
        }) }
        ensures err { IfErr result (λ e. e ≡ HttpError.Memory) }
    {
        let target = target_of(alloc, url)?;
        let host = host_of(alloc, url)?;
        Ok(begun(Method::Get, target, host))
    }

    /// A POST to a URL. Refused for want of memory alone.
    pub fn post(alloc: Global, url: &Url) -> Result<RequestBuilder, HttpError>
        ensures ok { IfOk result (λ b. b ≡ record {
          method = Post;
          target = target_of url.now;
          host = host_of url.now;
          token = None;
          body = None;
        }) }
        ensures err { IfErr result (λ e. e ≡ HttpError.Memory) }
    {
        let target = target_of(alloc, url)?;
        let host = host_of(alloc, url)?;
        Ok(begun(Method::Post, target, host))
    }

    /// A POST of a target to a host, both as they are to be written. It takes no memory.
    pub fn post_to(target: String, host: String) -> RequestBuilder
        ensures { result ≡ record {
          method = Post;
          target = string_bytes target;
          host = string_bytes host;
          token = None;
          body = None;
        } }
    {
        begun(Method::Post, Text::new(target), Text::new(host))
    }

    /// The same under that token. Refused for want of memory alone.
    pub fn bearer_auth(self, token: &str) -> Result<RequestBuilder, HttpError>
        ensures ok { IfOk result (λ b. b ≡ record self { token = Some token.now }) }
        ensures err { IfErr result (λ e. e ≡ HttpError.Memory) }
    {
        let RequestBuilder { written } = self;
        let WrittenRequest {
            method,
            target,
            host,
            token: _,
            body,
        } = written;
        let token = Text::of(target.alloc(), token)?;
        let written = WrittenRequest {
            method,
            target,
            host,
            token: Some(token),
            body,
        };
        Ok(RequestBuilder { written })
    }

    /// The bytes of the request. Refused for want of memory alone.
    pub fn build(self) -> Result<Vec<u8>, HttpError>
        ensures ok { IfOk result (λ bytes. bytes.items ≡ request_text self) }
        ensures err { IfErr result (λ e. e ≡ HttpError.Memory) }
    {
        let alloc = self.written.target.alloc();
        let bytes = self.written.bytes(alloc)?;
        Ok(bytes.into_inner())
    }
}

/// The bodies that a request may have.
pub trait ReqwestRequestBuilderExt {
    /// The same with that body.
    ghost with_body: { Self → List ℕ → Self };

    /// The same with a message as its body, in binary. Refused for want of memory alone.
    fn bincode<M: Message>(self, message: &M) -> Result<Self, HttpError>
        ensures ok { IfOk result (λ b. b ≡ with_body self (M.text message.now)) }
        ensures spelled { OnOk result (M.spells message.now (M.text message.now)) }
        ensures err { IfErr result (λ e. e ≡ HttpError.Memory) };

    /// The same with that body. It takes no memory.
    fn bytes(self, bytes: Vec<u8>) -> Result<Self, HttpError>
        ensures ok { IfOk result (λ b. b ≡ with_body self bytes.items) }
        ensures err { IfErr result (λ e. e ≡ HttpError.Memory) };
}

/// The same request with that body.
fn with_body(written: WrittenRequest, bytes: Vec<u8>) -> WrittenRequest
    ensures { result ≡ record written { body = Some bytes.items } }
{
    let WrittenRequest {
        method,
        target,
        host,
        token,
        body: _,
    } = written;
    WrittenRequest {
        method,
        target,
        host,
        token,
        body: Some(Bytes::new(bytes)),
    }
}

/// A body stands behind the empty line, also of a GET, whose head tells no length of it.
impl ReqwestRequestBuilderExt for RequestBuilder {
    ghost with_body = { λ b body. record b { body = Some body } };

    fn bincode<M: Message>(self, message: &M) -> Result<Self, HttpError> {
        let RequestBuilder { written } = self;
        match message.write(written.target.alloc()) {
            Ok(bytes) => Ok(RequestBuilder {
                written: with_body(written, bytes),
            }),
            Err(WireError::Memory) => Err(HttpError::Memory),
            Err(WireError::ParseError) => unreachable!(),
        }
    }

    fn bytes(self, bytes: Vec<u8>) -> Result<Self, HttpError> {
        let RequestBuilder { written } = self;
        Ok(RequestBuilder {
            written: with_body(written, bytes),
        })
    }
}
