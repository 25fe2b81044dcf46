//! Replies: the kinds that are written, with their bytes, and a reply as its reader sees it.
ghost use Rattle.std.specs.Prelude.{◌≡◌, IfOk, IfErr};
ghost use Rattle.http_routes.specs.Reply.{body_of, reply_text, response_of};
ghost use Rattle.http_routes.specs.Route.{wants_json};
ghost use Rattle.http_routes.specs.declared.reply.Response.TheVariants.{Binary};

use crate::error::{HttpError, of_wire};
use crate::request::Request;
use crate::route::wants_json;
use dist_types::text::{Bytes, Text};
use dist_wire::message::Message;
pub use http_head::reply::Reply;
pub use http_head::word::Word;
use std::alloc::Global;
use std::fmt;

/// A reply that is written, by its kind.
#[derive(Debug, Drop)]
pub enum Response {
    /// 200 with a message in binary.
    Binary(Bytes),
    /// 200 with a message in JSON.
    Json(Text),
    /// 400 with a fault of the request in JSON.
    BadRequest(Text),
    /// 500 with another fault in JSON.
    ServerError(Text),
    /// 400 with no body: the header X-Real-IP is no IP.
    BadRealIp,
    /// 401 with its word and a body.
    Unauthorised(Word, Text),
    /// 404 with no body.
    NotFound,
}

/// The status line and the fields before the length.
#[derive(Drop)]
struct Opening<'a>(&'a Response);

impl fmt::Display for Opening<'_> {
    ghost use Rattle.std.specs.Prelude.{Some};
    ghost use Rattle.http_routes.specs.Reply.{opening_text};

    ghost output = { λ o. Some (opening_text o.0.now) };

    fn fmt<W: fmt::Write>(&self, f: &mut fmt::Formatter<W>) -> fmt::Result {
        match self.0 {
            Response::Binary(_) => {
                write!(
                    f,
                    "HTTP/1.1 200 OK\r\nContent-Type: application/octet-stream\r\n"
                )
            }
            Response::Json(_) => {
                write!(f, "HTTP/1.1 200 OK\r\nContent-Type: application/json\r\n")
            }
            Response::BadRequest(_) => {
                write!(
                    f,
                    "HTTP/1.1 400 Bad Request\r\nContent-Type: application/json\r\n"
                )
            }
            Response::ServerError(_) => write!(
                f,
                "HTTP/1.1 500 Internal Server Error\r\nContent-Type: application/json\r\n"
            ),
            Response::BadRealIp => write!(f, "HTTP/1.1 400 Bad Request\r\n"),
            Response::Unauthorised(word, _) => write!(
                f,
                "HTTP/1.1 401 Unauthorized\r\nWWW-Authenticate: Bearer error=\"{word}\"\r\n"
            ),
            Response::NotFound => write!(f, "HTTP/1.1 404 Not Found\r\n"),
        }
    }
}

/// How many bytes the head of most replies has, at most.
const MOST_OF_HEAD: usize = 128;

impl Response {
    /// The bytes of the body.
    fn body(&self) -> &[u8]
        ensures { result.now ≡ body_of self.now }
    {
        match self {
            Response::Binary(body) => body.get(),
            Response::Json(body) => body.get().as_bytes(),
            Response::BadRequest(body) => body.get().as_bytes(),
            Response::ServerError(body) => body.get().as_bytes(),
            Response::BadRealIp => &[],
            Response::Unauthorised(_, body) => body.get().as_bytes(),
            Response::NotFound => &[],
        }
    }

    /// The bytes of the reply. Refused for want of memory alone.
    #[tactic(auto, unfolding(crate::specs::Reply::reply_text))]
    pub fn bytes(&self, alloc: Global) -> Result<Vec<u8>, HttpError>
        ensures ok { IfOk result (λ bytes. bytes.items ≡ reply_text self.now) }
        ensures err { IfErr result (λ e. e ≡ HttpError.Memory) }
    {
        let body = self.body();
        let opening = Opening(self);
        let len = body.len();
        let room = MOST_OF_HEAD.saturating_add(len);
        let mut head = String::with_capacity(alloc, room)?;
        write!(
            head,
            "{opening}Content-Length: {len}\r\nConnection: close\r\n\r\n"
        )?;
        let mut bytes = head.into_bytes();
        bytes.extend_from_slice(body)?;
        Ok(bytes)
    }
}

/// The reply 200 with a message, in JSON or in binary. Refused for want of memory alone.
pub fn respond<M: Message>(alloc: Global, json: bool, content: &M) -> Result<Response, HttpError>
    ensures ok { IfOk result (λ response. response ≡ response_of M.text M.json json content.now) }
    ensures err { IfErr result (λ e. e ≡ HttpError.Memory) }
{
    if json {
        return match content.to_json(alloc) {
            Ok(text) => Ok(Response::Json(Text::new(text))),
            Err(e) => Err(of_wire(e)),
        };
    }
    bincode_response(alloc, content)
}

/// The reply 200 with a message in binary. Refused for want of memory alone.
pub fn bincode_response<M: Message>(alloc: Global, content: &M) -> Result<Response, HttpError>
    ensures ok { IfOk result (λ response. response ≡ Binary (M.text content.now)) }
    ensures err { IfErr result (λ e. e ≡ HttpError.Memory) }
{
    match content.write(alloc) {
        Ok(bytes) => Ok(Response::Binary(Bytes::new(bytes))),
        Err(e) => Err(of_wire(e)),
    }
}

/// The reply 200 with a message, in the form that the request asks for. Refused for want of memory alone.
pub fn prepare_response<M: Message>(
    alloc: Global,
    request: &Request,
    content: &M,
) -> Result<Response, HttpError>
    ensures ok { IfOk result (λ response. response
        ≡ response_of M.text M.json (wants_json request.now) content.now) }
    ensures err { IfErr result (λ e. e ≡ HttpError.Memory) }
{
    respond(alloc, wants_json(request), content)
}
