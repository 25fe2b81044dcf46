//! The form of the reply to what was taken.
ghost use Rattle.std.specs.Prelude.{◌≡◌};
ghost use Rattle.http_connections.specs.Form.{form_of};

use http_head::request::Request;
use http_routes::route::wants_json;

/// Whether the reply is to be in JSON.
pub fn form_of(request: &Option<Request>) -> bool
    ensures { result ≡ form_of request.now }
{
    match request {
        None => false,
        Some(request) => wants_json(request),
    }
}
