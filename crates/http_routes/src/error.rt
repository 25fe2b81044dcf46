//! Why a call or a route refuses.
ghost use Rattle.std.specs.Prelude.{◌≡◌};
ghost use Rattle.http_routes.specs.Steps.{of_wire};

use dist_wire::error::WireError;
pub use http_head::error::HttpError;

/// Why a message was not read or written.
pub(crate) fn of_wire(e: WireError) -> HttpError
    ensures { result ≡ of_wire e }
{
    match e {
        WireError::ParseError => HttpError::ParseError,
        WireError::Memory => HttpError::Memory,
    }
}
