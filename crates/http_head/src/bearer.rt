//! The token that a request shows (RFC 6750, section 2.1).
ghost use Rattle.std.specs.Prelude.{◌≡◌, option_copied};
ghost use Rattle.http_head.specs.Bearer.{token_in};

use dist_types::addr::cut_at;

/// The token of an Authorization: what follows `Bearer` and a space. None where there is no such text.
#[tactic(auto, unfolding(crate::specs::Bearer::token_in))]
pub fn token_in(text: Option<&str>) -> Option<&str>
    ensures { option_copied result ≡ token_in (option_copied text.entry) }
{
    let (scheme, token) = cut_at(text?, ' ')?;
    if scheme == "Bearer" {
        Some(token)
    } else {
        None
    }
}
