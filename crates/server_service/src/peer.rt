//! The scheduler at a base, as it is dialed, and the token that it is told under.
ghost use Rattle.std.specs.Prelude.{◌≡◌, [], unwrap_or, option_map};
ghost use Rattle.url.specs.Host.{host_text};
ghost use Rattle.url.specs.Parts.{host_or_empty, nonempty_host};

use url::Url;

/// Whom a build server tells: the scheduler at a base, under a token of the server.
#[derive(Clone, Copy)]
pub(crate) struct Peer<'a> {
    /// Where the scheduler stands.
    pub base: &'a Url,
    /// What the server shows.
    pub token: &'a str,
}

/// The host of a base, unless it is missing or empty.
fn named_host(base: &Url) -> &str
    ensures { result.now ≡ unwrap_or (option_map host_text (nonempty_host base.now)) [] }
{
    base.host_str().unwrap_or("")
}

/// The host of a base, an address of eight groups in its brackets.
#[tactic(auto, using(crate::proofs::PeerLemmas::dialed_host))]
pub(crate) fn host_of(base: &Url) -> &str
    ensures { result.now ≡ host_text (host_or_empty base.now) }
{
    named_host(base)
}

/// The port of a base, 80 where it names none.
pub(crate) fn port_of(base: &Url) -> u16
    ensures { result ≡ unwrap_or base.now.port 80 }
{
    base.port().unwrap_or(80)
}
