//! Asking a server over a dialer, and hearing what its reply says.
ghost use Rattle.std.specs.Prelude.{◌≡◌, ◌≢◌, ◌≤◌, Err, unwrap_or};
ghost use Rattle.dist_types.specs.Cause.{Rose};
ghost use Rattle.url.specs.Host.{host_text};
ghost use Rattle.url.specs.Parts.{host_or_empty};
ghost use Rattle.http_calls.specs.Asking.{Asks, dialed_host};
ghost use Rattle.http_calls.specs.Servers.{port_at};

use crate::reply::resumed;
use crate::servers::port_of as port_at;
use dist_types::addr::Addr;
use dist_types::dialer::{AskFault, Dialer};
use dist_types::fault::Failed;
use dist_types::ids::ServerId;
use dist_wire::message::Message;
use http_head::error::HttpError;
use http_routes::builder::{host_text, port_of};
use std::alloc::Global;
use std::fmt;
use std::net::Ipv6Addr;
use url::Url;

/// An address as it is dialed: its host, eight groups in brackets.
#[derive(Drop)]
struct DialedHost(Addr);

impl fmt::Display for DialedHost {
    ghost use Rattle.std.specs.Prelude.{Some};
    ghost use Rattle.http_calls.specs.Asking.{dialed_host};

    ghost output = { λ h. Some (dialed_host h.0) };

    fn fmt<W: fmt::Write>(&self, f: &mut fmt::Formatter<W>) -> fmt::Result {
        match &self.0 {
            Addr::V4(octets, _) => {
                let [a, b, c, d] = octets;
                write!(f, "{a}.{b}.{c}.{d}")
            }
            Addr::V6(groups, _) => {
                let ip = Ipv6Addr::from_segments(*groups);
                write!(f, "[{ip}]")
            }
        }
    }
}

/// Asks a host at a port, and answers what the reply says: LinkFault exactly where the dialer failed, whose
/// count of faults stays elsewhere.
fn ask<M: Message, D: Dialer>(
    alloc: Global,
    dialer: &mut D,
    host: &str,
    port: u16,
    request: &[u8],
) -> Result<M, HttpError>
    ensures asks { Asks M.at host.now port request.now result (D.asked dialer.old) (D.asked dialer.new) }
    ensures cause { result ≡ Err HttpError.LinkFault → Rose (D.faults dialer.old) (D.faults dialer.new) }
    ensures steady { result ≢ Err HttpError.LinkFault → D.faults dialer.new ≡ D.faults dialer.old }
    ensures later { D.faults dialer.old ≤ D.faults dialer.new }
{
    match dialer.ask(host, port, request) {
        Ok(reply) => resumed(alloc, Ok(&reply)),
        Err(fault) => match fault {
            AskFault::Failed => Err(HttpError::LinkFault),
            AskFault::Memory => Err(HttpError::Memory),
        },
    }
}

/// Asks the host of a URL, at port 80 where it names none.
pub(crate) fn ask_url<M: Message, D: Dialer>(
    alloc: Global,
    dialer: &mut D,
    url: &Url,
    request: &[u8],
) -> Result<M, HttpError>
    ensures asks { Asks M.at (host_text (host_or_empty url.now)) (unwrap_or url.now.port 80) request.now
        result (D.asked dialer.old) (D.asked dialer.new) }
    ensures cause { result ≡ Err HttpError.LinkFault → Rose (D.faults dialer.old) (D.faults dialer.new) }
    ensures steady { result ≢ Err HttpError.LinkFault → D.faults dialer.new ≡ D.faults dialer.old }
    ensures later { D.faults dialer.old ≤ D.faults dialer.new }
{
    let answer = ask(alloc, dialer, host_text(url), port_of(url), request);
    answer
}

/// Asks a server at its address.
pub(crate) fn ask_server<M: Message, D: Dialer>(
    alloc: Global,
    dialer: &mut D,
    server: ServerId,
    request: &[u8],
) -> Result<M, HttpError>
    ensures asks { Asks M.at (dialed_host server) (port_at server) request.now result (D.asked dialer.old)
        (D.asked dialer.new) }
    ensures cause { result ≡ Err HttpError.LinkFault → Rose (D.faults dialer.old) (D.faults dialer.new) }
    ensures steady { result ≢ Err HttpError.LinkFault → D.faults dialer.new ≡ D.faults dialer.old }
    ensures later { D.faults dialer.old ≤ D.faults dialer.new }
{
    let addr = server.addr();
    let host = match format!(in alloc; "{}", DialedHost(addr)) {
        Ok(host) => host,
        Err(_) => return Err(HttpError::Memory),
    };
    let answer = ask(alloc, dialer, host.as_str(), port_at(addr), request);
    answer
}
