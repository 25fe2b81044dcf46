//! An address as it is dialed: its host's text and its port.
ghost use Rattle.std.specs.Prelude.{◌≡◌};
ghost use Rattle.scheduler_service.specs.Requested.{port_of};

use dist_types::addr::Addr;
use std::fmt;
use std::net::Ipv6Addr;

/// The host of an address, eight groups in brackets.
#[derive(Drop)]
pub(crate) struct Host(pub(crate) Addr);

impl fmt::Display for Host {
    ghost use Rattle.std.specs.Prelude.{Some};
    ghost use Rattle.scheduler_service.specs.Requested.{host_text};

    ghost output = { λ h. Some (host_text h.0) };

    fn fmt<W: fmt::Write>(&self, f: &mut fmt::Formatter<W>) -> fmt::Result {
        match &self.0 {
            Addr::V4(octets, _) => {
                let [a, b, c, d] = octets;
                write!(f, "{a}.{b}.{c}.{d}")
            }
            Addr::V6(groups, _) => {
                let ip = Ipv6Addr::from_segments(*groups);
                write!(f, "[{ip}]")
            }
        }
    }
}

/// The port of an address.
pub(crate) fn port_of(addr: Addr) -> u16
    ensures { result ≡ port_of addr }
{
    match addr {
        Addr::V4(_, port) => port,
        Addr::V6(_, port) => port,
    }
}
