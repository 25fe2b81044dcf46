//! Links whose requests are there.
ghost use Rattle.http_connections.specs.Whole.{IsOfKind};

use dist_types::addr::Addr;
use http_routes::kind::{Kind, Role};
use std::net::TcpStream;

/// A link whose request is there.
#[derive(Drop)]
pub struct Asked {
    /// The stream, whose calls do not wait.
    pub stream: TcpStream,
    /// What was read of it.
    pub begun: Vec<u8>,
    /// The peer.
    pub peer: Addr,
    /// Whose listener it came to.
    pub role: Role,
    /// Of what kind the request is; None where its body still comes.
    pub kind: Option<Kind>,
    /// Whether more of it may come.
    pub more_comes: bool,
    /// The kind is the one that the bytes which were read say.
    ghost sorted: { IsOfKind role begun.items more_comes kind },
}
