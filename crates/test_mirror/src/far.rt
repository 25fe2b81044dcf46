//! The far side of a mirror at a port of this machine.
use crate::archives::Archives;
use crate::connection::serve_mirror_connection;
use crate::stopped::Stopped;
use dist_types::tcp::TcpLink;
use std::net::TcpListener;

/// Listens at a port of 127.0.0.1, or at a free one where it is 0, writes which one, and serves connection after
/// connection until the listener fails.
pub fn serve_all(rt: HostRuntime, archives: &mut Archives, port: u16) -> Result<(), Stopped> {
    let listener = TcpListener::bind(&rt, ("127.0.0.1", port))?;
    println!(rt; "listens at {}", listener.local_addr()?.port())?;
    for stream in listener.incoming() {
        let mut link = TcpLink::new(stream?);
        let _served = serve_mirror_connection(rt.alloc(), archives, &mut link);
    }
    Ok(())
}
