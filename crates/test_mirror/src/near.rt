//! The near side of a mirror, whose far side stands at a port of this machine.
use crate::archives::Archives;
use crate::stopped::Stopped;
use dist_types::tcp::TcpDialer;
use dist_types::toolchain::Toolchain;
use mirror::error::MirrorError;
use mirror::got::Got;
use mirror::mirror::Mirror;
use toolchain_cache::toolchain_of;

/// Writes what a get gave: of an archive where it came from, its length, and the SHA-256 of its bytes.
fn tell(rt: HostRuntime, got: Result<Got, MirrorError>) -> Result<(), Stopped> {
    let (word, bytes) = match got {
        Ok(Got::Near(bytes)) => ("near", bytes),
        Ok(Got::Fetched(bytes, true)) => ("fetched", bytes),
        Ok(Got::Fetched(bytes, false)) => ("fetched unlisted", bytes),
        Err(fault) => {
            println!(rt; "{fault}")?;
            return Ok(());
        }
    };
    let tc = toolchain_of(&bytes);
    println!(rt; "{word} {} {}", bytes.len(), tc.archive_id())?;
    Ok(())
}

/// Gets the archive of each id that a line of the input says, and writes what came.
pub fn get_all(rt: HostRuntime, archives: Archives, port: u16) -> Result<(), Stopped> {
    let dialer = TcpDialer::new(rt.alloc(), rt);
    let host = String::from_str(rt.alloc(), "127.0.0.1")?;
    let mut mirror = Mirror::new(archives, dialer, host, port);
    for line in rt.lines(rt.alloc()) {
        match Toolchain::new(&line?) {
            Ok(tc) => tell(rt, mirror.get(&tc))?,
            Err(_) => return Err(Stopped::Words),
        }
    }
    Ok(())
}
