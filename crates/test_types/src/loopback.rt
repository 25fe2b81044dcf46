//! The system's clock and connections, over loopback.
use dist_types::clock::{Clock, RealClock};
use dist_types::dialer::{AskFault, Dialer};
use dist_types::sink::write_all;
use dist_types::source::read_up_to;
use dist_types::tcp::{TcpDialer, TcpLink};
use std::alloc::Global;
use std::net::{Net, SocketAddr, TcpListener, TcpStream};
use std::test::Fail;
use std::{io, thread};

#[test]
fn clock_of_the_system(rt: HostRuntime) {
    let mut clock = RealClock::new(&rt);
    let first = clock.now();
    assert!(rt; first <= clock.now());
}

#[test]
fn link_over_loopback(rt: HostRuntime) -> Result<(), Fail> {
    let listener = TcpListener::bind(&rt, "127.0.0.1:0")?;
    let mut near = TcpLink::new(TcpStream::connect(&rt, listener.local_addr()?)?);
    let (stream, _) = listener.accept()?;
    let mut far = TcpLink::new(stream);
    assert_eq!(rt; write_all(&mut near, b"ping"), Ok(()));
    assert_eq!(rt;
        read_up_to(rt.alloc(), &mut far, 4)?.as_slice(),
        b"ping".as_slice()
    );
    assert_eq!(rt; write_all(&mut far, b"pong"), Ok(()));
    drop(far);
    assert_eq!(rt;
        read_up_to(rt.alloc(), &mut near, 9)?.as_slice(),
        b"pong".as_slice()
    );
    Ok(())
}

// Answers one request of four bytes.
fn answer(alloc: Global, listener: &TcpListener) -> bool {
    let Ok((stream, _)) = listener.accept() else {
        return false;
    };
    let mut link = TcpLink::new(stream);
    match read_up_to(alloc, &mut link, 4) {
        Ok(request) => request.as_slice() == b"ping".as_slice()
            && write_all(&mut link, b"pong").is_ok(),
        Err(_) => false,
    }
}

#[test]
fn dialer_over_loopback(rt: HostRuntime) -> Result<(), Fail> {
    let alloc = rt.alloc();
    let listener = TcpListener::bind(&rt, "127.0.0.1:0")?;
    let port = listener.local_addr()?.port();
    let mut dialer = TcpDialer::new(alloc, &rt);
    let (reply, answered) = thread::join(
        &rt,
        || dialer.ask("127.0.0.1", port, b"ping"),
        || answer(alloc, &listener),
    );
    assert!(rt; answered);
    assert_eq!(rt; reply?.as_slice(), b"pong".as_slice());
    Ok(())
}

// A network that opens nothing, for a cause of its own.
#[derive(Drop)]
struct NoNet {
    cause: io::ErrorKind,
}

impl Net for NoNet {
    type Stream = TcpStream;

    type Listener = TcpListener;

    fn bind(&self, _addr: SocketAddr) -> io::Result<TcpListener> {
        Err(io::Error::from(self.cause))
    }

    fn connect(&self, _addr: SocketAddr) -> io::Result<TcpStream> {
        Err(io::Error::from(self.cause))
    }
}

fn fault_of(alloc: Global, cause: io::ErrorKind) -> Option<AskFault> {
    let mut dialer = TcpDialer::new(alloc, NoNet { cause });
    dialer.ask("127.0.0.1", 10501, b"ping").err()
}

#[test]
fn a_connection_that_wants_memory_is_no_fault(rt: HostRuntime) {
    let alloc = rt.alloc();
    assert!(rt; fault_of(alloc, io::ErrorKind::OutOfMemory) == Some(AskFault::Memory));
    assert!(rt; fault_of(alloc, io::ErrorKind::ConnectionRefused) == Some(AskFault::Failed));
}
