//! The network for asking peers within limits.
use crate::lot::now_of;
use std::io::{self, ErrorKind, Read, Write};
use std::net::{Net, OpenListener, OpenStream, SocketAddr};
use std::os::fd::{AsRawFd, RawFd};
use std::time::{Clock, Duration};

/// The limits of what is asked of a peer, in milliseconds; each at least 1.
#[derive(Clone, Copy, Debug, PartialEq, Eq)]
pub struct Limits {
    /// How long a connection takes to be made, at most.
    pub connect_ms: u64,
    /// How long it takes from there to the whole reply, at most.
    pub reply_ms: u64,
}

/// The limits of an assignment, of a question about a client's token and of a heartbeat.
pub const SHORT_LIMITS: Limits = Limits {
    connect_ms: 2_000,
    reply_ms: 5_000,
};

/// The limits of the report of a job's state.
pub const REPORT_LIMITS: Limits = Limits {
    connect_ms: 30_000,
    reply_ms: 30_000,
};

/// A stream that fails once its time is up.
#[derive(Drop)]
pub struct TimedStream<C, S> {
    clock: C,
    stream: S,
    /// When its time is up, in milliseconds.
    until_ms: u64,
}

impl<C: Clock, S: OpenStream> TimedStream<C, S> {
    /// The time that is left. Refused where it is up.
    fn left(&self) -> io::Result<Duration> {
        let now_ms = now_of(&self.clock, self.until_ms);
        if now_ms >= self.until_ms {
            return Err(io::Error::from(ErrorKind::TimedOut));
        }
        Ok(Duration::from_millis(self.until_ms.saturating_sub(now_ms)))
    }
}

impl<C: Clock, S: Read + OpenStream> Read for TimedStream<C, S> {
    fn read(&mut self, buf: &mut [u8]) -> io::Result<usize> {
        let left = self.left()?;
        self.stream.set_read_timeout(Some(left))?;
        self.stream.read(buf)
    }
}

impl<C: Clock, S: Write + OpenStream> Write for TimedStream<C, S> {
    fn write(&mut self, buf: &[u8]) -> io::Result<usize> {
        let left = self.left()?;
        self.stream.set_write_timeout(Some(left))?;
        self.stream.write(buf)
    }

    fn flush(&mut self) -> io::Result<()> {
        self.stream.flush()
    }
}

impl<C, S: OpenStream> OpenStream for TimedStream<C, S> {}

impl<C, S: AsRawFd> AsRawFd for TimedStream<C, S> {
    fn as_raw_fd(&self) -> RawFd {
        self.stream.as_raw_fd()
    }
}

/// A listener whose streams have limits.
#[derive(Drop)]
pub struct TimedListener<C, L> {
    clock: C,
    listener: L,
    reply_ms: u64,
}

impl<C: Clock + Copy, L: OpenListener> OpenListener for TimedListener<C, L> {
    type Stream = TimedStream<C, L::Stream>;

    fn accept(&self) -> io::Result<(Self::Stream, SocketAddr)> {
        let (stream, peer) = self.listener.accept()?;
        Ok((timed(self.clock, stream, self.reply_ms), peer))
    }
}

impl<C, L: AsRawFd> AsRawFd for TimedListener<C, L> {
    fn as_raw_fd(&self) -> RawFd {
        self.listener.as_raw_fd()
    }
}

/// A stream whose time is up in so many milliseconds.
fn timed<C: Clock, S>(clock: C, stream: S, reply_ms: u64) -> TimedStream<C, S> {
    let now_ms = now_of(&clock, 0);
    TimedStream {
        clock,
        stream,
        until_ms: now_ms.saturating_add(reply_ms),
    }
}

/// A network for asking peers within limits: a connection that is not made in time, or whose whole reply is not
/// there in time, fails.
#[derive(Drop)]
pub struct LimitedNet<N> {
    net: N,
    limits: Limits,
}

impl<N> LimitedNet<N> {
    /// The network, with these limits. It takes no memory.
    pub fn new(net: N, limits: Limits) -> Self {
        LimitedNet { net, limits }
    }
}

impl<N: Net + Clock + Copy> Net for LimitedNet<N> {
    type Stream = TimedStream<N, N::Stream>;

    type Listener = TimedListener<N, N::Listener>;

    fn bind(&self, addr: SocketAddr) -> io::Result<Self::Listener> {
        Ok(TimedListener {
            clock: self.net,
            listener: self.net.bind(addr)?,
            reply_ms: self.limits.reply_ms,
        })
    }

    fn connect(&self, addr: SocketAddr) -> io::Result<Self::Stream> {
        let limit = Duration::from_millis(self.limits.connect_ms);
        let stream = self.net.connect_timeout(addr, limit)?;
        Ok(timed(self.net, stream, self.limits.reply_ms))
    }

    fn lookup_host(&self, host: &str, port: u16, found: &mut [SocketAddr]) -> io::Result<usize> {
        self.net.lookup_host(host, port, found)
    }
}
