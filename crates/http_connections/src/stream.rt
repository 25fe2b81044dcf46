//! Streams of the system with limits on their waiting.
ghost use Rattle.std.specs.Io.{ReadsAtMost};

use crate::lot::now_of;
use std::io::{self, ErrorKind, Read, Write};
use std::net::TcpStream;
use std::time::{Clock, Duration};

/// How long a link that was accepted may send nothing, or take nothing, in milliseconds; then it fails.
pub const LINK_TIMEOUT_MS: u64 = 30_000;

/// In how many milliseconds a link that a worker reads, and waits for, sends `WINDOW_BYTES` at least.
pub const WINDOW_MS: u64 = 10_000;

/// How many bytes of a body that a worker waits for come in any `WINDOW_MS` milliseconds at least.
pub const WINDOW_BYTES: usize = 65_536;

/// The bytes that a worker waits for.
#[derive(Clone, Copy, Debug)]
struct Window {
    /// When it began, in milliseconds.
    since_ms: u64,
    /// How many bytes came since then.
    came: usize,
}

/// A stream whose calls do not wait, until one would: from then on they wait, each for so many milliseconds
/// at most, and of what is read then `WINDOW_BYTES` come in any `WINDOW_MS` milliseconds.
#[derive(Drop)]
pub struct LimitedStream<C> {
    clock: C,
    stream: TcpStream,
    timeout_ms: u64,
    window: Option<Window>,
}

/// The fault of a stream whose time is up.
fn timed_out() -> io::Error {
    io::Error::from(ErrorKind::TimedOut)
}

impl<C: Clock> LimitedStream<C> {
    /// A stream whose calls do not wait, of at least 1 millisecond where they would. It takes no memory.
    pub fn new(clock: C, stream: TcpStream, timeout_ms: u64) -> Self {
        LimitedStream {
            clock,
            stream,
            timeout_ms,
            window: None,
        }
    }

    /// From now on its calls wait.
    fn wait(&mut self) -> io::Result<()> {
        let limit = Some(Duration::from_millis(self.timeout_ms));
        self.stream.set_write_timeout(limit)?;
        self.stream.set_nonblocking(false)?;
        self.window = Some(Window {
            since_ms: now_of(&self.clock, 0),
            came: 0,
        });
        Ok(())
    }

    /// Whether a call that failed so is made again, with waiting.
    fn is_early(&self, fault: &io::Error) -> bool {
        self.window.is_none() && fault.kind() == ErrorKind::WouldBlock
    }

    /// One read that may wait as long as the window says.
    fn read_waiting(&mut self, window: Window, buf: &mut [u8]) -> io::Result<usize>
        ensures in_bounds { ReadsAtMost result buf.new }
    {
        let passed_ms = now_of(&self.clock, window.since_ms).saturating_sub(window.since_ms);
        if passed_ms >= WINDOW_MS {
            return Err(timed_out());
        }
        let left_ms = WINDOW_MS.saturating_sub(passed_ms).min(self.timeout_ms);
        let limit = Some(Duration::from_millis(left_ms.max(1)));
        self.stream.set_read_timeout(limit)?;
        let n = self.stream.read(buf)?;
        let came = window.came.saturating_add(n);
        self.window = if came >= WINDOW_BYTES {
            Some(Window {
                since_ms: now_of(&self.clock, window.since_ms),
                came: 0,
            })
        } else {
            Some(Window {
                since_ms: window.since_ms,
                came,
            })
        };
        Ok(n)
    }
}

impl<C: Clock> Read for LimitedStream<C> {
    fn read(&mut self, buf: &mut [u8]) -> io::Result<usize> {
        if let Some(window) = self.window {
            return self.read_waiting(window, buf);
        }
        match self.stream.read(buf) {
            Ok(n) => Ok(n),
            Err(fault) => {
                if !self.is_early(&fault) {
                    return Err(fault);
                }
                self.wait()?;
                match self.window {
                    Some(window) => self.read_waiting(window, buf),
                    None => Err(fault),
                }
            }
        }
    }
}

impl<C: Clock> Write for LimitedStream<C> {
    fn write(&mut self, buf: &[u8]) -> io::Result<usize> {
        match self.stream.write(buf) {
            Ok(n) => Ok(n),
            Err(fault) => {
                if !self.is_early(&fault) {
                    return Err(fault);
                }
                self.wait()?;
                self.stream.write(buf)
            }
        }
    }

    fn flush(&mut self) -> io::Result<()> {
        self.stream.flush()
    }
}
