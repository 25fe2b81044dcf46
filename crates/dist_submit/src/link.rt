//! Asks over the network in the time that is left, and shows the heads where that is wanted.
use crate::deadline::Deadline;
use dist_types::dialer::{AskFault, Dialer};
use dist_types::fault::raise;
use dist_types::sink::{Sink, write_all};
use dist_types::source::{ReadError, read_whole};
use dist_types::tcp::{MAX_REPLY, TcpLink};
use std::alloc::Global;
use std::io::{self, ErrorKind, Read, Write};
use std::net::{Net, OpenStream, TcpStream, ToSocketAddrs};
use std::time::Clock;
use submit_words::heads::shown_head;

/// A stream each of whose reads and writes takes no longer than the time that is left.
#[derive(Drop)]
struct TimedStream<'a, S: Read + Write + OpenStream + Drop, C: Clock> {
    stream: S,
    clock: &'a C,
    deadline: Deadline,
}

impl<S: Read + Write + OpenStream + Drop, C: Clock> Read for TimedStream<'_, S, C> {
    fn read(&mut self, buf: &mut [u8]) -> io::Result<usize> {
        let left = self.deadline.left(self.clock)?;
        if left.is_some() {
            self.stream.set_read_timeout(left)?;
        }
        self.stream.read(buf)
    }
}

impl<S: Read + Write + OpenStream + Drop, C: Clock> Write for TimedStream<'_, S, C> {
    fn write(&mut self, buf: &[u8]) -> io::Result<usize> {
        let left = self.deadline.left(self.clock)?;
        if left.is_some() {
            self.stream.set_write_timeout(left)?;
        }
        self.stream.write(buf)
    }

    fn flush(&mut self) -> io::Result<()> {
        self.stream.flush()
    }
}

/// The host without the brackets that stand round eight groups.
fn unbracketed(host: &str) -> &str {
    match host.strip_prefix('[') {
        Some(rest) => rest.strip_suffix(']').unwrap_or(host),
        None => host,
    }
}

/// A connection to a host, each of its addresses tried in turn, in the time that is left.
fn connected<N: Net + Clock>(
    net: &N,
    deadline: Deadline,
    host: &str,
    port: u16,
) -> io::Result<N::Stream> {
    let Some(_) = deadline.left(net)? else {
        return TcpStream::connect(net, (unbracketed(host), port));
    };
    let mut last = io::Error::from(ErrorKind::NotFound);
    for address in (unbracketed(host), port).to_socket_addrs(net)? {
        let Some(left) = deadline.left(net)? else {
            return Err(last);
        };
        match TcpStream::connect_timeout(net, &address, left) {
            Ok(stream) => return Ok(stream),
            Err(fault) => last = fault,
        }
    }
    Err(last)
}

/// One request and its reply, over a connection of its own. A peer that refuses a request may reply before it has all
/// of it, and take no more: so the reply is read also where the request was not written whole.
fn fetch<N: Net + Clock>(
    alloc: Global,
    net: &N,
    deadline: Deadline,
    host: &str,
    port: u16,
    request: &[u8],
) -> Result<Vec<u8>, AskFault> {
    let stream = match connected(net, deadline, host, port) {
        Ok(stream) => stream,
        Err(fault) if fault.kind() == ErrorKind::OutOfMemory => return Err(AskFault::Memory),
        Err(_) => return Err(AskFault::Failed),
    };
    let mut link = TcpLink::new(TimedStream {
        stream,
        clock: net,
        deadline,
    });
    let sent = write_all(&mut link, request);
    match read_whole(alloc, &mut link, MAX_REPLY) {
        Ok(reply) if sent.is_err() && reply.is_empty() => Err(AskFault::Failed),
        Ok(reply) => Ok(reply),
        Err(ReadError::Memory) => Err(AskFault::Memory),
        Err(ReadError::Failed) | Err(ReadError::TooLong) => Err(AskFault::Failed),
    }
}

/// The head of a message: what stands before its first empty line.
fn head_of(message: &[u8]) -> &[u8] {
    for i in 0..message.len() {
        if message[i..].starts_with(b"\r\n\r\n") {
            return &message[..i];
        }
    }
    message
}

/// Shows the head of a message, each line behind a mark, if heads are shown. A head that is no text is not shown.
fn show<E: Sink>(alloc: Global, errs: &mut Option<E>, mark: &str, message: &[u8]) {
    let Some(errs) = errs else {
        return;
    };
    let Ok(head) = str::from_utf8(head_of(message)) else {
        return;
    };
    if let Ok(text) = shown_head(alloc, mark, head) {
        let _ = write_all(errs, text.as_bytes());
    }
}

/// Asks over the network: one connection a request, in the time that is left.
#[derive(Drop)]
pub(crate) struct TimedDialer<N: Net + Clock + Drop, E: Sink + Drop> {
    alloc: Global,
    net: N,
    deadline: Deadline,
    heads: Option<E>,
    faults: u64,
}

impl<N: Net + Clock + Drop, E: Sink + Drop> TimedDialer<N, E> {
    /// A dialer that asked nothing so far, and where it shows heads.
    pub(crate) fn new(alloc: Global, net: N, deadline: Deadline, heads: Option<E>) -> Self {
        TimedDialer {
            alloc,
            net,
            deadline,
            heads,
            faults: 0,
        }
    }
}

impl<N: Net + Clock + Drop, E: Sink + Drop> Dialer for TimedDialer<N, E> {
    ghost use Rattle.std.specs.Prelude.{None};

    ghost asked = { λ _. None };

    ghost faults = { λ d. d.faults };

    fn ask(&mut self, host: &str, port: u16, request: &[u8]) -> Result<Vec<u8>, AskFault> {
        show(self.alloc, &mut self.heads, "> ", request);
        match fetch(self.alloc, &self.net, self.deadline, host, port, request) {
            Ok(reply) => {
                show(self.alloc, &mut self.heads, "< ", &reply);
                Ok(reply)
            }
            Err(AskFault::Memory) => Err(AskFault::Memory),
            Err(AskFault::Failed) => {
                raise(&mut self.faults);
                Err(AskFault::Failed)
            }
        }
    }
}
