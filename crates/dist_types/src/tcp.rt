//! The network's own connections. They tell no content.
ghost use Rattle.std.specs.Prelude.{◌≡◌, ◌≤◌, ◌↔◌, length, IfOk, OnOk, None, Ok, Err};
ghost use Rattle.dist_types.specs.Cause.{Rose, counted};
ghost use Rattle.dist_types.specs.Content.{Recorded, KeptOrRecorded};
ghost use Rattle.dist_types.specs.Dialer.{asked_row};
ghost use Rattle.dist_types.specs.Real.{link_read_faults, link_write_faults, real_asked, real_dialer_faults};

use crate::dialer::{AskFault, Dialer};
use crate::fault::{Failed, raise};
use crate::link::Link;
use crate::sink::{Sink, write_all, write_some};
use crate::source::{ReadError, Source, read_some, read_whole};
use std::alloc::Global;
use std::io::{ErrorKind, Read, Write};
use std::net::{Net, TcpStream};

/// The most bytes of one reply.
pub const MAX_REPLY: u32 = 2_147_483_648;

/// A connection over a stream of the system.
#[derive(Drop)]
pub struct TcpLink<S: Read + Write> {
    stream: S,
    read_faults: u64,
    write_faults: u64,
}

impl<S: Read + Write> TcpLink<S> {
    /// The connection over a stream, no fault so far. It takes no memory.
    pub fn new(stream: S) -> Self
        ensures read_faults { link_read_faults result ≡ 0 }
        ensures write_faults { link_write_faults result ≡ 0 }
    {
        TcpLink {
            stream,
            read_faults: 0,
            write_faults: 0,
        }
    }
}

impl<S: Read + Write> Source for TcpLink<S> {
    ghost left = { λ _. None };

    ghost faults = { λ l. l.read_faults };

    ghost apart = { λ l. (None, l.write_faults) };

    fn read(&mut self, buf: &mut [u8]) -> Result<usize, Failed> {
        match read_some(&mut self.stream, buf) {
            Ok(n) => Ok(n),
            Err(_) => {
                raise(&mut self.read_faults);
                Err(Failed)
            }
        }
    }
}

impl<S: Read + Write> Sink for TcpLink<S> {
    ghost held = { λ _. None };

    ghost faults = { λ l. l.write_faults };

    ghost apart = { λ l. (None, l.read_faults) };

    fn write(&mut self, bytes: &[u8]) -> Result<usize, Failed> {
        match write_some(&mut self.stream, bytes) {
            Ok(n) => Ok(n),
            Err(_) => {
                raise(&mut self.write_faults);
                Err(Failed)
            }
        }
    }
}

impl<S: Read + Write> Link for TcpLink<S> {
    ghost use Rattle.std.specs.Prelude.{refl};

    ghost reads_alone = { λ _. refl };

    ghost writes_alone = { λ _. refl };
}

/// Asks over the network: one connection a request, and the reply to its end.
#[derive(Drop)]
pub struct TcpDialer<N: Net + Drop> {
    alloc: Global,
    net: N,
    faults: u64,
}

impl<N: Net + Drop> TcpDialer<N> {
    /// A dialer that asked nothing so far. It takes no memory.
    pub fn new(alloc: Global, net: N) -> Self
        ensures faults { real_dialer_faults result ≡ 0 }
    {
        TcpDialer {
            alloc,
            net,
            faults: 0,
        }
    }
}

/// The host without the brackets that stand round eight groups.
fn unbracketed(host: &str) -> &str {
    match host.strip_prefix('[') {
        Some(rest) => match rest.strip_suffix(']') {
            Some(groups) => groups,
            None => host,
        },
        None => host,
    }
}

/// Why there is no connection. Want of memory is no fault.
fn connect_fault(kind: ErrorKind) -> AskFault
    ensures { (result ≡ AskFault.Memory) ↔ (kind ≡ ErrorKind.OutOfMemory) }
{
    if kind == ErrorKind::OutOfMemory {
        return AskFault::Memory;
    }
    AskFault::Failed
}

/// One request and its reply, over a connection of its own. A peer that refuses a request may reply before it
/// has all of it, and take no more: so the reply is read also where the request was not written whole, and
/// there is a fault where none came. A reply past 2,147,483,648 bytes is a fault.
fn fetch<N: Net>(
    alloc: Global,
    net: &N,
    host: &str,
    port: u16,
    request: &[u8],
) -> Result<Vec<u8>, AskFault>
    ensures short { IfOk result (λ reply. length reply.items ≤ 2147483648) }
{
    let mut link = match TcpStream::connect(net, (unbracketed(host), port)) {
        Ok(stream) => TcpLink::new(stream),
        Err(e) => return Err(connect_fault(e.kind())),
    };
    let sent = write_all(&mut link, request);
    match read_whole(alloc, &mut link, MAX_REPLY) {
        Ok(reply) if sent.is_err() && reply.is_empty() => Err(AskFault::Failed),
        Ok(reply) => Ok(reply),
        Err(ReadError::Memory) => Err(AskFault::Memory),
        Err(ReadError::Failed) => Err(AskFault::Failed),
        Err(ReadError::TooLong) => Err(AskFault::Failed),
    }
}

impl<N: Net + Drop> Dialer for TcpDialer<N> {
    ghost asked = { λ _. None };

    ghost faults = { λ d. d.faults };

    /// The reply to its end, at most 2,147,483,648 bytes; a longer one is a fault.
    fn ask(&mut self, host: &str, port: u16, request: &[u8]) -> Result<Vec<u8>, AskFault>
        ensures ok { IfOk result (λ reply. Recorded (asked_row host.now port request.now (Ok reply.items))
            (real_asked self.old) (real_asked self.new)) }
        ensures failed { result ≡ Err AskFault.Failed
            → Recorded (asked_row host.now port request.now (Err AskFault.Failed))
            (real_asked self.old) (real_asked self.new) }
        ensures memory { result ≡ Err AskFault.Memory
            → KeptOrRecorded (asked_row host.now port request.now (Err AskFault.Memory))
            (real_asked self.old) (real_asked self.new) }
        ensures steady { OnOk result (real_dialer_faults self.new ≡ real_dialer_faults self.old) }
        ensures uncounted { result ≡ Err AskFault.Memory
            → real_dialer_faults self.new ≡ real_dialer_faults self.old }
        ensures later { real_dialer_faults self.old ≤ real_dialer_faults self.new }
        ensures cause { result ≡ Err AskFault.Failed
            → Rose (real_dialer_faults self.old) (real_dialer_faults self.new) }

        ensures short { IfOk result (λ reply. length reply.items ≤ 2147483648) }
        ensures counted { result ≡ Err AskFault.Failed
            → real_dialer_faults self.new ≡ counted (real_dialer_faults self.old) }
    {
        match fetch(self.alloc, &self.net, host, port, request) {
            Ok(reply) => Ok(reply),
            Err(AskFault::Memory) => Err(AskFault::Memory),
            Err(AskFault::Failed) => {
                raise(&mut self.faults);
                Err(AskFault::Failed)
            }
        }
    }
}
