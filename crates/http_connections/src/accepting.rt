//! The connections that a listener of the system accepts, as tasks.
ghost use Rattle.std.specs.Prelude.{◌≡◌};
ghost use Rattle.std.specs.Net.Socket.{socket_flowinfo, socket_scope_id};
ghost use Rattle.http_connections.specs.Socket.{addr_of};

use crate::asked::Asked;
use crate::asking::{LimitedNet, Limits};
use crate::begun_link::BegunLink;
use crate::queues::Takes;
use crate::reception::{Place, Reception};
use crate::served::Served;
use crate::start::Start;
use crate::stream::LimitedStream;
use crate::tasks::Tasks;
use dist_types::addr::Addr;
use dist_types::tcp::TcpLink;
use std::alloc::Global;
use std::net::{IpAddr, Ipv4Addr, Ipv6Addr, SocketAddr};
use std::sync::Wait;
use std::time::Clock;

/// How many workers serve one listener.
pub const WORKERS: usize = 8;

/// How many of them take only requests that came whole and wait for nobody.
pub const QUICK_WORKERS: usize = 2;

/// How many of them take also requests whose body still comes.
pub const BODY_WORKERS: usize = 3;

/// An address as the system takes it: its IP and its port, without a flow label and without a scope.
pub fn socket_addr(addr: Addr) -> SocketAddr
    ensures address { addr_of result ≡ addr }
    ensures no_label { socket_flowinfo result ≡ 0 }
    ensures no_scope { socket_scope_id result ≡ 0 }
{
    match addr {
        Addr::V4(octets, port) => SocketAddr::new(IpAddr::V4(Ipv4Addr::from_octets(octets)), port),
        Addr::V6(groups, port) => {
            SocketAddr::new(IpAddr::V6(Ipv6Addr::from_segments(groups)), port)
        }
    }
}

/// An address as the system has it.
pub(crate) fn addr_of(peer: SocketAddr) -> Addr
    ensures { result ≡ addr_of peer }
{
    match peer {
        SocketAddr::V4(peer) => Addr::V4(peer.ip().octets(), peer.port()),
        SocketAddr::V6(peer) => Addr::V6(peer.ip().segments(), peer.port()),
    }
}

/// From which queues the worker of that number takes, from 0. Those that take the least stand last, since
/// workers that cannot be started are run by the caller, the first of them first.
fn takes_of(number: usize) -> Takes {
    if number < BODY_WORKERS {
        Takes::All
    } else if number < WORKERS - QUICK_WORKERS {
        Takes::Whole
    } else {
        Takes::Quick
    }
}

/// The connections that a reception gives to one worker. It tells nothing.
#[derive(Drop)]
pub struct Accepting<'a, R> {
    rt: &'a R,
    reception: &'a Reception,
    takes: Takes,
    place: Place,
    timeout_ms: u64,
}

/// A link whose first bytes were read before it was given to a worker.
type AcceptedLink<R> = BegunLink<TcpLink<LimitedStream<R>>>;

impl<'a, R: Wait + Clock + Copy> Accepting<'a, R> {
    /// The tasks of one worker: a link fails where it waits longer than so many milliseconds for a byte to come
    /// or to go. It takes no memory.
    pub fn new(rt: &'a R, reception: &'a Reception, takes: Takes, timeout_ms: u64) -> Self {
        Accepting {
            rt,
            reception,
            takes,
            place: Place::new(),
            timeout_ms,
        }
    }

    /// The link as a worker reads and writes it.
    fn opened(&self, asked: Asked) -> (AcceptedLink<R>, Addr) {
        let Asked {
            stream,
            begun,
            peer,
            ..
        } = asked;
        let stream = LimitedStream::new(*self.rt, stream, self.timeout_ms);
        (BegunLink::new(begun, TcpLink::new(stream)), peer)
    }
}

impl<R: Wait + Clock + Copy + Send + Sync> Tasks for Accepting<'_, R> {
    ghost use Rattle.std.specs.Prelude.{None};

    type L = AcceptedLink<R>;

    ghost told = { λ _. None };

    fn take(&mut self) -> Option<(Self::L, Addr)> {
        let asked = self.reception.next(self.rt, self.takes, &mut self.place)?;
        Some(self.opened(asked))
    }

    fn done(&mut self, _link: Self::L, _served: Served) {}
}

/// How a listener is shared by its workers.
#[derive(Drop)]
pub struct Sharing<'a, R> {
    /// The system.
    pub rt: &'a R,
    /// Where links get their memory.
    pub alloc: Global,
    /// The links of the listener.
    pub reception: &'a Reception,
    /// What the start was given.
    pub start: Start,
}

impl<'a, R: Wait + Clock + Copy> Sharing<'a, R> {
    /// The tasks of the worker of that number, from 0. It takes no memory.
    pub fn tasks(&self, number: usize) -> Accepting<'a, R> {
        Accepting::new(
            self.rt,
            self.reception,
            takes_of(number),
            self.start.timeout_ms,
        )
    }

    /// The network for asking peers within limits. It takes no memory.
    pub fn asking(&self, limits: Limits) -> LimitedNet<R> {
        LimitedNet::new(*self.rt, limits)
    }
}
