//! The links of a listener that wait until their requests are there.
ghost use Rattle.std.specs.Prelude.{◌≡◌};
ghost use Rattle.http_connections.specs.Came.{came};

use crate::accepting::addr_of;
use crate::asked::Asked;
use crate::begun::Begun;
use crate::start::Start;
use dist_types::addr::Addr;
use http_routes::kind::Role;
use mio::net::{TcpListener, TcpStream};
use mio::{Events, Interest, Poll, Token};
use slab::Slab;
use std::alloc::Global;
use std::collections::VecDeque;
use std::io::{ErrorKind, Read};
use std::net::{Net, SocketAddr};
use std::time::{Clock, Duration};
use std::{io, net};

/// How long a parked link may take from its first byte to its whole head, in milliseconds.
pub const HEAD_MS: u64 = 10_000;

/// How many links are parked at most. Where one more comes, the one that waits longest is dropped.
pub const MAX_PARKED: usize = 4_096;

/// How many bytes of parked and queued links are kept at most. Where more come, the parked link that waits
/// longest is dropped.
pub const MAX_PARKED_BYTES: usize = 67_108_864;

/// How often the parked links are looked through for those that are late, in milliseconds.
pub const SWEEP_MS: u64 = 250;

/// How long is waited for the system where a link may be there that was not accepted, in milliseconds.
const AGAIN_MS: u64 = 10;

/// How many events are asked of the system at once.
const EVENTS: usize = 256;

/// How many bytes are asked of a link at once.
const PIECE_BYTES: usize = 16_384;

/// How many links are accepted in one turn at most.
const ACCEPTS: usize = 256;

/// How many parked links are dropped where the system accepts no more, as for want of descriptors: those
/// that are parked longest.
const SPARED: usize = 16;

/// The listener's own token. No link has it.
const LISTENER: Token = Token(usize::MAX);

/// One parked link.
#[derive(Drop)]
struct Parked {
    stream: TcpStream,
    peer: Addr,
    begun: Begun,
    /// How many were accepted before it.
    number: u64,
    /// When it was accepted, or its last byte came.
    last_ms: u64,
    /// When its first byte came.
    first_ms: Option<u64>,
}

/// What reading a parked link gave.
#[derive(Clone, Copy, Debug, PartialEq, Eq)]
enum Came {
    /// Its request is not there yet.
    Part,
    /// Its request is there, or so much of it that no more is waited for.
    Whole,
    /// It ended inside its request.
    Cut,
    /// It ended or failed before it sent anything, or memory ran out.
    Gone,
}

impl Parked {
    /// Whether it has waited too long.
    fn is_late(&self, idle_ms: u64, now_ms: u64) -> bool {
        if now_ms.saturating_sub(self.last_ms) > idle_ms {
            return true;
        }
        match self.first_ms {
            Some(first_ms) => {
                !self.begun.has_head() && now_ms.saturating_sub(first_ms) > HEAD_MS
            }
            None => false,
        }
    }

    /// What its end means.
    fn ended(&self) -> Came {
        if self.begun.is_empty() {
            Came::Gone
        } else {
            Came::Cut
        }
    }

    /// These bytes came.
    fn take_in(&mut self, piece: &[u8], now_ms: u64) -> Came {
        self.last_ms = now_ms;
        if self.first_ms.is_none() {
            self.first_ms = Some(now_ms);
        }
        if self.begun.more(piece).is_err() {
            return Came::Gone;
        }
        if self.begun.is_whole() {
            return Came::Whole;
        }
        Came::Part
    }

    /// Reads what is there, without waiting, until the request is.
    fn read_all(&mut self, piece: &mut [u8], now_ms: u64) -> Came {
        for _ in 0..u64::MAX {
            match self.stream.read(piece) {
                Ok(0) => return self.ended(),
                Ok(n) => match self.take_in(&piece[..n], now_ms) {
                    Came::Part => {}
                    came => return came,
                },
                Err(fault) => match fault.kind() {
                    ErrorKind::WouldBlock => return Came::Part,
                    ErrorKind::Interrupted => {}
                    _ => return Came::Gone,
                },
            }
        }
        Came::Gone
    }

    /// The link as a worker is given it.
    fn asked(self, more_comes: bool) -> Asked
        ensures bytes { result.begun.items ≡ came self.begun }
    {
        let Parked {
            stream,
            peer,
            begun,
            ..
        } = self;
        let role = begun.role();
        let kind = begun.kind(more_comes);
        Asked {
            stream: net::TcpStream::from(stream),
            begun: begun.into_bytes(),
            peer,
            role,
            kind,
            more_comes,
        }
    }
}

/// The links of one listener: which are parked, and whose requests are there.
#[derive(Drop)]
struct Links {
    alloc: Global,
    poll: Poll,
    listener: TcpListener,
    role: Role,
    parked: Slab<Parked>,
    /// Those whose requests are there, which no worker was given yet.
    whole: VecDeque<Asked>,
    /// How many bytes of all these came.
    bytes: usize,
    /// How many bytes stand in the queues.
    queued: usize,
    piece: Vec<u8>,
    idle_ms: u64,
    /// How many are still accepted, where that is limited.
    left: Option<u64>,
    /// How many were accepted.
    number: u64,
    /// Whether a link may be there that was not accepted.
    again: bool,
    now_ms: u64,
    swept_ms: u64,
}

impl Links {
    /// A link's request is there. Where no more bytes are kept, though no link is parked, or for want of
    /// memory, it is dropped.
    fn hand(&mut self, parked: Parked, more_comes: bool) {
        let asked = parked.asked(more_comes);
        let len = asked.begun.len();
        self.bytes = self.bytes.saturating_add(len);
        self.make_room();
        if !self.has_room() || self.whole.push_back(asked).is_err() {
            self.bytes = self.bytes.saturating_sub(len);
        }
    }

    /// Takes a link out of those that are parked.
    fn leave(&mut self, key: usize) -> Option<Parked> {
        let mut parked = self.parked.try_remove(key)?;
        self.bytes = self.bytes.saturating_sub(parked.begun.len());
        let _gone = self.poll.registry().deregister(&mut parked.stream);
        Some(parked)
    }

    /// The link that is parked longest.
    fn longest(&self) -> Option<usize> {
        let mut found = None;
        let mut least = u64::MAX;
        for (key, parked) in self.parked.iter() {
            if parked.number < least {
                least = parked.number;
                found = Some(key);
            }
        }
        found
    }

    /// Whether there are no more links and bytes than are kept.
    fn has_room(&self) -> bool {
        self.parked.len() <= MAX_PARKED
            && self.bytes.saturating_add(self.queued) <= MAX_PARKED_BYTES
    }

    /// Drops the links that are parked longest until there are no more links and bytes than are kept.
    fn make_room(&mut self) {
        for _ in 0..=MAX_PARKED {
            if self.has_room() {
                return;
            }
            match self.longest() {
                Some(key) => drop(self.leave(key)),
                None => return,
            }
        }
    }

    /// Parks a link. For want of memory, or where the system does not watch it, it is dropped.
    fn park(&mut self, parked: Parked) {
        let len = parked.begun.len();
        let Ok(key) = self.parked.insert(parked) else {
            return;
        };
        self.bytes = self.bytes.saturating_add(len);
        let Some(parked) = self.parked.get_mut(key) else {
            return;
        };
        let watched = self
            .poll
            .registry()
            .register(&mut parked.stream, Token(key), Interest::READABLE);
        if watched.is_err() {
            drop(self.leave(key));
        }
        self.make_room();
    }

    /// Reads a link that was accepted, and parks it where its request is not there.
    fn admit(&mut self, stream: TcpStream, peer: SocketAddr) {
        self.number = self.number.saturating_add(1);
        let mut parked = Parked {
            stream,
            peer: addr_of(peer),
            begun: Begun::new(self.alloc, self.role),
            number: self.number,
            last_ms: self.now_ms,
            first_ms: None,
        };
        match parked.read_all(&mut self.piece, self.now_ms) {
            Came::Whole => self.hand(parked, true),
            Came::Cut => self.hand(parked, false),
            Came::Part => self.park(parked),
            Came::Gone => {}
        }
    }

    /// One link fewer is accepted.
    fn count(&mut self) {
        self.left = match self.left {
            Some(left) => Some(left.saturating_sub(1)),
            None => None,
        };
    }

    /// The system accepts no more: some links are dropped, and it is asked again.
    fn spare(&mut self) {
        self.again = true;
        for _ in 0..SPARED {
            match self.longest() {
                Some(key) => drop(self.leave(key)),
                None => return,
            }
        }
    }

    /// Accepts what is there.
    fn accept_all(&mut self) {
        self.again = false;
        for _ in 0..ACCEPTS {
            if self.left == Some(0) {
                return;
            }
            match self.listener.accept() {
                Ok((stream, peer)) => {
                    self.count();
                    self.admit(stream, peer);
                }
                Err(fault) => match fault.kind() {
                    ErrorKind::WouldBlock => return,
                    ErrorKind::Interrupted | ErrorKind::ConnectionAborted => {}
                    _ => return self.spare(),
                },
            }
        }
        self.again = true;
    }

    /// Reads a parked link of which the system says that it may be read.
    fn read(&mut self, key: usize) {
        let Some(parked) = self.parked.get_mut(key) else {
            return;
        };
        let before = parked.begun.len();
        let came = parked.read_all(&mut self.piece, self.now_ms);
        let grown = parked.begun.len().saturating_sub(before);
        self.bytes = self.bytes.saturating_add(grown);
        if came == Came::Part {
            return self.make_room();
        }
        let Some(parked) = self.leave(key) else {
            return;
        };
        match came {
            Came::Whole => self.hand(parked, true),
            Came::Cut => self.hand(parked, false),
            _ => {}
        }
    }

    /// The system says of what this is the token that it may be read.
    fn ready(&mut self, token: Token) {
        if token == LISTENER {
            self.again = true;
        } else {
            self.read(token.0);
        }
    }

    /// Drops the links that are late, at most once in a while.
    fn sweep(&mut self) {
        if self.now_ms.saturating_sub(self.swept_ms) < SWEEP_MS {
            return;
        }
        self.swept_ms = self.now_ms;
        for key in 0..self.parked.capacity() {
            let late = match self.parked.get(key) {
                Some(parked) => parked.is_late(self.idle_ms, self.now_ms),
                None => false,
            };
            if late {
                drop(self.leave(key));
            }
        }
    }
}

/// The links of one listener that wait until their requests are there.
#[derive(Drop)]
pub struct Lot {
    events: Events,
    links: Links,
}

impl Lot {
    /// The empty lot of a listener, of whose links a start says how many are accepted, and how long each may
    /// send nothing. Refused where the system does not give what watching takes, or memory ran out.
    pub fn new<R: Net>(
        rt: &R,
        alloc: Global,
        role: Role,
        listener: net::TcpListener,
        start: Start,
    ) -> io::Result<Self> {
        listener.set_nonblocking(true)?;
        let mut listener = TcpListener::from_std(listener);
        let poll = Poll::new(rt)?;
        poll.registry()
            .register(&mut listener, LISTENER, Interest::READABLE)?;
        let links = Links {
            alloc,
            poll,
            listener,
            role,
            parked: Slab::new(alloc),
            whole: VecDeque::new(alloc),
            bytes: 0,
            queued: 0,
            piece: Vec::from_elem(alloc, 0u8, PIECE_BYTES)?,
            idle_ms: start.timeout_ms,
            left: start.limit,
            number: 0,
            again: true,
            now_ms: 0,
            swept_ms: 0,
        };
        let events = Events::with_capacity(alloc, EVENTS)?;
        Ok(Lot { events, links })
    }

    /// Whether no link comes any more, and none is parked.
    pub fn is_done(&self) -> bool {
        let links = &self.links;
        links.left == Some(0) && links.parked.is_empty() && links.whole.is_empty()
    }

    /// The next link whose request is there.
    pub fn next_whole(&mut self) -> Option<Asked> {
        let asked = self.links.whole.pop_front()?;
        self.links.bytes = self.links.bytes.saturating_sub(asked.begun.len());
        Some(asked)
    }

    /// Waits for the system once, a moment at most, and reads what came, while so many bytes stand in the
    /// queues. Refused where the system fails.
    pub fn turn<R: Clock>(&mut self, rt: &R, queued: usize) -> io::Result<()> {
        let wait_ms = if self.links.again { AGAIN_MS } else { SWEEP_MS };
        let wait = Some(Duration::from_millis(wait_ms));
        self.links.poll.poll(&mut self.events, wait)?;
        self.links.now_ms = now_of(rt, self.links.now_ms);
        self.links.queued = queued;
        for event in self.events.iter() {
            self.links.ready(event.token());
        }
        if self.links.again {
            self.links.accept_all();
        }
        self.links.sweep();
        Ok(())
    }
}

/// The moment of a clock that never goes back, in milliseconds; where it does not answer, the last one.
pub(crate) fn now_of<R: Clock>(rt: &R, last_ms: u64) -> u64 {
    match rt.monotonic() {
        Ok(now) => now
            .as_secs()
            .saturating_mul(1_000)
            .saturating_add(now.subsec_millis() as u64),
        Err(_) => last_ms,
    }
}
