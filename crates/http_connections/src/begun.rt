//! What came of a request so far, and whether it is whole.
ghost use Rattle.std.specs.Prelude.{◌≡◌, ◌≤◌, ◌-◌, ◌&&◌, nat_le, length, take, true, IfOk};
ghost use Rattle.http_connections.specs.Looked.{IsOpen, Finds, Keeps, IsRead, Stops, IsLooked, kept_kind};
ghost use Rattle.http_connections.specs.Looked.{is_whole_by as is_whole_of};
ghost use Rattle.http_connections.specs.declared.begun.Looked.TheVariants as known;
ghost use Rattle.http_connections.specs.Plain.{is_length as is_length_at, has_length as has_length_at};
ghost use Rattle.http_connections.specs.Plain.{is_plain as is_plain_stop};

use crate::scan::{Scan, ends, start, step};
use crate::stop::MAX_STOP_BYTES;
use http_head::opening::{Head, head_of};
use http_routes::kind::{Kind, Role, kind_of};
use std::alloc::{AllocError, Global};

/// How many bytes of a body are waited for before a worker is given the link; of a larger body none is.
pub const MAX_PARKED_BODY_BYTES: usize = 65_536;

/// What the head that came says.
#[derive(Clone, Copy, Debug)]
struct Opened {
    /// Whether what is asked may wait for somebody.
    kind: Kind,
    /// How many bytes the head has.
    head_len: usize,
    /// How many bytes come after it.
    body_len: usize,
}

/// What is found in bytes.
#[derive(Clone, Copy, Debug)]
enum Found {
    /// No stop: what the scanner knows of them.
    Open(Scan),
    /// A stop of so many bytes.
    Stop(usize),
}

/// What is known of the bytes that came.
#[derive(Clone, Copy, Debug)]
enum Looked {
    /// No stop is among them: what the scanner knows of them.
    Open(Scan),
    /// The stop is among them, and what its head says, where it has one that was read: a plain one waits for
    /// nobody and has no body.
    Stopped(Option<Opened>),
}

/// What came of a request so far.
#[derive(Drop)]
pub struct Begun {
    alloc: Global,
    role: Role,
    bytes: Vec<u8>,
    looked: Looked,
    ghost goes_on: { (scan : _) → looked ≡ known.Open scan → IsOpen bytes.items scan },
    ghost stopped: { (opened : _) → looked ≡ known.Stopped opened → Stops role bytes.items opened },
}

/// How a request begins that waits for nobody, whatever it asks.
const GET: &[u8] = b"GET ";

/// The name of the field that announces a body.
const CONTENT_LENGTH: &[u8] = b"content-length";

/// Whether bytes begin with that name, in any case.
fn is_length(bytes: &[u8]) -> bool
    ensures { result ≡ is_length_at bytes.now }
{
    if bytes.len() < CONTENT_LENGTH.len() {
        return false;
    }
    bytes[..CONTENT_LENGTH.len()].eq_ignore_ascii_case(CONTENT_LENGTH)
}

/// Whether a line begins here, and with that name.
fn announces(begins: bool, bytes: &[u8]) -> bool
    ensures { result ≡ (begins && is_length_at bytes.now) }
{
    if begins { is_length(bytes) } else { false }
}

/// Whether a line of the head may announce a body.
fn has_length(head: &[u8]) -> bool
    ensures { result ≡ has_length_at true head.now }
{
    let mut begins = true;
    for at in 0..head.len() {
        if announces(begins, &head[at..]) {
            return true;
        }
        begins = head[at] == b'\n';
    }
    false
}

/// Whether a head needs no reading: what it asks waits for nobody, and it announces no body.
#[tactic(auto, unfolding(crate::specs::Plain::is_plain))]
fn is_plain(head: &[u8]) -> bool
    ensures { result ≡ is_plain_stop head.now }
{
    if !head.starts_with(GET) {
        return false;
    }
    !has_length(head)
}

/// What is kept of a head.
fn opened_of(role: Role, head: &Option<Head>) -> Option<Opened>
    ensures { Keeps role result head.now }
{
    match head {
        Some(head) => Some(Opened {
            kind: kind_of(role, head.method.get(), head.target.get()),
            head_len: head.len,
            body_len: head.body_len,
        }),
        None => None,
    }
}

/// What a stop says, unless it is plain. Refused for want of memory alone.
fn read(alloc: Global, role: Role, stop: &[u8]) -> Result<Option<Opened>, AllocError>
    ensures { IfOk result (IsRead role stop.now) }
{
    if is_plain(stop) {
        return Ok(None);
    }
    let head = head_of(alloc, stop)?;
    Ok(opened_of(role, &head))
}

/// What is found in the bytes, of which those before a place were looked at.
fn look(bytes: &[u8], from: usize, scan: Scan) -> Found
    requires within { from ≤ length bytes.now }
    requires open { IsOpen (take from bytes.now) scan }
    ensures { Finds bytes.now result }
{
    let mut scan = scan;
    for at in from..bytes.len() {
        let byte = bytes[at];
        let ended = ends(scan, byte);
        scan = step(scan, byte);
        if ended {
            return Found::Stop(at + 1);
        }
        if at + 1 >= MAX_STOP_BYTES {
            return Found::Stop(at + 1);
        }
    }
    Found::Open(scan)
}

/// What is known of the bytes, of which those before a place were looked at. Refused for want of memory alone.
fn looked_at(
    alloc: Global,
    role: Role,
    bytes: &[u8],
    from: usize,
    scan: Scan,
) -> Result<Looked, AllocError>
    requires within { from ≤ length bytes.now }
    requires open { IsOpen (take from bytes.now) scan }
    ensures { IfOk result (IsLooked role bytes.now) }
{
    match look(bytes, from, scan) {
        Found::Open(scan) => Ok(Looked::Open(scan)),
        Found::Stop(len) => {
            let opened = read(alloc, role, &bytes[..len])?;
            Ok(Looked::Stopped(opened))
        }
    }
}

/// Whether the whole body is among so many bytes.
fn has_body(len: usize, opened: Opened) -> bool
    ensures { result ≡ nat_le opened.body_len (len - opened.head_len) }
{
    opened.body_len <= len.saturating_sub(opened.head_len)
}

/// Whether all came that is waited for, where so many bytes came.
fn is_whole_by(len: usize, opened: Option<Opened>) -> bool
    ensures { result ≡ is_whole_of len opened }
{
    match opened {
        Some(opened) => {
            if opened.body_len > MAX_PARKED_BODY_BYTES {
                return true;
            }
            has_body(len, opened)
        }
        None => true,
    }
}

/// The kind of a request of which so many bytes came.
fn kind_by(len: usize, more_comes: bool, opened: Option<Opened>) -> Option<Kind>
    ensures { result ≡ kept_kind len more_comes opened }
{
    match opened {
        Some(opened) => {
            if more_comes && !has_body(len, opened) {
                return None;
            }
            Some(opened.kind)
        }
        None => Some(Kind::Quick),
    }
}

impl Begun {
    ghost use Rattle.std.specs.Prelude.{◌++◌, [], OnOk, OnErr};
    ghost use Rattle.http_connections.specs.Came.{came, role_of};
    ghost use Rattle.http_connections.specs.Whole.{IsThere, IsOfKind};

    /// Nothing came to a listener of that role. It takes no memory.
    pub fn new(alloc: Global, role: Role) -> Self
        ensures nothing { came result ≡ [] }
        ensures role { role_of result ≡ role }
    {
        Begun {
            alloc,
            role,
            bytes: Vec::new(alloc),
            looked: Looked::Open(start()),
        }
    }

    /// How many bytes came.
    pub fn len(&self) -> usize {
        self.bytes.len()
    }

    /// Whether nothing came.
    pub fn is_empty(&self) -> bool {
        self.bytes.is_empty()
    }

    /// Whether the head came, or as many bytes as a head may have.
    pub fn has_head(&self) -> bool {
        match self.looked {
            Looked::Open(_) => false,
            Looked::Stopped(_) => true,
        }
    }

    /// Whose listener they came to.
    pub fn role(&self) -> Role
        ensures role { result ≡ role_of self.now }
    {
        self.role
    }

    /// What came.
    pub fn into_bytes(self) -> Vec<u8>
        ensures bytes { result.items ≡ came self }
    {
        self.bytes
    }

    /// Whether a worker may be given the link: the head came, and of its body all, or it has more than
    /// `MAX_PARKED_BODY_BYTES`.
    pub fn is_whole(&self) -> bool
        ensures there { IsThere (came self.now) result }
    {
        match self.looked {
            Looked::Open(_) => false,
            Looked::Stopped(opened) => is_whole_by(self.bytes.len(), opened),
        }
    }

    /// Of what kind the request is, where it came whole, or no more of it comes; None where its body still
    /// comes.
    pub fn kind(&self, more_comes: bool) -> Option<Kind>
        ensures kind { IsOfKind (role_of self.now) (came self.now) more_comes result }
    {
        match self.looked {
            Looked::Open(_) => Some(Kind::Quick),
            Looked::Stopped(opened) => kind_by(self.bytes.len(), more_comes, opened),
        }
    }

    /// These bytes came. Refused for want of memory alone, and then none of them is kept.
    pub fn more(&mut self, piece: &[u8]) -> Result<(), AllocError>
        ensures added { OnOk result (came self.new ≡ came self.old ++ piece.now) }
        ensures same { OnErr result (came self.new ≡ came self.old) }
        ensures role { role_of self.new ≡ role_of self.old }
    {
        let before = self.bytes.len();
        match self.bytes.extend_from_slice(piece) {
            Ok(()) => {}
            Err(_) => return Err(AllocError),
        }
        let scan = match self.looked {
            Looked::Open(scan) => scan,
            Looked::Stopped(_) => return Ok(()),
        };
        match looked_at(self.alloc, self.role, &self.bytes, before, scan) {
            Ok(looked) => {
                self.looked = looked;
                Ok(())
            }
            Err(e) => {
                self.bytes.truncate(before);
                Err(e)
            }
        }
    }
}
