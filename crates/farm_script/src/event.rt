//! What happens to a farm.
ghost use Rattle.std.specs.Prelude.{◌≡◌, IfOk};

use dist_types::addr::Addr;
use dist_types::ids::ServerNonce;
use dist_types::text::Bytes;
use std::alloc::{AllocError, Global};

/// What happens. A call is named by the number of the entry that made it, a delivery by its own entry's.
#[derive(Debug, Drop)]
pub enum EventKind {
    /// A peer sends bytes to an address.
    Request {
        target: Addr,
        peer: Addr,
        bytes: Bytes,
    },
    /// The bytes of a call come to its target.
    Deliver {
        call: u64,
    },
    /// A call is lost.
    Fail {
        call: u64,
    },
    /// The reply of a delivery comes back.
    Return {
        delivery: u64,
    },
    /// A reply comes from outside the farm.
    Answer {
        call: u64,
        bytes: Bytes,
    },
    /// A build server of the farm sends its heartbeat.
    Beat {
        server: Addr,
    },
    /// A build server of the farm starts again.
    Restart {
        server: Addr,
        key: Bytes,
        nonce: ServerNonce,
    },
}

/// Something that happens at a moment.
#[derive(Debug, Drop)]
pub struct Event {
    /// In milliseconds.
    pub at: u64,
    pub kind: EventKind,
}

impl EventKind {
    /// A copy. Refused for want of memory alone.
    pub fn copy(&self, alloc: Global) -> Result<Self, AllocError>
        ensures kind { IfOk result (λ k. k ≡ self.now) }
    {
        match self {
            EventKind::Request {
                target,
                peer,
                bytes,
            } => {
                let bytes = bytes.copy(alloc)?;
                Ok(EventKind::Request {
                    target: *target,
                    peer: *peer,
                    bytes,
                })
            }
            EventKind::Deliver { call } => Ok(EventKind::Deliver { call: *call }),
            EventKind::Fail { call } => Ok(EventKind::Fail { call: *call }),
            EventKind::Return { delivery } => Ok(EventKind::Return {
                delivery: *delivery,
            }),
            EventKind::Answer { call, bytes } => {
                let bytes = bytes.copy(alloc)?;
                Ok(EventKind::Answer { call: *call, bytes })
            }
            EventKind::Beat { server } => Ok(EventKind::Beat { server: *server }),
            EventKind::Restart { server, key, nonce } => {
                let key = key.copy(alloc)?;
                Ok(EventKind::Restart {
                    server: *server,
                    key,
                    nonce: *nonce,
                })
            }
        }
    }
}

impl Event {
    /// A copy. Refused for want of memory alone.
    pub fn copy(&self, alloc: Global) -> Result<Self, AllocError>
        ensures event { IfOk result (λ e. e ≡ self.now) }
    {
        let kind = self.kind.copy(alloc)?;
        Ok(Event { at: self.at, kind })
    }
}
