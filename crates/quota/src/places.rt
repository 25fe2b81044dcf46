//! Where shares are looked for.
ghost use Rattle.std.specs.Prelude.{◌≡◌, [], Some, true, nat_eq, OnOk, IfOk};
ghost use Rattle.row_index.specs.Lookup.{value_at, HaveSame, Puts};

use crate::rows::ShareKey;
use row_index::LookupTable;
use std::alloc::{AllocError, Global};
use std::collections::HashMap;
use std::marker::Model;

/// Where to look for shares. Contracts see the newest of each registration, and whether there is room for one
/// share more. Nothing rests on what else it answers: such a share is read before it is taken.
#[derive(Drop)]
pub(crate) struct SharePlaces {
    /// The newest share of each registration.
    newest: LookupTable<u64, usize>,
    /// Each share by its key.
    table: HashMap<ShareKey, usize>,
    /// For each client the share of its last reservation, which most often has the next one too.
    latest: Vec<usize>,
    /// Whether both tables have room for one share more.
    has_room: bool,
}

impl Model for SharePlaces {
    ghost use Rattle.std.specs.Prelude.{◌≡◌, ◌<◌, true};
    ghost use Rattle.quota.specs.Holdings.{Placed};

    ghost Value = { Placed };

    ghost view = { λ p. record { newest = p.newest.entries; has_room = p.has_room } };

    ghost invariant = { λ p. p.has_room ≡ true → 0 < p.newest.spare };
}

impl SharePlaces {
    /// No share of so many clients. Refused for want of memory alone.
    pub fn new(alloc: Global, clients: usize) -> Result<Self, AllocError>
        ensures none { IfOk result (λ p. p.newest ≡ []) }
    {
        let mut latest = Vec::new(alloc);
        latest.resize(clients, 0)?;
        Ok(SharePlaces {
            newest: LookupTable::new(alloc),
            table: HashMap::new(alloc),
            latest,
            has_room: false,
        })
    }

    /// Makes room for one more, unless there is. Refused for want of memory alone; the shares stay.
    pub fn make_room(&mut self) -> Result<(), AllocError>
        ensures newest { HaveSame nat_eq self.old.newest self.new.newest }
        ensures room { OnOk result (self.new.has_room ≡ true) }
    {
        if self.has_room {
            return Ok(());
        }
        self.newest.make_room(1)?;
        self.table.reserve(1)?;
        self.has_room = true;
        Ok(())
    }

    /// The newest share of a registration.
    pub fn newest(&self, reg: u64) -> Option<usize>
        ensures { result ≡ value_at nat_eq reg self.now.newest }
    {
        match self.newest.get(&reg) {
            Some(place) => Some(*place),
            None => None,
        }
    }

    /// The share that the client had last.
    pub fn latest(&self, client: usize) -> Option<usize> {
        match self.latest.get(client) {
            Some(place) => Some(*place),
            None => None,
        }
    }

    /// The share of that key.
    pub fn get(&self, key: &ShareKey) -> Option<usize> {
        match self.table.get(key) {
            Some(place) => Some(*place),
            None => None,
        }
    }

    /// Notes which share the client has last.
    pub fn note(&mut self, client: usize, place: usize)
        ensures { self.new ≡ self.old }
    {
        match self.latest.get_mut(client) {
            Some(latest) => *latest = place,
            None => (),
        }
    }

    /// Adds a share, which is the newest of its registration. It takes no memory.
    pub fn add(&mut self, key: ShareKey, place: usize)
        requires room { self.old.has_room ≡ true }
        ensures newest { Puts nat_eq key.reg (Some place) self.old.newest self.new.newest }
    {
        self.has_room = false;
        self.newest.put(key.reg, place);
        match self.table.insert(key, place) {
            Ok(_) => (),
            Err(_) => (),
        }
        self.note(key.client, place);
    }
}
