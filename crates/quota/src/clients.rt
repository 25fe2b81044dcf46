//! The clients, found by their names.
ghost use Rattle.std.specs.Prelude.{◌≡◌, ◌<◌, ◌++◌, ◌∷◌, [], IfOk, IfErr, OnOk, IfSome, Some, None, length};
ghost use Rattle.std.specs.Prelude.{map};
ghost use Rattle.std.specs.Prelude.{string_bytes, slice_get};
ghost use Rattle.std.specs.String.{string_eq};
ghost use Rattle.indexmap.specs.IndexMap.{get};
ghost use Rattle.quota.specs.Clients.{Client, client_of, place_of, AreNamedOnce, IsRefused};

use crate::fault::QuotaFault;
use indexmap::IndexMap;
use std::alloc::Global;
use std::marker::Model;

/// The clients, found by their names. Contracts see them in the order of their listing.
#[derive(Drop)]
pub struct Clients {
    limits: IndexMap<String, u64>,
}

impl Model for Clients {
    ghost use Rattle.std.specs.Prelude.{List, map, string_bytes};
    ghost use Rattle.quota.specs.Clients.{Client, client_of};

    ghost Value = { List Client };

    ghost view = { λ c. map (λ e. client_of (string_bytes e.0) e.1) c.limits.entries };
}

impl Clients {
    /// How many there are.
    pub fn len(&self) -> usize
        ensures { result ≡ length self.now }
    {
        self.limits.len()
    }

    /// The place of the client of that name, from 0, if it is listed.
    pub fn place_of(&self, name: &str) -> Option<usize>
        ensures place { result ≡ place_of self.now name.now }
        ensures within { IfSome result (λ place. place < length self.now) }
    {
        self.limits.get_index_of(name)
    }

    /// How many reservations the client in that place may hold.
    pub fn limit_at(&self, place: usize) -> u64
        requires within { place < length self.now }
        ensures limit { (c : Client) → slice_get self.now place ≡ Some c → result ≡ c.limit }
    {
        match self.limits.get_index(place) {
            Some((_, limit)) => *limit,
            None => unreachable!(),
        }
    }

    /// The clients of those names and limits. Refused where a name stands twice, and else for want of memory
    /// alone.
    pub fn of(alloc: Global, listed: Vec<(String, u64)>) -> Result<Clients, QuotaFault>
        ensures clients { IfOk result (λ c. c ≡
            map (λ l. client_of (string_bytes l.0) l.1) listed.items) }
        ensures named_once { IfOk result AreNamedOnce }
        ensures refused { IfErr result
            (IsRefused (map (λ l. client_of (string_bytes l.0) l.1) listed.items)) }
    {
        let mut limits = IndexMap::new(alloc);
        for (name, limit) in listed {
            if limits.get_index_of(name.as_str()).is_some() {
                return Err(QuotaFault::DuplicateClient(limits.len() as u64));
            }
            list(&mut limits, name, limit)?;
        }
        Ok(Clients { limits })
    }
}

/// Lists one more. Refused for want of memory alone.
fn list(limits: &mut IndexMap<String, u64>, name: String, limit: u64) -> Result<(), QuotaFault>
    requires new { get string_eq limits.old name ≡ None }
    ensures entries { OnOk result (limits.new.entries ≡ limits.old.entries ++ (name, limit) ∷ []) }
    ensures memory { IfErr result (λ e. e ≡ QuotaFault.Memory) }
{
    let Ok(_) = limits.insert(name, limit) else {
        return Err(QuotaFault::Memory);
    };
    Ok(())
}
