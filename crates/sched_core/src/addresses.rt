//! The numbers of the registrations by their addresses.
ghost use Rattle.std.specs.Prelude.{◌≡◌, ◌≤◌, ◌<◌, ◌+◌, None, Some, OnOk};
ghost use Rattle.row_index.specs.Lookup.{value_at, HaveSame, Puts};
ghost use Rattle.dist_types.specs.Addr.{same_addr};

use dist_types::ids::ServerId;
use row_index::LookupTable;
use std::alloc::AllocError;

/// The number at an address.
pub fn number_at(addresses: &LookupTable<ServerId, u64>, server: ServerId) -> Option<u64>
    ensures { result ≡ value_at same_addr server addresses.now.entries }
{
    match addresses.get(&server) {
        Some(number) => Some(*number),
        None => None,
    }
}

/// Puts a number at an address. It takes no memory.
pub fn put(addresses: &mut LookupTable<ServerId, u64>, server: ServerId, number: u64)
    requires room { 0 < addresses.old.spare }
    ensures entries { Puts same_addr server (Some number) addresses.old.entries addresses.new.entries }
    ensures spare { addresses.old.spare ≤ addresses.new.spare + 1 }
{
    addresses.put(server, number);
}

/// Takes out the number at an address.
pub fn remove(addresses: &mut LookupTable<ServerId, u64>, server: ServerId)
    ensures entries { Puts same_addr server None addresses.old.entries addresses.new.entries }
    ensures spare { addresses.old.spare ≤ addresses.new.spare }
{
    addresses.take_out(&server);
}

/// Makes room for so many addresses more. Refused for want of memory alone; each keeps its number.
pub fn make_room(addresses: &mut LookupTable<ServerId, u64>, more: usize) -> Result<(), AllocError>
    ensures entries { HaveSame same_addr addresses.old.entries addresses.new.entries }
    ensures room { OnOk result (more ≤ addresses.new.spare) }
    ensures spare { addresses.old.spare ≤ addresses.new.spare }
{
    addresses.make_room(more)
}
