//! That the calls of a farm can be read. Nothing here does anything when it runs.
ghost use Rattle.std.specs.Prelude.{◌<◌, ◌^◌};
ghost use Rattle.std.specs.List.{AllByRecursion};
ghost use Rattle.dist_types.specs.Addr.{IsAddr};

use dist_types::addr::Addr;
use farm_entries::site::{Site, SiteServer};

// Each number of an address fits its type.
fn fits(address: Addr)
    ensures { IsAddr address }
{
    match address {
        Addr::V4(octets, _) => {
            let [_a, _b, _c, _d] = octets;
        }
        Addr::V6(groups, _) => {
            let _groups = groups;
        }
    }
}

// The addresses of servers are addresses.
fn all_fit(servers: &[SiteServer])
    ensures { AllByRecursion (λ s. IsAddr s.addr) servers.now }
{
    for server in servers {
        fits(server.addr);
    }
}

/// That the addresses of a setup are addresses.
pub(crate) fn has_addresses(setup: &Site)
    ensures scheduler { IsAddr setup.now.scheduler.addr }
    ensures servers { AllByRecursion (λ s. IsAddr s.addr) setup.now.servers }
{
    fits(setup.scheduler.addr);
    all_fit(setup.servers.get());
}

/// That the number of ids that are given fits its type.
pub(crate) fn has_count(count: u64)
    ensures { count < 2 ^ 64 }
{
    let _count = count;
}
