//! How the servers of a farm begin again, over what they left.
ghost use Rattle.std.specs.Prelude.{◌≡◌, [], length, map, Some, None, IfOk, IfErr};
ghost use Rattle.line_program.specs.declared.fault.FarmFault.TheVariants as fault;
ghost use Rattle.farm_entries.specs.Passage.{AreOwn, Leaves, AllStay};
ghost use Rattle.farm_entries.specs.Servers.{server_begun};
ghost use Rattle.farm_run.specs.GoesOn.{left_of, next_server};
ghost use Rattle.farm_stations.specs.Post.{outside_of};
ghost use Rattle.farm_stations.specs.Stations.{now_of, IsWell, AreStations};

use dist_types::builder::BuilderIncoming;
use farm_entries::entry::Entry;
use farm_entries::site::SiteServer;
use farm_stations::copies::copy_left;
use farm_stations::station::Station;
use folders::folder::Folder;
use line_program::fault::FarmFault;
use std::alloc::Global;

/// Begins a server again, and says how it is set up then.
fn next_server<F: Folder + Drop, B: BuilderIncoming + Drop>(
    alloc: Global,
    server: &SiteServer,
    station: &mut Station<F, B>,
) -> Result<SiteServer, FarmFault>
    requires well { IsWell server.now station.old }
    ensures next { station.old.builder ≡ None
        → IfOk result (λ t. t ≡ left_of (now_of server.now station.old)) }
    ensures now { IfOk result (λ t. now_of t station.new ≡ server_begun t) }
    ensures well { IfOk result (λ t. IsWell t station.new) }
    ensures own { IfOk result (λ t. station.old.builder ≡ None → station.new.builder ≡ None) }
    ensures left { Leaves (outside_of station.old) (outside_of station.new) }
    ensures addr { IfOk result (λ t. t.addr ≡ server.now.addr) }
    ensures err { IfErr result (λ e. e ≡ fault.Memory) }
{
    let builds = station.builds();
    let found = station.begin_again(alloc, server)?;
    match copy_left(alloc, server, builds, found) {
        Ok(site) => Ok(site),
        Err(_) => Err(FarmFault::Memory),
    }
}

/// Begins each server again. The entries are those of the run that ends.
pub fn next_servers<F: Folder + Drop, B: BuilderIncoming + Drop>(
    alloc: Global,
    servers: &[SiteServer],
    stations: Vec<Station<F, B>>,
    entries: &[Entry],
) -> Result<(Vec<SiteServer>, Vec<Station<F, B>>), FarmFault>
    requires stations { AreStations servers.now entries.now stations.items }
    ensures sites { IfOk result (λ p. AreOwn (map outside_of stations.items)
        → p.0.items ≡ map (next_server entries.now) servers.now) }
    ensures stations { IfOk result (λ p. AreStations p.0.items [] p.1.items) }
    ensures own { IfOk result (λ p. AreOwn (map outside_of stations.items)
        → AreOwn (map outside_of p.1.items)) }
    ensures stays { IfOk result (λ p. AllStay (map outside_of stations.items) (map outside_of p.1.items)) }
    ensures addresses { IfOk result (λ p. map (λ t. t.addr) p.0.items ≡ map (λ s. s.addr) servers.now) }
    ensures err { IfErr result (λ e. e ≡ fault.Memory) }
{
    let mut stations = stations.into_iter();
    let mut sites = Vec::with_capacity(alloc, servers.len())?;
    let mut begun = Vec::with_capacity(alloc, servers.len())?;
    for server in servers {
        let Some(mut station) = stations.next() else {
            return Err(FarmFault::Memory);
        };
        let site = next_server(alloc, server, &mut station)?;
        sites.push(site)?;
        begun.push(station)?;
    }
    Ok((sites, begun))
}
