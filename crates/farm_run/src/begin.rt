//! How farms begin.
ghost use Rattle.std.specs.Prelude.{◌≡◌, ◌∷◌, [], length, map, Some, None, IfOk, IfErr};
ghost use Rattle.build_server.specs.Builds.{builder_of};
ghost use Rattle.farm_script.specs.Setups.{AreApart};
ghost use Rattle.folders.specs.InMemory.{folder_files, folder_calls};
ghost use Rattle.farm_stations.specs.Unlisted.{NoneListed};
ghost use Rattle.line_program.specs.declared.fault.FarmFault.TheVariants as fault;
ghost use Rattle.farm_run.specs.Begins.{IsBegunAs, AreBegun};
ghost use Rattle.farm_entries.specs.Passage.{AreOwn};
ghost use Rattle.farm_stations.specs.Hands.{fresh_hand};
ghost use Rattle.farm_stations.specs.Post.{outside_of};
ghost use Rattle.farm_entries.specs.Servers.{server_begun};
ghost use Rattle.farm_entries.specs.Sites.{site_server, site_of};
ghost use Rattle.farm_stations.specs.Stations.{now_of, IsWell, AreStations};

use crate::run::Farm;
use dist_types::builder::BuilderIncoming;
use dist_types::text::Items;
use farm_entries::site::{Site, SiteServer};
use farm_script::setup::{Setup, SetupServer};
use farm_stations::builder::FarmBuilder;
use farm_stations::copies::{copy_scheduler, copy_server};
use farm_stations::own_builder::OwnBuilder;
use farm_stations::station::Station;
use folders::calls::Calls;
use folders::folder::Folder;
use folders::mem_folder::MemFolder;
use line_program::fault::FarmFault;
use std::alloc::Global;

/// An empty folder in memory, of which no call is to fail.
fn own_folder(alloc: Global) -> MemFolder
    ensures files { folder_files result ≡ [] }
    ensures unlisted { NoneListed (folder_calls result) }
{
    let calls = Calls::new(Vec::new(alloc), Vec::new(alloc));
    MemFolder::new(alloc, Vec::new(alloc), calls)
}

/// A server that a script sets up, over an empty folder in memory, with a builder of the farm's own.
fn own_server(
    alloc: Global,
    server: &SetupServer,
) -> Result<(SiteServer, Station<MemFolder, FarmBuilder>), FarmFault>
    ensures site { IfOk result (λ p. p.0 ≡ site_server (Some []) server.now) }
    ensures now { IfOk result (λ p. now_of p.0 p.1 ≡ server_begun p.0) }
    ensures well { IfOk result (λ p. IsWell p.0 p.1) }
    ensures own { IfOk result (λ p. p.1.builder ≡ None) }
    ensures hand { IfOk result (λ p. p.1.hand ≡ fresh_hand server.now.builder) }
    ensures err { IfErr result (λ e. e ≡ fault.Memory) }
{
    let folder = own_folder(alloc);
    let own = match OwnBuilder::of(alloc, server.builder.get()) {
        Ok(own) => own,
        Err(_) => return Err(FarmFault::Memory),
    };
    let (station, found) = Station::begun_own(alloc, server, folder, own)?;
    match copy_server(alloc, server, found) {
        Ok(site) => Ok((site, station)),
        Err(_) => Err(FarmFault::Memory),
    }
}

/// The servers that a script sets up.
fn own_servers(
    alloc: Global,
    servers: &[SetupServer],
) -> Result<(Vec<SiteServer>, Vec<Station<MemFolder, FarmBuilder>>), FarmFault>
    ensures sites { IfOk result (λ p. p.0.items ≡ map (site_server (Some [])) servers.now) }
    ensures stations { IfOk result (λ p. AreStations p.0.items [] p.1.items) }
    ensures own { IfOk result (λ p. AreOwn (map outside_of p.1.items)) }
    ensures hands { IfOk result
        (λ p. map (λ st. st.hand) p.1.items ≡ map (λ s. fresh_hand s.builder) servers.now) }
    ensures err { IfErr result (λ e. e ≡ fault.Memory) }
{
    let mut sites = Vec::with_capacity(alloc, servers.len())?;
    let mut stations = Vec::with_capacity(alloc, servers.len())?;
    for server in servers {
        let (site, station) = own_server(alloc, server)?;
        sites.push(site)?;
        stations.push(station)?;
    }
    Ok((sites, stations))
}

/// The farm that a script sets up, with no entries: over empty folders in memory, of which no call is to fail,
/// so that none does (`folder_laws`), and builders that answer by the lines of the script and then echo.
/// Refused for want of memory alone.
pub fn setup(alloc: Global, setup: &Setup) -> Result<Farm<MemFolder, FarmBuilder>, FarmFault>
    requires apart { AreApart (setup.now.scheduler.addr ∷ map (λ s. s.addr) setup.now.servers) }
    ensures setup { IfOk result (λ farm. farm.setup ≡ site_of setup.now) }
    ensures none { IfOk result (λ farm. farm.entries ≡ []) }
    ensures own { IfOk result (λ farm. AreOwn farm.outside) }
    ensures hands { IfOk result (λ farm. farm.hands ≡ map (λ s. fresh_hand s.builder) setup.now.servers) }
    ensures err { IfErr result (λ e. e ≡ fault.Memory) }
{
    let scheduler = match copy_scheduler(&setup.scheduler) {
        Ok(scheduler) => scheduler,
        Err(_) => return Err(FarmFault::Memory),
    };
    let (servers, stations) = own_servers(alloc, setup.servers.get())?;
    let site = Site {
        rules: setup.rules,
        scheduler,
        servers: Items::new(servers),
    };
    let farm = Farm::begun(alloc, site, stations)?;
    Ok(farm)
}

/// A server over a folder and a builder that are handed in.
fn handed_server<F: Folder + Drop, B: BuilderIncoming + Drop>(
    alloc: Global,
    server: &SetupServer,
    folder: F,
    builder: B,
) -> Result<(SiteServer, Station<F, B>), FarmFault>
    ensures begun { IfOk result (λ p. IsBegunAs server.now (F.held folder)
        (builder_of B.built B.refusals builder) p.0 (outside_of p.1)) }
    ensures now { IfOk result (λ p. now_of p.0 p.1 ≡ server_begun p.0) }
    ensures well { IfOk result (λ p. IsWell p.0 p.1) }
    ensures err { IfErr result (λ e. e ≡ fault.Memory) }
{
    let (station, found) = Station::begun(alloc, server, folder, builder)?;
    match copy_server(alloc, server, found) {
        Ok(site) => Ok((site, station)),
        Err(_) => Err(FarmFault::Memory),
    }
}

/// The servers of a setup over folders and builders that are handed in.
fn handed_servers<F: Folder + Drop, B: BuilderIncoming + Drop>(
    alloc: Global,
    servers: &[SetupServer],
    folders: Vec<F>,
    builders: Vec<B>,
) -> Result<(Vec<SiteServer>, Vec<Station<F, B>>), FarmFault>
    requires folders { length folders.items ≡ length servers.now }
    requires builders { length builders.items ≡ length servers.now }
    ensures begun { IfOk result (λ p. AreBegun servers.now (map F.held folders.items)
        (map (builder_of B.built B.refusals) builders.items) p.0.items (map outside_of p.1.items)) }
    ensures stations { IfOk result (λ p. AreStations p.0.items [] p.1.items) }
    ensures addresses { IfOk result (λ p. map (λ t. t.addr) p.0.items ≡ map (λ s. s.addr) servers.now) }
    ensures err { IfErr result (λ e. e ≡ fault.Memory) }
{
    let mut folders = folders.into_iter();
    let mut builders = builders.into_iter();
    let mut sites = Vec::with_capacity(alloc, servers.len())?;
    let mut stations = Vec::with_capacity(alloc, servers.len())?;
    for server in servers {
        let Some(folder) = folders.next() else {
            return Err(FarmFault::Memory);
        };
        let Some(builder) = builders.next() else {
            return Err(FarmFault::Memory);
        };
        let (site, station) = handed_server(alloc, server, folder, builder)?;
        sites.push(site)?;
        stations.push(station)?;
    }
    Ok((sites, stations))
}

impl<F: Folder + Drop, B: BuilderIncoming + Drop> Farm<F, B> {
    /// The farm of a setup, with no entries, over folders and builders that are handed in, one of each for
    /// each server. A server whose folder did not fail in the opening runs, with the archives that its files
    /// give; one whose opening failed does not run. Refused for want of memory alone.
    pub fn new(
        alloc: Global,
        setup: &Setup,
        folders: Vec<F>,
        builders: Vec<B>,
    ) -> Result<Self, FarmFault>
        requires apart { AreApart (setup.now.scheduler.addr ∷ map (λ s. s.addr) setup.now.servers) }
        requires folders { length folders.items ≡ length setup.now.servers }
        requires builders { length builders.items ≡ length setup.now.servers }
        ensures rules { IfOk result (λ farm. farm.setup.rules ≡ setup.now.rules) }
        ensures scheduler { IfOk result (λ farm. farm.setup.scheduler ≡ setup.now.scheduler) }
        ensures begun { IfOk result (λ farm. AreBegun setup.now.servers (map F.held folders.items)
            (map (builder_of B.built B.refusals) builders.items) farm.setup.servers farm.outside) }
        ensures none { IfOk result (λ farm. farm.entries ≡ []) }
        ensures err { IfErr result (λ e. e ≡ fault.Memory) }
    {
        let scheduler = match copy_scheduler(&setup.scheduler) {
            Ok(scheduler) => scheduler,
            Err(_) => return Err(FarmFault::Memory),
        };
        let (servers, stations) = handed_servers(alloc, setup.servers.get(), folders, builders)?;
        let site = Site {
            rules: setup.rules,
            scheduler,
            servers: Items::new(servers),
        };
        let farm = Farm::begun(alloc, site, stations)?;
        Ok(farm)
    }
}
