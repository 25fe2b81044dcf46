//! Farms over folders and builders that are handed in.
ghost use Rattle.farm_script.specs.Setups.{IsSetup};

use farm::builder::FarmBuilder;
use farm::event::Event;
use farm::fault::FarmFault;
use farm::run::Farm;
use farm::setup::{Setup, SetupServer};
use folders::calls::Calls;
use folders::mem_folder::MemFolder;
use std::alloc::Global;

/// A farm over folders in memory and builders of the script's lines.
pub(crate) type Run = Farm<MemFolder, FarmBuilder>;

/// An empty folder of which no call fails.
#[tactic(auto, using(crate::proofs::Empty::none_twice))]
fn folder_of(alloc: Global) -> MemFolder {
    let calls = Calls::new(Vec::new(alloc), Vec::new(alloc));
    MemFolder::new(alloc, Vec::new(alloc), calls)
}

/// An empty folder, and a builder of the setup's lines, for each server.
fn handed(
    alloc: Global,
    servers: &[SetupServer],
) -> Result<(Vec<MemFolder>, Vec<FarmBuilder>), FarmFault> {
    let mut folders = Vec::new(alloc);
    let mut builders = Vec::new(alloc);
    for server in servers {
        folders.push(folder_of(alloc))?;
        match FarmBuilder::of(alloc, server.builder.get()) {
            Ok(builder) => builders.push(builder)?,
            Err(_) => return Err(FarmFault::Memory),
        }
    }
    Ok((folders, builders))
}

/// A farm of a setup, no event run.
pub(crate) fn begun(alloc: Global, setup: &Setup) -> Result<Run, FarmFault>
    requires setup { IsSetup setup.now }
{
    let (folders, builders) = handed(alloc, setup.servers.get())?;
    let count = setup.servers.get().len();
    if folders.as_slice().len() != count || builders.as_slice().len() != count {
        return Err(FarmFault::Memory);
    }
    Farm::new(alloc, setup, folders, builders)
}

/// A farm of a setup that ran these events.
pub(crate) fn ran(alloc: Global, setup: &Setup, events: &[Event]) -> Result<Run, FarmFault>
    requires setup { IsSetup setup.now }
{
    let farm = begun(alloc, setup)?;
    match farm.run(events) {
        Ok(farm) => Ok(farm),
        Err(_) => Err(FarmFault::Memory),
    }
}
