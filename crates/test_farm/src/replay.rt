//! A script that is replayed by the farm's own calls, under their public paths.
use crate::first_run::{FIRST_RUN, FIRST_SCRIPT};
use farm::begin::setup;
use farm::builder::FarmBuilder;
use farm::entry::Entry;
use farm::event::Event;
use farm::fault::FarmFault;
use farm::print::print_run;
use farm::run::{Farm, Stopped};
use farm::script::read_script;
use farm::setup::Setup;
use folders::mem_folder::MemFolder;
use std::alloc::Global;
use std::test::Fail;

/// The text of a script's run.
fn replayed(alloc: Global, script: &[u8]) -> Result<String, FarmFault> {
    let read: (Setup, Vec<Event>) = match read_script(alloc, script) {
        Ok(read) => read,
        Err(fault) => return Err(fault),
    };
    let (site, events) = read;
    let farm: Farm<MemFolder, FarmBuilder> = setup(alloc, &site)?;
    let ran: Result<Farm<MemFolder, FarmBuilder>, Stopped<MemFolder, FarmBuilder>> = farm.run(
        &events,
    );
    match ran {
        Ok(farm) => print_run(alloc, &farm),
        Err(_) => Err(FarmFault::Memory),
    }
}

#[test]
fn replays_the_first_run(rt: HostRuntime) -> Result<(), Fail> {
    let text = replayed(rt.alloc(), FIRST_SCRIPT.as_bytes())?;
    assert_eq!(rt; text.as_str(), FIRST_RUN);
    let refused = replayed(rt.alloc(), b"x");
    assert!(rt; matches!(&refused, Err(FarmFault::BadLine(1))));
    Ok(())
}

#[test]
fn a_farm_begins_with_no_entries(rt: HostRuntime) -> Result<(), Fail> {
    let (site, _) = read_script(rt.alloc(), FIRST_SCRIPT.as_bytes())?;
    let farm = setup(rt.alloc(), &site)?;
    let entries: &[Entry] = farm.history();
    assert_eq!(rt; entries.len(), 0);
    assert_eq!(rt; farm.ids_given(), 0);
    Ok(())
}
