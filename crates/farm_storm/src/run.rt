//! The run of the storm.
ghost use Rattle.std.specs.Prelude.{◌≡◌, [], IfOk, IfErr, OnErr, string_bytes};
ghost use Rattle.line_program.specs.declared.fault.FarmFault.TheVariants as fault;
ghost use Rattle.farm_storm.specs.Summary.{IsStormText, IsStormed};

use crate::clients::Clients;
use crate::events::event_at;
use crate::setup::storm_setup;
use crate::summary::summary;
use farm_run::begin;
use farm_run::builder::FarmBuilder;
use farm_run::run::Farm;
use folders::mem_folder::MemFolder;
use line_program::fault::FarmFault;
use std::alloc::Global;

/// The farm before the first event.
#[tactic(auto, using(crate::proofs::StormLemmas::setup_apart, crate::proofs::StormLemmas::begun_run))]
fn begun(alloc: Global) -> Result<Farm<MemFolder, FarmBuilder>, FarmFault>
    ensures ok { IfOk result (IsStormed 0) }
    ensures err { IfErr result (λ e. e ≡ fault.Memory) }
{
    match storm_setup(alloc) {
        Ok(setup) => begin::setup(alloc, &setup),
        Err(_) => Err(FarmFault::Memory),
    }
}

/// The farm after so many events.
#[tactic(auto, using(crate::proofs::StormLemmas::begun_run, crate::proofs::StormLemmas::more_run))]
fn run_storm(alloc: Global, count: u64) -> Result<Farm<MemFolder, FarmBuilder>, FarmFault>
    ensures ok { IfOk result (IsStormed count) }
    ensures err { IfErr result (λ e. e ≡ fault.Memory) }
{
    let mut clients = match Clients::new(alloc) {
        Ok(clients) => clients,
        Err(_) => return Err(FarmFault::Memory),
    };
    let mut farm = begun(alloc)?;
    for number in 0..count {
        let event = match event_at(alloc, &mut clients, number) {
            Ok(event) => event,
            Err(_) => return Err(FarmFault::Memory),
        };
        farm = match farm.step(&event) {
            Ok(farm) => farm,
            Err(_) => return Err(FarmFault::Memory),
        };
    }
    Ok(farm)
}

/// The summary of the storm of so many events. Refused for want of memory alone.
#[tactic(auto, using(crate::proofs::StormLemmas::told))]
pub fn storm_text(alloc: Global, count: u64) -> Result<String, FarmFault>
    ensures ok { IfOk result (λ text. IsStormText count (string_bytes text)) }
    ensures err { IfErr result (λ e. e ≡ fault.Memory) }
{
    let farm = run_storm(alloc, count)?;
    match summary(alloc, count, &farm) {
        Ok(text) => Ok(text),
        Err(_) => Err(FarmFault::Memory),
    }
}
