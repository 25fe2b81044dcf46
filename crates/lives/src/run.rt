//! The lives of a script, and their text.
ghost use Rattle.std.specs.Prelude.{◌≡◌, ◌++◌, [], map, OnOk, IfOk, IfErr, string_bytes};
ghost use Rattle.std.specs.List.{AllByRecursion};
ghost use Rattle.farm_entries.specs.Builds.{HasToken};
ghost use Rattle.farm_entries.specs.Passage.{AreOwn};
ghost use Rattle.farm_script.specs.Setups.{IsSetup};
ghost use Rattle.line_program.specs.declared.fault.FarmFault.TheVariants as fault;
ghost use Rattle.lives.specs.Lives.{lived_in, IsLived};
ghost use Rattle.lives.specs.Text.{life_line, life_text, IsScriptRun};
ghost use Rattle.lives_script.specs.Ids.{AreApartIds, IsRange};
ghost use Rattle.lives_script.specs.Place.{ids_of};

use crate::ids::{base_of, given_before};
use crate::laws::{ids_are_given_in_order, no_id_is_built_twice};
use farm_run::begin;
use farm_run::print::print_run;
use farm_run::run::Farm;
use farm_stations::builder::FarmBuilder;
use folders::mem_folder::MemFolder;
use line_program::fault::FarmFault;
use lives_script::script::{Life, Script};
use std::alloc::{AllocError, Global};

/// A farm whose folders are in memory and whose builders are its own.
type OwnFarm = Farm<MemFolder, FarmBuilder>;

/// Writes the line of a life, and then its printed run.
fn push_life(out: &mut String, number: u64, life: &Life, text: &str) -> Result<(), AllocError>
    ensures { OnOk result (string_bytes out.new ≡ string_bytes out.old ++ life_line number life.now ++ text.now) }
{
    let from = life.from;
    let count = life.count;
    write!(out, "life {number} from {from} ids {count}\n")?;
    out.push_str(text)
}

/// Runs a life over a farm that just began, and writes its text. Refused for want of memory alone.
fn live(
    alloc: Global,
    out: &mut String,
    number: u64,
    life: &Life,
    farm: OwnFarm,
) -> Result<OwnFarm, FarmFault>
    requires fresh { farm.entries ≡ [] }
    requires own { AreOwn farm.outside }
    requires token { HasToken farm.setup.scheduler.auth }
    ensures setup { IfOk result (λ f. f.setup ≡ farm.setup) }
    ensures own { IfOk result (λ f. AreOwn f.outside) }
    ensures lived { IfOk result (λ f. IsLived (lived_in life.now f.setup f.entries)) }
    ensures text { IfOk result (λ f. string_bytes out.new
        ≡ string_bytes out.old ++ life_text number (lived_in life.now f.setup f.entries)) }
    ensures err { IfErr result (λ e. e ≡ fault.Memory) }
{
    let Ok(farm) = farm.run(life.events.get()) else {
        return Err(FarmFault::Memory);
    };
    let text = print_run(alloc, &farm)?;
    push_life(out, number, life, &text)?;
    Ok(farm)
}

/// The text of a script's lives. Refused for want of memory alone.
pub fn lives_of(alloc: Global, script: &Script) -> Result<String, FarmFault>
    requires setup { IsSetup script.now.setup }
    requires apart { AreApartIds (map ids_of script.now.lives) }
    requires ranges { AllByRecursion (λ life. IsRange (ids_of life)) script.now.lives }
    ensures text { IfOk result (λ t. IsScriptRun script.now (string_bytes t)) }
    ensures err { IfErr result (λ e. e ≡ fault.Memory) }
{
    no_id_is_built_twice();
    ids_are_given_in_order();
    let mut out = String::new(alloc);
    let mut farm = begin::setup(alloc, &script.setup)?;
    for (number, life) in script.lives.get().iter().enumerate() {
        let next = farm.go_on(base_of(life.from, life.count), given_before(life.count))?;
        farm = live(alloc, &mut out, number as u64, life, next)?;
    }
    Ok(out)
}
