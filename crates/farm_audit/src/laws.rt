//! Laws of what a farm prints.
ghost use Rattle.std.specs.Prelude.{◌≡◌, ◌<◌, ◌≤◌, ◌^◌, ℕ, List, [], length};
ghost use Rattle.std.specs.List.{flat_map};
ghost use Rattle.farm_script.specs.declared.event.Event.{Event};
ghost use Rattle.farm_entries.specs.declared.site.Site.{Site as Setup};
ghost use Rattle.farm_entries.specs.declared.entry.Entry.{Entry as Made};
ghost use Rattle.farm_entries.specs.Builds.{HasToken, HasWords};
ghost use Rattle.farm_entries.specs.Next.{EachNext};
ghost use Rattle.farm_entries.specs.Printed.{run_text};
ghost use Rattle.farm_entries.specs.RunText.{IsRunText};
ghost use Rattle.farm_entries.specs.Sites.{site_of};
ghost use Rattle.farm_entries.specs.Weather.{Weather};
ghost use Rattle.run_lines.specs.Grammar.{Each};
ghost use Rattle.run_lines.specs.Texts.{ended_text};
ghost use Rattle.audit.specs.Held.{IsHeld};
ghost use Rattle.farm_audit.specs.RunLines.{run_lines};
ghost use Rattle.farm_audit.specs.Fit.{HasLine, EffectFits, EntryFits, SiteFits};

use crate::fit::{effects_fit, has_addresses, number_fits, site_fits};
use farm_entries::entry::Entry;
use farm_entries::site::Site;
use farm_laws::build_laws::builds_are_accepted;
use farm_laws::laws::runs_are_lawful;

/// The text of a run is that of its lines, one after the other, each with its end.
pub fn runs_are_lines()
    ensures { (setup : Setup) (entries : List Made)
        → run_text setup entries ≡ flat_map ended_text (run_lines setup entries) }
{}

/// What a farm prints holds, whatever its events and whatever comes from outside: the text of a run is a
/// printed run, its core entries are the core rule's, its builds each a job's first behind its accepted start,
/// and its books those of its entries; where the values of its setup and of its entries have lines, and it is
/// within the limit.
pub fn runs_hold()
    ensures { (w : Weather) (setup : Setup) (events : List Event) (entries : List Made)
        → setup.scheduler.count < 2 ^ 64 → HasWords setup → EachNext w setup [] events entries
        → SiteFits setup → Each EntryFits entries → length (run_text setup entries) ≤ 268435456
        → IsHeld (run_text setup entries) }
{
    runs_are_lawful();
    builds_are_accepted();
}

/// So does the text of each script's run, where the values of its setup and of its entries fit their types.
pub fn scripts_hold()
    ensures { (bytes text : List ℕ) (run : IsRunText bytes text) → run.setup.scheduler.count < 2 ^ 64
        → SiteFits (site_of run.setup) → Each EffectFits run.entries → length text ≤ 268435456 → IsHeld text }
{}

/// What a farm prints holds: the text of a run of a farm whose values are at hand, where each event has a line
/// in the grammar of scripts, and it is within the limit; of a script's run no more is asked than the limit.
/// Nothing here does anything when it runs.
pub fn printed_runs_hold(setup: &Site, entries: &[Entry])
    ensures script { (bytes text : List ℕ) (run : IsRunText bytes text) → site_of run.setup ≡ setup.now
        → run.entries ≡ entries.now → length text ≤ 268435456 → IsHeld text }
    ensures given { (w : Weather) (events : List Event) → HasToken setup.now.scheduler.auth
        → EachNext w setup.now [] events entries.now → Each HasLine entries.now
        → length (run_text setup.now entries.now) ≤ 268435456 → IsHeld (run_text setup.now entries.now) }
{
    has_addresses(setup);
    number_fits(setup.scheduler.count);
    site_fits(setup);
    effects_fit(entries);
    runs_hold();
    scripts_hold();
}
