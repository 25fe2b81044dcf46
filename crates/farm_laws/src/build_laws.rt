//! Laws of runs on calls and builds, each a clause that quantifies over every input, and over what may come
//! to build servers from outside: their folders and their builders.
ghost use Rattle.std.specs.Prelude.{◌≡◌, ◌<◌, ◌^◌, List, [], take, ℕ};
ghost use Rattle.farm_entries.specs.Builds.{AreSettledOnce, AreBuiltOnce, AreRanOnce, AreBuilds, HasWords};
ghost use Rattle.farm_entries.specs.Next.{EachNext};
ghost use Rattle.farm_entries.specs.Weather.{Weather};
ghost use Rattle.farm_entries.specs.Reliable.{IsReliable, ReturnsGrant};
ghost use Rattle.farm_entries.specs.declared.site.Site.{Site};
ghost use Rattle.farm_script.specs.declared.event.Event.{Event};
ghost use Rattle.farm_entries.specs.declared.entry.Entry.{Entry};

/// At every prefix of a run a call is settled at most once, whatever the words of the farm are.
pub fn calls_are_settled_once()
    ensures { (w : Weather) (setup : Site) (events : List Event) (entries : List Entry)
        → EachNext w setup [] events entries → (n : ℕ) → AreSettledOnce (take n entries) }
{}

/// At every prefix of a run each build goes on from an accepted start of a run request, and no id is built
/// twice.
pub fn builds_are_accepted()
    ensures { (w : Weather) (setup : Site) (events : List Event) (entries : List Entry)
        → setup.scheduler.count < 2 ^ 64
        → HasWords setup → EachNext w setup [] events entries → AreBuilds setup entries }
{}

/// No id is built twice.
pub fn no_id_is_built_twice()
    ensures { (w : Weather) (setup : Site) (events : List Event) (entries : List Entry)
        → setup.scheduler.count < 2 ^ 64
        → HasWords setup → EachNext w setup [] events entries → AreBuiltOnce entries }
{}

/// At every prefix of a run no id has two ran steps behind an accepted start, whatever they say, and whatever
/// the words of the farm are.
pub fn no_id_is_run_twice()
    ensures { (w : Weather) (setup : Site) (events : List Event) (entries : List Entry)
        → setup.scheduler.count < 2 ^ 64
        → EachNext w setup [] events entries → (n : ℕ) → AreRanOnce (take n entries) }
{}

/// An entry is replied to at most once; a request whose calls come back granted gets the reply that its row
/// names; a restart lists what its opening gives, which are in calm weather the archives that were there.
pub fn runs_are_reliable()
    ensures { (w : Weather) (setup : Site) (events : List Event) (entries : List Entry)
        → EachNext w setup [] events entries → IsReliable w setup entries }
{}

/// Where the farm's words can be read, the return of a delivery that got a 200 grants what was asked: the
/// assignment of a job, whose request then gets the 200 of its commit, and a server's report: that of a
/// submission, that a run starts, and that it is complete.
pub fn returned_reports_are_granted()
    ensures { (w : Weather) (setup : Site) (events : List Event) (entries : List Entry) → HasWords setup
        → EachNext w setup [] events entries → ReturnsGrant setup entries }
{}
