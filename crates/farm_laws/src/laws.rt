//! Laws of runs, each a clause that quantifies over every input.
ghost use Rattle.std.specs.Prelude.{◌≡◌, ◌<◌, ◌^◌, List, [], ℕ};
ghost use Rattle.dist_types.specs.Builder.{Built};
ghost use Rattle.farm_entries.specs.Next.{IsNext, EachNext};
ghost use Rattle.farm_entries.specs.Lawful.{AreLawful};
ghost use Rattle.farm_entries.specs.RunText.{IsRunText};
ghost use Rattle.farm_entries.specs.Weather.{Outside, Weather, calm, between, IsTold};
ghost use Rattle.farm_entries.specs.declared.site.Site.{Site};
ghost use Rattle.farm_script.specs.declared.event.Event.{Event};
ghost use Rattle.farm_entries.specs.declared.entry.Entry.{Entry};

/// Over the same entries an event makes one entry at most in calm weather.
pub fn next_entries_are_one()
    ensures { (setup : Site) (log : List Entry) (event : Event) (a b : Entry)
        → IsNext calm setup log event a → IsNext calm setup log event b → a ≡ b }
{}

/// Over the same entries an event makes one entry at most also over a folder and a builder that were handed
/// in: where files are told, no count rose in it, and the rows that the builder tells after it are the same.
pub fn next_entries_are_one_by_what_is_told()
    ensures { (setup : Site) (log : List Entry) (event : Event) (old one other : Outside) (rows : List Built)
        (a b : Entry) → IsTold old one rows → IsTold old other rows
        → IsNext (between old one) setup log event a → IsNext (between old other) setup log event b
        → a ≡ b }
{}

/// Over the same entries a list of events makes one list of entries at most in calm weather.
pub fn runs_are_one()
    ensures { (setup : Site) (log : List Entry) (events : List Event) (a b : List Entry)
        → EachNext calm setup log events a → EachNext calm setup log events b → a ≡ b }
{}

/// Whatever the events, and whatever comes from outside, each core entry of a run is the core rule's; so
/// after each front of its entries different reservations have different jobs, each open job has exactly one
/// unended reservation, at a registration that stands, and no registration has a greater load than it has
/// room for.
pub fn runs_are_lawful()
    ensures { (w : Weather) (setup : Site) (events : List Event) (entries : List Entry)
        → setup.scheduler.count < 2 ^ 64 → EachNext w setup [] events entries → AreLawful setup entries }
{}

/// The run of a script has one text at most.
pub fn texts_are_one()
    ensures { (bytes a b : List ℕ) → IsRunText bytes a → IsRunText bytes b → a ≡ b }
{}
