//! A farm, and its runs.
ghost use Rattle.std.specs.Prelude.{◌≡◌, [], ◌<◌, ◌≤◌, ◌^◌, ℕ, List, length, take, slice_get, map, IfOk};
ghost use Rattle.std.specs.Prelude.{vec_len, vec_capacity};
ghost use Rattle.farm_script.specs.declared.event.Event.{Event as Happening};
ghost use Rattle.std.specs.Prelude.{IfErr, OnOk, OnErr, MatchOption, Some, true, false};
ghost use Rattle.build_server.specs.Builds.{builder_of};
ghost use Rattle.core_rules.specs.Job.{open_jobs};
ghost use Rattle.core_rules.specs.Rows.{servers_of, jobs_of, job_row, unended_by_id};
ghost use Rattle.line_program.specs.declared.fault.FarmFault.TheVariants as fault;
ghost use Rattle.farm_entries.specs.declared.site.SiteServer.{SiteServer};
ghost use Rattle.farm_entries.specs.Builds.{AreBuilds, HasToken, HasWords};
ghost use Rattle.farm_run.specs.Alike.{AllAlike};
ghost use Rattle.farm_run.specs.GoesOn.{next_site};
ghost use Rattle.farm_run.specs.Farm.{Farmed, IsFarm, IsMadeSo, acted, AddsNext, StepsTo, Runs, AreOnce};
ghost use Rattle.farm_entries.specs.Lawful.{AreLawful, HasNext};
ghost use Rattle.farm_entries.specs.Next.{IsRun};
ghost use Rattle.farm_entries.specs.Passage.{AreOwn, AllStay, AreInStep};
ghost use Rattle.farm_entries.specs.Printed.{ids_given};
ghost use Rattle.farm_entries.specs.Reliable.{IsReliable, ReturnsGrant};
ghost use Rattle.farm_entries.specs.Seen.{core_log};
ghost use Rattle.farm_entries.specs.Servers.{server_of};
ghost use Rattle.farm_stations.specs.Stations.{now_of, AreStations, HasApart};
ghost use Rattle.farm_stations.specs.Hands.{Hand};
ghost use Rattle.farm_stations.specs.Post.{outside_of, around_of};
ghost use Rattle.farm_run.specs.Stops.{folders_in, AreGiven, AreHands, IsCutOff, AreHandedBack};
ghost use Rattle.farm_entries.specs.Ways.{way_of};
ghost use Rattle.farm_entries.specs.Weather.{Outside, calm, free};

use crate::arrivals::{arrive, deliver, restart, send_beat};
use crate::desk::Desk;
use crate::go_on::next_servers;
use crate::lookup::{delivery_at, is_inside};
use crate::pending::{Made, idle, release};
use crate::room::Room;
use crate::serve::{Arrival, Stamp};
use crate::settle::Settlement;
use crate::settlements::take_back;
use crate::words::{has_addresses, has_count};
use dist_types::builder::BuilderIncoming;
use dist_types::text::Items;
use farm_entries::entry::Entry;
use farm_entries::pending::Pending;
use farm_entries::site::Site;
use farm_script::event::{Event, EventKind};
use farm_script::setup::SetupScheduler;
use farm_stations::station::Station;
use folders::folder::Folder;
use line_program::fault::FarmFault;
use sched_core::rows::{Jobs, Servers};
use sched_core::state::SchedState;
use std::alloc::Global;
use std::marker::Model;

/// The log of all that came to a farm.
struct Log {
    entries: Vec<Entry>,
    /// A place for each entry, for what is kept of its call while that waits.
    kept: Vec<Option<Pending>>,
}

/// A farm and the log of all that came to it. Contracts see how it was set up, the entries, and what is
/// outside of its servers.
pub struct Farm<F: Folder + Drop, B: BuilderIncoming + Drop> {
    /// Boxed, since each event moves its farm.
    desk: Box<Desk>,
    /// One for each server, in the order of the setup.
    stations: Vec<Station<F, B>>,
    log: Log,
    /// For what is handed back.
    room: Room<F, B>,
}

impl<F: Folder + Drop, B: BuilderIncoming + Drop> Model for Farm<F, B> {
    ghost use Rattle.std.specs.Prelude.{map};
    ghost use Rattle.farm_run.specs.Farm.{Farmed};
    ghost use Rattle.farm_stations.specs.Post.{outside_of};
    ghost use Rattle.farm_run.specs.Stops.{IsWhole};

    ghost Value = { Farmed };

    ghost view = { λ f. record {
      setup = f.desk.value.setup;
      entries = f.log.entries.items;
      outside = map outside_of f.stations.items;
      hands = map (λ st. st.hand) f.stations.items;
    } };

    ghost invariant = { λ f. IsWhole f.desk.value.setup f.desk.value.state f.log.entries.items
        f.log.kept.items f.stations.items f.room };
}

/// What is kept of calls that wait is undone.
impl<F: Folder + Drop, B: BuilderIncoming + Drop> Drop for Farm<F, B> {
    fn drop(self) {
        let Farm {
            desk,
            stations: _,
            log,
            room: _,
        } = self;
        let _ = let_go(desk, log);
    }
}

/// A run that stopped for want of memory.
#[derive(Drop)]
pub struct Stopped<F: Folder + Drop, B: BuilderIncoming + Drop> {
    /// The entries of the events that were done whole.
    pub entries: Items<Entry>,
    /// The folder of each server, in the order of the setup.
    pub folders: Vec<F>,
    /// The builder of each server, also one that `setup` made, in the order of the setup.
    pub builders: Vec<B>,
}

/// Undoes what is kept of calls that wait, and lets all go but the entries.
fn let_go(desk: Box<Desk>, log: Log) -> Vec<Entry>
    ensures entries { result.items ≡ log.entries.items }
{
    let Log { entries, kept } = log;
    let Desk {
        alloc: _,
        setup: _,
        state,
    } = Box::into_inner(desk);
    release(state, kept);
    entries
}

/// Stops a run: the entries, the folders and the builders are handed back. It takes no memory.
fn stop<F: Folder + Drop, B: BuilderIncoming + Drop>(
    desk: Box<Desk>,
    stations: Vec<Station<F, B>>,
    log: Log,
    room: Room<F, B>,
) -> Stopped<F, B>
    requires room { length stations.items ≤ room }
    ensures entries { result.entries ≡ log.entries.items }
    ensures folders { map F.held result.folders.items ≡ folders_in (map outside_of stations.items) }
    ensures builders { AreGiven (builder_of B.built B.refusals) B.answers (map (λ st. st.hand) stations.items)
        result.builders.items }
{
    let entries = let_go(desk, log);
    let (folders, builders) = room.fill(stations);
    Stopped {
        entries: Items::new(entries),
        folders,
        builders,
    }
}

impl<F: Folder + Drop, B: BuilderIncoming + Drop> Farm<F, B> {
    /// A farm with no entries, over stations that were begun. Refused for want of memory alone.
    pub(crate) fn begun(
        alloc: Global,
        setup: Site,
        stations: Vec<Station<F, B>>,
    ) -> Result<Self, FarmFault>
        requires apart { HasApart setup }
        requires stations { AreStations setup.servers [] stations.items }
        ensures begun { IfOk result (λ farm. farm ≡ record {
          setup = setup;
          entries = [];
          outside = map outside_of stations.items;
          hands = map (λ st. st.hand) stations.items;
        }) }
        ensures err { IfErr result (λ e. e ≡ fault.Memory) }
    {
        let room = Room::of(alloc, stations.len())?;
        has_count(setup.scheduler.count);
        let state = SchedState::with_rules(
            alloc,
            setup.scheduler.base,
            setup.scheduler.count,
            setup.rules,
        );
        let desk = Box::new(
            alloc,
            Desk {
                alloc,
                setup,
                state,
            },
        )?;
        Ok(Farm {
            desk,
            stations,
            log: Log {
                entries: Vec::new(alloc),
                kept: Vec::new(alloc),
            },
            room,
        })
    }

    /// The folder and the builder of each server, in the order of the setup: one that was handed in tells what is
    /// outside of the server, and one that `setup` made its whole record, and has the lines that are left. It takes
    /// no memory.
    pub fn into_parts(self) -> (Vec<F>, Vec<B>)
        ensures folders { map F.held result.0.items ≡ folders_in self.outside }
        ensures builders { AreGiven (builder_of B.built B.refusals) B.answers self.hands result.1.items }
        ensures left { AreHands self.setup self.entries self.outside self.hands }
    {
        self.have_hands();
        let Farm {
            desk,
            stations,
            log,
            room,
        } = self;
        let _ = let_go(desk, log);
        room.fill(stations)
    }

    /// Ends the run, and begins another one with that first id and that count of ids that were given before.
    /// Every call that waits is given up; each server begins again as it was set up, over its folder, with its
    /// builder, which has the lines that are left. Refused for want of memory alone, as which a fault of a
    /// folder of the farm's own is told.
    pub fn go_on(self, base: u64, count: u64) -> Result<Self, FarmFault>
        ensures setup { IfOk result (λ farm. AreOwn self.outside
            → farm.setup ≡ next_site base count self.setup self.entries) }
        ensures none { IfOk result (λ farm. farm.entries ≡ []) }
        ensures own { IfOk result (λ farm. AreOwn self.outside → AreOwn farm.outside) }
        ensures stays { IfOk result (λ farm. AllStay self.outside farm.outside) }
        ensures err { IfErr result (λ e. e ≡ fault.Memory) }
    {
        let Farm {
            desk,
            stations,
            log,
            room: _,
        } = self;
        let Desk {
            alloc,
            setup,
            state,
        } = Box::into_inner(desk);
        let Log { entries, kept } = log;
        release(state, kept);
        let Site {
            rules,
            scheduler,
            servers,
        } = setup;
        let (servers, stations) = next_servers(alloc, servers.get(), stations, &entries)?;
        let site = Site {
            rules,
            scheduler: SetupScheduler {
                base,
                count,
                ..scheduler
            },
            servers: Items::new(servers),
        };
        Farm::begun(alloc, site, stations)
    }

    /// How it was set up.
    pub fn setup(&self) -> &Site
        ensures setup { result.now ≡ self.now.setup }
    {
        &self.desk.setup
    }

    /// The entries, oldest first. It takes no memory.
    pub fn history(&self) -> &[Entry]
        ensures entries { result.now ≡ self.now.entries }
    {
        &self.log.entries
    }

    /// The registrations that stand, by rising number. It takes no memory.
    pub fn servers(&self) -> Servers<'_>
        ensures rows { result ≡ servers_of (core_log self.now.entries) }
    {
        self.desk.state.servers()
    }

    /// The reservations that are unended, by rising id. It takes no memory.
    pub fn jobs(&self) -> Jobs<'_>
        ensures rows { result ≡ jobs_of (core_log self.now.entries) }
        // None is left out: each is at a registration that has an address.
        ensures all { map Some result ≡ map (job_row (core_log self.now.entries))
            (unended_by_id (core_log self.now.entries)) }
    {
        self.desk.state.jobs()
    }

    /// How many ids are given: those before the script, and one for each job that was reserved. It takes
    /// no memory, and does not go through the log.
    #[tactic(auto, using(crate::proofs::IdLemmas::ids_fit))]
    pub fn ids_given(&self) -> u64
        ensures given { result ≡ ids_given self.now.setup.scheduler (core_log self.now.entries) }
    {
        self.desk.state.count() + self.desk.state.reservation_count()
    }

    /// How many jobs are open. It takes no memory, and does not go through the log.
    pub fn open_count(&self) -> usize
        ensures { result ≡ length (open_jobs (core_log self.now.entries)) }
    {
        self.desk.state.open_count()
    }

    /// The station of a server, by its place in the setup.
    pub(crate) fn station(&self, place: usize) -> Option<&Station<F, B>>
        ensures station { MatchOption result (length self.now.setup.servers ≤ place)
            (λ st. (s : SiteServer) → slice_get self.now.setup.servers place ≡ Some s
            → now_of s st.now ≡ server_of s self.now.entries) }
    {
        self.stations.get(place)
    }

    /// Runs one event. Stopped for want of memory alone, with the entries before it.
    #[tactic(auto, using(crate::proofs::PassageLemmas::step_of))]
    pub fn step(self, event: &Event) -> Result<Farm<F, B>, Stopped<F, B>>
        ensures ok { IfOk result (StepsTo self event.now) }
        ensures err { IfErr result (λ s. s.entries ≡ self.entries) }
        ensures back { IfErr result (λ s. AreHandedBack self.setup self.entries event.now.kind self.outside
            self.hands (map F.held s.folders.items)
            (λ hands. AreGiven (builder_of B.built B.refusals) B.answers hands s.builders.items)) }
        ensures run { OnErr result (IsRun free self.setup self.entries) }
        ensures calmly { OnErr result (AreOwn self.outside → IsRun calm self.setup self.entries) }
    {
        self.obey();
        self.in_step();
        self.have_hands();
        let Farm {
            mut desk,
            mut stations,
            mut log,
            room,
        } = self;
        if !advance(&mut *desk, &mut stations, &mut log, event) {
            return Err(stop(desk, stations, log, room));
        }
        Ok(Farm {
            desk,
            stations,
            log,
            room,
        })
    }

    /// That the entries are those of a run from none, so that all laws of runs hold of them.
    fn obey(&self)
        ensures fits { self.now.setup.scheduler.count < 2 ^ 64 }
        ensures run { IsRun free self.now.setup self.now.entries }
        ensures calmly { AreOwn self.now.outside → IsRun calm self.now.setup self.now.entries }
    {
        let _ = self.log.entries.len();
    }

    /// That each server that runs lists what its folder holds, unless that failed since its last opening
    /// began.
    pub fn in_step(&self)
        ensures { AreInStep self.now.setup self.now.entries self.now.outside }
    {
        let _ = self.log.entries.len();
    }

    /// That each server's builder is the one that was handed in, or has the lines left that are not built.
    fn have_hands(&self)
        ensures { AreHands self.now.setup self.now.entries self.now.outside self.now.hands }
    {
        let _ = self.log.entries.len();
    }

    /// That over the entries each event, whatever it is, has a next one.
    #[tactic(auto, using(farm_laws::proofs::ThereLemmas::has_next))]
    pub fn goes_on(&self)
        ensures { HasNext self.now.setup self.now.entries }
    {
        let _ = self.log.entries.len();
    }

    /// That over the entries an event has one next entry at most, also over folders and builders that were
    /// handed in: where files are told, no count rises, and such a builder tells the same rows after the one
    /// as after the other.
    pub fn goes_one_way(&self)
        ensures { (event : Happening) (one other : Farmed) → StepsTo self.now event one
            → StepsTo self.now event other → AllAlike self.now.outside one.outside other.outside
            → one.entries ≡ other.entries }
    {
        let _ = self.log.entries.len();
    }

    /// That its calls can be read, where its servers have a token or a key.
    fn words(&self)
        ensures words { HasToken self.now.setup.scheduler.auth → HasWords self.now.setup }
        ensures count { self.now.setup.scheduler.count < 2 ^ 64 }
    {
        has_addresses(&self.desk.setup);
    }

    /// Runs events in order. Stopped for want of memory alone, with the entries of the events that were
    /// done whole.
    pub fn run(self, events: &[Event]) -> Result<Farm<F, B>, Stopped<F, B>>
        // One entry more for each event, each next over the entries before it in the weather that is outside
        // of its server: what its folder and its builder were before the event and are after it.
        ensures ok { IfOk result (Runs self events.now) }
        // After each front of the entries the books are those of a lawful scheduler: different reservations
        // have different jobs, each open job has exactly one unended reservation, at a registration that
        // stands, and no load is over its bound.
        ensures laws { IfOk result (λ farm. AreLawful farm.setup farm.entries) }
        // After each front each build goes on from an accepted start, which is the return of an earlier
        // delivery that moved the job from ready to started; no id is built twice; a call is settled at most
        // once. Where build servers have one token, that has 1 to 1,024 visible bytes.
        ensures builds { IfOk result (λ farm. HasToken self.setup.scheduler.auth
            → AreBuilds farm.setup farm.entries) }
        // After each front, whatever the words are: a call is settled at most once, and no id has two ran
        // steps behind an accepted start.
        ensures once { IfOk result (λ farm. AreOnce farm.entries) }
        // An entry is replied to at most once; a request whose calls are granted gets the reply that its row
        // names; a restart lists what its opening gives.
        ensures reliable { IfOk result (λ farm. IsReliable free farm.setup farm.entries) }
        // The same in calm weather, where the farm made its folders and builders itself, as `setup` does: a
        // submission and a run come to what the rules say, and a restart lists the archives that were there.
        ensures calmly { IfOk result
            (λ farm. AreOwn self.outside → IsReliable calm farm.setup farm.entries) }
        // Where the words can be read, the return of a delivery that got a 200 grants what was asked: the call
        // for an assignment comes back as one, and its request gets the 200 of its commit; and a server's
        // report is granted.
        ensures grants { IfOk result (λ farm. HasToken self.setup.scheduler.auth
            → ReturnsGrant farm.setup farm.entries) }
        // Each file outside of the directory of a server's archives is as it was, where files are told, and the
        // count of no folder has fallen.
        ensures stays { IfOk result (λ farm. AllStay self.outside farm.outside) }
        // Where files are told and no call of its folder failed since its last opening began, each server that
        // runs lists the archives that its folder holds, in their order.
        ensures in_step { IfOk result (λ farm. AreInStep farm.setup farm.entries farm.outside) }
        // All hold also of the events before the one that memory ran out in. The folders and builders are
        // handed back as they were after those events, but at the one server that this one reaches for: that
        // which it restarts, or whose report it settles.
        ensures err { IfErr result (λ s. (n : ℕ) × ((event : Happening)
            × (slice_get events.now n ≡ Some event) × ((outside : List Outside) × ((hands : List Hand)
            × Runs self (take n events.now)
            (record { setup = self.setup; entries = s.entries; outside = outside; hands = hands })
            × AreHandedBack self.setup s.entries event.kind outside hands (map F.held s.folders.items)
            (λ hs. AreGiven (builder_of B.built B.refusals) B.answers hs s.builders.items))))) }
        ensures stopped_laws { IfErr result (λ s. AreLawful self.setup s.entries) }
        ensures stopped_builds { IfErr result (λ s. HasToken self.setup.scheduler.auth
            → AreBuilds self.setup s.entries) }
        ensures stopped_once { IfErr result (λ s. AreOnce s.entries) }
        ensures stopped_reliable { IfErr result (λ s. IsReliable free self.setup s.entries) }
        ensures stopped_calmly { IfErr result
            (λ s. AreOwn self.outside → IsReliable calm self.setup s.entries) }
        ensures stopped_grants { IfErr result (λ s. HasToken self.setup.scheduler.auth
            → ReturnsGrant self.setup s.entries) }
    {
        let mut farm = self;
        farm.words();
        for event in events {
            farm = farm.step(event)?;
        }
        farm.obey();
        farm.in_step();
        Ok(farm)
    }
}

/// What an event makes.
fn made_of<F: Folder + Drop, B: BuilderIncoming + Drop>(
    desk: &mut Desk,
    stations: &mut Vec<Station<F, B>>,
    entries: &[Entry],
    kept: &mut Vec<Option<Pending>>,
    event: &Event,
) -> Result<Made, FarmFault>
    requires farm { IsFarm desk.old.setup desk.old.state entries.now kept.old.items stations.old.items }
    ensures made { IfOk result
        (IsMadeSo desk.old.setup entries.now event.now (way_of desk.old.setup entries.now event.now.kind)
        kept.new.items stations.old.items stations.new.items) }
    ensures desk { IfOk result (λ m. desk.new ≡ acted desk.old m.effect.core) }
    ensures cut { OnErr result (IsCutOff desk.old.setup entries.now event.now.kind
        (map around_of stations.old.items) (map around_of stations.new.items)) }
    ensures room { OnOk result (vec_capacity kept.new ≡ vec_capacity kept.old) }
    ensures places { OnOk result (vec_len kept.new ≡ vec_len kept.old) }
    ensures err { IfErr result (λ e. e ≡ fault.Memory) }
{
    let at = event.at;
    match &event.kind {
        EventKind::Request {
            target,
            peer,
            bytes,
        } => {
            let arrival = Arrival {
                stamp: Stamp {
                    number: entries.len() as u64,
                    at,
                },
                peer: *peer,
                bytes: bytes.get(),
            };
            arrive(desk, stations, entries, *target, &arrival)
        }
        EventKind::Deliver { call } => deliver(desk, stations, entries, at, *call),
        EventKind::Fail { call } => {
            let settlement = Settlement {
                call: *call,
                at,
                reply: None,
            };
            take_back(desk, stations, entries, kept, &settlement)
        }
        EventKind::Return { delivery } => match delivery_at(entries, *delivery) {
            None => Ok(idle()),
            Some((call, bytes)) => {
                let settlement = Settlement {
                    call,
                    at,
                    reply: Some(bytes),
                };
                take_back(desk, stations, entries, kept, &settlement)
            }
        },
        EventKind::Answer { call, bytes } => {
            if is_inside(&desk.setup, entries, *call) {
                return Ok(idle());
            }
            let settlement = Settlement {
                call: *call,
                at,
                reply: Some(bytes.get()),
            };
            take_back(desk, stations, entries, kept, &settlement)
        }
        EventKind::Beat { server } => send_beat(desk, stations, entries, *server),
        EventKind::Restart { server, key, nonce } => {
            restart(desk, stations, *server, key.get(), *nonce)
        }
    }
}

/// Makes the entry of an event.
fn make<F: Folder + Drop, B: BuilderIncoming + Drop>(
    desk: &mut Desk,
    stations: &mut Vec<Station<F, B>>,
    log: &mut Log,
    event: &Event,
) -> Result<(), FarmFault>
    requires farm { IsFarm desk.old.setup desk.old.state log.old.entries.items log.old.kept.items
        stations.old.items }
    ensures setup { OnOk result (desk.new.setup ≡ desk.old.setup) }
    ensures next { OnOk result
        (AddsNext desk.old.setup log.old.entries.items event.now log.new.entries.items
        (map outside_of stations.old.items) (map outside_of stations.new.items)) }
    ensures farm { OnOk result
        (IsFarm desk.new.setup desk.new.state log.new.entries.items log.new.kept.items stations.new.items) }
    ensures same { OnErr result (log.new.entries.items ≡ log.old.entries.items) }
    ensures cut { OnErr result (IsCutOff desk.old.setup log.old.entries.items event.now.kind
        (map around_of stations.old.items) (map around_of stations.new.items)) }
    ensures err { IfErr result (λ e. e ≡ fault.Memory) }
{
    let copy = event.copy(desk.alloc)?;
    log.entries.reserve(1)?;
    log.kept.reserve(1)?;
    let made = made_of(desk, stations, &log.entries, &mut log.kept, event)?;
    let Made { effect, pending } = made;
    log.kept.push_reserved(pending);
    log.entries.push_reserved(Entry::new(copy, effect));
    Ok(())
}

/// Makes the entry of an event, and gives whether memory was there for it.
fn advance<F: Folder + Drop, B: BuilderIncoming + Drop>(
    desk: &mut Desk,
    stations: &mut Vec<Station<F, B>>,
    log: &mut Log,
    event: &Event,
) -> bool
    requires farm { IsFarm desk.old.setup desk.old.state log.old.entries.items log.old.kept.items
        stations.old.items }
    ensures setup { result ≡ true → desk.new.setup ≡ desk.old.setup }
    ensures next { result ≡ true
        → AddsNext desk.old.setup log.old.entries.items event.now log.new.entries.items
        (map outside_of stations.old.items) (map outside_of stations.new.items) }
    ensures farm { result ≡ true → IsFarm desk.new.setup desk.new.state log.new.entries.items
        log.new.kept.items stations.new.items }
    ensures same { result ≡ false → log.new.entries.items ≡ log.old.entries.items }
    ensures cut { result ≡ false → IsCutOff desk.old.setup log.old.entries.items event.now.kind
        (map around_of stations.old.items) (map around_of stations.new.items) }
{
    match make(desk, stations, log, event) {
        Ok(()) => true,
        Err(_) => false,
    }
}
