//! A call that comes back, by its reply or lost.
ghost use Rattle.std.specs.Prelude.{vec_len, vec_capacity};
ghost use Rattle.std.specs.Prelude.{◌≡◌, slice_get, map, IfOk, IfErr, OnOk, OnErr, Some, None, option_copied};
ghost use Rattle.farm_script.specs.declared.event.Event.{Event as Happening};
ghost use Rattle.line_program.specs.declared.fault.FarmFault.TheVariants as fault;
ghost use Rattle.farm_entries.specs.declared.site.SiteServer.{SiteServer as Site};
ghost use Rattle.farm_entries.specs.Begun.{Keeps, completion_at, completion_of};
ghost use Rattle.farm_run.specs.Farm.{IsFarm, IsMadeSo, Stands, acted};
ghost use Rattle.farm_entries.specs.Next.{Follows};
ghost use Rattle.farm_entries.specs.Passage.{LeavesOutside};
ghost use Rattle.farm_stations.specs.Post.{Post, LeavesAround, around_of, outside_of};
ghost use Rattle.farm_entries.specs.Seen.{core_of};
ghost use Rattle.farm_entries.specs.Servers.{stepped, server_now};
ghost use Rattle.farm_entries.specs.Settled.{IsOwnBy, ReportsIn};
ghost use Rattle.farm_stations.specs.Stations.{now_of, IsWell, AreWell, AreStations, IsStepAt, HasApart};
ghost use Rattle.farm_run.specs.Stops.{IsCutFor, IsReportOf, reporter};
ghost use Rattle.farm_entries.specs.Ways.{way_of, to_call};
ghost use Rattle.farm_entries.specs.Weather.{Weather, weather_of};

use crate::desk::Desk;
use crate::lookup::{brought_at, place_of};
use crate::pending::{Made, drop_told, idle, take_at};
use crate::reports::{Back, go_on as go_on_report};
use crate::settle::{Settlement, end_assignment};
use crate::told::Turn;
use dist_types::builder::BuilderIncoming;
use farm_entries::entry::{Effect, Entry, EntryWord};
use farm_entries::pending::{Ask, Pending, Told};
use farm_entries::site::SiteServer;
use farm_stations::station::Station;
use folders::folder::Folder;
use line_program::fault::FarmFault;

/// A call of the server at a place of the setup goes on by its reply, where the life that made it goes on.
pub(crate) fn report_at<F: Folder + Drop, B: BuilderIncoming + Drop>(
    desk: &Desk,
    stations: &mut Vec<Station<F, B>>,
    place: usize,
    back: &Back<'_>,
    told: Told,
) -> Result<Made, FarmFault>
    requires well { AreWell desk.now.setup.servers stations.old.items }
    ensures kept { IfOk result (λ m. (s : Site) (st : Post) → slice_get desk.now.setup.servers place ≡ Some s
        → slice_get stations.old.items place ≡ Some st
        → Keeps (λ p. completion_at back.now.root back.now.json s.addr back.now.life m.effect.step ≡ Some p)
        m.effect m.pending) }
    ensures step { IfOk result (λ m. (s : Site) (st : Post) → slice_get desk.now.setup.servers place ≡ Some s
        → slice_get stations.old.items place ≡ Some st
        → (is : IsStepAt s place st m.effect.step stations.old.items stations.new.items)
        × ReportsIn (weather_of (outside_of st) (outside_of is.after)) desk.now.setup back.now.life
        back.now.brought.now back.now.root back.now.json (option_copied back.now.reply) told
        (Some (now_of s st)) m.effect) }
    ensures there { OnOk result ((st : Post) × (slice_get stations.old.items place ≡ Some st)) }
    ensures cut { OnErr result
        (IsCutFor (λ a was is. (s : Site) → slice_get desk.now.setup.servers place ≡ Some s → s.addr ≡ a)
        desk.now.setup (map around_of stations.old.items) (map around_of stations.new.items)) }
    ensures err { IfErr result (λ e. e ≡ fault.Memory) }
{
    match desk.setup.servers.get().get(place) {
        None => {
            drop_told(told);
            Err(FarmFault::Memory)
        }
        Some(server) => match stations.get_mut(place) {
            None => {
                drop_told(told);
                Err(FarmFault::Memory)
            }
            Some(station) => report_in(desk, server, station, back, told),
        },
    }
}

/// A call of a server goes on by its reply, where the life that made it goes on; else who asked is gone.
pub(crate) fn report_in<F: Folder + Drop, B: BuilderIncoming + Drop>(
    desk: &Desk,
    server: &SiteServer,
    station: &mut Station<F, B>,
    back: &Back<'_>,
    told: Told,
) -> Result<Made, FarmFault>
    requires well { IsWell server.now station.old }
    ensures made { IfOk result
        (λ m. ReportsIn (weather_of (outside_of station.old) (outside_of station.new)) desk.now.setup
        back.now.life back.now.brought.now back.now.root back.now.json (option_copied back.now.reply) told
        (Some (now_of server.now station.old)) m.effect) }
    ensures kept { IfOk result
        (λ m. Keeps (λ p. completion_at back.now.root back.now.json server.now.addr back.now.life
        m.effect.step ≡ Some p) m.effect m.pending) }
    ensures after { IfOk result
        (λ m. now_of server.now station.new ≡ stepped m.effect.step (now_of server.now station.old)) }
    ensures outside { IfOk result
        (λ m. LeavesOutside m.effect.step (outside_of station.old) (outside_of station.new)) }
    ensures leaves { OnErr result (LeavesAround (around_of station.old) (around_of station.new)) }
    ensures still_well { OnOk result (IsWell server.now station.new) }
    ensures err { IfErr result (λ e. e ≡ fault.Memory) }
{
    if station.life() != back.life {
        drop_told(told);
        return Ok(Made::whole(Effect::of_word(EntryWord::Died)));
    }
    go_on_report(desk, server, station, back, told)
}

/// A call of a server that comes back.
pub(crate) fn report<F: Folder + Drop, B: BuilderIncoming + Drop>(
    desk: &Desk,
    stations: &mut Vec<Station<F, B>>,
    entries: &[Entry],
    back: &Back<'_>,
    told: Told,
) -> Result<Made, FarmFault>
    requires apart { HasApart desk.now.setup }
    requires stations { AreStations desk.now.setup.servers entries.now stations.old.items }
    ensures made { IfOk result (λ m. (w : Weather)
        × ReportsIn w desk.now.setup back.now.life back.now.brought.now back.now.root back.now.json
        (option_copied back.now.reply) told (server_now desk.now.setup entries.now back.now.server) m.effect
        × Stands desk.now.setup entries.now m.effect w stations.old.items stations.new.items) }
    ensures kept { IfOk result
        (λ m. Keeps (λ p. completion_at back.now.root back.now.json back.now.server back.now.life
        m.effect.step ≡ Some p) m.effect m.pending) }
    ensures core { IfOk result (λ m. m.effect.core ≡ None) }
    ensures cut { OnErr result (IsCutFor (λ a was is. back.now.server ≡ a) desk.now.setup
        (map around_of stations.old.items) (map around_of stations.new.items)) }
    ensures err { IfErr result (λ e. e ≡ fault.Memory) }
{
    match place_of(&desk.setup, back.server) {
        None => {
            drop_told(told);
            Ok(Made::whole(Effect::of_word(EntryWord::Died)))
        }
        Some(place) => report_at(desk, stations, place, back, told),
    }
}

/// A call that is kept goes on by its reply.
pub(crate) fn go_on<F: Folder + Drop, B: BuilderIncoming + Drop>(
    desk: &mut Desk,
    stations: &mut Vec<Station<F, B>>,
    entries: &[Entry],
    pending: Pending,
    settlement: &Settlement<'_>,
) -> Result<Made, FarmFault>
    requires apart { HasApart desk.old.setup }
    requires stations { AreStations desk.old.setup.servers entries.now stations.old.items }
    requires core { desk.old.state ≡ core_of desk.old.setup entries.now }
    requires own { IsOwnBy desk.old.state.log pending.ask }
    ensures follows { IfOk result (λ m. (w : Weather)
        × Follows w desk.old.setup entries.now settlement.now.at (option_copied settlement.now.reply)
        (Some pending) m.effect
        × Stands desk.old.setup entries.now m.effect w stations.old.items stations.new.items) }
    ensures kept { IfOk result
        (λ m. Keeps (λ p. completion_of pending pending.ask m.effect.step ≡ Some p) m.effect m.pending) }
    ensures desk { IfOk result (λ m. desk.new ≡ acted desk.old m.effect.core) }
    ensures cut { OnErr result (IsCutFor (λ a was is. reporter pending.ask ≡ Some a) desk.old.setup
        (map around_of stations.old.items) (map around_of stations.new.items)) }
    ensures err { IfErr result (λ e. e ≡ fault.Memory) }
{
    let Pending { root, json, ask } = pending;
    match ask {
        Ask::Assign(reservation) => {
            let turn = Turn {
                root,
                json,
                at: settlement.at,
            };
            end_assignment(
                desk.alloc,
                &mut desk.state,
                turn,
                reservation,
                settlement.reply,
            )
        }
        Ask::Report { server, life, told } => {
            let back = Back {
                server,
                life,
                root,
                json,
                brought: brought_at(entries, root),
                reply: settlement.reply,
            };
            report(desk, stations, entries, &back, told)
        }
    }
}

/// A call that is to be settled.
pub(crate) fn take_back<F: Folder + Drop, B: BuilderIncoming + Drop>(
    desk: &mut Desk,
    stations: &mut Vec<Station<F, B>>,
    entries: &[Entry],
    kept: &mut Vec<Option<Pending>>,
    settlement: &Settlement<'_>,
) -> Result<Made, FarmFault>
    requires farm { IsFarm desk.old.setup desk.old.state entries.now kept.old.items stations.old.items }
    ensures made { IfOk result (λ m. (event : Happening) → event.at ≡ settlement.now.at
        → way_of desk.old.setup entries.now event.kind ≡ to_call settlement.now.call
        (option_copied settlement.now.reply)
        → IsMadeSo desk.old.setup entries.now event (way_of desk.old.setup entries.now event.kind)
        kept.new.items stations.old.items stations.new.items m) }
    ensures desk { IfOk result (λ m. desk.new ≡ acted desk.old m.effect.core) }
    ensures cut { OnErr result
        (IsCutFor (λ a was is. IsReportOf desk.old.setup entries.now settlement.now.call a)
        desk.old.setup (map around_of stations.old.items) (map around_of stations.new.items)) }
    ensures room { vec_capacity kept.new ≡ vec_capacity kept.old }
    ensures places { vec_len kept.new ≡ vec_len kept.old }
    ensures err { IfErr result (λ e. e ≡ fault.Memory) }
{
    match take_at(kept, settlement.call) {
        None => Ok(idle()),
        Some(pending) => go_on(desk, stations, entries, pending, settlement),
    }
}
