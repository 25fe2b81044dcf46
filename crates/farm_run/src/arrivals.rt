//! Bytes that come to an address, and the events of a build server of its own.
ghost use Rattle.std.specs.Prelude.{◌≡◌, ℕ, length, slice_get, position, map, IfOk, IfErr, OnOk, OnErr, Some};
ghost use Rattle.std.specs.Prelude.{None};
ghost use Rattle.dist_types.specs.Addr.{same_addr};
ghost use Rattle.farm_script.specs.declared.event.EventKind.TheVariants as kind;
ghost use Rattle.line_program.specs.declared.fault.FarmFault.TheVariants as fault;
ghost use Rattle.farm_entries.specs.declared.site.SiteServer.{SiteServer as Site};
ghost use Rattle.farm_entries.specs.Begun.{IsBegunBy, Keeps};
ghost use Rattle.farm_entries.specs.Effects.{word_effect};
ghost use Rattle.farm_run.specs.Farm.{IsReceived, Stands, acted};
ghost use Rattle.farm_stations.specs.Post.{Post, LeavesAround, around_of};
ghost use Rattle.farm_entries.specs.Served.{IsServerAnswered};
ghost use Rattle.farm_entries.specs.Servers.{server_at, server_now};
ghost use Rattle.farm_stations.specs.Stations.{now_of, IsWell, AreWell, AreStations, IsStepAt, IsRestartedSo};
ghost use Rattle.farm_stations.specs.Stations.{IsRestartAt, HasApart};
ghost use Rattle.farm_run.specs.Stops.{IsCutFor};
ghost use Rattle.farm_entries.specs.Ways.{way_of, way_to, beat_way, to_server};
ghost use Rattle.farm_entries.specs.Weather.{calm, OnlyClears};

use crate::desk::Desk;
use crate::lookup::{call_at, caller_of, is_scheduler, place_of};
use crate::pending::{Made, idle};
use crate::serve::{Arrival, Stamp, serve};
use crate::servers::{beat, serve_at};
use dist_types::addr::Addr;
use dist_types::builder::BuilderIncoming;
use dist_types::ids::ServerNonce;
use farm_entries::entry::{Effect, Entry, EntryWord, StepKind};
use farm_entries::site::SiteServer;
use farm_stations::station::Station;
use folders::folder::Folder;
use line_program::fault::FarmFault;
use std::alloc::Global;

/// A request, or a call that is delivered: bytes that come from a peer to an address.
pub(crate) fn arrive<F: Folder + Drop, B: BuilderIncoming + Drop>(
    desk: &mut Desk,
    stations: &mut Vec<Station<F, B>>,
    entries: &[Entry],
    target: Addr,
    arrival: &Arrival<'_>,
) -> Result<Made, FarmFault>
    requires rules { desk.old.state.start.rules ≡ desk.old.setup.rules }
    requires apart { HasApart desk.old.setup }
    requires stations { AreStations desk.old.setup.servers entries.now stations.old.items }
    ensures received { IfOk result
        (IsReceived calm desk.old.setup desk.old.state arrival.now.stamp.number arrival.now.stamp.at
        (way_to desk.old.setup entries.now target arrival.now.peer arrival.now.bytes.now)) }
    ensures stations { IfOk result
        (λ m. Stands desk.old.setup entries.now m.effect calm stations.old.items stations.new.items) }
    ensures desk { IfOk result (λ m. desk.new ≡ acted desk.old m.effect.core) }
    ensures cut { OnErr result
        (map around_of stations.new.items ≡ map around_of stations.old.items) }
    ensures err { IfErr result (λ e. e ≡ fault.Memory) }
{
    if is_scheduler(&desk.setup, target) {
        return serve(desk, arrival);
    }
    match place_of(&desk.setup, target) {
        None => Ok(Made::whole(Effect::of_word(EntryWord::Down))),
        Some(place) => {
            if !runs_at(stations, place) {
                return Ok(Made::whole(Effect::of_word(EntryWord::Down)));
            }
            arrive_at(desk, stations, place, arrival)
        }
    }
}

/// Whether the server at a place of the setup runs.
pub(crate) fn runs_at<F: Folder + Drop, B: BuilderIncoming + Drop>(
    stations: &[Station<F, B>],
    place: usize,
) -> bool
    ensures { (st : Post) → slice_get stations.now place ≡ Some st → result ≡ st.running }
{
    match stations.get(place) {
        None => false,
        Some(station) => station.is_running(),
    }
}

/// Bytes that come to the server at a place of the setup.
pub(crate) fn arrive_at<F: Folder + Drop, B: BuilderIncoming + Drop>(
    desk: &Desk,
    stations: &mut Vec<Station<F, B>>,
    place: usize,
    arrival: &Arrival<'_>,
) -> Result<Made, FarmFault>
    requires well { AreWell desk.now.setup.servers stations.old.items }
    ensures answered { IfOk result
        (λ m. (s : Site) (st : Post) → slice_get desk.now.setup.servers place ≡ Some s
        → slice_get stations.old.items place ≡ Some st
        → IsServerAnswered desk.now.setup (now_of s st) arrival.now.stamp.number arrival.now.bytes.now
        m.effect) }
    ensures kept { IfOk result (λ m. (s : Site) (st : Post) → slice_get desk.now.setup.servers place ≡ Some s
        → slice_get stations.old.items place ≡ Some st
        → Keeps (IsBegunBy desk.now.setup desk.now.state.log arrival.now.stamp.number
        (to_server (now_of s st) arrival.now.bytes.now) m.effect) m.effect m.pending) }
    ensures step { IfOk result (λ m. (s : Site) (st : Post) → slice_get desk.now.setup.servers place ≡ Some s
        → slice_get stations.old.items place ≡ Some st
        → IsStepAt s place st m.effect.step stations.old.items stations.new.items) }
    ensures there { OnOk result ((st : Post) × (slice_get stations.old.items place ≡ Some st)) }
    ensures cut { OnErr result
        (map around_of stations.new.items ≡ map around_of stations.old.items) }
    ensures err { IfErr result (λ e. e ≡ fault.Memory) }
{
    match desk.setup.servers.get().get(place) {
        None => Err(FarmFault::Memory),
        Some(server) => match stations.get_mut(place) {
            None => Err(FarmFault::Memory),
            Some(station) => serve_at(desk, server, station, arrival),
        },
    }
}

/// A delivery.
pub(crate) fn deliver<F: Folder + Drop, B: BuilderIncoming + Drop>(
    desk: &mut Desk,
    stations: &mut Vec<Station<F, B>>,
    entries: &[Entry],
    at: u64,
    call: u64,
) -> Result<Made, FarmFault>
    requires rules { desk.old.state.start.rules ≡ desk.old.setup.rules }
    requires apart { HasApart desk.old.setup }
    requires stations { AreStations desk.old.setup.servers entries.now stations.old.items }
    ensures received { IfOk result (IsReceived calm desk.old.setup desk.old.state (length entries.now) at
        (way_of desk.old.setup entries.now (kind.Deliver call))) }
    ensures stations { IfOk result
        (λ m. Stands desk.old.setup entries.now m.effect calm stations.old.items stations.new.items) }
    ensures desk { IfOk result (λ m. desk.new ≡ acted desk.old m.effect.core) }
    ensures cut { OnErr result
        (map around_of stations.new.items ≡ map around_of stations.old.items) }
    ensures err { IfErr result (λ e. e ≡ fault.Memory) }
{
    match call_at(entries, call) {
        None => Ok(idle()),
        Some(out) => {
            let arrival = Arrival {
                stamp: Stamp {
                    number: entries.len() as u64,
                    at,
                },
                peer: caller_of(&desk.setup, entries, call),
                bytes: out.bytes.get(),
            };
            arrive(desk, stations, entries, out.target, &arrival)
        }
    }
}

/// A heartbeat of a server.
pub(crate) fn send_beat<F: Folder + Drop, B: BuilderIncoming + Drop>(
    desk: &Desk,
    stations: &[Station<F, B>],
    entries: &[Entry],
    addr: Addr,
) -> Result<Made, FarmFault>
    requires stations { AreStations desk.now.setup.servers entries.now stations.now }
    ensures received { IfOk result
        (λ m. (at : ℕ) → IsReceived calm desk.now.setup desk.now.state (length entries.now) at
        (beat_way (server_now desk.now.setup entries.now addr)) m) }
    ensures step { IfOk result (λ m. m.effect.step ≡ None) }
    ensures core { IfOk result (λ m. m.effect.core ≡ None) }
    ensures err { IfErr result (λ e. e ≡ fault.Memory) }
{
    match place_of(&desk.setup, addr) {
        None => Ok(idle()),
        Some(place) => match desk.setup.servers.get().get(place) {
            None => Err(FarmFault::Memory),
            Some(server) => match stations.get(place) {
                None => Err(FarmFault::Memory),
                Some(station) => {
                    if !station.is_running() {
                        return Ok(Made::whole(Effect::of_word(EntryWord::Down)));
                    }
                    beat(desk, server, station, entries.len() as u64)
                }
            },
        },
    }
}

/// A server starts again.
pub(crate) fn restart_in<F: Folder + Drop, B: BuilderIncoming + Drop>(
    alloc: Global,
    server: &SiteServer,
    station: &mut Station<F, B>,
    key: &[u8],
    nonce: ServerNonce,
) -> Result<Effect, FarmFault>
    requires well { IsWell server.now station.old }
    ensures restarts { IfOk result (IsRestartedSo server.now station.old station.new key.now nonce) }
    ensures leaves { OnErr result (LeavesAround (around_of station.old) (around_of station.new)) }
    ensures clears { OnErr result (OnlyClears station.old.state.folder station.new.state.folder) }
    ensures builder { OnErr result (station.new.builder ≡ station.old.builder) }
    ensures hand { station.new.hand ≡ station.old.hand }
    ensures err { IfErr result (λ e. e ≡ fault.Memory) }
{
    match station.restart(alloc, server, key, nonce) {
        Ok(Some(found)) => Ok(Effect::of_step(server.addr, StepKind::Opened(found))),
        Ok(None) => Ok(Effect::of_word(EntryWord::Down)),
        Err(_) => Err(FarmFault::Memory),
    }
}

/// A server that starts again, if it is of the farm.
pub(crate) fn restart<F: Folder + Drop, B: BuilderIncoming + Drop>(
    desk: &Desk,
    stations: &mut Vec<Station<F, B>>,
    addr: Addr,
    key: &[u8],
    nonce: ServerNonce,
) -> Result<Made, FarmFault>
    requires well { AreWell desk.now.setup.servers stations.old.items }
    ensures none { IfOk result (λ m. server_at desk.now.setup addr ≡ None
        → (m ≡ record { effect = word_effect EntryWord.Void; pending = None })
        × (stations.new.items ≡ stations.old.items)) }
    ensures some { IfOk result (λ m. (place : ℕ) (s : Site) (st : Post)
        → position (λ x. same_addr x.addr addr) desk.now.setup.servers ≡ Some place
        → slice_get desk.now.setup.servers place ≡ Some s → slice_get stations.old.items place ≡ Some st
        → (m.pending ≡ None)
        × IsRestartAt s place st key.now nonce m.effect stations.old.items stations.new.items) }
    ensures cut { OnErr result (IsCutFor (λ a was is. (addr ≡ a)
        × OnlyClears was.outside.folder is.outside.folder × (is.outside.builder ≡ was.outside.builder)
        × (is.hand ≡ was.hand)) desk.now.setup (map around_of stations.old.items)
        (map around_of stations.new.items)) }
    ensures err { IfErr result (λ e. e ≡ fault.Memory) }
{
    match place_of(&desk.setup, addr) {
        None => Ok(idle()),
        Some(place) => match desk.setup.servers.get().get(place) {
            None => Err(FarmFault::Memory),
            Some(server) => match stations.get_mut(place) {
                None => Err(FarmFault::Memory),
                Some(station) => {
                    let effect = restart_in(desk.alloc, server, station, key, nonce)?;
                    Ok(Made::whole(effect))
                }
            },
        },
    }
}
