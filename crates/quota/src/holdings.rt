//! Whose the reservations are, and how many each client holds.
ghost use Rattle.std.specs.Prelude.{◌≡◌, ◌<◌, ◌+◌, ◌-◌, ◌%◌, ◌^◌, ◌++◌, ◌∷◌, [], ℕ, OnOk, IfOk, IfSome};
ghost use Rattle.std.specs.Prelude.{Some, true};
ghost use Rattle.std.specs.Prelude.{List, length, map, set, slice_get, slice_index_or, replicate, nat_eq};
ghost use Rattle.std.specs.Prelude.{vec_len};
ghost use Rattle.std.specs.Prelude.{vec_capacity};
ghost use Rattle.row_index.specs.Lookup.{value_at};
ghost use Rattle.quota.specs.Holdings.{count_of, owned_after, owned_of, owned_in, owned_ended, share_ended};
ghost use Rattle.quota.specs.Holdings.{is_of};
ghost use Rattle.quota.specs.Holdings.{share_ended_at, share_raised, share_new, share_lowered, lowered_by};
ghost use Rattle.quota.specs.Holdings.{link_of};
ghost use Rattle.quota.specs.Holdings.{IsNewest, regs_of, AreLinked, AreCounted, AreNewest, AreListed};
ghost use Rattle.quota.specs.Holdings.{TakesFrom};
ghost use Rattle.quota.specs.Holdings.{ended_job, ended_jobs, ended_at, ended_if, ended_at_all, ended_job_if};
ghost use Rattle.quota.specs.Holdings.{IsGrown};
ghost use Rattle.quota.specs.declared.rows.OwnedRow.{OwnedRow};
ghost use Rattle.quota.specs.declared.rows.Share.{Share};

use crate::places::SharePlaces;
use crate::rows::{OwnedRow, Share, ShareKey};
use core_rules::effects::{accepted, complete};
use core_rules::entry::CoreKind;
use dist_types::ids::JobId;
use row_index::Following;
use std::alloc::{AllocError, Global};
use std::marker::Model;

/// Whose the reservations are, and how many each client holds: a row for each reservation, found by its
/// job, and
/// a share for each client at each registration, found by both, which the reservations are counted by.
#[derive(Drop)]
pub struct Holdings {
    rows: Following<OwnedRow>,
    shares: Vec<Share>,
    places: SharePlaces,
    held: Vec<u64>,
}

impl Model for Holdings {
    ghost use Rattle.std.specs.Prelude.{length, nat_lt, nat_eq, vec_len, vec_capacity, ◌&&◌};
    ghost use Rattle.row_index.specs.Lookup.{value_at};
    ghost use Rattle.quota.specs.Holdings.{Held, owned_of, AreKept};

    ghost Value = { Held };

    ghost view = { λ h. record {
      first = h.rows.first;
      owned = owned_of h.rows.rows h.shares.items;
      clients = length h.held.items;
      has_room = h.rows.has_room && nat_lt (vec_len h.shares) (vec_capacity h.shares)
          && h.places.has_room;
    } };

    ghost invariant = { λ h. AreKept h.rows.rows h.shares.items (λ n. value_at nat_eq n h.places.newest)
        h.held.items };
}

/// The share in a place.
fn share_at(shares: &[Share], place: usize) -> Share
    requires within { place < length shares.now }
    ensures { slice_get shares.now place ≡ Some result }
{
    shares[place]
}

/// The share once it is over.
fn ended(share: Share) -> Share
    ensures { result ≡ share_ended share }
{
    Share {
        reg: share.reg,
        client: share.client,
        count: 0,
        before: share.before,
        over: true,
    }
}

/// Ends a share: its client holds so many less. It answers the share before it at its registration.
fn end_share(shares: &mut Vec<Share>, held: &mut Vec<u64>, place: usize) -> Option<usize>
    requires within { place < length shares.old.items }
    requires listed { (s : Share) → slice_get shares.old.items place ≡ Some s
        → s.client < length held.old.items }
    ensures taken { TakesFrom share_ended (λ s. s.count) shares.old.items shares.new.items
        held.old.items held.new.items place }
    ensures before { (s : Share) → slice_get shares.old.items place ≡ Some s → result ≡ s.before }
{
    let share = share_at(shares, place);
    held[share.client] = held[share.client].saturating_sub(share.count);
    shares[place] = ended(share);
    share.before
}

/// Lowers a share by one reservation, unless it is over.
fn lower_share(shares: &mut Vec<Share>, held: &mut Vec<u64>, place: usize)
    requires within { place < length shares.old.items }
    requires listed { (s : Share) → slice_get shares.old.items place ≡ Some s
        → s.client < length held.old.items }
    ensures taken { TakesFrom share_lowered lowered_by shares.old.items shares.new.items
        held.old.items held.new.items place }
{
    let share = share_at(shares, place);
    let less = if share.over { 0 } else { 1 };
    held[share.client] = held[share.client].saturating_sub(less);
    shares[place].count = share.count.saturating_sub(1);
}

/// Ends the shares of a registration, from its newest on.
fn end_shares(shares: &mut Vec<Share>, held: &mut Vec<u64>, reg: u64, newest: Option<usize>)
    requires linked { AreLinked shares.old.items }
    requires newest { IsNewest reg (length shares.old.items) (regs_of shares.old.items) newest }
    requires listed { AreListed shares.old.items held.old.items }
    ensures shares { shares.new.items ≡ map (share_ended_at reg) shares.old.items }
    ensures counted { (rows : List OwnedRow) → AreCounted rows shares.old.items held.old.items
        → AreCounted rows shares.new.items held.new.items }
    ensures len { length held.new.items ≡ length held.old.items }
{
    let mut at = newest;
    while let Some(place) = at {
        at = end_share(shares, held, place);
    }
}

/// Ends the row in a place, if nothing has.
fn end_row(
    rows: &mut Following<OwnedRow>,
    shares: &mut Vec<Share>,
    held: &mut Vec<u64>,
    place: usize,
)
    requires within { place < length rows.old.rows }
    requires counted { AreCounted rows.old.rows shares.old.items held.old.items }
    ensures owned { (r : OwnedRow) → slice_get rows.old.rows place ≡ Some r →
        owned_of rows.new.rows shares.new.items ≡
        set (owned_of rows.old.rows shares.old.items) place (owned_ended (owned_in shares.old.items r)) }
    ensures counted { AreCounted rows.new.rows shares.new.items held.new.items }
    ensures regs { map link_of shares.new.items ≡ map link_of shares.old.items }
    ensures first { rows.new.first ≡ rows.old.first }
    ensures len { length held.new.items ≡ length held.old.items }
{
    let row = rows.at(place);
    if row.unended {
        rows.put(
            place,
            OwnedRow {
                number: row.number,
                job: row.job,
                share: row.share,
                unended: false,
            },
        );
        lower_share(shares, held, row.share);
    }
}

/// Whether a share is this client's at this registration, and not over.
fn is_share_of(shares: &[Share], place: usize, key: ShareKey) -> bool
    ensures found { result ≡ true → (s : Share) × (slice_get shares.now place ≡ Some s)
        × (is_of key.reg key.client s ≡ true) }
{
    match shares.get(place) {
        Some(share) => share.reg == key.reg && share.client == key.client && !share.over,
        None => false,
    }
}

/// The share of a client at a registration, by its key.
fn find_share(shares: &[Share], places: &SharePlaces, key: ShareKey) -> Option<usize>
    ensures found { IfSome result (λ place. (s : Share) × (slice_get shares.now place ≡ Some s)
        × (is_of key.reg key.client s ≡ true)) }
{
    match places.get(&key) {
        Some(place) => {
            if is_share_of(shares, place, key) {
                Some(place)
            } else {
                None
            }
        }
        None => None,
    }
}

/// The share that a client had last, if it is at that registration.
fn latest_share(shares: &[Share], places: &SharePlaces, key: ShareKey) -> Option<usize>
    ensures found { IfSome result (λ place. (s : Share) × (slice_get shares.now place ≡ Some s)
        × (is_of key.reg key.client s ≡ true)) }
{
    match places.latest(key.client) {
        Some(place) => {
            if is_share_of(shares, place, key) {
                Some(place)
            } else {
                None
            }
        }
        None => None,
    }
}

/// Raises a share by one reservation.
fn raise_share(shares: &mut Vec<Share>, held: &mut Vec<u64>, place: usize)
    requires within { place < length shares.old.items }
    requires listed { (s : Share) → slice_get shares.old.items place ≡ Some s
        → s.client < length held.old.items }
    requires small { (s : Share) → slice_get shares.old.items place ≡ Some s
        → (s.count < 2 ^ 63) × (slice_index_or held.old.items s.client 0 < 2 ^ 63) }
    ensures shares { (s : Share) → slice_get shares.old.items place ≡ Some s →
        (shares.new.items ≡ set shares.old.items place (share_raised s))
        × (held.new.items ≡ set held.old.items s.client (slice_index_or held.old.items s.client 0 + 1)) }
{
    let share = share_at(shares, place);
    held[share.client] += 1;
    shares[place].count += 1;
}

/// Adds the first share of a client at a registration. It takes no memory.
fn push_share(shares: &mut Vec<Share>, places: &mut SharePlaces, key: ShareKey) -> usize
    requires room { vec_len shares.old < vec_capacity shares.old }
    requires spare { places.old.has_room ≡ true }
    requires newest { AreNewest shares.old.items (λ n. value_at nat_eq n places.old.newest) }
    ensures shares { shares.new.items ≡ shares.old.items ++
        share_new key.reg key.client (value_at nat_eq key.reg places.old.newest) ∷ [] }
    ensures newest { AreNewest shares.new.items (λ n. value_at nat_eq n places.new.newest) }
    ensures place { result ≡ length shares.old.items }
{
    let place = shares.len();
    let before = places.newest(key.reg);
    let share = Share {
        reg: key.reg,
        client: key.client,
        count: 0,
        before,
        over: false,
    };
    match shares.push(share) {
        Ok(()) => (),
        Err(_) => unreachable!(),
    }
    places.add(key, place);
    place
}

/// The share of a client at a registration that it did not have last, which is made where there is none.
#[cold]
#[inline(never)]
fn other_share(shares: &mut Vec<Share>, places: &mut SharePlaces, key: ShareKey) -> usize
    requires room { vec_len shares.old < vec_capacity shares.old }
    requires spare { places.old.has_room ≡ true }
    requires newest { AreNewest shares.old.items (λ n. value_at nat_eq n places.old.newest) }
    requires linked { AreLinked shares.old.items }
    ensures grown { IsGrown shares.old.items shares.new.items key.reg key.client }
    ensures newest { AreNewest shares.new.items (λ n. value_at nat_eq n places.new.newest) }
    ensures linked { AreLinked shares.new.items }
    ensures found { (s : Share) × (slice_get shares.new.items result ≡ Some s)
        × (is_of key.reg key.client s ≡ true) }
{
    match find_share(shares, places, key) {
        Some(place) => {
            places.note(key.client, place);
            place
        }
        None => push_share(shares, places, key),
    }
}

/// The share of a client at a registration, which is made where there is none.
fn share_for(shares: &mut Vec<Share>, places: &mut SharePlaces, key: ShareKey) -> usize
    requires room { vec_len shares.old < vec_capacity shares.old }
    requires spare { places.old.has_room ≡ true }
    requires newest { AreNewest shares.old.items (λ n. value_at nat_eq n places.old.newest) }
    requires linked { AreLinked shares.old.items }
    ensures grown { IsGrown shares.old.items shares.new.items key.reg key.client }
    ensures newest { AreNewest shares.new.items (λ n. value_at nat_eq n places.new.newest) }
    ensures linked { AreLinked shares.new.items }
    ensures found { (s : Share) × (slice_get shares.new.items result ≡ Some s)
        × (is_of key.reg key.client s ≡ true) }
{
    match latest_share(shares, places, key) {
        Some(place) => place,
        None => other_share(shares, places, key),
    }
}

/// So many clients that hold nothing. Refused for want of memory alone.
fn none_held(alloc: Global, clients: usize) -> Result<Vec<u64>, AllocError>
    ensures held { IfOk result (λ v. v.items ≡ replicate clients 0) }
    ensures len { IfOk result (λ v. length v.items ≡ clients) }
{
    let mut held = Vec::new(alloc);
    held.resize(clients, 0)?;
    Ok(held)
}

/// What is kept where there is no row, no share, and each client holds nothing. It takes no memory.
fn empty(alloc: Global, rows: Following<OwnedRow>, places: SharePlaces, held: Vec<u64>) -> Holdings
    requires rows { rows.rows ≡ [] }
    requires newest { places.newest ≡ [] }
    requires held { held.items ≡ replicate (length held.items) 0 }
    ensures first { result.first ≡ rows.first }
    ensures owned { result.owned ≡ [] }
    ensures clients { result.clients ≡ length held.items }
{
    Holdings {
        rows,
        shares: Vec::new(alloc),
        places,
        held,
    }
}

impl Holdings {
    /// No reservation; the first is to have a job of that id. Refused for want of memory alone.
    pub fn new(alloc: Global, first: u64, clients: usize) -> Result<Self, AllocError>
        ensures first { IfOk result (λ h. h.first ≡ first) }
        ensures owned { IfOk result (λ h. h.owned ≡ []) }
        ensures clients { IfOk result (λ h. h.clients ≡ clients) }
    {
        let held = none_held(alloc, clients)?;
        let places = SharePlaces::new(alloc, clients)?;
        let rows = Following::new(alloc, first);
        Ok(empty(alloc, rows, places, held))
    }

    /// How many reservations the client in that place holds.
    pub fn held_at(&self, place: usize) -> u64
        requires within { place < self.now.clients }
        ensures held { result ≡ count_of self.now.owned place }
    {
        self.held[place]
    }

    /// Makes room for one reservation more. Refused for want of memory alone; the reservations stay.
    pub fn make_room(&mut self) -> Result<(), AllocError>
        ensures owned { self.new.owned ≡ self.old.owned }
        ensures first { self.new.first ≡ self.old.first }
        ensures clients { self.new.clients ≡ self.old.clients }
        ensures room { OnOk result (self.new.has_room ≡ true) }
    {
        self.rows.make_room()?;
        self.shares.reserve(1)?;
        self.places.make_room()
    }

    /// Adds the reservation of the entry of that number. It takes no memory.
    pub fn add(&mut self, number: u64, job: JobId, reg: u64, client: usize)
        requires room { self.old.has_room ≡ true }
        requires listed { client < self.old.clients }
        requires follows { job.0 ≡ (self.old.first + length self.old.owned) % 2 ^ 64 }
        ensures owned { self.new.owned ≡ self.old.owned ++ record {
          number = number;
          job = job;
          reg = reg;
          client = client;
          unended = true;
        } ∷ [] }
        ensures first { self.new.first ≡ self.old.first }
        ensures clients { self.new.clients ≡ self.old.clients }
    {
        let _made = self.rows.len();
        let key = ShareKey { reg, client };
        let share = share_for(&mut self.shares, &mut self.places, key);
        raise_share(&mut self.shares, &mut self.held, share);
        self.rows.push(OwnedRow {
            number,
            job,
            share,
            unended: true,
        });
    }

    /// Ends the reservation of a job, if there is one.
    fn end_job(&mut self, job: JobId)
        ensures owned { self.new.owned ≡ map (ended_job job) self.old.owned }
        ensures first { self.new.first ≡ self.old.first }
        ensures clients { self.new.clients ≡ self.old.clients }
    {
        match self.rows.place_of(job.0) {
            Some(place) => end_row(&mut self.rows, &mut self.shares, &mut self.held, place),
            None => (),
        }
    }

    /// Ends the reservations of those jobs.
    fn end_jobs(&mut self, jobs: &[JobId])
        ensures owned { self.new.owned ≡ map (ended_jobs jobs.now) self.old.owned }
        ensures first { self.new.first ≡ self.old.first }
        ensures clients { self.new.clients ≡ self.old.clients }
    {
        for job in jobs {
            self.end_job(*job);
        }
    }

    /// Ends the reservations of a registration: a look at each client that ever reserved there.
    fn end_at(&mut self, reg: u64)
        ensures owned { self.new.owned ≡ map (ended_at reg) self.old.owned }
        ensures first { self.new.first ≡ self.old.first }
        ensures clients { self.new.clients ≡ self.old.clients }
    {
        let newest = self.places.newest(reg);
        end_shares(&mut self.shares, &mut self.held, reg, newest);
    }

    /// Ends the reservations of a registration, if there is one.
    fn end_if(&mut self, reg: Option<u64>)
        ensures owned { self.new.owned ≡ map (ended_if reg) self.old.owned }
        ensures first { self.new.first ≡ self.old.first }
        ensures clients { self.new.clients ≡ self.old.clients }
    {
        match reg {
            Some(reg) => self.end_at(reg),
            None => (),
        }
    }

    /// Ends the reservations of those registrations.
    fn end_all(&mut self, regs: &[u64])
        ensures owned { self.new.owned ≡ map (ended_at_all regs.now) self.old.owned }
        ensures first { self.new.first ≡ self.old.first }
        ensures clients { self.new.clients ≡ self.old.clients }
    {
        for reg in regs {
            self.end_at(*reg);
        }
    }

    /// Ends what a heartbeat ends.
    fn beat(&mut self, pruned: &[u64], replaced: Option<u64>, reaped: &[JobId])
        ensures owned { self.new.owned ≡
            map (ended_jobs reaped.now) (map (ended_if replaced) (map (ended_at_all pruned.now)
            self.old.owned)) }
        ensures first { self.new.first ≡ self.old.first }
        ensures clients { self.new.clients ≡ self.old.clients }
    {
        self.end_all(pruned);
        self.end_if(replaced);
        self.end_jobs(reaped);
    }

    /// Ends the reservation of a job, where something ends it.
    pub fn end_job_if(&mut self, ends: bool, job: JobId)
        ensures owned { self.new.owned ≡ map (ended_job_if ends job) self.old.owned }
        ensures first { self.new.first ≡ self.old.first }
        ensures clients { self.new.clients ≡ self.old.clients }
    {
        if ends {
            self.end_job(job);
        }
    }

    /// Ends what an entry ends: the reservations that it undoes, reaps or completes, and those of the
    /// registrations that it prunes or replaces. It takes no memory.
    pub fn absorb(&mut self, kind: &CoreKind)
        ensures owned { self.new.owned ≡ map (owned_after kind.now) self.old.owned }
        ensures first { self.new.first ≡ self.old.first }
        ensures clients { self.new.clients ≡ self.old.clients }
    {
        match kind {
            CoreKind::Reserve(_) => (),
            CoreKind::Commit { .. } => (),
            CoreKind::Undo { job, ended, .. } => self.end_job_if(*ended, *job),
            CoreKind::Beat {
                pruned,
                replaced,
                reaped,
                ..
            } => self.beat(pruned.get(), *replaced, reaped.get()),
            CoreKind::Update {
                job,
                state,
                answer,
                ..
            } => self.end_job_if(complete(*state) && accepted(*answer), *job),
            CoreKind::Status { pruned, .. } => self.end_all(pruned.get()),
            CoreKind::Drain { .. } => (),
        }
    }
}
