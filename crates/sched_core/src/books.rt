//! What the scheduler keeps beside its log. Contracts see it as lists; what the calls ask is asked here.
ghost use Rattle.std.specs.Prelude.{◌≡◌, ◌==◌, ◌&&◌, ◌<◌, ◌≤◌, ◌+◌, ◌*◌, ◌^◌, ℕ, IfOk, OnOk, true, find};
ghost use Rattle.std.specs.Prelude.{◌%◌, Some, false, length, filter, max, IfSome};
ghost use Rattle.std.specs.List.{list_any};
ghost use Rattle.std.specs.Option.{option_map};
ghost use Rattle.core_rules.specs.Log.{same_job};
ghost use Rattle.core_rules.specs.Pick.{pick};
ghost use Rattle.core_rules.specs.Prune.{prune};
ghost use Rattle.core_rules.specs.Rule.{noted_over, reserved_at, beat_over, drain_over, counts_over, reaped_by};
ghost use Rattle.core_rules.specs.Rule.{is_left};
ghost use Rattle.core_rules.specs.Reservation.{is_booked};
ghost use Rattle.core_rules.specs.Reap.{reap};
ghost use Rattle.core_rules.specs.Laws.{AreRising};
ghost use Rattle.sched_core.specs.Books.{HasRoomFor, HasJobRoom};
ghost use Rattle.sched_core.specs.Changes.{AreReapedApart};
ghost use Rattle.sched_core.specs.Books.{MayRegister, no_lists, lists_next, booked_by};
ghost use Rattle.reservations.specs.Booked.{held_view, jobs_by_id, unspent_view, open_view};
ghost use Rattle.sched_core.specs.Books.{rows_next};
ghost use Rattle.sched_core.specs.Registrations.{AreFew, AreSoundRows, decide_looks};

use crate::change::{absorb_rows, push_made};
use crate::decide::{self, JobIds};
use crate::made::job_made;
use crate::registrations::Registrations;
use crate::rows::{Jobs, Servers};
use core_rules::effects::is_reservation;
use core_rules::entry::{CoreEntry, CoreKind, Reserved};
use core_rules::rows::{OpenRow, ServerRow};
use core_rules::standing;
use dist_types::ids::{JobId, ServerId, ServerNonce};
use dist_types::results::SchedulerStatusResult;
use dist_types::rules::Rules;
use dist_types::text::{Bytes, Items};
use reservations::booked::booked;
use reservations::bookings::Bookings;
use reservations::own::{self, Reaping};
use row_index::{NumberedLists, Steps};
use std::alloc::{AllocError, Global};
use std::marker::{Brand, Model};
use std::sync::ledger::{Blank, Ledger};

/// The answers to what is asked of the log. Contracts see its lists, whether there is room for one
/// registration more, and the registration at which there is room for one reservation more, if there is
/// one.
#[derive(Drop)]
pub struct Books {
    rows: Registrations,
    bookings: Bookings,
    own: NumberedLists,
}

impl Model for Books {
    ghost use Rattle.sched_core.specs.Books.{Kept};
    ghost use Rattle.reservations.specs.Own.{AreOwn, room_for};

    ghost Value = { Kept };

    ghost view = { λ b. record {
      lists = record { rows = b.rows.rows; booked = b.bookings.rows };
      first = b.bookings.first;
      has_row_room = b.rows.places.has_left;
      job_room = room_for b.bookings.has_room b.own.ready;
      places = b.rows.places.count;
      top = b.rows.places.top;
    } };

    ghost invariant = { λ b. AreOwn b.bookings.rows b.own.lists };
}

/// A heartbeat: at which moment, in milliseconds, of which server, and what it says beside its key.
#[derive(Clone, Copy, Debug)]
pub struct Heartbeat {
    /// The moment.
    pub moment: u64,
    /// The server.
    pub server: ServerId,
    /// Its nonce.
    pub nonce: ServerNonce,
    /// How many processors it has.
    pub cpus: u64,
}

/// The reservations of a registration, if there is one.
fn load_of(row: &Option<ServerRow>) -> u64 {
    match row {
        Some(row) => row.load,
        None => 0,
    }
}

impl Books {
    /// The books of an empty log, whose first job is to have that id. It takes no memory.
    pub fn new(alloc: Global, first: u64) -> Self
        ensures lists { result.lists ≡ no_lists }
        ensures first { result.first ≡ first }
        ensures places { result.places ≡ 0 }
        ensures top { result.top ≡ 0 }
    {
        Books {
            rows: Registrations::new(alloc),
            bookings: Bookings::new(alloc, first),
            own: NumberedLists::new(alloc),
        }
    }

    /// How many reservations were made.
    pub fn made(&self) -> u64
        ensures { result ≡ length self.now.lists.booked }
    {
        self.bookings.made() as u64
    }

    /// How many reservations are unspent.
    pub fn unspent_count(&self) -> usize
        ensures count { result ≡ length (unspent_view self.now.lists.booked) }
        ensures few { result < 2 ^ 63 }
    {
        self.bookings.unspent_count()
    }

    /// How many jobs are open.
    pub fn open_count(&self) -> usize
        ensures { result ≡ length (open_view self.now.lists.booked) }
    {
        self.bookings.open_count()
    }

    /// The registrations that stand, by rising number.
    pub fn servers(&self) -> Servers<'_>
        ensures rows { result ≡ self.now.lists.rows }
    {
        self.rows.servers()
    }

    /// The unended reservations, by rising job id.
    pub fn jobs(&self) -> Jobs<'_>
        ensures jobs { result ≡ jobs_by_id self.now.lists.booked }
    {
        self.bookings.jobs()
    }

    /// The registration of that number.
    pub fn row(&self, reg: u64) -> Option<ServerRow>
        ensures { result ≡ find (λ r. r.reg == reg) self.now.lists.rows }
    {
        self.rows.row(reg)
    }

    /// The number of the registration that stands at an address, if there is one.
    pub fn noted(&self, server: Option<ServerId>) -> Option<u64>
        ensures { result ≡ noted_over self.now.lists.rows server }
    {
        decide::noted(&self.rows, server)
    }

    /// The numbers of the registrations whose last sign is too long ago. Refused for want of memory
    /// alone.
    pub fn pruned(&self, alloc: Global, now: u64) -> Result<Vec<u64>, AllocError>
        ensures { IfOk result (λ v. v.items ≡ prune now self.now.lists.rows) }
    {
        decide::pruned::<Brand>(alloc, &self.rows, now, Blank::new(1))
    }

    /// The numbers of a status that prunes those registrations.
    pub fn counts(&self, pruned: &[u64], now: u64) -> SchedulerStatusResult
        requires are { pruned.now ≡ prune now self.now.lists.rows }
        requires rising { AreRising pruned.now }
        ensures { result ≡ counts_over self.now.lists.rows (open_view self.now.lists.booked) now }
    {
        let left = self.open_left(pruned);
        decide::counts(&self.rows, pruned, left, now)
    }

    // How many open jobs are at none of those registrations, whose numbers rise.
    fn open_left(&self, pruned: &[u64]) -> u64
        requires { AreRising pruned.now }
        ensures { result ≡ length (filter (λ o. is_left pruned.now o.reg) (open_view self.now.lists.booked)) }
    {
        own::open_left(&self.bookings, &self.own, pruned)
    }

    // The jobs that the heartbeat reaps.
    fn reaped_at(&self, alloc: Global, beat: Reaping) -> Result<Vec<JobId>, AllocError>
        ensures { IfOk result (λ v. v.items ≡
            reap beat.rules beat.moment beat.reg (held_view self.now.lists.booked)) }
    {
        own::reaped_jobs(alloc, self.bookings.rows(), self.own.of(beat.reg), beat)
    }

    // The jobs that a heartbeat with this nonce reaps, where that registration stands at its address.
    fn reaped(
        &self,
        alloc: Global,
        there: &Option<ServerRow>,
        rules: Rules,
        now: u64,
        nonce: ServerNonce,
    ) -> Result<Vec<JobId>, AllocError>
        ensures { IfOk result (λ v. v.items ≡
            reaped_by rules now nonce (held_view self.now.lists.booked) there.now) }
    {
        match there {
            Some(row) => {
                if row.nonce == nonce {
                    let beat = Reaping {
                        reg: row.reg,
                        rules,
                        moment: now,
                    };
                    self.reaped_at(alloc, beat)
                } else {
                    Ok(Vec::new(alloc))
                }
            }
            None => Ok(Vec::new(alloc)),
        }
    }

    /// What becomes of a reserve, where those ids were given before. Refused for want of memory alone.
    pub fn reserved<L: Ledger>(
        &self,
        alloc: Global,
        now: u64,
        ids: JobIds,
        steps: &mut Steps<L>,
    ) -> Result<Reserved, AllocError>
        requires fits { ids.given < 2 ^ 66 }
        ensures reserved { IfOk result (λ r. r ≡
            reserved_at (pick self.now.lists.rows) self.now.lists.rows now ids.base ids.given) }
        ensures looks { (h : ℕ) → self.now.places ≤ 2 ^ h → steps.new ≤ steps.old + decide_looks
            (reserved_at (pick self.now.lists.rows) self.now.lists.rows now ids.base ids.given) h }
    {
        decide::reserved(alloc, &self.rows, now, ids, steps)
    }

    /// The entry of a heartbeat by the rules. Refused for want of memory alone.
    pub fn beat(
        &self,
        alloc: Global,
        rules: Rules,
        beat: Heartbeat,
        key: &[u8],
    ) -> Result<CoreEntry, AllocError>
        ensures { IfOk result (λ e. e ≡ beat_over rules self.now.lists.rows
            (held_view self.now.lists.booked) beat.moment beat.server beat.nonce beat.cpus key.now) }
    {
        let Heartbeat {
            moment: now,
            server,
            nonce,
            cpus,
        } = beat;
        let pruned = self.pruned(alloc, now)?;
        let there = self.rows.survivor(now, server);
        let reaped = self.reaped(alloc, &there, rules, now, nonce)?;
        let key = Bytes::from_slice(alloc, key)?;
        let kind = CoreKind::Beat {
            server,
            nonce,
            cpus,
            key,
            pruned: Items::new(pruned),
            reaped: Items::new(reaped),
            replaced: standing::replaced(&there, nonce),
            is_new: standing::is_new(&there, nonce),
        };
        Ok(CoreEntry { now, kind })
    }

    /// The entry of a drain. It takes no memory.
    pub fn drain(&self, now: u64, server: ServerId, nonce: ServerNonce, on: bool) -> CoreEntry
        ensures { result ≡ drain_over self.now.lists.rows now server nonce on }
    {
        let there = self.rows.at(server);
        let kind = CoreKind::Drain {
            server,
            nonce,
            on,
            reg: standing::drained(&there, nonce),
        };
        CoreEntry { now, kind }
    }

    /// The open job of that id.
    pub fn open_job(&self, job: JobId) -> Option<OpenRow>
        ensures { result ≡ find (λ o. same_job o.job job) (open_view self.now.lists.booked) }
    {
        self.bookings.open_job(job)
    }

    /// Whether the reservation is unended.
    pub fn is_held(&self, number: u64, job: JobId) -> bool
        ensures { result ≡
            list_any (λ h. (h.number == number) && same_job h.job job) (held_view self.now.lists.booked) }
    {
        self.bookings.is_held(number, job)
    }

    /// Whether the reservation is unspent.
    pub fn is_unspent(&self, number: u64, job: JobId) -> bool
        ensures { result ≡
            list_any (λ u. (u.number == number) && same_job u.job job) (unspent_view self.now.lists.booked) }
    {
        self.bookings.is_unspent(number, job)
    }

    /// The address of the unspent reservation of that number and job.
    pub fn unspent_address(&self, number: u64, job: JobId) -> Option<ServerId>
        ensures { result ≡ option_map (λ u. u.server)
            (find (λ u. (u.number == number) && same_job u.job job) (unspent_view self.now.lists.booked)) }
    {
        self.bookings.unspent_address(number, job)
    }

    /// Makes room for one registration more. Refused for want of memory alone; the lists stay.
    pub fn make_row_room(&mut self, alloc: Global) -> Result<(), AllocError>
        ensures lists { self.new.lists ≡ self.old.lists }
        ensures first { self.new.first ≡ self.old.first }
        ensures room { OnOk result (self.new.has_row_room ≡ true) }
        ensures top { self.new.top ≤ self.old.top }
        ensures places { self.new.places ≤ max self.old.places (2 * max 1 (length self.old.lists.rows)) }
    {
        self.rows.make_room(alloc)
    }

    // Makes room for one reservation more at a registration. Refused for want of memory alone; the lists
    // stay.
    fn make_room_at(&mut self, alloc: Global, reg: u64) -> Result<(), AllocError>
        ensures lists { self.new.lists ≡ self.old.lists }
        ensures first { self.new.first ≡ self.old.first }
        ensures room { OnOk result (self.new.job_room ≡ Some reg) }
        ensures top { self.new.top ≡ self.old.top }
        ensures places { self.new.places ≡ self.old.places }
    {
        let row = self.rows.row(reg);
        own::make_room(alloc, &mut self.bookings, &mut self.own, reg, load_of(&row))
    }

    /// Makes room for the reservation that a reserve makes. Refused for want of memory alone; the lists stay.
    pub fn make_job_room(&mut self, alloc: Global, reserved: &Reserved) -> Result<(), AllocError>
        ensures lists { self.new.lists ≡ self.old.lists }
        ensures first { self.new.first ≡ self.old.first }
        ensures room { OnOk result (HasRoomFor reserved.now self.new.job_room) }
        ensures top { self.new.top ≡ self.old.top }
        ensures places { self.new.places ≡ self.old.places }
    {
        match reserved {
            Reserved::Job { reg, .. } => self.make_room_at(alloc, *reg),
            Reserved::NoRoom(_) => Ok(()),
            Reserved::Spent => Ok(()),
        }
    }

    /// Takes an entry of this number into the books. It takes no memory.
    #[inline(always)]
    pub fn absorb<L: Ledger>(&mut self, step: &CoreEntry, number: u64, steps: &mut Steps<L>)
        requires sound { AreSoundRows (rows_next self.old.lists step.now number) }
        requires above { self.old.top ≤ number }
        requires row_room { MayRegister step.now.kind → self.old.has_row_room ≡ true }
        requires job_room { HasJobRoom step.now.kind self.old.job_room }
        requires apart { AreReapedApart step.now.kind }
        requires follows { IfSome (booked_by step.now.kind self.old.lists.rows number step.now.now)
            (λ b. b.job.0 ≡ (self.old.first + length self.old.lists.booked) % 2 ^ 64) }
        ensures lists { self.new.lists ≡ lists_next self.old.lists step.entry.now number }
        ensures first { self.new.first ≡ self.old.first }
        ensures top { self.new.top ≤ number + 1 }
        ensures places { self.new.places ≡ self.old.places }
        ensures looks { (h : ℕ) → self.old.places ≤ 2 ^ h
            → AreFew step.entry.now.kind h steps.old steps.new }
    {
        if is_reservation(&step.kind) {
            self.absorb_reservation(step, number, steps);
        } else {
            self.absorb_other(step, number, steps);
        }
    }

    // The same of an entry that makes a reservation.
    fn absorb_reservation<L: Ledger>(&mut self, step: &CoreEntry, number: u64, steps: &mut Steps<L>)
        requires booked { is_booked step.now.kind ≡ true }
        requires above { self.old.top ≤ number }
        requires job_room { HasJobRoom step.now.kind self.old.job_room }
        requires apart { AreReapedApart step.now.kind }
        requires follows { IfSome (booked_by step.now.kind self.old.lists.rows number step.now.now)
            (λ b. b.job.0 ≡ (self.old.first + length self.old.lists.booked) % 2 ^ 64) }
        ensures lists { self.new.lists ≡ lists_next self.old.lists step.entry.now number }
        ensures first { self.new.first ≡ self.old.first }
        ensures top { self.new.top ≤ number + 1 }
        ensures places { self.new.places ≡ self.old.places }
        ensures looks { (h : ℕ) → self.old.places ≤ 2 ^ h
            → AreFew step.entry.now.kind h steps.old steps.new }
    {
        let job = job_made(&step.kind, &self.rows, number, step.now);
        let made = booked(&job);
        absorb_rows(&mut self.rows, &self.bookings, step, steps);
        own::absorb_made(&mut self.bookings, &mut self.own, step, made);
    }

    // The same of any other entry.
    fn absorb_other<L: Ledger>(&mut self, step: &CoreEntry, number: u64, steps: &mut Steps<L>)
        requires other { is_booked step.now.kind ≡ false }
        requires sound { AreSoundRows (rows_next self.old.lists step.now number) }
        requires above { self.old.top ≤ number }
        requires row_room { MayRegister step.now.kind → self.old.has_row_room ≡ true }
        requires apart { AreReapedApart step.now.kind }
        ensures lists { self.new.lists ≡ lists_next self.old.lists step.entry.now number }
        ensures first { self.new.first ≡ self.old.first }
        ensures top { self.new.top ≤ number + 1 }
        ensures places { self.new.places ≡ self.old.places }
        ensures looks { (h : ℕ) → self.old.places ≤ 2 ^ h
            → AreFew step.entry.now.kind h steps.old steps.new }
    {
        absorb_rows(&mut self.rows, &self.bookings, step, steps);
        push_made(&mut self.rows, step, number, steps);
        own::absorb(&mut self.bookings, &mut self.own, step);
    }
}
