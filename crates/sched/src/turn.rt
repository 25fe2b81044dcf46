//! One turn: who has it has the desk in hand.
ghost use Rattle.std.specs.Prelude.{◌≡◌, ◌+◌, ◌-◌, ◌<◌, [], ◌∷◌, length, min, true};
ghost use Rattle.sched.specs.Hand.{HasTurn, IsLive, IsIdle, MayEnter, AreUnited, Begins, MayEnd, ended};
ghost use Rattle.sched.specs.Hand.{MayRecord, IsRecorded};
ghost use Rattle.sched.specs.Plays.{entered, released, newcomer, with_split};
ghost use Rattle.sched.specs.declared.view.View.{View};

use crate::desk::Desk;
use crate::rule::{Claim, Compare, Count, CountSplit, Enter, Part, Record, Release, Unite};
use crate::scheduler::Scheduler;
use crate::view::View;
use atomic_table::Badge;
use dist_types::roles::JobAuthorizer;
use std::sync::Wait;
use std::sync::atomic::Ordering;

pub(crate) type Seat<A> = atomic_table::Seat<Option<Desk<A>>, View>;

/// The word that says how long the log is.
const COUNT: usize = 0;

/// The word that says whether somebody has the turn. Who waits parks on it.
const TURN: usize = 1;

/// The word that says how many passes were made.
const MADE: usize = 2;

/// The turn, with the desk out of its slot. It has no `Drop`, so it ends in `end`, `enter` or `close`.
pub struct Turn<A: JobAuthorizer> {
    pub(crate) seat: Seat<A>,
    /// How long the log was that the turn found.
    pub(crate) found: u64,
    pub ghost has: { HasTurn seat.me },
    pub ghost found_is: { found ≡ length seat.me.0.front },
}

impl<A: JobAuthorizer> Scheduler<A> {
    /// Takes the turn, and the desk out of its slot. It is tried until it wins, and parks between.
    fn claim<R: Wait>(&self, rt: &R, seat: &mut Seat<A>) -> Desk<A>
        requires of { seat.old.table_id ≡ self.now.of }
        requires idle { (seat.old.me.1 ≡ []) × (seat.old.me.0.live ≡ true) }
        ensures of { seat.new.table_id ≡ seat.old.table_id }
        ensures turn { HasTurn seat.new.me }
        ensures begins { Begins seat.old.me.0 seat.new.me.0 result }
    {
        let shared = &self.table.shared;
        for _ in rt.forever() {
            let found = shared.compare_exchange::<Claim>(seat, TURN, 0, 1);
            if found == 0 {
                return shared.exchange(seat, 0, None).unwrap();
            }
            self.waiting.fetch_add(1, Ordering::SeqCst);
            shared.park(rt, TURN, 1);
            self.waiting.fetch_sub(1, Ordering::SeqCst);
        }
        unreachable!()
    }

    /// Wakes one of those who wait for the turn, if anybody does. Who waits is counted before it looks whether
    /// the turn is still taken, so that it is seen here or sees that the turn was given back.
    fn wake(&self) {
        if self.waiting.load(Ordering::SeqCst) > 0 {
            self.table.shared.wake_one(TURN);
        }
    }

    /// Takes the turn for the pass of a badge.
    pub(crate) fn begin<R: Wait>(&self, rt: &R, badge: Badge<View>) -> (Turn<A>, Desk<A>)
        requires of { badge.table_id ≡ self.now.of }
        requires live { IsLive badge.views }
        ensures of { result.0.seat.table_id ≡ badge.table_id }
        ensures begins { (v : View) → badge.views ≡ v ∷ [] → Begins v result.0.seat.me.0 result.1 }
    {
        let mut seat: Seat<A> = badge.into_seat();
        let desk = self.claim(rt, &mut seat);
        let found = desk.len();
        (Turn { seat, found }, desk)
    }

    /// Records the entry of the desk in the slot, where its log is longer than the one that was found.
    fn record(&self, seat: &mut Seat<A>, len: u64, found: u64)
        requires of { seat.old.table_id ≡ self.now.of }
        requires may { MayRecord seat.old.me len }
        requires found { found ≡ length seat.old.me.0.front }
        ensures of { seat.new.table_id ≡ seat.old.table_id }
        ensures recorded { IsRecorded seat.old.me seat.new.me }
    {
        if found < len {
            self.table.shared.store::<Record>(seat, COUNT, len);
        }
    }

    /// Gives the turn back, with the desk, whose log has one entry more than the one that was found, or none:
    /// that is recorded and counted.
    pub(crate) fn end(&self, turn: Turn<A>, desk: Desk<A>, entries: &mut u64) -> Badge<View>
        requires of { turn.seat.table_id ≡ self.now.of }
        requires may { MayEnd turn.seat.me.0 desk }
        ensures of { result.table_id ≡ turn.seat.table_id }
        ensures views { result.views ≡ ended turn.seat.me.0 desk.core.log ∷ [] }
        ensures few { length desk.core.log < 18446744073709551616 }
        ensures counted { entries.new
            ≡ min (entries.old + (length desk.core.log - length turn.seat.me.0.front)) 18446744073709551615 }
    {
        let Turn { mut seat, found } = turn;
        let len = desk.len();
        drop(self.table.shared.exchange(&mut seat, 0, Some(desk)));
        self.record(&mut seat, len, found);
        self.table.shared.store::<Release>(&mut seat, TURN, 0);
        self.wake();
        *entries = entries.saturating_add(len - found);
        seat.into_badge()
    }

    /// Gives the turn back, with the desk, in which one pass more was made: this one.
    pub(crate) fn enter(&self, turn: Turn<A>, desk: Desk<A>) -> Badge<View>
        requires of { turn.seat.table_id ≡ self.now.of }
        requires may { MayEnter turn.seat.me.0 desk }
        ensures of { result.table_id ≡ turn.seat.table_id }
        ensures views { result.views ≡ released (entered turn.seat.me.0) ∷ [] }
    {
        let Turn { mut seat, found: _ } = turn;
        let made = desk.made();
        drop(self.table.shared.exchange(&mut seat, 0, Some(desk)));
        self.table.shared.store::<Enter>(&mut seat, MADE, made);
        self.table.shared.store::<Release>(&mut seat, TURN, 0);
        self.wake();
        seat.into_badge()
    }

    /// Makes a new pass of a pass.
    pub(crate) fn part(&self, badge: Badge<View>) -> (Badge<View>, Badge<View>)
        requires of { badge.table_id ≡ self.now.of }
        requires live { IsLive badge.views }
        ensures of { result.0.table_id ≡ badge.table_id }
        ensures new_of { result.1.table_id ≡ badge.table_id }
        ensures same { result.0.views ≡ badge.views }
        ensures new { (v : View) → badge.views ≡ v ∷ [] → result.1.views ≡ newcomer v ∷ [] }
    {
        let mut seat: Seat<A> = badge.into_seat();
        let new = self.table.shared.split_seat::<Part>(&mut seat);
        (seat.into_badge(), new.into_badge())
    }

    /// Notes that one pass more was split off that of a badge.
    pub(crate) fn count_split(&self, badge: Badge<View>) -> Badge<View>
        requires of { badge.table_id ≡ self.now.of }
        requires live { IsLive badge.views }
        ensures of { result.table_id ≡ badge.table_id }
        ensures counted { (v : View) → badge.views ≡ v ∷ [] → result.views ≡ with_split v ∷ [] }
    {
        let mut seat: Seat<A> = badge.into_seat();
        let _made = self.table.shared.load::<CountSplit>(&mut seat, MADE);
        seat.into_badge()
    }

    /// Makes one pass of two.
    pub(crate) fn unite(&self, badge: Badge<View>, other: Badge<View>) -> Badge<View>
        requires of { badge.table_id ≡ self.now.of }
        requires other_of { other.table_id ≡ self.now.of }
        requires idle { IsIdle badge.views }
        requires other_idle { IsIdle other.views }
        ensures of { result.table_id ≡ badge.table_id }
        ensures united { (v w : View) → badge.views ≡ v ∷ [] → other.views ≡ w ∷ []
            → AreUnited v w result.views }
    {
        let mut seat: Seat<A> = badge.into_seat();
        let other: Seat<A> = other.into_seat();
        self.table.shared.join_seat::<Unite>(&mut seat, other);
        let _len = self.table.shared.load::<Compare>(&mut seat, COUNT);
        let _made = self.table.shared.load::<Count>(&mut seat, MADE);
        seat.into_badge()
    }
}
