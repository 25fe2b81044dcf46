//! What is kept of the calls that wait, and how it is let go.
ghost use Rattle.std.specs.Prelude.{◌≡◌, None, set, vec_len, vec_capacity};
ghost use Rattle.farm_entries.specs.Effects.{word_effect};
ghost use Rattle.farm_entries.specs.Waiting.{kept_at};

use dist_token::job_token::JWTJobAuthorizer;
use dist_types::outgoing::CallFault;
use farm_entries::entry::{Effect, EntryWord};
use farm_entries::pending::{Ask, Pending, Told};
use sched_core::state::SchedState;

/// What an event made: what it did, and what is kept of the call that it made, if it made one.
#[derive(Debug)]
pub struct Made {
    pub effect: Effect,
    pub pending: Option<Pending>,
}

impl Made {
    /// An effect that makes no call.
    pub fn whole(effect: Effect) -> Self
        ensures { result ≡ record { effect = effect; pending = None } }
    {
        Made {
            effect,
            pending: None,
        }
    }
}

/// An event that has nothing to do.
pub fn idle() -> Made
    ensures { result ≡ record { effect = word_effect EntryWord.Void; pending = None } }
{
    Made::whole(Effect::of_word(EntryWord::Void))
}

/// Takes out what is kept at a place, if anything is.
pub fn take_at(kept: &mut Vec<Option<Pending>>, place: u64) -> Option<Pending>
    ensures taken { result ≡ kept_at kept.old.items place }
    ensures left { kept.new.items ≡ set kept.old.items place None }
    ensures room { vec_capacity kept.new ≡ vec_capacity kept.old }
    ensures places { vec_len kept.new ≡ vec_len kept.old }
{
    match kept.get_mut(place as usize) {
        Some(slot) => slot.take(),
        None => None,
    }
}

/// Lets go what a build server kept.
pub fn drop_told(told: Told) {
    match told {
        Told::Ready { job: _, archive: _ } => {}
        Told::Started {
            job: _,
            run: _,
            inputs: _,
        } => {}
        Told::Complete { job: _, done } => {
            let _ = done.end_run(Err(CallFault::Lost));
        }
        Told::Heartbeat => {}
    }
}

/// Lets go what is kept of a call; a reservation is undone, on the state that made it.
pub fn undo_last(state: &mut SchedState<JWTJobAuthorizer>, last: Option<Pending>) {
    match last {
        None => {}
        Some(pending) => {
            let Pending {
                root: _,
                json: _,
                ask,
            } = pending;
            match ask {
                Ask::Assign(reservation) => {
                    state.undo(0, reservation);
                }
                Ask::Report {
                    server: _,
                    life: _,
                    told,
                } => drop_told(told),
            }
        }
    }
}

/// Undoes all that is kept, on the state that reserved it, and lets both go.
pub fn release(mut state: SchedState<JWTJobAuthorizer>, mut kept: Vec<Option<Pending>>) {
    while !kept.is_empty() {
        match kept.pop() {
            None => {}
            Some(last) => undo_last(&mut state, last),
        }
    }
    kept.destroy_empty();
}
