//! The rule of the table, and what its steps tell.
ghost use Rattle.std.specs.Prelude.{◌≡◌, ◌==◌, MatchBool};
ghost use Rattle.sched.specs.Rule.{Holds};
ghost use Rattle.sched.specs.Plays as told;

use crate::desk::Desk;
use crate::view::View;
use atomic_table::{Join, Play, Split, TableRule};
use core_rules::start::Start;
use dist_types::roles::JobAuthorizer;
use std::marker::PhantomData;

/// The rule.
pub struct Turns<A> {
    of: PhantomData<A>,
}

impl<A: JobAuthorizer> TableRule<Option<Desk<A>>, View, Start> for Turns<A> {
    ghost holds = { λ start. Holds start };

    ghost first = { told.first_view };
}

/// Takes the turn.
pub struct Claim;

impl<A: JobAuthorizer> Play<Option<Desk<A>>, View> for Claim {
    ghost then = { λ st m r n. MatchBool (r == 0) (told.Claims m n) (n ≡ m) };
}

/// Records the entry that the desk in the slot has more than the front.
pub struct Record;

impl<A: JobAuthorizer> Play<Option<Desk<A>>, View> for Record {
    ghost then = { λ st m r n. told.Records m n };
}

/// Counts one pass more.
pub struct Enter;

impl<A: JobAuthorizer> Play<Option<Desk<A>>, View> for Enter {
    ghost then = { λ st m r n. told.Enters m n };
}

/// Notes that one pass more was split off.
pub struct CountSplit;

impl<A: JobAuthorizer> Play<Option<Desk<A>>, View> for CountSplit {
    ghost then = { λ st m r n. told.CountsSplit m n };
}

/// Gives the turn back.
pub struct Release;

impl<A: JobAuthorizer> Play<Option<Desk<A>>, View> for Release {
    ghost then = { λ st m r n. told.Releases m n };
}

/// Compares the fronts of two passes that are one now.
pub struct Compare;

impl<A: JobAuthorizer> Play<Option<Desk<A>>, View> for Compare {
    ghost then = { λ st m r n. told.Compares m r n };
}

/// Looks how many passes were made.
pub struct Count;

impl<A: JobAuthorizer> Play<Option<Desk<A>>, View> for Count {
    ghost then = { λ st m r n. told.Counts m r n };
}

/// Makes a new pass.
pub struct Part;

impl Split<View> for Part {
    ghost left = { λ v. v };

    ghost right = { told.newcomer };
}

/// Takes a pass in.
pub struct Unite;

impl Join<View> for Unite {
    ghost both = { told.joined };

    ghost spent = { told.spent };
}
