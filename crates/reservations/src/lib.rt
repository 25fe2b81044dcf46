//! The reservations that the scheduler keeps: one row each, from its reserving on, found at once by the id of
//! its job, and for each registration a list of the places of its unended ones.
//!
//! Contracts see `Bookings` as the list of all rows in the order of their reserving; the filters of
//! `specs/Booked.antt` read off it what is unended, unspent or open. The contract: `own::absorb` and
//! `own::absorb_made` take an entry of the log in, and each row becomes the one that the entry makes of it.
//! `sched_core` keeps these beside the registrations.
#![tactic(auto)]

pub mod booked;
pub mod bookings;
pub mod jobs;
pub mod own;
mod own_places;
