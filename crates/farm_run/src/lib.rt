//! Farms that scripts set up, their runs, and the printed text of a run.
//!
//! The contract: a run has one entry for each event, each *next* over the entries before it, and in calm
//! weather there is one such list; after each front of it the scheduler's laws hold; what is printed is the
//! text of the farm and of that list. The entries, the laws of runs and the builders of listed answers stand in
//! the crates below, and are exported again here.
//!
//! The layer above is `farm`, whose command reads a script, runs it and writes the text. Tests and replays
//! use `setup`, `Farm::new`, `Farm::run`, `Farm::history` and `print_run`.
#![tactic(auto)]

pub use farm_entries::{entry, site};
pub use farm_laws::{build_laws, laws};
pub use farm_stations::{build_row, builder, folder_laws};

pub mod answer_laws;
mod arrivals;
pub mod begin;
mod desk;
mod go_on;
mod lookup;
mod pending;
pub mod print;
mod reports;
mod room;
pub mod run;
mod serve;
mod servers;
mod settle;
mod settlements;
mod told;
mod words;
