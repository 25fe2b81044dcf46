//! What an event of a farm did, how a farm is set up, and the rule of its runs.
//!
//! The contract: an entry is made of an effect and its event, word for word. All else here is definitions:
//! what is next over entries (`Next`), what a server is after them (`Servers`), what every run has
//! (`Lawful`, `Builds`, `Reliable`), what waits (`Waiting`), and the text of a run (`Printed`, `RunText`).
//!
//! The layers above: `farm_laws` (the laws of runs), `farm_stations` (build servers), `farm_text` (the lines
//! of a printed run) and `farm_run` (farms).
#![tactic(auto)]

pub mod entry;
pub mod pending;
pub mod site;
