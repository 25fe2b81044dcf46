//! The command: what the words of a command line say is done, and each fault is told by its status.
//!
//! The contract: `dist_main` reads a script, runs it and writes the text of its run, or names the first
//! faulty line; or it reads a printed run, and says that it holds, or names its first fault; or it names a
//! fault that input or output counted, or want of memory, each only where it is so.
//!
//! The layer above is `main` alone, which uses `command::dist_main`. The names of scripts, farms and runs
//! are exported again from the crates below.
#![tactic(auto)]

pub use command_line::{files, line, need, option_words, parse, read, token_length};
pub use dist_config::{config, serve, start};
pub use farm_run::{begin, build_row, builder, entry, print, run, site};
pub use farm_script::{event, reader, script, setup};
pub use line_program::{fault, pieces};

mod audit_run;
pub mod command;
pub mod lines;
mod script_run;
mod storm_run;
