//! The program of a scheduler with quotas, and runs of its calls.
//!
//! The contract: `Run` makes calls one after the other over a `QuotaState`, and answers each as the rules say over the
//! calls before it; a client that is refused leaves all other answers, and the log, as they were. `quota_main` reads a
//! script, makes its calls by a `Run`, and writes one line for each event, that of its call; or it names the first
//! faulty line, a fault that input or output counted, or want of memory, each only where it is so.
//!
//! The layer above is `main` alone, which hands the program to `line_program`.
#![tactic(auto)]

mod hand;
mod lines;
pub mod program;
pub mod run;
mod script_run;
mod tokens;
