//! The lives of a scheduler, one after the other over the same build servers, and the program that runs those of a
//! script.
//!
//! The contract: a life is a run of the farm with ids of its own, over the folders and builders that the life before
//! it left; over all lives no id is built twice. `lives_main` reads a script, runs its lives, and writes the printed
//! run of each; or it names the first faulty line, a fault that input or output counted, or want of memory, each only
//! where it is so.
//!
//! The layer above is `main` alone, which hands the program to `line_program`.
#![tactic(auto)]

mod ids;
pub mod laws;
pub mod program;
mod run;
