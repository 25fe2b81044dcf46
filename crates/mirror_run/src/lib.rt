//! The program of a mirror: the steps of a script, over two caches in memory.
//!
//! The contract: `mirror_main` reads a script, does its steps, and writes the line of each as the rules say over the
//! steps before it, or names the first faulty line, a fault that input or output counted, or want of memory, each only
//! where it is so. The far cache is asked through the route of a mirror.
//!
//! The layer above is `main` alone, which hands the program to `line_program`.
#![tactic(auto)]

pub mod program;
mod sites;
