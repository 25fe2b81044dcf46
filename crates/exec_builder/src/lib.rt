//! A builder of a build server that compiles: it asks an executor, which runs the commands of jobs on the same
//! machine. It is an example of a builder that is handed in; `sccache-dist server` takes the echo alone, and no
//! sandbox is part of it: what a command may do is the executor's concern.
//!
//! The contract: a build is one question to run, whose parts are the archive's id, the command, the names of the
//! outputs and the inputs, under the executor's secret. Where the executor answers 404, the archive is brought
//! once, and then it is asked again. What was built is what the last reply says; all else is a refusal, which is
//! counted. Where no reply came the refusal is held back for 30 seconds, so that a server whose executor is gone
//! stays loaded, and does not draw each job of its farm to itself. Each question is a row of the dialer's record.
//!
//! `executor` is where it listens, `questions` what is written to it, `asking` one question and its answer,
//! `said` what an answer says of a build, and `builder` puts these together. `pause` holds a refusal back.
//!
//! The layer above uses `ExecBuilder`, `Executor` and `RealPause`, and of the definitions `IsBuiltBy`.
#![tactic(auto)]

mod asking;
pub mod builder;
pub mod executor;
pub mod pause;
pub mod questions;
pub mod said;
