//! The running scheduler at work: what its calls answer, what its passes count, and that no turn is held
//! while a server is asked. Tests alone; nothing above uses this crate.
#![tactic(auto)]

#[cfg(test)]
mod answers;
#[cfg(test)]
mod gate;
#[cfg(test)]
mod running;
#[cfg(test)]
mod threads;
