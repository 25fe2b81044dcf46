//! Worked runs of a build server: the rules over plain lists beside the state, on generated orders of calls
//! and with each call of the folder failing in turn; the running server; and that no lock is held over a
//! report or a build. Tests alone; nothing above uses this crate.
#![tactic(auto)]

#[cfg(test)]
mod failing;
#[cfg(test)]
mod gates;
#[cfg(test)]
mod orders;
#[cfg(test)]
mod outside;
#[cfg(test)]
mod plain;
#[cfg(test)]
mod running;
