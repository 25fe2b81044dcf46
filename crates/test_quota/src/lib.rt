//! The program of a scheduler with quotas over calls that fail, worked rows, and each kind of line; and its connections.
//! The expected texts were written by hand or by an outside model, none is our own output.
#![tactic(auto)]

#[cfg(test)]
mod connection;
#[cfg(test)]
mod failing;
#[cfg(test)]
mod ran;
#[cfg(test)]
mod rows;
