//! Tests of scripts: lines, setups and lives, good and faulty, each with the cause and the number that is told.
//! Tests alone; nothing above uses this crate.
#![tactic(auto)]

#[cfg(test)]
mod judged;
#[cfg(test)]
mod limits;
#[cfg(test)]
mod lines;
#[cfg(test)]
mod lives;
#[cfg(test)]
mod values;
#[cfg(test)]
mod versions;
