//! Tests of the messages: spellings and texts that other tools made, and bytes that spell no message.
#![tactic(auto)]

#[cfg(test)]
mod case;
#[cfg(test)]
mod own;
#[cfg(test)]
mod reads;
#[cfg(test)]
mod rows;
#[cfg(test)]
mod vectors;
