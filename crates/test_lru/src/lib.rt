//! Tests of the metered cache: worked orders, meters of one's own, and each call beside a plain table of
//! pairs.
#![tactic(auto)]

#[cfg(test)]
mod chains;
#[cfg(test)]
mod meters;
#[cfg(test)]
mod orders;
#[cfg(test)]
mod plain;
pub mod plain_table;
