//! The tests of path_pkg: paths made simple, mapped paths, packages, the tree of the system. Tests alone;
//! nothing above uses this crate.
#![tactic(auto)]

#[cfg(test)]
mod disks;
#[cfg(test)]
mod packages;
#[cfg(test)]
mod paths;
#[cfg(test)]
mod refusals;
#[cfg(test)]
mod system;
#[cfg(test)]
mod trees;
