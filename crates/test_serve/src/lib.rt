//! The running scheduler and build server over connections: which bytes are taken and what is replied, over
//! links in memory, lying links and loopback. Tests alone; nothing above uses this crate.
#![tactic(auto)]

#[cfg(test)]
mod begun;
#[cfg(test)]
mod calls;
#[cfg(test)]
mod cuts;
#[cfg(test)]
mod drawn;
#[cfg(test)]
mod gate;
#[cfg(test)]
mod gate_builds;
#[cfg(test)]
mod hostile;
#[cfg(test)]
mod loopback;
#[cfg(test)]
mod server_loopback;
#[cfg(test)]
mod slow;
#[cfg(test)]
mod starts;
