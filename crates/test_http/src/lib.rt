//! Tests of requests and replies: heads by their rule, what each route asks and refuses, replies and faults
//! to the byte, what a client's calls write, and what the reply to a call says.
#![tactic(auto)]

#[cfg(test)]
mod calls;
#[cfg(test)]
mod client_calls;
#[cfg(test)]
mod drains;
#[cfg(test)]
mod heads;
#[cfg(test)]
mod refusals;
#[cfg(test)]
mod replies;
#[cfg(test)]
mod routes;
#[cfg(test)]
mod server_refusals;
#[cfg(test)]
mod server_routes;
#[cfg(test)]
mod urls;
