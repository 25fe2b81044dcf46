//! A mirror of archives: a near cache of archives that is backed by a far one over HTTP.
//!
//! The contract: a get asks near first, and the far side once and only where near has none; whatever the far
//! side sends, all bytes that a fetch gives have the asked id as their SHA-256, and nothing else is listed
//! near. The far side answers by `mirror_route`. A prefetch brings what was got to a build server's cache.
//!
//! `question` is what is asked, `said` what a reply says, `look` and `keep` are the near cache's part, `mirror`
//! puts these together, and `route` is the far side's part. `far_side` is what a mirror asks, and `far` one in
//! memory: a far cache behind the route, over which a get gives what one cache gives.
//!
//! The layer above uses `Mirror`, `Got`, `MirrorError`, `mirror_route`, `FarDialer` and `Wait`; and of the
//! definitions `GetsBy`, `Routes`, `AfterGot`, `ReadyWhereTrue`, `FarAsks`, `RulesBy`, `AsOneBy`.
#![tactic(auto)]

pub mod error;
pub mod far;
pub mod far_side;
pub mod got;
mod keep;
pub mod laws;
mod look;
pub mod mirror;
mod question;
pub mod route;
pub mod said;
