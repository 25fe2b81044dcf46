//! A cache that evicts by recency, whose size is measured by a meter.
//!
//! A cache is seen as a list of pairs with different keys, least recent first, a capacity and a meter
//! (`specs/Metered.antt`). Each call of `LruCache` is its step on that list: an insert takes out the key's
//! pair, appends the new one, and then pairs go from the front while the size exceeds the capacity. So the
//! size is at most the capacity after each call, for every lawful meter.
//!
//! What a meter owes stands on `CountableMeter`, as clauses and a law that each implementation proves. A
//! meter whose measure is `u64` is lawful as it stands, and one with a measure of its own implements
//! `CountableMeterWithMeasure`.
//!
//! The layer above makes a cache by `LruCache::with_meter` and handles `InsertFault`. No public clause names
//! what the pairs are kept in.
#![tactic(auto)]

mod cache;
pub mod chain;
mod fault;
mod index;
mod iter;
pub mod laws;
mod listing;
mod meter;
mod neighbours;
mod table;
mod uncounted;

pub use cache::{DefaultHasher, LruCache};
pub use fault::{InsertFault, Memory};
pub use iter::{IntoIter, Iter};
pub use meter::{Count, CountableMeter, CountableMeterWithMeasure, Meter};
pub use steps::Steps;
