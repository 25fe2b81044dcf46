//! The structures that the scheduler finds its rows in. Each is seen as plain lists, and a clause says what
//! each call does to them: `Ranks` has rows under rising numbers (`Numbered`) in places, and the first of them
//! by each of three keys (`Ranked`: `LoadKey`, `MomentKey`) off the root of a `WinnerTree`; `Following` has rows
//! whose ids follow one another (`Identified`); `LookupTable` has values under keys, `NumberedLists` a list of
//! places for each number. Where memory is refused nothing changes. `Steps` counts looks at the nodes of trees.
#![tactic(auto)]

mod early;
mod entrant;
mod entry;
mod following_rows;
mod identified;
mod key;
mod keys;
pub mod laws;
mod lookup_table;
mod nodes;
mod numbered;
mod numbered_lists;
mod numbered_slots;
mod ranked;
mod ranked_rows;
mod winner_tree;

pub use following_rows::Following;
pub use identified::Identified;
pub use key::Key;
pub use keys::{LoadKey, MomentKey};
pub use lookup_table::LookupTable;
pub use numbered::Numbered;
pub use numbered_lists::NumberedLists;
pub use numbered_slots::Slots;
pub use ranked::Ranked;
pub use ranked_rows::Ranks;
pub use steps::Steps;
pub use winner_tree::WinnerTree;
