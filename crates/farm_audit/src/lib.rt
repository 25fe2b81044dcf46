//! What a farm prints, judged by the audit: the text of each run is that of its lines, and holds.
#![tactic(auto)]

mod fit;
pub mod laws;
