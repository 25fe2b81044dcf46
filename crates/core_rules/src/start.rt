//! Where the ids of a scheduler begin, and the rules that it goes by.
use dist_types::rules::Rules;

/// Which id the first job has, how many jobs were reserved before the log begins, and which rules the
/// scheduler goes by: the next job has the id `base + count`, modulo 2^64.
#[derive(Clone, Copy, Debug, PartialEq, Eq)]
pub struct Start {
    /// The id of the first job.
    pub base: u64,
    /// How many jobs were reserved before the log begins.
    pub count: u64,
    /// The version of the rules.
    pub rules: Rules,
}
