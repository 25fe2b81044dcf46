//! What an audit answers.
pub use line_program::why::Why;

/// What an audit answers.
#[derive(Clone, Copy, Debug, PartialEq, Eq)]
pub enum Verdict {
    /// The text is a printed run, and holds.
    Holds,
    /// The first fault: the number of its line, and why.
    Refused(u64, Why),
}
