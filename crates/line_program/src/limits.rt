//! How much a program over lines takes.

/// The most lines of an input.
pub const MAX_LINES: u64 = 1_000_000;

/// The most bytes of a line, without its end.
pub const MAX_LINE_BYTES: usize = 2_097_152;

/// The most bytes of an input.
pub const MAX_BYTES: usize = 67_108_864;

/// The most bytes of a printed run that is judged.
pub const MAX_RUN_BYTES: usize = 268_435_456;
