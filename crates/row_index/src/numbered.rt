//! Rows that have a number.
ghost use Rattle.std.specs.Prelude.{◌≡◌, ℕ};

/// A row that has a number.
pub trait Numbered: Copy {
    // The number.
    ghost number_of: { Self → ℕ };

    /// Its number.
    fn number(&self) -> u64
        ensures { result ≡ number_of self.now };
}
