//! Rows that have an id.
ghost use Rattle.std.specs.Prelude.{◌≡◌, ℕ};

/// A row that has an id.
pub trait Identified: Copy {
    // The id.
    ghost id_of: { Self → ℕ };

    /// Its id.
    fn id(&self) -> u64
        ensures { result ≡ id_of self.now };
}
