//! What a tree compares, and what makes an order of such keys.
ghost use Rattle.std.specs.Prelude.{◌≡◌, Bool, true, false};

/// A key of a tree. Of two different keys one goes before the other.
pub trait Key: Copy {
    // Whether the first key goes before the second.
    ghost before: { Self → Self → Bool };

    /// Whether it goes before the other.
    fn is_before(&self, other: &Self) -> bool
        ensures { result ≡ before self.now other.now };

    // Of two keys at most one goes before the other.
    ghost one_way: { (a b : Self) → before a b ≡ true → before b a ≡ false };

    // A key that is not before one that is not before a third is not before the third.
    ghost through: { (a b c : Self) → before b a ≡ false → before c b ≡ false → before c a ≡ false };

    // Two keys of which none goes before the other are one.
    ghost apart: { (a b : Self) → before a b ≡ false → before b a ≡ false → a ≡ b };
}
