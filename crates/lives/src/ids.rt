//! The ids of a life, as a farm's scheduler counts them.
ghost use Rattle.std.specs.Prelude.{◌≡◌};
ghost use Rattle.lives.specs.Lives.{base_of, given_before};

/// The id that the first job of all would have had, where the first of a life of so many ids has this one.
pub fn base_of(from: u64, count: u64) -> u64
    ensures { result ≡ base_of from count }
{
    from.wrapping_add(count).wrapping_add(1)
}

/// How many ids were given before a life of so many, where none is left behind it.
pub fn given_before(count: u64) -> u64
    ensures { result ≡ given_before count }
{
    u64::MAX - count
}
