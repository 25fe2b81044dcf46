//! Why words ask for nothing.
ghost use Rattle.std.specs.Prelude.{◌≡◌};

use std::alloc::{AllocError, AllocFailed, Global};
use thiserror::Error;

/// Why words ask for nothing.
#[derive(Debug, Drop, Error)]
pub enum Misuse {
    /// They are none of the program's, and why.
    #[error("Usage: {0}")]
    Usage(String),
    /// Memory ran out.
    #[error("Memory: out of memory")]
    Memory,
}

/// That words are wrong, and why.
pub(crate) fn usage(alloc: Global, cause: &str) -> Misuse {
    match String::from_str(alloc, cause) {
        Ok(cause) => Misuse::Usage(cause),
        Err(_) => Misuse::Memory,
    }
}

impl From<AllocError> for Misuse {
    ghost use Rattle.submit_words.specs.declared.misuse.Misuse.TheVariants as Misuses;

    ghost from_gives = { λ _ e. e ≡ Misuses.Memory };

    fn from(_: AllocError) -> Self {
        Misuse::Memory
    }
}

impl<T: Drop> From<AllocFailed<T>> for Misuse {
    ghost use Rattle.submit_words.specs.declared.misuse.Misuse.TheVariants as Misuses;

    ghost from_gives = { λ _ e. e ≡ Misuses.Memory };

    fn from(_: AllocFailed<T>) -> Self {
        Misuse::Memory
    }
}
