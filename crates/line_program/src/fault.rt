//! Why a command did not do its work.
ghost use Rattle.std.specs.Prelude.{◌≡◌};
ghost use Rattle.line_program.specs.declared.fault.LineFault.TheVariants as line_faults;
ghost use Rattle.line_program.specs.declared.fault.FarmFault.TheVariants as farm_faults;

use crate::why::Why;
use dist_types::text::Text;
use std::alloc::{AllocError, AllocFailed};
use std::error::Error;
use std::fmt;

/// Why a configuration is none.
#[derive(Debug, Drop)]
pub enum ConfigCause {
    /// There is no such file.
    Missing,
    /// Reading the file failed.
    Unreadable,
    /// The bytes of the file are not TOML.
    NotToml,
    /// This key is unknown, or is missing, or has no value that is taken.
    Key(Text),
}

impl fmt::Display for ConfigCause {
    ghost use Rattle.std.specs.Prelude.{Some};
    ghost use Rattle.line_program.specs.FaultText.{cause_text};

    ghost output = { λ c. Some (cause_text c) };

    fn fmt<W: fmt::Write>(&self, f: &mut fmt::Formatter<W>) -> fmt::Result {
        match self {
            ConfigCause::Missing => write!(f, "file missing"),
            ConfigCause::Unreadable => write!(f, "file unreadable"),
            ConfigCause::NotToml => write!(f, "not TOML"),
            ConfigCause::Key(name) => write!(f, "key {}", name.get()),
        }
    }
}

impl Error for ConfigCause {}

/// Why a command did not do its work.
#[derive(Debug, Drop)]
pub enum FarmFault {
    /// The words name no command.
    Usage,
    /// The first faulty line has this number, counted from 1. It is past a limit, outside the grammar, or
    /// out of its place.
    BadLine(u64),
    /// The first faulty line has this number, and is so for an address that stands before.
    DuplicateAddress(u64),
    /// The first faulty line has this number, and is so for an address with a scope.
    ScopedAddress(u64),
    /// The first faulty line has this number, and is so for a range of ids that meets an earlier one.
    OverlappingIds(u64),
    /// The input failed.
    ReadFault,
    /// The output failed.
    WriteFault,
    /// A configuration is none.
    BadConfig(ConfigCause),
    /// Serving failed.
    ServeFault,
    /// Memory ran out.
    Memory,
    /// The printed run does not hold: the line of this number is why, counted from 1.
    AuditRefused(u64, Why),
}

impl fmt::Display for FarmFault {
    ghost use Rattle.std.specs.Prelude.{Some};
    ghost use Rattle.line_program.specs.FaultText.{said_text};

    ghost output = { λ f. Some (said_text f) };

    fn fmt<W: fmt::Write>(&self, f: &mut fmt::Formatter<W>) -> fmt::Result {
        match self {
            FarmFault::Usage => write!(f, "these words name no command"),
            FarmFault::BadLine(n) => write!(f, "bad line {n}"),
            FarmFault::DuplicateAddress(n) => write!(f, "duplicate address on line {n}"),
            FarmFault::ScopedAddress(n) => write!(f, "scoped address on line {n}"),
            FarmFault::OverlappingIds(n) => write!(f, "overlapping ids on line {n}"),
            FarmFault::ReadFault => write!(f, "read fault"),
            FarmFault::WriteFault => write!(f, "write fault"),
            FarmFault::BadConfig(cause) => write!(f, "bad configuration: {cause}"),
            FarmFault::ServeFault => write!(f, "serve fault"),
            FarmFault::Memory => write!(f, "out of memory"),
            FarmFault::AuditRefused(n, why) => write!(f, "audit refused line {n}: {why}"),
        }
    }
}

impl Error for FarmFault {}

impl From<AllocError> for FarmFault {
    ghost from_gives = { λ _ e. e ≡ farm_faults.Memory };

    fn from(_: AllocError) -> Self {
        FarmFault::Memory
    }
}

impl<T: Drop> From<AllocFailed<T>> for FarmFault {
    ghost from_gives = { λ _ e. e ≡ farm_faults.Memory };

    fn from(_: AllocFailed<T>) -> Self {
        FarmFault::Memory
    }
}

/// Why a line was not read.
#[derive(Clone, Copy, Debug, PartialEq, Eq)]
pub enum LineFault {
    /// It is not in the grammar.
    Bad,
    /// Memory ran out.
    Memory,
}

impl From<AllocError> for LineFault {
    ghost from_gives = { λ _ e. e ≡ line_faults.Memory };

    fn from(_: AllocError) -> Self {
        LineFault::Memory
    }
}

impl<T: Drop> From<AllocFailed<T>> for LineFault {
    ghost from_gives = { λ _ e. e ≡ line_faults.Memory };

    fn from(_: AllocFailed<T>) -> Self {
        LineFault::Memory
    }
}
