//! Why no configuration was read.
ghost use Rattle.std.specs.Prelude.{◌≡◌};
ghost use Rattle.command_line.specs.declared.cause.ConfigFault.TheVariants as config_faults;

use dist_types::fault::Memory;
use line_program::fault::ConfigCause;
use std::alloc::AllocError;

/// Why no configuration was read.
#[derive(Debug, Drop)]
pub enum ConfigFault {
    /// The file says none.
    Cause(ConfigCause),
    /// Memory ran out.
    Memory,
}

impl From<AllocError> for ConfigFault {
    ghost from_gives = { λ _ e. e ≡ config_faults.Memory };

    fn from(_: AllocError) -> Self {
        ConfigFault::Memory
    }
}

impl From<Memory> for ConfigFault {
    ghost from_gives = { λ _ e. e ≡ config_faults.Memory };

    fn from(_: Memory) -> Self {
        ConfigFault::Memory
    }
}
