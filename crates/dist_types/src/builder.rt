//! What runs the builds of a server.
ghost use Rattle.std.specs.Prelude.{◌≡◌, ◌≤◌, ◌≢◌, List, ℕ, OnOk, Option, Err};
ghost use Rattle.sha2.specs.Sha256.{sha256};
ghost use Rattle.dist_types.specs.Cause.{Rose};
ghost use Rattle.dist_types.specs.Content.{Recorded, KeptOrRecorded};
ghost use Rattle.dist_types.specs.Builder.{Answering, AnswersBy, Built, built_row};

use crate::command::CompileCommand;
use crate::fault::Memory;
use crate::results::BuildResult;
use crate::text::Text;
use crate::toolchain::Toolchain;
use std::alloc::AllocError;
use thiserror::Error;

/// Why a build gave nothing.
#[derive(Clone, Copy, Debug, PartialEq, Eq, Error)]
pub enum BuildFault {
    /// The builder refused the build, and its count of refusals rose.
    #[error("build refused")]
    Refused,
    /// Memory ran out.
    #[error("out of memory")]
    Memory,
}

/// Why a run at a build server gave no build.
#[derive(Clone, Copy, Debug, PartialEq, Eq, Error)]
pub enum BuildCause {
    /// The toolchain's archive is not listed.
    #[error("toolchain not in cache")]
    Unlisted,
    /// The archive could not be read, since the folder failed.
    #[error("toolchain unreadable")]
    Folder,
    /// The builder refused.
    #[error("builder refused")]
    Refused,
}

impl From<AllocError> for BuildFault {
    ghost use Rattle.dist_types.specs.declared.builder.BuildFault.TheVariants.{Memory as OutOfMemory};

    ghost from_gives = { λ _ e. e ≡ OutOfMemory };

    fn from(_: AllocError) -> Self {
        BuildFault::Memory
    }
}

impl From<Memory> for BuildFault {
    ghost use Rattle.dist_types.specs.declared.builder.BuildFault.TheVariants.{Memory as OutOfMemory};

    ghost from_gives = { λ _ e. e ≡ OutOfMemory };

    fn from(_: Memory) -> Self {
        BuildFault::Memory
    }
}

/// Runs builds, each in the toolchain of an archive.
pub trait BuilderIncoming {
    /// The record: a row for each build in order, where it is told. A build that ran out of memory may have
    /// none.
    ghost built: { Self → Option (List Built) };

    /// How often it refused.
    ghost refusals: { Self → ℕ };

    /// What it answers to each build, where it is told. No build changes it.
    ghost answers: { Self → Option Answering };

    /// Runs the command in the toolchain over the inputs, and gives what it gave and the outputs of these
    /// names.
    fn run_build(
        &mut self,
        toolchain: &Toolchain,
        archive: &[u8],
        command: &CompileCommand,
        outputs: &[Text],
        inputs: &[u8],
    ) -> Result<BuildResult, BuildFault>
        ensures row { result ≢ Err BuildFault.Memory
            → Recorded (built_row toolchain.now (sha256 archive.now)
            command.now outputs.now inputs.now result)
            (built self.old) (built self.new) }
        ensures memory { result ≡ Err BuildFault.Memory
            → KeptOrRecorded (built_row toolchain.now (sha256 archive.now)
            command.now outputs.now inputs.now result)
            (built self.old) (built self.new) }
        ensures steady { OnOk result (refusals self.new ≡ refusals self.old) }
        ensures uncounted { result ≡ Err BuildFault.Memory → refusals self.new ≡ refusals self.old }
        ensures later { refusals self.old ≤ refusals self.new }
        ensures cause { result ≡ Err BuildFault.Refused → Rose (refusals self.old) (refusals self.new) }
        ensures answered { result ≢ Err BuildFault.Memory
            → AnswersBy (answers self.old) (built self.old) outputs.now inputs.now result }
        ensures same_answers { answers self.new ≡ answers self.old };
}
