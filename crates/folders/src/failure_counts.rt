//! How often the calls of a folder in memory failed.
ghost use Rattle.std.specs.Prelude.{◌≡◌};
ghost use Rattle.folders.specs.Failures.{call_failed, rename_failed, removal_failed};

use crate::fault::FolderFault;
use dist_types::fault::raise;
use std::marker::Model;

/// How often a rename and a removal answered Failed or Memory, and how often any call answered Memory. Each
/// count stops at 2^64 - 1.
#[derive(Debug, Drop)]
pub struct FailureCounts {
    renames: u64,
    removals: u64,
    memory: u64,
}

impl Model for FailureCounts {
    ghost use Rattle.folders.specs.Failures.{Failures};

    ghost Value = { Failures };

    ghost view = { λ c. record { renames = c.renames; removals = c.removals; memory = c.memory } };
}

impl FailureCounts {
    /// No failure.
    pub fn none() -> Self
        ensures { result ≡ record { renames = 0; removals = 0; memory = 0 } }
    {
        FailureCounts {
            renames: 0,
            removals: 0,
            memory: 0,
        }
    }

    /// How often a rename answered Failed or Memory.
    pub fn renames(&self) -> u64
        ensures { result ≡ self.now.renames }
    {
        self.renames
    }

    /// How often a removal did.
    pub fn removals(&self) -> u64
        ensures { result ≡ self.now.removals }
    {
        self.removals
    }

    /// How often any call answered Memory.
    pub fn memory(&self) -> u64
        ensures { result ≡ self.now.memory }
    {
        self.memory
    }

    /// Counts the answer of a call that is neither a rename nor a removal.
    pub(crate) fn count<T>(&mut self, answer: &Result<T, FolderFault>)
        ensures { self.new ≡ call_failed answer.now self.old }
    {
        match answer {
            Err(FolderFault::Memory) => raise(&mut self.memory),
            Ok(_) | Err(FolderFault::Missing | FolderFault::Failed) => {}
        }
    }

    /// Counts the answer of a rename.
    pub(crate) fn count_rename(&mut self, answer: &Result<(), FolderFault>)
        ensures { self.new ≡ rename_failed answer.now self.old }
    {
        match answer {
            Ok(()) | Err(FolderFault::Missing) => {}
            Err(FolderFault::Failed) => raise(&mut self.renames),
            Err(FolderFault::Memory) => {
                raise(&mut self.renames);
                raise(&mut self.memory);
            }
        }
    }

    /// Counts the answer of a removal.
    pub(crate) fn count_removal(&mut self, answer: &Result<(), FolderFault>)
        ensures { self.new ≡ removal_failed answer.now self.old }
    {
        match answer {
            Ok(()) | Err(FolderFault::Missing) => {}
            Err(FolderFault::Failed) => raise(&mut self.removals),
            Err(FolderFault::Memory) => {
                raise(&mut self.removals);
                raise(&mut self.memory);
            }
        }
    }
}
