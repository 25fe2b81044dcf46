//! Who makes the bytes that are sent: toolchain packages, inputs and outputs.
ghost use Rattle.std.specs.Prelude.{◌≡◌, ◌≤◌, ℕ, List, Option, None, Err, OnOk};
ghost use Rattle.dist_types.specs.Cause.{Rose};
ghost use Rattle.path_pkg.specs.Append.{HasAppended, Appends};
ghost use Rattle.path_pkg.specs.Called.{CalledOnce};

use crate::fault::PackFault;
use crate::unix::PathTransformer;

/// Packs a toolchain.
pub trait ToolchainPackager {
    /// How often it refused. Want of memory does not raise it.
    ghost refusals: { Self → ℕ };

    /// The bytes that it appends, where it tells them.
    ghost packs: { Self → Option (List ℕ) } = { λ _. None };

    /// How often it was called, where it tells that.
    ghost times: { Self → Option ℕ } = { λ _. None };

    /// Appends the package.
    fn write_pkg(&mut self, out: &mut Vec<u8>) -> Result<(), PackFault>
        ensures packed { OnOk result (Appends (packs self.old) out.old.items out.new.items) }
        ensures appends { HasAppended out.old.items out.new.items }
        ensures steady { OnOk result (refusals self.new ≡ refusals self.old) }
        ensures later { refusals self.old ≤ refusals self.new }
        ensures cause { result ≡ Err PackFault.Refused → Rose (refusals self.old) (refusals self.new) }
        ensures no_memory { result ≡ Err PackFault.Memory → refusals self.new ≡ refusals self.old }
        ensures called { CalledOnce (times self.old) (times self.new) };
}

/// Packs the inputs of a compile command.
pub trait InputsPackager {
    /// How often it refused. Want of memory does not raise it.
    ghost refusals: { Self → ℕ };

    /// The bytes that it appends, where it tells them.
    ghost packs: { Self → Option (List ℕ) } = { λ _. None };

    /// How often it was called, where it tells that.
    ghost times: { Self → Option ℕ } = { λ _. None };

    /// Appends the inputs, and gives what mapped their paths.
    fn write_inputs(&mut self, out: &mut Vec<u8>) -> Result<PathTransformer, PackFault>
        ensures packed { OnOk result (Appends (packs self.old) out.old.items out.new.items) }
        ensures appends { HasAppended out.old.items out.new.items }
        ensures steady { OnOk result (refusals self.new ≡ refusals self.old) }
        ensures later { refusals self.old ≤ refusals self.new }
        ensures cause { result ≡ Err PackFault.Refused → Rose (refusals self.old) (refusals self.new) }
        ensures no_memory { result ≡ Err PackFault.Memory → refusals self.new ≡ refusals self.old }
        ensures called { CalledOnce (times self.old) (times self.new) };
}

/// Packs the outputs of a compile command again.
pub trait OutputsRepackager {
    /// How often it refused. Want of memory does not raise it.
    ghost refusals: { Self → ℕ };

    /// The bytes that it appends, where it tells them.
    ghost packs: { Self → Option (List ℕ) } = { λ _. None };

    /// How often it was called, where it tells that.
    ghost times: { Self → Option ℕ } = { λ _. None };

    /// Appends the outputs, and gives what mapped their paths.
    fn repackage_outputs(&mut self, out: &mut Vec<u8>) -> Result<PathTransformer, PackFault>
        ensures packed { OnOk result (Appends (packs self.old) out.old.items out.new.items) }
        ensures appends { HasAppended out.old.items out.new.items }
        ensures steady { OnOk result (refusals self.new ≡ refusals self.old) }
        ensures later { refusals self.old ≤ refusals self.new }
        ensures cause { result ≡ Err PackFault.Refused → Rose (refusals self.old) (refusals self.new) }
        ensures no_memory { result ≡ Err PackFault.Memory → refusals self.new ≡ refusals self.old }
        ensures called { CalledOnce (times self.old) (times self.new) };
}
