//! The packager in memory.
ghost use Rattle.std.specs.Prelude.{◌≡◌, ◌≤◌, [], Err, OnOk, OnErr, true, false};
ghost use Rattle.dist_types.specs.Cause.{Rose, counted};
ghost use Rattle.dist_types.specs.InMemory.{is_listed};
ghost use Rattle.path_pkg.specs.Append.{HasAppended, Appends};
ghost use Rattle.path_pkg.specs.Called.{CalledOnce};

use crate::fault::PackFault;
use crate::listed_calls::begin_call;
use crate::packagers::{InputsPackager, ToolchainPackager};
use crate::unix::PathTransformer;
use dist_types::text::Bytes;
use std::alloc::Global;

/// Appends its bytes at each call. The calls of the listed numbers, from 0 on, are refused.
#[derive(Debug, Drop)]
pub struct MemPackager {
    alloc: Global,
    bytes: Bytes,
    refuses: Vec<u64>,
    calls: u64,
    refusals: u64,
}

impl MemPackager {
    ghost use Rattle.std.specs.Prelude.{◌++◌};
    ghost use Rattle.path_pkg.specs.MemPackager.{packager_bytes, packager_refuses, packager_calls};
    ghost use Rattle.path_pkg.specs.MemPackager.{packager_refusals};

    /// A packager of these bytes, which was not called so far. It takes no memory.
    pub fn new(alloc: Global, bytes: Bytes, refuses: Vec<u64>) -> Self
        ensures bytes { packager_bytes result ≡ bytes }
        ensures refuses { packager_refuses result ≡ refuses.items }
        ensures calls { packager_calls result ≡ 0 }
        ensures refusals { packager_refusals result ≡ 0 }
    {
        MemPackager {
            alloc,
            bytes,
            refuses,
            calls: 0,
            refusals: 0,
        }
    }

    /// Appends the bytes, unless this call is to be refused.
    fn append(&mut self, out: &mut Vec<u8>) -> Result<(), PackFault>
        ensures ok { OnOk result (out.new.items ≡ out.old.items ++ packager_bytes self.old) }
        ensures err { OnErr result (out.new.items ≡ out.old.items) }
        ensures listed { result ≡ Err PackFault.Refused → is_listed (packager_refuses self.old)
            (packager_calls self.old) ≡ true }
        ensures unlisted { OnOk result (is_listed (packager_refuses self.old) (packager_calls self.old) ≡
            false) }
        ensures counted { result ≡ Err PackFault.Refused → packager_refusals self.new ≡ counted
            (packager_refusals self.old) }
        ensures rose { result ≡ Err PackFault.Refused → Rose (packager_refusals self.old)
            (packager_refusals self.new) }
        ensures steady { OnOk result (packager_refusals self.new ≡ packager_refusals self.old) }
        ensures later { packager_refusals self.old ≤ packager_refusals self.new }
        ensures no_memory { result ≡ Err PackFault.Memory → packager_refusals self.new ≡ packager_refusals
            self.old }
        ensures bytes { packager_bytes self.new ≡ packager_bytes self.old }
        ensures refuses { packager_refuses self.new ≡ packager_refuses self.old }
        ensures calls { packager_calls self.new ≡ counted (packager_calls self.old) }
    {
        match begin_call(&self.refuses, &mut self.calls, &mut self.refusals) {
            Ok(()) => {}
            Err(_) => return Err(PackFault::Refused),
        }
        match out.extend_from_slice(self.bytes.get()) {
            Ok(()) => Ok(()),
            Err(_) => Err(PackFault::Memory),
        }
    }
}

impl ToolchainPackager for MemPackager {
    ghost use Rattle.std.specs.Prelude.{Some};
    ghost use Rattle.path_pkg.specs.MemPackager.{packager_bytes, packager_refuses, packager_calls};
    ghost use Rattle.path_pkg.specs.MemPackager.{packager_refusals};

    ghost refusals = { packager_refusals };

    ghost packs = { λ p. Some (packager_bytes p) };

    ghost times = { λ p. Some (packager_calls p) };

    /// Appends its bytes. Refused exactly where this call is listed, unless memory ran out.
    fn write_pkg(&mut self, out: &mut Vec<u8>) -> Result<(), PackFault>
        ensures packed { OnOk result (Appends (Some (packager_bytes self.old)) out.old.items out.new.items) }
        ensures appends { HasAppended out.old.items out.new.items }
        ensures steady { OnOk result (packager_refusals self.new ≡ packager_refusals self.old) }
        ensures later { packager_refusals self.old ≤ packager_refusals self.new }
        ensures cause { result ≡ Err PackFault.Refused → Rose (packager_refusals self.old)
            (packager_refusals self.new) }
        ensures no_memory { result ≡ Err PackFault.Memory → packager_refusals self.new ≡ packager_refusals
            self.old }
        ensures called { CalledOnce (Some (packager_calls self.old)) (Some (packager_calls self.new)) }

        ensures listed { result ≡ Err PackFault.Refused → is_listed (packager_refuses self.old)
            (packager_calls self.old) ≡ true }
        ensures unlisted { OnOk result (is_listed (packager_refuses self.old) (packager_calls self.old) ≡
            false) }
        ensures counted { result ≡ Err PackFault.Refused → packager_refusals self.new ≡ counted
            (packager_refusals self.old) }
        ensures refuses { packager_refuses self.new ≡ packager_refuses self.old }
        ensures calls { packager_calls self.new ≡ counted (packager_calls self.old) }
        ensures bytes { packager_bytes self.new ≡ packager_bytes self.old }
    {
        self.append(out)
    }
}

impl InputsPackager for MemPackager {
    ghost use Rattle.std.specs.Prelude.{Some};
    ghost use Rattle.path_pkg.specs.MemPackager.{packager_bytes, packager_refuses, packager_calls};
    ghost use Rattle.path_pkg.specs.MemPackager.{packager_refusals};

    ghost refusals = { packager_refusals };

    ghost packs = { λ p. Some (packager_bytes p) };

    ghost times = { λ p. Some (packager_calls p) };

    /// Appends its bytes, and gives a transformer that mapped nothing. Refused exactly where this call is
    /// listed, unless memory ran out.
    fn write_inputs(&mut self, out: &mut Vec<u8>) -> Result<PathTransformer, PackFault>
        ensures packed { OnOk result (Appends (Some (packager_bytes self.old)) out.old.items out.new.items) }
        ensures appends { HasAppended out.old.items out.new.items }
        ensures steady { OnOk result (packager_refusals self.new ≡ packager_refusals self.old) }
        ensures later { packager_refusals self.old ≤ packager_refusals self.new }
        ensures cause { result ≡ Err PackFault.Refused → Rose (packager_refusals self.old)
            (packager_refusals self.new) }
        ensures no_memory { result ≡ Err PackFault.Memory → packager_refusals self.new ≡ packager_refusals
            self.old }
        ensures called { CalledOnce (Some (packager_calls self.old)) (Some (packager_calls self.new)) }

        ensures listed { result ≡ Err PackFault.Refused → is_listed (packager_refuses self.old)
            (packager_calls self.old) ≡ true }
        ensures unlisted { OnOk result (is_listed (packager_refuses self.old) (packager_calls self.old) ≡
            false) }
        ensures counted { result ≡ Err PackFault.Refused → packager_refusals self.new ≡ counted
            (packager_refusals self.old) }
        ensures refuses { packager_refuses self.new ≡ packager_refuses self.old }
        ensures calls { packager_calls self.new ≡ counted (packager_calls self.old) }
        ensures bytes { packager_bytes self.new ≡ packager_bytes self.old }
    {
        match self.append(out) {
            Ok(()) => Ok(PathTransformer::new(self.alloc)),
            Err(PackFault::Refused) => Err(PackFault::Refused),
            Err(PackFault::Memory) => Err(PackFault::Memory),
        }
    }
}
