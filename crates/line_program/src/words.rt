//! The words of a command line.
ghost use Rattle.std.specs.Prelude.{◌≡◌, ◌≢◌, IfOk, IfErr, OnOk, Err};
ghost use Rattle.std.specs.Vec.Iter.{into_iter_items};
ghost use Rattle.std.specs.IoError.{error_kind};
ghost use Rattle.line_program.specs.declared.fault.FarmFault.TheVariants as fault;

use crate::fault::FarmFault;
use std::alloc::{AllocError, Global};
use std::env::Args;
use std::io::{self, ErrorKind};

/// The fault of a command line that the system did not give as words.
pub(crate) fn words_fault(kind: ErrorKind) -> FarmFault
    ensures memory { kind ≡ ErrorKind.OutOfMemory → result ≡ fault.Memory }
    ensures usage { kind ≢ ErrorKind.OutOfMemory → result ≡ fault.Usage }
{
    if kind == ErrorKind::OutOfMemory {
        FarmFault::Memory
    } else {
        FarmFault::Usage
    }
}

/// The words of the command line.
pub(crate) fn words_in(alloc: Global, args: Args) -> Result<Vec<String>, AllocError>
    ensures words { IfOk result (λ words. words.items ≡ into_iter_items args) }
{
    args.collect(alloc)
}

/// The words that the system gave, or why there are none: a word that is not UTF-8 makes them words that name
/// no command, and want of memory is told as that.
pub fn words_given(alloc: Global, given: io::Result<Args>) -> Result<Vec<String>, FarmFault>
    ensures given { IfOk given (λ args. IfOk result (λ words. words.items ≡ into_iter_items args)) }
    ensures refused { OnOk given (IfErr result (λ f. f ≡ fault.Memory)) }
    ensures memory { IfErr given (λ e. error_kind e ≡ ErrorKind.OutOfMemory → result ≡ Err fault.Memory) }
    ensures usage { IfErr given (λ e. error_kind e ≢ ErrorKind.OutOfMemory → result ≡ Err fault.Usage) }
{
    match given {
        Ok(args) => match words_in(alloc, args) {
            Ok(words) => Ok(words),
            Err(_) => Err(FarmFault::Memory),
        },
        Err(error) => Err(words_fault(error.kind())),
    }
}
