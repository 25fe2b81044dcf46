//! How a program tells its faults.
ghost use Rattle.std.specs.Prelude.{◌≡◌, ◌++◌, IfOk, IfSome, IfNone, string_bytes};
ghost use Rattle.line_program.specs.declared.fault.FarmFault.{FarmFault as Fault};
ghost use Rattle.line_program.specs.declared.fault.FarmFault.TheVariants as faults;
ghost use Rattle.line_program.specs.Report.{told_text, fault_status, IsSaid, IsTold, IsLong, StandsFor};
ghost use Rattle.line_program.specs.Report.{IsReported};
ghost use Rattle.line_program.specs.Side.{side};

use crate::fault::{ConfigCause, FarmFault};
use dist_types::sink::{Sink, write_all};
use std::alloc::{AllocError, Global};

const USAGE: &[u8] = b": these words name no command\n";

const READ_FAULT: &[u8] = b": read fault\n";

const WRITE_FAULT: &[u8] = b": write fault\n";

const MISSING: &[u8] = b": bad configuration: file missing\n";

const UNREADABLE: &[u8] = b": bad configuration: file unreadable\n";

const NOT_TOML: &[u8] = b": bad configuration: not TOML\n";

const SERVE_FAULT: &[u8] = b": serve fault\n";

const MEMORY: &[u8] = b": out of memory\n";

/// Writes the program's name and a text on errs, and answers its status, or 5 where errs failed.
#[tactic(auto, using(dist_types::proofs::Contents::added_then, crate::proofs::ReportLemmas::front_began, crate::proofs::ReportLemmas::then_began))]
fn say<E: Sink>(errs: &mut E, program: &str, text: &[u8], status: u8) -> u8
    ensures said { IsSaid (program.now ++ text.now) status result
        (side E.held E.faults errs.old) (side E.held E.faults errs.new) }
{
    match write_all(errs, program.as_bytes()) {
        Ok(()) => match write_all(errs, text) {
            Ok(()) => status,
            Err(_) => 5,
        },
        Err(_) => 5,
    }
}

/// The status of a fault.
fn status_of(fault: &FarmFault) -> u8
    ensures { result ≡ fault_status fault.now }
{
    match fault {
        FarmFault::BadLine(_) => 1,
        FarmFault::DuplicateAddress(_) => 1,
        FarmFault::ScopedAddress(_) => 1,
        FarmFault::OverlappingIds(_) => 1,
        FarmFault::Usage => 2,
        FarmFault::Memory => 3,
        FarmFault::ReadFault => 4,
        FarmFault::WriteFault => 5,
        FarmFault::BadConfig(_) => 6,
        FarmFault::ServeFault => 7,
        FarmFault::AuditRefused(_, _) => 8,
    }
}

#[tactic(auto, unfolding(crate::specs::Report::told_text))]
fn config_text(cause: &ConfigCause) -> Option<&'static [u8]>
    ensures text { IfSome result (λ text. text.now ≡ told_text (faults.BadConfig cause.now)) }
    ensures long { IfNone result (IsLong (faults.BadConfig cause.now)) }
{
    match cause {
        ConfigCause::Missing => Some(MISSING),
        ConfigCause::Unreadable => Some(UNREADABLE),
        ConfigCause::NotToml => Some(NOT_TOML),
        ConfigCause::Key(_) => None,
    }
}

/// The text of a fault that names no line and no key.
#[tactic(auto, unfolding(crate::specs::Report::told_text))]
fn short_text(fault: &FarmFault) -> Option<&'static [u8]>
    ensures text { IfSome result (λ text. text.now ≡ told_text fault.now) }
    ensures long { IfNone result (IsLong fault.now) }
{
    match fault {
        FarmFault::BadLine(_) => None,
        FarmFault::DuplicateAddress(_) => None,
        FarmFault::ScopedAddress(_) => None,
        FarmFault::OverlappingIds(_) => None,
        FarmFault::Usage => Some(USAGE),
        FarmFault::Memory => Some(MEMORY),
        FarmFault::ReadFault => Some(READ_FAULT),
        FarmFault::WriteFault => Some(WRITE_FAULT),
        FarmFault::BadConfig(cause) => config_text(cause),
        FarmFault::ServeFault => Some(SERVE_FAULT),
        FarmFault::AuditRefused(_, _) => None,
    }
}

/// The text of a fault, behind the program's name.
#[tactic(auto, unfolding(crate::specs::Report::told_text))]
fn long_text(alloc: Global, fault: &FarmFault) -> Result<String, AllocError>
    ensures { IfOk result (λ text. string_bytes text ≡ told_text fault.now) }
{
    format!(in alloc; ": {fault}\n")
}

#[tactic(auto, unfolding(crate::specs::Report::told_text))]
fn memory_text() -> &'static [u8]
    ensures { result.now ≡ told_text faults.Memory }
{
    MEMORY
}

/// Tells want of memory.
fn tell_memory<E: Sink>(program: &str, errs: &mut E) -> u8
    ensures told { IsTold program.now faults.Memory result
        (side E.held E.faults errs.old) (side E.held E.faults errs.new) }
{
    say(errs, program, memory_text(), 3)
}

/// Tells a fault that names a line or a key, or want of memory where memory runs out for its text.
#[tactic(auto, using(crate::proofs::ReportLemmas::told_memory))]
fn tell_long<E: Sink>(alloc: Global, program: &str, fault: &FarmFault, errs: &mut E) -> u8
    requires { IsLong fault.now }
    ensures told { (told : Fault) × StandsFor fault.now told × IsTold program.now told result
        (side E.held E.faults errs.old) (side E.held E.faults errs.new) }
{
    match long_text(alloc, fault) {
        Ok(text) => say(errs, program, text.as_bytes(), status_of(fault)),
        Err(_) => tell_memory(program, errs),
    }
}

/// Tells a fault, or want of memory where memory runs out for its text.
fn tell<E: Sink>(alloc: Global, program: &str, fault: &FarmFault, errs: &mut E) -> u8
    ensures told { (told : Fault) × StandsFor fault.now told × IsTold program.now told result
        (side E.held E.faults errs.old) (side E.held E.faults errs.new) }
{
    match short_text(fault) {
        Some(text) => say(errs, program, text, status_of(fault)),
        None => tell_long(alloc, program, fault, errs),
    }
}

/// Answers 0 where all was done; else tells the fault on errs, behind the program's name, and answers its
/// status, or 5 where errs failed. Want of memory is told in place of a fault that names a line or a key, where
/// memory runs out for its text.
pub fn report<E: Sink>(
    alloc: Global,
    program: &str,
    done: Result<(), FarmFault>,
    errs: &mut E,
) -> u8
    ensures reported { IsReported program.now done result
        (side E.held E.faults errs.old) (side E.held E.faults errs.new) }
{
    match done {
        Ok(()) => 0,
        Err(fault) => tell(alloc, program, &fault, errs),
    }
}
