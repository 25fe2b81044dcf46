//! The lines of answers.
ghost use Rattle.std.specs.Prelude.{◌≡◌, ◌++◌, OnOk, IfOk, string_bytes};
ghost use Rattle.std.specs.List.{flat_map};
ghost use Rattle.std.specs.Option.{option_copied};
ghost use Rattle.farm_entries.specs.Printed.{core_line};
ghost use Rattle.quota_run.specs.Lines.{told_text};

use core_rules::entry::CoreEntry;
use farm_text::text::CoreLine;
use quota::call::QuotaAnswer;
use std::alloc::{AllocError, Global};

/// Writes the core line of an entry, if there is one.
fn push_entry(
    alloc: Global,
    out: &mut String,
    number: u64,
    made: Option<&CoreEntry>,
) -> Result<(), AllocError>
    ensures { OnOk result
        (string_bytes out.new ≡ string_bytes out.old ++ core_line number (option_copied made.entry)) }
{
    match made {
        Some(entry) => {
            let core = Some(entry.copy(alloc)?);
            let line = CoreLine {
                number,
                core: &core,
            };
            write!(out, "{line}")
        }
        None => Ok(()),
    }
}

/// Writes the line of an answer, over this log.
fn push_line(
    alloc: Global,
    out: &mut String,
    log: &[CoreEntry],
    answer: QuotaAnswer,
) -> Result<(), AllocError>
    ensures { OnOk result (string_bytes out.new ≡ string_bytes out.old ++ told_text log.now answer) }
{
    match answer {
        QuotaAnswer::Logged(number) => push_entry(alloc, out, number, log.get(number as usize)),
        QuotaAnswer::Full { held, limit } => write!(out, "full {held} {limit}\n"),
        QuotaAnswer::NoClient => write!(out, "no client\n"),
        QuotaAnswer::NoReservation => write!(out, "no reservation\n"),
        QuotaAnswer::BadCpus => write!(out, "bad cpus\n"),
    }
}

/// The lines of answers, over this log. Refused for want of memory alone.
pub(crate) fn lines(
    alloc: Global,
    log: &[CoreEntry],
    answers: &[QuotaAnswer],
) -> Result<String, AllocError>
    ensures { IfOk result (λ s. string_bytes s ≡ flat_map (told_text log.now) answers.now) }
{
    let mut out = String::new(alloc);
    for answer in answers {
        push_line(alloc, &mut out, log, *answer)?;
    }
    Ok(out)
}
