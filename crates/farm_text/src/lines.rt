//! The lines of entries, and of rows, one after the other.
ghost use Rattle.std.specs.Prelude.{◌≡◌, ◌+◌, ◌++◌, ◌<◌, ◌^◌, OnOk};
ghost use Rattle.std.specs.Prelude.{string_bytes};
ghost use Rattle.std.specs.List.{flat_map};
ghost use Rattle.farm_entries.specs.Printed.{entry_text, entries_text, core_count, row_text, held_text};
ghost use Rattle.farm_entries.specs.Printed.{kept_archive_text};

use crate::text::{
    ArchiveLine, CallLine, CoreLine, HeldLine, Kind, ReplyLine, RowLine, StepLine, WordLine,
};
use build_server::Held;
use dist_types::addr::Addr;
use farm_entries::entry::Entry;
use sched_core::rows::Servers;
use std::alloc::AllocError;
use toolchain_cache::Archives;

/// Writes the lines of an entry.
fn push_entry(
    out: &mut String,
    number: u64,
    core_number: u64,
    entry: &Entry,
) -> Result<(), AllocError>
    ensures { OnOk result (string_bytes out.new ≡ string_bytes out.old ++ entry_text number core_number
        entry.entry.now) }
{
    let at = entry.event.at;
    let kind = Kind(&entry.event.kind);
    let core = CoreLine {
        number: core_number,
        core: &entry.core,
    };
    let step = StepLine(&entry.step);
    let call = CallLine(&entry.call);
    let reply = ReplyLine(&entry.reply);
    let word = WordLine(entry.word);
    write!(
        out,
        "entry {number} {at} {kind}\n{core}{step}{call}{reply}{word}"
    )
}

/// How many core entries there are after an entry.
fn core_numbers(core_number: u64, entry: &Entry) -> u64
    requires { core_number + 1 < 2 ^ 64 }
    ensures { result ≡ core_number + core_count entry.entry.now.core }
{
    match &entry.core {
        Some(_) => core_number + 1,
        None => core_number,
    }
}

/// Writes the lines of all entries. Refused for want of memory alone.
pub fn push_entries(out: &mut String, entries: &[Entry]) -> Result<(), AllocError>
    ensures { OnOk result (string_bytes out.new ≡ string_bytes out.old ++ entries_text 0 0 entries.now) }
{
    let mut core_number = 0u64;
    for (number, entry) in entries.iter().enumerate() {
        push_entry(out, number as u64, core_number, entry)?;
        core_number = core_numbers(core_number, entry);
    }
    Ok(())
}

/// Writes the lines of the registrations that stand. Refused for want of memory alone.
pub fn push_rows(out: &mut String, servers: Servers<'_>) -> Result<(), AllocError>
    ensures { OnOk result (string_bytes out.new ≡ string_bytes out.old ++ flat_map row_text servers.entry) }
{
    for row in servers {
        let line = RowLine(row);
        write!(out, "{line}")?;
    }
    Ok(())
}

/// Writes the lines of jobs that a server holds. Refused for want of memory alone.
pub fn push_held(out: &mut String, addr: Addr, held: Held<'_>) -> Result<(), AllocError>
    ensures { OnOk result
        (string_bytes out.new ≡ string_bytes out.old ++ flat_map (held_text addr) held.entry) }
{
    for (job, tc) in held {
        let line = HeldLine { addr, job, tc };
        write!(out, "{line}")?;
    }
    Ok(())
}

/// Writes the lines of a server's archives. Refused for want of memory alone.
pub fn push_archives(out: &mut String, addr: Addr, archives: Archives<'_>) -> Result<(), AllocError>
    ensures { OnOk result (string_bytes out.new ≡ string_bytes out.old ++ flat_map
        (kept_archive_text addr) archives.entry) }
{
    for (tc, size) in archives {
        let line = ArchiveLine { addr, tc, size };
        write!(out, "{line}")?;
    }
    Ok(())
}
