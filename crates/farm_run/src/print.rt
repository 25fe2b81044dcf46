//! The printed run.
ghost use Rattle.std.specs.Prelude.{◌≡◌, ◌++◌, Some, slice_get, OnOk, IfOk, IfErr};
ghost use Rattle.std.specs.Prelude.{string_bytes};
ghost use Rattle.std.specs.List.{flat_map};
ghost use Rattle.farm_entries.specs.Printed.{job_text, held_text, kept_archive_text, server_text, books_text};
ghost use Rattle.farm_entries.specs.Printed.{standing_text, version_of, run_text};
ghost use Rattle.farm_entries.specs.Servers.{server_of};
ghost use Rattle.farm_entries.specs.Seen.{core_log};
ghost use Rattle.core_rules.specs.Rows.{unended_by_id};
ghost use Rattle.line_program.specs.declared.fault.FarmFault.TheVariants as fault;

use crate::run::Farm;
use dist_types::addr::Addr;
use dist_types::builder::BuilderIncoming;
use dist_types::rules::Rules;
use farm_entries::site::SiteServer;
use farm_stations::station::Station;
use farm_text::lines::{push_archives, push_entries, push_held, push_rows};
use farm_text::text::JobLine;
use folders::folder::Folder;
use line_program::fault::FarmFault;
use std::alloc::{AllocError, Global};

/// Writes the lines of the reservations that are unended.
fn push_jobs<F: Folder + Drop, B: BuilderIncoming + Drop>(
    out: &mut String,
    farm: &Farm<F, B>,
) -> Result<(), AllocError>
    ensures { OnOk result (string_bytes out.new ≡ string_bytes out.old ++ flat_map job_text
        (unended_by_id (core_log farm.now.entries))) }
{
    for row in farm.jobs() {
        let line = JobLine(row);
        write!(out, "{line}")?;
    }
    Ok(())
}

/// Writes the lines of jobs that a server holds, if it runs.
fn push_jobs_of<F: Folder + Drop, B: BuilderIncoming + Drop>(
    out: &mut String,
    addr: Addr,
    station: &Station<F, B>,
) -> Result<(), AllocError>
    ensures { OnOk result (string_bytes out.new ≡ string_bytes out.old ++ flat_map
        (held_text addr) station.now.state.held) }
{
    match station.held() {
        None => Ok(()),
        Some(held) => {
            push_held(out, addr, held)?;
            Ok(())
        }
    }
}

/// Writes the lines of a server's archives, if it runs.
fn push_archives_of<F: Folder + Drop, B: BuilderIncoming + Drop>(
    out: &mut String,
    addr: Addr,
    station: &Station<F, B>,
) -> Result<(), AllocError>
    ensures { OnOk result (string_bytes out.new ≡ string_bytes out.old ++ flat_map
        (kept_archive_text addr) station.now.state.archives) }
{
    match station.archives() {
        None => Ok(()),
        Some(archives) => {
            push_archives(out, addr, archives)?;
            Ok(())
        }
    }
}

/// Writes the lines of what a server of a farm keeps.
fn push_server<F: Folder + Drop, B: BuilderIncoming + Drop>(
    out: &mut String,
    farm: &Farm<F, B>,
    server: &SiteServer,
    place: usize,
) -> Result<(), AllocError>
    requires { slice_get farm.now.setup.servers place ≡ Some server.now }
    ensures { OnOk result (string_bytes out.new ≡ string_bytes out.old ++ server_text
        (server_of server.now farm.now.entries)) }
{
    match farm.station(place) {
        None => Err(AllocError),
        Some(station) => {
            push_jobs_of(out, server.addr, station)?;
            push_archives_of(out, server.addr, station)?;
            Ok(())
        }
    }
}

/// Writes the lines of what each server of a farm keeps.
fn push_servers<F: Folder + Drop, B: BuilderIncoming + Drop>(
    out: &mut String,
    farm: &Farm<F, B>,
) -> Result<(), AllocError>
    ensures { OnOk result (string_bytes out.new ≡ string_bytes out.old ++ flat_map
        (λ s. server_text (server_of s farm.now.entries)) farm.now.setup.servers) }
{
    for (place, server) in farm.setup().servers.get().iter().enumerate() {
        push_server(out, farm, server, place)?;
    }
    Ok(())
}

/// Writes what stands in the books of a farm.
fn push_standing<F: Folder + Drop, B: BuilderIncoming + Drop>(
    out: &mut String,
    farm: &Farm<F, B>,
) -> Result<(), AllocError>
    ensures { OnOk result (string_bytes out.new ≡ string_bytes out.old ++ standing_text farm.now.setup
        farm.now.entries) }
{
    push_rows(out, farm.servers())?;
    push_jobs(out, farm)?;
    push_servers(out, farm)?;
    out.push_str("end\n")?;
    Ok(())
}

/// Writes the books of a farm.
fn push_books<F: Folder + Drop, B: BuilderIncoming + Drop>(
    out: &mut String,
    farm: &Farm<F, B>,
) -> Result<(), AllocError>
    ensures { OnOk result (string_bytes out.new ≡ string_bytes out.old ++ books_text farm.now.setup
        farm.now.entries) }
{
    let base = farm.setup().scheduler.base;
    let count = farm.ids_given();
    write!(out, "books\nids base {base} count {count}\n")?;
    push_standing(out, farm)?;
    Ok(())
}

/// The number of a version of the rules.
fn version_of(rules: Rules) -> u64
    ensures { result ≡ version_of rules }
{
    match rules {
        Rules::One => 1,
        Rules::Two => 2,
    }
}

/// The text of a run: a farm, its entries, and its books after them. Refused for want of memory alone.
pub fn print_run<F: Folder + Drop, B: BuilderIncoming + Drop>(
    alloc: Global,
    farm: &Farm<F, B>,
) -> Result<String, FarmFault>
    ensures ok { IfOk result (λ text. string_bytes text ≡ run_text farm.now.setup farm.now.entries) }
    ensures err { IfErr result (λ e. e ≡ fault.Memory) }
{
    let mut out = String::new(alloc);
    let version = version_of(farm.setup().rules);
    let entries = farm.history();
    let number = entries.len();
    write!(out, "run {version} entries {number}\n")?;
    push_entries(&mut out, entries)?;
    push_books(&mut out, farm)?;
    Ok(out)
}
