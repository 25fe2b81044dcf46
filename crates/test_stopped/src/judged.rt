//! What a run that stopped hands back, beside runs that did not.
ghost use Rattle.farm_script.specs.Setups.{IsSetup};

use crate::begun::{Run, ran};
use dist_types::addr::Addr;
use dist_types::text::{Bytes, Text};
use farm::builder::FarmBuilder;
use farm::entry::Entry;
use farm::event::Event;
use farm::fault::FarmFault;
use farm::run::Stopped;
use farm::setup::Setup;
use farm_text::lines::push_entries;
use folders::folder::Folder;
use folders::mem_folder::MemFolder;
use std::alloc::{AllocError, Global};

fn text_of(alloc: Global, entries: &[Entry]) -> Result<String, AllocError> {
    let mut text = String::new(alloc);
    push_entries(&mut text, entries)?;
    Ok(text)
}

/// The server that the last event of a run took a step of.
fn reached(farm: &Run) -> Option<Addr> {
    let entry = farm.history().last()?;
    match &entry.step {
        Some(step) => Some(step.server),
        None => None,
    }
}

fn has(files: &[(Text, Bytes)], file: &(Text, Bytes)) -> bool {
    files.iter().any(|other| other.0.get() == file.0.get() && other.1.get() == file.1.get())
}

fn is_same(left: &[(Text, Bytes)], right: &[(Text, Bytes)]) -> bool {
    left.len() == right.len() && left.iter().all(|file| has(right, file))
}

/// Each file is one of before or behind the event, or a temporary one, and those of both are there.
fn is_between(left: &[(Text, Bytes)], before: &[(Text, Bytes)], behind: &[(Text, Bytes)]) -> bool {
    let known = left.iter().all(|file| {
        has(before, file) || has(behind, file) || file.0.get().contains("/.sccachetmp")
    });
    known
        && before
            .iter()
            .all(|file| !has(behind, file) || has(left, file))
}

/// The folder of each server.
fn are_folders(
    left: &[MemFolder],
    before: &[MemFolder],
    behind: &[MemFolder],
    at: &[bool],
) -> bool {
    let mut right = left.len() == before.len() && left.len() == behind.len();
    for (place, folder) in left.iter().enumerate() {
        let (Some(old), Some(new), Some(reached)) = (
            before.get(place),
            behind.get(place),
            at.get(place),
        ) else {
            return false;
        };
        let fits = if *reached {
            is_between(folder.files(), old.files(), new.files())
        } else {
            is_same(folder.files(), old.files())
        };
        right = right && fits && folder.faults() == old.faults();
    }
    right
}

/// The builder of each server: its rows are those of before, or one more where the event reaches for it.
fn are_builders(left: &[FarmBuilder], before: &[FarmBuilder], at: &[bool]) -> bool {
    let mut right = left.len() == before.len();
    for (place, builder) in left.iter().enumerate() {
        let (Some(old), Some(reached)) = (before.get(place), at.get(place)) else {
            return false;
        };
        let more = builder.rows().len().saturating_sub(old.rows().len());
        let fits = builder.rows().len() >= old.rows().len()
            && (more == 0 || (*reached && more == 1));
        right = right && fits;
    }
    right
}

/// At which servers an event reaches.
fn places(alloc: Global, setup: &Setup, addr: Option<Addr>) -> Result<Vec<bool>, AllocError> {
    let mut at = Vec::new(alloc);
    for server in setup.servers.get() {
        at.push(addr == Some(server.addr))?;
    }
    Ok(at)
}

/// What a run that stopped hands back, beside the run of the events before and the one with the next.
pub(crate) fn judge(
    alloc: Global,
    setup: &Setup,
    events: &[Event],
    stopped: &Stopped<MemFolder, FarmBuilder>,
) -> Result<&'static str, FarmFault>
    requires setup { IsSetup setup.now }
{
    let count = stopped.entries.get().len();
    if count >= events.len() {
        return Ok("WRONG: too many entries\n");
    }
    let before = ran(alloc, setup, &events[..count])?;
    let behind = ran(alloc, setup, &events[..count + 1])?;
    let left = text_of(alloc, stopped.entries.get())?;
    let whole = text_of(alloc, before.history())?;
    if left.as_str() != whole.as_str() {
        return Ok("WRONG: other entries\n");
    }
    let at = places(alloc, setup, reached(&behind))?;
    let (old, rows) = before.into_parts();
    let (new, _) = behind.into_parts();
    if !are_folders(&stopped.folders, &old, &new, &at) {
        return Ok("WRONG: other files\n");
    }
    if !are_builders(&stopped.builders, &rows, &at) {
        return Ok("WRONG: other rows\n");
    }
    if at.iter().any(|reached| *reached) {
        Ok("stopped at a server\n")
    } else {
        Ok("stopped\n")
    }
}
