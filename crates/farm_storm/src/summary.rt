//! The summary of a storm.
ghost use Rattle.std.specs.Prelude.{◌≡◌, ◌<◌, ◌+◌, ◌^◌, if◌then◌else◌, IfOk, count_by, string_bytes};
ghost use Rattle.farm_storm.specs.Summary.{reserves, was_built, was_stored, was_listed, is_built, is_stored};
ghost use Rattle.farm_storm.specs.Summary.{is_listed, steps_so, counts, sums_of, summary};

use crate::sums::Sums;
use build_server::run::Ran;
use build_server::submit::Submitted;
use core_rules::effects::is_reservation;
use core_rules::entry::CoreEntry;
use dist_types::builder::BuilderIncoming;
use farm_run::entry::{Entry, Step, StepKind};
use farm_run::run::Farm;
use folders::folder::Folder;
use std::alloc::{AllocError, Global};

/// Whether the scheduler's entry reserves a job.
fn reserves(core: &Option<CoreEntry>) -> bool
    ensures { result ≡ reserves core.now }
{
    match core {
        None => false,
        Some(core) => is_reservation(&core.kind),
    }
}

fn was_built(ran: &Ran) -> bool
    ensures { result ≡ was_built ran.now }
{
    match ran {
        Ran::None => false,
        Ran::Unlisted(_) => false,
        Ran::Folder(_) => false,
        Ran::Built(_) => true,
        Ran::Refused(_) => false,
    }
}

fn was_stored(outcome: &Submitted) -> bool
    ensures { result ≡ was_stored outcome.now }
{
    match outcome {
        Submitted::None => false,
        Submitted::Listed => false,
        Submitted::Stored(_, _) => true,
        Submitted::Digest => false,
        Submitted::Capacity => false,
        Submitted::Folder(_) => false,
    }
}

fn was_listed(outcome: &Submitted) -> bool
    ensures { result ≡ was_listed outcome.now }
{
    match outcome {
        Submitted::None => false,
        Submitted::Listed => true,
        Submitted::Stored(_, _) => false,
        Submitted::Digest => false,
        Submitted::Capacity => false,
        Submitted::Folder(_) => false,
    }
}

fn is_built(kind: &StepKind) -> bool
    ensures { result ≡ is_built kind.now }
{
    match kind {
        StepKind::Heard(_) => false,
        StepKind::Assigned { .. } => false,
        StepKind::Submitted { .. } => false,
        StepKind::Ran { ran, .. } => was_built(ran),
        StepKind::Finished { .. } => false,
        StepKind::Unreported { .. } => false,
        StepKind::Opened(_) => false,
    }
}

fn is_stored(kind: &StepKind) -> bool
    ensures { result ≡ is_stored kind.now }
{
    match kind {
        StepKind::Heard(_) => false,
        StepKind::Assigned { .. } => false,
        StepKind::Submitted { outcome, .. } => was_stored(outcome),
        StepKind::Ran { .. } => false,
        StepKind::Finished { .. } => false,
        StepKind::Unreported { .. } => false,
        StepKind::Opened(_) => false,
    }
}

fn is_listed(kind: &StepKind) -> bool
    ensures { result ≡ is_listed kind.now }
{
    match kind {
        StepKind::Heard(_) => false,
        StepKind::Assigned { .. } => false,
        StepKind::Submitted { outcome, .. } => was_listed(outcome),
        StepKind::Ran { .. } => false,
        StepKind::Finished { .. } => false,
        StepKind::Unreported { .. } => false,
        StepKind::Opened(_) => false,
    }
}

fn builds(step: &Option<Step>) -> bool
    ensures { result ≡ steps_so is_built step.now }
{
    match step {
        None => false,
        Some(step) => is_built(&step.kind),
    }
}

fn stores(step: &Option<Step>) -> bool
    ensures { result ≡ steps_so is_stored step.now }
{
    match step {
        None => false,
        Some(step) => is_stored(&step.kind),
    }
}

fn lists(step: &Option<Step>) -> bool
    ensures { result ≡ steps_so is_listed step.now }
{
    match step {
        None => false,
        Some(step) => is_listed(&step.kind),
    }
}

/// What is counted.
#[derive(Clone, Copy, Debug, PartialEq, Eq)]
pub enum Counted {
    /// Entries of the scheduler.
    Core,
    /// Those of them that reserve a job.
    Reserved,
    /// Builds.
    Built,
    /// Archives that were submitted and stored.
    Stored,
    /// Archives that were submitted and listed before.
    Listed,
}

/// Whether an entry is counted.
#[tactic(auto, unfolding(crate::specs::Summary::counts))]
fn counts(what: Counted, made: &Entry) -> bool
    ensures { result ≡ counts what made.now }
{
    match what {
        Counted::Core => made.core.is_some(),
        Counted::Reserved => reserves(&made.core),
        Counted::Built => builds(&made.step),
        Counted::Stored => stores(&made.step),
        Counted::Listed => lists(&made.step),
    }
}

/// One more where it is so.
fn raised(count: usize, is_so: bool) -> usize
    requires { count + 1 < 2 ^ 64 }
    ensures { result ≡ count + (if is_so then 1 else 0) }
{
    if is_so { count + 1 } else { count }
}

/// How many entries are counted.
fn count_of(entries: &[Entry], what: Counted) -> usize
    ensures { result ≡ count_by (counts what) entries.now }
{
    let mut count = 0;
    for made in entries {
        count = raised(count, counts(what, made));
    }
    count
}

/// The numbers of a farm after so many events.
fn sums_of<F: Folder + Drop, B: BuilderIncoming + Drop>(events: u64, farm: &Farm<F, B>) -> Sums
    ensures { result ≡ sums_of events farm.now.entries }
{
    let entries = farm.history();
    let core = count_of(entries, Counted::Core);
    let reserved = count_of(entries, Counted::Reserved);
    let built = count_of(entries, Counted::Built);
    let stored = count_of(entries, Counted::Stored);
    let listed = count_of(entries, Counted::Listed);
    let open_ones = farm.open_count();
    Sums {
        events,
        core,
        reserved,
        built,
        stored,
        listed,
        open_ones,
    }
}

/// The summary of a farm after so many events. Refused for want of memory alone.
pub fn summary<F: Folder + Drop, B: BuilderIncoming + Drop>(
    alloc: Global,
    events: u64,
    farm: &Farm<F, B>,
) -> Result<String, AllocError>
    ensures { IfOk result (λ text. string_bytes text ≡ summary events farm.now.entries) }
{
    let sums = sums_of(events, farm);
    let text = format!(in alloc; "{sums}")?;
    Ok(text)
}
