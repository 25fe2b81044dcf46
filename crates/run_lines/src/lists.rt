//! Values that are joined by commas.
ghost use Rattle.std.specs.Prelude.{◌≡◌, ◌==◌, position, map, IfOk};
ghost use Rattle.std.specs.Option.{option_map};
ghost use Rattle.farm_script.specs.Fields.{number_at};
ghost use Rattle.farm_script.specs.Reading.{IsLineAnswer};
ghost use Rattle.farm_script.specs.Words.{field};
ghost use Rattle.run_lines.specs.Fields.{next_part, item_part, items_behind, numbers_at, job_of, jobs_at, id_at};
ghost use Rattle.run_lines.specs.Fields.{ids_at, archive_at, archives_at};

use crate::fields::id;
use dist_types::ids::JobId;
use dist_types::text::Items;
use dist_types::toolchain::Toolchain;
use farm_script::fields::number;
use farm_script::words::{first_word, strip};
use line_program::fault::LineFault;
use std::alloc::{AllocError, Global};

fn comma_at(text: &[u8]) -> Option<usize>
    ensures { result ≡ position (λ b. b == 44) text.now }
{
    text.iter().position(|b| *b == b',')
}

/// The first part, and what stands behind the comma behind it, where there is one.
fn next_part(text: &[u8]) -> (&[u8], Option<&[u8]>)
    ensures { (result.0.now, option_map (λ rest. rest.now) result.1) ≡ next_part text.now }
{
    match comma_at(text) {
        None => (text, None),
        Some(i) => (&text[..i], Some(&text[i + 1..])),
    }
}

/// The number of the first part, and what stands behind the comma behind it, where there is one.
fn number_part(text: &[u8]) -> Result<(u64, Option<&[u8]>), LineFault>
    ensures { IsLineAnswer (λ x. (x.0, option_map (λ rest. rest.now) x.1)) result (item_part number_at text.now) }
{
    let (part, rest) = next_part(text);
    let value = number(part)?;
    Ok((value, rest))
}

fn numbers_behind(alloc: Global, behind: Option<&[u8]>) -> Result<Vec<u64>, LineFault>
    ensures { IsLineAnswer (λ x. x.items) result
        (items_behind number_at (option_map (λ rest. rest.now) behind.entry)) }
{
    let mut list = Vec::new(alloc);
    let mut left = behind;
    while let Some(text) = left {
        match number_part(text) {
            Ok((value, rest)) => match list.push(value) {
                Ok(()) => left = rest,
                Err(_) => return Err(LineFault::Memory),
            },
            Err(fault) => return Err(fault),
        }
    }
    Ok(list)
}

/// Numbers joined by commas, or a dash for none.
pub fn numbers(alloc: Global, word: &[u8]) -> Result<Vec<u64>, LineFault>
    ensures { IsLineAnswer (λ x. x.items) result (numbers_at word.now) }
{
    if word == b"-".as_slice() {
        return Ok(Vec::new(alloc));
    }
    numbers_behind(alloc, Some(word))
}

/// Numbers and the space behind them.
pub fn numbers_field(alloc: Global, text: &[u8]) -> Result<(Items<u64>, &[u8]), LineFault>
    ensures { IsLineAnswer (λ x. (x.0, x.1.now)) result (field numbers_at text.now) }
{
    let (word, rest) = first_word(text)?;
    let list = numbers(alloc, word)?;
    Ok((Items::new(list), rest))
}

fn jobs_of(alloc: Global, numbers: Vec<u64>) -> Result<Vec<JobId>, AllocError>
    ensures { IfOk result (λ jobs. jobs.items ≡ map job_of numbers.items) }
{
    let mut jobs = Vec::new(alloc);
    for n in numbers {
        jobs.push(JobId(n))?;
    }
    Ok(jobs)
}

/// The numbers of jobs, joined by commas, or a dash for none.
fn jobs(alloc: Global, word: &[u8]) -> Result<Vec<JobId>, LineFault>
    ensures { IsLineAnswer (λ x. x.items) result (jobs_at word.now) }
{
    let list = numbers(alloc, word)?;
    let jobs = jobs_of(alloc, list)?;
    Ok(jobs)
}

/// The numbers of jobs and the space behind them.
pub fn jobs_field(alloc: Global, text: &[u8]) -> Result<(Items<JobId>, &[u8]), LineFault>
    ensures { IsLineAnswer (λ x. (x.0, x.1.now)) result (field jobs_at text.now) }
{
    let (word, rest) = first_word(text)?;
    let list = jobs(alloc, word)?;
    Ok((Items::new(list), rest))
}

/// The id of the first part, and what stands behind the comma behind it, where there is one.
fn id_part(text: &[u8]) -> Result<(Toolchain, Option<&[u8]>), LineFault>
    ensures { IsLineAnswer (λ x. (x.0, option_map (λ rest. rest.now) x.1)) result (item_part id_at text.now) }
{
    let (part, rest) = next_part(text);
    let value = id(part)?;
    Ok((value, rest))
}

fn ids_behind(alloc: Global, behind: Option<&[u8]>) -> Result<Vec<Toolchain>, LineFault>
    ensures { IsLineAnswer (λ x. x.items) result
        (items_behind id_at (option_map (λ rest. rest.now) behind.entry)) }
{
    let mut list = Vec::new(alloc);
    let mut left = behind;
    while let Some(text) = left {
        match id_part(text) {
            Ok((value, rest)) => match list.push(value) {
                Ok(()) => left = rest,
                Err(_) => return Err(LineFault::Memory),
            },
            Err(fault) => return Err(fault),
        }
    }
    Ok(list)
}

/// Ids joined by commas, or a dash for none.
pub fn ids(alloc: Global, word: &[u8]) -> Result<Vec<Toolchain>, LineFault>
    ensures { IsLineAnswer (λ x. x.items) result (ids_at word.now) }
{
    if word == b"-".as_slice() {
        return Ok(Vec::new(alloc));
    }
    ids_behind(alloc, Some(word))
}

/// An id of an archive, a colon and its size in bytes.
#[tactic(auto, unfolding(crate::specs::Fields::archive_at), using(crate::proofs::IdLemmas::short_archive))]
fn archive(text: &[u8]) -> Result<(Toolchain, u64), LineFault>
    ensures { IsLineAnswer (λ x. x) result (archive_at text.now) }
{
    if text.len() < 64 {
        return Err(LineFault::Bad);
    }
    let (front, rest) = text.split_at(64);
    let tc = id(front)?;
    let rest = strip(rest, b":")?;
    let size = number(rest)?;
    Ok((tc, size))
}

/// The archive of the first part, and what stands behind the comma behind it, where there is one.
fn archive_part(text: &[u8]) -> Result<((Toolchain, u64), Option<&[u8]>), LineFault>
    ensures { IsLineAnswer (λ x. (x.0, option_map (λ rest. rest.now) x.1)) result (item_part archive_at text.now) }
{
    let (part, rest) = next_part(text);
    let value = archive(part)?;
    Ok((value, rest))
}

fn archives_behind(alloc: Global, behind: Option<&[u8]>) -> Result<Vec<(Toolchain, u64)>, LineFault>
    ensures { IsLineAnswer (λ x. x.items) result
        (items_behind archive_at (option_map (λ rest. rest.now) behind.entry)) }
{
    let mut list = Vec::new(alloc);
    let mut left = behind;
    while let Some(text) = left {
        match archive_part(text) {
            Ok((value, rest)) => match list.push(value) {
                Ok(()) => left = rest,
                Err(_) => return Err(LineFault::Memory),
            },
            Err(fault) => return Err(fault),
        }
    }
    Ok(list)
}

/// Archives joined by commas, or a dash for none.
pub fn archives(alloc: Global, word: &[u8]) -> Result<Vec<(Toolchain, u64)>, LineFault>
    ensures { IsLineAnswer (λ x. x.items) result (archives_at word.now) }
{
    if word == b"-".as_slice() {
        return Ok(Vec::new(alloc));
    }
    archives_behind(alloc, Some(word))
}
