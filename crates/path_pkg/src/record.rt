//! What a package is made of.
ghost use Rattle.std.specs.Prelude.{◌≡◌, ◌++◌, true, IfOk, IfErr, OnOk};
ghost use Rattle.std.specs.List.{list_all};
ghost use Rattle.path_pkg.specs.Fault.{IsPackAnswer};
ghost use Rattle.path_pkg.specs.Path.{joined};
ghost use Rattle.path_pkg.specs.Place.{spot_of};
ghost use Rattle.path_pkg.specs.Records.{unrooted, record_fits, record_of, own_record, link_records};
ghost use Rattle.path_pkg.specs.Records.{records_at, checked};

use crate::fault::PackError;
use crate::path::path_text;
use crate::place::Place;
use dist_types::text::Text;
use std::alloc::{AllocError, Global};

/// The longest packed path, and the longest path and target of a recorded link, in bytes.
pub const MAX_PATH_BYTES: usize = 65_535;

/// A record of a package. Paths are without their leading `/`, and targets with it.
#[derive(Debug, Drop)]
pub enum Record {
    /// The directory at a path.
    Dir(Text),
    /// The file at a path.
    File(Text),
    /// The link at a path, and its target made simple.
    Link(Text, Text),
}

/// What is packed under a path.
#[derive(Clone, Copy, Debug, PartialEq, Eq)]
pub enum Packed {
    /// A directory.
    Dir,
    /// A file.
    File,
}

/// A path without its leading `/`.
pub(crate) fn unrooted(path: &str) -> &str
    ensures { result.now ≡ unrooted path.now }
{
    if path.starts_with('/') {
        return &path[1..];
    }
    path
}

fn fits(r: &Record) -> bool
    ensures { result ≡ record_fits r.now }
{
    match r {
        Record::Dir(path) => path.get().len() <= MAX_PATH_BYTES,
        Record::File(path) => path.get().len() <= MAX_PATH_BYTES,
        Record::Link(path, target) => {
            path.get().len() <= MAX_PATH_BYTES && target.get().len() <= MAX_PATH_BYTES
        }
    }
}

fn all_fit(records: &[Record]) -> bool
    ensures { result ≡ list_all record_fits records.now }
{
    records.iter().all(|r| fits(r))
}

/// The records, unless one is too long.
pub(crate) fn checked(records: Vec<Record>) -> Result<Vec<Record>, PackError>
    ensures records { IsPackAnswer (λ v. v.items) (checked records.items) result }
    ensures fit { IfOk result (λ v. list_all record_fits v.items ≡ true) }
    ensures err { IfErr result (λ e. e ≡ PackError.PathTooLong) }
{
    if !all_fit(&records) {
        return Err(PackError::PathTooLong);
    }
    Ok(records)
}

fn record_of(what: Packed, path: Text) -> Record
    ensures { result ≡ record_of what path }
{
    match what {
        Packed::Dir => Record::Dir(path),
        Packed::File => Record::File(path),
    }
}

fn push_own(
    alloc: Global,
    records: &mut Vec<Record>,
    what: Packed,
    parts: &[Text],
) -> Result<(), AllocError>
    ensures { OnOk result (records.new.items ≡ records.old.items ++ own_record what parts.now) }
{
    if parts.is_empty() {
        return Ok(());
    }
    let path = path_text(alloc, false, parts)?;
    records.push(record_of(what, Text::new(path)))?;
    Ok(())
}

/// The records of the links that were replaced on a path.
pub(crate) fn link_records(alloc: Global, links: &[(Text, Text)]) -> Result<Vec<Record>, AllocError>
    ensures { IfOk result (λ v. v.items ≡ link_records links.now) }
{
    let mut records = Vec::new(alloc);
    for (path, target) in links {
        let path = Text::of(alloc, unrooted(path.get()))?;
        let target = target.copy(alloc)?;
        records.push(Record::Link(path, target))?;
    }
    Ok(records)
}

/// The records that a path adds.
pub(crate) fn records_at(
    alloc: Global,
    what: Packed,
    place: &Place,
) -> Result<Vec<Record>, AllocError>
    ensures { IfOk result (λ v. v.items ≡ records_at what (spot_of place.now)) }
{
    let mut records = link_records(alloc, &place.links)?;
    push_own(alloc, &mut records, what, &place.parts)?;
    Ok(records)
}
