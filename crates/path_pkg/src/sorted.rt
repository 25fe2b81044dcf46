//! The records of a package in the order in which they are written.
ghost use Rattle.std.specs.Prelude.{◌≡◌, IfOk, OnOk, OnErr};
ghost use Rattle.std.specs.Option.{option_to_list};
ghost use Rattle.path_pkg.specs.Written.{texts_of, put, put_all, rank_of, entry_of, in_rank, sorted};
ghost use Rattle.path_pkg.specs.Written.{EntriesFit};
ghost use Rattle.path_pkg.specs.Records.{RecordsFit};

use crate::record::Record;
use dist_types::text::Text;
use std::alloc::{AllocError, Global};
use std::collections::BTreeMap;

/// Paths in byte order, each with the target of the link there, or no text.
pub(crate) type Entries = BTreeMap<String, Text>;

fn rank_of(r: &Record) -> u8
    ensures { result ≡ rank_of r.now }
{
    match r {
        Record::Dir(_) => 0,
        Record::File(_) => 1,
        Record::Link(_, _) => 2,
    }
}

fn path_of(r: &Record) -> &str
    ensures { result.now ≡ (entry_of r.now).0 }
{
    match r {
        Record::Dir(path) => path.get(),
        Record::File(path) => path.get(),
        Record::Link(path, _) => path.get(),
    }
}

fn target_of(r: &Record) -> &str
    ensures { result.now ≡ (entry_of r.now).1 }
{
    match r {
        Record::Dir(_) => "",
        Record::File(_) => "",
        Record::Link(_, target) => target.get(),
    }
}

/// Puts one entry more, at its place or in place of the entry of its path.
pub(crate) fn put(
    alloc: Global,
    entries: &mut Entries,
    path: &str,
    target: &str,
) -> Result<(), AllocError>
    ensures put { OnOk result (texts_of entries.new.entries ≡ put (texts_of entries.old.entries)
        (path.now, target.now)) }
    ensures same { OnErr result (texts_of entries.new.entries ≡ texts_of entries.old.entries) }
{
    let key = String::from_str(alloc, path)?;
    let value = Text::of(alloc, target)?;
    entries.insert(key, value)?;
    Ok(())
}

fn put_ranked(alloc: Global, entries: &mut Entries, rank: u8, r: &Record) -> Result<(), AllocError>
    ensures { OnOk result (texts_of entries.new.entries ≡ put_all (texts_of entries.old.entries)
        (option_to_list (in_rank rank r.now))) }
{
    if rank_of(r) != rank {
        return Ok(());
    }
    put(alloc, entries, path_of(r), target_of(r))?;
    Ok(())
}

/// The records of one kind: by path in byte order, of each path the last.
#[tactic(auto, unfolding(crate::specs::Written::sorted))]
fn in_order(alloc: Global, records: &[Record], rank: u8) -> Result<Entries, AllocError>
    ensures { IfOk result (λ m. texts_of m.entries ≡ sorted rank records.now) }
{
    let mut entries = BTreeMap::new(alloc);
    for r in records {
        put_ranked(alloc, &mut entries, rank, r)?;
    }
    Ok(entries)
}

/// The same, where the records fit.
pub(crate) fn sorted(alloc: Global, records: &[Record], rank: u8) -> Result<Entries, AllocError>
    requires { RecordsFit records.now }
    ensures sorted { IfOk result (λ m. texts_of m.entries ≡ sorted rank records.now) }
    ensures fit { IfOk result (λ m. EntriesFit (texts_of m.entries)) }
{
    let entries = in_order(alloc, records, rank)?;
    Ok(entries)
}
