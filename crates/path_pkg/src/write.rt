//! Writing a package.
ghost use Rattle.std.specs.Prelude.{◌≡◌, ◌≤◌, ◌++◌, ◌∷◌, [], length, map, string_bytes, IfOk, IfErr, OnErr};
ghost use Rattle.std.specs.Prelude.{OnOk, Some};
ghost use Rattle.dist_types.specs.Cause.{Rose};
ghost use Rattle.path_pkg.specs.Outline.{record_at, written_order, PutsFrames, PutsPackage};
ghost use Rattle.path_pkg.specs.Told.{WhereTold};
ghost use Rattle.path_pkg.specs.Written.{piece_at, pieces, texts_of, EntriesFit, Puts, PutsPieces, Writes};
ghost use Rattle.path_pkg.specs.Records.{RecordsFit};

use crate::fault::PackError;
use crate::framed::{END, dir_frame, file_head, link_frame};
use crate::record::Record;
use crate::sorted::{Entries, sorted};
use crate::tree::Tree;
use dist_types::sink::{Sink, write_all};
use std::alloc::{AllocError, Global};

fn write<W: Sink>(out: &mut W, bytes: &[u8]) -> Result<(), PackError>
    ensures puts { Puts result bytes.now (W.held out.old) (W.held out.new) }
    ensures err { IfErr result (λ e. e ≡ PackError.SinkFault) }
    ensures steady { OnOk result (W.faults out.new ≡ W.faults out.old) }
    ensures later { W.faults out.old ≤ W.faults out.new }
    ensures cause { OnErr result (Rose (W.faults out.old) (W.faults out.new)) }
{
    match write_all(out, bytes) {
        Ok(()) => Ok(()),
        Err(_) => Err(PackError::SinkFault),
    }
}

/// Writes one piece after another.
#[tactic(auto, using(crate::proofs::WrittenLemmas::puts_then, crate::proofs::WrittenLemmas::began_front))]
fn write_both<W: Sink>(out: &mut W, first: &[u8], second: &[u8]) -> Result<(), PackError>
    ensures puts { Puts result (first.now ++ second.now) (W.held out.old) (W.held out.new) }
    ensures err { IfErr result (λ e. e ≡ PackError.SinkFault) }
    ensures steady { OnOk result (W.faults out.new ≡ W.faults out.old) }
    ensures later { W.faults out.old ≤ W.faults out.new }
    ensures cause { OnErr result (Rose (W.faults out.old) (W.faults out.new)) }
{
    match write(out, first) {
        Ok(()) => write(out, second),
        Err(fault) => Err(fault),
    }
}

/// The path of what is packed under a path.
fn rooted(alloc: Global, path: &str) -> Result<String, AllocError>
    ensures { IfOk result (λ s. string_bytes s ≡ 47 ∷ path.now) }
{
    let mut rooted = String::from_str(alloc, "/")?;
    rooted.push_str(path)?;
    Ok(rooted)
}

/// Reads a file and writes its record.
#[tactic(auto, using(crate::proofs::WrittenLemmas::began_none, crate::proofs::WrittenLemmas::unwritten, crate::proofs::WrittenLemmas::unread, crate::proofs::OutlineLemmas::no_frames))]
fn write_file<T: Tree, W: Sink>(
    alloc: Global,
    tree: &mut T,
    out: &mut W,
    path: &str,
) -> Result<(), PackError>
    requires { length path.now ≤ 65535 }
    ensures puts { WhereTold (T.told tree.old)
        (λ t. PutsPieces result (piece_at t 1 (path.now, []) ∷ []) (W.held out.old) (W.held out.new)) }
    ensures outline { PutsFrames result (Record.File path.now ∷ []) (W.held out.old) (W.held out.new) }
    ensures writes { Writes result (T.told tree.old) (T.told tree.new) (W.faults out.old) (W.faults out.new) }
{
    let rooted = rooted(alloc, path)?;
    let content = tree.read(rooted.as_str())?;
    let head = file_head(alloc, path.as_bytes(), &content)?;
    write_both(out, &head, &content)
}

/// Writes the record of one entry.
#[tactic(auto, using(crate::proofs::WrittenLemmas::began_none, crate::proofs::WrittenLemmas::unwritten, crate::proofs::OutlineLemmas::no_frames))]
fn write_frame<T: Tree, W: Sink>(
    alloc: Global,
    tree: &mut T,
    out: &mut W,
    rank: u8,
    path: &str,
    target: &str,
) -> Result<(), PackError>
    requires path { length path.now ≤ 65535 }
    requires target { length target.now ≤ 65535 }
    ensures puts { WhereTold (T.told tree.old)
        (λ t. PutsPieces result (piece_at t rank (path.now, target.now) ∷ []) (W.held out.old)
        (W.held out.new)) }
    ensures outline { PutsFrames result (record_at rank (path.now, target.now) ∷ []) (W.held out.old)
        (W.held out.new) }
    ensures writes { Writes result (T.told tree.old) (T.told tree.new) (W.faults out.old) (W.faults out.new) }
{
    if rank == 0 {
        let frame = dir_frame(alloc, path.as_bytes())?;
        return write(out, &frame);
    }
    if rank == 1 {
        return write_file(alloc, tree, out, path);
    }
    let frame = link_frame(alloc, path.as_bytes(), target.as_bytes())?;
    write(out, &frame)
}

/// Writes the records of one kind.
#[tactic(auto, using(crate::proofs::WrittenLemmas::began_none, crate::proofs::WrittenLemmas::unwritten, crate::proofs::OutlineLemmas::no_frames, crate::proofs::OutlineLemmas::none_so_far, crate::proofs::GroupLemmas::none_done))]
fn write_group<T: Tree, W: Sink>(
    alloc: Global,
    tree: &mut T,
    out: &mut W,
    rank: u8,
    entries: &Entries,
) -> Result<(), PackError>
    requires { EntriesFit (texts_of entries.now.entries) }
    ensures puts { WhereTold (T.told tree.old)
        (λ t. PutsPieces result (map (piece_at t rank) (texts_of entries.now.entries)) (W.held out.old)
        (W.held out.new)) }
    ensures outline { PutsFrames result (map (record_at rank) (texts_of entries.now.entries)) (W.held out.old)
        (W.held out.new) }
    ensures writes { Writes result (T.told tree.old) (T.told tree.new) (W.faults out.old) (W.faults out.new) }
{
    for (path, target) in entries {
        match write_frame(alloc, tree, out, rank, path.as_str(), target.get()) {
            Ok(()) => {}
            Err(fault) => return Err(fault),
        }
    }
    Ok(())
}

/// Writes the links and the byte at the end.
#[tactic(auto, using(crate::proofs::OutlineLemmas::end_package, crate::proofs::OutlineLemmas::stopped_end))]
fn write_links<T: Tree, W: Sink>(
    alloc: Global,
    tree: &mut T,
    out: &mut W,
    links: &Entries,
) -> Result<(), PackError>
    requires { EntriesFit (texts_of links.now.entries) }
    ensures puts { WhereTold (T.told tree.old)
        (λ t. PutsPieces result (map (piece_at t 2) (texts_of links.now.entries) ++ Some (69 ∷ []) ∷ [])
        (W.held out.old) (W.held out.new)) }
    ensures outline { PutsPackage result (map (record_at 2) (texts_of links.now.entries)) (W.held out.old)
        (W.held out.new) }
    ensures writes { Writes result (T.told tree.old) (T.told tree.new) (W.faults out.old) (W.faults out.new) }
{
    match write_group(alloc, tree, out, 2, links) {
        Ok(()) => write(out, &[END]),
        Err(fault) => Err(fault),
    }
}

/// Writes the files, the links and the byte at the end.
#[tactic(auto, using(crate::proofs::OutlineLemmas::then_package, crate::proofs::OutlineLemmas::stopped_package))]
fn write_files<T: Tree, W: Sink>(
    alloc: Global,
    tree: &mut T,
    out: &mut W,
    files: &Entries,
    links: &Entries,
) -> Result<(), PackError>
    requires files { EntriesFit (texts_of files.now.entries) }
    requires links { EntriesFit (texts_of links.now.entries) }
    ensures puts { WhereTold (T.told tree.old)
        (λ t. PutsPieces result (map (piece_at t 1) (texts_of files.now.entries) ++
        (map (piece_at t 2) (texts_of links.now.entries) ++ Some (69 ∷ []) ∷ [])) (W.held out.old)
        (W.held out.new)) }
    ensures outline { PutsPackage result (map (record_at 1) (texts_of files.now.entries) ++ map (record_at 2)
        (texts_of links.now.entries)) (W.held out.old) (W.held out.new) }
    ensures writes { Writes result (T.told tree.old) (T.told tree.new) (W.faults out.old) (W.faults out.new) }
{
    match write_group(alloc, tree, out, 1, files) {
        Ok(()) => write_links(alloc, tree, out, links),
        Err(fault) => Err(fault),
    }
}

/// Writes the directories, the files, the links and the byte at the end.
#[tactic(auto, using(crate::proofs::OutlineLemmas::then_package, crate::proofs::OutlineLemmas::stopped_package))]
fn write_entries<T: Tree, W: Sink>(
    alloc: Global,
    tree: &mut T,
    out: &mut W,
    dirs: &Entries,
    files: &Entries,
    links: &Entries,
) -> Result<(), PackError>
    requires dirs { EntriesFit (texts_of dirs.now.entries) }
    requires files { EntriesFit (texts_of files.now.entries) }
    requires links { EntriesFit (texts_of links.now.entries) }
    ensures puts { WhereTold (T.told tree.old)
        (λ t. PutsPieces result (map (piece_at t 0) (texts_of dirs.now.entries) ++
        (map (piece_at t 1) (texts_of files.now.entries) ++
        (map (piece_at t 2) (texts_of links.now.entries) ++ Some (69 ∷ []) ∷ []))) (W.held out.old)
        (W.held out.new)) }
    ensures outline { PutsPackage result
        (map (record_at 0) (texts_of dirs.now.entries) ++
        (map (record_at 1) (texts_of files.now.entries) ++ map (record_at 2) (texts_of links.now.entries)))
        (W.held out.old) (W.held out.new) }
    ensures writes { Writes result (T.told tree.old) (T.told tree.new) (W.faults out.old) (W.faults out.new) }
{
    match write_group(alloc, tree, out, 0, dirs) {
        Ok(()) => write_files(alloc, tree, out, files, links),
        Err(fault) => Err(fault),
    }
}

/// Writes the framed list of a package.
#[tactic(auto, using(crate::proofs::WrittenLemmas::began_none, crate::proofs::WrittenLemmas::unwritten, crate::proofs::OutlineLemmas::no_package))]
pub(crate) fn write_package<T: Tree, W: Sink>(
    alloc: Global,
    tree: &mut T,
    out: &mut W,
    records: &[Record],
) -> Result<(), PackError>
    requires { RecordsFit records.now }
    ensures puts { WhereTold (T.told tree.old)
        (λ t. PutsPieces result (pieces t records.now) (W.held out.old) (W.held out.new)) }
    ensures outline { PutsPackage result (written_order records.now) (W.held out.old) (W.held out.new) }
    ensures writes { Writes result (T.told tree.old) (T.told tree.new) (W.faults out.old) (W.faults out.new) }
{
    let dirs = sorted(alloc, records, 0)?;
    let files = sorted(alloc, records, 1)?;
    let links = sorted(alloc, records, 2)?;
    write_entries(alloc, tree, out, &dirs, &files, &links)
}
