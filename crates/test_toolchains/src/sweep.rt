//! Each call of a folder failing in turn: what is told, and what the next opening finds.
use crate::fault::Fault;
use crate::words::packager;
use disk_cache::fault::FolderFault;
use disk_cache::folder::Folder;
use disk_cache::mem_folder::MemFolder;
use disk_cache::{ClientToolchains, Error, ToolchainError};
use folders::calls::Calls;
use std::alloc::Global;

/// How many calls fail, one a run.
const CALLS: u64 = 40;

/// The most bytes of all archives.
const CAPACITY: u64 = 1000;

/// How far a run came.
#[derive(Clone, Copy, Debug, PartialEq, Eq)]
enum End {
    /// All was done.
    Whole,
    /// A call was refused, and told that the folder failed.
    Failed,
    /// A call told something else.
    Wrong,
}

/// A run, and the folder that it left.
#[derive(Drop)]
struct Ran<F: Folder> {
    end: End,
    folder: F,
}

/// How far a run came that ended with this refusal.
fn end_of(refusal: ToolchainError) -> End {
    match refusal {
        ToolchainError::Cache(Error::Io(FolderFault::Failed)) => End::Failed,
        _ => End::Wrong,
    }
}

/// A folder whose calls are as listed, empty.
#[tactic(auto, using(crate::proofs::Empty::none_twice))]
fn folder_of(alloc: Global, before: Vec<u64>, behind: Vec<u64>) -> MemFolder {
    MemFolder::new(alloc, Vec::new(alloc), Calls::new(before, behind))
}

/// An empty folder whose call of that number fails, before or behind what it does.
fn failing(alloc: Global, number: u64, behind: bool) -> Result<MemFolder, Fault> {
    let mut listed = Vec::new(alloc);
    listed.push(number)?;
    if behind {
        return Ok(folder_of(alloc, Vec::new(alloc), listed));
    }
    Ok(folder_of(alloc, listed, Vec::new(alloc)))
}

/// A folder with the same files, which never fails.
fn sound(alloc: Global, folder: &MemFolder) -> Result<MemFolder, Fault> {
    let mut copy = folder_of(alloc, Vec::new(alloc), Vec::new(alloc));
    for (path, bytes) in folder.files() {
        match copy.write(path.get(), bytes.get()) {
            Ok(()) => {}
            Err(_) => return Err(Fault::Memory),
        }
    }
    Ok(copy)
}

/// Puts a toolchain whose archive is `abc`, and gets that archive.
fn put_and_get<F: Folder>(
    alloc: Global,
    toolchains: &mut ClientToolchains<F>,
) -> Result<End, Fault> {
    let mut packs = packager(alloc, "616263")?;
    let tc = match toolchains.put_toolchain("/cc", "weak", &mut packs) {
        Ok((tc, _beside)) => tc,
        Err(refusal) => return Ok(end_of(refusal)),
    };
    match toolchains.get_toolchain(&tc) {
        Ok(Some(_bytes)) => Ok(End::Whole),
        Ok(None) => Ok(End::Wrong),
        Err(refusal) => Ok(end_of(refusal)),
    }
}

/// Puts and gets by toolchains that were opened.
fn run_opened<F: Folder + Drop>(
    alloc: Global,
    toolchains: ClientToolchains<F>,
) -> Result<Ran<F>, Fault> {
    let mut toolchains = toolchains;
    let end = put_and_get(alloc, &mut toolchains)?;
    let folder = toolchains.into_folder();
    Ok(Ran { end, folder })
}

/// Opens, puts and gets over a folder.
fn run<F: Folder + Drop>(alloc: Global, folder: F) -> Result<Ran<F>, Fault> {
    match ClientToolchains::open(alloc, folder, "c", CAPACITY, &[]) {
        Ok(opened) => run_opened(alloc, opened),
        Err((refusal, folder)) => Ok(Ran {
            end: end_of(refusal),
            folder,
        }),
    }
}

/// Whether a run told a failure exactly where its folder failed.
fn is_told<F: Folder>(ran: &Ran<F>) -> bool {
    if ran.folder.faults() == 0 {
        ran.end == End::Whole
    } else {
        ran.end == End::Failed
    }
}

/// Whether a run over a folder with the same files does all.
fn is_mended(alloc: Global, folder: &MemFolder) -> Result<bool, Fault> {
    let copy = sound(alloc, folder)?;
    let ran = run(alloc, copy)?;
    Ok(ran.end == End::Whole)
}

/// Whether a run in which that call of the folder fails tells so exactly where it was made, and one behind it
/// over the same files, in which none fails, does all.
fn is_right(alloc: Global, number: u64, behind: bool) -> Result<bool, Fault> {
    let folder = failing(alloc, number, behind)?;
    let ran = run(alloc, folder)?;
    let mended = is_mended(alloc, &ran.folder)?;
    Ok(is_told(&ran) && mended)
}

/// Each call of the folder fails in turn, before or behind what it does. Answers which runs went wrong.
pub(crate) fn sweep(alloc: Global, behind: bool) -> Result<String, Fault> {
    let mut told = format!(in alloc; "{CALLS} runs")?;
    for number in 0..CALLS {
        if !is_right(alloc, number, behind)? {
            let row = format!(in alloc; ", {number} wrong")?;
            told.push_str(row.as_str())?;
        }
    }
    Ok(told)
}
