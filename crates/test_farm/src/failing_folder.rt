//! A run with two servers, of which one has a folder of which each call fails in turn: before it does anything,
//! behind that, in the middle, and as if the file were missing. The folder tells its files, or does not.
use crate::fault_table::{COUNT, MADE, NO_FAULT, PARTS, SCRIPT, WAYS, Way};
use crate::untold_folder::UntoldFolder;
use farm::builder::FarmBuilder;
use farm::fault::FarmFault;
use farm::print::print_run;
use farm::run::Farm;
use farm::script::read_script;
use folders::calls::Calls;
use folders::folder::Folder;
use folders::mem_folder::MemFolder;
use std::alloc::Global;
use std::process::Abort;
use std::test::Fail;

/// More calls than the run makes of the folder.
const MANY: u64 = 400;

/// Where a call fails, and whether the folder tells its files.
#[derive(Clone, Copy)]
enum Fails {
    Before,
    Behind,
    Middle,
    UntoldBefore,
    UntoldBehind,
    UntoldMissing,
}

/// An empty folder of whose calls those of these numbers fail.
#[tactic(auto, using(crate::proofs::Empty::none_twice))]
fn folder_of(alloc: Global, number: u64, fails: Fails) -> Result<MemFolder, FarmFault> {
    let one = Vec::from_slice(alloc, &[number])?;
    let none = Vec::new(alloc);
    let calls = match fails {
        Fails::Before | Fails::UntoldBefore => Calls::new(one, none),
        Fails::Behind | Fails::UntoldBehind => Calls::new(none, one),
        Fails::Middle => Calls::new(none, Vec::new(alloc)).stopping(one),
        Fails::UntoldMissing => Calls::new(none, Vec::new(alloc)),
    };
    Ok(MemFolder::new(alloc, Vec::new(alloc), calls))
}

/// The same, which does not tell its files.
fn untold_of(alloc: Global, number: u64, fails: Fails) -> Result<UntoldFolder, FarmFault> {
    let missing = match fails {
        Fails::UntoldMissing => number,
        _ => MANY,
    };
    Ok(UntoldFolder::new(folder_of(alloc, number, fails)?, missing))
}

/// A printed run, and the first server's folder behind it.
#[derive(Drop)]
struct Ran<F> {
    text: String,
    folder: Option<F>,
}

/// The run over these folders.
fn run_over<F: Folder + Drop>(alloc: Global, folders: Vec<F>) -> Result<Ran<F>, FarmFault> {
    let (setup, events) = read_script(alloc, SCRIPT.as_bytes())?;
    let mut builders = Vec::new(alloc);
    for server in setup.servers.get() {
        match FarmBuilder::of(alloc, server.builder.get()) {
            Ok(builder) => builders.push(builder)?,
            Err(_) => return Err(FarmFault::Memory),
        }
    }
    let count = setup.servers.get().len();
    if folders.as_slice().len() != count || builders.as_slice().len() != count {
        return Err(FarmFault::Memory);
    }
    let farm = Farm::new(alloc, &setup, folders, builders)?;
    match farm.run(&events) {
        Ok(farm) => {
            let text = print_run(alloc, &farm)?;
            let (mut folders, _) = farm.into_parts();
            folders.truncate(1);
            let folder = folders.pop();
            Ok(Ran { text, folder })
        }
        Err(_) => Err(FarmFault::Memory),
    }
}

/// The run where the call of that number of the first server's folder fails.
fn run_failing(alloc: Global, number: u64, fails: Fails) -> Result<Ran<MemFolder>, FarmFault> {
    match fails {
        Fails::Before | Fails::Behind | Fails::Middle => {
            let mut folders = Vec::with_capacity(alloc, 2)?;
            folders.push(folder_of(alloc, number, fails)?)?;
            folders.push(folder_of(alloc, MANY, fails)?)?;
            run_over(alloc, folders)
        }
        Fails::UntoldBefore | Fails::UntoldBehind | Fails::UntoldMissing => {
            let mut folders = Vec::with_capacity(alloc, 2)?;
            folders.push(untold_of(alloc, number, fails)?)?;
            folders.push(untold_of(alloc, MANY, fails)?)?;
            let Ran { text, folder } = run_over(alloc, folders)?;
            let folder = match folder {
                Some(folder) => Some(folder.into_inner()),
                None => None,
            };
            Ok(Ran { text, folder })
        }
    }
}

/// What is wanted at that place, where those are changed.
fn wanted(changed: &[(usize, &'static str)], place: usize) -> &'static str {
    match changed.iter().find(|change| change.0 == place) {
        Some(change) => change.1,
        None => match MADE.get(place) {
            Some(made) => made,
            None => "",
        },
    }
}

/// What an event made, and what stands behind it: the next event, or the books.
fn next(text: &str) -> Option<(&str, &str)> {
    let (event, behind) = match text.split_once("\nentry ") {
        Some(parts) => parts,
        None => text.split_once("\nbooks\n")?,
    };
    match event.split_once('\n') {
        Some((_, made)) => Some((made, behind)),
        None => None,
    }
}

/// Whether a printed run is the one of the table with those changes.
fn is_run(text: &str, changed: &[(usize, &'static str)]) -> bool {
    let Some((_, mut rest)) = text.split_once("\nentry ") else {
        return false;
    };
    for place in 0..PARTS - 1 {
        match next(rest) {
            Some((made, behind)) if made == wanted(changed, place) => rest = behind,
            _ => return false,
        }
    }
    rest == wanted(changed, PARTS - 1)
}

/// Whether a folder has the files of these archives, in that order, and no other file.
fn has_files(folder: Option<&MemFolder>, archives: &[&'static str]) -> bool {
    let Some(folder) = folder else {
        return false;
    };
    let files = folder.files();
    if files.len() != archives.len() {
        return false;
    }
    for place in 0..archives.len() {
        match files.get(place) {
            Some((path, _)) if path.get().ends_with(archives[place]) => {}
            _ => return false,
        }
    }
    true
}

/// Whether a run went so.
fn went(ran: &Ran<MemFolder>, way: &Way) -> bool {
    is_run(ran.text.as_str(), way.changed) && has_files(ran.folder.as_ref(), way.files)
}

/// Notes each way in which a run went. Whether there is one.
fn note(ran: &Ran<MemFolder>, came: &mut [bool; COUNT]) -> bool {
    let mut any = false;
    for place in 0..COUNT {
        if went(ran, &WAYS[place]) {
            came[place] = true;
            any = true;
        }
    }
    any
}

/// Runs the script until no call has the number that fails, and gives how many had it.
fn fail_each(
    rt: &impl Abort,
    alloc: Global,
    fails: Fails,
    came: &mut [bool; COUNT],
) -> Result<u64, FarmFault> {
    for number in 0..MANY {
        let ran = run_failing(alloc, number, fails)?;
        if went(&ran, &NO_FAULT) {
            return Ok(number);
        }
        assert!(rt;
            note(&ran, came),
            "the call {number}: {}",
            ran.text.as_str()
        );
    }
    Ok(MANY)
}

/// Fails each call so, and looks that each way came that comes by one fault.
fn fail_all(rt: &impl Abort, alloc: Global, all: [Fails; 3]) -> Result<(), FarmFault> {
    let mut came = [false; COUNT];
    for fails in all {
        let calls = fail_each(rt, alloc, fails, &mut came)?;
        assert!(rt; calls > 0 && calls < MANY, "{calls} calls");
    }
    for place in 0..COUNT {
        let way = WAYS[place];
        assert!(rt;
            came[place] || !way.is_one,
            "no call failed so: {}",
            way.name
        );
    }
    Ok(())
}

#[test]
fn each_call_fails_in_one_of_the_ways(rt: HostRuntime) -> Result<(), Fail> {
    fail_all(
        &rt,
        rt.alloc(),
        [Fails::Before, Fails::Behind, Fails::Middle],
    )?;
    Ok(())
}

#[test]
fn each_call_of_an_untold_folder_fails_in_one_of_the_ways(rt: HostRuntime) -> Result<(), Fail> {
    let all = [
        Fails::UntoldBefore,
        Fails::UntoldBehind,
        Fails::UntoldMissing,
    ];
    fail_all(&rt, rt.alloc(), all)?;
    Ok(())
}
