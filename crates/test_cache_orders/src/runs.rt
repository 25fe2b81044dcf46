//! The orders over a disk cache, a cache of archives and a client's toolchains: each without faults, and with
//! each call of the folder in turn failing, before what it does, behind it and in the middle of what it writes;
//! and an opening at the end of each, in which none fails.

use crate::answers::{Answer, Difference, agree, denied, done, same};
use crate::archive_calls::{self, same_archives};
use crate::calls::{given, wanted};
use crate::client_calls::{self, configs, find_all};
use crate::compare::{same_files, same_list};
use crate::entries::{Plan, add_around};
use crate::names::{Archive, CAPACITY, Key, Place, ROOT};
use crate::orders::{Call, Step, letters};
use crate::plain_cache::PlainCache;
use crate::plain_client::PlainClient;
use crate::plain_folder::{Failing, PlainFolder};
use disk_cache::ClientToolchains;
use folders::calls::Calls;
use folders::fault::FolderFault;
use folders::folder::Folder;
use folders::mem_folder::MemFolder;
use folders::real_folder::RealFolder;
use lru_disk_cache::LruDiskCache;
use std::alloc::{AllocError, Global};
use std::process::Abort;
use std::rt::Files;
use std::test::Fail;
use std::{env, fs};
use toolchain_cache::TcCache;

/// How many orders there are, and of those in which more fails, and how many calls each has.
const ORDERS: u64 = 300;

const FEWER: u64 = 30;

const STEPS: u64 = 6;

/// What the orders are over.
#[derive(Clone, Copy, PartialEq, Eq)]
enum Over {
    Disk,
    Archives,
    Client,
}

/// The first steps of an order, and whether all archives are looked for behind them.
#[derive(Clone, Copy)]
struct Course {
    over: Over,
    order: u64,
    steps: u64,
    looks: bool,
}

impl Course {
    fn of(over: Over, order: u64, steps: u64) -> Course {
        Course {
            over,
            order,
            steps,
            looks: false,
        }
    }

    /// An opening alone, behind which all archives are looked for.
    fn reopening(self) -> Course {
        Course {
            steps: 0,
            looks: true,
            ..self
        }
    }
}

/// How a call fails.
#[derive(Clone, Copy)]
enum Way {
    Before,
    Behind,
    Middle,
}

impl Way {
    fn at(self, number: u64) -> Failing {
        match self {
            Way::Before => Failing::Before(number),
            Way::Behind => Failing::Behind(number),
            Way::Middle => Failing::Middle(number),
        }
    }
}

const ENDS: &[Way] = &[Way::Before, Way::Behind];

const MIDDLE: &[Way] = &[Way::Middle];

const WAYS: &[Way] = &[Way::Before, Way::Behind, Way::Middle];

/// What lies in the folder before the first opening: a file of a key, one that is too large, two that are
/// temporary, and one outside the cache.
const SEEDS: &[(Place, &str)] = &[
    (Place::Of(Key::Third), "third"),
    (Place::TooLarge, "too large by more than a byte"),
    (Place::Temporary(1), "tmp"),
    (Place::Inserted(0), "tmp"),
    (Place::Outside, "outside"),
];

/// The same of a cache of archives: two that are sound, one with other bytes, one that is too large, and files
/// that are none; beside them a configured archive and what was still being written.
const ARCHIVES: &[(Place, &str)] = &[
    (Place::Of(Key::Of(Archive::Digits)), "0123456789"),
    (Place::Of(Key::Of(Archive::Dozen)), "another text"),
    (Place::Of(Key::Of(Archive::Large)), "more than twenty bytes"),
    (Place::Of(Key::Third), "third"),
    (Place::Of(Key::Of(Archive::Abc)), "abc"),
    (Place::Temporary(0), "tmp"),
    (Place::Inserted(1), "tmp"),
    (Place::Leftover, "left"),
    (Place::Configured, ""),
];

/// One step, on the cache and on the model.
fn act<F: Folder + Drop>(
    rt: &impl Abort,
    alloc: Global,
    cache: &mut LruDiskCache<F>,
    plain: &mut PlainCache,
    step: &Step,
) -> Result<(), Difference> {
    match step.call {
        Call::Add => add(rt, alloc, cache, plain, step)?,
        _ => call(alloc, cache, plain, step)?,
    }
    same_list(cache, plain)
}

fn call<F: Folder + Drop>(
    alloc: Global,
    cache: &mut LruDiskCache<F>,
    plain: &mut PlainCache,
    step: &Step,
) -> Result<(), Difference> {
    let Ok(bytes) = letters(alloc, b'x', step.size) else {
        return Err(Difference::Memory);
    };
    let wanted = wanted(alloc, plain, step, &bytes);
    agree(given(alloc, cache, step, &bytes), wanted)
}

fn add<F: Folder + Drop>(
    rt: &impl Abort,
    alloc: Global,
    cache: &mut LruDiskCache<F>,
    plain: &mut PlainCache,
    step: &Step,
) -> Result<(), Difference> {
    let Ok(bytes) = letters(alloc, b'y', step.size / 3) else {
        return Err(Difference::Memory);
    };
    let Ok(more) = letters(alloc, b'z', step.more / 2) else {
        return Err(Difference::Memory);
    };
    let plan = Plan {
        key: step.key,
        size: step.more,
        bytes: &bytes,
        commits: step.commits,
    };
    let within = Plan {
        key: step.other,
        size: step.size / 2,
        bytes: &more,
        commits: step.other_commits,
    };
    add_around(rt, cache, plain, &plan, &within)
}

/// The first steps of an order.
fn run<F: Folder + Drop>(
    rt: &impl Abort,
    alloc: Global,
    course: Course,
    plain: &mut PlainClient,
    folder: F,
) -> Result<F, Difference> {
    match course.over {
        Over::Disk => run_disk(rt, alloc, course, &mut plain.cache, folder),
        Over::Archives => run_archives(alloc, course, &mut plain.cache, folder),
        Over::Client => run_client(alloc, course, plain, folder),
    }
}

fn run_disk<F: Folder + Drop>(
    rt: &impl Abort,
    alloc: Global,
    course: Course,
    plain: &mut PlainCache,
    folder: F,
) -> Result<F, Difference> {
    let wanted = done(plain.open());
    match LruDiskCache::new(alloc, folder, ROOT, CAPACITY) {
        Ok(mut cache) => {
            agree(Answer::Done, wanted)?;
            same_list(&cache, plain)?;
            for number in 0..course.steps {
                let step = Step::of(course.order, number);
                act(rt, alloc, &mut cache, plain, &step)?;
            }
            Ok(cache.into_folder())
        }
        Err((error, folder)) => {
            agree(Answer::Refused(error), wanted)?;
            Ok(folder)
        }
    }
}

fn run_archives<F: Folder + Drop>(
    alloc: Global,
    course: Course,
    plain: &mut PlainCache,
    folder: F,
) -> Result<F, Difference> {
    let wanted = done(plain.open_archives());
    match TcCache::new(alloc, folder, ROOT, CAPACITY) {
        Ok(mut cache) => {
            agree(Answer::Done, wanted)?;
            same_archives(&cache, plain)?;
            for number in 0..course.steps {
                let step = Step::of(course.order, number);
                archive_calls::act(alloc, &mut cache, plain, &step)?;
                same_archives(&cache, plain)?;
            }
            Ok(cache.into_folder())
        }
        Err((error, folder)) => {
            agree(Answer::Refused(error), wanted)?;
            Ok(folder)
        }
    }
}

// What a client lists is told by what it finds, in the order of its files.
fn run_client<F: Folder + Drop>(
    alloc: Global,
    course: Course,
    plain: &mut PlainClient,
    folder: F,
) -> Result<F, Difference> {
    let Ok(configs) = configs(alloc) else {
        return Err(Difference::Memory);
    };
    let wanted = match plain.open() {
        Ok(()) => Answer::Done,
        Err(refusal) => denied(refusal),
    };
    match ClientToolchains::open(alloc, folder, "", CAPACITY, &configs) {
        Ok(mut client) => {
            agree(Answer::Done, wanted)?;
            for number in 0..course.steps {
                let step = Step::of(course.order, number);
                client_calls::act(alloc, &mut client, plain, &step)?;
            }
            if course.looks {
                find_all(&mut client, plain)?;
            }
            Ok(client.into_folder())
        }
        Err((refusal, folder)) => {
            agree(denied(refusal), wanted)?;
            Ok(folder)
        }
    }
}

/// The folder gets its first files, of the model too.
fn seed<F: Folder + Drop>(
    course: Course,
    plain: &mut PlainFolder,
    folder: &mut F,
) -> Result<(), Difference> {
    let seeds = match course.over {
        Over::Disk => SEEDS,
        Over::Archives | Over::Client => ARCHIVES,
    };
    for (place, text) in seeds {
        // Every third order finds no configured archive.
        if *place != Place::Configured || course.order % 3 != 0 {
            put(plain, folder, *place, text.as_bytes())?;
        }
    }
    Ok(())
}

fn put<F: Folder + Drop>(
    plain: &mut PlainFolder,
    folder: &mut F,
    place: Place,
    bytes: &[u8],
) -> Result<(), Difference> {
    same(folder.make_parents(place.path()), plain.nothing())?;
    same(folder.write(place.path(), bytes), plain.write(place, bytes))
}

/// The first steps of an order over a folder, and an opening behind them. Gives how many calls of the folder
/// there were before that.
fn run_and_open<F: Folder + Drop>(
    rt: &impl Abort,
    alloc: Global,
    course: Course,
    failing: Failing,
    folder: F,
) -> Result<u64, Difference> {
    let mut folder = folder;
    let mut plain = PlainClient::new(alloc, PlainFolder::new(alloc, failing));
    seed(course, &mut plain.cache.folder, &mut folder)?;
    let mut folder = run(rt, alloc, course, &mut plain, folder)?;
    same_files(&mut folder, &plain.cache.folder)?;
    if !failing.allows(plain.cache.folder.faults) {
        return Err(Difference::Faults);
    }
    let calls = plain.cache.folder.calls;
    let mut folder = run(rt, alloc, course.reopening(), &mut plain, folder)?;
    same_files(&mut folder, &plain.cache.folder)?;
    Ok(calls)
}

fn numbers(alloc: Global, number: Option<u64>) -> Result<Vec<u64>, AllocError> {
    let mut numbers = Vec::new(alloc);
    if let Some(number) = number {
        numbers.push(number)?;
    }
    Ok(numbers)
}

/// The same over a folder in memory, one of whose calls fails.
fn over_memory(
    rt: &impl Abort,
    alloc: Global,
    course: Course,
    failing: Failing,
) -> Result<u64, Difference> {
    let Ok(before) = numbers(alloc, failing.before()) else {
        return Err(Difference::Memory);
    };
    let Ok(behind) = numbers(alloc, failing.behind()) else {
        return Err(Difference::Memory);
    };
    let Ok(middle) = numbers(alloc, failing.middle()) else {
        return Err(Difference::Memory);
    };
    let calls = Calls::new(before, behind);
    let calls = calls.stopping(middle);
    let folder = MemFolder::new(alloc, Vec::new(alloc), calls);
    run_and_open(rt, alloc, course, failing, folder)
}

/// A call of a number fails, in each front of an order that makes it.
fn failing_at(
    rt: &impl Abort,
    alloc: Global,
    course: Course,
    number: u64,
    ways: &[Way],
) -> Result<(), Difference> {
    for steps in course.steps..STEPS + 1 {
        for way in ways {
            over_memory(rt, alloc, Course { steps, ..course }, way.at(number))?;
        }
    }
    Ok(())
}

/// The first call that fails: none of those that put the first files of an archive's cache there.
fn first_call(over: Over) -> u64 {
    match over {
        Over::Disk => 0,
        Over::Archives | Over::Client => 14,
    }
}

/// Each front of an order without faults; and each call in turn failing in each of these ways.
fn every_run(
    rt: &impl Abort,
    alloc: Global,
    over: Over,
    order: u64,
    ways: &[Way],
) -> Result<(), Difference> {
    let mut done = first_call(over);
    for steps in 0..STEPS + 1 {
        let course = Course::of(over, order, steps);
        let calls = over_memory(rt, alloc, course, Failing::Never)?;
        for number in done..calls {
            failing_at(rt, alloc, course, number, ways)?;
        }
        done = calls;
    }
    Ok(())
}

/// The orders of these numbers.
fn every_order(rt: &impl Abort, alloc: Global, over: Over, orders: u64, ways: &[Way]) {
    for order in 0..orders {
        if let Err(difference) = every_run(rt, alloc, over, order, ways) {
            panic!(rt; "order {order}: {}", difference.text());
        }
    }
}

#[test]
fn generated_orders_are_those_of_the_model(rt: HostRuntime) -> Result<(), Fail> {
    every_order(&rt, rt.alloc(), Over::Disk, ORDERS, ENDS);
    Ok(())
}

#[test]
fn orders_that_stop_in_the_middle_are_those_of_the_model(rt: HostRuntime) -> Result<(), Fail> {
    every_order(&rt, rt.alloc(), Over::Disk, FEWER, MIDDLE);
    Ok(())
}

#[test]
fn orders_of_archives_are_those_of_the_model(rt: HostRuntime) -> Result<(), Fail> {
    every_order(&rt, rt.alloc(), Over::Archives, FEWER, WAYS);
    Ok(())
}

#[test]
fn orders_of_a_client_are_those_of_the_model(rt: HostRuntime) -> Result<(), Fail> {
    every_order(&rt, rt.alloc(), Over::Client, FEWER, WAYS);
    Ok(())
}

/// The orders of a kind over a folder of the system, without faults.
fn over_the_system<R: Files + Abort + AllocGlobal + Drop>(
    rt: &R,
    top: &str,
    over: Over,
    orders: u64,
) -> Result<(), Fail> {
    for order in 0..orders {
        let _ = fs::remove_dir_all(rt, top);
        fs::create_dir_all(rt, top)?;
        let folder = RealFolder::new(rt, top)?;
        let course = Course::of(over, order, STEPS);
        if let Err(difference) = run_and_open(rt, rt.alloc(), course, Failing::Never, folder) {
            panic!(rt; "order {order}: {}", difference.text());
        }
    }
    Ok(())
}

#[test]
fn orders_over_a_folder_of_the_system_are_those_of_the_model(rt: HostRuntime) -> Result<(), Fail> {
    let dir = env::temp_dir(&rt)?;
    let top = format!(in rt.alloc(); "{}/test_cache_orders", dir.as_path().as_str())?;
    over_the_system(&rt, top.as_str(), Over::Disk, ORDERS)?;
    over_the_system(&rt, top.as_str(), Over::Archives, FEWER)?;
    over_the_system(&rt, top.as_str(), Over::Client, FEWER)?;
    fs::remove_dir_all(&rt, top.as_str())?;
    Ok(())
}
