//! One call of the program over a source and sinks in memory.
use dist_types::sink::MemSink;
use dist_types::source::MemSource;
use lives::program::lives_main;
use std::alloc::Global;
use std::test::Fail;

/// A number of a call that is never made.
pub const NEVER: u64 = 1_000_000_000;

/// What a call answered and wrote.
#[derive(Drop)]
pub struct Ran {
    pub status: u8,
    pub out: Vec<u8>,
    pub errs: Vec<u8>,
}

/// The calls of the outside that fail, by their numbers from 0 on.
#[derive(Clone, Copy)]
pub struct Failing {
    pub read: u64,
    pub write: u64,
    pub tell: u64,
}

/// Nothing fails.
pub const NOTHING: Failing = Failing {
    read: NEVER,
    write: NEVER,
    tell: NEVER,
};

/// Runs the program with words, parted by `|`, over a script.
pub fn called(alloc: Global, words: &str, script: &str, failing: Failing) -> Result<Ran, Fail> {
    let mut list = Vec::new(alloc);
    for word in words.split('|') {
        list.push(String::from_str(alloc, word)?)?;
    }
    let bytes = Vec::from_slice(alloc, script.as_bytes())?;
    let mut input = MemSource::new(bytes, vec![in alloc; failing.read]?);
    let mut out = MemSink::new(alloc, vec![in alloc; failing.write]?);
    let mut errs = MemSink::new(alloc, vec![in alloc; failing.tell]?);
    let status = lives_main(alloc, &list, &mut input, &mut out, &mut errs);
    Ok(Ran {
        status,
        out: Vec::from_slice(alloc, out.bytes())?,
        errs: Vec::from_slice(alloc, errs.bytes())?,
    })
}
