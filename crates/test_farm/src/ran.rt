//! One call of the command over a source and sinks in memory.
use dist_config::serve::MemServe;
use dist_types::sink::MemSink;
use dist_types::source::MemSource;
use farm::command::dist_main;
use farm::files::MemFiles;
use std::alloc::Global;
use std::test::Fail;
use test_commands::zeros::Zeros;

/// A number of a call that is never made.
pub const NEVER: u64 = 1_000_000_000;

/// What a call answered and wrote.
#[derive(Drop)]
pub struct Ran {
    pub status: u8,
    pub out: Vec<u8>,
    pub errs: Vec<u8>,
}

/// The calls of the outside that fail, by their numbers from 0 on.
#[derive(Clone, Copy)]
pub struct Failing {
    pub read: u64,
    pub write: u64,
    pub tell: u64,
}

/// Nothing fails.
pub const NOTHING: Failing = Failing {
    read: NEVER,
    write: NEVER,
    tell: NEVER,
};

/// Runs `sccache-dist WORD` over a script.
pub fn called(alloc: Global, word: &str, script: Vec<u8>, failing: Failing) -> Result<Ran, Fail> {
    let mut words = Vec::new(alloc);
    words.push(String::from_str(alloc, "sccache-dist")?)?;
    words.push(String::from_str(alloc, word)?)?;
    let mut input = MemSource::new(script, vec![in alloc; failing.read]?);
    let mut out = MemSink::new(alloc, vec![in alloc; failing.write]?);
    let mut errs = MemSink::new(alloc, vec![in alloc; failing.tell]?);
    let mut files = MemFiles::new(alloc, Vec::new(alloc), Vec::new(alloc));
    let mut zeros = Zeros;
    let mut serve = MemServe::new(alloc, Vec::new(alloc));
    let status = dist_main(
        alloc, &words, &mut input, &mut out, &mut errs, &mut files, &mut zeros, &mut serve,
    );
    Ok(Ran {
        status,
        out: Vec::from_slice(alloc, out.bytes())?,
        errs: Vec::from_slice(alloc, errs.bytes())?,
    })
}

/// Runs `sccache-dist farm` over a script, where nothing fails.
pub fn farm(alloc: Global, script: &str) -> Result<Ran, Fail> {
    let bytes = Vec::from_slice(alloc, script.as_bytes())?;
    called(alloc, "farm", bytes, NOTHING)
}
