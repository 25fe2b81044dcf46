//! One call of the command over objects in memory.
use crate::zeros::Zeros;
use dist_config::serve::MemServe;
use dist_types::sink::MemSink;
use dist_types::source::MemSource;
use dist_types::text::{Bytes, Text};
use farm::command::dist_main;
use farm::files::{MemFiles, NamedFile};
use std::alloc::Global;
use std::test::Fail;

/// A number of a call that is never made.
const NEVER: u64 = 1_000_000_000;

/// What a call answered and wrote, and how often something was to serve.
#[derive(Drop)]
pub struct Called {
    pub status: u8,
    pub out: Vec<u8>,
    pub errs: Vec<u8>,
    pub served: usize,
}

/// The numbers of the calls of files and of what serves that fail.
#[derive(Clone, Copy)]
pub struct Failing {
    pub file: u64,
    pub serve: u64,
}

/// Nothing fails.
pub const NOTHING: Failing = Failing {
    file: NEVER,
    serve: NEVER,
};

fn file(alloc: Global, name: &str, text: &str) -> Result<NamedFile, Fail> {
    let name = Text::of(alloc, name)?;
    let bytes = Bytes::from_slice(alloc, text.as_bytes())?;
    Ok(NamedFile { name, bytes })
}

/// Runs the command over words, parted by `|`, with one file of the name `f`.
pub fn call(alloc: Global, words: &str, content: &str, failing: Failing) -> Result<Called, Fail> {
    let mut list = Vec::new(alloc);
    for word in words.split('|') {
        list.push(String::from_str(alloc, word)?)?;
    }
    let mut files = Vec::new(alloc);
    files.push(file(alloc, "f", content)?)?;
    let mut files = MemFiles::new(alloc, files, vec![in alloc; failing.file]?);
    let mut serve = MemServe::new(alloc, vec![in alloc; failing.serve]?);
    let mut input = MemSource::new(Vec::new(alloc), Vec::new(alloc));
    let mut out = MemSink::new(alloc, Vec::new(alloc));
    let mut errs = MemSink::new(alloc, Vec::new(alloc));
    let mut zeros = Zeros;
    let status = dist_main(
        alloc, &list, &mut input, &mut out, &mut errs, &mut files, &mut zeros, &mut serve,
    );
    Ok(Called {
        status,
        out: Vec::from_slice(alloc, out.bytes())?,
        errs: Vec::from_slice(alloc, errs.bytes())?,
        served: serve.calls().len(),
    })
}
