//! The command over the words that the system gave, or did not give.
use crate::first_run::{FIRST_RUN, FIRST_SCRIPT};
use crate::ran::Ran;
use dist_config::serve::MemServe;
use dist_types::sink::MemSink;
use dist_types::source::MemSource;
use farm::command::{run_command_line, words_given};
use farm::files::MemFiles;
use std::alloc::Global;
use std::env::Args;
use std::io::{self, ErrorKind};
use std::test::Fail;
use test_commands::zeros::Zeros;

/// Runs the command over such words and the script of the first run, where nothing fails; what input has
/// left is behind the status.
fn ran(alloc: Global, given: io::Result<Args>) -> Result<(Ran, usize), Fail> {
    let script = Vec::from_slice(alloc, FIRST_SCRIPT.as_bytes())?;
    let mut input = MemSource::new(script, Vec::new(alloc));
    let mut out = MemSink::new(alloc, Vec::new(alloc));
    let mut errs = MemSink::new(alloc, Vec::new(alloc));
    let mut files = MemFiles::new(alloc, Vec::new(alloc), Vec::new(alloc));
    let mut zeros = Zeros;
    let mut serve = MemServe::new(alloc, Vec::new(alloc));
    let words = words_given(alloc, given);
    let status = run_command_line(
        alloc, words, &mut input, &mut out, &mut errs, &mut files, &mut zeros, &mut serve,
    );
    let rest = dist_types::source::read_up_to(alloc, &mut input, 1_000_000)?;
    let ran = Ran {
        status,
        out: Vec::from_slice(alloc, out.bytes())?,
        errs: Vec::from_slice(alloc, errs.bytes())?,
    };
    Ok((ran, rest.len()))
}

/// A word that is not UTF-8 is told as unknown words, and want of memory as that; input is not read.
#[test]
fn tells_words_that_were_not_given(rt: HostRuntime) -> Result<(), Fail> {
    let rows: [(ErrorKind, u8, &str); 3] = [
        (
            ErrorKind::InvalidData,
            2,
            "sccache-dist: these words name no command\n",
        ),
        (ErrorKind::OutOfMemory, 3, "sccache-dist: out of memory\n"),
        (
            ErrorKind::Other,
            2,
            "sccache-dist: these words name no command\n",
        ),
    ];
    for (kind, status, text) in rows {
        let (ran, left) = ran(rt.alloc(), Err(io::Error::from(kind)))?;
        assert_eq!(rt; ran.status, status);
        assert_eq!(rt; ran.errs.as_slice(), text.as_bytes());
        assert_eq!(rt; ran.out.len(), 0);
        assert_eq!(rt; left, FIRST_SCRIPT.len());
    }
    Ok(())
}

#[test]
fn runs_the_words_that_were_given(rt: HostRuntime) -> Result<(), Fail> {
    let mut words = Vec::new(rt.alloc());
    words.push(String::from_str(rt.alloc(), "sccache-dist")?)?;
    words.push(String::from_str(rt.alloc(), "farm")?)?;
    let (ran, left) = ran(rt.alloc(), Ok(words.into_iter()))?;
    assert_eq!(rt; ran.status, 0);
    assert_eq!(rt; ran.out.as_slice(), FIRST_RUN.as_bytes());
    assert_eq!(rt; ran.errs.len(), 0);
    assert_eq!(rt; left, 0);
    Ok(())
}
