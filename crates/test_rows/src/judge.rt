//! One run of the program over objects in memory, compared with what it must answer and write.
use crate::row::Row;
use dist_config::serve::MemServe;
use dist_types::sink::MemSink;
use dist_types::source::MemSource;
use farm::command::dist_main;
use farm::files::Files;
use std::alloc::Global;
use test_commands::zeros::Zeros;

/// What came of a row: whether the status, the output and errs are as they must be.
#[derive(Clone, Copy)]
pub(crate) struct Judged {
    pub(crate) status: bool,
    pub(crate) out: bool,
    pub(crate) errs: bool,
}

impl Judged {
    /// What to say of it.
    pub(crate) fn word(self) -> &'static str {
        if !self.status {
            return "another status";
        }
        if !self.out {
            return "another output";
        }
        if !self.errs {
            return "other errs";
        }
        "as it must be"
    }

    /// Whether all is as it must be.
    pub(crate) fn holds(self) -> bool {
        self.status && self.out && self.errs
    }
}

/// Runs a row over random words that are all 0. What it would serve answers at once.
pub(crate) fn judge<D: Files>(alloc: Global, row: Row, files: &mut D) -> Judged {
    let mut input = MemSource::new(row.script, Vec::new(alloc));
    let mut out = MemSink::new(alloc, Vec::new(alloc));
    let mut errs = MemSink::new(alloc, Vec::new(alloc));
    let mut random = Zeros;
    let mut serve = MemServe::new(alloc, Vec::new(alloc));
    let status = dist_main(
        alloc,
        &row.words,
        &mut input,
        &mut out,
        &mut errs,
        files,
        &mut random,
        &mut serve,
    );
    Judged {
        status: status == row.status,
        out: out.bytes() == row.out.as_slice(),
        errs: errs.bytes() == row.errs.as_slice(),
    }
}
