//! A line on the terminal that says how far a job is.
use dist_types::sink::{Sink, write_all};
use std::alloc::Global;

/// Where the line is shown, if it is: a terminal.
#[derive(Drop)]
pub(crate) struct Progress<'a, E: Sink> {
    alloc: Global,
    errs: &'a mut E,
    is_shown: bool,
}

impl<'a, E: Sink> Progress<'a, E> {
    /// No line is shown so far.
    pub(crate) fn new(alloc: Global, errs: &'a mut E, is_shown: bool) -> Self {
        Progress {
            alloc,
            errs,
            is_shown,
        }
    }

    /// Shows a text in place of the one before.
    pub(crate) fn tell(&mut self, text: &str) {
        if !self.is_shown {
            return;
        }
        if let Ok(line) = format!(in self.alloc; "\r\x1b[Kdist_submit: {text}") {
            let _ = write_all(self.errs, line.as_str().as_bytes());
        }
    }

    /// Takes the line away.
    pub(crate) fn clear(&mut self) {
        if self.is_shown {
            let _ = write_all(self.errs, b"\r\x1b[K");
        }
    }
}
