//! Each row is judged.
use crate::runs::{ONE, TWO};
use crate::{books, entries, grammar};
use audit::audit::audit;
use audit::verdict::{Verdict, Why};
use std::alloc::{AllocError, Global};
use std::process::Abort;

/// A run that holds.
#[derive(Clone, Copy, Debug)]
pub(crate) enum Run {
    One,
    Two,
}

/// A run in which some lines are others.
pub(crate) struct Row {
    /// What it shows.
    pub(crate) shows: &'static str,
    pub(crate) run: Run,
    /// The number of the first line that is another.
    pub(crate) at: usize,
    /// How many lines are left out from there on.
    pub(crate) out: usize,
    /// The lines that stand there.
    pub(crate) put: &'static [&'static str],
    /// The line and the cause of the refusal, if it is refused.
    pub(crate) says: Option<(u64, Why)>,
}

fn lines_of(run: Run) -> &'static [&'static str] {
    match run {
        Run::One => ONE,
        Run::Two => TWO,
    }
}

fn push_line(text: &mut String, line: &str) -> Result<(), AllocError> {
    text.push_str(line)?;
    text.push_str("\n")?;
    Ok(())
}

fn push_lines(text: &mut String, lines: &[&str]) -> Result<(), AllocError> {
    for line in lines {
        push_line(text, line)?;
    }
    Ok(())
}

fn text_of(alloc: Global, row: &Row) -> Result<String, AllocError> {
    let end = row.at.saturating_add(row.out);
    let mut text = String::new(alloc);
    let mut number = 1usize;
    for line in lines_of(row.run) {
        if number == row.at {
            push_lines(&mut text, row.put)?;
        }
        if number < row.at || end <= number {
            push_line(&mut text, line)?;
        }
        number = number.saturating_add(1);
    }
    if number <= row.at {
        push_lines(&mut text, row.put)?;
    }
    Ok(text)
}

/// The line and the cause of a refusal, if it is one; 0 for want of memory.
fn told(alloc: Global, row: &Row) -> Option<(u64, Why)> {
    let Ok(text) = text_of(alloc, row) else {
        return Some((0, Why::Text));
    };
    match audit(alloc, text.as_bytes()) {
        Ok(Verdict::Holds) => None,
        Ok(Verdict::Refused(line, why)) => Some((line, why)),
        Err(_) => Some((0, Why::Text)),
    }
}

fn judge(rt: &impl Abort, alloc: Global, rows: &[Row]) {
    for row in rows {
        let answer = told(alloc, row);
        assert_eq!(rt; answer, row.says, "{}", row.shows);
    }
}

#[test]
fn tells_lines_outside_the_grammar(rt: HostRuntime) {
    judge(&rt, rt.alloc(), grammar::ROWS);
}

#[test]
fn tells_wrong_core_entries_and_builds(rt: HostRuntime) {
    judge(&rt, rt.alloc(), entries::ROWS);
}

#[test]
fn tells_wrong_books(rt: HostRuntime) {
    judge(&rt, rt.alloc(), books::ROWS);
}
