//! Judges the books.
ghost use Rattle.std.specs.Prelude.{◌≡◌, ◌++◌, IfOk, OnOk, map, length};
ghost use Rattle.core_rules.specs.Same.{same_state};
ghost use Rattle.std.specs.Option.{option_eq};
ghost use Rattle.audit.specs.Books.{stood, job_book, due_books, same_row, same_book, first_wrong, IsAtMost};
ghost use Rattle.audit.specs.declared.mark.Book.TheVariants as book;

use crate::mark::Book;
use crate::tokens::EmptyTokens;
use dist_types::results::JobState;
use sched_core::rows::{Jobs, ServerRow, Servers};
use sched_core::state::SchedState;
use std::alloc::{AllocError, Global};

/// The line of a registration.
fn stood(row: ServerRow) -> Book
    ensures { result ≡ stood row }
{
    Book::Server(ServerRow {
        reg: row.reg,
        server: row.server,
        cpus: row.cpus,
        nonce: row.nonce,
        seen: row.seen,
        load: row.load,
        error: row.error,
        draining: false,
    })
}

fn push_servers(books: &mut Vec<Book>, rows: Servers<'_>) -> Result<(), AllocError>
    ensures { OnOk result (books.new.items ≡ books.old.items ++ map stood rows.entry) }
{
    for row in rows {
        let book = stood(row);
        books.push(book)?;
    }
    Ok(())
}

fn push_jobs(books: &mut Vec<Book>, rows: Jobs<'_>) -> Result<(), AllocError>
    ensures { OnOk result (books.new.items ≡ books.old.items ++ map job_book rows.entry) }
{
    for row in rows {
        books.push(Book::Job(row.job, row.reg, row.state, row.claimed))?;
    }
    Ok(())
}

/// The lines that the entries give.
#[tactic(auto, using(crate::proofs::BookLemmas::jobs_are_booked))]
pub fn due_books(alloc: Global, state: &SchedState<EmptyTokens>) -> Result<Vec<Book>, AllocError>
    ensures { IfOk result (λ books. books.items ≡ due_books state.now.log) }
{
    let mut books = Vec::new(alloc);
    push_servers(&mut books, state.servers())?;
    push_jobs(&mut books, state.jobs())?;
    Ok(books)
}

fn same_row(a: &ServerRow, b: &ServerRow) -> bool
    ensures { result ≡ same_row a.now b.now }
{
    a.server == b.server
        && a.reg == b.reg
        && a.cpus == b.cpus
        && a.nonce.get() == b.nonce.get()
        && a.seen == b.seen
        && a.load == b.load
        && a.error == b.error
        && a.draining == b.draining
}

fn same_state(a: JobState, b: JobState) -> bool
    ensures { result ≡ same_state a b }
{
    match a {
        JobState::Pending => matches!(b, JobState::Pending),
        JobState::Ready => matches!(b, JobState::Ready),
        JobState::Started => matches!(b, JobState::Started),
        JobState::Complete => matches!(b, JobState::Complete),
    }
}

fn same_stage(a: Option<JobState>, b: Option<JobState>) -> bool
    ensures { result ≡ option_eq same_state a b }
{
    match (a, b) {
        (None, None) => true,
        (Some(a), Some(b)) => same_state(a, b),
        _ => false,
    }
}

fn same_book(a: &Book, b: &Book) -> bool
    ensures { result ≡ same_book a.now b.now }
{
    match (a, b) {
        (Book::Server(a), Book::Server(b)) => same_row(a, b),
        (Book::Job(job, reg, state, claimed), Book::Job(j, r, s, c)) => {
            job.0 == j.0 && *reg == *r && same_stage(*state, *s) && *claimed == *c
        }
        _ => false,
    }
}

/// The place of the first line that is not the one that is due there.
pub fn first_wrong(printed: &[Book], due: &[Book]) -> Option<usize>
    ensures exact { result ≡ first_wrong printed.now due.now }
    ensures within { IsAtMost result (length printed.now) }
{
    let both = printed.len().min(due.len());
    for i in 0..both {
        if !same_book(&printed[i], &due[i]) {
            return Some(i);
        }
    }
    if printed.len() == due.len() {
        None
    } else {
        Some(both)
    }
}
