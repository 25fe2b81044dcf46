//! The order of the lines of a printed run.
ghost use Rattle.std.specs.Prelude.{◌≡◌};
ghost use Rattle.audit.specs.Order.{at_top, entry_behind, part_behind, books_behind, ids_behind};
ghost use Rattle.audit.specs.Order.{server_behind, job_behind, store_behind, end_behind, next, is_over};

use run_lines::line::RunLine;

/// Where a text is, by its last line.
#[derive(Clone, Copy, Debug, PartialEq, Eq)]
pub enum Place {
    /// At its beginning.
    Top,
    /// Among the lines of entries, behind that part of one: 0 the event, 1 its core entry, 2 its step, 3 its
    /// call, 4 its reply, 5 its word; 6 where no entry stands yet.
    Entries(u64),
    /// Where the ids are due.
    Ids,
    /// Among the registrations.
    Servers,
    /// Among the jobs.
    Jobs,
    /// Among what the build servers hold and keep.
    Stores,
    /// Behind the last line.
    Over,
}

fn at_top(place: Place) -> Option<Place>
    ensures { result ≡ at_top place }
{
    match place {
        Place::Top => Some(Place::Entries(6)),
        Place::Entries(_) => None,
        Place::Ids => None,
        Place::Servers => None,
        Place::Jobs => None,
        Place::Stores => None,
        Place::Over => None,
    }
}

fn entry_behind(place: Place, seen: u64, number: u64) -> Option<Place>
    ensures { result ≡ entry_behind place seen number }
{
    match place {
        Place::Top => None,
        Place::Entries(_) => {
            if number == seen {
                Some(Place::Entries(0))
            } else {
                None
            }
        }
        Place::Ids => None,
        Place::Servers => None,
        Place::Jobs => None,
        Place::Stores => None,
        Place::Over => None,
    }
}

fn part_behind(place: Place, part: u64) -> Option<Place>
    ensures { result ≡ part_behind place part }
{
    match place {
        Place::Top => None,
        Place::Entries(last) => {
            if last < part {
                Some(Place::Entries(part))
            } else {
                None
            }
        }
        Place::Ids => None,
        Place::Servers => None,
        Place::Jobs => None,
        Place::Stores => None,
        Place::Over => None,
    }
}

fn books_behind(place: Place) -> Option<Place>
    ensures { result ≡ books_behind place }
{
    match place {
        Place::Top => None,
        Place::Entries(_) => Some(Place::Ids),
        Place::Ids => None,
        Place::Servers => None,
        Place::Jobs => None,
        Place::Stores => None,
        Place::Over => None,
    }
}

fn ids_behind(place: Place) -> Option<Place>
    ensures { result ≡ ids_behind place }
{
    match place {
        Place::Top => None,
        Place::Entries(_) => None,
        Place::Ids => Some(Place::Servers),
        Place::Servers => None,
        Place::Jobs => None,
        Place::Stores => None,
        Place::Over => None,
    }
}

fn server_behind(place: Place) -> Option<Place>
    ensures { result ≡ server_behind place }
{
    match place {
        Place::Top => None,
        Place::Entries(_) => None,
        Place::Ids => None,
        Place::Servers => Some(Place::Servers),
        Place::Jobs => None,
        Place::Stores => None,
        Place::Over => None,
    }
}

fn job_behind(place: Place) -> Option<Place>
    ensures { result ≡ job_behind place }
{
    match place {
        Place::Top => None,
        Place::Entries(_) => None,
        Place::Ids => None,
        Place::Servers => Some(Place::Jobs),
        Place::Jobs => Some(Place::Jobs),
        Place::Stores => None,
        Place::Over => None,
    }
}

fn store_behind(place: Place) -> Option<Place>
    ensures { result ≡ store_behind place }
{
    match place {
        Place::Top => None,
        Place::Entries(_) => None,
        Place::Ids => None,
        Place::Servers => Some(Place::Stores),
        Place::Jobs => Some(Place::Stores),
        Place::Stores => Some(Place::Stores),
        Place::Over => None,
    }
}

fn end_behind(place: Place) -> Option<Place>
    ensures { result ≡ end_behind place }
{
    match place {
        Place::Top => None,
        Place::Entries(_) => None,
        Place::Ids => None,
        Place::Servers => Some(Place::Over),
        Place::Jobs => Some(Place::Over),
        Place::Stores => Some(Place::Over),
        Place::Over => None,
    }
}

/// Where the text is behind a line more, if the line may stand there.
pub fn next(place: Place, seen: u64, line: &RunLine) -> Option<Place>
    ensures { result ≡ next place seen line.now }
{
    match line {
        RunLine::Run(_, _) => at_top(place),
        RunLine::Entry(number, _) => entry_behind(place, seen, *number),
        RunLine::Core(_, _) => part_behind(place, 1),
        RunLine::Step(_, _) => part_behind(place, 2),
        RunLine::Call(_, _) => part_behind(place, 3),
        RunLine::Reply(_, _) => part_behind(place, 4),
        RunLine::Word(_) => part_behind(place, 5),
        RunLine::Books => books_behind(place),
        RunLine::Ids(_, _) => ids_behind(place),
        RunLine::Server(_) => server_behind(place),
        RunLine::Job(_, _, _, _) => job_behind(place),
        RunLine::Held(_, _, _) => store_behind(place),
        RunLine::Archive(_, _, _) => store_behind(place),
        RunLine::End => end_behind(place),
    }
}

/// Whether the text is behind its last line.
pub fn is_over(place: Place) -> bool
    ensures { result ≡ is_over place }
{
    match place {
        Place::Top => false,
        Place::Entries(_) => false,
        Place::Ids => false,
        Place::Servers => false,
        Place::Jobs => false,
        Place::Stores => false,
        Place::Over => true,
    }
}
