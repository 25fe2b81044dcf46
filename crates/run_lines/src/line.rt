//! What a line of a printed run says.
use core_rules::entry::CoreKind;
use core_rules::rows::ServerRow;
use dist_types::addr::Addr;
use dist_types::ids::JobId;
use dist_types::results::JobState;
use dist_types::text::Bytes;
use dist_types::toolchain::Toolchain;
use farm_entries::entry::{EntryWord, StepKind};
use farm_script::event::Event;

/// A line, without its end.
#[derive(Debug, Drop)]
pub enum RunLine {
    /// The version of the rules, and how many entries there are.
    Run(u64, u64),
    /// The number of an entry, and its event.
    Entry(u64, Event),
    /// The number of a core entry, and what it says. A heartbeat has no key there.
    Core(u64, CoreKind),
    /// A step of the build server at an address. A run has no result there.
    Step(Addr, StepKind),
    /// A call to an address, with its bytes.
    Call(Addr, Bytes),
    /// A reply to the entry of a number, with its bytes.
    Reply(u64, Bytes),
    /// A word.
    Word(EntryWord),
    /// The books follow.
    Books,
    /// The id base and how many ids were given.
    Ids(u64, u64),
    /// A registration that stands; none is draining there.
    Server(ServerRow),
    /// A reservation that is unended: its job, its registration, how far it is, whether it is claimed.
    Job(JobId, u64, Option<JobState>, bool),
    /// A job that the build server at an address holds, and its toolchain.
    Held(Addr, JobId, Toolchain),
    /// An archive of the build server at an address, and its size in bytes.
    Archive(Addr, Toolchain, u64),
    /// The last line.
    End,
}
