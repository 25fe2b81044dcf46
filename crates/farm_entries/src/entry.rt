//! What an event did.
ghost use Rattle.std.specs.Prelude.{◌≡◌, Some};
ghost use Rattle.farm_entries.specs.Effects.{word_effect, reply_effect, call_effect, step_effect};
ghost use Rattle.farm_entries.specs.Effects.{step_reply_effect, step_call_effect, entry_of};

use build_server::run::Ran;
use build_server::submit::Submitted;
use core_rules::entry::CoreEntry;
use dist_types::addr::Addr;
use dist_types::ids::JobId;
use dist_types::results::BuildResult;
use dist_types::text::{Bytes, Items};
use dist_types::toolchain::Toolchain;
use farm_script::event::Event;

/// How a heartbeat's call was settled.
#[derive(Clone, Copy, Debug, PartialEq, Eq)]
pub enum HeardAs {
    /// It made a registration.
    New,
    /// It renewed one.
    Old,
    /// No reply came.
    Lost,
}

/// What a build server did.
#[derive(Debug, Drop)]
pub enum StepKind {
    /// Its heartbeat was settled.
    Heard(HeardAs),
    /// A job was assigned; ready where the archive of its toolchain is there.
    Assigned {
        job: JobId,
        tc: Toolchain,
        ready: bool,
    },
    /// A toolchain's archive was submitted under a job.
    Submitted {
        job: JobId,
        outcome: Submitted,
    },
    /// A job was run. The result stands exactly where it was built.
    Ran {
        job: JobId,
        ran: Ran,
        result: Option<BuildResult>,
    },
    /// A build was reported as complete.
    Finished {
        job: JobId,
    },
    /// A report on a job was not accepted.
    Unreported {
        job: JobId,
    },
    /// It opened its cache, with these archives and their sizes in bytes, least recent first.
    Opened(Items<(Toolchain, u64)>),
}

/// A step of a build server.
#[derive(Debug, Drop)]
pub struct Step {
    pub server: Addr,
    pub kind: StepKind,
}

/// A request that went out of the scheduler or of a build server.
#[derive(Debug, Drop)]
pub struct OutCall {
    pub target: Addr,
    pub bytes: Bytes,
}

/// A reply.
#[derive(Debug, Drop)]
pub struct Reply {
    /// The number of the entry that is answered.
    pub to: u64,
    pub bytes: Bytes,
}

/// What an entry says beside its lines.
#[derive(Clone, Copy, Debug, PartialEq, Eq)]
pub enum EntryWord {
    /// There was nothing to do.
    Void,
    /// Nobody listens at the address.
    Down,
    /// A call was made, and its reply is waited for.
    Waiting,
    /// Who had asked is gone.
    Died,
}

/// What an event did, without the event.
#[derive(Debug, Drop)]
pub struct Effect {
    pub core: Option<CoreEntry>,
    pub step: Option<Step>,
    pub call: Option<OutCall>,
    pub reply: Option<Reply>,
    pub word: Option<EntryWord>,
}

/// An event, and what it did.
#[derive(Debug, Drop)]
pub struct Entry {
    pub event: Event,
    pub core: Option<CoreEntry>,
    pub step: Option<Step>,
    pub call: Option<OutCall>,
    pub reply: Option<Reply>,
    pub word: Option<EntryWord>,
}

impl Effect {
    /// A word alone.
    #[inline(always)]
    pub fn of_word(word: EntryWord) -> Self
        ensures { result ≡ word_effect word }
    {
        Effect {
            core: None,
            step: None,
            call: None,
            reply: None,
            word: Some(word),
        }
    }

    /// A reply at once.
    #[inline(always)]
    pub fn of_reply(core: Option<CoreEntry>, reply: Reply) -> Self
        ensures { result ≡ reply_effect core reply }
    {
        Effect {
            core,
            step: None,
            call: None,
            reply: Some(reply),
            word: None,
        }
    }

    /// A step of the server at that address alone.
    #[inline(always)]
    pub fn of_step(server: Addr, kind: StepKind) -> Self
        ensures { result ≡ step_effect server kind }
    {
        Effect {
            core: None,
            step: Some(Step { server, kind }),
            call: None,
            reply: None,
            word: None,
        }
    }

    /// A step of it, and a reply.
    #[inline(always)]
    pub fn of_step_reply(server: Addr, kind: StepKind, reply: Reply) -> Self
        ensures { result ≡ step_reply_effect server kind reply }
    {
        Effect {
            core: None,
            step: Some(Step { server, kind }),
            call: None,
            reply: Some(reply),
            word: None,
        }
    }

    /// A step of it, and a call, whose settlement is waited for.
    #[inline(always)]
    pub fn of_step_call(server: Addr, kind: StepKind, call: OutCall) -> Self
        ensures { result ≡ step_call_effect server kind call }
    {
        Effect {
            core: None,
            step: Some(Step { server, kind }),
            call: Some(call),
            reply: None,
            word: Some(EntryWord::Waiting),
        }
    }

    /// A call, whose settlement is waited for.
    #[inline(always)]
    pub fn of_call(core: Option<CoreEntry>, call: OutCall) -> Self
        ensures { result ≡ call_effect core (Some call) }
    {
        Effect {
            core,
            step: None,
            call: Some(call),
            reply: None,
            word: Some(EntryWord::Waiting),
        }
    }
}

impl Entry {
    /// The entry of an event that did this.
    #[inline(always)]
    pub fn new(event: Event, effect: Effect) -> Self
        ensures { result ≡ entry_of event effect }
    {
        let Effect {
            core,
            step,
            call,
            reply,
            word,
        } = effect;
        Entry {
            event,
            core,
            step,
            call,
            reply,
            word,
        }
    }
}
