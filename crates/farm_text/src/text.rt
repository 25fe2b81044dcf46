//! The texts of a printed run, piece by piece.
ghost use Rattle.std.specs.Prelude.{◌≡◌, ◌*◌, Some, length};
ghost use Rattle.hex.specs.Hex.{encode_lower};
ghost use Rattle.farm_entries.specs.Printed.{numbers_text, jobs_text, number_text, hex_text, kind_text};
ghost use Rattle.farm_entries.specs.Printed.{age_text, on_text};
ghost use Rattle.farm_entries.specs.Printed.{kept_text, ended_text, reserved_text, advance_text, core_text};
ghost use Rattle.farm_entries.specs.Printed.{core_line, heard_text, ready_text, archive_text, archives_text};
ghost use Rattle.farm_entries.specs.Printed.{ids_text, submitted_text, ran_text, held_text};
ghost use Rattle.farm_entries.specs.Printed.{kept_archive_text};
ghost use Rattle.farm_entries.specs.Printed.{step_text, step_line, call_line, reply_line, word_line};
ghost use Rattle.farm_entries.specs.Printed.{row_text};
ghost use Rattle.farm_entries.specs.Printed.{stage_text, claim_text, job_line};

use build_server::run::Ran;
use build_server::submit::Submitted;
use core_rules::entry::{CoreEntry, CoreKind, Reserved, UpdateAnswer};
use core_rules::rows::{JobRow, ServerRow};
use dist_types::addr::Addr;
use dist_types::ids::JobId;
use dist_types::results::JobState;
use dist_types::toolchain::Toolchain;
use farm_entries::entry::{EntryWord, HeardAs, OutCall, Reply, Step, StepKind};
use farm_script::event::EventKind;
use std::{fmt, str};

/// Numbers joined by commas, or a dash.
#[derive(Drop)]
struct Numbers<'a>(&'a [u64]);

impl fmt::Display for Numbers<'_> {
    ghost output = { λ x. Some (numbers_text x.0.now) };

    fn fmt<W: fmt::Write>(&self, f: &mut fmt::Formatter<W>) -> fmt::Result {
        match self.0.split_first() {
            None => write!(f, "-"),
            Some((first, rest)) => {
                write!(f, "{first}")?;
                for n in rest {
                    write!(f, ",{n}")?;
                }
                Ok(())
            }
        }
    }
}

/// The numbers of jobs, joined by commas, or a dash.
#[derive(Drop)]
struct Jobs<'a>(&'a [JobId]);

impl fmt::Display for Jobs<'_> {
    ghost output = { λ x. Some (jobs_text x.0.now) };

    fn fmt<W: fmt::Write>(&self, f: &mut fmt::Formatter<W>) -> fmt::Result {
        match self.0.split_first() {
            None => write!(f, "-"),
            Some((first, rest)) => {
                write!(f, "{first}")?;
                for job in rest {
                    write!(f, ",{job}")?;
                }
                Ok(())
            }
        }
    }
}

/// A number, or a dash.
#[derive(Drop)]
struct Maybe(Option<u64>);

impl fmt::Display for Maybe {
    ghost output = { λ x. Some (number_text x.0) };

    fn fmt<W: fmt::Write>(&self, f: &mut fmt::Formatter<W>) -> fmt::Result {
        match self.0 {
            Some(n) => write!(f, "{n}"),
            None => write!(f, "-"),
        }
    }
}

/// How many bytes are put into hex at a time.
const HEX_PIECE: usize = 64;

/// The text of bytes in hex, in room of exactly its size.
#[tactic(auto, using(crate::proofs::HexLemmas::hex_is_text))]
fn hex_in<'a>(bytes: &[u8], room: &'a mut [u8]) -> &'a str
    requires { length room.now ≡ 2 * length bytes.now }
    ensures { result.now ≡ encode_lower bytes.now }
{
    match hex::encode_to_slice(bytes, room) {
        Ok(()) => {}
        Err(_) => unreachable!(),
    }
    match str::from_utf8(room) {
        Ok(text) => text,
        Err(_) => unreachable!(),
    }
}

/// Bytes in hex, or a dash for none.
#[derive(Drop)]
struct Hex<'a>(&'a [u8]);

impl fmt::Display for Hex<'_> {
    ghost output = { λ x. Some (hex_text x.0.now) };

    fn fmt<W: fmt::Write>(&self, f: &mut fmt::Formatter<W>) -> fmt::Result {
        if self.0.is_empty() {
            return write!(f, "-");
        }
        let mut room = [0u8; 2 * HEX_PIECE];
        let mut rest = self.0;
        while !rest.is_empty() {
            let size = rest.len().min(HEX_PIECE);
            let (piece, after) = rest.split_at(size);
            let text = hex_in(piece, &mut room[..2 * size]);
            write!(f, "{text}")?;
            rest = after;
        }
        Ok(())
    }
}

/// The line of an event, behind its moment.
#[derive(Drop)]
pub struct Kind<'a>(pub &'a EventKind);

impl fmt::Display for Kind<'_> {
    ghost output = { λ x. Some (kind_text x.0.now) };

    fn fmt<W: fmt::Write>(&self, f: &mut fmt::Formatter<W>) -> fmt::Result {
        match self.0 {
            EventKind::Request {
                target,
                peer,
                bytes,
            } => {
                let hex = Hex(bytes.get());
                write!(f, "request {target} {peer} {hex}")
            }
            EventKind::Deliver { call } => write!(f, "deliver {call}"),
            EventKind::Fail { call } => write!(f, "fail {call}"),
            EventKind::Return { delivery } => write!(f, "return {delivery}"),
            EventKind::Answer { call, bytes } => {
                let hex = Hex(bytes.get());
                write!(f, "answer {call} {hex}")
            }
            EventKind::Beat { server } => write!(f, "beat {server}"),
            EventKind::Restart { server, key, nonce } => {
                let key = Hex(key.get());
                let nonce = nonce.get();
                write!(f, "restart {server} key {key} nonce {nonce}")
            }
        }
    }
}

fn age(is_new: bool) -> &'static str
    ensures { result.now ≡ age_text is_new }
{
    if is_new { "new" } else { "old" }
}

fn on_word(on: bool) -> &'static str
    ensures { result.now ≡ on_text on }
{
    if on { "on" } else { "off" }
}

fn kept_word(kept: bool) -> &'static str
    ensures { result.now ≡ kept_text kept }
{
    if kept { "kept" } else { "dropped" }
}

fn ended_word(ended: bool) -> &'static str
    ensures { result.now ≡ ended_text ended }
{
    if ended { "yes" } else { "no" }
}

/// What became of a reserve.
#[derive(Drop)]
struct ReservedAs<'a>(&'a Reserved);

impl fmt::Display for ReservedAs<'_> {
    ghost output = { λ x. Some (reserved_text x.0.now) };

    fn fmt<W: fmt::Write>(&self, f: &mut fmt::Formatter<W>) -> fmt::Result {
        match self.0 {
            Reserved::Job { job, reg, forgiven } => {
                let forgiven = Numbers(forgiven.get());
                write!(f, "job {job} reg {reg} forgiven {forgiven}")
            }
            Reserved::NoRoom(standing) => write!(f, "none {standing}"),
            Reserved::Spent => write!(f, "spent"),
        }
    }
}

/// The answer to a server's report.
#[derive(Drop)]
struct AnsweredAs(UpdateAnswer);

impl fmt::Display for AnsweredAs {
    ghost output = { λ x. Some (advance_text x.0) };

    fn fmt<W: fmt::Write>(&self, f: &mut fmt::Formatter<W>) -> fmt::Result {
        match self.0 {
            UpdateAnswer::Accepted => write!(f, "accepted"),
            UpdateAnswer::Unknown => write!(f, "unknown"),
            UpdateAnswer::Wrong => write!(f, "wrong"),
            UpdateAnswer::Transition(state) => write!(f, "transition {state}"),
        }
    }
}

/// What a core entry says.
#[derive(Drop)]
struct Core<'a>(&'a CoreKind);

impl fmt::Display for Core<'_> {
    ghost output = { λ x. Some (core_text x.0.now) };

    fn fmt<W: fmt::Write>(&self, f: &mut fmt::Formatter<W>) -> fmt::Result {
        match self.0 {
            CoreKind::Reserve(reserved) => {
                let reserved = ReservedAs(reserved);
                write!(f, "reserve {reserved}")
            }
            CoreKind::Commit { job, state, kept } => {
                let kept = kept_word(*kept);
                write!(f, "commit job {job} state {state} {kept}")
            }
            CoreKind::Undo { job, noted, ended } => {
                let noted = Maybe(*noted);
                let ended = ended_word(*ended);
                write!(f, "undo job {job} noted {noted} ended {ended}")
            }
            CoreKind::Beat {
                server,
                nonce,
                cpus,
                key: _,
                pruned,
                reaped,
                replaced,
                is_new,
            } => {
                let nonce = nonce.get();
                let pruned = Numbers(pruned.get());
                let reaped = Jobs(reaped.get());
                let replaced = Maybe(*replaced);
                let age = age(*is_new);
                write!(
                    f,
                    "beat {server} nonce {nonce} cpus {cpus} pruned {pruned} reaped {reaped} replaced {replaced} {age}"
                )
            }
            CoreKind::Update {
                server,
                job,
                state,
                answer,
            } => {
                let answer = AnsweredAs(*answer);
                write!(f, "update {server} job {job} state {state} {answer}")
            }
            CoreKind::Status {
                pruned,
                servers,
                cpus,
                jobs,
            } => {
                let pruned = Numbers(pruned.get());
                write!(
                    f,
                    "status pruned {pruned} servers {servers} cpus {cpus} jobs {jobs}"
                )
            }
            CoreKind::Drain {
                server,
                nonce,
                on,
                reg,
            } => {
                let nonce = nonce.get();
                let on = on_word(*on);
                let reg = Maybe(*reg);
                write!(f, "drain {server} nonce {nonce} {on} reg {reg}")
            }
        }
    }
}

/// The line of a core entry of that number, if there is one.
#[derive(Drop)]
pub struct CoreLine<'a> {
    pub number: u64,
    pub core: &'a Option<CoreEntry>,
}

impl fmt::Display for CoreLine<'_> {
    ghost output = { λ x. Some (core_line x.number x.core.now) };

    fn fmt<W: fmt::Write>(&self, f: &mut fmt::Formatter<W>) -> fmt::Result {
        match self.core {
            Some(core) => {
                let number = self.number;
                let kind = Core(&core.kind);
                write!(f, "core {number} {kind}\n")
            }
            None => Ok(()),
        }
    }
}

fn heard_word(heard: HeardAs) -> &'static str
    ensures { result.now ≡ heard_text heard }
{
    match heard {
        HeardAs::New => "new",
        HeardAs::Old => "old",
        HeardAs::Lost => "lost",
    }
}

fn ready_word(ready: bool) -> &'static str
    ensures { result.now ≡ ready_text ready }
{
    if ready { "ready" } else { "pending" }
}

/// An archive's id and its size.
#[derive(Drop)]
struct Archive<'a>(&'a (Toolchain, u64));

impl fmt::Display for Archive<'_> {
    ghost output = { λ x. Some (archive_text x.0.now) };

    fn fmt<W: fmt::Write>(&self, f: &mut fmt::Formatter<W>) -> fmt::Result {
        let (tc, size) = self.0;
        let id = tc.archive_id();
        write!(f, "{id}:{size}")
    }
}

/// Archives joined by commas, or a dash.
#[derive(Drop)]
struct Archives<'a>(&'a [(Toolchain, u64)]);

impl fmt::Display for Archives<'_> {
    ghost output = { λ x. Some (archives_text x.0.now) };

    fn fmt<W: fmt::Write>(&self, f: &mut fmt::Formatter<W>) -> fmt::Result {
        match self.0.split_first() {
            None => write!(f, "-"),
            Some((first, rest)) => {
                let first = Archive(first);
                write!(f, "{first}")?;
                for pair in rest {
                    let archive = Archive(pair);
                    write!(f, ",{archive}")?;
                }
                Ok(())
            }
        }
    }
}

/// Ids joined by commas, or a dash.
#[derive(Drop)]
struct Ids<'a>(&'a [Toolchain]);

impl fmt::Display for Ids<'_> {
    ghost output = { λ x. Some (ids_text x.0.now) };

    fn fmt<W: fmt::Write>(&self, f: &mut fmt::Formatter<W>) -> fmt::Result {
        match self.0.split_first() {
            None => write!(f, "-"),
            Some((first, rest)) => {
                let first = first.archive_id();
                write!(f, "{first}")?;
                for tc in rest {
                    let id = tc.archive_id();
                    write!(f, ",{id}")?;
                }
                Ok(())
            }
        }
    }
}

/// How a submission went.
#[derive(Drop)]
struct SubmittedAs<'a>(&'a Submitted);

impl fmt::Display for SubmittedAs<'_> {
    ghost output = { λ x. Some (submitted_text x.0.now) };

    fn fmt<W: fmt::Write>(&self, f: &mut fmt::Formatter<W>) -> fmt::Result {
        match self.0 {
            Submitted::None => write!(f, "none"),
            Submitted::Listed => write!(f, "listed"),
            Submitted::Stored(size, dropped) => {
                let dropped = Ids(dropped.get());
                write!(f, "stored {size} dropped {dropped}")
            }
            Submitted::Digest => write!(f, "refused digest"),
            Submitted::Capacity => write!(f, "refused capacity"),
            Submitted::Folder(dropped) => {
                let dropped = Ids(dropped.get());
                write!(f, "refused folder dropped {dropped}")
            }
        }
    }
}

/// How a run went.
#[derive(Drop)]
struct RanAs(Ran);

impl fmt::Display for RanAs {
    ghost output = { λ x. Some (ran_text x.0) };

    fn fmt<W: fmt::Write>(&self, f: &mut fmt::Formatter<W>) -> fmt::Result {
        match &self.0 {
            Ran::None => write!(f, "none"),
            Ran::Unlisted(tc) => {
                let id = tc.archive_id();
                write!(f, "unlisted {id}")
            }
            Ran::Folder(tc) => {
                let id = tc.archive_id();
                write!(f, "folder {id}")
            }
            Ran::Built(tc) => {
                let id = tc.archive_id();
                write!(f, "built {id}")
            }
            Ran::Refused(tc) => {
                let id = tc.archive_id();
                write!(f, "refused {id}")
            }
        }
    }
}

/// The line of a job that a server holds.
#[derive(Drop)]
pub struct HeldLine {
    pub addr: Addr,
    pub job: JobId,
    pub tc: Toolchain,
}

impl fmt::Display for HeldLine {
    ghost output = { λ x. Some (held_text x.addr (x.job, x.tc)) };

    fn fmt<W: fmt::Write>(&self, f: &mut fmt::Formatter<W>) -> fmt::Result {
        let addr = self.addr;
        let job = self.job;
        let id = self.tc.archive_id();
        write!(f, "held {addr} {job} {id}\n")
    }
}

/// The line of a server's archive.
#[derive(Drop)]
pub struct ArchiveLine {
    pub addr: Addr,
    pub tc: Toolchain,
    pub size: u64,
}

impl fmt::Display for ArchiveLine {
    ghost output = { λ x. Some (kept_archive_text x.addr (x.tc, x.size)) };

    fn fmt<W: fmt::Write>(&self, f: &mut fmt::Formatter<W>) -> fmt::Result {
        let addr = self.addr;
        let id = self.tc.archive_id();
        let size = self.size;
        write!(f, "archive {addr} {id} {size}\n")
    }
}

/// What a build server did.
#[derive(Drop)]
struct Did<'a>(&'a StepKind);

impl fmt::Display for Did<'_> {
    ghost output = { λ x. Some (step_text x.0.now) };

    fn fmt<W: fmt::Write>(&self, f: &mut fmt::Formatter<W>) -> fmt::Result {
        match self.0 {
            StepKind::Heard(heard) => {
                let heard = heard_word(*heard);
                write!(f, "heard {heard}")
            }
            StepKind::Assigned { job, tc, ready } => {
                let id = tc.archive_id();
                let ready = ready_word(*ready);
                write!(f, "assigned {job} {id} {ready}")
            }
            StepKind::Submitted { job, outcome } => {
                let outcome = SubmittedAs(outcome);
                write!(f, "submitted {job} {outcome}")
            }
            StepKind::Ran {
                job,
                ran,
                result: _,
            } => {
                let ran = RanAs(*ran);
                write!(f, "ran {job} {ran}")
            }
            StepKind::Finished { job } => write!(f, "finished {job}"),
            StepKind::Unreported { job } => write!(f, "unreported {job}"),
            StepKind::Opened(archives) => {
                let archives = Archives(archives.get());
                write!(f, "opened {archives}")
            }
        }
    }
}

/// The line of a step, if there is one.
#[derive(Drop)]
pub struct StepLine<'a>(pub &'a Option<Step>);

impl fmt::Display for StepLine<'_> {
    ghost output = { λ x. Some (step_line x.0.now) };

    fn fmt<W: fmt::Write>(&self, f: &mut fmt::Formatter<W>) -> fmt::Result {
        match self.0 {
            Some(step) => {
                let server = step.server;
                let did = Did(&step.kind);
                write!(f, "step {server} {did}\n")
            }
            None => Ok(()),
        }
    }
}

/// The line of an outgoing call, if there is one.
#[derive(Drop)]
pub struct CallLine<'a>(pub &'a Option<OutCall>);

impl fmt::Display for CallLine<'_> {
    ghost output = { λ x. Some (call_line x.0.now) };

    fn fmt<W: fmt::Write>(&self, f: &mut fmt::Formatter<W>) -> fmt::Result {
        match self.0 {
            Some(call) => {
                let target = call.target;
                let hex = Hex(call.bytes.get());
                write!(f, "call {target} {hex}\n")
            }
            None => Ok(()),
        }
    }
}

/// The line of a reply, if there is one.
#[derive(Drop)]
pub struct ReplyLine<'a>(pub &'a Option<Reply>);

impl fmt::Display for ReplyLine<'_> {
    ghost output = { λ x. Some (reply_line x.0.now) };

    fn fmt<W: fmt::Write>(&self, f: &mut fmt::Formatter<W>) -> fmt::Result {
        match self.0 {
            Some(reply) => {
                let to = reply.to;
                let hex = Hex(reply.bytes.get());
                write!(f, "reply {to} {hex}\n")
            }
            None => Ok(()),
        }
    }
}

/// The line of a word, if there is one.
#[derive(Drop)]
pub struct WordLine(pub Option<EntryWord>);

impl fmt::Display for WordLine {
    ghost output = { λ x. Some (word_line x.0) };

    fn fmt<W: fmt::Write>(&self, f: &mut fmt::Formatter<W>) -> fmt::Result {
        match self.0 {
            None => Ok(()),
            Some(EntryWord::Void) => write!(f, "word void\n"),
            Some(EntryWord::Down) => write!(f, "word down\n"),
            Some(EntryWord::Waiting) => write!(f, "word waiting\n"),
            Some(EntryWord::Died) => write!(f, "word died\n"),
        }
    }
}

/// The line of a registration that stands.
#[derive(Drop)]
pub struct RowLine(pub ServerRow);

impl fmt::Display for RowLine {
    ghost output = { λ x. Some (row_text x.0) };

    fn fmt<W: fmt::Write>(&self, f: &mut fmt::Formatter<W>) -> fmt::Result {
        let row = &self.0;
        let server = row.server;
        let reg = row.reg;
        let cpus = row.cpus;
        let nonce = row.nonce.get();
        let seen = row.seen;
        let load = row.load;
        let error = Maybe(row.error);
        write!(
            f,
            "server {server} reg {reg} cpus {cpus} nonce {nonce} seen {seen} load {load} error {error}\n"
        )
    }
}

/// How far the job of a reservation is.
#[derive(Drop)]
struct Stage(Option<JobState>);

impl fmt::Display for Stage {
    ghost output = { λ x. Some (stage_text x.0) };

    fn fmt<W: fmt::Write>(&self, f: &mut fmt::Formatter<W>) -> fmt::Result {
        match self.0 {
            Some(state) => write!(f, "{state}"),
            None => write!(f, "reserved"),
        }
    }
}

fn claim_word(claimed: bool) -> &'static str
    ensures { result.now ≡ claim_text claimed }
{
    if claimed { "claimed" } else { "unclaimed" }
}

/// The line of a reservation that is unended.
#[derive(Drop)]
pub struct JobLine(pub JobRow);

impl fmt::Display for JobLine {
    ghost output = { λ x. Some (job_line x.0.job x.0.reg x.0.state x.0.claimed) };

    fn fmt<W: fmt::Write>(&self, f: &mut fmt::Formatter<W>) -> fmt::Result {
        let row = &self.0;
        let job = row.job;
        let reg = row.reg;
        let stage = Stage(row.state);
        let claim = claim_word(row.claimed);
        write!(f, "job {job} reg {reg} {stage} {claim}\n")
    }
}
