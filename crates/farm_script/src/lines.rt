//! What a line of a script says.
ghost use Rattle.std.specs.Prelude.{◌≡◌};
ghost use Rattle.std.specs.Option.{option_map};
ghost use Rattle.farm_script.specs.Reading.{IsLineAnswer};
ghost use Rattle.farm_script.specs.Lines.{auth_at, scheduler_at, server_at, output_at, outputs_behind};
ghost use Rattle.farm_script.specs.Lines.{listed_at, answer_line_at, builder_at, request_at, answer_at};
ghost use Rattle.farm_script.specs.Lines.{restart_at, kind_behind, kind_at, event_at, said_at, line_at};

use crate::event::{Event, EventKind};
use crate::fields::{
    addr_field, code_field, hex, hex_field, host, host_field, key, key_field, name, number,
    number_field, token, token_field,
};
use crate::setup::{BuilderLine, SetupAuth, SetupScheduler, SetupServer};
use crate::words::{first_word, next_word, strip};
use dist_types::addr::Addr;
use dist_types::ids::ServerNonce;
use dist_types::text::{Bytes, Items, Text};
use line_program::fault::LineFault;
use std::alloc::Global;

/// Whether an address of a line may have a scope.
#[derive(Clone, Copy, Debug, PartialEq, Eq)]
pub enum Scopes {
    /// Such a line is not read.
    Refused,
    /// The line is read, with `0.0.0.0:0` in the address's place.
    Taken,
}

/// What a line says of how the farm is set up.
#[derive(Debug, Drop)]
pub enum SetupLine {
    /// That the farm goes by version 2 of the rules.
    Version2,
    /// What the scheduler is.
    Scheduler(SetupScheduler),
    /// A build server, whose builder has no answers yet.
    Server(SetupServer),
    /// The next answer of the builder of the server at an address.
    Builder(Addr, BuilderLine),
}

/// What a line says.
#[derive(Debug, Drop)]
pub enum Line {
    /// Nothing.
    Skip,
    /// How the farm is set up.
    Setup(SetupLine),
    /// What happens.
    Event(Event),
}

/// How build servers prove who they are.
#[tactic(auto, unfolding(crate::specs::Lines::auth_at))]
fn auth(alloc: Global, text: &[u8]) -> Result<SetupAuth, LineFault>
    ensures { IsLineAnswer (λ x. x) result (auth_at text.now) }
{
    match text.strip_prefix(b"plain ".as_slice()) {
        Some(rest) => {
            let token = token(alloc, rest)?;
            Ok(SetupAuth::Plain(token))
        }
        None => {
            let rest = strip(text, b"jwt ")?;
            let key = key(alloc, rest)?;
            Ok(SetupAuth::Jwt(key))
        }
    }
}

/// What stands behind the word `scheduler`.
#[tactic(auto, unfolding(crate::specs::Lines::scheduler_at))]
fn scheduler(alloc: Global, scopes: Scopes, text: &[u8]) -> Result<SetupScheduler, LineFault>
    ensures { IsLineAnswer (λ x. x) result (scheduler_at scopes text.now) }
{
    let (addr, rest) = host_field(scopes, text)?;
    let rest = strip(rest, b"base ")?;
    let (base, rest) = number_field(rest)?;
    let rest = strip(rest, b"count ")?;
    let (count, rest) = number_field(rest)?;
    let rest = strip(rest, b"client ")?;
    let (client, rest) = token_field(alloc, rest)?;
    let auth = auth(alloc, rest)?;
    Ok(SetupScheduler {
        addr,
        base,
        count,
        client,
        auth,
    })
}

/// What stands behind the word `server`.
#[tactic(auto, unfolding(crate::specs::Lines::server_at))]
fn server(alloc: Global, scopes: Scopes, text: &[u8]) -> Result<SetupServer, LineFault>
    ensures { IsLineAnswer (λ x. x) result (server_at scopes text.now) }
{
    let (addr, rest) = host_field(scopes, text)?;
    let rest = strip(rest, b"cpus ")?;
    let (cpus, rest) = number_field(rest)?;
    let rest = strip(rest, b"nonce ")?;
    let (nonce, rest) = number_field(rest)?;
    let rest = strip(rest, b"key ")?;
    let (key, rest) = key_field(alloc, rest)?;
    let rest = strip(rest, b"capacity ")?;
    let capacity = number(rest)?;
    Ok(SetupServer {
        addr,
        cpus,
        nonce: ServerNonce::new(nonce),
        key,
        capacity,
        builder: Items::new(Vec::new(alloc)),
    })
}

/// The name and the bytes of an output, and what stands behind the space behind them, where there is one.
#[tactic(auto, unfolding(crate::specs::Lines::output_at))]
fn output(alloc: Global, text: &[u8]) -> Result<((Text, Bytes), Option<&[u8]>), LineFault>
    ensures { IsLineAnswer (λ x. (x.0, option_map (λ rest. rest.now) x.1)) result (output_at text.now) }
{
    let (word, rest) = first_word(text)?;
    let name = name(alloc, word)?;
    let (word, rest) = next_word(rest);
    let bytes = hex(alloc, word)?;
    Ok(((name, bytes), rest))
}

/// The outputs that stand behind a space, where there is one.
fn outputs(alloc: Global, behind: Option<&[u8]>) -> Result<Vec<(Text, Bytes)>, LineFault>
    ensures { IsLineAnswer (λ x. x.items) result
        (outputs_behind (option_map (λ rest. rest.now) behind.entry)) }
{
    let mut outputs = Vec::new(alloc);
    let mut left = behind;
    while let Some(text) = left {
        match output(alloc, text) {
            Ok((output, rest)) => match outputs.push(output) {
                Ok(()) => left = rest,
                Err(_) => return Err(LineFault::Memory),
            },
            Err(fault) => return Err(fault),
        }
    }
    Ok(outputs)
}

/// What stands behind the word `ok`.
#[tactic(auto, unfolding(crate::specs::Lines::listed_at))]
fn listed(alloc: Global, text: &[u8]) -> Result<BuilderLine, LineFault>
    ensures { IsLineAnswer (λ x. x) result (listed_at text.now) }
{
    let (code, rest) = code_field(text)?;
    let (stdout, rest) = hex_field(alloc, rest)?;
    let (word, rest) = next_word(rest);
    let stderr = hex(alloc, word)?;
    let outputs = outputs(alloc, rest)?;
    Ok(BuilderLine::Listed {
        code,
        stdout,
        stderr,
        outputs: Items::new(outputs),
    })
}

/// An answer of a builder.
#[tactic(auto, unfolding(crate::specs::Lines::answer_line_at))]
fn answer_line(alloc: Global, text: &[u8]) -> Result<BuilderLine, LineFault>
    ensures { IsLineAnswer (λ x. x) result (answer_line_at text.now) }
{
    if text == b"refuse".as_slice() {
        return Ok(BuilderLine::Refuse);
    }
    let rest = strip(text, b"ok ")?;
    listed(alloc, rest)
}

/// What stands behind the word `builder`. Its address has no scope, since it names an earlier server.
#[tactic(auto, unfolding(crate::specs::Lines::builder_at))]
fn builder(alloc: Global, text: &[u8]) -> Result<SetupLine, LineFault>
    ensures { IsLineAnswer (λ x. x) result (builder_at text.now) }
{
    let (addr, rest) = addr_field(text)?;
    let answer = answer_line(alloc, rest)?;
    Ok(SetupLine::Builder(addr, answer))
}

/// What stands behind the word `request`.
#[tactic(auto, unfolding(crate::specs::Lines::request_at))]
fn request(alloc: Global, scopes: Scopes, text: &[u8]) -> Result<EventKind, LineFault>
    ensures { IsLineAnswer (λ x. x) result (request_at scopes text.now) }
{
    let (target, rest) = host_field(scopes, text)?;
    let (peer, rest) = host_field(scopes, rest)?;
    let bytes = hex(alloc, rest)?;
    Ok(EventKind::Request {
        target,
        peer,
        bytes,
    })
}

/// What stands behind the word `answer`.
#[tactic(auto, unfolding(crate::specs::Lines::answer_at))]
fn answer(alloc: Global, text: &[u8]) -> Result<EventKind, LineFault>
    ensures { IsLineAnswer (λ x. x) result (answer_at text.now) }
{
    let (call, rest) = number_field(text)?;
    let bytes = hex(alloc, rest)?;
    Ok(EventKind::Answer { call, bytes })
}

/// What stands behind the word `restart`.
#[tactic(auto, unfolding(crate::specs::Lines::restart_at))]
fn restart(alloc: Global, scopes: Scopes, text: &[u8]) -> Result<EventKind, LineFault>
    ensures { IsLineAnswer (λ x. x) result (restart_at scopes text.now) }
{
    let (server, rest) = host_field(scopes, text)?;
    let rest = strip(rest, b"key ")?;
    let (key, rest) = key_field(alloc, rest)?;
    let rest = strip(rest, b"nonce ")?;
    let nonce = number(rest)?;
    Ok(EventKind::Restart {
        server,
        key,
        nonce: ServerNonce::new(nonce),
    })
}

/// What stands behind the word of an event.
fn kind_behind(
    alloc: Global,
    scopes: Scopes,
    word: &[u8],
    text: &[u8],
) -> Result<EventKind, LineFault>
    ensures { IsLineAnswer (λ x. x) result (kind_behind scopes word.now text.now) }
{
    if word == b"request".as_slice() {
        return request(alloc, scopes, text);
    }
    if word == b"deliver".as_slice() {
        let call = number(text)?;
        return Ok(EventKind::Deliver { call });
    }
    if word == b"fail".as_slice() {
        let call = number(text)?;
        return Ok(EventKind::Fail { call });
    }
    if word == b"return".as_slice() {
        let delivery = number(text)?;
        return Ok(EventKind::Return { delivery });
    }
    if word == b"answer".as_slice() {
        return answer(alloc, text);
    }
    if word == b"beat".as_slice() {
        let server = host(scopes, text)?;
        return Ok(EventKind::Beat { server });
    }
    if word == b"restart".as_slice() {
        return restart(alloc, scopes, text);
    }
    Err(LineFault::Bad)
}

/// What happens, behind its moment.
#[tactic(auto, unfolding(crate::specs::Lines::kind_at))]
fn kind(alloc: Global, scopes: Scopes, text: &[u8]) -> Result<EventKind, LineFault>
    ensures { IsLineAnswer (λ x. x) result (kind_at scopes text.now) }
{
    let (word, rest) = first_word(text)?;
    kind_behind(alloc, scopes, word, rest)
}

/// A moment, and what happens at it.
#[tactic(auto, unfolding(crate::specs::Lines::event_at))]
fn event(alloc: Global, scopes: Scopes, text: &[u8]) -> Result<Event, LineFault>
    ensures { IsLineAnswer (λ x. x) result (event_at scopes text.now) }
{
    let (at, rest) = number_field(text)?;
    let kind = kind(alloc, scopes, rest)?;
    Ok(Event { at, kind })
}

/// What a line says that is not skipped.
#[tactic(auto, unfolding(crate::specs::Lines::said_at))]
fn said(alloc: Global, scopes: Scopes, text: &[u8]) -> Result<Line, LineFault>
    ensures { IsLineAnswer (λ x. x) result (said_at scopes text.now) }
{
    if text == b"version 2".as_slice() {
        return Ok(Line::Setup(SetupLine::Version2));
    }
    if let Some(rest) = text.strip_prefix(b"scheduler ".as_slice()) {
        let scheduler = scheduler(alloc, scopes, rest)?;
        return Ok(Line::Setup(SetupLine::Scheduler(scheduler)));
    }
    if let Some(rest) = text.strip_prefix(b"server ".as_slice()) {
        let server = server(alloc, scopes, rest)?;
        return Ok(Line::Setup(SetupLine::Server(server)));
    }
    if let Some(rest) = text.strip_prefix(b"builder ".as_slice()) {
        let line = builder(alloc, rest)?;
        return Ok(Line::Setup(line));
    }
    let event = event(alloc, scopes, text)?;
    Ok(Line::Event(event))
}

/// What a line says, without its end. A line with a scoped address is read only where those are taken.
#[tactic(auto, unfolding(crate::specs::Lines::line_at))]
pub fn line_with(alloc: Global, scopes: Scopes, text: &[u8]) -> Result<Line, LineFault>
    ensures { IsLineAnswer (λ x. x) result (line_at scopes text.now) }
{
    match text {
        [] => Ok(Line::Skip),
        [35, ..] => Ok(Line::Skip),
        [_, ..] => said(alloc, scopes, text),
    }
}
