//! What a command needs of the system beside its words, files and streams.
ghost use Rattle.std.specs.Prelude.{◌≡◌, IfOk, map, option_map, string_bytes};
ghost use Rattle.command_line.specs.Need.{need_for, needed_by};
ghost use Rattle.command_line.specs.Views.{asked_of};

use crate::asked::{Asked, asked_by};
use dist_types::fault::Memory;
use std::alloc::Global;

/// What a command needs of the system beside its words, files and streams.
#[derive(Clone, Copy, Debug, PartialEq, Eq)]
pub enum Need {
    /// Nothing.
    Nothing,
    /// Random words, for a key or a shared token.
    RandomWords,
    /// What serves, which takes random words and memory.
    Serving,
}

fn need_for(asked: Option<Asked<'_>>) -> Need
    ensures { result ≡ need_for (option_map asked_of asked.entry) }
{
    match asked {
        None => Need::Nothing,
        Some(Asked::Farm) => Need::Nothing,
        Some(Asked::Random(_)) => Need::RandomWords,
        Some(Asked::TokenUnder(_, _)) => Need::Nothing,
        Some(Asked::TokenOf(_, _)) => Need::Nothing,
        Some(Asked::Scheduler(_)) => Need::Serving,
        Some(Asked::Server(_)) => Need::Serving,
        Some(Asked::Storm(_)) => Need::Nothing,
        Some(Asked::Audit) => Need::Nothing,
    }
}

/// What the command of these words needs; nothing, where they name none. Refused for want of memory alone.
pub fn needed_by(alloc: Global, words: &[String]) -> Result<Need, Memory>
    ensures { IfOk result (λ need. need ≡ needed_by (map string_bytes words.now)) }
{
    let asked = asked_by(alloc, words)?;
    Ok(need_for(asked))
}
