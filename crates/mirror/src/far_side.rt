//! Asking the far side of a mirror.
ghost use Rattle.std.specs.Prelude.{List, ℕ, Option};
ghost use Rattle.dist_types.specs.declared.dialer.Asked.{Asked};
ghost use Rattle.mirror.specs.Asking.{Ask, IsAsked, dialing_of};

use dist_types::dialer::{AskFault, Dialer};
use dist_types::text::Bytes;

/// What a mirror asks for what is not near: every dialer is one, and so is a far cache in memory.
pub trait FarSide {
    /// The record: a row for each ask in order, where it is told. An ask that ran out of memory may have none.
    ghost asked: { Self → Option (List Asked) };

    /// How often it failed.
    ghost faults: { Self → ℕ };

    /// What else is known of an ask: what it may leave, and what may be heard. A dialer says nothing of that.
    ghost asks: { Ask Self };

    /// Sends the request to the host at the port, and gives the whole reply.
    fn ask_far(&mut self, host: &str, port: u16, request: &[u8]) -> Result<Bytes, AskFault>
        ensures tells { IsAsked host.now port request.now (dialing_of asked faults self.old)
            (dialing_of asked faults self.new) result }
        ensures knows { asks self.old host.now port request.now self.new result };
}

impl<D: Dialer> FarSide for D {
    ghost use Rattle.std.specs.Prelude.{⊤};

    ghost asked = { D.asked };

    ghost faults = { D.faults };

    ghost asks = { λ _ _ _ _ _ _. ⊤ };

    fn ask_far(&mut self, host: &str, port: u16, request: &[u8]) -> Result<Bytes, AskFault> {
        match self.ask(host, port, request) {
            Ok(reply) => Ok(Bytes::new(reply)),
            Err(fault) => Err(fault),
        }
    }
}
