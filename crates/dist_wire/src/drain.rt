//! Servers that are to drain, and the answer.
use crate::codec::Codec;
use crate::error::WireError;
use crate::message::Message;
use crate::number::{read_u64, write_u64};
use crate::reader::Reader;
use crate::to_json::{ToJson, write_member};
use dist_types::ids::ServerNonce;
use json::Writer;
use std::alloc::Global;

/// What a build server tells the scheduler when it is to get no more jobs, or to get jobs again.
#[derive(Clone, Copy, Debug, PartialEq, Eq)]
pub struct DrainServerHttpRequest {
    /// The nonce of this start of the server.
    pub server_nonce: ServerNonce,
    /// Whether it is to get no more jobs.
    pub draining: bool,
}

/// The answer to a request to drain.
#[derive(Clone, Copy, Debug, PartialEq, Eq)]
pub struct DrainServerResult {
    /// Whether a registration of that start stands.
    pub known: bool,
}

impl Codec for DrainServerHttpRequest {
    ghost use Rattle.dist_wire.specs.MessageLaws.{drain_codec};
    ghost use Rattle.dist_wire.specs.Reading.{drain_at};
    ghost use Rattle.dist_wire.specs.Spelling.{SpellsDrain};
    ghost use Rattle.dist_wire.specs.Written.{drain_text};

    ghost spells = { SpellsDrain };

    ghost text = { drain_text };

    ghost at = { drain_at };

    #[tactic(auto, unfolding(crate::specs::Reading::drain_at))]
    fn decode(reader: &mut Reader<'_>) -> Result<Self, WireError> {
        let nonce = read_u64(reader)?;
        let draining = bool::decode(reader)?;
        Ok(DrainServerHttpRequest {
            server_nonce: ServerNonce::new(nonce),
            draining,
        })
    }

    fn encode(&self, out: &mut Vec<u8>) -> Result<(), WireError> {
        write_u64(self.server_nonce.get(), out)?;
        self.draining.encode(out)
    }

    ghost codec = { drain_codec };
}

impl Codec for DrainServerResult {
    ghost use Rattle.dist_wire.specs.MessageLaws.{drained_codec};
    ghost use Rattle.dist_wire.specs.Reading.{drained_at};
    ghost use Rattle.dist_wire.specs.Spelling.{SpellsDrained};
    ghost use Rattle.dist_wire.specs.Written.{drained_text};

    ghost spells = { SpellsDrained };

    ghost text = { drained_text };

    ghost at = { drained_at };

    #[tactic(auto, unfolding(crate::specs::Reading::drained_at))]
    fn decode(reader: &mut Reader<'_>) -> Result<Self, WireError> {
        let known = bool::decode(reader)?;
        Ok(DrainServerResult { known })
    }

    fn encode(&self, out: &mut Vec<u8>) -> Result<(), WireError> {
        self.known.encode(out)
    }

    ghost codec = { drained_codec };
}

impl ToJson for DrainServerHttpRequest {
    ghost use Rattle.dist_wire.specs.Json.{drain_json};

    ghost json = { drain_json };

    fn write_json(&self, alloc: Global, writer: &mut Writer) -> Result<(), WireError> {
        writer.begin_object()?;
        write_member("draining", &self.draining, alloc, writer)?;
        write_member("server_nonce", &self.server_nonce.get(), alloc, writer)?;
        writer.end_object()?;
        Ok(())
    }
}

impl ToJson for DrainServerResult {
    ghost use Rattle.dist_wire.specs.Json.{drained_json};

    ghost json = { drained_json };

    fn write_json(&self, alloc: Global, writer: &mut Writer) -> Result<(), WireError> {
        writer.begin_object()?;
        write_member("known", &self.known, alloc, writer)?;
        writer.end_object()?;
        Ok(())
    }
}

impl Message for DrainServerHttpRequest {}

impl Message for DrainServerResult {}
