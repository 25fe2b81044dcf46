//! The builders that a farm makes.
ghost use Rattle.std.specs.Prelude.{◌≡◌, Some, IfOk};
ghost use Rattle.build_server.specs.Builds.{builder_of};
ghost use Rattle.farm_stations.specs.Hands.{fresh_hand, HasLeft, IsGiven, KeepsWord};
ghost use Rattle.farm_stations.specs.Lined.{answering};

use crate::builder::FarmBuilder;
use crate::copies::copy_lines;
use dist_types::builder::{BuildFault, BuilderIncoming};
use dist_types::command::CompileCommand;
use dist_types::fault::Memory;
use dist_types::results::BuildResult;
use dist_types::text::{Items, Text};
use dist_types::toolchain::Toolchain;
use farm_script::setup::BuilderLine;
use std::alloc::Global;
use std::marker::Model;

/// A builder that a farm made for some lines: it answers by these, and the last row of its record is by what it
/// answers. Contracts see what it tells, and the lines.
#[derive(Drop)]
pub struct OwnBuilder<B: BuilderIncoming + Drop> {
    builder: B,
    lines: Items<BuilderLine>,
}

impl<B: BuilderIncoming + Drop> Model for OwnBuilder<B> {
    ghost use Rattle.std.specs.Prelude.{◌≡◌, Some};
    ghost use Rattle.build_server.specs.Builds.{builder_of};
    ghost use Rattle.farm_stations.specs.Hands.{Hand, KeepsWord};
    ghost use Rattle.farm_stations.specs.Lined.{answering};

    ghost Value = { Hand };

    ghost view = { λ b. record {
      told = builder_of B.built B.refusals b.builder;
      lines = Some b.lines;
    } };

    ghost invariant = { λ b. (B.answers b.builder ≡ Some (answering b.lines))
        × KeepsWord (record { told = builder_of B.built B.refusals b.builder; lines = Some b.lines }) };
}

impl OwnBuilder<FarmBuilder> {
    /// A builder of those lines, which has answered none. Refused for want of memory alone.
    #[tactic(auto, using(crate::proofs::HandLemmas::fresh_word, crate::proofs::HandLemmas::fresh_left))]
    pub fn of(alloc: Global, lines: &[BuilderLine]) -> Result<Self, Memory>
        ensures of { IfOk result (λ own. own ≡ fresh_hand lines.now) }
        ensures left { IfOk result (HasLeft lines.now) }
    {
        let builder = FarmBuilder::of(alloc, lines)?;
        let lines = copy_lines(alloc, lines)?;
        Ok(OwnBuilder {
            builder,
            lines: Items::new(lines),
        })
    }
}

impl<B: BuilderIncoming + Drop> OwnBuilder<B> {
    /// The builder itself.
    pub fn into_builder(self) -> B
        ensures builder { IsGiven (builder_of B.built B.refusals) B.answers self result }
    {
        let OwnBuilder { builder, lines: _ } = self;
        builder
    }

    /// That it keeps its word.
    pub fn keeps_word(&self)
        ensures keeps { KeepsWord self.now }
    {
        let _builder = &self.builder;
    }
}

impl<B: BuilderIncoming + Drop> BuilderIncoming for OwnBuilder<B> {
    ghost use Rattle.farm_stations.specs.Hands.{answers_of};

    ghost built = { λ b. b.told.rows };

    ghost refusals = { λ b. b.told.refusals };

    ghost answers = { λ b. answers_of b };

    #[tactic(auto, using(crate::proofs::HandLemmas::word_kept))]
    fn run_build(
        &mut self,
        toolchain: &Toolchain,
        archive: &[u8],
        command: &CompileCommand,
        outputs: &[Text],
        inputs: &[u8],
    ) -> Result<BuildResult, BuildFault> {
        self.builder
            .run_build(toolchain, archive, command, outputs, inputs)
    }
}
