// The encoder of the blocks of a picture.
ghost use Rattle.std.specs.Prelude.{◌≡◌, ◌≤◌, length};
ghost use Rattle.std.specs.List.{All};
ghost use Rattle.astc_model.specs.Blocks.{Legal};
ghost use Rattle.astc_model.specs.Limits.{most_block_error};
ghost use Rattle.encoder.specs.Encoders.{IsEncoded};
ghost use Rattle.encoder.specs.Verdicts.{IsVerdict};

use crate::settings::Settings;
use crate::verdict::{Verdict, verdict_on};
use astc_model::{Block, Source};
use descent::{FitScratch, Search, SearchView};
use pair_descent::packed_block;
use std::marker::Model;
use texel_error::Goal;

/// Compresses the blocks of a picture with its settings. The searches for all blocks share the
/// tables; without tables, each search computes its own data, which takes longer. An encoder
/// settles any number of blocks, in any order. In contracts, an encoder is its settings.
#[derive(Drop)]
pub struct Encoder<'a, const W: usize, const H: usize> {
    settings: Settings,
    tables: SearchView<'a, W, H>,
}

impl<'a, const W: usize, const H: usize> Model for Encoder<'a, W, H> {
    ghost use Rattle.encoder.specs.declared.settings.Settings.{Settings};

    ghost Value = { Settings };

    ghost view = { λ e. e.settings };
}

impl<'a, const W: usize, const H: usize> Encoder<'a, W, H> {
    /// An encoder, over tables of the settings' preset.
    pub fn new(settings: Settings, tables: SearchView<'a, W, H>) -> Self
        ensures { result ≡ settings }
    {
        Encoder { settings, tables }
    }

    // The settings and the tables, as a search takes them.
    fn search(&self) -> Search<'a, W, H>
        ensures preset { result.preset ≡ self.now.preset }
        ensures fits { result.fits ≡ self.now.fits }
    {
        Search {
            preset: self.settings.preset,
            fits: self.settings.fits,
            tables: self.tables,
        }
    }

    // The goal of blocks for a source.
    fn goal<'b>(&self, source: &'b Source<W, H>) -> Goal<'b, W, H>
        ensures { result ≡ record {
          flavour = self.now.flavour;
          weights = self.now.weights;
          places = source.now;
        } }
    {
        Goal::new(self.settings.flavour, self.settings.weights, source)
    }

    /// The bytes of a settled block for a source, and its error; at most 561,816,000.
    ///
    /// The bytes read as a legal block of this error. No block that the preset lists for the source
    /// has a smaller one, nor has a proposal, of which there are at most four, nor a block that
    /// differs in one integer. If fits count as proposals, nor has the block that was fitted,
    /// whichever that is. Under the preset pairs nor has a block that differs in one or both
    /// integers of a pair: the two ends of one channel of a partition. If no listed block and no
    /// proposal has an error under that of the mean constant, the bytes are the mean constant's.
    pub fn settle(
        &self,
        source: &Source<W, H>,
        proposals: &[Block],
        scratch: &mut FitScratch,
    ) -> ([u8; 16], u32)
        requires few { length proposals.now ≤ 4 }
        requires legal { All (Legal W H) proposals.now }
        ensures settled { IsEncoded W H self.now source.now proposals.now result.0 result.1 }
        ensures small { result.1 ≤ most_block_error }
    {
        packed_block(&self.search(), &self.goal(source), proposals, scratch)
    }

    /// The verdict on any 16 bytes as a block for a source: whether they are a block, their
    /// distance from the source, whether no listed block is closer, and whether no change of one
    /// integer is closer. Bytes that are not a block count as magenta.
    pub fn verdict(&self, bytes: &[u8; 16], source: &Source<W, H>) -> Verdict
        ensures verdict { IsVerdict W H self.now.flavour self.now.weights self.now.preset source.now
            bytes.now result }
        ensures small { result.error ≤ most_block_error }
    {
        verdict_on(&self.search(), &self.goal(source), bytes)
    }
}
