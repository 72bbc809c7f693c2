// The goal of the search of one block.
ghost use Rattle.std.specs.Prelude.{◌≡◌};

use astc_model::{ChannelWeights, Flavour, Source};
use std::marker::Model;

/// The goal of the search of one block: the flavour, the channel weights, and the source, whose
/// texels the block should show.
#[derive(Drop)]
pub struct Goal<'a, const W: usize, const H: usize> {
    flavour: Flavour,
    weights: ChannelWeights,
    source: &'a Source<W, H>,
}

impl<'a, const W: usize, const H: usize> Model for Goal<'a, W, H> {
    ghost use Rattle.texel_error.specs.Goals.{GoalView};

    ghost Value = { GoalView };

    ghost view = { λ g. record {
      flavour = g.flavour;
      weights = g.weights;
      places = g.source.now;
    } };
}

impl<'a, const W: usize, const H: usize> Goal<'a, W, H> {
    /// Returns the goal of coming close to a source.
    pub fn new(flavour: Flavour, weights: ChannelWeights, source: &'a Source<W, H>) -> Self
        ensures { result ≡ record { flavour = flavour; weights = weights; places = source.now } }
    {
        Goal {
            flavour,
            weights,
            source,
        }
    }

    /// Returns the flavour in which texels are decoded.
    pub fn flavour(&self) -> Flavour
        ensures { result ≡ self.now.flavour }
    {
        self.flavour
    }

    /// Returns the channel weights.
    pub fn weights(&self) -> ChannelWeights
        ensures { result ≡ self.now.weights }
    {
        self.weights
    }

    /// Returns the source.
    pub fn source(&self) -> &'a Source<W, H>
        ensures { result.now ≡ self.now.places }
    {
        self.source
    }
}
