//! Blocks that are fitted to small sources.
ghost use Rattle.std.specs.Prelude.{IsTrue};
ghost use Rattle.astc_model.specs.Footprints.{is_footprint};

use astc_model::{
    Block, ChannelWeights, Flavour, Footprint, Preset, Source, constant_error, mean_constant,
};
use block_fit::{Effort, FitView, FittedBlocks, fitted};
use block_mode::is_legal;
use descent::fit_scratch;
use std::process::Abort;
use texel_error::{Goal, error_of};

// A source in which red and green rise to the right and blue rises downwards, in the first 4 by 4
// places.
fn slopes<const W: usize, const H: usize>() -> Source<W, H>
    requires { IsTrue (is_footprint W H) }
{
    let mut source = Source::<W, H>::new(Footprint::new());
    for x in 0..4u8 {
        for y in 0..4u8 {
            source.set(x, y, [40 * x, 20 * x + 10, 30 * y, 255]);
        }
    }
    source
}

// Whether all blocks that a fit finds are legal, and one is closer to the source than the best
// void-extent block.
fn is_fitted<const W: usize, const H: usize>(preset: Preset, source: &Source<W, H>) -> bool {
    let effort = Effort::of(preset, W.wrapping_mul(H));
    let weights = ChannelWeights::even();
    let mean = constant_error(mean_constant(source), weights, source);
    let mut is_nearer = false;
    fit_scratch!(scratch);
    let goal = Goal::new(Flavour::Linear, weights, source);
    let mut blocks = FittedBlocks::new();
    for found in fitted(&effort, FitView::none(), &goal, scratch, &mut blocks) {
        let block = Block::Coded(found.coded.copy());
        if !is_legal::<W, H>(&block) {
            return false;
        }
        is_nearer |= error_of(&block, Flavour::Linear, weights, source) < mean;
    }
    is_nearer
}

#[test]
fn fits_slopes(rt: HostRuntime) {
    assert!(rt; is_fitted(Preset::Quick, &slopes::<4, 4>()));
    assert!(rt; is_fitted(Preset::Medium, &slopes::<12, 12>()));
}

// In a block of 5 by 4 texels, the last column lies outside the image.
#[test]
fn fits_part_of_a_block(rt: HostRuntime) {
    assert!(rt; is_fitted(Preset::Quick, &slopes::<5, 4>()));
}

#[test]
fn fits_nothing(rt: HostRuntime) {
    let source = Source::<4, 4>::new(Footprint::new());
    assert!(rt; !is_fitted(Preset::Quick, &source));
}
