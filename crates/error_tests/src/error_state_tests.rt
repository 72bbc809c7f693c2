//! A block that only a change of a pair of integers improves. Tests of single changes are data of
//! `settling_cases`.
ghost use Rattle.astc_model.specs.Blocks.{Legal};

use arrayvec::ArrayVec;
use astc_model::{Block, ChannelWeights, Coded, Flavour, Footprint, Source};
use block_mode::is_legal;
use error_state::ErrorState;
use std::process::Abort;
use texel_error::Steps;

// A source with the same texel in all places.
fn even(texel: [u8; 4]) -> Source<4, 4> {
    let mut source = Source::new(Footprint::<4, 4>::new());
    for y in 0..4u8 {
        for x in 0..4u8 {
            source.set(x, y, texel);
        }
    }
    source
}

// A block whose weights are all 0, and whose first endpoint decodes to 63. With the colour integers
// 0 and 64 it would be 64, as in the source.
fn dark() -> Coded {
    Coded {
        mode: 66,
        parts: 1,
        seed: 0,
        selector: 0,
        cems: [1, 0, 0, 0],
        colours: ArrayVec::try_from(&[252, 0][..]).unwrap(),
        weights: ArrayVec::try_from(&[0; 16][..]).unwrap(),
        plane: 0,
    }
}

fn dark_state<'a>(rt: &impl Abort, block: &Block, source: &'a Source<4, 4>) -> ErrorState<'a, 4, 4>
    requires { Legal 4 4 block.now }
{
    match block {
        Block::Coded(coded) => {
            ErrorState::<4, 4>::start(coded, Flavour::Linear, ChannelWeights::even(), source)
        }
        Block::Constant(_) => panic!(rt; "a coded block"),
    }
}

#[test]
fn a_pair_improves_a_dark_block(rt: HostRuntime) {
    let block = Block::Coded(dark());
    assert!(&rt; is_legal::<4, 4>(&block));
    let source = even([64, 64, 64, 255]);
    let state = dark_state(&rt, &block, &source);
    let mut steps = Steps::<()>::new();
    assert_eq!(&rt; state.total(), 48);
    let better = state.better_pair(&mut steps).expect(&rt, "a better pair");
    assert!(&rt; better.error < 48);
    let changed = Block::Coded(state.block_with(&better));
    assert_eq!(&rt; dark_state(&rt, &changed, &source).total(), better.error);
}
