//! A block that no single change improves, but a change of a pair does. Verdicts on other blocks
//! are data of `settling_cases`.
ghost use Rattle.astc_model.specs.Blocks.{Legal};

use astc_model::{
    Block, ChannelWeights, Flavour, Footprint, Source, constant_bytes, mean_constant,
};
use block_reader::read_block;
use pair_descent::{pair_least, settle_pairs};
use std::process::Abort;
use texel_error::error_of;

// A block whose weights are all 0 and whose colour integers 252 and 0 decode to 63, for a source of
// 64. No single change is better, but the colour integers 0 and 64 are.
const DARK: u128 = 0x4220F801000000000000000000000000;

fn dark(rt: &impl Abort) -> Block
    ensures { Legal 4 4 result }
{
    match read_block::<4, 4>(&DARK.to_be_bytes()) {
        Ok(block) => block,
        Err(_) => panic!(rt; "a legal block"),
    }
}

// A source with the same texel in all places.
fn even(texel: [u8; 4]) -> Source<4, 4> {
    let mut source = Source::new(Footprint::<4, 4>::new());
    for y in 0..4u8 {
        for x in 0..4u8 {
            source.set(x, y, texel);
        }
    }
    source
}

#[test]
fn a_pair_improves_a_dark_block(rt: HostRuntime) {
    let source = even([64, 64, 64, 255]);
    let dark = dark(&rt);
    let weights = ChannelWeights::even();
    assert_eq!(&rt; error_of(&dark, Flavour::Linear, weights, &source), 48);
    assert!(&rt; !pair_least(&dark, Flavour::Linear, weights, &source));
    let proposals = [dark];
    let (bytes, error) = settle_pairs(Flavour::Linear, weights, &source, &proposals);
    assert_eq!(&rt; error, 0);
    assert_eq!(&rt; bytes, constant_bytes(mean_constant(&source)));
}
