//! Settled blocks of sources whose best blocks are known. More cases are data of `settling_cases`.
ghost use Rattle.astc_model.specs.Blocks.{Legal};

use astc_model::{
    Block, ChannelWeights, Flavour, Footprint, Preset, Source, constant_bytes, mean_constant,
};
use block_reader::read_block;
use descent::{encode_block, is_least};
use std::process::Abort;
use texel_error::{Steps, error_of};

/// A source of 4 by 4 texels whose left and right halves have the texels `halves` (0xRRGGBBAA), the
/// proposals for it with their errors, the greatest allowed error, and the expected bytes, if
/// known.
struct Encoded {
    preset: Preset,
    halves: [u32; 2],
    proposals: &'static [(u128, u32)],
    most: u32,
    bytes: Option<u128>,
}

const BLACK: u32 = 0x000000FF;

const WHITE: u32 = 0xFFFFFFFF;

static ENCODED: [Encoded; 5] = [
    Encoded {
        preset: Preset::Quick,
        halves: [0x0A141EFF; 2],
        proposals: &[],
        most: 0,
        bytes: Some(0xFCFDFFFFFFFFFFFF0A0A14141E1EFFFF),
    },
    Encoded {
        preset: Preset::Flat,
        halves: [BLACK, WHITE],
        proposals: &[],
        most: 780312,
        bytes: Some(0xFCFDFFFFFFFFFFFF808080808080FFFF),
    },
    Encoded {
        preset: Preset::Quick,
        halves: [BLACK, WHITE],
        proposals: &[],
        most: 0,
        bytes: None,
    },
    Encoded {
        preset: Preset::Flat,
        halves: [BLACK, WHITE],
        proposals: &[(0x420001FE01FE01FE010000000F0F0F0F, 0)],
        most: 0,
        bytes: Some(0x420001FE01FE01FE010000000F0F0F0F),
    },
    Encoded {
        preset: Preset::Flat,
        halves: [BLACK, WHITE],
        proposals: &[(0x420001FE01FE01FE010000000F0F0F03, 195075)],
        most: 195075,
        bytes: None,
    },
];

fn halves([left, right]: [u32; 2]) -> Source<4, 4> {
    let mut source = Source::new(Footprint::<4, 4>::new());
    for y in 0..4u8 {
        for x in 0..4u8 {
            let texel = if x < 2 { left } else { right };
            source.set(x, y, texel.to_be_bytes());
        }
    }
    source
}

fn block<const W: usize, const H: usize>(rt: &impl Abort, bytes: &[u8; 16]) -> Block
    ensures { Legal W H result }
{
    match read_block::<W, H>(bytes) {
        Ok(block) => block,
        Err(_) => panic!(rt; "a legal block"),
    }
}

// Checks that the block in these bytes has this error, and that no change of one integer reduces
// it.
fn check_settled<const W: usize, const H: usize>(
    rt: &impl Abort,
    (bytes, error): ([u8; 16], u32),
    flavour: Flavour,
    weights: ChannelWeights,
    source: &Source<W, H>,
) {
    let block = block::<W, H>(rt, &bytes);
    let mut steps = Steps::<()>::new();
    assert_eq!(rt; error_of(&block, flavour, weights, source), error);
    assert!(rt; is_least(&block, flavour, weights, source, &mut steps));
}

// The block in these bytes, after a check that it has this error.
fn proposed(rt: &impl Abort, bytes: u128, error: u32, source: &Source<4, 4>) -> Block
    ensures { Legal 4 4 result }
{
    let block = block::<4, 4>(rt, &bytes.to_be_bytes());
    assert_eq!(rt;
        error_of(&block, Flavour::Linear, ChannelWeights::even(), source),
        error
    );
    block
}

fn check_encoded(rt: &impl Abort, row: &Encoded) {
    let source = halves(row.halves);
    let mut steps = Steps::<()>::new();
    let (bytes, error) = match row.proposals {
        [proposal] => {
            let (proposal, own_error) = *proposal;
            let proposals = [proposed(rt, proposal, own_error, &source)];
            encode_block(
                row.preset,
                Flavour::Linear,
                ChannelWeights::even(),
                &source,
                &proposals,
                &mut steps,
            )
        }
        _ => {
            let none: [Block; 0] = [];
            encode_block(
                row.preset,
                Flavour::Linear,
                ChannelWeights::even(),
                &source,
                &none,
                &mut steps,
            )
        }
    };
    assert!(rt; error <= row.most);
    if let Some(expected) = row.bytes {
        assert_eq!(rt; bytes, expected.to_be_bytes());
    } else {
        assert!(rt; steps.number() >= 1);
    }
    check_settled(
        rt,
        (bytes, error),
        Flavour::Linear,
        ChannelWeights::even(),
        &source,
    );
}

#[test]
fn known_sources_are_encoded(rt: HostRuntime) {
    for row in &ENCODED {
        check_encoded(&rt, row);
    }
}

// Sources that fill only a part of a block of 12 by 12 texels: one texel, and four columns of which
// two are black.
#[test]
fn small_images_are_encoded(rt: HostRuntime) {
    let none: [Block; 0] = [];
    let mut steps = Steps::<()>::new();
    let mut one = Source::new(Footprint::<12, 12>::new());
    one.set(0, 0, [7, 7, 7, 255]);
    let (bytes, error) = encode_block(
        Preset::Quick,
        Flavour::Linear,
        ChannelWeights::even(),
        &one,
        &none,
        &mut steps,
    );
    assert_eq!(&rt; bytes, 0xFCFDFFFFFFFFFFFF070707070707FFFFu128.to_be_bytes());
    assert_eq!(&rt; error, 0);
    let mut halves = Source::new(Footprint::<12, 12>::new());
    for y in 0..4u8 {
        for x in 0..4u8 {
            halves.set(
                x,
                y,
                if x < 2 {
                    [0, 0, 0, 255]
                } else {
                    [255, 255, 255, 255]
                },
            );
        }
    }
    let (_, error) = encode_block(
        Preset::Quick,
        Flavour::Linear,
        ChannelWeights::even(),
        &halves,
        &none,
        &mut steps,
    );
    assert!(&rt; error <= 780312);
}

// All weights are 0, and the block shows 63 instead of the source's 64. Every other value is worse.
// The test of this takes at least one step, and at most those of 16 weights with 3 changes of one
// texel and of 2 colour integers with 255 changes of 16 texels.
#[test]
fn a_dark_block_is_least(rt: HostRuntime) {
    let source = halves([0x404040FF; 2]);
    let block = block::<4, 4>(&rt, &0x4220F801000000000000000000000000u128.to_be_bytes());
    let mut steps = Steps::<()>::new();
    assert!(&rt;
        is_least(
            &block,
            Flavour::Linear,
            ChannelWeights::even(),
            &source,
            &mut steps
        )
    );
    assert!(&rt; 1 <= steps.number());
    assert!(&rt; steps.number() <= 8208);
}
