//! An encoder with shared tables settles the same blocks as the functions for a single block, which
//! compute what they need.
ghost use Rattle.std.specs.Prelude.{IsTrue};
ghost use Rattle.astc_model.specs.Footprints.{is_footprint};

use astc_model::{ChannelWeights, Flavour, Footprint, Preset, Source};
use descent::{SearchTables, SearchView, encode_block, fit_scratch};
use encoder::{Encoder, Settings};
use pair_descent::settle_pairs;
use std::alloc::{AllocError, Global};
use std::process::Abort;
use texel_error::Steps;

// A texel of a picture with gradients and noise.
fn texel(x: u32, y: u32) -> [u8; 4] {
    let noise = (x.wrapping_mul(7) ^ y.wrapping_mul(13)).wrapping_mul(0x9E3779B1) >> 27;
    let low = |value: u32| -> u8 { (value % 256) as u8 };
    [
        low(x.wrapping_mul(19).wrapping_add(noise)),
        low(y.wrapping_mul(17).wrapping_add(noise)),
        low(noise.wrapping_mul(3).wrapping_add(60)),
        low(255u32.wrapping_sub(x.wrapping_mul(y))),
    ]
}

// A source whose first columns and rows are inside the image.
fn source<const W: usize, const H: usize>(columns: usize, rows: usize) -> Source<W, H>
    requires { IsTrue (is_footprint W H) }
{
    let mut source = Source::new(Footprint::<W, H>::new());
    for y in 0..H {
        for x in 0..W {
            if x < columns && y < rows {
                source.set(x as u8, y as u8, texel(x as u32, y as u32));
            }
        }
    }
    source
}

// The bytes and the error of the block that the functions for a single block settle.
fn alone<const W: usize, const H: usize>(preset: Preset, source: &Source<W, H>) -> ([u8; 16], u32) {
    let weights = ChannelWeights::even();
    let mut steps = Steps::<()>::new();
    match preset {
        Preset::Pairs => settle_pairs(Flavour::Srgb, weights, source, &[]),
        _ => encode_block(preset, Flavour::Srgb, weights, source, &[], &mut steps),
    }
}

// Checks that an encoder settles the same block, with and without prepared grids for the places
// that are inside the image.
fn check<const W: usize, const H: usize>(
    rt: &impl Abort,
    alloc: Global,
    preset: Preset,
    columns: u16,
    rows: u16,
)
    requires { IsTrue (is_footprint W H) }
{
    let source = source::<W, H>(usize::from(columns), usize::from(rows));
    let (bytes, error) = alone(preset, &source);
    check_tables(rt, alloc, preset, None, &source, &bytes, error);
    let sides = (u32::from(columns), u32::from(rows));
    check_tables(rt, alloc, preset, Some(sides), &source, &bytes, error);
}

// Checks that an encoder with tables settles this block.
fn check_tables<const W: usize, const H: usize>(
    rt: &impl Abort,
    alloc: Global,
    preset: Preset,
    sides: Option<(u32, u32)>,
    source: &Source<W, H>,
    bytes: &[u8; 16],
    error: u32,
)
    requires { IsTrue (is_footprint W H) }
{
    let (found, found_error) = settled_by_tables(alloc, preset, sides, source).expect(rt, "memory");
    assert_eq!(rt; found, *bytes);
    assert_eq!(rt; found_error, error);
}

// The block that an encoder with tables settles. The tables are prepared for the edges of a picture
// of these sides, if given.
fn settled_by_tables<const W: usize, const H: usize>(
    alloc: Global,
    preset: Preset,
    sides: Option<(u32, u32)>,
    source: &Source<W, H>,
) -> Result<([u8; 16], u32), AllocError>
    requires { IsTrue (is_footprint W H) }
{
    let mut tables = SearchTables::new(alloc, Footprint::<W, H>::new(), preset)?;
    if let Some((width, height)) = sides {
        tables.prepare(width, height)?;
    }
    let encoder = Encoder::new(settings_of(preset, Flavour::Srgb, false), tables.view());
    fit_scratch!(scratch);
    Ok(encoder.settle(source, &[], scratch))
}

// Settings with a weight of 1 for each channel.
fn settings_of(preset: Preset, flavour: Flavour, fits: bool) -> Settings {
    Settings {
        preset,
        flavour,
        weights: ChannelWeights::even(),
        fits,
    }
}

// A source with a red upper half and a green lower half, whose first `rows` rows are inside the
// image.
fn halves<const W: usize, const H: usize>(rows: u16) -> Source<W, H>
    requires { IsTrue (is_footprint W H) }
{
    let mut source = Source::new(Footprint::<W, H>::new());
    for y in 0..H {
        for x in 0..W {
            if y < usize::from(rows) {
                let texel = if y < H / 2 {
                    [255, 0, 0, 255]
                } else {
                    [0, 255, 0, 255]
                };
                source.set(x as u8, y as u8, texel);
            }
        }
    }
    source
}

// Checks that an encoder without fits finds a block with the error `alone`, and one with fits a
// block without error.
fn check_fits<const W: usize, const H: usize>(
    rt: &impl Abort,
    preset: Preset,
    rows: u16,
    alone: u32,
)
    requires { IsTrue (is_footprint W H) }
{
    let source = halves::<W, H>(rows);
    fit_scratch!(scratch);
    let without = Encoder::new(
        settings_of(preset, Flavour::Linear, false),
        SearchView::none(),
    );
    let (_, own) = without.settle(&source, &[], scratch);
    assert_eq!(rt; own, alone);
    let with = Encoder::new(
        settings_of(preset, Flavour::Linear, true),
        SearchView::none(),
    );
    let (_, fitted) = with.settle(&source, &[], scratch);
    assert_eq!(rt; fitted, 0);
}

// A line from red to green shows both halves exactly. The mean is (128, 128, 0), as is the middle
// of black and yellow, the endpoints of the only line that `quick` lists here; its error is 127^2 +
// 128^2 per texel. With a row outside, the mean is (170, 85, 0), and its error 8 * (85^2 + 85^2) +
// 4 * (170^2 + 170^2).
#[test]
fn a_fitted_block_betters_the_mean(rt: HostRuntime) {
    check_fits::<4, 4>(&rt, Preset::Flat, 4, 520_208);
    check_fits::<4, 4>(&rt, Preset::Quick, 4, 520_208);
    check_fits::<6, 6>(&rt, Preset::Quick, 6, 1_170_468);
    check_fits::<4, 4>(&rt, Preset::Flat, 3, 346_800);
}

#[test]
fn kept_and_found_settle_the_same(rt: HostRuntime) {
    let alloc = rt.alloc();
    check::<4, 4>(&rt, alloc, Preset::Flat, 4, 4);
    check::<4, 4>(&rt, alloc, Preset::Quick, 4, 4);
    check::<4, 4>(&rt, alloc, Preset::Medium, 3, 2);
    check::<6, 5>(&rt, alloc, Preset::Quick, 6, 1);
    check::<8, 8>(&rt, alloc, Preset::Pairs, 8, 3);
    check::<12, 12>(&rt, alloc, Preset::Quick, 7, 12);
}
