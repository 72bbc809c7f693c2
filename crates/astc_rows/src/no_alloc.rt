// Rows of blocks without heap memory. The tables of a picture are on the stack and take some
// 12,000,000 bytes.
ghost use Rattle.std.specs.Prelude.{◌≡◌, ◌≤◌, ◌<◌, ◌*◌, length, slice_index_or, [], IsTrue, OnErr};
ghost use Rattle.astc_model.specs.Footprints.{is_footprint};
ghost use Rattle.astc_model.specs.FootprintNames.{sides_of};
ghost use Rattle.encoder.specs.Verdicts.{IsVerdict};
ghost use Rattle.astc_rows.specs.Alone.{AllAreJudged, AreEachJudged, judging_of};
ghost use Rattle.astc_rows.specs.Arguments.{AnswersAlways};
ghost use Rattle.astc_rows.specs.Bands.{AreCheckedRows, block_count, checked_call, source_at};
ghost use Rattle.astc_rows.specs.Settling.{AreEncoded, AreRowsPolished, AreRowsSettled, proposals_at};

use crate::arguments::{Argument, RowOptions, Rows};
use crate::bands::{CheckedCall, CheckedOptions, CheckedRows, checked_call};
use crate::judging::verdict_at;
use crate::settling::settle_each;
use astc_model::{Footprint, for_footprint};
use descent::SearchArrays;
use encoder::Verdict;

// The tables that the blocks of a picture share.
fn arrays_for<const W: usize, const H: usize>(
    band: CheckedRows,
    way: &CheckedOptions,
) -> SearchArrays<W, H>
    requires { IsTrue (is_footprint W H) }
{
    SearchArrays::new(Footprint::new(), way.preset, band.width, band.height)
}

// Settles each block in place.
fn settle_each_no_alloc<const W: usize, const H: usize>(
    band: CheckedRows,
    way: &CheckedOptions,
    texels: &[[u8; 4]],
    blocks: &mut [[u8; 16]],
    keeps: bool,
) -> u64
    requires footprint { IsTrue (is_footprint W H) }
    requires band { AreCheckedRows H band }
    requires full { length texels.now ≡ band.width * band.height }
    requires blocks { length blocks.old ≡ block_count W band }
    ensures settled { AreRowsSettled W H band way.now texels.now (proposals_at W H keeps blocks.old)
        (block_count W band) blocks.new result }
    ensures length { length blocks.new ≡ length blocks.old }
{
    let arrays = arrays_for::<W, H>(band, way);
    settle_each(arrays.view(), band, way, texels, blocks, keeps)
}

// The settled blocks of a call.
fn settle_call_no_alloc(
    call: &CheckedCall,
    texels: &[[u8; 4]],
    blocks: &mut [[u8; 16]],
    keeps: bool,
) -> u64
    requires band { AreCheckedRows (sides_of call.now.band.name).1 call.now.band }
    requires full { length texels.now ≡ call.now.band.width * call.now.band.height }
    requires blocks { length blocks.old
        ≡ block_count (sides_of call.now.band.name).0 call.now.band }
    ensures settled { AreRowsSettled (sides_of call.now.band.name).0
        (sides_of call.now.band.name).1 call.now.band call.now.way texels.now
        (proposals_at (sides_of call.now.band.name).0 (sides_of call.now.band.name).1 keeps
        blocks.old) (block_count (sides_of call.now.band.name).0 call.now.band) blocks.new
        result }
    ensures length { length blocks.new ≡ length blocks.old }
{
    let band = call.band;
    let way = &call.way;
    for_footprint!(
        band.name,
        settle_each_no_alloc(band, way, texels, blocks, keeps)
    )
}

/// Encodes the blocks of rows as [`crate::encode_rows`] does, without memory.
///
/// # Errors
///
/// The first argument that is wrong: then nothing is written.
pub fn encode_rows_no_alloc(
    rows: &Rows,
    options: &RowOptions,
    texels: &[[u8; 4]],
    blocks: &mut [[u8; 16]],
) -> Result<u64, Argument>
    ensures encoded { AnswersAlways (AreEncoded texels.now blocks.new)
        (checked_call rows.now options.now (length texels.now) (length blocks.old)) result }
    ensures length { length blocks.new ≡ length blocks.old }
    ensures unchanged { OnErr result (blocks.new ≡ blocks.old) }
{
    match checked_call(rows, options, texels.len(), blocks.len()) {
        Ok(call) => Ok(settle_call_no_alloc(&call, texels, blocks, false)),
        Err(argument) => Err(argument),
    }
}

/// Polishes the blocks of rows in place as [`crate::polish_rows`] does, without memory.
///
/// # Errors
///
/// The first argument that is wrong: then nothing is written.
pub fn polish_rows_no_alloc(
    rows: &Rows,
    options: &RowOptions,
    texels: &[[u8; 4]],
    blocks: &mut [[u8; 16]],
) -> Result<u64, Argument>
    ensures polished { AnswersAlways (AreRowsPolished texels.now blocks.old blocks.new)
        (checked_call rows.now options.now (length texels.now) (length blocks.old)) result }
    ensures length { length blocks.new ≡ length blocks.old }
    ensures unchanged { OnErr result (blocks.new ≡ blocks.old) }
{
    match checked_call(rows, options, texels.len(), blocks.len()) {
        Ok(call) => Ok(settle_call_no_alloc(&call, texels, blocks, true)),
        Err(argument) => Err(argument),
    }
}

// Judges each block.
fn judge_each_no_alloc<const W: usize, const H: usize>(
    band: CheckedRows,
    way: &CheckedOptions,
    texels: &[[u8; 4]],
    blocks: &[[u8; 16]],
    judged: &mut [Verdict],
)
    requires footprint { IsTrue (is_footprint W H) }
    requires band { AreCheckedRows H band }
    requires full { length texels.now ≡ band.width * band.height }
    requires blocks { length blocks.now ≡ block_count W band }
    requires places { length judged.old ≡ length blocks.now }
    ensures judged { AreEachJudged W H band way.now texels.now
        (block_count W band) blocks.now judged.new }
    ensures length { length judged.new ≡ length judged.old }
{
    let arrays = arrays_for::<W, H>(band, way);
    for k in 0..blocks.len() {
        judged[k] = verdict_at(arrays.view(), band, way, texels, k, &blocks[k]);
    }
}

// The findings for a call.
fn judge_call_no_alloc(
    call: &CheckedCall,
    texels: &[[u8; 4]],
    blocks: &[[u8; 16]],
    judged: &mut [Verdict],
)
    requires band { AreCheckedRows (sides_of call.now.band.name).1 call.now.band }
    requires full { length texels.now ≡ call.now.band.width * call.now.band.height }
    requires blocks { length blocks.now
        ≡ block_count (sides_of call.now.band.name).0 call.now.band }
    requires places { length judged.old ≡ length blocks.now }
    ensures judged { AllAreJudged texels.now blocks.now judged.new call.now tt }
    ensures length { length judged.new ≡ length judged.old }
{
    let band = call.band;
    let way = &call.way;
    for_footprint!(
        band.name,
        judge_each_no_alloc(band, way, texels, blocks, judged)
    )
}

/// Judges each of the blocks of rows against the picture that they were made of, without memory,
/// and writes the findings for each.
///
/// # Errors
///
/// `Blocks` if the numbers of places for verdicts and of blocks differ; else the first wrong
/// argument. Nothing is then written.
pub fn judge_rows_no_alloc(
    rows: &Rows,
    options: &RowOptions,
    texels: &[[u8; 4]],
    blocks: &[[u8; 16]],
    judged: &mut [Verdict],
) -> Result<(), Argument>
    ensures judged { AnswersAlways (AllAreJudged texels.now blocks.now judged.new)
        (judging_of rows.now options.now (length texels.now) (length blocks.now)
        (length judged.old)) result }
    ensures length { length judged.new ≡ length judged.old }
    ensures unchanged { OnErr result (judged.new ≡ judged.old) }
{
    if judged.len() != blocks.len() {
        return Err(Argument::Blocks);
    }
    match checked_call(rows, options, texels.len(), blocks.len()) {
        Ok(call) => {
            judge_call_no_alloc(&call, texels, blocks, judged);
            Ok(())
        }
        Err(argument) => Err(argument),
    }
}
