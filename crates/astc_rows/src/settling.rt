// Blocks settled in place.
ghost use Rattle.std.specs.Prelude.{◌≡◌, ◌≤◌, ◌<◌, ◌*◌, ◌^◌, length, slice_index_or, [], IsTrue, IfOk, OnErr};
ghost use Rattle.astc_model.specs.Footprints.{is_footprint};
ghost use Rattle.astc_model.specs.FootprintNames.{sides_of};
ghost use Rattle.astc_model.specs.Limits.{most_block_error};
ghost use Rattle.encoder.specs.Encoders.{IsEncoded};
ghost use Rattle.astc_rows.specs.Arguments.{Answers};
ghost use Rattle.astc_rows.specs.Bands.{AreCheckedRows, block_count, checked_call, error_at, settings_in, source_at};
ghost use Rattle.astc_rows.specs.Settling.{AreEncoded, AreRowsPolished, AreRowsSettled, proposals_at, proposals_of};

use crate::arguments::{CallStop, RowOptions, Rows};
use crate::bands::{CheckedCall, CheckedOptions, CheckedRows, checked_call, settings_in};
use crate::sources::source_at;
use astc_model::{Footprint, for_footprint};
use descent::{FitScratch, SearchTables, SearchView, fit_scratch};
use encoder::{Encoder, shown_block};
use std::alloc::{AllocError, Global};

// The bytes of a settled block for place `k` and its error. The block that is there is a proposal
// if it is kept.
fn settle_at<const W: usize, const H: usize>(
    encoder: &Encoder<W, H>,
    band: CheckedRows,
    texels: &[[u8; 4]],
    k: usize,
    old: &[u8; 16],
    keeps: bool,
    scratch: &mut FitScratch,
) -> ([u8; 16], u32)
    requires footprint { IsTrue (is_footprint W H) }
    requires band { AreCheckedRows H band }
    requires full { length texels.now ≡ band.width * band.height }
    requires block { k < block_count W band }
    ensures settled { IsEncoded W H encoder.now (source_at W H band texels.now k)
        (proposals_of W H keeps old.now) result.0 result.1 }
    ensures small { result.1 ≤ most_block_error }
{
    let source = source_at::<W, H>(band, texels, k);
    if keeps {
        encoder.settle(&source, &[shown_block::<W, H>(old)], scratch)
    } else {
        encoder.settle(&source, &[], scratch)
    }
}

/// Settles each block in place, and returns the sum of their errors.
#[inline(never)]
pub(crate) fn settle_each<const W: usize, const H: usize>(
    tables: SearchView<W, H>,
    band: CheckedRows,
    way: &CheckedOptions,
    texels: &[[u8; 4]],
    blocks: &mut [[u8; 16]],
    keeps: bool,
) -> u64
    requires footprint { IsTrue (is_footprint W H) }
    requires band { AreCheckedRows H band }
    requires full { length texels.now ≡ band.width * band.height }
    requires blocks { length blocks.old ≡ block_count W band }
    ensures settled { AreRowsSettled W H band way.now texels.now (proposals_at W H keeps blocks.old)
        (block_count W band) blocks.new result }
    ensures length { length blocks.new ≡ length blocks.old }
{
    let encoder = Encoder::new(settings_in(band, way), tables);
    let mut total = 0u64;
    fit_scratch!(scratch);
    for k in 0..blocks.len() {
        let old = &blocks[k];
        let (block, error) = settle_at(&encoder, band, texels, k, old, keeps, scratch);
        blocks[k] = block;
        total += u64::from(error);
    }
    total
}

/// The tables that the blocks of a picture share.
pub(crate) fn tables_for<const W: usize, const H: usize>(
    alloc: Global,
    band: CheckedRows,
    way: &CheckedOptions,
) -> Result<SearchTables<W, H>, AllocError>
    requires { IsTrue (is_footprint W H) }
{
    let mut tables = SearchTables::new(alloc, Footprint::new(), way.preset)?;
    tables.prepare(band.width, band.height)?;
    Ok(tables)
}

// Settles the blocks with tables that the blocks of the picture share.
fn settle_with_tables<const W: usize, const H: usize>(
    alloc: Global,
    band: CheckedRows,
    way: &CheckedOptions,
    texels: &[[u8; 4]],
    blocks: &mut [[u8; 16]],
    keeps: bool,
) -> Result<u64, AllocError>
    requires band { AreCheckedRows H band }
    requires footprint { IsTrue (is_footprint W H) }
    requires full { length texels.now ≡ band.width * band.height }
    requires blocks { length blocks.old ≡ block_count W band }
    ensures settled { IfOk result
        (AreRowsSettled W H band way.now texels.now (proposals_at W H keeps blocks.old)
        (block_count W band) blocks.new) }
    ensures unchanged { OnErr result (blocks.new ≡ blocks.old) }
{
    let tables = tables_for::<W, H>(alloc, band, way)?;
    Ok(settle_each(tables.view(), band, way, texels, blocks, keeps))
}

// The settled blocks of a call.
fn settle_call(
    alloc: Global,
    call: &CheckedCall,
    texels: &[[u8; 4]],
    blocks: &mut [[u8; 16]],
    keeps: bool,
) -> Result<u64, AllocError>
    requires band { AreCheckedRows (sides_of call.now.band.name).1 call.now.band }
    requires full { length texels.now ≡ call.now.band.width * call.now.band.height }
    requires blocks { length blocks.old
        ≡ block_count (sides_of call.now.band.name).0 call.now.band }
    ensures settled { IfOk result (AreRowsSettled (sides_of call.now.band.name).0
        (sides_of call.now.band.name).1 call.now.band call.now.way texels.now
        (proposals_at (sides_of call.now.band.name).0 (sides_of call.now.band.name).1 keeps
        blocks.old) (block_count (sides_of call.now.band.name).0 call.now.band)
        blocks.new) }
    ensures unchanged { OnErr result (blocks.new ≡ blocks.old) }
{
    let band = call.band;
    let way = &call.way;
    for_footprint!(
        band.name,
        settle_with_tables(alloc, band, way, texels, blocks, keeps)
    )
}

/// Encodes the blocks of rows: writes each block's 16 bytes to `blocks`, and returns the sum of
/// their errors. Each block is settled for its source, as `part` settles it with the same options.
///
/// `texels` has the whole picture, red, green, blue and alpha of each texel, in rows from the top;
/// `blocks` has as many blocks as the rows.
///
/// # Errors
///
/// The first argument that is wrong, or out of memory: then nothing is written.
pub fn encode_rows(
    alloc: Global,
    rows: &Rows,
    options: &RowOptions,
    texels: &[[u8; 4]],
    blocks: &mut [[u8; 16]],
) -> Result<u64, CallStop>
    ensures encoded { Answers (AreEncoded texels.now blocks.new)
        (checked_call rows.now options.now (length texels.now) (length blocks.old)) result }
    ensures length { length blocks.new ≡ length blocks.old }
    ensures unchanged { OnErr result (blocks.new ≡ blocks.old) }
{
    match checked_call(rows, options, texels.len(), blocks.len()) {
        Ok(call) => match settle_call(alloc, &call, texels, blocks, false) {
            Ok(error) => Ok(error),
            Err(_) => Err(CallStop::NoMemory),
        },
        Err(argument) => Err(CallStop::Wrong(argument)),
    }
}

/// Polishes the blocks of rows in place, and returns the sum of their errors. Each block is settled
/// for its source with the block that was there as a proposal: a legal block, or the constant
/// magenta that a decoder shows for other bytes. No block is further from its source than before.
///
/// # Errors
///
/// The first argument that is wrong, or out of memory: then nothing is written.
pub fn polish_rows(
    alloc: Global,
    rows: &Rows,
    options: &RowOptions,
    texels: &[[u8; 4]],
    blocks: &mut [[u8; 16]],
) -> Result<u64, CallStop>
    ensures polished { Answers (AreRowsPolished texels.now blocks.old blocks.new)
        (checked_call rows.now options.now (length texels.now) (length blocks.old)) result }
    ensures length { length blocks.new ≡ length blocks.old }
    ensures unchanged { OnErr result (blocks.new ≡ blocks.old) }
{
    match checked_call(rows, options, texels.len(), blocks.len()) {
        Ok(call) => match settle_call(alloc, &call, texels, blocks, true) {
            Ok(error) => Ok(error),
            Err(_) => Err(CallStop::NoMemory),
        },
        Err(argument) => Err(CallStop::Wrong(argument)),
    }
}
