// Blocks judged.
ghost use Rattle.std.specs.Prelude.{◌≡◌, ◌≤◌, ◌<◌, ◌*◌, ◌^◌, length, IsTrue, IfOk};
ghost use Rattle.astc_model.specs.Footprints.{is_footprint};
ghost use Rattle.astc_model.specs.FootprintNames.{sides_of};
ghost use Rattle.astc_model.specs.Limits.{most_block_error};
ghost use Rattle.encoder.specs.Verdicts.{IsVerdict};
ghost use Rattle.astc_rows.specs.Arguments.{Answers};
ghost use Rattle.astc_rows.specs.Bands.{AreCheckedRows, block_count, checked_call, source_at};
ghost use Rattle.astc_rows.specs.Judging.{AreAudited, AreRowsJudged, bad_in};

use crate::arguments::{CallStop, RowOptions, Rows};
use crate::bands::{CheckedCall, CheckedOptions, CheckedRows, checked_call, settings_in};
use crate::settling::tables_for;
use crate::sources::source_at;
use astc_model::for_footprint;
use descent::SearchView;
use encoder::{Encoder, Verdict};
use std::alloc::{AllocError, Global};

/// The findings for blocks.
#[repr(C)]
#[derive(Clone, Copy, Debug, PartialEq, Eq)]
pub struct RowFindings {
    /// The sum of their errors; bytes that are not a block count as magenta.
    pub error: u64,
    /// The number of bad blocks: illegal, or further from their source than a listed block, or than
    /// a change of one integer.
    pub bad: u64,
}

/// The verdict on the block at place `k`.
pub(crate) fn verdict_at<const W: usize, const H: usize>(
    tables: SearchView<W, H>,
    band: CheckedRows,
    way: &CheckedOptions,
    texels: &[[u8; 4]],
    k: usize,
    bytes: &[u8; 16],
) -> Verdict
    requires footprint { IsTrue (is_footprint W H) }
    requires band { AreCheckedRows H band }
    requires full { length texels.now ≡ band.width * band.height }
    requires block { k < block_count W band }
    ensures verdict { IsVerdict W H band.flavour way.now.weights way.now.preset
        (source_at W H band texels.now k) bytes.now result }
    ensures small { result.error ≤ most_block_error }
{
    let source = source_at::<W, H>(band, texels, k);
    Encoder::new(settings_in(band, way), tables).verdict(bytes, &source)
}

// 1 for a bad block.
fn bad_in(verdict: Verdict) -> u64
    ensures exact { result ≡ bad_in verdict }
    ensures one { result ≤ 1 }
{
    u64::from(verdict.is_bad())
}

// The findings for all blocks.
fn judge_each<const W: usize, const H: usize>(
    tables: SearchView<W, H>,
    band: CheckedRows,
    way: &CheckedOptions,
    texels: &[[u8; 4]],
    blocks: &[[u8; 16]],
) -> RowFindings
    requires footprint { IsTrue (is_footprint W H) }
    requires band { AreCheckedRows H band }
    requires full { length texels.now ≡ band.width * band.height }
    requires blocks { length blocks.now ≡ block_count W band }
    ensures { AreRowsJudged W H band way.now texels.now (block_count W band) blocks.now result }
{
    let mut findings = RowFindings { error: 0, bad: 0 };
    for k in 0..blocks.len() {
        let verdict = verdict_at(tables, band, way, texels, k, &blocks[k]);
        findings.error += u64::from(verdict.error);
        findings.bad += bad_in(verdict);
    }
    findings
}

// The findings, with tables that the blocks of the picture share.
fn judge_with_tables<const W: usize, const H: usize>(
    alloc: Global,
    band: CheckedRows,
    way: &CheckedOptions,
    texels: &[[u8; 4]],
    blocks: &[[u8; 16]],
) -> Result<RowFindings, AllocError>
    requires footprint { IsTrue (is_footprint W H) }
    requires band { AreCheckedRows H band }
    requires full { length texels.now ≡ band.width * band.height }
    requires blocks { length blocks.now ≡ block_count W band }
    ensures { IfOk result (AreRowsJudged W H band way.now texels.now
        (block_count W band) blocks.now) }
{
    let tables = tables_for::<W, H>(alloc, band, way)?;
    Ok(judge_each(tables.view(), band, way, texels, blocks))
}

// The findings for a call.
fn judge_call(
    alloc: Global,
    call: &CheckedCall,
    texels: &[[u8; 4]],
    blocks: &[[u8; 16]],
) -> Result<RowFindings, AllocError>
    requires band { AreCheckedRows (sides_of call.now.band.name).1 call.now.band }
    requires full { length texels.now ≡ call.now.band.width * call.now.band.height }
    requires blocks { length blocks.now
        ≡ block_count (sides_of call.now.band.name).0 call.now.band }
    ensures { IfOk result (AreAudited texels.now blocks.now call.now) }
{
    let band = call.band;
    let way = &call.way;
    for_footprint!(
        band.name,
        judge_with_tables(alloc, band, way, texels, blocks)
    )
}

/// Judges the blocks of rows against the picture that they were made of: the sum of their errors,
/// and the number of bad blocks, as in the command `audit`.
///
/// # Errors
///
/// The first argument that is wrong, or out of memory.
pub fn audit_rows(
    alloc: Global,
    rows: &Rows,
    options: &RowOptions,
    texels: &[[u8; 4]],
    blocks: &[[u8; 16]],
) -> Result<RowFindings, CallStop>
    ensures { Answers (AreAudited texels.now blocks.now)
        (checked_call rows.now options.now (length texels.now) (length blocks.now)) result }
{
    match checked_call(rows, options, texels.len(), blocks.len()) {
        Ok(call) => match judge_call(alloc, &call, texels, blocks) {
            Ok(findings) => Ok(findings),
            Err(_) => Err(CallStop::NoMemory),
        },
        Err(argument) => Err(CallStop::Wrong(argument)),
    }
}
