//! The calls for C programs: rows of blocks encoded, shown, judged and polished. The calls keep no
//! state, so any number of threads may call at once. `include/astc_tool.h` describes them for C.
#![tactic(auto)]

ghost use Rattle.std.specs.Prelude.{◌≡◌, ◌≢◌, length};
ghost use Rattle.astc_rows.specs.Arguments.{Ends, EndsAlways};
ghost use Rattle.astc_rows.specs.Bands.{checked_call};
ghost use Rattle.astc_rows.specs.Judging.{AreAudited};
ghost use Rattle.astc_rows.specs.Settling.{AreEncoded, AreRowsPolished};
ghost use Rattle.astc_rows.specs.Showing.{BandIsShown, checked_show};

use astc_rows::{
    RowFindings, RowOptions, Rows, audit_rows, encode_rows, polish_rows, show_rows, version,
};
use std::alloc::Global;

/// Encodes the blocks of rows, and writes the sum of their errors. The status is 0, the number of
/// the first wrong argument, or 10 if memory ran out; unless it is 0, nothing is written.
#[unsafe(no_mangle)]
pub extern "C" fn astc_encode_rows(
    alloc: Global,
    rows: &Rows,
    options: &RowOptions,
    texels: &[[u8; 4]],
    blocks: &mut [[u8; 16]],
    error: &mut u64,
) -> u32
    ensures ends { Ends (AreEncoded texels.now blocks.new)
        (checked_call rows.now options.now (length texels.now) (length blocks.old)) result
        error.new }
    ensures unchanged { result ≢ 0 → blocks.new ≡ blocks.old }
    ensures untold { result ≢ 0 → error.new ≡ error.old }
{
    match encode_rows(alloc, rows, options, texels, blocks) {
        Ok(sum) => {
            *error = sum;
            0
        }
        Err(stop) => stop.status(),
    }
}

/// Polishes the blocks of rows in place, and writes the sum of their errors: no block is further
/// from its source than before. The status is that of [`astc_encode_rows`].
#[unsafe(no_mangle)]
pub extern "C" fn astc_polish_rows(
    alloc: Global,
    rows: &Rows,
    options: &RowOptions,
    texels: &[[u8; 4]],
    blocks: &mut [[u8; 16]],
    error: &mut u64,
) -> u32
    ensures ends { Ends (AreRowsPolished texels.now blocks.old blocks.new)
        (checked_call rows.now options.now (length texels.now) (length blocks.old)) result
        error.new }
    ensures unchanged { result ≢ 0 → blocks.new ≡ blocks.old }
    ensures untold { result ≢ 0 → error.new ≡ error.old }
{
    match polish_rows(alloc, rows, options, texels, blocks) {
        Ok(sum) => {
            *error = sum;
            0
        }
        Err(stop) => stop.status(),
    }
}

/// Judges the blocks of rows, and writes the findings. The status is that of [`astc_encode_rows`].
#[unsafe(no_mangle)]
pub extern "C" fn astc_audit_rows(
    alloc: Global,
    rows: &Rows,
    options: &RowOptions,
    texels: &[[u8; 4]],
    blocks: &[[u8; 16]],
    findings: &mut RowFindings,
) -> u32
    ensures ends { Ends (AreAudited texels.now blocks.now)
        (checked_call rows.now options.now (length texels.now) (length blocks.now)) result
        findings.new }
    ensures untold { result ≢ 0 → findings.new ≡ findings.old }
{
    match audit_rows(alloc, rows, options, texels, blocks) {
        Ok(found) => {
            *findings = found;
            0
        }
        Err(stop) => stop.status(),
    }
}

/// Shows the blocks of rows, and writes the number of unreadable blocks. The status is 0, or the
/// number of the first wrong argument: nothing is then written.
#[unsafe(no_mangle)]
pub extern "C" fn astc_show_rows(
    rows: &Rows,
    blocks: &[[u8; 16]],
    texels: &mut [[u8; 4]],
    illegal: &mut u32,
) -> u32
    ensures ends { EndsAlways (BandIsShown blocks.now texels.new)
        (checked_show rows.now (length texels.old) (length blocks.now)) result illegal.new }
    ensures unchanged { result ≢ 0 → texels.new ≡ texels.old }
    ensures untold { result ≢ 0 → illegal.new ≡ illegal.old }
{
    match show_rows(rows, blocks, texels) {
        Ok(count) => {
            *illegal = count;
            0
        }
        Err(argument) => argument.number(),
    }
}

/// The version: 65,536 times its first number, 256 times its second, and its third.
#[unsafe(no_mangle)]
pub extern "C" fn astc_version() -> u32
    ensures { result ≡ 512 }
{
    version()
}
