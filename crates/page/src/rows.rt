// Rows of blocks.
ghost use Rattle.std.specs.Prelude.{◌≡◌, ◌≢◌, length};
ghost use Rattle.astc_rows.specs.Alone.{AllAreJudged, judging_of};
ghost use Rattle.astc_rows.specs.Arguments.{EndsAlways};
ghost use Rattle.astc_rows.specs.Bands.{checked_call};
ghost use Rattle.astc_rows.specs.Settling.{AreEncoded, AreRowsPolished};
ghost use Rattle.astc_rows.specs.Showing.{BandIsShown, checked_show};

use astc_rows::{
    RowOptions, Rows, Verdict, encode_rows_no_alloc, judge_rows_no_alloc, polish_rows_no_alloc,
    show_rows,
};

/// Encodes rows of blocks into `blocks`, and puts the sum of their errors into `error`.
///
/// Returns 0, or the number of the first wrong argument, from 1 on: width, height, format, first
/// row, count of rows, preset, weights, texels, blocks. Nothing is then written.
#[unsafe(no_mangle)]
pub extern "C" fn page_encode(
    rows: &Rows,
    options: &RowOptions,
    texels: &[[u8; 4]],
    blocks: &mut [[u8; 16]],
    error: &mut u64,
) -> u32
    ensures ends { EndsAlways (AreEncoded texels.now blocks.new)
        (checked_call rows.now options.now (length texels.now) (length blocks.old)) result
        error.new }
    ensures length { length blocks.new ≡ length blocks.old }
    ensures unchanged { result ≢ 0 → blocks.new ≡ blocks.old }
    ensures untold { result ≢ 0 → error.new ≡ error.old }
{
    match encode_rows_no_alloc(rows, options, texels, blocks) {
        Ok(sum) => {
            *error = sum;
            0
        }
        Err(argument) => argument.number(),
    }
}

/// Polishes rows of blocks in place, and writes the sum of their errors to `error`. The result is
/// as for [`page_encode`].
#[unsafe(no_mangle)]
pub extern "C" fn page_polish(
    rows: &Rows,
    options: &RowOptions,
    texels: &[[u8; 4]],
    blocks: &mut [[u8; 16]],
    error: &mut u64,
) -> u32
    ensures ends { EndsAlways (AreRowsPolished texels.now blocks.old blocks.new)
        (checked_call rows.now options.now (length texels.now) (length blocks.old)) result
        error.new }
    ensures length { length blocks.new ≡ length blocks.old }
    ensures unchanged { result ≢ 0 → blocks.new ≡ blocks.old }
    ensures untold { result ≢ 0 → error.new ≡ error.old }
{
    match polish_rows_no_alloc(rows, options, texels, blocks) {
        Ok(sum) => {
            *error = sum;
            0
        }
        Err(argument) => argument.number(),
    }
}

/// Judges each of the blocks of rows against the picture that they were made of. The result is as
/// for [`page_encode`]; a number of verdicts that differs from the number of blocks counts as wrong
/// blocks.
#[unsafe(no_mangle)]
pub extern "C" fn page_judge(
    rows: &Rows,
    options: &RowOptions,
    texels: &[[u8; 4]],
    blocks: &[[u8; 16]],
    judged: &mut [Verdict],
) -> u32
    ensures ends { EndsAlways (AllAreJudged texels.now blocks.now judged.new)
        (judging_of rows.now options.now (length texels.now) (length blocks.now)
        (length judged.old)) result tt }
    ensures length { length judged.new ≡ length judged.old }
    ensures unchanged { result ≢ 0 → judged.new ≡ judged.old }
{
    match judge_rows_no_alloc(rows, options, texels, blocks, judged) {
        Ok(()) => 0,
        Err(argument) => argument.number(),
    }
}

/// Writes the texels that rows of blocks show to `texels`, and the number of unreadable blocks to
/// `illegal`. The result is as for [`page_encode`].
#[unsafe(no_mangle)]
pub extern "C" fn page_show(
    rows: &Rows,
    blocks: &[[u8; 16]],
    texels: &mut [[u8; 4]],
    illegal: &mut u32,
) -> u32
    ensures ends { EndsAlways (BandIsShown blocks.now texels.new)
        (checked_show rows.now (length texels.old) (length blocks.now)) result illegal.new }
    ensures length { length texels.new ≡ length texels.old }
    ensures unchanged { result ≢ 0 → texels.new ≡ texels.old }
    ensures untold { result ≢ 0 → illegal.new ≡ illegal.old }
{
    match show_rows(rows, blocks, texels) {
        Ok(count) => {
            *illegal = count;
            0
        }
        Err(argument) => argument.number(),
    }
}
