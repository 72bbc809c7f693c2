// The checked arguments of a call.
ghost use Rattle.std.specs.Prelude.{◌≡◌, ◌≤◌, ◌-◌, ◌+◌, ◌*◌, ◌/◌, ◌^◌, IfOk, length};
ghost use Rattle.astc_model.specs.FootprintNames.{sides_of};
ghost use Rattle.astc_rows.specs.Formats.{format_of, preset_of};
ghost use Rattle.astc_rows.specs.Bands.{AreCheckedRows, IsCheckedCall, checked_rows, checked_call, covering, is_side, placed, settings_in, sized, checked_options};

use crate::arguments::{Argument, RowOptions, Rows};
use astc_model::{ChannelWeights, Flavour, FootprintName, Preset};
use encoder::Settings;

/// Rows of blocks of a picture.
#[derive(Clone, Copy, Debug, PartialEq, Eq)]
pub struct CheckedRows {
    /// The width of the picture in texels.
    pub width: u32,
    /// The height of the picture.
    pub height: u32,
    /// The footprint of the blocks.
    pub name: FootprintName,
    /// How their colours are meant.
    pub flavour: Flavour,
    /// The first row.
    pub first: u32,
    /// The number of rows.
    pub count: u32,
}

/// The preset and the weights of a call, and whether blocks are fitted.
#[derive(Clone, Copy, Debug, PartialEq, Eq)]
pub struct CheckedOptions {
    pub preset: Preset,
    pub weights: ChannelWeights,
    /// Whether a block that is fitted to its source counts as a proposal.
    pub fits: bool,
}

/// The checked arguments of a call.
#[derive(Clone, Copy, Debug, PartialEq, Eq)]
pub struct CheckedCall {
    pub band: CheckedRows,
    pub way: CheckedOptions,
}

fn is_side(n: u32) -> bool
    ensures { result ≡ is_side n }
{
    1 <= n && n <= 8192
}

/// The footprint and the flavour with this number in OpenGL and KTX; None if there are none.
pub fn format_of(n: u32) -> Option<(FootprintName, Flavour)>
    ensures { result ≡ format_of n }
{
    FootprintName::from_gl(n)
}

// The preset with this number.
fn preset_of(n: u32) -> Option<Preset>
    ensures { result ≡ preset_of n }
{
    match n {
        0 => Some(Preset::Flat),
        1 => Some(Preset::Quick),
        2 => Some(Preset::Medium),
        3 => Some(Preset::Thorough),
        4 => Some(Preset::Pairs),
        _ => None,
    }
}

/// The number of lengths of `unit` texels that cover a side.
pub(crate) fn covering(side: u32, unit: u32) -> u32
    requires some { 1 ≤ unit }
    requires few { unit ≤ 12 }
    requires short { side ≤ 8192 }
    ensures exact { result ≡ covering side unit }
    ensures most { result ≤ 8203 }
{
    (side + (unit - 1)) / unit
}

// The rows of a footprint, if they are within the picture.
fn placed(rows: Rows, name: FootprintName, flavour: Flavour) -> Result<CheckedRows, Argument>
    requires { rows.height ≤ 8192 }
    ensures { result ≡ placed rows (name, flavour) }
{
    let all = covering(rows.height, name.sides().1);
    if rows.first > all {
        return Err(Argument::First);
    }
    if rows.count > all - rows.first {
        return Err(Argument::Count);
    }
    Ok(CheckedRows {
        width: rows.width,
        height: rows.height,
        name,
        flavour,
        first: rows.first,
        count: rows.count,
    })
}

/// The rows of blocks with these numbers, or the first wrong one.
#[tactic(auto, unfolding(crate::specs::Bands::checked_rows))]
pub(crate) fn checked_rows(rows: Rows) -> Result<CheckedRows, Argument>
    ensures same { result ≡ checked_rows rows }
    ensures band { IfOk result (λ band. AreCheckedRows (sides_of band.name).1 band) }
{
    if !is_side(rows.width) {
        return Err(Argument::Width);
    }
    if !is_side(rows.height) {
        return Err(Argument::Height);
    }
    match format_of(rows.format) {
        Some((name, flavour)) => placed(rows, name, flavour),
        None => Err(Argument::Format),
    }
}

/// The preset and the weights with these numbers, or the first wrong one.
#[tactic(auto, unfolding(crate::specs::Bands::checked_options))]
fn checked_options(options: &RowOptions) -> Result<CheckedOptions, Argument>
    ensures { result ≡ checked_options options.now }
{
    let Some(preset) = preset_of(options.preset) else {
        return Err(Argument::Preset);
    };
    match ChannelWeights::new(options.weights) {
        Some(weights) => Ok(CheckedOptions {
            preset,
            weights,
            fits: options.fitted != 0,
        }),
        None => Err(Argument::Weights),
    }
}

/// How the blocks of rows are compressed.
pub(crate) fn settings_in(band: CheckedRows, way: &CheckedOptions) -> Settings
    ensures { result ≡ settings_in band way.now }
{
    Settings {
        preset: way.preset,
        flavour: band.flavour,
        weights: way.weights,
        fits: way.fits,
    }
}

// The call, if both slices have the required lengths.
fn sized(
    band: CheckedRows,
    way: CheckedOptions,
    texels: usize,
    blocks: usize,
) -> Result<CheckedCall, Argument>
    requires { AreCheckedRows (sides_of band.name).1 band }
    ensures same { result ≡ sized band way texels blocks }
    ensures call { IfOk result (λ call. IsCheckedCall call texels blocks) }
{
    if texels != band.width as usize * band.height as usize {
        return Err(Argument::Texels);
    }
    let columns = covering(band.width, band.name.sides().0);
    if blocks != band.count as usize * columns as usize {
        return Err(Argument::Blocks);
    }
    Ok(CheckedCall { band, way })
}

/// The checked arguments of a call with slices of this number of texels and blocks, or the first
/// wrong argument.
#[tactic(auto, unfolding(crate::specs::Bands::checked_call))]
pub(crate) fn checked_call(
    rows: &Rows,
    options: &RowOptions,
    texels: usize,
    blocks: usize,
) -> Result<CheckedCall, Argument>
    ensures same { result ≡ checked_call rows.now options.now texels blocks }
    ensures call { IfOk result (λ call. IsCheckedCall call texels blocks) }
{
    let band = checked_rows(*rows)?;
    let way = checked_options(options)?;
    sized(band, way, texels, blocks)
}
