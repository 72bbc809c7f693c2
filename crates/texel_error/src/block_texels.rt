// Decodes the texels of a block.
ghost use Rattle.std.specs.Prelude.{◌≡◌, ℕ, ◌*◌, ◌/◌, ◌%◌, ◌<◌, slice_index_or, [], IsTrue};
ghost use Rattle.astc_model.specs.Footprints.{is_footprint};
ghost use Rattle.astc_model.specs.Blocks.{Legal};
ghost use Rattle.astc_model.specs.Errors.{texel};
ghost use Rattle.astc_model.specs.declared.block.Block.TheVariants.{Coded as CodedBlock};

use crate::decoded::{decode, top_bytes};
use crate::ends::ends_of_part;
use crate::mixing::shown;
use crate::shape::shape_of;
use crate::weights::{numerators_at, weight_values};
use astc_model::{Block, Coded, Flavour};
use partition_hash::part_of;

/// The error colour: red, green, blue and alpha of each texel that a decoder shows for an illegal
/// encoding.
pub const MAGENTA: [u8; 4] = [255, 0, 255, 255];

// The texel (x, y) of a block that is not a void extent.
fn coded_texel<const W: usize, const H: usize>(
    coded: &Coded,
    flavour: Flavour,
    x: u8,
    y: u8,
) -> [u8; 4]
    requires footprint { IsTrue (is_footprint W H) }
    requires legal { Legal W H (CodedBlock coded.now) }
    requires column { x < W }
    requires row { y < H }
    ensures { result ≡ texel W H flavour (CodedBlock coded.now) x y }
{
    let (mode, level) = shape_of::<W, H>(coded);
    let part = part_of::<W, H>(coded.parts, coded.seed, x, y);
    let ends = ends_of_part(coded, level, part);
    let values = weight_values(mode.level, coded.weights.as_slice());
    let numerators = numerators_at::<W, H>(mode, values.as_slice(), x, y);
    shown(flavour, coded.plane, &ends, numerators)
}

/// Decodes the texel in column `x` and row `y` of a legal block of `W` by `H` texels: returns red,
/// green, blue and alpha (Khronos Data Format Specification, ASTC, "Weight Application" and
/// "Void-Extent Blocks"). To decode all texels of a block, [`texels`] is faster.
pub fn texel<const W: usize, const H: usize>(
    block: &Block,
    flavour: Flavour,
    x: u8,
    y: u8,
) -> [u8; 4]
    requires footprint { IsTrue (is_footprint W H) }
    requires legal { Legal W H block.now }
    requires column { x < W }
    requires row { y < H }
    ensures { result ≡ texel W H flavour block.now x y }
{
    match block {
        Block::Constant(constant) => top_bytes(&constant.rgba),
        Block::Coded(coded) => coded_texel::<W, H>(coded, flavour, x, y),
    }
}

/// Decodes all texels of a legal block of `W` by `H` texels. The first `W * H` entries are the
/// texels in rows from the top; later entries have no meaning.
pub fn texels<const W: usize, const H: usize>(block: &Block, flavour: Flavour) -> [[u8; 4]; 144]
    requires footprint { IsTrue (is_footprint W H) }
    requires legal { Legal W H block.now }
    ensures { (p : ℕ) → p < W * H → slice_index_or result p [] ≡ texel W H flavour block.now (p % W)
        (p / W) }
{
    let decoded = decode::<W, H>(block, flavour);
    let mut all = [[0u8; 4]; 144];
    for p in 0..W * H {
        all[p] = decoded.texel(p);
    }
    all
}
