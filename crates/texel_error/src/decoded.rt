// A block prepared for decoding its texels.
ghost use Rattle.std.specs.Prelude.{◌≡◌, ℕ, ◌/◌, ◌<◌, map, slice_index_or, [], IsTrue};
ghost use Rattle.astc_model.specs.Footprints.{is_footprint};
ghost use Rattle.astc_model.specs.Blocks.{Legal};
ghost use Rattle.astc_model.specs.CodedTexels.{part_colours};
ghost use Rattle.astc_model.specs.declared.block.Block.TheVariants.{Constant as ConstantBlock, Coded as CodedBlock};
ghost use Rattle.texel_error.specs.Shaped.{IsShaped};
ghost use Rattle.texel_error.specs.Decoding.{AreNumerators, IsDecoded, IsSound, Shows, shown_at};

use crate::ends::ends_of_part;
use crate::mixing::shown;
use crate::places::parts_of;
use crate::shape::shape_of;
use crate::weights::{numerators_of, weight_values};
use astc_model::{Block, Coded, Constant, Flavour, Level, Mode};

/// A block prepared for decoding its texels: the partition and the weights of each place, and the
/// endpoints of each partition.
#[derive(Drop)]
pub struct Decoded {
    pub flavour: Flavour,
    /// 0 for one plane of weights; 1 to 4 for red, green, blue or alpha in the second plane.
    pub plane: u8,
    /// The partition of each place, in rows from the top.
    pub parts: [u8; 144],
    /// The two endpoints of each partition, each with red, green, blue and alpha.
    pub ends: [([u8; 4], [u8; 4]); 4],
    /// The weight of each place in both planes, in sixteenths before rounding (0 to 1024). With one
    /// plane, both entries have its weight.
    pub numerators: [[u16; 2]; 144],
}

/// Returns the two endpoints of each partition of a block; the entries for missing partitions have
/// no meaning.
pub fn part_ends<const W: usize, const H: usize>(
    coded: &Coded,
    mode: Mode,
    level: Level,
) -> [([u8; 4], [u8; 4]); 4]
    requires { IsShaped W H coded.now mode level }
    ensures { (part : ℕ) → part < coded.now.parts → slice_index_or result part ([], [])
        ≡ part_colours coded.now level part }
{
    let mut all = [([0u8; 4], [0u8; 4]); 4];
    for part in 0..coded.parts {
        all[usize::from(part)] = ends_of_part(coded, level, part);
    }
    all
}

/// Returns the weights of each place in both planes, in sixteenths before rounding.
pub fn block_numerators<const W: usize, const H: usize>(
    coded: &Coded,
    mode: Mode,
    level: Level,
) -> [[u16; 2]; 144]
    requires { IsShaped W H coded.now mode level }
    ensures { AreNumerators W H coded.now mode result }
{
    let values = weight_values(mode.level, coded.weights.as_slice());
    numerators_of::<W, H>(mode, values.as_slice())
}

/// Prepares a coded block of `W` by `H` texels with this block mode and this level of colour
/// integers.
pub fn decode_coded<const W: usize, const H: usize>(
    coded: &Coded,
    mode: Mode,
    level: Level,
    flavour: Flavour,
) -> Decoded
    requires { IsShaped W H coded.now mode level }
    ensures { IsDecoded W H flavour coded.now mode level result }
{
    Decoded {
        flavour,
        plane: coded.plane,
        parts: parts_of::<W, H>(coded.parts, coded.seed),
        ends: part_ends::<W, H>(coded, mode, level),
        numerators: block_numerators::<W, H>(coded, mode, level),
    }
}

// The high bytes of four values of 16 bits.
pub(crate) fn top_bytes(rgba: &[u16; 4]) -> [u8; 4]
    ensures { result ≡ map (λ value. value / 256) rgba.now }
{
    [
        (rgba[0] / 256) as u8,
        (rgba[1] / 256) as u8,
        (rgba[2] / 256) as u8,
        (rgba[3] / 256) as u8,
    ]
}

// Prepares a void-extent block. Both endpoints are the high bytes of the colour, which widening by
// repetition and taking the high byte gives back.
fn decode_constant<const W: usize, const H: usize>(constant: &Constant, flavour: Flavour) -> Decoded
    requires footprint { IsTrue (is_footprint W H) }
    requires legal { Legal W H (ConstantBlock constant.now) }
    ensures sound { IsSound result }
    ensures shows { Shows W H flavour (ConstantBlock constant.now) result }
{
    let colour = top_bytes(&constant.rgba);
    Decoded {
        flavour: Flavour::Linear,
        plane: 0,
        parts: [0; 144],
        ends: [(colour, colour); 4],
        numerators: [[0; 2]; 144],
    }
}

// Prepares a legal coded block.
pub(crate) fn decode_legal<const W: usize, const H: usize>(
    coded: &Coded,
    flavour: Flavour,
) -> Decoded
    requires footprint { IsTrue (is_footprint W H) }
    requires legal { Legal W H (CodedBlock coded.now) }
    ensures sound { IsSound result }
    ensures shows { Shows W H flavour (CodedBlock coded.now) result }
{
    let (mode, level) = shape_of::<W, H>(coded);
    decode_coded::<W, H>(coded, mode, level, flavour)
}

/// Prepares a legal block of `W` by `H` texels.
pub fn decode<const W: usize, const H: usize>(block: &Block, flavour: Flavour) -> Decoded
    requires footprint { IsTrue (is_footprint W H) }
    requires legal { Legal W H block.now }
    ensures sound { IsSound result }
    ensures shows { Shows W H flavour block.now result }
{
    match block {
        Block::Constant(constant) => decode_constant::<W, H>(constant, flavour),
        Block::Coded(coded) => decode_legal::<W, H>(coded, flavour),
    }
}

impl Decoded {
    /// Decodes the texel of place `p`: returns red, green, blue and alpha.
    pub fn texel(&self, p: usize) -> [u8; 4]
        requires sound { IsSound self.now }
        requires place { p < 144 }
        ensures { result ≡ shown_at self.now p }
    {
        let ends = &self.ends[usize::from(self.parts[p])];
        shown(self.flavour, self.plane, ends, self.numerators[p])
    }
}
