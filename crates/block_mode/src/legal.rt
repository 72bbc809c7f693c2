// Tests whether a block is legal, field by field.
ghost use Rattle.std.specs.Prelude.{◌≡◌, ◌+◌, ◌*◌, ◌<◌, ◌≤◌, ◌↔◌, IsTrue, length, nat_lt};
ghost use Rattle.std.specs.List.{list_all};
ghost use Rattle.astc_model.specs.Blocks.{Legal, IsLegalConstant, is_extent_in_order};
ghost use Rattle.astc_model.specs.Modes.{IsInModeRange, decoded_mode};
ghost use Rattle.block_mode.specs.Legality.{is_extent_legal, is_in_range, is_selected, is_mode_legal, is_single_legal, are_spares_fixed, is_plane_of, are_integers_of, are_values_legal, is_legal_on_grid, is_legal_under, is_legal_coded};
ghost use Rattle.astc_model.specs.Shapes.{grid_fault, colour_shape, weight_count};

use crate::colours::{colour_count, colour_shape};
use crate::modes::mode_of;
use crate::weights::{grid_fault, weight_count};
use astc_model::{Block, Coded, Constant, Level, Mode};

// Whether the coordinates of a void extent fit 13 bits and are in order.
#[tactic(auto, unfolding(crate::specs::Legality::is_extent_legal))]
fn is_legal_extent(extent: &[u16; 4]) -> bool
    ensures { result ≡ is_extent_legal extent.now }
{
    extent.iter().all(|coordinate| *coordinate < 8192) && is_extent_ordered(extent)
}

/// Returns whether the coordinates of a void extent (least s, greatest s, least t, greatest t) are
/// in order, or are all 8191, which means that the block has no extent (Khronos Data Format
/// Specification, ASTC, "Void-Extent Blocks").
pub fn is_extent_ordered(extent: &[u16; 4]) -> bool
    ensures { result ≡ is_extent_in_order extent.now }
{
    extent.iter().all(|coordinate| *coordinate == 8191)
        || (extent[0] < extent[1] && extent[2] < extent[3])
}

// Whether a void-extent block is legal. The colour values are legal in any case.
fn is_legal_constant(constant: Constant) -> bool
    ensures { IsTrue result ↔ IsLegalConstant constant }
{
    is_legal_extent(&constant.extent)
}

// Whether the block mode, the number of partitions, the partition index, the selector and the
// endpoint modes of a block fit their fields.
#[tactic(auto, unfolding(crate::specs::Legality::is_in_range))]
fn fits_fields(coded: &Coded) -> bool
    ensures test { result ≡ is_in_range coded.now }
    ensures parts { IsTrue result → coded.now.parts ≤ 4 }
    ensures modes { length coded.now.cems ≡ 4 }
{
    let modes = coded.cems.iter().all(|cem| *cem < 16);
    coded.mode < 2048
        && 1 <= coded.parts
        && coded.parts <= 4
        && coded.seed < 1024
        && coded.selector < 4
        && modes
}

// Whether the endpoint mode `cem` can be encoded with this selector, when that of partition 0 is
// `first`.
#[tactic(auto, unfolding(crate::specs::Legality::is_selected))]
fn can_write(selector: u8, first: u8, cem: u8) -> bool
    ensures { result ≡ is_selected selector first cem }
{
    if selector == 0 {
        cem == first
    } else {
        selector <= cem / 4 + 1 && cem / 4 <= selector
    }
}

// Whether the endpoint mode of partition `part` can be encoded; it must be 0 if the block has no
// partition of this number.
#[tactic(auto, unfolding(crate::specs::Legality::is_mode_legal))]
fn has_legal_mode(coded: &Coded, part: u8) -> bool
    requires { part < 4 }
    ensures { result ≡ is_mode_legal coded.now part }
{
    let cem = coded.cems[usize::from(part)];
    if part < coded.parts {
        can_write(coded.selector, coded.cems[0], cem)
    } else {
        cem == 0
    }
}

// Whether the partition index and the selector are 0 if the block has only one partition.
#[tactic(auto, unfolding(crate::specs::Legality::is_single_legal))]
fn has_no_seed_alone(coded: &Coded) -> bool
    ensures { result ≡ is_single_legal coded.now }
{
    if coded.parts == 1 {
        coded.seed == 0 && coded.selector == 0
    } else {
        true
    }
}

// Whether all fields that the block does not store are 0, and its endpoint modes can be encoded.
#[tactic(auto, unfolding(crate::specs::Legality::are_spares_fixed))]
fn has_fixed_spares(coded: &Coded) -> bool
    ensures { result ≡ are_spares_fixed coded.now }
{
    has_no_seed_alone(coded)
        && (has_legal_mode(coded, 0)
            && has_legal_mode(coded, 1)
            && has_legal_mode(coded, 2)
            && has_legal_mode(coded, 3))
}

// Whether `plane` is 1 to 4 for a mode with two planes, and 0 for a mode with one.
#[tactic(auto, unfolding(crate::specs::Legality::is_plane_of))]
fn names_plane(mode: &Mode, plane: u8) -> bool
    ensures { result ≡ is_plane_of mode.now plane }
{
    if mode.planes == 2 {
        1 <= plane && plane <= 4
    } else {
        plane == 0
    }
}

// Whether each of the integers is below `values`.
fn are_below(values: u16, integers: &[u8]) -> bool
    ensures { result ≡ list_all (λ integer. nat_lt integer values) integers.now }
{
    integers.iter().all(|integer| u16::from(*integer) < values)
}

// Whether there are `count` integers, all within the range of the level.
#[tactic(auto, unfolding(crate::specs::Legality::are_integers_of))]
fn fits_level(level: Level, count: u32, integers: &[u8]) -> bool
    ensures { result ≡ are_integers_of level count integers.now }
{
    integers.len() == count as usize && are_below(level.count(), integers)
}

// Whether a coded block with this mode has the right number of colour integers and weights, all
// within the ranges of their levels.
#[tactic(auto, unfolding(crate::specs::Legality::are_values_legal))]
fn has_legal_values(mode: &Mode, coded: &Coded) -> bool
    requires mode { IsInModeRange mode.now }
    requires weights { weight_count mode.now ≤ 64 }
    requires parts { coded.now.parts ≤ 4 }
    ensures { result ≡ are_values_legal coded.now mode.now
        (colour_shape mode.now coded.now.parts coded.now.selector coded.now.cems) }
{
    match colour_shape(mode, coded.parts, coded.selector, &coded.cems) {
        Ok(level) => {
            fits_level(
                level,
                colour_count(coded.parts, &coded.cems),
                coded.colours.as_slice(),
            ) && fits_level(mode.level, weight_count(mode), coded.weights.as_slice())
        }
        Err(_) => false,
    }
}

// Whether a coded block with this mode has a legal grid in a block of `W` by `H` texels, and legal
// integers.
#[tactic(auto, unfolding(crate::specs::Legality::is_legal_on_grid))]
fn has_legal_grid<const W: usize, const H: usize>(mode: &Mode, coded: &Coded) -> bool
    requires mode { IsInModeRange mode.now }
    requires parts { coded.now.parts ≤ 4 }
    ensures { result ≡ is_legal_on_grid coded.now mode.now (grid_fault W H mode.now) }
{
    match grid_fault::<W, H>(mode) {
        Some(_) => false,
        None => has_legal_values(mode, coded),
    }
}

// Whether the block mode of a coded block is valid and fits the other fields. The fields themselves
// are in range.
#[tactic(auto, unfolding(crate::specs::Legality::is_legal_under))]
fn has_legal_shape<const W: usize, const H: usize>(coded: &Coded) -> bool
    requires { coded.now.parts ≤ 4 }
    ensures { result ≡ is_legal_under W H coded.now (decoded_mode coded.now.mode) }
{
    match mode_of(coded.mode) {
        Some(mode) => names_plane(&mode, coded.plane) && has_legal_grid::<W, H>(&mode, coded),
        None => false,
    }
}

// Whether a coded block of `W` by `H` texels is legal.
#[tactic(auto, unfolding(crate::specs::Legality::is_legal_coded))]
fn passes<const W: usize, const H: usize>(coded: &Coded) -> bool
    ensures test { result ≡ is_legal_coded W H coded.now }
    ensures modes { length coded.now.cems ≡ 4 }
{
    fits_fields(coded) && has_fixed_spares(coded) && has_legal_shape::<W, H>(coded)
}

/// Returns whether the block is legal, that is, encodable and decodable in the LDR profile, for
/// blocks of `W` by `H` texels: each field is in range, fields that the block does not store are 0,
/// the shape has no fault, and each integer is within the range of its level (Khronos Data Format
/// Specification, ASTC, "Illegal Encodings").
pub fn is_legal<const W: usize, const H: usize>(block: &Block) -> bool
    ensures { IsTrue result ↔ Legal W H block.now }
{
    match block {
        Block::Constant(constant) => is_legal_constant(*constant),
        Block::Coded(coded) => passes::<W, H>(coded),
    }
}
