// The weights of the places, in sixteenths before they are rounded.
ghost use Rattle.std.specs.Prelude.{◌≡◌, ℕ, ◌+◌, ◌*◌, ◌/◌, ◌%◌, ◌<◌, ◌≤◌, length, map, slice_index, slice_index_or, [], ◌∷◌, IsTrue};
ghost use Rattle.std.specs.List.{All, sum_by};
ghost use Rattle.astc_model.specs.Levels.{count_of};
ghost use Rattle.astc_model.specs.Infill.{factors};
ghost use Rattle.astc_model.specs.Footprints.{is_footprint};
ghost use Rattle.astc_model.specs.WeightValues.{weight_value};
ghost use Rattle.texel_error.specs.Numerators.{plane_sum, last_plane};

use crate::places::place_at;
use arrayvec::ArrayVec;
use astc_model::{Level, Mode};
use quant_tables::weight_value;
use weight_infill::factors;

/// Returns the unquantized weights, 0 to 64, of weight integers of a level.
pub fn weight_values(level: Level, integers: &[u8]) -> ArrayVec<u8, 64>
    requires level { count_of level ≤ 32 }
    requires few { length integers.now ≤ 64 }
    requires ranges { All (λ integer. integer < count_of level) integers.now }
    ensures values { result.items ≡ map (weight_value level) integers.now }
    ensures all { length result.items ≡ length integers.now }
    ensures small { All (λ weight. weight ≤ 64) result.items }
{
    let mut values = ArrayVec::new();
    for integer in integers {
        values.push(weight_value(level, *integer));
    }
    values
}

// The term of a grid point in the weight of a texel in plane 0 or 1, in sixteenths.
#[inline(always)]
fn share(values: &[u8], planes: u8, plane: u8, point: (u8, u8)) -> u16
    requires planes { planes ≤ 2 }
    requires plane { plane < 2 }
    requires place { point.0 * planes + plane < length values.now }
    requires factor { point.1 ≤ 16 }
    requires values { All (λ weight. weight ≤ 64) values.now }
    ensures product { result ≡ slice_index values.now (point.0 * planes + plane) * point.1 }
    ensures small { result ≤ 64 * point.1 }
{
    let place = usize::from(point.0) * usize::from(planes) + usize::from(plane);
    u16::from(values[place]) * u16::from(point.1)
}

// The weight of a texel in plane 0 or 1 in sixteenths, from the four grid points around it.
#[inline(always)]
fn plane_numerator(values: &[u8], planes: u8, plane: u8, around: [(u8, u8); 4]) -> u16
    requires planes { planes ≤ 2 }
    requires plane { plane < 2 }
    requires places { All (λ point. point.0 * planes + plane < length values.now) around }
    requires factors { All (λ point. point.1 ≤ 16) around }
    requires total { sum_by (λ point. point.1) around ≡ 16 }
    requires values { All (λ weight. weight ≤ 64) values.now }
    ensures exact { result ≡ plane_sum planes plane values.now around }
    ensures small { result ≤ 1024 }
{
    let [first, second, third, fourth] = around;
    share(values, planes, plane, first)
        + share(values, planes, plane, second)
        + share(values, planes, plane, third)
        + share(values, planes, plane, fourth)
}

// The weights of a texel in both planes in sixteenths; with one plane both entries have its weight.
#[inline(always)]
pub(crate) fn numerators(values: &[u8], planes: u8, around: [(u8, u8); 4]) -> [u16; 2]
    requires some_plane { 1 ≤ planes }
    requires planes { planes ≤ 2 }
    requires places { All (λ point. point.0 * planes + last_plane planes < length values.now)
        around }
    requires factors { All (λ point. point.1 ≤ 16) around }
    requires total { sum_by (λ point. point.1) around ≡ 16 }
    requires values { All (λ weight. weight ≤ 64) values.now }
    ensures exact { result ≡ plane_sum planes 0 values.now around ∷ plane_sum planes
        (last_plane planes) values.now around ∷ [] }
    ensures small { All (λ n. n ≤ 1024) result }
{
    let first = plane_numerator(values, planes, 0, around);
    if planes == 1 {
        [first, first]
    } else {
        [first, plane_numerator(values, planes, 1, around)]
    }
}

/// Returns the weights of the texel (x, y) in both planes, in sixteenths before rounding (0 to
/// 1024). `values` has the unquantized weights of the block. With one plane, both entries have its
/// weight.
pub fn numerators_at<const W: usize, const H: usize>(
    mode: Mode,
    values: &[u8],
    x: u8,
    y: u8,
) -> [u16; 2]
    requires footprint { IsTrue (is_footprint W H) }
    requires some_columns { 2 ≤ mode.across }
    requires columns { mode.across ≤ W }
    requires some_rows { 2 ≤ mode.down }
    requires rows { mode.down ≤ H }
    requires some_plane { 1 ≤ mode.planes }
    requires planes { mode.planes ≤ 2 }
    requires across { x < W }
    requires down { y < H }
    requires all { length values.now ≡ mode.across * mode.down * mode.planes }
    requires values { All (λ weight. weight ≤ 64) values.now }
    ensures exact { result ≡ plane_sum mode.planes 0 values.now
        (factors W H mode.across mode.down x y)
        ∷ plane_sum mode.planes (last_plane mode.planes) values.now
        (factors W H mode.across mode.down x y) ∷ [] }
    ensures small { All (λ n. n ≤ 1024) result }
{
    let around = factors::<W, H>(mode.across, mode.down, x, y);
    numerators(values, mode.planes, around)
}

/// Returns the weights of each of the first `W * H` places in both planes, in sixteenths before
/// rounding; later entries are 0.
pub fn numerators_of<const W: usize, const H: usize>(mode: Mode, values: &[u8]) -> [[u16; 2]; 144]
    requires footprint { IsTrue (is_footprint W H) }
    requires some_columns { 2 ≤ mode.across }
    requires columns { mode.across ≤ W }
    requires some_rows { 2 ≤ mode.down }
    requires rows { mode.down ≤ H }
    requires some_plane { 1 ≤ mode.planes }
    requires planes { mode.planes ≤ 2 }
    requires all { length values.now ≡ mode.across * mode.down * mode.planes }
    requires values { All (λ weight. weight ≤ 64) values.now }
    ensures exact { (p : ℕ) → p < W * H → slice_index_or result p []
        ≡ plane_sum mode.planes 0 values.now (factors W H mode.across mode.down (p % W) (p / W))
        ∷ plane_sum mode.planes (last_plane mode.planes) values.now
        (factors W H mode.across mode.down (p % W) (p / W)) ∷ [] }
    ensures small { All (λ pair. All (λ n. n ≤ 1024) pair) result }
    ensures wide { length result ≡ 144 }
{
    let mut all = [[0u16; 2]; 144];
    for p in 0..W * H {
        let (x, y) = place_at::<W, H>(p);
        all[p] = numerators_at::<W, H>(mode, values, x, y);
    }
    all
}
