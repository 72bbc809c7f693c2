// The weight of a texel from the four points around it.
ghost use Rattle.std.specs.Prelude.{◌≡◌, ◌*◌, ◌<◌, ◌≤◌, IsTrue, length, slice_index};
ghost use Rattle.std.specs.List.{All};
ghost use Rattle.astc_model.specs.Footprints.{is_footprint};
ghost use Rattle.astc_model.specs.Infill.{infill};

use crate::factors;

/// The term of one grid point in the weight of a texel, in sixteenths.
#[inline(always)]
fn share(points: &[u8], place: u8, factor: u8) -> u32
    requires place { place < length points.now }
    requires factor { factor ≤ 16 }
    requires weights { All (λ weight. weight ≤ 64) points.now }
    ensures product { result ≡ slice_index points.now place * factor }
    ensures small { result ≤ 64 * factor }
{
    u32::from(points[place as usize]) * u32::from(factor)
}

/// Returns the weight, 0 to 64, of the texel (s, t) of a block of `W` by `H` texels. `points` has
/// the unquantized weights, each at most 64, of a grid of `n` columns and `m` rows, in rows from
/// the top (Khronos Data Format Specification, ASTC, "Weight Infill").
pub fn infill<const W: usize, const H: usize>(n: u8, m: u8, s: u8, t: u8, points: &[u8]) -> u8
    requires footprint { IsTrue (is_footprint W H) }
    requires some_columns { 2 ≤ n }
    requires columns { n ≤ W }
    requires some_rows { 2 ≤ m }
    requires rows { m ≤ H }
    requires across { s < W }
    requires down { t < H }
    requires count { length points.now ≡ n * m }
    requires weights { All (λ weight. weight ≤ 64) points.now }
    ensures weight { result ≡ infill W H n m s t points.now }
    ensures in_range { result ≤ 64 }
{
    let [(p00, w00), (p01, w01), (p10, w10), (p11, w11)] = factors::<W, H>(n, m, s, t);
    let above = share(points, p00, w00) + share(points, p01, w01);
    let below = share(points, p10, w10) + share(points, p11, w11);
    ((above + below + 8) / 16) as u8
}
