// The partition of a texel: the one with the greatest of four scores, which the standard names a to
// d.
ghost use Rattle.std.specs.Prelude.{◌≡◌, ◌*◌, ◌/◌, ◌^◌, ◌+◌, ◌<◌, ◌≤◌, IsTrue};
ghost use Rattle.astc_model.specs.Footprints.{is_footprint};
ghost use Rattle.astc_model.specs.Partitions.{square_at, x_shift, y_shift, seed_shift, parts_shift, score, score_if, hash52, first_greatest, part_at, doubled, part_of};

use crate::hash52;

/// The square of nibble `k` of the hash, which is seed k + 1 of the standard.
#[inline]
#[tactic(auto, unfolding(astc_model::specs::Partitions::square_at))]
fn square_at(hash: u32, k: u32) -> u32
    requires { k < 8 }
    ensures square { result ≡ square_at hash k }
    ensures small { result ≤ 225 }
{
    let nibble = (hash >> (4 * k)) % 16;
    nibble * nibble
}

#[inline]
fn seed_shift(n: u32) -> u32
    ensures shift { result ≡ seed_shift n }
    ensures small { result < 8 }
{
    if n / 2 % 2 == 1 { 4 } else { 5 }
}

#[inline]
fn parts_shift(parts: u32) -> u32
    ensures shift { result ≡ parts_shift parts }
    ensures small { result < 8 }
{
    if parts == 3 { 6 } else { 5 }
}

/// The shift of the odd seeds (seed1, seed3 and so on), which multiply x.
#[inline]
fn x_shift(parts: u32, n: u32) -> u32
    ensures shift { result ≡ x_shift parts n }
    ensures small { result < 8 }
{
    if n % 2 == 1 {
        seed_shift(n)
    } else {
        parts_shift(parts)
    }
}

/// The shift of the even seeds (seed2, seed4 and so on), which multiply y.
#[inline]
fn y_shift(parts: u32, n: u32) -> u32
    ensures shift { result ≡ y_shift parts n }
    ensures small { result < 8 }
{
    if n % 2 == 1 {
        parts_shift(parts)
    } else {
        seed_shift(n)
    }
}

/// The term of one seed in a score: the shifted square times the coordinate.
#[inline]
fn slope(square: u32, shift: u32, distance: u32) -> u32
    requires square { square ≤ 225 }
    requires shift { shift < 8 }
    requires distance { distance ≤ 24 }
    ensures product { result ≡ square / 2 ^ shift * distance }
    ensures small { result ≤ 5400 }
{
    (square >> shift) * distance
}

/// The values that all texels of a block share: the hash, and the shifts of the squares.
#[derive(Clone, Copy)]
struct Pattern {
    hash: u32,
    x_shift: u32,
    y_shift: u32,
    ghost across: { x_shift < 8 },
    ghost down: { y_shift < 8 },
}

impl Pattern {
    /// The pattern for a number of partitions, where `n` is the number that is hashed.
    #[inline]
    fn new(parts: u32, n: u32) -> Self
        ensures hash { result.hash ≡ hash52 n }
        ensures across { result.x_shift ≡ x_shift parts n }
        ensures down { result.y_shift ≡ y_shift parts n }
    {
        Pattern {
            hash: hash52(n),
            x_shift: x_shift(parts, n),
            y_shift: y_shift(parts, n),
        }
    }

    /// The score, 0 to 63, of partition `k` at the texel (x, y).
    #[inline]
    #[tactic(auto, unfolding(astc_model::specs::Partitions::score))]
    fn score(self, k: u32, x: u32, y: u32) -> u32
        requires part { k < 4 }
        requires x { x ≤ 24 }
        requires y { y ≤ 24 }
        ensures { result ≡ score self.hash self.x_shift self.y_shift k x y }
    {
        let by_x = slope(square_at(self.hash, 2 * k), self.x_shift, x);
        let by_y = slope(square_at(self.hash, 2 * k + 1), self.y_shift, y);
        (by_x + by_y + (self.hash >> (14 - 4 * k))) % 64
    }

    /// The score of partition `k`, or 0 if the block has `k` partitions or fewer.
    #[inline]
    fn score_if(self, parts: u32, k: u32, x: u32, y: u32) -> u32
        requires part { k < 4 }
        requires x { x ≤ 24 }
        requires y { y ≤ 24 }
        ensures { result ≡ score_if parts k (score self.hash self.x_shift self.y_shift k x y) }
    {
        if k < parts { self.score(k, x, y) } else { 0 }
    }
}

/// The index of the greatest of four scores; the first one at a tie.
#[inline]
fn first_greatest(a: u32, b: u32, c: u32, d: u32) -> u8
    ensures { result ≡ first_greatest a b c d }
{
    if a >= b && a >= c && a >= d {
        0
    } else if b >= c && b >= d {
        1
    } else if c >= d {
        2
    } else {
        3
    }
}

/// The partition of a texel in a block of several partitions; x and y are doubled already in a
/// small block.
#[inline]
#[tactic(auto, unfolding(astc_model::specs::Partitions::part_at))]
fn part_at(parts: u32, n: u32, x: u32, y: u32) -> u8
    requires x { x ≤ 24 }
    requires y { y ≤ 24 }
    ensures { result ≡ part_at parts n x y }
{
    let pattern = Pattern::new(parts, n);
    let a = pattern.score(0, x, y);
    let b = pattern.score(1, x, y);
    let c = pattern.score_if(parts, 2, x, y);
    let d = pattern.score_if(parts, 3, x, y);
    first_greatest(a, b, c, d)
}

/// Twice the coordinate in a block of fewer than 31 texels, else the coordinate itself.
#[inline]
fn doubled<const W: usize, const H: usize>(x: u8) -> u32
    requires footprint { IsTrue (is_footprint W H) }
    requires inside { x ≤ 12 }
    ensures coordinate { result ≡ doubled W H x }
    ensures small { result ≤ 24 }
{
    if W * H < 31 {
        2 * u32::from(x)
    } else {
        u32::from(x)
    }
}

/// Returns the partition, 0 to 3, of the texel (x, y) in a block of `W` by `H` texels with 1 to 4
/// partitions; `seed` is the partition index, below 1024 (Khronos Data Format Specification, ASTC,
/// "Partition Pattern Generation").
#[tactic(auto, unfolding(astc_model::specs::Partitions::part_of))]
pub fn part_of<const W: usize, const H: usize>(parts: u8, seed: u16, x: u8, y: u8) -> u8
    requires footprint { IsTrue (is_footprint W H) }
    requires some { 1 ≤ parts }
    requires few { parts ≤ 4 }
    requires seed { seed < 1024 }
    requires x { x < W }
    requires y { y < H }
    ensures part { result ≡ part_of W H parts seed x y }
    ensures within { result < parts }
{
    if parts == 1 {
        return 0;
    }
    let parts = u32::from(parts);
    let n = u32::from(seed) + 1024 * (parts - 1);
    part_at(parts, n, doubled::<W, H>(x), doubled::<W, H>(y))
}
