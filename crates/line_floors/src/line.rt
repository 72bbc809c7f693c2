// The line through the two endpoints of a partition, and the squared distance of texels from it.
//
// The target of a texel is the blend of two endpoints that decodes to the texel, in units of 1/512
// of a step between bytes (`part_sums.rt`).
ghost use Rattle.std.specs.Prelude.{◌≡◌, ℕ, ◌+◌, ◌-◌, ◌*◌, ◌/◌, ◌^◌, ◌<◌, ◌≤◌, pos, neg_ℤ, ◌+ℤ◌, ◌*ℤ◌, slice_index};
ghost use Rattle.std.specs.Int.RustNames.{unsigned_abs};
ghost use Rattle.std.specs.List.{All};
ghost use Rattle.astc_model.specs.Limits.{most_texel_error};
ghost use Rattle.astc_model.specs.Errors.{squared_difference};
ghost use Rattle.line_floors.specs.Sums.{scale, AreSumsWithin};
ghost use Rattle.line_floors.specs.Lengths.{scaled, doubled, slope, slopes_of, dot, length_of, line_of, more_of, less_of, sum_of, squares_of, distance_of, AreSmallSlopes, IsSmallLine};

use crate::part_sums::PartitionSums;
use astc_model::Flavour;

/// The gradient of a linear function of a texel's targets.
#[derive(Clone, Copy)]
pub struct Slopes {
    pub red: i64,
    pub green: i64,
    pub blue: i64,
    pub alpha: i64,
}

/// The line through two endpoints. The scalar product of the line with a texel, from the first
/// endpoint on, is `constant` plus the products of `slopes` with the texel's targets; the distance
/// of the texel along the line is this divided by the square root of `length`.
#[derive(Clone, Copy)]
pub struct PartitionLine {
    /// The weight of each channel.
    pub gains: [u64; 4],
    /// The first endpoint in the units of targets.
    pub starts: [u64; 4],
    pub constant: i64,
    pub slopes: Slopes,
    /// The squared distance of the two endpoints in bytes, each channel with its weight; 1 if the
    /// endpoints are equal.
    pub length: u64,
}

// A channel of the first endpoint in the units of targets.
#[inline(always)]
fn start(flavour: Flavour, value: u8) -> u64
    ensures exact { result ≡ 2 * (scale flavour * value) }
    ensures small { result ≤ 131070 }
{
    match flavour {
        Flavour::Linear => 514 * u64::from(value),
        Flavour::Srgb => 512 * u64::from(value),
    }
}

#[inline(always)]
fn starts_of(flavour: Flavour, colour: &[u8; 4]) -> [u64; 4]
    ensures exact { result ≡ doubled (scaled flavour colour.now) }
    ensures small { All (λ start. start ≤ 131070) result }
{
    [
        start(flavour, colour[0]),
        start(flavour, colour[1]),
        start(flavour, colour[2]),
        start(flavour, colour[3]),
    ]
}

// The difference of the endpoints in a channel, times the weight of the channel.
#[inline(always)]
fn slope(gain: u64, from: u8, to: u8) -> i64
    requires gain { gain ≤ 15 }
    ensures exact { result ≡ slope gain from to }
    ensures small { unsigned_abs result ≤ 3825 }
{
    gain as i64 * (i64::from(to) - i64::from(from))
}

#[inline(always)]
fn square(value: u64) -> u64
    requires { value ≤ 131070 }
    ensures exact { result ≡ value * value }
    ensures small { (most : ℕ) → value ≤ most → result ≤ most * most }
{
    value * value
}

// The squared difference of the endpoints in a channel, times the weight of the channel.
#[inline(always)]
fn squared(gain: u64, first: u8, second: u8) -> u64
    requires gain { gain ≤ 15 }
    ensures exact { result ≡ gain * squared_difference second first }
    ensures small { result ≤ 975375 }
{
    let apart = u64::from(second.abs_diff(first));
    gain * square(apart)
}

#[inline(always)]
fn length_of(gains: &[u64; 4], first: &[u8; 4], second: &[u8; 4]) -> u64
    requires gains { All (λ gain. gain ≤ 15) gains.now }
    ensures exact { result ≡ length_of gains.now first.now second.now }
    ensures small { result ≤ most_texel_error }
{
    squared(gains[0], first[0], second[0])
        + squared(gains[1], first[1], second[1])
        + squared(gains[2], first[2], second[2])
        + squared(gains[3], first[3], second[3])
}

#[inline(always)]
fn product(slope: i64, value: u64) -> i64
    requires slope { unsigned_abs slope ≤ 3825 }
    requires value { value ≤ 17112564225 * 144 }
    ensures exact { result ≡ slope *ℤ pos value }
    ensures small { unsigned_abs result ≤ 3825 * value }
    ensures fits { unsigned_abs result ≤ 2 ^ 54 }
{
    slope * value as i64
}

#[inline(always)]
fn constant_sum(constant: i64, count: u64) -> i64
    requires constant { unsigned_abs constant ≤ 2005371000 }
    requires count { count ≤ 130815 * 144 }
    ensures exact { result ≡ constant *ℤ pos count }
    ensures small { unsigned_abs result ≤ 2005371000 * count }
    ensures fits { unsigned_abs result ≤ 2 ^ 56 }
{
    constant * count as i64
}

#[inline(always)]
fn constant_product(constant: i64, sum: i64) -> i128
    requires constant { unsigned_abs constant ≤ 2005371000 }
    requires sum { unsigned_abs sum < 2 ^ 40 }
    ensures exact { result ≡ constant *ℤ sum }
    ensures small { unsigned_abs result < 2 ^ 71 }
{
    i128::from(constant) * i128::from(sum)
}

#[inline(always)]
fn slope_product(slope: i64, sum: i64) -> i128
    requires slope { unsigned_abs slope ≤ 3825 }
    requires sum { unsigned_abs sum < 2 ^ 57 }
    ensures exact { result ≡ slope *ℤ sum }
    ensures small { unsigned_abs result < 2 ^ 69 }
{
    i128::from(slope) * i128::from(sum)
}

#[inline(always)]
fn sum_of_channels(red: i64, green: i64, blue: i64, alpha: i64) -> i64
    requires red { unsigned_abs red ≤ 2 ^ 54 }
    requires green { unsigned_abs green ≤ 2 ^ 54 }
    requires blue { unsigned_abs blue ≤ 2 ^ 54 }
    requires alpha { unsigned_abs alpha ≤ 2 ^ 54 }
    ensures exact { result ≡ red +ℤ green +ℤ blue +ℤ alpha }
    ensures small { unsigned_abs result
        ≤ unsigned_abs red + unsigned_abs green + unsigned_abs blue + unsigned_abs alpha }
{
    red + green + blue + alpha
}

#[inline(always)]
fn negated(value: i64) -> i64
    requires { unsigned_abs value ≤ 2 ^ 56 }
    ensures exact { result ≡ neg_ℤ value }
    ensures small { unsigned_abs result ≤ unsigned_abs value }
{
    -value
}

#[inline(always)]
fn plus(first: i64, second: i64) -> i64
    requires first { unsigned_abs first ≤ 2 ^ 56 }
    requires second { unsigned_abs second ≤ 2 ^ 56 }
    ensures exact { result ≡ first +ℤ second }
    ensures small { unsigned_abs result ≤ unsigned_abs first + unsigned_abs second }
{
    first + second
}

#[inline(always)]
fn wide_sum(red: i128, green: i128, blue: i128, alpha: i128) -> i128
    requires red { unsigned_abs red < 2 ^ 69 }
    requires green { unsigned_abs green < 2 ^ 69 }
    requires blue { unsigned_abs blue < 2 ^ 69 }
    requires alpha { unsigned_abs alpha < 2 ^ 69 }
    ensures exact { result ≡ red +ℤ green +ℤ blue +ℤ alpha }
    ensures small { unsigned_abs result < 2 ^ 71 }
{
    red + green + blue + alpha
}

#[inline(always)]
fn squares_sum(constant: i128, channels: i128) -> u128
    requires constant { unsigned_abs constant < 2 ^ 71 }
    requires channels { unsigned_abs channels < 2 ^ 71 }
    ensures exact { result ≡ unsigned_abs (constant +ℤ channels) }
    ensures small { result < 2 ^ 73 }
{
    (constant + channels).unsigned_abs()
}

#[inline(always)]
fn repeated_square(start: u64, count: u64) -> u64
    requires start { start ≤ 131070 }
    requires count { count ≤ 144 }
    ensures exact { result ≡ start * start * count }
    ensures small { result ≤ 2473825665600 }
{
    square(start) * count
}

// The added term of a channel in the squared distances from the first endpoint; `twice_of_channel`
// is subtracted.
#[inline(always)]
fn squares_of_channel(gain: u64, start: u64, count: u64, squares: u64) -> u64
    requires gain { gain ≤ 15 }
    requires start { start ≤ 131070 }
    requires count { count ≤ 144 }
    requires squares { squares ≤ 17112564225 * 144 }
    ensures exact { result ≡ gain * (start * start * count + squares) }
    ensures small { result ≤ 74070523770000 }
{
    gain * (repeated_square(start, count) + squares)
}

#[inline(always)]
fn twice_of_channel(gain: u64, start: u64, sum: u64) -> u64
    requires gain { gain ≤ 15 }
    requires start { start ≤ 131070 }
    requires sum { sum ≤ 130815 * 144 }
    ensures exact { result ≡ gain * (start * sum) }
    ensures small { result ≤ 37035191628000 }
{
    gain * (start * sum)
}

// The squared distances that remain of `first` after a reduction of `saved / length`, in units of
// 1/64, rounded down.
#[inline(always)]
fn remaining(length: u64, first: u64, saved: u128) -> u64
    requires some_length { 0 < length }
    requires first { first < 2 ^ 49 }
    requires saved { saved < 2 ^ 73 }
    ensures exact { result ≡ first / 4096 - (saved / 4096 / length + 1) }
    ensures small { result < 2 ^ 37 }
{
    let taken = (saved / 4096) as u64 / length + 1;
    (first / 4096).saturating_sub(taken)
}

impl Slopes {
    // The slopes for the line from one endpoint to another.
    #[inline(always)]
    fn of(gains: &[u64; 4], from: &[u8; 4], to: &[u8; 4]) -> Slopes
        requires gains { All (λ gain. gain ≤ 15) gains.now }
        ensures exact { result ≡ slopes_of gains.now from.now to.now }
        ensures small { AreSmallSlopes result }
    {
        Slopes {
            red: slope(gains[0], from[0], to[0]),
            green: slope(gains[1], from[1], to[1]),
            blue: slope(gains[2], from[2], to[2]),
            alpha: slope(gains[3], from[3], to[3]),
        }
    }

    #[inline(always)]
    fn dot(&self, values: &[u64; 4]) -> i64
        requires slopes { AreSmallSlopes self.now }
        requires values { All (λ value. value ≤ 17112564225 * 144) values.now }
        ensures exact { result ≡ dot self.now values.now }
        ensures small { unsigned_abs result
            ≤ 3825 * (slice_index values.now 0 + slice_index values.now 1
            + slice_index values.now 2 + slice_index values.now 3) }
        ensures fits { unsigned_abs result ≤ 2 ^ 56 }
    {
        let red = product(self.red, values[0]);
        let green = product(self.green, values[1]);
        let blue = product(self.blue, values[2]);
        let alpha = product(self.alpha, values[3]);
        sum_of_channels(red, green, blue, alpha)
    }

    // The constant with which the linear function is 0 at these targets.
    #[inline(always)]
    fn constant(&self, starts: &[u64; 4]) -> i64
        requires slopes { AreSmallSlopes self.now }
        requires starts { All (λ start. start ≤ 131070) starts.now }
        ensures exact { result ≡ neg_ℤ (dot self.now starts.now) }
        ensures small { unsigned_abs result ≤ 2005371000 }
    {
        negated(self.dot(starts))
    }
}

impl PartitionLine {
    /// The line through two endpoints, with the weights `gains` of the channels.
    #[tactic(auto, unfolding(crate::specs::Lengths::line_of))]
    pub(crate) fn new(
        flavour: Flavour,
        gains: &[u64; 4],
        colours: &([u8; 4], [u8; 4]),
    ) -> PartitionLine
        requires { All (λ gain. gain ≤ 15) gains.now }
        ensures exact { result ≡ line_of flavour gains.now colours.now }
        ensures small { IsSmallLine result }
    {
        let (first, second) = colours;
        let starts = starts_of(flavour, first);
        let slopes = Slopes::of(gains, first, second);
        let constant = slopes.constant(&starts);
        PartitionLine {
            gains: *gains,
            starts,
            constant,
            slopes,
            length: length_of(gains, first, second).max(1),
        }
    }

    // The added terms of the squared distances of the texels from the first endpoint; `less` is
    // subtracted.
    #[inline(always)]
    fn more(&self, sums: &PartitionSums) -> u64
        requires line { IsSmallLine self.now }
        requires sums { AreSumsWithin 144 sums.now }
        ensures exact { result ≡ more_of self.now sums.now }
        ensures small { result < 2 ^ 49 }
    {
        squares_of_channel(self.gains[0], self.starts[0], sums.count, sums.red[0])
            + squares_of_channel(self.gains[1], self.starts[1], sums.count, sums.green[1])
            + squares_of_channel(self.gains[2], self.starts[2], sums.count, sums.blue[2])
            + squares_of_channel(self.gains[3], self.starts[3], sums.count, sums.alpha[3])
    }

    #[inline(always)]
    fn less(&self, sums: &PartitionSums) -> u64
        requires line { IsSmallLine self.now }
        requires sums { AreSumsWithin 144 sums.now }
        ensures { result ≡ less_of self.now sums.now }
    {
        2 * (twice_of_channel(self.gains[0], self.starts[0], sums.sums[0])
            + twice_of_channel(self.gains[1], self.starts[1], sums.sums[1])
            + twice_of_channel(self.gains[2], self.starts[2], sums.sums[2])
            + twice_of_channel(self.gains[3], self.starts[3], sums.sums[3]))
    }

    // The sum of the linear function over the texels, if `count` is their number and `values` has
    // the sums of their targets. The sum of its products with a channel's targets, if `count` is
    // the sum of these and `values` has the sums of their products.
    #[inline(always)]
    fn sum(&self, count: u64, values: &[u64; 4]) -> i64
        requires line { IsSmallLine self.now }
        requires count { count ≤ 130815 * 144 }
        requires values { All (λ value. value ≤ 17112564225 * 144) values.now }
        ensures exact { result ≡ sum_of self.now count values.now }
        ensures small { unsigned_abs result
            ≤ 2005371000 * count + 3825 * (slice_index values.now 0 + slice_index values.now 1
            + slice_index values.now 2 + slice_index values.now 3) }
        ensures fits { unsigned_abs result < 2 ^ 57 }
    {
        let constant = constant_sum(self.constant, count);
        let rest = self.slopes.dot(values);
        plus(constant, rest)
    }

    // The term of the constant in the sum of the squares of the linear function.
    #[inline(always)]
    fn constant_part(&self, sums: &PartitionSums) -> i128
        requires line { IsSmallLine self.now }
        requires sums { AreSumsWithin 144 sums.now }
        ensures exact { result ≡ self.now.constant *ℤ sum_of self.now sums.now.count
            sums.now.sums }
        ensures small { unsigned_abs result < 2 ^ 71 }
    {
        let sum = self.sum(sums.count, &sums.sums);
        constant_product(self.constant, sum)
    }

    // The term of a channel in the sum of the squares of the linear function.
    #[inline(always)]
    fn part(&self, slope: i64, sum: u64, products: &[u64; 4]) -> i128
        requires line { IsSmallLine self.now }
        requires slope { unsigned_abs slope ≤ 3825 }
        requires sum { sum ≤ 130815 * 144 }
        requires products { All (λ value. value ≤ 17112564225 * 144) products.now }
        ensures exact { result ≡ slope *ℤ sum_of self.now sum products.now }
        ensures small { unsigned_abs result < 2 ^ 69 }
    {
        slope_product(slope, self.sum(sum, products))
    }

    // The sum of the squares of the linear function: the reduction of the squared distances by the
    // best weights, times `length`.
    #[inline(always)]
    fn saved(&self, sums: &PartitionSums) -> u128
        requires line { IsSmallLine self.now }
        requires sums { AreSumsWithin 144 sums.now }
        ensures exact { result ≡ unsigned_abs (squares_of self.now sums.now) }
        ensures small { result < 2 ^ 73 }
    {
        let red = self.part(self.slopes.red, sums.sums[0], &sums.red);
        let green = self.part(self.slopes.green, sums.sums[1], &sums.green);
        let blue = self.part(self.slopes.blue, sums.sums[2], &sums.blue);
        let alpha = self.part(self.slopes.alpha, sums.sums[3], &sums.alpha);
        squares_sum(self.constant_part(sums), wide_sum(red, green, blue, alpha))
    }

    /// The squared distances of the texels from the line, in units of 1/64, rounded down.
    #[inline(always)]
    #[tactic(auto, unfolding(crate::specs::Lengths::distance_of))]
    pub(crate) fn distance(&self, sums: &PartitionSums) -> u64
        requires line { IsSmallLine self.now }
        requires sums { AreSumsWithin 144 sums.now }
        ensures exact { result ≡ distance_of self.now sums.now }
        ensures small { result < 2 ^ 37 }
    {
        let first = self.more(sums).saturating_sub(self.less(sums));
        remaining(self.length, first, self.saved(sums))
    }
}
