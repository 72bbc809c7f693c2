// Sums over the texels of a partition.
ghost use Rattle.std.specs.Prelude.{◌≡◌, ℕ, ◌+◌, ◌*◌, ◌/◌, ◌≤◌};
ghost use Rattle.std.specs.List.{All};
ghost use Rattle.line_floors.specs.Sums.{targets, no_sums, plus_targets, plus_products, with_texel, AreSumsWithin};

use astc_model::Flavour;

/// Sums over a set of texels: of their targets and of products of targets. The target of a channel
/// is the blend of two endpoints that decodes to the texel of the source, in units of 1/512 of a
/// step between bytes.
#[derive(Clone, Copy)]
pub struct PartitionSums {
    /// The number of texels.
    pub count: u64,
    /// The sum of the targets of each channel.
    pub sums: [u64; 4],
    /// The sums of the products of red's target with that of each channel.
    pub red: [u64; 4],
    /// The sums of the products of green's target with that of each channel.
    pub green: [u64; 4],
    /// The sums of the products of blue's target with that of each channel.
    pub blue: [u64; 4],
    /// The sums of the products of alpha's target with that of each channel.
    pub alpha: [u64; 4],
}

// The target of a channel whose endpoints are widened to 16 bits by repetition.
#[inline(always)]
fn repeated(wanted: u8) -> u64
    ensures exact { result ≡ 512 * wanted + 255 }
    ensures small { result ≤ 130815 }
{
    512 * u64::from(wanted) + 255
}

// The target of a channel whose endpoints are widened to 16 bits with 128 as low byte.
#[inline(always)]
fn centred(wanted: u8) -> u64
    ensures exact { result ≡ 512 * wanted }
    ensures small { result ≤ 130815 }
{
    512 * u64::from(wanted)
}

// The target of alpha in sRGB, which is widened by repetition, in the units of channels that are
// widened with 128.
#[inline(always)]
fn rescaled(wanted: u8) -> u64
    ensures exact { result ≡ (131072 * wanted + 65408) / 257 }
    ensures small { result ≤ 130815 }
{
    (131_072 * u64::from(wanted) + 65_408) / 257
}

/// The targets of the four channels of a texel.
#[inline(always)]
pub(crate) fn targets_of(flavour: Flavour, wanted: &[u8; 4]) -> [u64; 4]
    ensures exact { result ≡ targets flavour wanted.now }
    ensures small { All (λ target. target ≤ 130815) result }
{
    let [red, green, blue, alpha] = *wanted;
    match flavour {
        Flavour::Linear => [
            repeated(red),
            repeated(green),
            repeated(blue),
            repeated(alpha),
        ],
        Flavour::Srgb => [centred(red), centred(green), centred(blue), rescaled(alpha)],
    }
}

#[inline(always)]
fn product(first: u64, second: u64) -> u64
    requires first { first ≤ 130815 }
    requires second { second ≤ 130815 }
    ensures exact { result ≡ first * second }
    ensures small { result ≤ 17112564225 }
{
    first * second
}

#[inline(always)]
fn plus_targets(sums: &[u64; 4], targets: &[u64; 4]) -> [u64; 4]
    requires targets { All (λ target. target ≤ 130815) targets.now }
    requires room { All (λ sum. sum ≤ 130815 * 143) sums.now }
    ensures exact { result ≡ plus_targets sums.now targets.now }
    ensures within { (n : ℕ) → All (λ sum. sum ≤ 130815 * n) sums.now
        → All (λ sum. sum ≤ 130815 * (n + 1)) result }
{
    [
        sums[0] + targets[0],
        sums[1] + targets[1],
        sums[2] + targets[2],
        sums[3] + targets[3],
    ]
}

#[inline(always)]
fn plus_products(sums: &[u64; 4], factor: u64, targets: &[u64; 4]) -> [u64; 4]
    requires factor { factor ≤ 130815 }
    requires targets { All (λ target. target ≤ 130815) targets.now }
    requires room { All (λ sum. sum ≤ 17112564225 * 143) sums.now }
    ensures exact { result ≡ plus_products sums.now factor targets.now }
    ensures within { (n : ℕ) → All (λ sum. sum ≤ 17112564225 * n) sums.now
        → All (λ sum. sum ≤ 17112564225 * (n + 1)) result }
{
    [
        sums[0] + product(factor, targets[0]),
        sums[1] + product(factor, targets[1]),
        sums[2] + product(factor, targets[2]),
        sums[3] + product(factor, targets[3]),
    ]
}

impl PartitionSums {
    /// Returns the sums over an empty set of texels.
    pub fn new() -> PartitionSums
        ensures { result ≡ no_sums }
    {
        PartitionSums {
            count: 0,
            sums: [0; 4],
            red: [0; 4],
            green: [0; 4],
            blue: [0; 4],
            alpha: [0; 4],
        }
    }

    /// Adds a texel with these targets to a set of at most 143 texels.
    #[inline(always)]
    pub(crate) fn add(&mut self, targets: &[u64; 4])
        requires targets { All (λ target. target ≤ 130815) targets.now }
        requires room { AreSumsWithin 143 self.old }
        ensures exact { self.new ≡ with_texel self.old targets.now }
        ensures within { (n : ℕ) → AreSumsWithin n self.old → AreSumsWithin (n + 1) self.new }
    {
        let sums = plus_targets(&self.sums, targets);
        let red = plus_products(&self.red, targets[0], targets);
        let green = plus_products(&self.green, targets[1], targets);
        let blue = plus_products(&self.blue, targets[2], targets);
        let alpha = plus_products(&self.alpha, targets[3], targets);
        self.count += 1;
        self.sums = sums;
        self.red = red;
        self.green = green;
        self.blue = blue;
        self.alpha = alpha;
    }
}
