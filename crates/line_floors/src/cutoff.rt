// The limit on squared distances that corresponds to a limit on the error.
ghost use Rattle.std.specs.Prelude.{◌≡◌, ℕ, ◌+◌, ◌*◌, ◌^◌, ◌<◌, ◌≤◌, ◌↔◌, IsTrue};
ghost use Rattle.line_floors.specs.Floors.{IsUnder};

/// A limit on the error, and the squared distances from which follows that the error reaches it.
#[derive(Clone, Copy)]
pub struct Cutoff {
    /// The sum of the channel weights over all texels.
    pub weight: u64,
    pub limit: u32,
    /// The squared distances, in units of 1/64, from which on the error is at least `limit`. The
    /// number is rounded up by little.
    pub distances: u64,
    ghost enough: { (error : ℕ) → IsUnder distances weight error → limit ≤ error },
}

// One Newton step towards the square root of n, from above.
fn nearer(n: u64, root: u64) -> u64
    requires n { n ≤ 2 ^ 48 }
    requires some { 0 < root }
    requires root { root ≤ 2 ^ 62 }
    ensures some { 0 < result }
    ensures small { result ≤ 2 ^ 62 }
{
    (root + n / root) / 2 + 1
}

// A number close to the square root of n. That it is not below the root is expected, not proved.
fn near_root(n: u64) -> u64
    requires { n ≤ 2 ^ 48 }
    ensures { result ≤ 2 ^ 62 }
{
    let power = 1u64 << ((65 - n.leading_zeros()) / 2);
    nearer(n, nearer(n, nearer(n, power)))
}

// A number that is at least the square root of n, and larger by little.
fn root_above(n: u64) -> u64
    requires { n ≤ 2 ^ 48 }
    ensures covers { n ≤ result * result }
    ensures small { result < 2 ^ 33 }
{
    let near = near_root(n);
    if near < 0x1_0000_0000 && n <= near * near {
        near
    } else {
        n.isqrt() + 1
    }
}

impl Cutoff {
    /// Returns the cutoff of a limit, where `weight` is the sum of the channel weights over all
    /// texels.
    pub fn of(weight: u64, limit: u32) -> Cutoff
        requires { weight ≤ 34560 }
        ensures weight { result.weight ≡ weight }
        ensures limit { result.limit ≡ limit }
    {
        let wanted = u64::from(limit);
        let root = root_above(weight * wanted);
        Cutoff {
            weight,
            limit,
            distances: 16 * (4 * wanted + 4 * root + weight),
        }
    }

    /// Returns whether a block whose texels have at least these squared distances has at least the
    /// error `limit`.
    #[inline(always)]
    pub fn is_over(&self, distances: u64) -> bool
        ensures exact { IsTrue result ↔ (self.now.distances ≤ distances) }
        ensures floor { (weight error : ℕ) → weight ≤ self.now.weight
            → IsUnder distances weight error → IsTrue result → self.now.limit ≤ error }
    {
        distances >= self.distances
    }
}
