//! Lower bounds on the error of a block with any given endpoints, from sums (moments) over its
//! texels. For fixed weights the error is a quadratic function of the two endpoints; its
//! coefficients are sums over the texels, so that no texel has to be decoded again for other
//! endpoints.
#![tactic(auto)]

ghost use Rattle.std.specs.Prelude.{◌≡◌, ℕ, ◌+◌, ◌-◌, ◌*◌, ◌^◌, ◌<◌, ◌≤◌, ◌↔◌, IsTrue};
ghost use Rattle.moments.specs.Floors.{factor_of, target, no_moments, with_texel, IsWithin, AreSmall, more_of, less_of, IsFloored, IsMost};

/// How an endpoint channel of 8 bits is widened to 16 bits: the byte is repeated (linear flavour,
/// and alpha), or followed by 128 (red, green and blue of sRGB).
#[derive(Clone, Copy)]
pub enum Widening {
    Repeated,
    Centred,
}

/// The sums over a set of texels in one channel that give a lower bound on the error for any two
/// endpoints. With the weight w of the second endpoint, u = 64 - w of the first, and the blend t
/// that decodes to the texel of the source, they are the sums of u^2, u * w, w^2, u * t, w * t and
/// t^2.
#[derive(Clone, Copy)]
pub struct Moments {
    pub first_squares: u64,
    pub products: u64,
    pub second_squares: u64,
    pub first_targets: u64,
    pub second_targets: u64,
    pub target_squares: u64,
}

/// Returns an endpoint channel in the units of the bounds: 257 or 256 times the byte, without the
/// 128 of the second widening.
pub fn scaled(widening: Widening, value: u8) -> u64
    ensures exact { result ≡ factor_of widening * value }
    ensures small { result < 2 ^ 16 }
{
    match widening {
        Widening::Repeated => 257 * u64::from(value),
        Widening::Centred => 256 * u64::from(value),
    }
}

// The blend, 64 times a channel of 16 bits, from which rounding gives the byte `wanted` of the
// source: about the middle of all such blends.
fn target(widening: Widening, wanted: u8) -> u64
    ensures exact { result ≡ target widening wanted }
    ensures small { result ≤ 4186080 }
{
    match widening {
        Widening::Repeated => 16384 * u64::from(wanted) + 8160,
        Widening::Centred => 16384 * u64::from(wanted),
    }
}

fn square(value: u64) -> u64
    requires { value ≤ 4186080 }
    ensures exact { result ≡ value * value }
    ensures small { result ≤ 17523265766400 }
{
    value * value
}

fn product(weight: u64, value: u64) -> u64
    requires weight { weight ≤ 64 }
    requires value { value ≤ 4186080 }
    ensures exact { result ≡ weight * value }
    ensures small { result ≤ 267909120 }
{
    weight * value
}

fn weights_product(first: u64, second: u64) -> u64
    requires first { first ≤ 64 }
    requires second { second ≤ 64 }
    ensures exact { result ≡ first * second }
    ensures small { result ≤ 4096 }
{
    first * second
}

impl Moments {
    /// Returns the moments of an empty set of texels.
    pub fn new() -> Moments
        ensures { result ≡ no_moments }
    {
        Moments {
            first_squares: 0,
            products: 0,
            second_squares: 0,
            first_targets: 0,
            second_targets: 0,
            target_squares: 0,
        }
    }

    /// Adds a texel with weight `weight` of the second endpoint and the byte `wanted` in the
    /// source. The set has at most 144 texels.
    pub fn add(&mut self, widening: Widening, weight: u8, wanted: u8)
        requires weight { weight ≤ 64 }
        requires room { IsWithin 143 self.old }
        ensures exact { self.new ≡ with_texel self.old (64 - weight) weight
            (target widening wanted) }
        ensures within { (n : ℕ) → IsWithin n self.old → IsWithin (n + 1) self.new }
    {
        let second = u64::from(weight);
        let first = 64 - second;
        let aim = target(widening, wanted);
        self.first_squares += weights_product(first, first);
        self.products += weights_product(first, second);
        self.second_squares += weights_product(second, second);
        self.first_targets += product(first, aim);
        self.second_targets += product(second, aim);
        self.target_squares += square(aim);
    }
}

/// The sum of squares from which a lower bound on the error follows, as the difference
/// `more - less` of two numbers.
#[derive(Clone, Copy)]
pub struct Form {
    pub more: u64,
    pub less: u64,
}

// The form of one channel with its two endpoints in the units of the bounds.
#[tactic(auto, using(crate::proofs::KeptLaws::product_fits))]
fn form_at(moments: &Moments, first: u64, second: u64) -> Form
    requires small { AreSmall moments.now }
    requires first_small { first < 2 ^ 16 }
    requires second_small { second < 2 ^ 16 }
    ensures more { result.more ≡ more_of moments.now first second }
    ensures less { result.less ≡ less_of moments.now first second }
    ensures more_small { result.more ≤ 5 * 2 ^ 52 }
    ensures less_small { result.less ≤ 5 * 2 ^ 52 }
{
    Form {
        more: first * first * moments.first_squares
            + 2 * (first * second * moments.products)
            + second * second * moments.second_squares
            + moments.target_squares,
        less: 2 * (first * moments.first_targets + second * moments.second_targets),
    }
}

/// Returns a number such that the error is at least `limit` if a form is at least this number.
/// `weight` is the sum of the channel weights over all texels.
pub fn most(limit: u64, weight: u64) -> u64
    requires limit_small { limit < 2 ^ 30 }
    requires weight_small { weight < 2 ^ 14 }
    ensures exact { IsMost result limit weight }
    ensures small { result ≤ 2 ^ 61 }
{
    let root = (limit * weight).isqrt() + 1;
    (4 * limit + 4 * root + weight) * 67_108_864
}

impl Form {
    /// Returns the form of no channel, which is 0.
    pub fn new() -> Form
        ensures more { result.more ≡ 0 }
        ensures less { result.less ≡ 0 }
    {
        Form { more: 0, less: 0 }
    }

    /// Adds the form of a channel with endpoints `first` and `second`, times the channel weight
    /// `share`.
    pub fn add(&mut self, share: u64, widening: Widening, moments: &Moments, first: u8, second: u8)
        requires share_small { share ≤ 15 }
        requires small { AreSmall moments.now }
        requires more_room { self.old.more ≤ 2 ^ 62 }
        requires less_room { self.old.less ≤ 2 ^ 62 }
        ensures more { self.new.more ≡ self.old.more + share * more_of moments.now
            (factor_of widening * first) (factor_of widening * second) }
        ensures less { self.new.less ≡ self.old.less + share * less_of moments.now
            (factor_of widening * first) (factor_of widening * second) }
        ensures more_grown { self.new.more ≤ self.old.more + 2 ^ 59 }
        ensures less_grown { self.new.less ≤ self.old.less + 2 ^ 59 }
    {
        let form = form_at(moments, scaled(widening, first), scaled(widening, second));
        self.more += share * form.more;
        self.less += share * form.less;
    }

    /// Returns whether the form is at least `most`, a result of [`most`]; the error is then at
    /// least the limit.
    pub fn reaches(&self, most: u64) -> bool
        requires less_small { self.now.less ≤ 2 ^ 62 }
        requires most_small { most ≤ 2 ^ 61 }
        ensures exact { IsTrue result ↔ (self.now.less + most ≤ self.now.more) }
        ensures floor { (e w limit : ℕ) → IsFloored self.now.more self.now.less e w
            → IsMost most limit w → IsTrue result → limit ≤ e }
    {
        self.more >= self.less + most
    }
}
