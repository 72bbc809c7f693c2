// The form of a partition as a quadratic function of one colour value, called its curve.
ghost use Rattle.std.specs.Prelude.{◌≡◌, ℕ, ◌+◌, ◌*◌, ◌^◌, ◌≤◌, ◌↔◌, IsTrue, List};
ghost use Rattle.std.specs.List.{All};
ghost use Rattle.error_tables.specs.Floors.{IsSmallFloor};
ghost use Rattle.colour_bounds.specs.Curves.{curve_more, curve_less, IsSmallCurve, IsOnCurve, IsAffine, IsQuadratic, AreStraight};

use error_tables::{PartitionFloor, Tables, form_of};
use moments::Form;

/// The form of a partition whose endpoints are linear functions of a value v: `square` * v^2 +
/// `slope` * v + `start` minus `less_slope` * v + `less_start`.
#[derive(Clone, Copy)]
pub struct Curve {
    pub square: u64,
    pub slope: u64,
    pub start: u64,
    pub less_slope: u64,
    pub less_start: u64,
}

// The curve through the forms at the values 0, 127 and 254.
fn curve_through(first: Form, middle: Form, last: Form) -> Curve
    requires first_more { first.more ≤ 2 ^ 61 }
    requires first_less { first.less ≤ 2 ^ 61 }
    requires middle_more { middle.more ≤ 2 ^ 61 }
    requires middle_less { middle.less ≤ 2 ^ 61 }
    requires last_more { last.more ≤ 2 ^ 61 }
    ensures more { (f : ℕ → ℕ) → IsQuadratic f → first.more ≡ f 0 → middle.more ≡ f 127 → last.more
        ≡ f 254 → (value : ℕ) → f value ≡ curve_more result value }
    ensures less { (f : ℕ → ℕ) → IsAffine f → first.less ≡ f 0 → middle.less ≡ f 127 → (value : ℕ)
        → f value ≡ curve_less result value }
    ensures small { IsSmallCurve result }
{
    let square = (first.more + last.more).saturating_sub(2 * middle.more) / 32_258;
    let slope = middle.more.saturating_sub(first.more + 16_129 * square) / 127;
    Curve {
        square,
        slope,
        start: first.more,
        less_slope: middle.less.saturating_sub(first.less) / 127,
        less_start: first.less,
    }
}

/// Returns the curve of a partition whose endpoints are linear functions of a value, from the
/// endpoints at the values 0, 127 and 254.
pub fn curve_of(
    tables: &Tables,
    floor: &PartitionFloor,
    first: &([u8; 4], [u8; 4]),
    middle: &([u8; 4], [u8; 4]),
    last: &([u8; 4], [u8; 4]),
) -> Curve
    requires weights { All (λ weight. weight ≤ 15) tables.now.weights }
    requires small { IsSmallFloor floor.now }
    ensures on { (ends : ℕ → List ℕ × List ℕ) → AreStraight ends → first.now ≡ ends 0 → middle.now
        ≡ ends 127 → last.now ≡ ends 254
        → (value : ℕ) → IsOnCurve tables.now floor.now result value (ends value) }
    ensures small { IsSmallCurve result }
{
    curve_through(
        form_of(tables, floor, first),
        form_of(tables, floor, middle),
        form_of(tables, floor, last),
    )
}

// A factor times the square of a byte.
fn with_square(factor: u64, value: u8) -> u64
    requires { 32258 * factor ≤ 2 ^ 62 }
    ensures exact { result ≡ factor * (value * value) }
    ensures small { 32258 * result ≤ 65025 * 2 ^ 62 }
{
    let value = u64::from(value);
    factor * (value * value)
}

// A factor times a byte.
fn with_byte(factor: u64, value: u8) -> u64
    requires { 127 * factor ≤ 2 ^ 61 }
    ensures exact { result ≡ factor * value }
    ensures small { 127 * result ≤ 255 * 2 ^ 61 }
{
    factor * u64::from(value)
}

impl Curve {
    /// Returns whether the form at `value` is at least `most`.
    #[inline(always)]
    pub fn reaches(self, value: u8, most: u64) -> bool
        requires small { IsSmallCurve self }
        requires most { most ≤ 2 ^ 61 }
        ensures { IsTrue result ↔ (curve_less self value + most ≤ curve_more self value) }
    {
        let more = with_square(self.square, value) + with_byte(self.slope, value) + self.start;
        let less = with_byte(self.less_slope, value) + self.less_start;
        more >= less + most
    }
}
