// The value of one integer with the least error.
ghost use Rattle.std.specs.Prelude.{◌≡◌, ◌-◌, ◌*◌, ◌<◌, IfSome};
ghost use Rattle.texel_error.specs.Counting.{TakesAtMost};
ghost use Rattle.error_state.specs.Scans.{integers_of, range_of, error_now, reach_count, IsBetter, least_of, better_of, NoValueUnder};

use crate::kinds::CodedKind;
use crate::state::ErrorState;
use texel_error::Steps;

/// A value of an integer, and the error of the block with it.
#[derive(Clone, Copy, Debug, PartialEq, Eq)]
pub struct Better {
    pub value: u8,
    pub error: u32,
}

/// The error to get under: that of the value found so far, or the block's.
#[inline(always)]
pub fn least_of(total: u32, best: Option<Better>) -> u32
    ensures { result ≡ least_of total best }
{
    match best {
        None => total,
        Some(better) => better.error,
    }
}

/// The best value after another one was tried, whose error is given if it is below that of the
/// best.
#[inline(always)]
pub fn better_of(best: Option<Better>, value: u8, tried: Option<u32>) -> Option<Better>
    ensures { result ≡ better_of best value tried }
{
    match tried {
        None => best,
        Some(error) => Some(Better { value, error }),
    }
}

impl<'a, const W: usize, const H: usize> ErrorState<'a, W, H> {
    /// The value of integer `i` of a kind with which the block has the least error, if that is less
    /// than with its present value; None exactly if no other value gives less. A step is one texel:
    /// for each other value at most those inside the image that the integer can alter.
    pub fn best_value<L>(&self, kind: CodedKind, i: u8, steps: &mut Steps<L>) -> Option<Better>
        requires { i < integers_of self.now kind }
        ensures better { IfSome result (IsBetter W H self.now kind i) }
        ensures least { NoValueUnder W H self.now kind i
            (least_of (error_now W H self.now) result) }
        ensures steps { TakesAtMost steps.old steps.new
            ((range_of self.now kind - 1) * reach_count W H self.now kind i) }
    {
        match kind {
            CodedKind::Colour => self.best_colour(i, steps),
            CodedKind::Weight => self.best_weight(i, steps),
        }
    }
}
