// A counter of evaluated texels, with which contracts bound the work of a search.
ghost use Rattle.std.specs.Prelude.{◌≡◌, ◌+◌, ◌-◌, ◌^◌, min};
ghost use Rattle.texel_error.specs.Counting.{TakesAtMost};

use std::marker::{Model, PhantomData};

/// A counter of steps, each the evaluation of one texel. The type parameter `L` marks the owner:
/// code that is generic in `L` cannot make a counter of its caller's type, and so cannot reset the
/// count. In contracts a counter is its number of steps.
#[derive(Drop)]
pub struct Steps<L> {
    number: u64,
    owner: PhantomData<L>,
}

impl<L> Model for Steps<L> {
    ghost use Rattle.std.specs.Prelude.{ℕ};

    ghost Value = { ℕ };

    ghost view = { λ s. s.number };
}

impl Steps<()> {
    /// Returns a counter at 0.
    pub fn new() -> Steps<()>
        ensures { result ≡ 0 }
    {
        Steps {
            number: 0,
            owner: PhantomData,
        }
    }
}

impl<L> Steps<L> {
    /// Counts one step; the number never exceeds 2^64 - 1.
    pub fn tick(&mut self)
        ensures exact { self.new ≡ min (self.old + 1) (2 ^ 64 - 1) }
        ensures once { TakesAtMost self.old self.new 1 }
    {
        self.number = self.number.saturating_add(1);
    }

    /// Counts `steps` steps; the number never exceeds 2^64 - 1.
    #[inline(always)]
    pub fn count(&mut self, steps: u8)
        ensures exact { self.new ≡ min (self.old + steps) (2 ^ 64 - 1) }
        ensures most { TakesAtMost self.old self.new steps }
    {
        self.number = self.number.saturating_add(u64::from(steps));
    }

    /// Returns the number of counted steps.
    pub fn number(&self) -> u64
        ensures { result ≡ self.now }
    {
        self.number
    }
}
