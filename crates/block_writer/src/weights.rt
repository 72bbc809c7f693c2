// The bits of the weights, which are stored in reverse order from the top of the block.
ghost use Rattle.std.specs.Prelude.{◌≡◌, ℕ, ◌-◌, ◌^◌, ◌<◌, ◌≤◌};
ghost use Rattle.std.specs.Int.{bit_at};

use ise_codec::{field, reversed};

// The low `width` bits of the sequence in reverse order.
pub(crate) fn from_top(sequence: u128, width: u32) -> u128
    requires { width ≤ 128 }
    ensures turned { (i : ℕ) → i < width → bit_at result (width - 1 - i) ≡ bit_at sequence i }
    ensures fits { result < 2 ^ width }
{
    field(reversed(sequence), 128 - width, width)
}
