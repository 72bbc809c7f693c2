// The error of one texel.
ghost use Rattle.std.specs.Prelude.{◌≡◌, ◌≤◌, ◌*◌};
ghost use Rattle.std.specs.List.{All};
ghost use Rattle.astc_model.specs.Limits.{most_texel_error};
ghost use Rattle.astc_model.specs.Errors.{squared_difference, texel_error};

// The squared difference of two 8-bit values of a channel, times the weight of the channel.
#[inline(always)]
fn channel_error(weight: u8, shown: u8, wanted: u8) -> u32
    requires { weight ≤ 15 }
    ensures exact { result ≡ weight * squared_difference shown wanted }
    ensures small { result ≤ 975375 }
{
    let apart = u32::from(shown.abs_diff(wanted));
    u32::from(weight) * (apart * apart)
}

/// Returns the error of a texel `shown` against a texel `wanted`: the sum of the squared
/// differences of red, green, blue and alpha, each times its weight. Weights are 0 to 15, so the
/// error is at most 3,901,500.
#[inline(always)]
#[tactic(auto, unfolding(crate::specs::Sums::sum_to))]
pub fn texel_error(weights: &[u8; 4], shown: &[u8; 4], wanted: &[u8; 4]) -> u32
    requires { All (λ weight. weight ≤ 15) weights.now }
    ensures exact { result ≡ texel_error weights.now shown.now wanted.now }
    ensures small { result ≤ most_texel_error }
{
    channel_error(weights[0], shown[0], wanted[0])
        + channel_error(weights[1], shown[1], wanted[1])
        + channel_error(weights[2], shown[2], wanted[2])
        + channel_error(weights[3], shown[3], wanted[3])
}
