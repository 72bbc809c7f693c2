// The channel weights of the error.
ghost use Rattle.std.specs.Prelude.{◌≡◌, ◌≤◌, ◌↔◌, nat_le, nat_lt, IsTrue, IsSome, IfSome, length};
ghost use Rattle.std.specs.List.{All, list_all, list_any};
ghost use Rattle.astc_model.specs.Weights.{is_weighting, even_weights};

use std::marker::Model;

/// The weight of each channel in the error: four numbers of 0 to 15 for red, green, blue and alpha,
/// not all 0. In contracts the weights are the list of the four numbers.
#[derive(Clone, Copy, Debug, PartialEq, Eq)]
pub struct ChannelWeights {
    of: [u8; 4],
}

impl Model for ChannelWeights {
    ghost use Rattle.std.specs.Prelude.{ℕ, List, IsTrue};
    ghost use Rattle.astc_model.specs.Weights.{is_weighting};

    ghost Value = { List ℕ };

    ghost view = { λ weights. weights.of };

    ghost invariant = { λ weights. IsTrue (is_weighting weights.of) };

    ghost inverse = { λ of. record { of = of } };
}

fn are_small(of: &[u8; 4]) -> bool
    ensures { result ≡ list_all (λ weight. nat_le weight 15) of.now }
{
    of.iter().all(|weight| *weight <= 15)
}

fn is_some(of: &[u8; 4]) -> bool
    ensures { result ≡ list_any (λ weight. nat_lt 0 weight) of.now }
{
    of.iter().any(|weight| 0 < *weight)
}

fn is_weighting(of: &[u8; 4]) -> bool
    ensures { result ≡ is_weighting of.now }
{
    are_small(of) && is_some(of)
}

impl ChannelWeights {
    /// Returns the weights; None exactly if a number is over 15 or all four are 0.
    pub fn new(of: [u8; 4]) -> Option<ChannelWeights>
        ensures listed { IsSome result ↔ IsTrue (is_weighting of) }
        ensures same { IfSome result (λ weights. weights ≡ of) }
    {
        if is_weighting(&of) {
            Some(ChannelWeights { of })
        } else {
            None
        }
    }

    /// Returns a weight of 1 for each channel.
    pub fn even() -> ChannelWeights
        ensures { result ≡ even_weights }
    {
        ChannelWeights { of: [1; 4] }
    }

    /// Returns the four weights, in the order red, green, blue, alpha.
    pub fn of(self) -> [u8; 4]
        ensures same { result ≡ self }
        ensures four { length result ≡ 4 }
        ensures small { All (λ weight. weight ≤ 15) result }
    {
        self.of
    }
}
