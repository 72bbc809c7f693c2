// Whether a change of one integer gives a block a smaller error.
ghost use Rattle.std.specs.Prelude.{◌<◌, ◌↔◌, IsTrue};
ghost use Rattle.astc_model.specs.Blocks.{Legal};
ghost use Rattle.astc_model.specs.declared.block.Block.TheVariants.{Constant as ConstantBlock, Coded as CodedBlock};
ghost use Rattle.texel_error.specs.Counting.{TakesAtMost};
ghost use Rattle.error_state.specs.Scans.{integers_of};
ghost use Rattle.descent.specs.Least.{NoChangeIsBetter, NoneBetter, texels_of, texels_of_changes};

use astc_model::{
    Block, ChannelWeights, Coded, Constant, Flavour, Source, constant_error, mean_constant,
};
use error_state::{CodedKind, ErrorState};
use texel_error::{Steps, error_of};

// Whether no other value of an integer of this kind gives a smaller error.
fn are_least<const W: usize, const H: usize, L>(
    state: &ErrorState<W, H>,
    kind: CodedKind,
    steps: &mut Steps<L>,
) -> bool
    ensures least { IsTrue result ↔ NoneBetter W H state.now kind }
    ensures steps { TakesAtMost steps.old steps.new
        (texels_of W H state.now kind (integers_of state.now kind)) }
{
    for i in 0..state.count(kind) {
        if let Some(_) = state.best_value(kind, i, steps) {
            return false;
        }
    }
    true
}

// A constant block is least exactly if its error is that of the mean constant.
fn is_least_constant<const W: usize, const H: usize>(
    constant: &Constant,
    flavour: Flavour,
    weights: ChannelWeights,
    source: &Source<W, H>,
) -> bool
    requires { Legal W H (ConstantBlock constant.now) }
    ensures { IsTrue result ↔ NoChangeIsBetter W H flavour weights source.now
        (ConstantBlock constant.now) }
{
    let _places = source.places();
    let error = error_of(&Block::Constant(*constant), flavour, weights, source);
    error <= constant_error(mean_constant(source), weights, source)
}

#[inline(never)]
pub(crate) fn is_least_coded<const W: usize, const H: usize, L>(
    coded: &Coded,
    flavour: Flavour,
    weights: ChannelWeights,
    source: &Source<W, H>,
    steps: &mut Steps<L>,
) -> bool
    requires { Legal W H (CodedBlock coded.now) }
    ensures exact { IsTrue result ↔ NoChangeIsBetter W H flavour weights source.now
        (CodedBlock coded.now) }
    ensures steps { TakesAtMost steps.old steps.new
        (texels_of_changes W H flavour weights source.now (CodedBlock coded.now)) }
{
    let state = ErrorState::<W, H>::start(coded, flavour, weights, source);
    are_least(&state, CodedKind::Colour, steps) && are_least(&state, CodedKind::Weight, steps)
}

/// Whether no change of one integer of a legal block to another value gives a smaller error: of a
/// coded block each colour integer and each weight, of a constant block its four values. A step is
/// one texel: at most those that each change can alter, over all changes, and none for a constant
/// block.
///
/// Not promised: that no other legal block has a smaller error, or one that differs in several
/// integers.
pub fn is_least<const W: usize, const H: usize, L>(
    block: &Block,
    flavour: Flavour,
    weights: ChannelWeights,
    source: &Source<W, H>,
    steps: &mut Steps<L>,
) -> bool
    requires { Legal W H block.now }
    ensures exact { IsTrue result ↔ NoChangeIsBetter W H flavour weights source.now block.now }
    ensures steps { TakesAtMost steps.old steps.new
        (texels_of_changes W H flavour weights source.now block.now) }
{
    match block {
        Block::Constant(constant) => is_least_constant(constant, flavour, weights, source),
        Block::Coded(coded) => is_least_coded(coded, flavour, weights, source, steps),
    }
}
