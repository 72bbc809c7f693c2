// The verdict on a block.
ghost use Rattle.std.specs.Prelude.{◌≡◌, ◌≤◌};
ghost use Rattle.astc_model.specs.Limits.{most_block_error};
ghost use Rattle.astc_model.specs.Shown.{error_shown};
ghost use Rattle.encoder.specs.Verdicts.{IsVerdict};
ghost use Rattle.astc_audit.specs.Verdicts.{IsGood};
ghost use Rattle.astc_audit.specs.Counts.{CountsOne};

use astc_model::{ChannelWeights, Flavour, Preset, Source};
use encoder::{Encoder, SearchView, Settings, Verdict};

/// The verdict on any 16 bytes as a block for a source: whether they are a block, their distance
/// from the source, whether no listed block is closer, and whether no change of one integer is
/// closer. Bytes that are not a block count as magenta. The call takes no memory.
pub fn audit_block<const W: usize, const H: usize>(
    preset: Preset,
    flavour: Flavour,
    weights: ChannelWeights,
    bytes: &[u8; 16],
    source: &Source<W, H>,
) -> Verdict
    ensures verdict { IsVerdict W H flavour weights preset source.now bytes.now result }
    ensures small { result.error ≤ most_block_error }
{
    let settings = Settings {
        preset,
        flavour,
        weights,
        fits: false,
    };
    Encoder::new(settings, SearchView::none()).verdict(bytes, source)
}

/// The error of a block, and 1 if it is bad.
pub(crate) fn judge<const W: usize, const H: usize>(
    encoder: &Encoder<W, H>,
    bytes: &[u8; 16],
    source: &Source<W, H>,
) -> (u32, u32)
    ensures error { result.0 ≡ error_shown W H encoder.now.flavour encoder.now.weights bytes.now
        source.now }
    ensures bad { CountsOne
        (IsGood W H encoder.now.flavour encoder.now.weights encoder.now.preset source.now
        bytes.now) result.1 }
    ensures one { result.1 ≤ 1 }
{
    let verdict = encoder.verdict(bytes, source);
    (verdict.error, u32::from(verdict.is_bad()))
}
