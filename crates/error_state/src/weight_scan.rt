// The value of one weight integer with the least error.
ghost use Rattle.std.specs.Prelude.{◌≡◌, ◌≢◌, ℕ, ◌+◌, ◌-◌, ◌*◌, ◌<◌, ◌≤◌, IfSome, slice_index};
ghost use Rattle.astc_model.specs.Levels.{count_of};
ghost use Rattle.texel_error.specs.Counting.{TakesAtMost};
ghost use Rattle.error_tables.specs.State.{view_of};
ghost use Rattle.error_tables.specs.WeightScans.{IsWeightScan};
ghost use Rattle.error_state.specs.Scans.{error_now, error_with_value, reach_count, IsBetter, least_of};
ghost use Rattle.error_state.specs.declared.kinds.CodedKind.TheVariants.{Weight as OfWeight};

use crate::scans::{Better, better_of, least_of};
use error_tables::{WeightScan, weight_tried};
use texel_error::Steps;

// The best of the values of a weight integer from `from` on and before `to`, none of which it has,
// and of the one found before.
fn best_weight_between<const W: usize, const H: usize, L>(
    scan: &WeightScan,
    from: u16,
    to: u16,
    found: Option<Better>,
    steps: &mut Steps<L>,
) -> Option<Better>
    requires scan { IsWeightScan W H scan.now }
    requires order { from ≤ to }
    requires range { to ≤ count_of scan.now.tables.now.mode.level }
    requires few { to ≤ 256 }
    requires others { (value : ℕ) → from ≤ value → value < to
        → value ≢ slice_index scan.now.tables.now.block.weights.items scan.now.i }
    requires found { IfSome found (IsBetter W H (view_of scan.now.tables.now) OfWeight scan.now.i) }
    ensures better { IfSome result
        (IsBetter W H (view_of scan.now.tables.now) OfWeight scan.now.i) }
    ensures least { (value : ℕ) → from ≤ value → value < to
        → least_of (error_now W H (view_of scan.now.tables.now)) result ≤ error_with_value W H
        (view_of scan.now.tables.now) OfWeight scan.now.i value }
    ensures falls { least_of (error_now W H (view_of scan.now.tables.now)) result ≤ least_of
        (error_now W H (view_of scan.now.tables.now)) found }
    ensures steps { TakesAtMost steps.old steps.new
        ((to - from) * reach_count W H (view_of scan.now.tables.now) OfWeight scan.now.i) }
{
    let mut best = found;
    for value in from..to {
        let value = value as u8;
        let limit = least_of(scan.tables.total, best);
        let tried = weight_tried::<W, H, L>(scan, value, limit, steps);
        best = better_of(best, value, tried);
    }
    best
}

/// The value with the least error of a weight integer, if that is less than with the present value.
pub fn best_weight_of<const W: usize, const H: usize, L>(
    scan: &WeightScan,
    present: u8,
    steps: &mut Steps<L>,
) -> Option<Better>
    requires scan { IsWeightScan W H scan.now }
    requires present { present ≡ slice_index scan.now.tables.now.block.weights.items scan.now.i }
    requires within { present < count_of scan.now.tables.now.mode.level }
    ensures better { IfSome result
        (IsBetter W H (view_of scan.now.tables.now) OfWeight scan.now.i) }
    ensures least { (value : ℕ) → value < count_of scan.now.tables.now.mode.level → value ≢ present
        → least_of (error_now W H (view_of scan.now.tables.now)) result ≤ error_with_value W H
        (view_of scan.now.tables.now) OfWeight scan.now.i value }
    ensures steps { TakesAtMost steps.old steps.new
        ((count_of scan.now.tables.now.mode.level - 1) * reach_count W H
        (view_of scan.now.tables.now) OfWeight scan.now.i) }
{
    let all = scan.tables.mode.level.count();
    let present = u16::from(present);
    let below = best_weight_between::<W, H, L>(scan, 0, present, None, steps);
    best_weight_between::<W, H, L>(scan, present + 1, all, below, steps)
}
