// Trials of one colour integer.
ghost use Rattle.std.specs.Prelude.{◌≡◌, ◌+◌, ◌*◌, ◌<◌, ◌≤◌, ◌-◌, length, slice_index};
ghost use Rattle.std.specs.List.{All};
ghost use Rattle.astc_model.specs.Levels.{count_of};
ghost use Rattle.astc_model.specs.Shapes.{colour_count};
ghost use Rattle.astc_model.specs.Endpoints.{endpoint_integers};
ghost use Rattle.astc_model.specs.CodedTexels.{part_colours};
ghost use Rattle.astc_model.specs.declared.block.Block.TheVariants.{Coded};
ghost use Rattle.texel_error.specs.Counting.{TakesAtMost};
ghost use Rattle.error_tables.specs.Changed.{with_colour, HasColour};
ghost use Rattle.error_tables.specs.Reached.{IsPartReach};
ghost use Rattle.error_tables.specs.State.{view_of, error_in, part_count};
ghost use Rattle.error_tables.specs.Kept.{IsKept};

use crate::changes::with_colour;
use crate::tables::Tables;
use crate::trials::colours_exchange;
use texel_error::{Steps, ends_of_part};

/// The places inside of a part.
pub fn reach_of_part<'a, const W: usize, const H: usize>(tables: &'a Tables, part: u8) -> &'a [u8]
    requires kept { IsKept W H tables.now }
    requires part { part < 4 }
    ensures are { IsPartReach W H tables.now.block part tables.now.places.now result.now }
    ensures within { All (λ p. p < 144) result.now }
    ensures few { length result.now ≤ 144 }
{
    let reaches = &tables.reaches;
    reaches[usize::from(part)].as_slice()
}

// The ends of a part with one of its colour integers at another value.
fn changed_ends<const W: usize, const H: usize>(
    tables: &Tables,
    part: u8,
    i: u8,
    value: u8,
) -> ([u8; 4], [u8; 4])
    requires kept { IsKept W H tables.now }
    requires integer { HasColour tables.now.block part i }
    requires range { value < count_of tables.now.level }
    ensures { result ≡ part_colours (with_colour tables.now.block i value) tables.now.level part }
{
    let changed = with_colour(&tables.block, i, value);
    ends_of_part(&changed, tables.level, part)
}

/// The error of the block with a colour integer of a part at another value. A step is one of the
/// part's places.
pub fn error_with_colour<const W: usize, const H: usize, L>(
    tables: &Tables,
    part: u8,
    i: u8,
    value: u8,
    steps: &mut Steps<L>,
) -> u32
    requires kept { IsKept W H tables.now }
    requires integer { HasColour tables.now.block part i }
    requires range { value < count_of tables.now.level }
    ensures sum { result ≡ error_in W H (view_of tables.now)
        (Coded (with_colour tables.now.block i value)) }
    ensures steps { TakesAtMost steps.old steps.new (part_count W H (view_of tables.now) part) }
{
    let reach = reach_of_part::<W, H>(tables, part);
    let ends = changed_ends::<W, H>(tables, part, i, value);
    let exchange = colours_exchange(tables, reach, &ends, steps);
    tables.total + exchange.more - exchange.less
}

/// The part that has a colour integer.
pub fn part_with(parts: u8, cems: &[u8; 4], i: u8) -> u8
    requires few { parts ≤ 4 }
    requires four { length cems.now ≡ 4 }
    requires inside { i < colour_count parts cems.now }
    ensures part { result < parts }
    ensures from { colour_count result cems.now ≤ i }
    ensures below { i < colour_count result cems.now + endpoint_integers
        (slice_index cems.now result) }
{
    let mut from = 0;
    for part in 0..parts {
        let next = from + 2 * (u32::from(cems[usize::from(part)]) / 4 + 1);
        if u32::from(i) < next {
            return part;
        }
        from = next;
    }
    unreachable!()
}
