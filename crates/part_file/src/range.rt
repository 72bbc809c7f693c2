// Which blocks a part has.
ghost use Rattle.std.specs.Prelude.{◌≡◌, ◌≤◌, ◌+◌};
ghost use Rattle.texture.specs.Shapes.{all_blocks, most_blocks};
ghost use Rattle.part_file.specs.Ranges.{IsPlace, part_start, part_count, most_parts};

use texture::Layout;

// The first block of a part, or the end of the file.
#[tactic(auto, unfolding(crate::specs::Ranges::part_start))]
fn part_start(layout: &Layout, place: u32, count: u32) -> u32
    requires place { place ≤ count }
    requires some { 1 ≤ count }
    requires most { count ≤ most_parts }
    ensures exact { result ≡ part_start layout.now place count }
    ensures most { result ≤ most_blocks }
{
    let all = u64::from(layout.all_blocks());
    (u64::from(place) * all / u64::from(count)) as u32
}

/// The first block of a part, by its place from 0 among `count` parts, 65,536 at most, and the
/// number of its blocks. Blocks are counted in the order of the file.
#[tactic(auto, unfolding(crate::specs::Ranges::part_count))]
pub fn part_range(layout: &Layout, place: u32, count: u32) -> (u32, u32)
    requires placed { IsPlace place count }
    ensures start { result.0 ≡ part_start layout.now place count }
    ensures count { result.1 ≡ part_count layout.now place count }
    ensures most { result.1 ≤ most_blocks }
    ensures within { result.0 + result.1 ≤ all_blocks layout.now }
{
    let start = part_start(layout, place, count);
    let end = part_start(layout, place + 1, count);
    (start, end - start)
}
