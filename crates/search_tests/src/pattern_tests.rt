// Fits rank seeds by the same partitions that decoders use.
ghost use Rattle.std.specs.Prelude.{◌≤◌, ◌<◌, IsTrue};
ghost use Rattle.astc_model.specs.Footprints.{is_footprint};

use ideal_weights::put_parts;
use partition_hash::part_of;
use std::process::Abort;

// Checks that each place has the same partition in the map of a fit as in a block.
fn check_seed<const W: usize, const H: usize>(rt: &impl Abort, parts: u8, seed: u16)
    requires footprint { IsTrue (is_footprint W H) }
    requires some { 1 ≤ parts }
    requires few { parts ≤ 4 }
    requires seed { seed < 1024 }
{
    let mut map = [0u8; 144];
    put_parts::<W, H>(&mut map, parts, seed);
    let mut place = 0usize;
    for y in 0..H {
        for x in 0..W {
            let part = part_of::<W, H>(parts, seed, x as u8, y as u8);
            assert_eq!(rt;
                map.get(place).copied(),
                Some(part),
                "{parts} {seed} {x} {y}"
            );
            place = place.saturating_add(1);
        }
    }
}

// Coordinates are doubled in 4 by 4 blocks, but not in 12 by 12 blocks.
#[test]
fn seeds_are_ranked_by_the_parts_of_blocks(rt: HostRuntime) {
    for parts in 2..5 {
        for seed in 0..1024 {
            check_seed::<4, 4>(&rt, parts, seed);
            check_seed::<12, 12>(&rt, parts, seed);
        }
    }
}
