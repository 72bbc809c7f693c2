// Blocks of noise, read and written and read again.
ghost use Rattle.std.specs.Prelude.{◌<◌};
ghost use Rattle.astc_model.specs.Blocks.{Legal};

use astc_model::Block;
use block_reader::read_block;
use block_writer::write_block;
use partition_hash::hash52;

// A block of this number: four words of noise, each with its low byte first.
fn noise(number: u32) -> [u8; 16]
    requires { number < 1000 }
{
    let [a, b, c, d] = hash52(4 * number).to_le_bytes();
    let [e, f, g, h] = hash52(4 * number + 1).to_le_bytes();
    let [i, j, k, l] = hash52(4 * number + 2).to_le_bytes();
    let [m, n, o, p] = hash52(4 * number + 3).to_le_bytes();
    [a, b, c, d, e, f, g, h, i, j, k, l, m, n, o, p]
}

// Whether reading the bytes written for a block gives the block.
fn is_read_again<const W: usize, const H: usize>(block: &Block) -> bool
    requires { Legal W H block.now }
{
    match read_block::<W, H>(&write_block::<W, H>(block)) {
        Ok(again) => again == *block,
        Err(_) => false,
    }
}

/// The number of blocks of `W` by `H` texels among 1,000 blocks of noise; None if reading the bytes
/// written for one of them gives another block.
pub fn read_again<const W: usize, const H: usize>() -> Option<u32> {
    let mut count = 0u32;
    for number in 0..1000u32 {
        if let Ok(block) = read_block::<W, H>(&noise(number)) {
            if !is_read_again::<W, H>(&block) {
                return None;
            }
            count = count.saturating_add(1);
        }
    }
    Some(count)
}
