// The block that a decoder shows.
ghost use Rattle.std.specs.Prelude.{◌≡◌};
ghost use Rattle.astc_model.specs.Blocks.{Legal};
ghost use Rattle.encoder.specs.Shown.{shown_block};

use astc_model::{Block, Constant};
use block_reader::read_block;

/// The 16-bit values of a block in magenta, which a decoder shows for an unreadable block.
pub const MAGENTA: [u16; 4] = [65535, 0, 65535, 65535];

// The extent of a void-extent block that covers no area.
const NO_EXTENT: [u16; 4] = [8191; 4];

/// The block that a decoder shows for 16 bytes: their block, or one in magenta if they are
/// unreadable.
#[tactic(auto, unfolding(crate::specs::Shown::shown_block))]
pub fn shown_block<const W: usize, const H: usize>(bytes: &[u8; 16]) -> Block
    ensures exact { result ≡ shown_block W H bytes.now }
    ensures legal { Legal W H result }
{
    match read_block::<W, H>(bytes) {
        Ok(block) => block,
        Err(_) => Block::Constant(Constant {
            rgba: MAGENTA,
            extent: NO_EXTENT,
        }),
    }
}
