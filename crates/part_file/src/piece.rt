// A block and its error, in 20 bytes.
ghost use Rattle.std.specs.Prelude.{◌≡◌, ◌≤◌, ◌+◌, length, drop};
ghost use Rattle.ktx_header.specs.Orders.{number};
ghost use Rattle.ktx_header.specs.declared.order.WordOrder.TheVariants.{Little};
ghost use Rattle.part_file.specs.Pieces.{piece_of, block_of, error_of};

use ktx_header::{WordOrder, word};

/// The word at a place, low byte first.
pub fn word_at(bytes: &[u8], at: usize) -> u32
    requires { at + 4 ≤ length bytes.now }
    ensures { result ≡ number Little (drop at bytes.now) }
{
    word(WordOrder::Little, &bytes[at..])
}

/// The 20 bytes of a block and its error, low byte first.
pub fn piece_of(block: &[u8; 16], error: u32) -> [u8; 20]
    ensures { result ≡ piece_of block.now error }
{
    let mut piece = [0; 20];
    piece[..16].copy_from_slice(block);
    piece[16..].copy_from_slice(&error.to_le_bytes());
    piece
}

/// The block of a piece.
pub fn block_of(piece: &[u8; 20]) -> [u8; 16]
    ensures { result ≡ block_of piece.now }
{
    let mut block = [0; 16];
    block.copy_from_slice(&piece[..16]);
    block
}

/// The error of a piece.
pub fn error_of(piece: &[u8; 20]) -> u32
    ensures { result ≡ error_of piece.now }
{
    word_at(piece, 16)
}
