// Words in either order.
ghost use Rattle.std.specs.Prelude.{◌≡◌, ◌≤◌, length};
ghost use Rattle.ktx_header.specs.Orders.{number};

use byteorder::{BigEndian, ByteOrder, LittleEndian};

/// The order of the bytes of a word.
#[derive(Clone, Copy, Debug, PartialEq, Eq)]
pub enum WordOrder {
    Little,
    Big,
}

/// The word of 32 bits in the first four bytes.
#[tactic(auto, unfolding(crate::specs::Orders::number))]
pub fn word(order: WordOrder, bytes: &[u8]) -> u32
    requires { 4 ≤ length bytes.now }
    ensures { result ≡ number order bytes.now }
{
    match order {
        WordOrder::Little => LittleEndian::read_u32(bytes),
        WordOrder::Big => BigEndian::read_u32(bytes),
    }
}
