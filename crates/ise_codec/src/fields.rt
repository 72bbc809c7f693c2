// The fields of a block, as bits of a 128-bit number: bit k of the block is bit k of the number.
ghost use Rattle.std.specs.Prelude.{◌≡◌, ℕ, ◌+◌, ◌-◌, ◌^◌, ◌<◌, ◌≤◌, IsTrue};
ghost use Rattle.std.specs.Int.{bit_at};
ghost use Rattle.astc_model.specs.Bits.{field_of, number_of};
ghost use Rattle.ise_codec.specs.Runs.{partner, is_lower_runs};

/// Returns the 16 bytes of a block as a number: bit k % 8 of byte k / 8 is bit k (Khronos Data
/// Format Specification, ASTC, "Block Layout").
pub fn bits_of_bytes(bytes: &[u8; 16]) -> u128
    ensures { result ≡ number_of bytes.now }
{
    u128::from_le_bytes(*bytes)
}

/// Returns the 16 bytes of a block: bit k of the number is bit k % 8 of byte k / 8 (Khronos Data
/// Format Specification, ASTC, "Block Layout").
pub fn bytes_of_bits(block: u128) -> [u8; 16]
    ensures { number_of result ≡ block }
{
    block.to_le_bytes()
}

/// Returns the field of `n` bits from bit `at` of the block; bit `at` is its least significant bit
/// (Khronos Data Format Specification, ASTC, "Block Layout").
pub fn field(block: u128, at: u32, n: u32) -> u128
    requires { at + n ≤ 128 }
    ensures value { result ≡ field_of block at n }
    ensures small { result < 2 ^ n }
{
    // A shift by 128 is undefined: an empty field may begin at bit 128.
    if n == 0 {
        return 0;
    }
    (block >> at) & (u128::MAX >> (128 - n))
}

/// Returns the block with `value` in the `n` bits from bit `at` and all other bits unchanged.
pub fn set_field(block: u128, at: u32, n: u32, value: u128) -> u128
    requires inside { at + n ≤ 128 }
    requires fits { value < 2 ^ n }
    ensures written { field_of result at n ≡ value }
    ensures below { (k : ℕ) → k < at → bit_at result k ≡ bit_at block k }
    ensures above { (k : ℕ) → at + n ≤ k → bit_at result k ≡ bit_at block k }
{
    if n == 0 {
        return block;
    }
    let old = field(block, at, n);
    block ^ ((old ^ value) << at)
}

/// Returns the block with its bits in reverse order: bit k of the result is bit 127 - k of `block`.
/// The standard stores the weights in this order.
pub fn reversed(block: u128) -> u128
    ensures { (k : ℕ) → k < 128 → bit_at result k ≡ bit_at block (127 - k) }
{
    let bits = exchanged(block, 1, 0x5555_5555_5555_5555_5555_5555_5555_5555);
    let pairs = exchanged(bits, 2, 0x3333_3333_3333_3333_3333_3333_3333_3333);
    let nibbles = exchanged(pairs, 4, 0x0F0F_0F0F_0F0F_0F0F_0F0F_0F0F_0F0F_0F0F);
    let bytes = exchanged(nibbles, 8, 0x00FF_00FF_00FF_00FF_00FF_00FF_00FF_00FF);
    let shorts = exchanged(bytes, 16, 0x0000_FFFF_0000_FFFF_0000_FFFF_0000_FFFF);
    let words = exchanged(shorts, 32, 0x0000_0000_FFFF_FFFF_0000_0000_FFFF_FFFF);
    exchanged(words, 64, 0x0000_0000_0000_0000_FFFF_FFFF_FFFF_FFFF)
}

// Exchanges the two runs of `width` bits in each pair of neighbouring runs; `mask` has the bits of
// the lower runs.
fn exchanged(block: u128, width: u32, mask: u128) -> u128
    requires width { width < 128 }
    requires mask { IsTrue (is_lower_runs width mask) }
    ensures { (k : ℕ) → k < 128 → bit_at result k ≡ bit_at block (partner width k) }
{
    ((block & mask) << width) | ((block >> width) & mask)
}
