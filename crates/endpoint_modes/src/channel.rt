// Operations on one channel of an endpoint: bases, offsets, sums and clamping.
ghost use Rattle.std.specs.Prelude.{◌≡◌, ◌+◌, ◌*◌, ◌/◌, ◌<◌, ◌≤◌, length, slice_index, pos, negsuc, ◌+ℤ◌, ◌≤ℤ◌};
ghost use Rattle.std.specs.Int.{int_shr};
ghost use Rattle.astc_model.specs.Endpoints.{base, offset, base_with_offset, clamp_byte, six_bit_signed, is_rising};

/// Returns the channel clamped to 0 to 255.
#[inline(always)]
pub fn clamp_byte_of(channel: i32) -> u8
    ensures { result ≡ clamp_byte channel }
{
    channel.clamp(0, 255) as u8
}

// The sum of two numbers of -512 to 511, a range that holds every sum of a base and offsets.
#[inline(always)]
fn plus(first: i32, second: i32) -> i32
    requires first_low { negsuc 511 ≤ℤ first }
    requires first_high { first ≤ℤ pos 511 }
    requires second_low { negsuc 511 ≤ℤ second }
    requires second_high { second ≤ℤ pos 511 }
    ensures { result ≡ first +ℤ second }
{
    first + second
}

/// Returns half the sum of two channels, rounded down, as in blue contraction. Each channel is -512
/// to 511.
#[inline(always)]
pub fn half_way(first: i32, second: i32) -> i32
    requires first_low { negsuc 511 ≤ℤ first }
    requires first_high { first ≤ℤ pos 511 }
    requires second_low { negsuc 511 ≤ℤ second }
    requires second_high { second ≤ℤ pos 511 }
    ensures { result ≡ int_shr (first +ℤ second) 1 }
{
    plus(first, second) >> 1
}

// Six bits as a two's complement number, -32 to 31.
#[inline(always)]
fn six_bits_signed(bits: u8) -> i32
    requires { bits < 64 }
    ensures value { result ≡ six_bit_signed bits }
    ensures low { negsuc 31 ≤ℤ result }
    ensures high { result ≤ℤ pos 31 }
{
    if bits < 32 {
        i32::from(bits)
    } else {
        i32::from(bits) - 64
    }
}

/// Returns the base (0 to 255) that is stored in the value at `place`: bits 1 to 7 of this value,
/// and the top bit of the next value as bit 7. The standard calls this `bit_transfer_signed`.
#[inline(always)]
#[tactic(auto, unfolding(astc_model::specs::Endpoints::base))]
pub fn base_at(values: &[u8], place: usize) -> i32
    requires { place + 1 < length values.now }
    ensures value { result ≡ base (slice_index values.now) place }
    ensures low { pos 0 ≤ℤ result }
    ensures high { result ≤ℤ pos 255 }
{
    i32::from((values[place] >> 1) | (values[place + 1] & 0x80))
}

// The signed offset, -32 to 31, that is stored in bits 1 to 6 of the value after `place`.
#[inline(always)]
#[tactic(auto, unfolding(astc_model::specs::Endpoints::offset))]
fn offset_at(values: &[u8], place: usize) -> i32
    requires { place + 1 < length values.now }
    ensures value { result ≡ offset (slice_index values.now) place }
    ensures low { negsuc 31 ≤ℤ result }
    ensures high { result ≤ℤ pos 31 }
{
    six_bits_signed((values[place + 1] >> 1) & 0x3F)
}

/// Returns the base at `place` plus the offset after it, -32 to 286, not clamped.
#[inline(always)]
#[tactic(auto, unfolding(astc_model::specs::Endpoints::base_with_offset))]
pub fn base_with_offset_at(values: &[u8], place: usize) -> i32
    requires { place + 1 < length values.now }
    ensures value { result ≡ base_with_offset (slice_index values.now) place }
    ensures low { negsuc 31 ≤ℤ result }
    ensures high { result ≤ℤ pos 286 }
{
    plus(base_at(values, place), offset_at(values, place))
}

/// Returns the channel times `scale` / 256, rounded down, as in endpoint modes 6 and 10.
#[inline(always)]
pub fn scaled(channel: u8, scale: u8) -> u8
    ensures { result ≡ channel * scale / 256 }
{
    ((u16::from(channel) * u16::from(scale)) >> 8) as u8
}

/// Returns whether the sum of the offsets of red, green and blue is 0 or more. If not, the decoder
/// exchanges the endpoints and applies blue contraction.
#[inline(always)]
pub fn offsets_rise(values: &[u8]) -> bool
    requires { 6 ≤ length values.now }
    ensures { result ≡ is_rising (slice_index values.now) }
{
    let red_and_green = plus(offset_at(values, 0), offset_at(values, 2));
    plus(red_and_green, offset_at(values, 4)) >= 0
}
