// Interpolates a texel between two endpoints.
ghost use Rattle.std.specs.Prelude.{◌≡◌, ◌+◌, ◌*◌, ◌/◌, ◌<◌, ◌≤◌, ◌-◌, slice_index};
ghost use Rattle.std.specs.List.{All};
ghost use Rattle.astc_model.specs.CodedTexels.{widened, mixed};
ghost use Rattle.texel_error.specs.Shown.{plane_at, top_of};
ghost use Rattle.texel_error.specs.Numerators.{rounded};
ghost use Rattle.texel_error.specs.Decoding.{shown_of};

use astc_model::Flavour;

// An endpoint byte times its share, 0 to 64.
#[inline(always)]
fn scaled(end: u8, weight: u16) -> u16
    requires { weight ≤ 64 }
    ensures exact { result ≡ end * weight }
    ensures small { result ≤ 255 * weight }
{
    u16::from(end) * weight
}

// A channel interpolated between two endpoints of 8 bits, multiplied by 64.
#[inline(always)]
fn mix(first: u8, second: u8, weight: u16) -> u16
    requires { weight ≤ 64 }
    ensures exact { result ≡ first * (64 - weight) + second * weight }
    ensures small { result ≤ 16320 }
{
    scaled(first, 64 - weight) + scaled(second, weight)
}

// The decoded byte of an interpolated channel (times 64) whose endpoints are widened to 16 bits by
// repetition.
#[inline(always)]
fn of_repeated(mix: u16) -> u8
    requires { mix ≤ 16320 }
    ensures { result ≡ (257 * mix + 32) / 64 / 256 }
{
    ((mix + (mix + 32) / 256) / 64) as u8
}

// The decoded byte of an interpolated channel (times 64) whose endpoints are widened to 16 bits
// with 128 as low byte.
#[inline(always)]
fn of_centred(mix: u16) -> u8
    requires { mix ≤ 16320 }
    ensures { result ≡ (256 * mix + 8192 + 32) / 64 / 256 }
{
    ((mix + 32) / 64) as u8
}

// The decoded byte of an interpolated channel (times 64), by flavour: in sRGB, red, green and blue
// are widened with 128.
#[inline(always)]
fn top_of(flavour: Flavour, channel: u8, mix: u16) -> u8
    requires { mix ≤ 16320 }
    ensures { result ≡ top_of flavour channel mix }
{
    match flavour {
        Flavour::Linear => of_repeated(mix),
        Flavour::Srgb => {
            if channel == 3 {
                of_repeated(mix)
            } else {
                of_centred(mix)
            }
        }
    }
}

// The weight of a channel, 0 to 64, rounded from the sixteenths of its plane.
#[inline(always)]
fn weight_of(plane: u8, numerators: [u16; 2], channel: u8) -> u16
    requires channel { channel < 4 }
    requires small { All (λ n. n ≤ 1024) numerators }
    ensures exact { result ≡ rounded (slice_index numerators (plane_at plane channel)) }
    ensures small { result ≤ 64 }
{
    let numerator = if plane == channel + 1 {
        numerators[1]
    } else {
        numerators[0]
    };
    (numerator + 8) / 16
}

// The decoded byte of a channel.
#[inline(always)]
#[tactic(auto, using(crate::proofs::MixLaws::top_of_mix))]
fn shown_channel(
    flavour: Flavour,
    plane: u8,
    first: u8,
    second: u8,
    numerators: [u16; 2],
    channel: u8,
) -> u8
    requires channel { channel < 4 }
    requires small { All (λ n. n ≤ 1024) numerators }
    ensures { result ≡ mixed (widened flavour channel first) (widened flavour channel second)
        (rounded (slice_index numerators (plane_at plane channel))) / 256 }
{
    let weight = weight_of(plane, numerators, channel);
    top_of(flavour, channel, mix(first, second, weight))
}

/// Decodes a texel: returns red, green, blue and alpha, interpolated between two endpoints.
/// `numerators` has the weights of both planes in sixteenths before rounding; `plane` is the
/// channel of the second plane, 1 to 4, or 0 (Khronos Data Format Specification, ASTC, "Weight
/// Application").
#[inline(always)]
#[tactic(auto, unfolding(crate::specs::Decoding::shown_of))]
pub fn shown(
    flavour: Flavour,
    plane: u8,
    ends: &([u8; 4], [u8; 4]),
    numerators: [u16; 2],
) -> [u8; 4]
    requires { All (λ n. n ≤ 1024) numerators }
    ensures { result ≡ shown_of flavour plane ends.now numerators }
{
    [
        shown_channel(flavour, plane, ends.0[0], ends.1[0], numerators, 0),
        shown_channel(flavour, plane, ends.0[1], ends.1[1], numerators, 1),
        shown_channel(flavour, plane, ends.0[2], ends.1[2], numerators, 2),
        shown_channel(flavour, plane, ends.0[3], ends.1[3], numerators, 3),
    ]
}
