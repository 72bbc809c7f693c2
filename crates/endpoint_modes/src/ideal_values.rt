// The colour values that encode given endpoints best, for each endpoint mode. The compressor takes
// the endpoints from the bounds of the texels.
ghost use Rattle.std.specs.Prelude.{◌≡◌, ◌<◌, ◌≤◌, ◌+◌, ◌*◌, ◌/◌, IsTrue, length};
ghost use Rattle.astc_model.specs.Endpoints.{is_ldr_mode, endpoint_integers};
ghost use Rattle.endpoint_modes.specs.Modes.{number_of};
ghost use Rattle.astc_model.specs.Ideal.{rgb_sum, either, flipped, line_by, with_alpha, ascending, luminance, packed, packed_luminance, scale, scaled, alphas, colours, packed_colours, values_of, ideal};

use crate::mode::EndpointMode;
use arrayvec::ArrayVec;
use astc_model::Box8;

// The two endpoints: the ends of the line of colours.
type LineEnds = ([u8; 4], [u8; 4]);

fn rgb_sum(q: &[u8; 4]) -> u16
    ensures sum { result ≡ rgb_sum q.now }
    ensures small { result ≤ 765 }
{
    u16::from(q[0]) + u16::from(q[1]) + u16::from(q[2])
}

// Channel `c` of `hi` if bit `c` of `flip` is set, else of `lo`.
fn either(flip: u8, lo: &[u8; 4], hi: &[u8; 4], c: usize) -> u8
    requires { c < 4 }
    ensures { result ≡ either flip lo.now hi.now c }
{
    if (flip >> c) % 2 == 1 { hi[c] } else { lo[c] }
}

fn flipped(flip: u8, lo: &[u8; 4], hi: &[u8; 4]) -> LineEnds
    ensures { result ≡ flipped flip lo.now hi.now }
{
    (
        [
            either(flip, lo, hi, 0),
            either(flip, lo, hi, 1),
            either(flip, lo, hi, 2),
            lo[3],
        ],
        [
            either(flip, hi, lo, 0),
            either(flip, hi, lo, 1),
            either(flip, hi, lo, 2),
            hi[3],
        ],
    )
}

fn line_by(cem: u8, flip: u8, bounds: &Box8) -> LineEnds
    ensures { result ≡ line_by cem flip bounds.now.lo bounds.now.hi }
{
    if cem == 8 || cem == 12 {
        flipped(flip, &bounds.lo, &bounds.hi)
    } else {
        (bounds.lo, bounds.hi)
    }
}

fn with_alpha(q: &[u8; 4], alpha: u8) -> [u8; 4]
    ensures { result ≡ with_alpha q.now alpha }
{
    [q[0], q[1], q[2], alpha]
}

// Exchanges the red, green and blue of the endpoints if the first has the greater sum of them, so
// that decoding applies no blue contraction. The alphas stay.
fn ascending(line: LineEnds) -> LineEnds
    ensures { result ≡ ascending line }
{
    let (f, g) = line;
    if rgb_sum(&f) > rgb_sum(&g) {
        (with_alpha(&g, f[3]), with_alpha(&f, g[3]))
    } else {
        line
    }
}

fn luminance(q: &[u8; 4]) -> u8
    ensures { result ≡ luminance q.now }
{
    ((rgb_sum(q) + 1) / 3) as u8
}

// Encodes a channel with the base q and the signed offset p - q, which is cut to 0 to 31.
fn packed(q: u8, p: u8) -> [u8; 2]
    ensures { result ≡ packed q p }
{
    [2 * (q % 128), (q & 0x80) + 2 * p.saturating_sub(q).min(31)]
}

// Encodes a luminance with the base q and the offset p - q, which is cut to 0 to 63.
fn packed_luminance(q: u8, p: u8) -> [u8; 2]
    ensures { result ≡ packed_luminance q p }
{
    [4 * (q % 64), (q & 0xC0) + p.saturating_sub(q).min(63)]
}

// The ratio of two sums of channels in 256ths, at most 255, for modes 6 and 10.
fn scale(f: u16, g: u16) -> u8
    ensures { result ≡ scale f g }
{
    if g == 0 {
        0
    } else {
        (256 * u32::from(f) / u32::from(g)).min(255) as u8
    }
}

fn scaled(f: &[u8; 4], g: &[u8; 4]) -> [u8; 4]
    ensures { result ≡ scaled f.now g.now }
{
    [g[0], g[1], g[2], scale(rgb_sum(f), rgb_sum(g))]
}

fn held(values: &[u8]) -> ArrayVec<u8, 8>
    requires { length values.now ≤ 8 }
    ensures { result.items ≡ values.now }
{
    ArrayVec::try_from(values).unwrap()
}

// Mode 1: luminance, base and offset.
fn luminance_and_offset(f: &[u8; 4], g: &[u8; 4]) -> [u8; 2]
    ensures { result ≡ packed_luminance (luminance f.now) (luminance g.now) }
{
    packed_luminance(luminance(f), luminance(g))
}

// Mode 5: luminance and alpha, base and offset.
fn packed_luminance_and_alpha(f: &[u8; 4], g: &[u8; 4]) -> [u8; 4]
    ensures { result ≡ values_of 5 f.now g.now }
{
    let [base, offset] = packed(luminance(f), luminance(g));
    let [alpha, alpha_offset] = packed(f[3], g[3]);
    [base, offset, alpha, alpha_offset]
}

// Mode 9: RGB, base and offset.
fn packed_colours(f: &[u8; 4], g: &[u8; 4]) -> [u8; 6]
    ensures { result ≡ packed_colours f.now g.now }
{
    let [red, red_offset] = packed(f[0], g[0]);
    let [green, green_offset] = packed(f[1], g[1]);
    let [blue, blue_offset] = packed(f[2], g[2]);
    [red, red_offset, green, green_offset, blue, blue_offset]
}

// Mode 10: RGB, base and scale, and two alphas.
fn scaled_with_alphas(f: &[u8; 4], g: &[u8; 4]) -> [u8; 6]
    ensures { result ≡ values_of 10 f.now g.now }
{
    let [red, green, blue, scale] = scaled(f, g);
    [red, green, blue, scale, f[3], g[3]]
}

// Mode 13: RGBA, base and offset.
fn packed_with_alphas(f: &[u8; 4], g: &[u8; 4]) -> [u8; 8]
    ensures { result ≡ values_of 13 f.now g.now }
{
    let [red, red_offset, green, green_offset, blue, blue_offset] = packed_colours(f, g);
    let [alpha, alpha_offset] = packed(f[3], g[3]);
    [
        red,
        red_offset,
        green,
        green_offset,
        blue,
        blue_offset,
        alpha,
        alpha_offset,
    ]
}

fn values_of(mode: EndpointMode, f: &[u8; 4], g: &[u8; 4]) -> ArrayVec<u8, 8>
    ensures values { result.items ≡ values_of (number_of mode) f.now g.now }
    ensures count { length result.items ≡ endpoint_integers (number_of mode) }
{
    match mode {
        EndpointMode::LuminanceDirect => held(&[luminance(f), luminance(g)]),
        EndpointMode::LuminanceBaseOffset => held(&luminance_and_offset(f, g)),
        EndpointMode::LuminanceAlphaDirect => held(&[luminance(f), luminance(g), f[3], g[3]]),
        EndpointMode::LuminanceAlphaBaseOffset => held(&packed_luminance_and_alpha(f, g)),
        EndpointMode::RgbBaseScale => held(&scaled(f, g)),
        EndpointMode::RgbDirect => held(&[f[0], g[0], f[1], g[1], f[2], g[2]]),
        EndpointMode::RgbBaseOffset => held(&packed_colours(f, g)),
        EndpointMode::RgbBaseScaleTwoAlpha => held(&scaled_with_alphas(f, g)),
        EndpointMode::RgbaDirect => held(&[f[0], g[0], f[1], g[1], f[2], g[2], f[3], g[3]]),
        EndpointMode::RgbaBaseOffset => held(&packed_with_alphas(f, g)),
    }
}

/// Returns the colour values (unquantized, 0 to 255) that encode the line between the two corners
/// of `bounds`, as many as the endpoint mode needs. In modes 8 and 12, bits 0, 1 and 2 of `flip`
/// first exchange the ends of red, green and blue. The end with the smaller sum of red, green and
/// blue comes first.
#[tactic(auto, unfolding(astc_model::specs::Ideal::ideal))]
pub fn ideal(cem: u8, flip: u8, bounds: &Box8) -> ArrayVec<u8, 8>
    requires { IsTrue (is_ldr_mode cem) }
    ensures values { result.items ≡ ideal cem flip bounds.now.lo bounds.now.hi }
    ensures count { length result.items ≡ endpoint_integers cem }
{
    let mode = EndpointMode::of(cem).unwrap();
    let (f, g) = ascending(line_by(cem, flip, bounds));
    values_of(mode, &f, &g)
}
