// The least-squares endpoints of a partition for given weights.
use ideal_weights::{
    BlockLayout, Lanes, Number, Texels, byte, dot, nearest_quotient, number, total,
};
use std::num::Wrapping;

/// The two endpoints of a partition: red, green, blue and alpha each.
pub type ColourEnds = ([u8; 4], [u8; 4]);

/// Sums over the texels of a partition in one channel, from which the error of any two endpoints is
/// estimated.
///
/// With the weight w (0 to 64) and u = 64 - w, a decoder shows about x = (s * (a * u + b * w) + 32)
/// / 2^14 between the endpoints a and b. The factor s is 257, or 256 in red, green and blue of
/// sRGB. In the sums, u and w are multiplied by s, and z is 2^14 times the byte of the source, plus
/// 8160 if s is 257, which leads to the middle of the values that are truncated to this byte; if s
/// is 256, the low byte 128 has the same effect.
#[derive(Clone, Copy, Default)]
pub struct ChannelSums {
    pub uu: Number,
    pub uw: Number,
    pub ww: Number,
    pub uz: Number,
    pub wz: Number,
    pub zz: Number,
}

/// The sums over no texels.
pub static NO_SUMS: ChannelSums = ChannelSums {
    uu: Wrapping(0),
    uw: Wrapping(0),
    ww: Wrapping(0),
    uz: Wrapping(0),
    wz: Wrapping(0),
    zz: Wrapping(0),
};

/// The sums of a partition for each channel.
pub type FitSums = [ChannelSums; 4];

// The number of texels of a partition, and the sums of their weights and of the squares of these.
#[derive(Clone, Copy)]
struct WeightSums {
    count: Number,
    weights: Number,
    squares: Number,
}

fn weight_sums<const W: usize, const H: usize>(weights: &Lanes, part: &Lanes) -> WeightSums {
    WeightSums {
        count: number(0) - total::<W, H>(part, part),
        weights: total::<W, H>(weights, part),
        squares: dot::<W, H>(weights, weights, part),
    }
}

// The sums of values, of their squares, and of values times weights.
#[derive(Clone, Copy)]
struct ValueSums {
    values: Number,
    squares: Number,
    weighed: Number,
}

fn value_sums<const W: usize, const H: usize>(
    values: &Lanes,
    weights: &Lanes,
    part: &Lanes,
) -> ValueSums {
    ValueSums {
        values: total::<W, H>(values, part),
        squares: dot::<W, H>(values, values, part),
        weighed: dot::<W, H>(values, weights, part),
    }
}

// The sums if each value is 255.
fn sums_of_opaque(weights: &WeightSums) -> ValueSums {
    ValueSums {
        values: number(255) * weights.count,
        squares: number(65025) * weights.count,
        weighed: number(255) * weights.weights,
    }
}

fn channel_sums(weights: &WeightSums, values: &ValueSums, linear: bool) -> ChannelSums {
    let (scale, beyond) = if linear { (257, 8160) } else { (256, 0) };
    let (scale, beyond, unit) = (number(scale), number(beyond), number(16384));
    let square = scale * scale;
    let n = weights.count;
    let rest = (values.values << 6) - values.weighed;
    ChannelSums {
        uu: square * ((n << 12) - (weights.weights << 7) + weights.squares),
        uw: square * ((weights.weights << 6) - weights.squares),
        ww: square * weights.squares,
        uz: scale * (unit * rest + beyond * ((n << 6) - weights.weights)),
        wz: scale * (unit * values.weighed + beyond * weights.weights),
        zz: unit * (unit * values.squares + (beyond * values.values << 1)) + beyond * beyond * n,
    }
}

/// Computes the sums over a partition whose texels have these weights, 0 to 64, by plane.
pub fn put_sums<const W: usize, const H: usize>(
    sums: &mut FitSums,
    texels: &Texels,
    part: &Lanes,
    layout: BlockLayout,
    weights: &[Lanes; 2],
) {
    let first = weight_sums::<W, H>(&weights[0], part);
    let second = if layout.plane > 0 {
        weight_sums::<W, H>(&weights[1], part)
    } else {
        first
    };
    for c in 0..4 {
        let plane = layout.plane_of(c) & 1;
        let own = if plane == 0 { first } else { second };
        let values = if c == 3 && texels.opaque {
            sums_of_opaque(&own)
        } else {
            value_sums::<W, H>(&texels.channels[c], &weights[plane], part)
        };
        sums[c] = channel_sums(&own, &values, c == 3 || !texels.srgb);
    }
}

// The least-squares endpoints of a channel. If the weights are too much alike, both are the mean.
// The sums are shifted right so that their products do not overflow.
fn ends_of_channel(sums: &ChannelSums) -> (u8, u8) {
    let (uu, uw, ww) = (sums.uu >> 16, sums.uw >> 16, sums.ww >> 16);
    let (uz, wz) = (sums.uz >> 16, sums.wz >> 16);
    let determinant = uu * ww - uw * uw;
    if determinant.0 <= 0 || determinant < (uu * ww) >> 10 {
        let mean = byte(nearest_quotient(uz + wz, uu + uw + uw + ww));
        return (mean, mean);
    }
    (
        byte(nearest_quotient(ww * uz - uw * wz, determinant)),
        byte(nearest_quotient(uu * wz - uw * uz, determinant)),
    )
}

/// Returns the least-squares endpoints.
pub fn ends_of(sums: &FitSums) -> ColourEnds {
    let mut ends = ([0; 4], [0; 4]);
    for c in 0..4 {
        let (first, second) = ends_of_channel(&sums[c]);
        ends.0[c] = first;
        ends.1[c] = second;
    }
    ends
}

/// Returns approximately the error of a channel with these endpoints, in 1/256, times the weight of
/// the channel.
#[inline(always)]
pub fn channel_error(own: &ChannelSums, gain: Number, first: u8, second: u8) -> Number {
    let (first, second) = (number(i64::from(first)), number(i64::from(second)));
    let from_first = first * (first * own.uu + ((second * own.uw - own.uz) << 1));
    let from_second = second * (second * own.ww - (own.wz << 1));
    gain * ((from_first + from_second + own.zz) >> 20)
}

/// Returns approximately the error of red, green and blue together, in 1/256.
#[inline(always)]
pub fn colour_error(sums: &FitSums, gains: &[Number; 4], ends: &ColourEnds) -> Number {
    let (first, second) = ends;
    channel_error(&sums[0], gains[0], first[0], second[0])
        + channel_error(&sums[1], gains[1], first[1], second[1])
        + channel_error(&sums[2], gains[2], first[2], second[2])
}
