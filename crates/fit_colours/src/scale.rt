// The scale of modes 6 and 10, whose first endpoint is the second one times a scale.
use crate::ends::{ChannelSums, FitSums};
use ideal_weights::{BlockLayout, Number, byte, nearest_quotient, number, quotient};

// The reduction of the squared differences in a plane's channels by a scale, as the quotient of two
// quadratic forms of the scale.
#[derive(Clone, Copy, Default)]
struct Ratio {
    above: [Number; 3],
    below: [Number; 3],
}

impl Ratio {
    fn add(&mut self, sums: &ChannelSums, gain: Number) {
        let (uz, wz) = (sums.uz >> 26, sums.wz >> 26);
        self.above[0] += gain * uz * uz;
        self.above[1] += gain * uz * wz;
        self.above[2] += gain * wz * wz;
        // All channels of a plane have the same weights, and so the same sums of weights.
        self.below = [sums.uu >> 16, sums.uw >> 16, sums.ww >> 16];
    }

    // The reduction with a scale in 1/256.
    fn at(&self, scale: Number) -> Number {
        quotient(form_at(&self.above, scale), form_at(&self.below, scale))
    }
}

// Approximately a * s^2 + 2 * b * s + c, where s is the scale / 256.
fn form_at(form: &[Number; 3], scale: Number) -> Number {
    let [square, both, rest] = *form;
    (scale * scale * square + ((scale * both) << 9) + (rest << 16)) >> 16
}

// The reductions in both planes.
#[derive(Clone, Copy)]
struct Ratios {
    by_plane: [Ratio; 2],
    // Whether the second plane has red, green or blue.
    is_split: bool,
}

impl Ratios {
    fn at(&self, scale: Number) -> Number {
        let first = self.by_plane[0].at(scale);
        if self.is_split {
            first + self.by_plane[1].at(scale)
        } else {
            first
        }
    }
}

/// Returns the ideal red, green and blue of the second endpoint, if the first is `scale` / 256
/// times the second.
pub fn scaled_values(sums: &FitSums, scale: u8) -> [u8; 3] {
    let mut values = [0; 3];
    let scale = number(i64::from(scale));
    for (value, own) in values.iter_mut().zip(sums) {
        let below = form_at(&[own.uu >> 16, own.uw >> 16, own.ww >> 16], scale);
        let above = (scale * (own.uz >> 16) + ((own.wz >> 16) << 8)) >> 8;
        *value = byte(nearest_quotient(above, below));
    }
    values
}

// A scale in 1/256, and the reduction of the squared differences by it.
#[derive(Clone, Copy)]
struct Scale {
    scale: u8,
    taken: Number,
}

/// Returns approximately the scale, in 1/256, with the least squared differences in a partition.
pub fn scale_of(sums: &FitSums, layout: BlockLayout, gains: &[Number; 4]) -> u8 {
    let mut ratios = Ratios {
        by_plane: [Ratio::default(); 2],
        is_split: (1..4).contains(&layout.plane),
    };
    for c in 0..3 {
        ratios.by_plane[layout.plane_of(c) & 1].add(&sums[c], gains[c]);
    }
    let mut best = Scale {
        scale: 0,
        taken: number(-1),
    };
    for scale in [0, 64, 128, 192, 255] {
        best = better(best, &ratios, scale);
    }
    for step in [32, 16, 8, 4] {
        let near = best.scale;
        best = better(best, &ratios, near.saturating_sub(step));
        best = better(best, &ratios, near.saturating_add(step));
    }
    best.scale
}

// The better of the best scale so far and another.
fn better(best: Scale, ratios: &Ratios, scale: u8) -> Scale {
    let taken = ratios.at(number(i64::from(scale)));
    if taken > best.taken {
        Scale { scale, taken }
    } else {
        best
    }
}
