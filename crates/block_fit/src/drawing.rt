// The texels that blocks show, many at once.
use fit_colours::ColourEnds;
use ideal_weights::{IdealWeights, Lanes, Texels, lanes};

// The decoded value of 64 times a mixed value.
#[inline(always)]
fn shown(mix: i16, linear: bool) -> i16 {
    let beyond = mix.wrapping_add(32);
    if linear {
        mix.wrapping_add(beyond >> 8) >> 6
    } else {
        beyond >> 6
    }
}

// The values of a partition in a channel: 64 times the first one, and its distance to the second.
#[derive(Clone, Copy)]
struct Values {
    base: i16,
    way: i16,
}

impl Values {
    #[inline(always)]
    fn of(first: u8, second: u8) -> Values {
        Values {
            base: i16::from(first).wrapping_mul(64),
            way: i16::from(second).wrapping_sub(i16::from(first)),
        }
    }

    // The squared differences of a channel from the texels of a part.
    #[inline(always)]
    fn squares<const W: usize, const H: usize>(
        self,
        weights: &Lanes,
        wanted: &Lanes,
        part: &Lanes,
        linear: bool,
    ) -> u32 {
        let mut sum = 0i32;
        for p in 0..lanes::<W, H>() {
            let mix = self.base.wrapping_add(self.way.wrapping_mul(weights[p]));
            let apart = i32::from(shown(mix, linear).wrapping_sub(wanted[p]) & part[p]);
            sum = sum.wrapping_add(apart.wrapping_mul(apart));
        }
        sum.unsigned_abs()
    }
}

// The squared differences of a channel from the texels of all parts.
#[inline(always)]
fn squares_of<const W: usize, const H: usize>(
    ideal: &IdealWeights,
    ends: &[ColourEnds; 4],
    texels: &Texels,
    weights: &Lanes,
    channel: usize,
) -> u32 {
    let c = channel & 3;
    let linear = c == 3 || !texels.srgb;
    let wanted = &texels.channels[c];
    let mut squares = 0u32;
    for part in 0..usize::from(ideal.layout.parts).min(4) {
        let values = Values::of(ends[part].0[c], ends[part].1[c]);
        let own = values.squares::<W, H>(weights, wanted, &ideal.masks[part], linear);
        squares = squares.wrapping_add(own);
    }
    squares
}

/// The error of the texels with the ends of each part and with weights, 0 to 64, by plane, if it is
/// under the limit.
pub fn error_under<const W: usize, const H: usize>(
    ideal: &IdealWeights,
    ends: &[ColourEnds; 4],
    texels: &Texels,
    weights: &[Lanes; 2],
    limit: u32,
) -> Option<u32> {
    let mut total = 0u32;
    for c in 0..4 {
        let own = &weights[ideal.layout.plane_of(c) & 1];
        let squares = squares_of::<W, H>(ideal, ends, texels, own, c);
        let gain = texels.gains[c].0.clamp(0, 15) as u32;
        total = total.wrapping_add(gain.wrapping_mul(squares));
        if total >= limit {
            return None;
        }
    }
    Some(total)
}
