// Colour integers for the least-squares endpoints of a partition.
ghost use Rattle.std.specs.Prelude.{◌≡◌, ◌≤◌};
ghost use Rattle.astc_model.specs.Endpoints.{endpoint_integers};
ghost use Rattle.astc_model.specs.Levels.{count_of};

use crate::ends::{ColourEnds, FitSums, NO_SUMS, channel_error, colour_error, ends_of, put_sums};
use crate::scale::{scale_of, scaled_values};
use astc_model::Level;
use endpoint_modes::{EndpointMode, endpoints};
use ideal_weights::{BlockLayout, Lanes, Number, Texels, byte, number, quotient};
use quant_tables::{colour_value, nearest_colour, nearest_colour_values};
use std::num::Wrapping;

/// The colour integers of a partition, the endpoints that they encode, and approximately the error
/// with them in 1/256.
#[derive(Clone, Copy)]
pub struct Coding {
    pub error: Number,
    pub integers: [u8; 8],
    pub ends: ColourEnds,
}

/// The least-squares endpoints of a partition, with the sums over its texels from which errors are
/// estimated.
#[derive(Clone, Copy)]
pub struct WantedColours {
    sums: FitSums,
    gains: [Number; 4],
    ends: ColourEnds,
    /// The best scale for modes 6 and 10, in 1/256.
    scale: u8,
    /// Approximately the error of alpha if both endpoints have 255.
    opaque: Number,
}

/// The ideal colour values of an endpoint mode, and an alternative that may be closer after
/// quantization.
#[derive(Clone, Copy)]
pub struct WantedValues {
    first: [u8; 8],
    second: Option<[u8; 8]>,
}

/// The initial value, before the values of an endpoint mode are computed.
pub static NO_VALUES: WantedValues = WantedValues {
    first: [0; 8],
    second: None,
};

/// The initial value, before the endpoints of a partition are computed.
pub static NO_COLOURS: WantedColours = WantedColours {
    sums: [NO_SUMS; 4],
    gains: [Wrapping(0); 4],
    ends: ([0; 4], [0; 4]),
    scale: 0,
    opaque: Wrapping(0),
};

/// Returns the number of colour integers of a partition with this endpoint mode.
pub fn integers_of(cem: u8) -> usize
    ensures { result ≡ endpoint_integers cem }
{
    2 * (usize::from(cem) / 4 + 1)
}

/// Returns whether the first endpoint of a mode is the second one times a scale.
pub fn has_scale(cem: u8) -> bool {
    matches!(cem, 6 | 10)
}

// Whether an endpoint mode encodes alpha.
fn has_alpha(cem: u8) -> bool {
    !matches!(cem, 0 | 6 | 8 | 9)
}

// The endpoints of mode 8 or 12; None if the decoder exchanges them, since the first has the
// greater sum.
#[inline(always)]
fn direct_ends(values: &[u8; 8], has_alpha: bool) -> Option<ColourEnds> {
    let last = if has_alpha {
        [values[6], values[7]]
    } else {
        [255; 2]
    };
    let first = [values[0], values[2], values[4], last[0]];
    let second = [values[1], values[3], values[5], last[1]];
    if sum_of(&first) > sum_of(&second) {
        return None;
    }
    Some((first, second))
}

// The endpoints of colour values; black if the mode does not belong to the LDR profile.
fn ends_of_values(cem: u8, values: &[u8; 8]) -> ColourEnds {
    if matches!(cem, 8 | 12) {
        if let Some(ends) = direct_ends(values, cem == 12) {
            return ends;
        }
    }
    let count = integers_of(cem).min(8);
    if EndpointMode::of(cem).is_some() && count == integers_of(cem) {
        endpoints(cem, &values[..count])
    } else {
        ([0; 4], [0; 4])
    }
}

fn sum_of(colour: &[u8; 4]) -> Number {
    number(i64::from(colour[0]) + i64::from(colour[1]) + i64::from(colour[2]))
}

// The grey that is closest to a colour, each channel with its weight.
fn grey_of(colour: &[u8; 4], gains: &[Number; 4]) -> u8 {
    let all = gains[0] + gains[1] + gains[2];
    let mut sum = all >> 1;
    for c in 0..3 {
        sum += gains[c] * number(i64::from(colour[c]));
    }
    byte(quotient(sum, all))
}

// The two values of a base and a signed offset, clamped to -32 to 31: the inverse of
// `bit_transfer_signed`.
fn offset(base: u8, end: u8) -> [u8; 2] {
    let apart = (i32::from(end) - i32::from(base)).clamp(-32, 31) & 63;
    [
        (base & 127) << 1 | base >> 7,
        base & 128 | (apart as u8) << 1,
    ]
}

fn values_of_offsets(ends: &ColourEnds) -> [u8; 8] {
    let (a, b) = ends;
    let mut values = [0; 8];
    for c in 0..4 {
        let [base, apart] = offset(a[c], b[c]);
        values[2 * c] = base;
        values[2 * c + 1] = apart;
    }
    values
}

// The values of mode 5: a base and an offset in grey, and a base and an offset in alpha.
fn values_of_grey_offsets(first: u8, second: u8, alphas: [u8; 2]) -> [u8; 8] {
    let [base, apart] = offset(first, second);
    let [alpha, alpha_apart] = offset(alphas[0], alphas[1]);
    [base, apart, alpha, alpha_apart, 0, 0, 0, 0]
}

// The red and green that blue contraction turns into this colour; None if they are out of range.
fn contracted(colour: &[u8; 4]) -> Option<[u8; 2]> {
    let red = 2 * i32::from(colour[0]) - i32::from(colour[2]);
    let green = 2 * i32::from(colour[1]) - i32::from(colour[2]);
    let red = u8::try_from(red).ok()?;
    let green = u8::try_from(green).ok()?;
    Some([red, green])
}

// The values of modes 8 and 12 that decode to these endpoints by blue contraction.
fn values_contracted(ends: &ColourEnds) -> Option<[u8; 8]> {
    let (a, b) = ends;
    let [a_red, a_green] = contracted(a)?;
    let [b_red, b_green] = contracted(b)?;
    Some([b_red, a_red, b_green, a_green, b[2], a[2], b[3], a[3]])
}

// The values of modes 9 and 13 that decode to these endpoints by blue contraction. None if the sum
// of the offsets is not negative, since the decoder does not contract then.
fn offsets_contracted(ends: &ColourEnds) -> Option<[u8; 8]> {
    let (a, b) = ends;
    let [a_red, a_green] = contracted(a)?;
    let [b_red, b_green] = contracted(b)?;
    let first = [b_red, b_green, b[2], b[3]];
    let second = [a_red, a_green, a[2], a[3]];
    if sum_of(&second) >= sum_of(&first) {
        return None;
    }
    Some(values_of_offsets(&(first, second)))
}

// The values of modes 6 and 10 with the ratio of the sums of the endpoints as scale.
fn values_by_ratio(ends: &ColourEnds) -> [u8; 8] {
    let (a, b) = ends;
    let scale = byte(quotient((sum_of(a) << 8) + (sum_of(b) >> 1), sum_of(b)));
    [b[0], b[1], b[2], scale, a[3], b[3], 0, 0]
}

impl WantedColours {
    /// Computes the least-squares endpoints of a partition whose texels have these weights, 0 to
    /// 64, by plane.
    pub fn turn_to<const W: usize, const H: usize>(
        &mut self,
        texels: &Texels,
        part: &Lanes,
        layout: BlockLayout,
        weights: &[Lanes; 2],
    ) {
        put_sums::<W, H>(&mut self.sums, texels, part, layout, weights);
        self.gains = texels.gains;
        self.ends = ends_of(&self.sums);
        self.opaque = channel_error(&self.sums[3], self.gains[3], 255, 255);
    }

    /// Computes the best scale, which only modes 6 and 10 need.
    pub fn find_scale(&mut self, layout: BlockLayout) {
        self.scale = scale_of(&self.sums, layout, &self.gains);
    }

    // The values of modes 6 and 10 at a level: the scale is quantized first, and the colour fits
    // the quantized scale.
    fn values_scaled(&self, level: Level) -> [u8; 8]
        requires { 6 ≤ count_of level }
    {
        let scale = colour_value(level, nearest_colour(level, self.scale));
        let [red, green, blue] = scaled_values(&self.sums, scale);
        let (a, b) = &self.ends;
        [red, green, blue, scale, a[3], b[3], 0, 0]
    }

    fn grey(&self, colour: &[u8; 4]) -> u8 {
        grey_of(colour, &self.gains)
    }

    // The ideal values of an endpoint mode.
    fn values_for(&self, cem: u8, level: Level) -> [u8; 8]
        requires { 6 ≤ count_of level }
    {
        let (a, b) = &self.ends;
        match cem {
            0 => [self.grey(a), self.grey(b), 0, 0, 0, 0, 0, 0],
            4 => [self.grey(a), self.grey(b), a[3], b[3], 0, 0, 0, 0],
            5 => values_of_grey_offsets(self.grey(a), self.grey(b), [a[3], b[3]]),
            6 | 10 => self.values_scaled(level),
            9 | 13 => values_of_offsets(&self.ends),
            _ => [a[0], b[0], a[1], b[1], a[2], b[2], a[3], b[3]],
        }
    }

    // Alternative values of an endpoint mode, which may be closer.
    fn other_values(&self, cem: u8) -> Option<[u8; 8]> {
        match cem {
            6 | 10 => Some(values_by_ratio(&self.ends)),
            8 | 12 => values_contracted(&self.ends),
            9 | 13 => offsets_contracted(&self.ends),
            _ => None,
        }
    }

    /// Returns the ideal values of an endpoint mode. For modes 6 and 10 they depend on the level.
    pub fn values(&self, cem: u8, level: Level) -> WantedValues
        requires { 6 ≤ count_of level }
    {
        WantedValues {
            first: self.values_for(cem, level),
            second: self.other_values(cem),
        }
    }

    // Approximately the error with these endpoints, in 1/256. In modes without alpha both endpoints
    // have 255.
    #[inline(always)]
    fn error_with(&self, cem: u8, ends: &ColourEnds) -> Number {
        let alpha = if has_alpha(cem) {
            channel_error(&self.sums[3], self.gains[3], ends.0[3], ends.1[3])
        } else {
            self.opaque
        };
        (colour_error(&self.sums, &self.gains, ends) + alpha).max(number(0))
    }

    // Approximately the error after the values are quantized at a level.
    fn error_near(&self, cem: u8, level: Level, wanted: &[u8; 8]) -> Number
        requires { 6 ≤ count_of level }
    {
        let nearest = nearest_colour_values(level);
        let mut values = [0; 8];
        for k in 0..8 {
            values[k] = nearest.get(usize::from(wanted[k])).copied().unwrap_or(0);
        }
        self.error_with(cem, &ends_of_values(cem, &values))
    }

    /// Returns approximately the error of a partition with an endpoint mode at a level, in 1/256:
    /// the smaller one of the ideal values and the alternative, both quantized.
    pub fn error(&self, cem: u8, level: Level, values: &WantedValues) -> Number
        requires { 6 ≤ count_of level }
    {
        let best = self.error_near(cem, level, &values.first);
        match &values.second {
            Some(other) => self.error_near(cem, level, other).min(best),
            None => best,
        }
    }

    // The colour integers of a level that are closest to these values.
    fn coded(&self, cem: u8, level: Level, wanted: &[u8; 8]) -> Coding
        requires { 6 ≤ count_of level }
    {
        let count = integers_of(cem).min(8);
        let mut integers = [0; 8];
        let mut values = [0; 8];
        for k in 0..count {
            let integer = nearest_colour(level, wanted[k]);
            integers[k] = integer;
            values[k] = colour_value(level, integer);
        }
        let ends = ends_of_values(cem, &values);
        Coding {
            error: self.error_with(cem, &ends),
            integers,
            ends,
        }
    }

    /// Returns the best colour integers of an endpoint mode at a level.
    pub fn coding(&self, cem: u8, level: Level) -> Coding
        requires { 6 ≤ count_of level }
    {
        let values = self.values(cem, level);
        let best = self.coded(cem, level, &values.first);
        match &values.second {
            Some(values) => {
                let other = self.coded(cem, level, values);
                if other.error < best.error {
                    other
                } else {
                    best
                }
            }
            None => best,
        }
    }
}
