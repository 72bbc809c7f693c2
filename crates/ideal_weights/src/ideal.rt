// The ideal weights of a layout (the partitions and planes of a block): the positions of the texels
// along the main line of each partition, the line with the least squared distances.
ghost use Rattle.std.specs.Prelude.{◌<◌};

use crate::layouts::{BlockLayout, WHOLE};
use crate::numbers::{Number, excess_bits, number, quotient};
use crate::patterns::put_parts;
use crate::statistics::{Products, products_of, row_of, statistics_of};
use crate::texels::{Lanes, Texels, lanes};
use std::num::Wrapping;

/// The ideal weights of a layout.
#[derive(Clone, Copy)]
pub struct Wants {
    /// For each plane and place the ideal weight, 0 to 512; 512 stands for a weight of 64.
    pub weights: [Lanes; 2],
    /// For each plane and partition the squared length of the line between the extreme texels, each
    /// channel with its weight.
    pub lengths: [[Number; 4]; 2],
}

/// The ideal weights of a layout, with the masks of its partitions.
#[derive(Clone, Copy)]
pub struct IdealWeights {
    pub layout: BlockLayout,
    /// For each partition -1 at its inside places, 0 elsewhere; stale for partitions that the
    /// layout does not have.
    pub masks: [Lanes; 4],
    pub wants: Wants,
    // The partition of each place, if there are several partitions.
    parts: [u8; 144],
    // The position of each place along the line of the last partition.
    along: Places,
}

// A number for each channel.
type ByChannel = [Number; 4];

// A direction by channel, each -1024 to 1024.
type Direction = [i16; 4];

// The channels with a weight over 0 that belong to a plane.
fn keeps_of(layout: BlockLayout, plane: usize, gains: &ByChannel) -> [bool; 4] {
    let mut keeps = [false; 4];
    for c in 0..4 {
        keeps[c] = layout.plane_of(c) == plane && gains[c].0 > 0;
    }
    keeps
}

// The covariances of all channels with the channel that varies most; 0 if no channel varies.
fn main_row(covariances: &Products, gains: &ByChannel) -> ByChannel {
    let mut most = number(0);
    let mut row = [number(0); 4];
    for c in 0..4 {
        let own = row_of(covariances, c);
        let variance = own[c] * gains[c];
        if variance > most {
            most = variance;
            row = own;
        }
    }
    row
}

fn excess(row: &ByChannel, bits: u32) -> usize {
    let mut most = 0;
    for entry in row {
        most = entry.0.unsigned_abs().max(most);
    }
    excess_bits(number(i64::try_from(most).unwrap_or(i64::MAX)), bits)
}

fn product_of(first: &ByChannel, second: &ByChannel) -> Number {
    first[0] * second[0] + first[1] * second[1] + first[2] * second[2] + first[3] * second[3]
}

// A row after one step of power iteration towards the main direction: the covariances times the
// row, which is cut to 14 bits.
fn turned(covariances: &Products, row: &ByChannel) -> ByChannel {
    let shift = excess(row, 14);
    let short = [
        row[0] >> shift,
        row[1] >> shift,
        row[2] >> shift,
        row[3] >> shift,
    ];
    [
        product_of(&row_of(covariances, 0), &short),
        product_of(&row_of(covariances, 1), &short),
        product_of(&row_of(covariances, 2), &short),
        product_of(&row_of(covariances, 3), &short),
    ]
}

// The row cut to numbers of ten bits, with a sign so that red, green and blue do not fall in total.
fn direction(row: &ByChannel) -> Direction {
    let shift = excess(row, 10);
    let down = (row[0] + row[1] + row[2]).0 < 0;
    let mut along = [0; 4];
    for c in 0..4 {
        let short = (row[c] >> shift).0.clamp(-1024, 1024) as i16;
        along[c] = if down { short.wrapping_neg() } else { short };
    }
    along
}

// The direction of the main line of a set of texels: that of the channel that varies most, after
// three steps of power iteration.
fn line_of(covariances: &Products, gains: &ByChannel) -> Direction {
    let mut row = main_row(covariances, gains);
    for _ in 0..3u8 {
        row = turned(covariances, &row);
    }
    direction(&row)
}

// The position of each place along a line.
type Places = [i32; 144];

// The least and the greatest position of a set of texels along a line.
#[derive(Clone, Copy)]
struct Extremes {
    least: i32,
    greatest: i32,
}

#[inline(always)]
fn place_of(line: &Direction, channels: &[Lanes; 4], p: usize) -> i32
    requires { p < 144 }
{
    let red = i32::from(line[0]).wrapping_mul(i32::from(channels[0][p]));
    let green = i32::from(line[1]).wrapping_mul(i32::from(channels[1][p]));
    let blue = i32::from(line[2]).wrapping_mul(i32::from(channels[2][p]));
    let alpha = i32::from(line[3]).wrapping_mul(i32::from(channels[3][p]));
    red.wrapping_add(green)
        .wrapping_add(blue)
        .wrapping_add(alpha)
}

// Computes the positions of all texels, and returns the extremes of those in the mask.
fn put_places<const W: usize, const H: usize>(
    places: &mut Places,
    line: &Direction,
    texels: &Texels,
    mask: &Lanes,
) -> Extremes {
    let mut ends = Extremes {
        least: i32::MAX,
        greatest: i32::MIN,
    };
    for p in 0..lanes::<W, H>() {
        let place = place_of(line, &texels.channels, p);
        places[p] = place;
        let counts = mask[p] != 0;
        ends.least = ends.least.min(if counts { place } else { i32::MAX });
        ends.greatest = ends.greatest.max(if counts { place } else { i32::MIN });
    }
    ends
}

// Sets the ideal weights of the places of a mask: 0 at the least position, 512 at the greatest.
fn put_wanted<const W: usize, const H: usize>(
    wanted: &mut Lanes,
    places: &Places,
    ends: Extremes,
    mask: &Lanes,
) {
    let span = ends.greatest.wrapping_sub(ends.least);
    let share = (512i32 << 21).checked_div(span).unwrap_or(0);
    for p in 0..lanes::<W, H>() {
        let way = places[p].wrapping_sub(ends.least);
        let weight = (way.wrapping_mul(share) >> 21).clamp(0, 512) as i16;
        wanted[p] |= weight & mask[p];
    }
}

// Sets the mask of a partition: -1 at its inside places, else 0.
fn put_mask<const W: usize, const H: usize>(
    mask: &mut Lanes,
    parts: &[u8; 144],
    part: u8,
    inside: &Lanes,
) {
    for p in 0..lanes::<W, H>() {
        mask[p] = if parts[p] == part { inside[p] } else { 0 };
    }
}

// The squared length of the line between the extremes, each channel with its weight. The direction
// is scaled by the distance of the extremes along it.
fn length_of(line: &Direction, ends: Extremes, gains: &ByChannel) -> Number {
    let mut own = number(0);
    let mut counted = number(0);
    for c in 0..4 {
        let along = number(i64::from(line[c]));
        own += along * along;
        counted += gains[c] * along * along;
    }
    let span = number(i64::from(ends.greatest) - i64::from(ends.least));
    quotient(quotient(span * span, own) * counted, own)
}

/// The initial value, before the ideal weights of a layout are computed.
pub static NO_WANTS: Wants = Wants {
    weights: [[0; 160]; 2],
    lengths: [[Wrapping(0); 4]; 2],
};

impl Wants {
    // Clears the ideal weights of the first `planes` planes.
    fn forget<const W: usize, const H: usize>(&mut self, planes: usize) {
        self.lengths = [[number(0); 4]; 2];
        for own in self.weights.iter_mut().take(planes) {
            for p in 0..lanes::<W, H>() {
                own[p] = 0;
            }
        }
    }
}

/// The initial value, before the ideal weights of a layout are computed.
pub static NO_IDEAL_WEIGHTS: IdealWeights = IdealWeights {
    layout: WHOLE,
    masks: [[0; 160]; 4],
    wants: NO_WANTS,
    parts: [0; 144],
    along: [0; 144],
};

impl IdealWeights {
    // Computes the ideal weights of a partition in one plane.
    fn put_plane<const W: usize, const H: usize>(
        &mut self,
        texels: &Texels,
        covariances: &Products,
        part: usize,
        plane: usize,
    ) {
        let keeps = keeps_of(self.layout, plane, &texels.gains);
        let line = line_of(&products_of(covariances, &keeps), &texels.gains);
        let mask = &self.masks[part & 3];
        let ends = put_places::<W, H>(&mut self.along, &line, texels, mask);
        if ends.greatest > ends.least {
            let wants = &mut self.wants;
            wants.lengths[plane & 1][part & 3] = length_of(&line, ends, &texels.gains);
            put_wanted::<W, H>(&mut wants.weights[plane & 1], &self.along, ends, mask);
        }
    }

    // Computes the ideal weights of a partition in all planes; its mask is set.
    fn put_part<const W: usize, const H: usize>(&mut self, texels: &Texels, part: usize) {
        let statistics = statistics_of::<W, H>(texels, &self.masks[part & 3]);
        let covariances = statistics.covariances();
        self.put_plane::<W, H>(texels, &covariances, part, 0);
        if self.layout.plane > 0 {
            self.put_plane::<W, H>(texels, &covariances, part, 1);
        }
    }

    // Sets the masks of the partitions.
    fn put_masks<const W: usize, const H: usize>(&mut self, texels: &Texels) {
        let BlockLayout { parts, seed, .. } = self.layout;
        if parts < 2 {
            self.masks[0] = texels.inside;
            return;
        }
        put_parts::<W, H>(&mut self.parts, parts, seed);
        for part in 0..parts.min(4) {
            let mask = &mut self.masks[usize::from(part & 3)];
            put_mask::<W, H>(mask, &self.parts, part, &texels.inside);
        }
    }

    /// Computes the ideal weights of a layout, along the main line of each partition.
    #[inline(never)]
    pub fn turn_to<const W: usize, const H: usize>(
        &mut self,
        layout: BlockLayout,
        texels: &Texels,
    ) {
        self.layout = layout;
        self.wants.forget::<W, H>(layout.planes());
        self.put_masks::<W, H>(texels);
        for part in 0..usize::from(layout.parts).min(4) {
            self.put_part::<W, H>(texels, part);
        }
    }
}
