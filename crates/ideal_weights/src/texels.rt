// The texels of a source in arrays for vector loops.
ghost use Rattle.std.specs.Prelude.{◌<◌, ◌≤◌};

use crate::numbers::{Number, number};
use astc_model::{ChannelWeights, Flavour, Source};
use std::num::Wrapping;

/// A number for each place of a block, in rows from the top; 0 after the last place. From the start
/// of each row there are sixteen entries, so that a vector load stays in the array.
pub type Lanes = [i16; 160];

/// The texels of a source by channel.
#[derive(Clone, Copy)]
pub struct Texels {
    /// For each channel the value of each place, 0 to 255; 0 outside the image.
    pub channels: [Lanes; 4],
    /// -1 at each place inside the image, 0 elsewhere.
    pub inside: Lanes,
    /// The number of places inside the image.
    pub count: usize,
    /// The weight of each channel, 0 to 15.
    pub gains: [Number; 4],
    pub srgb: bool,
    /// Whether alpha is 255 at each inside place.
    pub opaque: bool,
    /// Whether all places of the block are inside the image.
    pub whole: bool,
}

/// Returns the number of lanes that loops process: the places of a block, rounded up to a multiple
/// of eight.
#[inline(always)]
pub fn lanes<const W: usize, const H: usize>() -> usize
    ensures { result ≤ 144 }
{
    let eights = W.wrapping_mul(H).wrapping_add(7) / 8;
    eights.wrapping_mul(8).min(144)
}

/// Returns the number of groups of eight lanes that loops process.
#[inline(always)]
pub fn eights<const W: usize, const H: usize>() -> usize
    ensures { result ≤ 18 }
{
    lanes::<W, H>() / 8
}

/// Returns a group of eight lanes by value, so that the compiler can turn a loop over them into
/// vector code without regard to writes.
#[inline(always)]
pub fn eight(lanes: &Lanes, group: usize) -> [i16; 8]
    requires { group < 18 }
{
    let mut own = [0; 8];
    for k in 0..8 {
        own[k] = lanes[group * 8 + k];
    }
    own
}

/// Returns the number of places of a block.
#[inline(always)]
pub fn places<const W: usize, const H: usize>() -> usize
    ensures { result ≤ 144 }
{
    W.wrapping_mul(H).min(144)
}

fn gains_of(weights: [u8; 4]) -> [Number; 4] {
    [
        number(i64::from(weights[0])),
        number(i64::from(weights[1])),
        number(i64::from(weights[2])),
        number(i64::from(weights[3])),
    ]
}

// Sets all places to 0.
fn clear<const W: usize, const H: usize>(numbers: &mut Lanes) {
    for p in 0..lanes::<W, H>() {
        numbers[p] = 0;
    }
}

/// The initial value, before the texels of a source are set.
pub static NO_TEXELS: Texels = Texels {
    channels: [[0; 160]; 4],
    inside: [0; 160],
    count: 0,
    gains: [Wrapping(0); 4],
    srgb: false,
    opaque: true,
    whole: true,
};

impl Texels {
    fn set(&mut self, place: usize, value: &[u8; 4]) {
        if place < 144 {
            self.inside[place] = -1;
            self.channels[0][place] = i16::from(value[0]);
            self.channels[1][place] = i16::from(value[1]);
            self.channels[2][place] = i16::from(value[2]);
            self.channels[3][place] = i16::from(value[3]);
            self.count = self.count.wrapping_add(1);
            self.opaque = self.opaque && value[3] == 255;
        }
    }

    fn forget<const W: usize, const H: usize>(&mut self) {
        for c in 0..4 {
            clear::<W, H>(&mut self.channels[c]);
        }
        clear::<W, H>(&mut self.inside);
        self.count = 0;
        self.opaque = true;
        self.whole = true;
    }

    /// Sets the texels, the flavour and the channel weights from a source.
    pub fn take<const W: usize, const H: usize>(
        &mut self,
        flavour: Flavour,
        weights: ChannelWeights,
        source: &Source<W, H>,
    ) {
        self.forget::<W, H>();
        self.gains = gains_of(weights.of());
        self.srgb = flavour == Flavour::Srgb;
        for (place, texel) in source.places().iter().enumerate() {
            match texel {
                Some(value) => self.set(place, value),
                None => self.whole = false,
            }
        }
    }
}
