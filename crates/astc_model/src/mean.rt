// The void-extent block that is closest to a source, and its error.
ghost use Rattle.std.specs.Prelude.{◌≡◌, ◌+◌, ◌*◌, ◌<◌, ◌≤◌, ◌/◌, map, sum_by, length};
ghost use Rattle.std.specs.List.{All};
ghost use Rattle.astc_model.specs.Places.{channel_sum, inside_count, mean_of};
ghost use Rattle.astc_model.specs.Blocks.{constant_of, mean_values, ConstantFields};
ghost use Rattle.astc_model.specs.declared.block.Block.TheVariants.{Constant};
ghost use Rattle.astc_model.specs.FootprintNames.{Flavour};
ghost use Rattle.astc_model.specs.Presets.{Preset};
ghost use Rattle.astc_model.specs.Limits.{most_block_error, most_texel_error};
ghost use Rattle.astc_model.specs.Weights.{Weighting};
ghost use Rattle.astc_model.specs.Errors.{place_error, error};
ghost use Rattle.astc_model.specs.Settled.{Settled, NoneUnder, listed};
ghost use Rattle.astc_model.specs.declared.preset.Preset.TheVariants.{Flat};

use crate::{ChannelWeights, Source, texel_error};

// The sum of each channel over the texels inside the image, and the number of these texels.
#[derive(Clone, Copy)]
struct Sums {
    red: u32,
    green: u32,
    blue: u32,
    alpha: u32,
    count: u32,
}

fn sums_of(places: &[Option<[u8; 4]>]) -> Sums
    requires { length places.now ≤ 144 }
    ensures red { result.red ≡ channel_sum 0 places.now }
    ensures green { result.green ≡ channel_sum 1 places.now }
    ensures blue { result.blue ≡ channel_sum 2 places.now }
    ensures alpha { result.alpha ≡ channel_sum 3 places.now }
    ensures count { result.count ≡ inside_count places.now }
    ensures few { result.count ≤ 144 }
    ensures red_small { result.red ≤ 255 * result.count }
    ensures green_small { result.green ≤ 255 * result.count }
    ensures blue_small { result.blue ≤ 255 * result.count }
    ensures alpha_small { result.alpha ≤ 255 * result.count }
{
    let mut sums = Sums {
        red: 0,
        green: 0,
        blue: 0,
        alpha: 0,
        count: 0,
    };
    for place in places {
        if let Some([red, green, blue, alpha]) = place {
            sums.red += u32::from(*red);
            sums.green += u32::from(*green);
            sums.blue += u32::from(*blue);
            sums.alpha += u32::from(*alpha);
            sums.count += 1;
        }
    }
    sums
}

// The mean of a channel, rounded half up to 8 bits and then widened to 16 bits; 0 if `count` is 0.
fn widened_mean(sum: u32, count: u32) -> u16
    requires few { count ≤ 144 }
    requires small { sum ≤ 255 * count }
    ensures { result ≡ 257 * mean_of sum count }
{
    if count == 0 {
        return 0;
    }
    257 * ((2 * sum + count) / (2 * count)) as u16
}

// The mean of each channel over the inside texels, widened to 16 bits.
fn widened_means(places: &[Option<[u8; 4]>]) -> [u16; 4]
    requires { length places.now ≤ 144 }
    ensures { result ≡ mean_values places.now }
{
    let sums = sums_of(places);
    [
        widened_mean(sums.red, sums.count),
        widened_mean(sums.green, sums.count),
        widened_mean(sums.blue, sums.count),
        widened_mean(sums.alpha, sums.count),
    ]
}

/// Returns the red, green, blue and alpha (16 bits each) of the void-extent block with the least
/// error: 257 times the mean of the channel over the texels inside the image, rounded half up, and
/// 0 if no texel is inside. The block is the closest one for all channel weights and in both
/// flavours.
pub fn mean_constant<const W: usize, const H: usize>(source: &Source<W, H>) -> [u16; 4]
    ensures mean { result ≡ mean_values source.now }
    ensures least { (flavour : Flavour) (weights : Weighting) (other : ConstantFields)
        → error W H flavour weights (constant_of result) source.now ≤ error W H flavour weights
        (Constant other) source.now }
    ensures settled { (flavour : Flavour) (weights : Weighting) (preset : Preset)
        → NoneUnder W H flavour weights source.now
        (error W H flavour weights (constant_of result) source.now)
        (listed W H preset source.now)
        → Settled W H flavour weights preset source.now (constant_of result)
        (error W H flavour weights (constant_of result) source.now) }
    ensures settled_flat { (flavour : Flavour) (weights : Weighting)
        → Settled W H flavour weights Flat source.now (constant_of result)
        (error W H flavour weights (constant_of result) source.now) }
{
    widened_means(source.places())
}

// The sum of the errors of one texel value against all inside places.
fn distance_from_all(weights: &[u8; 4], shown: &[u8; 4], places: &[Option<[u8; 4]>]) -> u32
    requires weights { All (λ weight. weight ≤ 15) weights.now }
    requires few { length places.now ≤ 144 }
    ensures exact { result ≡ sum_by (place_error weights.now shown.now) places.now }
    ensures small { result ≤ most_texel_error * length places.now }
{
    let mut total = 0;
    for place in places {
        if let Some(wanted) = place {
            total += texel_error(weights, shown, wanted);
        }
    }
    total
}

// The 8-bit texel that a void-extent block with these 16-bit values shows.
fn top_bytes(rgba: [u16; 4]) -> [u8; 4]
    ensures { result ≡ map (λ value. value / 256) rgba }
{
    rgba.map(|value| (value >> 8) as u8)
}

/// Returns the error of the void-extent block with the values `rgba` and without an extent, which
/// is the same in both flavours: the sum of the squared differences between its texel and those of
/// the source, over the inside places and the four channels, each times its weight. The error is at
/// most 561,816,000.
pub fn constant_error<const W: usize, const H: usize>(
    rgba: [u16; 4],
    weights: ChannelWeights,
    source: &Source<W, H>,
) -> u32
    ensures exact { (flavour : Flavour) → result
        ≡ error W H flavour weights (constant_of rgba) source.now }
    ensures small { result ≤ most_block_error }
{
    distance_from_all(&weights.of(), &top_bytes(rgba), source.places())
}
