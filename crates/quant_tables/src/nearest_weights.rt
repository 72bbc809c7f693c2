// The weight integer whose value is closest to a number of 0 to 64, in one table for each level.
// The tables are proved equal to a search through all integers of the level.
ghost use Rattle.std.specs.Prelude.{◌≡◌, ◌<◌, ◌≤◌};
ghost use Rattle.astc_model.specs.WeightValues.{weight_value};
ghost use Rattle.astc_model.specs.Levels.{count_of};
ghost use Rattle.astc_model.specs.Nearest.{IsNearest, nearest_weight};
ghost use Rattle.quant_tables.specs.Tables.{nearest_weights_of};

use astc_model::Level;

static NEAREST_WEIGHT_TWO: [u8; 65] = [
    0, 0, 0, 0, 0, 0, 0, 0, 0, 0, 0, 0, 0, 0, 0, 0, 0, 0, 0, 0, 0, 0, 0, 0, 0, 0, 0, 0, 0, 0, 0, 0,
    0, 1, 1, 1, 1, 1, 1, 1, 1, 1, 1, 1, 1, 1, 1, 1, 1, 1, 1, 1, 1, 1, 1, 1, 1, 1, 1, 1, 1, 1, 1, 1,
    1,
];

static NEAREST_WEIGHT_THREE: [u8; 65] = [
    0, 0, 0, 0, 0, 0, 0, 0, 0, 0, 0, 0, 0, 0, 0, 0, 0, 1, 1, 1, 1, 1, 1, 1, 1, 1, 1, 1, 1, 1, 1, 1,
    1, 1, 1, 1, 1, 1, 1, 1, 1, 1, 1, 1, 1, 1, 1, 1, 1, 2, 2, 2, 2, 2, 2, 2, 2, 2, 2, 2, 2, 2, 2, 2,
    2,
];

static NEAREST_WEIGHT_FOUR: [u8; 65] = [
    0, 0, 0, 0, 0, 0, 0, 0, 0, 0, 0, 1, 1, 1, 1, 1, 1, 1, 1, 1, 1, 1, 1, 1, 1, 1, 1, 1, 1, 1, 1, 1,
    1, 2, 2, 2, 2, 2, 2, 2, 2, 2, 2, 2, 2, 2, 2, 2, 2, 2, 2, 2, 2, 2, 3, 3, 3, 3, 3, 3, 3, 3, 3, 3,
    3,
];

static NEAREST_WEIGHT_FIVE: [u8; 65] = [
    0, 0, 0, 0, 0, 0, 0, 0, 0, 1, 1, 1, 1, 1, 1, 1, 1, 1, 1, 1, 1, 1, 1, 1, 1, 2, 2, 2, 2, 2, 2, 2,
    2, 2, 2, 2, 2, 2, 2, 2, 2, 3, 3, 3, 3, 3, 3, 3, 3, 3, 3, 3, 3, 3, 3, 3, 3, 4, 4, 4, 4, 4, 4, 4,
    4,
];

static NEAREST_WEIGHT_SIX: [u8; 65] = [
    0, 0, 0, 0, 0, 0, 0, 2, 2, 2, 2, 2, 2, 2, 2, 2, 2, 2, 2, 4, 4, 4, 4, 4, 4, 4, 4, 4, 4, 4, 4, 4,
    4, 5, 5, 5, 5, 5, 5, 5, 5, 5, 5, 5, 5, 5, 3, 3, 3, 3, 3, 3, 3, 3, 3, 3, 3, 3, 1, 1, 1, 1, 1, 1,
    1,
];

static NEAREST_WEIGHT_EIGHT: [u8; 65] = [
    0, 0, 0, 0, 0, 1, 1, 1, 1, 1, 1, 1, 1, 1, 2, 2, 2, 2, 2, 2, 2, 2, 2, 3, 3, 3, 3, 3, 3, 3, 3, 3,
    3, 4, 4, 4, 4, 4, 4, 4, 4, 4, 5, 5, 5, 5, 5, 5, 5, 5, 5, 6, 6, 6, 6, 6, 6, 6, 6, 6, 7, 7, 7, 7,
    7,
];

static NEAREST_WEIGHT_TEN: [u8; 65] = [
    0, 0, 0, 0, 2, 2, 2, 2, 2, 2, 2, 4, 4, 4, 4, 4, 4, 4, 6, 6, 6, 6, 6, 6, 6, 8, 8, 8, 8, 8, 8, 8,
    8, 9, 9, 9, 9, 9, 9, 9, 7, 7, 7, 7, 7, 7, 7, 5, 5, 5, 5, 5, 5, 5, 3, 3, 3, 3, 3, 3, 3, 1, 1, 1,
    1,
];

static NEAREST_WEIGHT_TWELVE: [u8; 65] = [
    0, 0, 0, 4, 4, 4, 4, 4, 4, 8, 8, 8, 8, 8, 2, 2, 2, 2, 2, 2, 2, 6, 6, 6, 6, 6, 10, 10, 10, 10,
    10, 10, 10, 11, 11, 11, 11, 11, 11, 7, 7, 7, 7, 7, 3, 3, 3, 3, 3, 3, 3, 9, 9, 9, 9, 9, 5, 5, 5,
    5, 5, 5, 1, 1, 1,
];

static NEAREST_WEIGHT_SIXTEEN: [u8; 65] = [
    0, 0, 0, 1, 1, 1, 1, 2, 2, 2, 2, 3, 3, 3, 3, 4, 4, 4, 4, 4, 5, 5, 5, 5, 6, 6, 6, 6, 7, 7, 7, 7,
    7, 8, 8, 8, 8, 8, 9, 9, 9, 9, 10, 10, 10, 10, 11, 11, 11, 11, 12, 12, 12, 12, 12, 13, 13, 13,
    13, 14, 14, 14, 14, 15, 15,
];

static NEAREST_WEIGHT_TWENTY: [u8; 65] = [
    0, 0, 4, 4, 4, 8, 8, 8, 12, 12, 12, 12, 16, 16, 16, 2, 2, 2, 6, 6, 6, 6, 10, 10, 10, 14, 14,
    14, 18, 18, 18, 18, 18, 19, 19, 19, 19, 15, 15, 15, 11, 11, 11, 7, 7, 7, 7, 3, 3, 3, 17, 17,
    17, 13, 13, 13, 13, 9, 9, 9, 5, 5, 5, 1, 1,
];

static NEAREST_WEIGHT_TWENTY_FOUR: [u8; 65] = [
    0, 0, 8, 8, 16, 16, 16, 2, 2, 2, 10, 10, 10, 18, 18, 4, 4, 4, 12, 12, 12, 20, 20, 6, 6, 6, 14,
    14, 14, 22, 22, 22, 22, 23, 23, 23, 15, 15, 15, 7, 7, 7, 21, 21, 13, 13, 13, 5, 5, 5, 19, 19,
    11, 11, 11, 3, 3, 3, 17, 17, 17, 9, 9, 1, 1,
];

static NEAREST_WEIGHT_THIRTY_TWO: [u8; 65] = [
    0, 0, 1, 1, 2, 2, 3, 3, 4, 4, 5, 5, 6, 6, 7, 7, 8, 8, 9, 9, 10, 10, 11, 11, 12, 12, 13, 13, 14,
    14, 15, 15, 15, 16, 16, 16, 17, 17, 18, 18, 19, 19, 20, 20, 21, 21, 22, 22, 23, 23, 24, 24, 25,
    25, 26, 26, 27, 27, 28, 28, 29, 29, 30, 30, 31,
];

/// The closest integers to the values 0 to 64 at a weight level (2 to 32).
fn nearest_weights(level: Level) -> &'static [u8]
    requires { count_of level ≤ 32 }
    ensures { result.now ≡ nearest_weights_of level }
{
    match level {
        Level::Two => &NEAREST_WEIGHT_TWO,
        Level::Three => &NEAREST_WEIGHT_THREE,
        Level::Four => &NEAREST_WEIGHT_FOUR,
        Level::Five => &NEAREST_WEIGHT_FIVE,
        Level::Six => &NEAREST_WEIGHT_SIX,
        Level::Eight => &NEAREST_WEIGHT_EIGHT,
        Level::Ten => &NEAREST_WEIGHT_TEN,
        Level::Twelve => &NEAREST_WEIGHT_TWELVE,
        Level::Sixteen => &NEAREST_WEIGHT_SIXTEEN,
        Level::Twenty => &NEAREST_WEIGHT_TWENTY,
        Level::TwentyFour => &NEAREST_WEIGHT_TWENTY_FOUR,
        Level::ThirtyTwo => &NEAREST_WEIGHT_THIRTY_TWO,
        _ => unreachable!(),
    }
}

/// Returns the integer of a weight level (2 to 32) whose unquantized value is closest to `w`, which
/// is at most 64; at a tie the least integer.
pub fn nearest_weight(level: Level, w: u8) -> u8
    requires level { count_of level ≤ 32 }
    requires weight { w ≤ 64 }
    ensures found { result ≡ nearest_weight level w }
    ensures nearest { IsNearest (weight_value level) (count_of level) w result }
    ensures in_range { result < count_of level }
{
    nearest_weights(level)[w as usize]
}
