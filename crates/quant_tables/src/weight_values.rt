// Unquantized weights at each level, in tables that are proved equal to the standard's formula
// (Khronos Data Format Specification, ASTC, "Weight Unquantization").
ghost use Rattle.std.specs.Prelude.{◌≡◌, ◌<◌, ◌≤◌};
ghost use Rattle.astc_model.specs.WeightValues.{weight_value};
ghost use Rattle.astc_model.specs.Levels.{count_of};
ghost use Rattle.quant_tables.specs.Tables.{weight_values_of};

use astc_model::Level;

static WEIGHT_VALUES_TWO: [u8; 2] = [0, 64];

static WEIGHT_VALUES_THREE: [u8; 3] = [0, 32, 64];

static WEIGHT_VALUES_FOUR: [u8; 4] = [0, 21, 43, 64];

static WEIGHT_VALUES_FIVE: [u8; 5] = [0, 16, 32, 48, 64];

static WEIGHT_VALUES_SIX: [u8; 6] = [0, 64, 12, 52, 25, 39];

static WEIGHT_VALUES_EIGHT: [u8; 8] = [0, 9, 18, 27, 37, 46, 55, 64];

static WEIGHT_VALUES_TEN: [u8; 10] = [0, 64, 7, 57, 14, 50, 21, 43, 28, 36];

static WEIGHT_VALUES_TWELVE: [u8; 12] = [0, 64, 17, 47, 5, 59, 23, 41, 11, 53, 28, 36];

static WEIGHT_VALUES_SIXTEEN: [u8; 16] = [
    0, 4, 8, 12, 17, 21, 25, 29, 35, 39, 43, 47, 52, 56, 60, 64,
];

static WEIGHT_VALUES_TWENTY: [u8; 20] = [
    0, 64, 16, 48, 3, 61, 19, 45, 6, 58, 23, 41, 9, 55, 26, 38, 13, 51, 29, 35,
];

static WEIGHT_VALUES_TWENTY_FOUR: [u8; 24] = [
    0, 64, 8, 56, 16, 48, 24, 40, 2, 62, 11, 53, 19, 45, 27, 37, 5, 59, 13, 51, 22, 42, 30, 34,
];

static WEIGHT_VALUES_THIRTY_TWO: [u8; 32] = [
    0, 2, 4, 6, 8, 10, 12, 14, 16, 18, 20, 22, 24, 26, 28, 30, 34, 36, 38, 40, 42, 44, 46, 48, 50,
    52, 54, 56, 58, 60, 62, 64,
];

/// The unquantized values of all integers of a weight level (2 to 32), in the order of the
/// integers.
fn weight_values(level: Level) -> &'static [u8]
    requires { count_of level ≤ 32 }
    ensures { result.now ≡ weight_values_of level }
{
    match level {
        Level::Two => &WEIGHT_VALUES_TWO,
        Level::Three => &WEIGHT_VALUES_THREE,
        Level::Four => &WEIGHT_VALUES_FOUR,
        Level::Five => &WEIGHT_VALUES_FIVE,
        Level::Six => &WEIGHT_VALUES_SIX,
        Level::Eight => &WEIGHT_VALUES_EIGHT,
        Level::Ten => &WEIGHT_VALUES_TEN,
        Level::Twelve => &WEIGHT_VALUES_TWELVE,
        Level::Sixteen => &WEIGHT_VALUES_SIXTEEN,
        Level::Twenty => &WEIGHT_VALUES_TWENTY,
        Level::TwentyFour => &WEIGHT_VALUES_TWENTY_FOUR,
        Level::ThirtyTwo => &WEIGHT_VALUES_THIRTY_TWO,
        _ => unreachable!(),
    }
}

/// Returns the unquantized weight, 0 to 64, of the integer `i` at a weight level (2 to 32) (Khronos
/// Data Format Specification, ASTC, "Weight Unquantization").
pub fn weight_value(level: Level, i: u8) -> u8
    requires level { count_of level ≤ 32 }
    requires integer { i < count_of level }
    ensures value { result ≡ weight_value level i }
    ensures in_range { result ≤ 64 }
{
    weight_values(level)[i as usize]
}
