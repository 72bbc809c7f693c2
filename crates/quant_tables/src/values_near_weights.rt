// Weights of 0 to 64 after quantization and unquantization at each level, in tables that are proved
// equal to the definitions.
ghost use Rattle.std.specs.Prelude.{◌≡◌, ◌≤◌};
ghost use Rattle.astc_model.specs.Levels.{count_of};
ghost use Rattle.quant_tables.specs.Tables.{nearest_weight_values_of};

use astc_model::Level;

static NEAREST_WEIGHT_VALUE_TWO: [u8; 65] = [
    0, 0, 0, 0, 0, 0, 0, 0, 0, 0, 0, 0, 0, 0, 0, 0, 0, 0, 0, 0, 0, 0, 0, 0, 0, 0, 0, 0, 0, 0, 0, 0,
    0, 64, 64, 64, 64, 64, 64, 64, 64, 64, 64, 64, 64, 64, 64, 64, 64, 64, 64, 64, 64, 64, 64, 64,
    64, 64, 64, 64, 64, 64, 64, 64, 64,
];

static NEAREST_WEIGHT_VALUE_THREE: [u8; 65] = [
    0, 0, 0, 0, 0, 0, 0, 0, 0, 0, 0, 0, 0, 0, 0, 0, 0, 32, 32, 32, 32, 32, 32, 32, 32, 32, 32, 32,
    32, 32, 32, 32, 32, 32, 32, 32, 32, 32, 32, 32, 32, 32, 32, 32, 32, 32, 32, 32, 32, 64, 64, 64,
    64, 64, 64, 64, 64, 64, 64, 64, 64, 64, 64, 64, 64,
];

static NEAREST_WEIGHT_VALUE_FOUR: [u8; 65] = [
    0, 0, 0, 0, 0, 0, 0, 0, 0, 0, 0, 21, 21, 21, 21, 21, 21, 21, 21, 21, 21, 21, 21, 21, 21, 21,
    21, 21, 21, 21, 21, 21, 21, 43, 43, 43, 43, 43, 43, 43, 43, 43, 43, 43, 43, 43, 43, 43, 43, 43,
    43, 43, 43, 43, 64, 64, 64, 64, 64, 64, 64, 64, 64, 64, 64,
];

static NEAREST_WEIGHT_VALUE_FIVE: [u8; 65] = [
    0, 0, 0, 0, 0, 0, 0, 0, 0, 16, 16, 16, 16, 16, 16, 16, 16, 16, 16, 16, 16, 16, 16, 16, 16, 32,
    32, 32, 32, 32, 32, 32, 32, 32, 32, 32, 32, 32, 32, 32, 32, 48, 48, 48, 48, 48, 48, 48, 48, 48,
    48, 48, 48, 48, 48, 48, 48, 64, 64, 64, 64, 64, 64, 64, 64,
];

static NEAREST_WEIGHT_VALUE_SIX: [u8; 65] = [
    0, 0, 0, 0, 0, 0, 0, 12, 12, 12, 12, 12, 12, 12, 12, 12, 12, 12, 12, 25, 25, 25, 25, 25, 25,
    25, 25, 25, 25, 25, 25, 25, 25, 39, 39, 39, 39, 39, 39, 39, 39, 39, 39, 39, 39, 39, 52, 52, 52,
    52, 52, 52, 52, 52, 52, 52, 52, 52, 64, 64, 64, 64, 64, 64, 64,
];

static NEAREST_WEIGHT_VALUE_EIGHT: [u8; 65] = [
    0, 0, 0, 0, 0, 9, 9, 9, 9, 9, 9, 9, 9, 9, 18, 18, 18, 18, 18, 18, 18, 18, 18, 27, 27, 27, 27,
    27, 27, 27, 27, 27, 27, 37, 37, 37, 37, 37, 37, 37, 37, 37, 46, 46, 46, 46, 46, 46, 46, 46, 46,
    55, 55, 55, 55, 55, 55, 55, 55, 55, 64, 64, 64, 64, 64,
];

static NEAREST_WEIGHT_VALUE_TEN: [u8; 65] = [
    0, 0, 0, 0, 7, 7, 7, 7, 7, 7, 7, 14, 14, 14, 14, 14, 14, 14, 21, 21, 21, 21, 21, 21, 21, 28,
    28, 28, 28, 28, 28, 28, 28, 36, 36, 36, 36, 36, 36, 36, 43, 43, 43, 43, 43, 43, 43, 50, 50, 50,
    50, 50, 50, 50, 57, 57, 57, 57, 57, 57, 57, 64, 64, 64, 64,
];

static NEAREST_WEIGHT_VALUE_TWELVE: [u8; 65] = [
    0, 0, 0, 5, 5, 5, 5, 5, 5, 11, 11, 11, 11, 11, 17, 17, 17, 17, 17, 17, 17, 23, 23, 23, 23, 23,
    28, 28, 28, 28, 28, 28, 28, 36, 36, 36, 36, 36, 36, 41, 41, 41, 41, 41, 47, 47, 47, 47, 47, 47,
    47, 53, 53, 53, 53, 53, 59, 59, 59, 59, 59, 59, 64, 64, 64,
];

static NEAREST_WEIGHT_VALUE_SIXTEEN: [u8; 65] = [
    0, 0, 0, 4, 4, 4, 4, 8, 8, 8, 8, 12, 12, 12, 12, 17, 17, 17, 17, 17, 21, 21, 21, 21, 25, 25,
    25, 25, 29, 29, 29, 29, 29, 35, 35, 35, 35, 35, 39, 39, 39, 39, 43, 43, 43, 43, 47, 47, 47, 47,
    52, 52, 52, 52, 52, 56, 56, 56, 56, 60, 60, 60, 60, 64, 64,
];

static NEAREST_WEIGHT_VALUE_TWENTY: [u8; 65] = [
    0, 0, 3, 3, 3, 6, 6, 6, 9, 9, 9, 9, 13, 13, 13, 16, 16, 16, 19, 19, 19, 19, 23, 23, 23, 26, 26,
    26, 29, 29, 29, 29, 29, 35, 35, 35, 35, 38, 38, 38, 41, 41, 41, 45, 45, 45, 45, 48, 48, 48, 51,
    51, 51, 55, 55, 55, 55, 58, 58, 58, 61, 61, 61, 64, 64,
];

static NEAREST_WEIGHT_VALUE_TWENTY_FOUR: [u8; 65] = [
    0, 0, 2, 2, 5, 5, 5, 8, 8, 8, 11, 11, 11, 13, 13, 16, 16, 16, 19, 19, 19, 22, 22, 24, 24, 24,
    27, 27, 27, 30, 30, 30, 30, 34, 34, 34, 37, 37, 37, 40, 40, 40, 42, 42, 45, 45, 45, 48, 48, 48,
    51, 51, 53, 53, 53, 56, 56, 56, 59, 59, 59, 62, 62, 64, 64,
];

static NEAREST_WEIGHT_VALUE_THIRTY_TWO: [u8; 65] = [
    0, 0, 2, 2, 4, 4, 6, 6, 8, 8, 10, 10, 12, 12, 14, 14, 16, 16, 18, 18, 20, 20, 22, 22, 24, 24,
    26, 26, 28, 28, 30, 30, 30, 34, 34, 34, 36, 36, 38, 38, 40, 40, 42, 42, 44, 44, 46, 46, 48, 48,
    50, 50, 52, 52, 54, 54, 56, 56, 58, 58, 60, 60, 62, 62, 64,
];

/// Returns, for each weight 0 to 64, the unquantized value of the closest integer at a weight level
/// (2 to 32).
#[inline(always)]
pub fn nearest_weight_values(level: Level) -> &'static [u8]
    requires { count_of level ≤ 32 }
    ensures { result.now ≡ nearest_weight_values_of level }
{
    match level {
        Level::Two => &NEAREST_WEIGHT_VALUE_TWO,
        Level::Three => &NEAREST_WEIGHT_VALUE_THREE,
        Level::Four => &NEAREST_WEIGHT_VALUE_FOUR,
        Level::Five => &NEAREST_WEIGHT_VALUE_FIVE,
        Level::Six => &NEAREST_WEIGHT_VALUE_SIX,
        Level::Eight => &NEAREST_WEIGHT_VALUE_EIGHT,
        Level::Ten => &NEAREST_WEIGHT_VALUE_TEN,
        Level::Twelve => &NEAREST_WEIGHT_VALUE_TWELVE,
        Level::Sixteen => &NEAREST_WEIGHT_VALUE_SIXTEEN,
        Level::Twenty => &NEAREST_WEIGHT_VALUE_TWENTY,
        Level::TwentyFour => &NEAREST_WEIGHT_VALUE_TWENTY_FOUR,
        Level::ThirtyTwo => &NEAREST_WEIGHT_VALUE_THIRTY_TWO,
        _ => unreachable!(),
    }
}
