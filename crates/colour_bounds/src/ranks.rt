// The integers of a colour level in the order of their unquantized values (Khronos Data Format
// Specification, ASTC, "Endpoint Unquantization"). At levels with trits or quints this is not the
// order of the integers themselves.
ghost use Rattle.std.specs.Prelude.{◌≡◌, ℕ, ◌<◌, ◌≤◌};
ghost use Rattle.astc_model.specs.ColourValues.{colour_value};
ghost use Rattle.astc_model.specs.Levels.{count_of};
ghost use Rattle.colour_bounds.specs.Ranks.{digits_of, spread, integer_at, folded, rank_of};

use astc_model::Level;

// The number of values of the digit of an integer: 3 for a trit, 5 for a quint, 1 for none.
#[inline(always)]
fn digits_of(count: u16) -> u16
    ensures exact { result ≡ digits_of count }
    ensures some { 0 < result }
    ensures few { result ≤ 5 }
{
    if count % 3 == 0 {
        3
    } else if count % 5 == 0 {
        5
    } else {
        1
    }
}

// The even integer at a rank of the lower half. With the rank, the digit rises first, then the low
// bits above the lowest.
#[inline(always)]
fn spread(count: u16, digits: u16, rank: u16) -> u16
    requires count { count ≤ 256 }
    requires rank { rank < 256 }
    requires some { 0 < digits }
    requires few { digits ≤ 5 }
    ensures exact { result ≡ spread count digits rank }
{
    rank % digits * (count / digits) + 2 * (rank / digits)
}

// The integer with a rank, by the digits of the level.
#[inline(always)]
fn integer_by_digits(level: Level, rank: u16) -> u8
    requires level { 6 ≤ count_of level }
    requires rank { rank < count_of level }
    ensures exact { result ≡ integer_at (count_of level) rank }
    ensures range { result < count_of level }
{
    let count = level.count();
    let digits = digits_of(count);
    if digits == 1 {
        return rank as u8;
    }
    if rank < count / 2 {
        spread(count, digits, rank) as u8
    } else {
        (spread(count, digits, count - 1 - rank) + 1) as u8
    }
}

/// Returns the integer of a rank: `rank` integers of the level have a smaller value.
#[inline(always)]
pub fn integer_at(level: Level, rank: u16) -> u8
    requires level { 6 ≤ count_of level }
    requires rank { rank < count_of level }
    ensures exact { result ≡ integer_at (count_of level) rank }
    ensures range { result < count_of level }
    ensures inverse { rank_of (count_of level) result ≡ rank }
    ensures rises { (higher : ℕ) → rank < higher → higher < count_of level
        → colour_value level result < colour_value level (integer_at (count_of level) higher) }
{
    integer_by_digits(level, rank)
}

// The rank of an integer among those with the same lowest bit, counted from the outer end of their
// half.
#[inline(always)]
fn folded(count: u16, digits: u16, integer: u16) -> u16
    requires count { count ≤ 256 }
    requires integer { integer < count }
    requires some { 0 < digits }
    requires few { digits ≤ 5 }
    requires low { digits ≤ count }
    ensures exact { result ≡ folded count digits integer }
{
    let low = count / digits;
    integer % low / 2 * digits + integer / low
}

// The rank of an integer, by the digits of the level.
fn rank_by_digits(level: Level, integer: u8) -> u16
    requires level { 6 ≤ count_of level }
    requires range { integer < count_of level }
    ensures exact { result ≡ rank_of (count_of level) integer }
    ensures range { result < count_of level }
{
    let count = level.count();
    let digits = digits_of(count);
    let integer = u16::from(integer);
    if digits == 1 {
        return integer;
    }
    let rank = folded(count, digits, integer);
    if integer % (count / digits) % 2 == 0 {
        rank
    } else {
        count - 1 - rank
    }
}

/// Returns the rank of an integer: the number of integers of the level with a smaller value.
pub fn rank_of(level: Level, integer: u8) -> u16
    requires level { 6 ≤ count_of level }
    requires range { integer < count_of level }
    ensures exact { result ≡ rank_of (count_of level) integer }
    ensures range { result < count_of level }
    ensures inverse { integer_at (count_of level) result ≡ integer }
{
    rank_by_digits(level, integer)
}
