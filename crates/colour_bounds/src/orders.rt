// The order in which a walk takes the integers of a level. The rank of an integer is its index in
// the order of the unquantized values.
ghost use Rattle.std.specs.Prelude.{◌≡◌, ◌≢◌, ℕ, ◌+◌, ◌<◌, ◌≤◌};
ghost use Rattle.astc_model.specs.Levels.{count_of};
ghost use Rattle.colour_bounds.specs.Orders.{IsOrder, rank_on, position_of, whole_order, half_order};
ghost use Rattle.colour_bounds.specs.Ranks.{rank_of};

use astc_model::Level;

/// An order of ranks: the `count` ranks from `from` on, rotated so that the order begins at rank
/// `from + turn` and ends just before it.
#[derive(Clone, Copy)]
pub struct WalkOrder {
    pub from: u16,
    pub turn: u16,
    pub count: u16,
}

/// Returns the rank at position `at` of an order.
#[inline(always)]
pub fn rank_on(order: WalkOrder, at: u16) -> u16
    requires few { order.from + order.count ≤ 256 }
    requires turn { order.turn < order.count }
    requires at { at < order.count }
    ensures exact { result ≡ rank_on order at }
    ensures range { result < order.from + order.count }
{
    let ahead = order.turn + at;
    if ahead < order.count {
        order.from + ahead
    } else {
        order.from + (ahead - order.count)
    }
}

/// Returns the position of a rank in an order.
pub fn position_of(order: WalkOrder, rank: u16) -> u16
    requires few { order.from + order.count ≤ 256 }
    requires turn { order.turn < order.count }
    requires from { order.from ≤ rank }
    requires range { rank < order.from + order.count }
    ensures exact { result ≡ position_of order rank }
    ensures range { result < order.count }
    ensures inverse { rank_on order result ≡ rank }
{
    let ahead = rank - order.from;
    if ahead < order.turn {
        ahead + order.count - order.turn
    } else {
        ahead - order.turn
    }
}

/// Returns the order of all integers of a level by value.
pub fn whole_order(level: Level) -> WalkOrder
    requires level { 6 ≤ count_of level }
    ensures exact { result ≡ whole_order (count_of level) }
{
    WalkOrder {
        from: 0,
        turn: 0,
        count: level.count(),
    }
}

/// Returns the order of the integers whose values have the same top bit as the value of `rank`, by
/// the offset that they encode in modes 9 and 13: offsets of -32 to -1 come first.
pub fn half_order(level: Level, rank: u16) -> WalkOrder
    requires level { 6 ≤ count_of level }
    requires rank { rank < count_of level }
    ensures exact { result ≡ half_order (count_of level) rank }
{
    let half = level.count() / 2;
    let quarter = (level.count() + 3) / 4;
    if rank < half {
        WalkOrder {
            from: 0,
            turn: quarter,
            count: half,
        }
    } else {
        WalkOrder {
            from: half,
            turn: half - quarter,
            count: half,
        }
    }
}
