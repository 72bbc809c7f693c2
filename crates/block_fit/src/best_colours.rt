// The colours with the least cost that fit beside weights of a number of bits.
ghost use Rattle.std.specs.Prelude.{◌≤◌, IfSome};
ghost use Rattle.astc_model.specs.Levels.{count_of};

use crate::levels::ColourLevels;
use astc_model::Level;
use block_mode::{colour_start, high_mode_bits};
use fit_colours::{Costs, ENDPOINT_MODES, integers_of};
use ideal_weights::{BlockLayout, Number};
use std::num::Wrapping;

/// More than any colours cost.
pub static NONE: Number = Wrapping(i64::MAX / 4);

// Less than any colours cost.
static LEAST: Number = Wrapping(-i64::MAX);

/// The cost of the colours of a layout's partitions, in 1/256, and their endpoint modes.
#[derive(Clone, Copy)]
pub struct ColourKind {
    pub cost: Number,
    pub cems: [u8; 4],
    /// The selector of the classes of the endpoint modes, 0 if all partitions have one mode.
    pub selector: u8,
}

static NO_COLOUR_KIND: ColourKind = ColourKind {
    cost: NONE,
    cems: [0; 4],
    selector: 0,
};

/// The bits beside weights that colours have in blocks of a layout.
#[derive(Clone, Copy)]
pub struct ColourRoom<'a> {
    pub layout: BlockLayout,
    pub levels: &'a ColourLevels,
    /// How many bits the weights and the channel of a second plane take.
    pub taken: u8,
}

impl ColourRoom<'_> {
    // The level of this number of pairs of colour integers.
    fn level(&self, selector: u8, pairs: usize) -> Option<Level>
        ensures { IfSome result (λ level. 6 ≤ count_of level) }
    {
        let parts = self.layout.parts.min(4);
        let taken = u32::from(self.taken);
        let beside = colour_start(parts) + high_mode_bits(parts, selector) + taken;
        self.levels.of(128u32.wrapping_sub(beside) as usize, pairs)
    }
}

/// The colours that cost least, one or two of them: beside all weights of as many bits they cost
/// as much.
#[derive(Clone, Copy)]
pub struct BestColours {
    // None that costs less than this is missing.
    limit: Number,
    keep: usize,
    // The least first.
    list: [ColourKind; 2],
}

/// None is known.
pub static NO_BEST_COLOURS: BestColours = BestColours {
    limit: LEAST,
    keep: 1,
    list: [NO_COLOUR_KIND; 2],
};

impl BestColours {
    /// Forgets all.
    pub fn forget(&mut self) {
        self.limit = LEAST;
        self.list[0].cost = NONE;
    }

    /// The least cost, if it is known.
    #[inline(always)]
    pub fn least(&self) -> Option<Number> {
        if self.list[0].cost < NONE {
            Some(self.list[0].cost)
        } else {
            None
        }
    }

    /// The kinds that are kept.
    #[inline(always)]
    pub fn as_slice(&self) -> &[ColourKind] {
        &self.list[..self.keep.min(2)]
    }

    // The cost that further kinds have to be below.
    fn bar(&self) -> Number {
        self.list[self.keep.wrapping_sub(1) & 1]
            .cost
            .min(self.limit)
    }

    fn put(&mut self, colours: ColourKind) {
        let mut carried = colours;
        for place in self.list.iter_mut() {
            if carried.cost < place.cost {
                std::mem::swap(place, &mut carried);
            }
        }
    }

    /// Finds them up to a limit, which is at most `NONE`, if they are not known so far.
    #[inline(always)]
    pub fn find(&mut self, limit: Number, room: &ColourRoom, costs: &mut Costs) {
        let is_known = self.limit >= limit || self.list[0].cost < limit;
        if !is_known {
            self.find_anew(limit, room, costs);
        }
    }

    // If alpha counts, weights and colours win much by turns, so that a second one is kept.
    #[inline(never)]
    fn find_anew(&mut self, limit: Number, room: &ColourRoom, costs: &mut Costs) {
        self.limit = limit;
        self.keep = if costs.is_opaque() { 1 } else { 2 };
        self.list = [NO_COLOUR_KIND; 2];
        self.try_same(room, costs);
        if costs.parts < 2 {
            return;
        }
        for low in 0..3 {
            for high in 0..costs.parts.wrapping_add(1) {
                if high < costs.parts || low == 2 {
                    self.try_mixed(room, costs, low, high);
                }
            }
        }
    }

    // Tries parts of one endpoint mode each.
    fn try_same(&mut self, room: &ColourRoom, costs: &mut Costs) {
        for place in costs.places() {
            let cem = ENDPOINT_MODES[place.min(8)];
            let pairs = (integers_of(cem) / 2).wrapping_mul(costs.parts);
            if let Some(level) = room.level(0, pairs) {
                let bar = self.bar();
                let cost = costs.of_same(place, level, bar);
                if cost < bar {
                    self.put(ColourKind {
                        cost,
                        cems: [cem; 4],
                        selector: 0,
                    });
                }
            }
        }
    }

    // Tries partitions, `high` of which have endpoint modes of the class above the lower one.
    fn try_mixed(&mut self, room: &ColourRoom, costs: &mut Costs, low: u8, high: usize) {
        let (own, selector) = (usize::from(low), low.wrapping_add(1));
        let pairs = usize::from(selector)
            .wrapping_mul(costs.parts)
            .wrapping_add(high);
        let Some(level) = room.level(selector, pairs) else {
            return;
        };
        let bar = self.bar();
        if costs.least_mixed(own, level, bar) >= bar {
            return;
        }
        let cost = costs.of_mixed(own, level, high);
        if cost >= bar {
            return;
        }
        let cems = costs.mixed_cems(own, level, high);
        let mut parts = cems.iter().take(costs.parts);
        if !parts.all(|cem| *cem == cems[0]) {
            self.put(ColourKind {
                cost,
                cems,
                selector,
            });
        }
    }
}
