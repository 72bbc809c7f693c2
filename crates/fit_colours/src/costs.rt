// Estimates of the error of a layout's colours, called costs.
ghost use Rattle.std.specs.Prelude.{◌≤◌};
ghost use Rattle.astc_model.specs.Levels.{count_of};

use crate::coding::{NO_COLOURS, NO_VALUES, WantedColours, WantedValues, has_scale};
use crate::mixed::{Choice, Cost, cems_of, costs_by_count};
use astc_model::Level;
use ideal_weights::{IdealWeights, Lanes, MOST, Number, Texels, lanes, number};
use std::num::Wrapping;
use std::ops::Range;

/// The endpoint modes that a fit tries: without alpha a grey, a scale, a direct one and one with
/// offsets; then with alpha the same four in this order, and grey with offsets.
pub static ENDPOINT_MODES: [u8; 9] = [0, 6, 8, 9, 4, 10, 12, 13, 5];

// The index that stands for no endpoint mode.
static NOWHERE: usize = 9;

// A cost above all others.
static FAR: Number = Wrapping(i64::MAX / 8);

// The cost of a partition without an endpoint mode.
static NO_COST: Cost = Cost { error: FAR, cem: 0 };

// A cost for each level; each is computed at most once.
#[derive(Clone, Copy)]
struct ByLevel {
    // Bit k is set if the cost at level k is known.
    known: u32,
    costs: [Number; 21],
}

static NO_LEVEL: ByLevel = ByLevel {
    known: 0,
    costs: [Wrapping(0); 21],
};

impl ByLevel {
    // The cost at a level, if it is known.
    #[inline(always)]
    fn get(&self, level: Level) -> Option<Number> {
        if self.known.wrapping_shr(level as u32) & 1 == 1 {
            self.costs.get(level as usize).copied()
        } else {
            None
        }
    }

    #[inline(always)]
    fn put(&mut self, level: Level, cost: Number) {
        if let Some(own) = self.costs.get_mut(level as usize) {
            *own = cost;
            self.known |= 1u32.wrapping_shl(level as u32);
        }
    }
}

// For each level, the costs of endpoint modes from two neighbouring classes, by the number of
// partitions with the higher class.
#[derive(Clone, Copy)]
struct ByCount {
    costs: [[Number; 5]; 21],
}

static NO_COUNT: ByCount = ByCount {
    costs: [[Wrapping(0); 5]; 21],
};

impl ByCount {
    fn put(&mut self, level: Level, costs: &[Number; 5]) {
        if let Some(own) = self.costs.get_mut(level as usize) {
            *own = *costs;
        }
    }
}

// The costs of the colours of a partition.
#[derive(Clone, Copy)]
struct PartCosts {
    want: WantedColours,
    opaque: bool,
    // By the index of the endpoint mode in `ENDPOINT_MODES`.
    modes: [ByLevel; 9],
    values: [WantedValues; 9],
    has_values: [bool; 9],
}

static NO_PART: PartCosts = PartCosts {
    want: NO_COLOURS,
    opaque: true,
    modes: [NO_LEVEL; 9],
    values: [NO_VALUES; 9],
    has_values: [false; 9],
};

// The indices of the endpoint modes of a class (a quarter of the mode's number), those with or
// those without alpha.
fn places_of_class(class: usize, opaque: bool) -> [usize; 2] {
    match (class, opaque) {
        (0, true) => [0, NOWHERE],
        (1, true) => [1, NOWHERE],
        (2, true) => [2, 3],
        (1, false) => [4, 8],
        (2, false) => [5, NOWHERE],
        (3, false) => [6, 7],
        _ => [NOWHERE; 2],
    }
}

impl PartCosts {
    // Forgets the costs of the last partition.
    fn forget(&mut self) {
        self.has_values = [false; 9];
        for own in self.modes.iter_mut() {
            own.known = 0;
        }
    }

    // Computes the cost with the endpoint mode at index `place` of `ENDPOINT_MODES`. The values of
    // modes with a scale depend on the level.
    #[inline(never)]
    fn find(&mut self, place: usize, level: Level) -> Number
        requires { 6 ≤ count_of level }
    {
        let k = place.min(8);
        let cem = ENDPOINT_MODES[k];
        if has_scale(cem) || !self.has_values[k] {
            self.values[k] = self.want.values(cem, level);
            self.has_values[k] = true;
        }
        let cost = self.want.error(cem, level, &self.values[k]);
        self.modes[k].put(level, cost);
        cost
    }

    // The cost with the endpoint mode at index `place` of `ENDPOINT_MODES`.
    #[inline(always)]
    fn at(&mut self, place: usize, level: Level) -> Number
        requires { 6 ≤ count_of level }
    {
        match self.modes[place.min(8)].get(level) {
            Some(known) => known,
            None => self.find(place, level),
        }
    }

    // The cost with the endpoint mode at index `place` of `ENDPOINT_MODES`, or `NO_COST` if the
    // index stands for no mode.
    #[inline(always)]
    fn cost_at(&mut self, place: usize, level: Level) -> Cost
        requires { 6 ≤ count_of level }
    {
        if place < NOWHERE {
            Cost {
                error: self.at(place, level),
                cem: ENDPOINT_MODES[place],
            }
        } else {
            NO_COST
        }
    }

    // The least cost over the modes of a class.
    #[inline(always)]
    fn of_class(&mut self, class: usize, level: Level) -> Cost
        requires { 6 ≤ count_of level }
    {
        let [first, second] = places_of_class(class, self.opaque);
        let own = self.cost_at(first, level);
        let other = self.cost_at(second, level);
        if other.error < own.error { other } else { own }
    }

    // The least cost over the modes of a class, and over those of the class above it.
    fn choice(&mut self, low: usize, level: Level) -> Choice
        requires { 6 ≤ count_of level }
    {
        Choice {
            low: self.of_class(low, level),
            high: self.of_class(low.wrapping_add(1), level),
        }
    }

    // The least cost over the modes of these indices, and of all classes if `by_class`, at level
    // 256.
    fn least(&mut self, places: Range<usize>, by_class: bool) -> Number {
        let mut least = FAR;
        for place in places {
            least = self.at(place, Level::TwoFiftySix).min(least);
        }
        if by_class {
            for class in 0..4 {
                least = self.of_class(class, Level::TwoFiftySix).error.min(least);
            }
        }
        least
    }
}

/// The costs of the colours of a layout; each is computed at most once.
#[derive(Clone, Copy)]
pub struct Costs {
    /// The number of partitions.
    pub parts: usize,
    opaque: bool,
    by_part: [PartCosts; 4],
    // By index and level, the sum over the partitions if all have the same endpoint mode.
    sames: [ByLevel; 9],
    // By the lower of two classes and by level, the least sum if each partition has a mode of this
    // class or of the one above it; and the least sums by the number of partitions with the higher
    // class.
    mixes: [ByLevel; 4],
    counts: [ByCount; 4],
    // For each plane the ideal weights, 0 to 64.
    weights: [Lanes; 2],
}

/// The initial value, before the first layout.
pub static NO_COSTS: Costs = Costs {
    parts: 0,
    opaque: true,
    by_part: [NO_PART; 4],
    sames: [NO_LEVEL; 9],
    mixes: [NO_LEVEL; 4],
    counts: [NO_COUNT; 4],
    weights: [[0; 160]; 2],
};

// Whether alpha is 255 at each texel or has the weight 0.
fn needs_no_alpha(texels: &Texels) -> bool {
    texels.opaque || texels.gains[3].0 == 0
}

// Whether alpha is 255 at each texel of a partition or has the weight 0.
fn is_opaque<const W: usize, const H: usize>(texels: &Texels, part: &Lanes) -> bool {
    let mut apart = 0;
    for (alpha, inside) in texels.channels[3].iter().zip(part).take(lanes::<W, H>()) {
        apart |= (*alpha ^ 255) & *inside;
    }
    needs_no_alpha(texels) || apart == 0
}

// Sets weights of 0 to 64 from ideal weights of 0 to 512.
fn put_rounded<const W: usize, const H: usize>(weights: &mut Lanes, wanted: &Lanes) {
    for p in 0..lanes::<W, H>() {
        weights[p] = wanted[p].wrapping_add(4) >> 3;
    }
}

impl Costs {
    fn forget(&mut self) {
        for own in self.sames.iter_mut() {
            own.known = 0;
        }
        for own in self.mixes.iter_mut() {
            own.known = 0;
        }
    }

    /// Begins a layout with these ideal weights.
    pub fn turn_to<const W: usize, const H: usize>(
        &mut self,
        ideal: &IdealWeights,
        texels: &Texels,
    ) {
        let layout = ideal.layout;
        self.parts = usize::from(layout.parts).min(4);
        self.opaque = needs_no_alpha(texels);
        self.forget();
        for plane in 0..layout.planes().min(2) {
            put_rounded::<W, H>(&mut self.weights[plane], &ideal.wants.weights[plane]);
        }
        for k in 0..self.parts.min(4) {
            let (part, own) = (&ideal.masks[k], &mut self.by_part[k]);
            own.want
                .turn_to::<W, H>(texels, part, layout, &self.weights);
            own.want.find_scale(layout);
            own.opaque = is_opaque::<W, H>(texels, part);
            own.forget();
        }
    }

    /// Returns the indices in `ENDPOINT_MODES` of the modes that all partitions can have.
    pub fn places(&self) -> Range<usize> {
        if self.opaque { 0..4 } else { 4..9 }
    }

    /// Returns whether no partition needs alpha.
    pub fn is_opaque(&self) -> bool {
        self.opaque
    }

    /// Returns the least cost if each partition has a mode of class `low` or of the class above it.
    /// If the cost is not under the limit, the result may be only a part of it. The cost at level
    /// 256 is used as a lower bound for all levels.
    pub fn least_mixed(&mut self, low: usize, level: Level, limit: Number) -> Number
        requires { 6 ≤ count_of level }
    {
        if let Some(known) = self.mixes[low & 3].get(level) {
            return known;
        }
        let floor = match self.mixes[low & 3].get(Level::TwoFiftySix) {
            Some(known) => known,
            None => self.find_mixed(low, Level::TwoFiftySix, MOST),
        };
        if floor >= limit {
            return floor;
        }
        self.find_mixed(low, level, limit)
    }

    #[inline(never)]
    fn find_mixed(&mut self, low: usize, level: Level, limit: Number) -> Number
        requires { 6 ≤ count_of level }
    {
        let mut choices = [Choice::none(); 4];
        let mut least = number(0);
        for k in 0..self.parts.min(4) {
            choices[k] = self.by_part[k].choice(low, level);
            least += choices[k].least();
            if least >= limit {
                return least;
            }
        }
        let costs = costs_by_count(&choices, self.parts);
        self.counts[low & 3].put(level, &costs);
        self.mixes[low & 3].put(level, least);
        least
    }

    /// Returns the cost if `high` partitions have the higher class. [`Costs::least_mixed`] must
    /// have returned a cost under its limit before.
    pub fn of_mixed(&self, low: usize, level: Level, high: usize) -> Number {
        match self.counts[low & 3].costs.get(level as usize) {
            Some(own) => own[high.min(4)],
            None => FAR,
        }
    }

    /// Returns the endpoint modes that have the cost of [`Costs::of_mixed`].
    #[inline(never)]
    pub fn mixed_cems(&mut self, low: usize, level: Level, high: usize) -> [u8; 4]
        requires { 6 ≤ count_of level }
    {
        let mut choices = [Choice::none(); 4];
        for k in 0..self.parts.min(4) {
            choices[k] = self.by_part[k].choice(low, level);
        }
        cems_of(&choices, self.parts, high)
    }

    // The cost if all partitions have the endpoint mode at index `place` of `ENDPOINT_MODES`. If it
    // is not under the limit, the result may be only a part of it.
    #[inline(never)]
    fn find_same(&mut self, place: usize, level: Level, limit: Number) -> Number
        requires { 6 ≤ count_of level }
    {
        let mut total = number(0);
        for k in 0..self.parts.min(4) {
            total += self.by_part[k].at(place, level);
            if total >= limit {
                return total;
            }
        }
        self.sames[place.min(8)].put(level, total);
        total
    }

    /// Returns the cost if all partitions have the endpoint mode at index `place` of
    /// `ENDPOINT_MODES`. If the cost is not under the limit, the result may be only a part of it.
    /// The cost at level 256 is used as a lower bound for all levels.
    pub fn of_same(&mut self, place: usize, level: Level, limit: Number) -> Number
        requires { 6 ≤ count_of level }
    {
        if let Some(known) = self.sames[place.min(8)].get(level) {
            return known;
        }
        let floor = match self.sames[place.min(8)].get(Level::TwoFiftySix) {
            Some(known) => known,
            None => self.find_same(place, Level::TwoFiftySix, MOST),
        };
        if floor >= limit {
            return floor;
        }
        self.find_same(place, level, limit)
    }

    /// Returns the least cost: with the best endpoint mode of each partition at level 256.
    pub fn least(&mut self) -> Number {
        let mut total = number(0);
        for k in 0..self.parts.min(4) {
            let places = self.places();
            total += self.by_part[k].least(places, self.parts > 1);
        }
        total
    }
}
