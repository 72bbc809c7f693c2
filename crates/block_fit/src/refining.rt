// Blocks of an estimated kind.
ghost use Rattle.std.specs.Prelude.{◌≡◌, ◌<◌, ◌≤◌, IfSome};
ghost use Rattle.astc_model.specs.Blocks.{Legal};
ghost use Rattle.astc_model.specs.Levels.{count_of};
ghost use Rattle.astc_model.specs.declared.block.Block.TheVariants.{Coded as CodedBlock};

use crate::drawing::error_under;
use crate::estimates::{Estimate, NO_ESTIMATE};
use crate::levels::level_of;
use crate::modes::weight_for;
use crate::tables::Kinds;
use arrayvec::ArrayVec;
use astc_model::{Block, Coded, Level, Mode};
use block_mode::{grid_fault, is_legal, mode_of};
use fit_colours::{Coding, ColourEnds, NO_COLOURS, WantedColours, has_scale, integers_of};
use ideal_weights::{
    BlockLayout, IdealWeights, Lanes, NO_WANTS, Number, Placing, TargetWeights, Texels, Wants,
    WeightGrid, lanes, number, put_sensitivities,
};
use quant_tables::weight_value;

// The integers of points by plane, and the weights that they give the texels, 0 to 64.
#[derive(Clone, Copy)]
struct Weights {
    integers: [[u8; 64]; 2],
    texels: [Lanes; 2],
}

// The weights before the first block.
static NO_WEIGHTS: Weights = Weights {
    integers: [[0; 64]; 2],
    texels: [[0; 160]; 2],
};

// Puts in the integers of points, and the weights that they give the texels.
fn weigh_points<const W: usize, const H: usize>(
    weights: &mut Weights,
    plane: usize,
    grid: &WeightGrid,
    level: Level,
    placing: &mut Placing,
)
    requires level { count_of level ≤ 32 }
    requires plane { plane < 2 }
{
    let width = grid.width();
    for r in 0..grid.height() {
        let first = r.wrapping_mul(width);
        for c in 0..width {
            let point = i32::from(placing.points[c][r]);
            let integer = weight_for(level, point.wrapping_add(8) >> 4);
            weights.integers[plane][first.wrapping_add(c) & 63] = integer;
            placing.points[c][r] = i16::from(weight_value(level, integer)).wrapping_mul(16);
        }
    }
    placing.show::<W, H>(grid);
    let (own, numbers) = (&mut weights.texels[plane], &placing.numbers);
    for p in 0..lanes::<W, H>() {
        own[p] = numbers[p].wrapping_add(128) >> 8;
    }
}

// The integers of the parts of a block, and the colours that they stand for.
#[derive(Clone, Copy)]
struct Colours {
    integers: [[u8; 8]; 4],
    ends: [ColourEnds; 4],
}

/// Memory for the fit of a block of one kind, passed on from kind to kind, so that none of it is
/// made again.
#[derive(Clone, Copy)]
pub struct RefineRoom {
    // The weights of the first round, and of the second.
    before: Weights,
    after: Weights,
    // The weights that the colours of the first round call for.
    wants: Wants,
    want: WantedColours,
    sensitivities: Lanes,
}

fn colour_list(estimate: &Estimate, colours: &[[u8; 8]; 4]) -> ArrayVec<u8, 18> {
    let mut list = ArrayVec::new();
    for part in 0..usize::from(estimate.layout.parts).min(4) {
        for k in 0..integers_of(estimate.cems[part]).min(8) {
            let _full = list.try_push(colours[part][k]);
        }
    }
    list
}

fn weight_list(weights: &[[u8; 64]; 2], mode: &Mode) -> ArrayVec<u8, 64> {
    let points = usize::from(mode.across).wrapping_mul(usize::from(mode.down));
    let mut list = ArrayVec::new();
    for k in 0..points.min(64) {
        let _full = list.try_push(weights[0][k]);
        if mode.planes == 2 {
            let _full = list.try_push(weights[1][k]);
        }
    }
    list
}

fn cems_of(estimate: &Estimate) -> [u8; 4] {
    let mut cems = [0; 4];
    for part in 0..usize::from(estimate.layout.parts).min(4) {
        cems[part] = estimate.cems[part];
    }
    cems
}

/// The integers of a block of an estimated kind, and about its error.
#[derive(Clone, Copy)]
pub struct Fitted {
    estimate: Estimate,
    pub error: u32,
    /// The weight integers by plane.
    weights: [[u8; 64]; 2],
    /// The colour integers by partition.
    colours: [[u8; 8]; 4],
}

/// None of any kind yet, with the greatest error.
pub static NO_FITTED: Fitted = Fitted {
    estimate: NO_ESTIMATE,
    error: u32::MAX,
    weights: [[0; 64]; 2],
    colours: [[0; 8]; 4],
};

impl Fitted {
    /// Turns to a kind, with the greatest error.
    pub fn turn_to(&mut self, estimate: &Estimate) {
        self.estimate = *estimate;
        self.error = u32::MAX;
    }
}

// The way between two colours in the channels of a plane: how much each channel's value counts
// along it, if it starts, and its squared length.
#[derive(Clone, Copy)]
struct ColourWay {
    along: [i32; 4],
    start: i32,
    length: i64,
}

fn way_of(ends: &ColourEnds, layout: BlockLayout, plane: usize, gains: &[Number; 4]) -> ColourWay {
    let mut way = ColourWay {
        along: [0; 4],
        start: 0,
        length: 0,
    };
    for c in 0..4 {
        if layout.plane_of(c) == plane {
            let apart = i32::from(ends.1[c]) - i32::from(ends.0[c]);
            let counted = apart.wrapping_mul(gains[c].0.clamp(0, 15) as i32);
            way.along[c] = counted;
            way.start = way
                .start
                .wrapping_add(counted.wrapping_mul(i32::from(ends.0[c])));
            way.length = way
                .length
                .wrapping_add(i64::from(apart.wrapping_mul(counted)));
        }
    }
    way
}

impl ColourWay {
    // The weight, 0 to 512, of a texel at this distance along the way; a unit is 2^33 over its
    // length.
    #[inline(always)]
    fn weight_at(&self, along: i32, unit: i64) -> i16 {
        let from_start = i64::from(along.wrapping_sub(self.start));
        let place = from_start.max(0).min(self.length).wrapping_mul(unit) >> 24;
        place.clamp(0, 512) as i16
    }
}

// Sets the ideal weights of the texels of a partition, 0 to 512: those closest to the way.
fn want_along<const W: usize, const H: usize>(
    wanted: &mut Lanes,
    way: &ColourWay,
    part: &Lanes,
    texels: &Texels,
) {
    let unit = 0x2_0000_0000i64.checked_div(way.length).unwrap_or(0);
    let [red, green, blue, alpha] = &texels.channels;
    let [by_red, by_green, by_blue, by_alpha] = way.along;
    for p in 0..lanes::<W, H>() {
        let first = by_red
            .wrapping_mul(i32::from(red[p]))
            .wrapping_add(by_green.wrapping_mul(i32::from(green[p])));
        let second = by_blue
            .wrapping_mul(i32::from(blue[p]))
            .wrapping_add(by_alpha.wrapping_mul(i32::from(alpha[p])));
        let own = way.weight_at(first.wrapping_add(second), unit);
        wanted[p] = (wanted[p] & !part[p]) | (own & part[p]);
    }
}

// Sets the weights that these colours call for.
fn put_wants<const W: usize, const H: usize>(
    wants: &mut Wants,
    ends: &[ColourEnds; 4],
    ideal: &IdealWeights,
    texels: &Texels,
) {
    let layout = ideal.layout;
    wants.lengths = [[number(0); 4]; 2];
    for plane in 0..layout.planes().min(2) {
        for part in 0..usize::from(layout.parts).min(4) {
            let way = way_of(&ends[part], layout, plane, &texels.gains);
            wants.lengths[plane][part] = number(way.length);
            want_along::<W, H>(&mut wants.weights[plane], &way, &ideal.masks[part], texels);
        }
    }
}

// The fit of the blocks of a kind.
#[derive(Clone, Copy)]
struct Fit<'a> {
    estimate: &'a Estimate,
    grid: &'a WeightGrid,
    weight_level: Level,
    colour_level: Level,
    texels: &'a Texels,
    ideal: &'a IdealWeights,
    ghost weights: { count_of weight_level ≤ 32 },
    ghost colours: { 6 ≤ count_of colour_level },
}

impl Fit<'_> {
    // Sets the weights to the closest ones to the ideal weights.
    fn put_weights<const W: usize, const H: usize>(
        &self,
        weights: &mut Weights,
        wants: &Wants,
        sensitivities: &mut Lanes,
        placing: &mut Placing,
    ) {
        let (grid, layout) = (self.grid, self.ideal.layout);
        weights.integers = [[0; 64]; 2];
        for plane in 0..layout.planes().min(2) {
            put_sensitivities::<W, H>(sensitivities, self.ideal, &wants.lengths[plane]);
            placing.take::<W, H>(grid, layout.parts, sensitivities, self.texels);
            placing.turn_to::<W, H>(plane, &wants.weights[plane]);
            let targets = TargetWeights::new(&wants.weights[plane], sensitivities);
            placing.place::<W, H>(grid, plane, &targets, 3);
            weigh_points::<W, H>(weights, plane, grid, self.weight_level, placing);
        }
    }

    // The colours for the weights of texels.
    fn colours<const W: usize, const H: usize>(
        &self,
        want: &mut WantedColours,
        weights: &[Lanes; 2],
    ) -> Colours {
        let mut colours = Colours {
            integers: [[0; 8]; 4],
            ends: [([0; 4], [0; 4]); 4],
        };
        let layout = self.ideal.layout;
        for part in 0..usize::from(layout.parts).min(4) {
            let cem = self.estimate.cems[part];
            want.turn_to::<W, H>(self.texels, &self.ideal.masks[part], layout, weights);
            if has_scale(cem) {
                want.find_scale(layout);
            }
            let Coding { integers, ends, .. } = want.coding(cem, self.colour_level);
            colours.integers[part] = integers;
            colours.ends[part] = ends;
        }
        colours
    }

    // Takes weights and colours into the block if their error is less.
    fn take<const W: usize, const H: usize>(
        &self,
        fitted: &mut Fitted,
        weights: &Weights,
        colours: &Colours,
    ) {
        let (ends, own) = (&colours.ends, &weights.texels);
        let error = error_under::<W, H>(self.ideal, ends, self.texels, own, fitted.error);
        if let Some(error) = error {
            fitted.error = error;
            fitted.weights = weights.integers;
            fitted.colours = colours.integers;
        }
    }

    // Fits weights and colours by turns, in two rounds; one that leaves the weights as they are is
    // the last.
    fn fit_by_turns<const W: usize, const H: usize>(
        &self,
        fitted: &mut Fitted,
        room: &mut RefineRoom,
        placing: &mut Placing,
    ) {
        let (ideal, own) = (self.ideal, &mut room.sensitivities);
        self.put_weights::<W, H>(&mut room.before, &ideal.wants, own, placing);
        let colours = self.colours::<W, H>(&mut room.want, &room.before.texels);
        self.take::<W, H>(fitted, &room.before, &colours);
        put_wants::<W, H>(&mut room.wants, &colours.ends, ideal, self.texels);
        let own = &mut room.sensitivities;
        self.put_weights::<W, H>(&mut room.after, &room.wants, own, placing);
        if room.after.integers == room.before.integers {
            return;
        }
        self.take::<W, H>(fitted, &room.after, &colours);
        let colours = self.colours::<W, H>(&mut room.want, &room.after.texels);
        self.take::<W, H>(fitted, &room.after, &colours);
    }
}

// The number of colour integers of the blocks of a kind.
fn count_of_integers(estimate: &Estimate) -> usize {
    let mut count = 0usize;
    for part in 0..usize::from(estimate.layout.parts).min(4) {
        count = count.wrapping_add(integers_of(estimate.cems[part]));
    }
    count
}

// The fit of the blocks of an estimated kind; None if there are none.
fn fit_of<'a, const W: usize, const H: usize>(
    estimate: &'a Estimate,
    grid: &'a WeightGrid,
    ideal: &'a IdealWeights,
    texels: &'a Texels,
) -> Option<Fit<'a>> {
    let mode = mode_of(estimate.mode)?;
    if grid_fault::<W, H>(&mode).is_some() {
        return None;
    }
    let integers = count_of_integers(estimate);
    let parts = usize::from(estimate.layout.parts);
    let colour_level = level_of(&mode, parts, estimate.selector, integers)?;
    Some(Fit {
        estimate,
        grid,
        weight_level: mode.level,
        colour_level,
        texels,
        ideal,
    })
}

/// The memory before the first block.
pub static NO_REFINE_ROOM: RefineRoom = RefineRoom {
    before: NO_WEIGHTS,
    after: NO_WEIGHTS,
    wants: NO_WANTS,
    want: NO_COLOURS,
    sensitivities: [0; 160],
};

impl RefineRoom {
    fn refine_on<const W: usize, const H: usize>(
        &mut self,
        fitted: &mut Fitted,
        grid: &WeightGrid,
        ideal: &IdealWeights,
        texels: &Texels,
        placing: &mut Placing,
    ) {
        let estimate = fitted.estimate;
        if let Some(fit) = fit_of::<W, H>(&estimate, grid, ideal, texels) {
            fit.fit_by_turns::<W, H>(fitted, self, placing);
        }
    }

    // Refines with a grid that is not known.
    #[inline(never)]
    fn refine_on_new<const W: usize, const H: usize>(
        &mut self,
        fitted: &mut Fitted,
        ideal: &IdealWeights,
        texels: &Texels,
        placing: &mut Placing,
    ) {
        if let Some(mode) = mode_of(fitted.estimate.mode) {
            let grid = WeightGrid::of::<W, H>(mode.across, mode.down);
            self.refine_on::<W, H>(fitted, &grid, ideal, texels, placing);
        }
    }

    /// Fits the integers of a block of an estimated kind, in two rounds from the ideal weights of
    /// its layout. The blocks keep the greatest error if the kind has none.
    #[inline(never)]
    pub fn refine<const W: usize, const H: usize>(
        &mut self,
        fitted: &mut Fitted,
        kinds: &Kinds,
        ideal: &IdealWeights,
        texels: &Texels,
        placing: &mut Placing,
    ) {
        match kinds.grid(fitted.estimate.grid) {
            Some(grid) => self.refine_on::<W, H>(fitted, grid, ideal, texels, placing),
            None => self.refine_on_new::<W, H>(fitted, ideal, texels, placing),
        }
    }
}

// The block with these integers, if its kind has blocks.
fn coded_of(fitted: &Fitted) -> Option<Coded> {
    if fitted.error == u32::MAX {
        return None;
    }
    let estimate = &fitted.estimate;
    let mode = mode_of(estimate.mode)?;
    Some(Coded {
        mode: estimate.mode,
        parts: estimate.layout.parts,
        seed: estimate.layout.seed,
        selector: estimate.selector,
        cems: cems_of(estimate),
        colours: colour_list(estimate, &fitted.colours),
        weights: weight_list(&fitted.weights, &mode),
        plane: estimate.layout.plane,
    })
}

/// The block with these integers, if it is legal.
pub fn block_of<const W: usize, const H: usize>(fitted: &Fitted) -> Option<Coded>
    ensures { IfSome result (λ coded. Legal W H (CodedBlock coded)) }
{
    let block = Block::Coded(coded_of(fitted)?);
    if !is_legal::<W, H>(&block) {
        return None;
    }
    match block {
        Block::Coded(coded) => Some(coded),
        Block::Constant(_) => None,
    }
}
