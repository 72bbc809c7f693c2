// The data that the candidates of a shape with one level of colour integers share.
ghost use Rattle.std.specs.Prelude.{◌≡◌, ℕ, ◌<◌, ◌≤◌, ◌*◌, length, slice_index};
ghost use Rattle.astc_model.specs.Levels.{count_of};
ghost use Rattle.candidates.specs.Pieces.{AreTargets};
ghost use Rattle.astc_model.specs.Bounds.{part_map};
ghost use Rattle.texel_error.specs.Orders.{AreSourceLanes};
ghost use Rattle.listed_walk.specs.Shared.{AreDrawnLanes, AreLines, IsSourceShape, planes_of};

use crate::targets::put_targets;
use arrayvec::ArrayVec;
use astc_model::{Box8, Level, Recipe};
use candidates::{Targets, ends_at_level, targets_of};
use line_floors::{BlockSums, distances};
use texel_error::{EndTables, Goal, PartitionLanes, PlaceColours, SourceLanes};

/// A shape of blocks on a source.
#[derive(Clone, Copy)]
pub struct SourceShape<'a> {
    pub shape: &'a Recipe,
    /// The part of each place.
    pub parts: &'a [u8],
    /// The same on lanes.
    pub partitions: &'a PartitionLanes,
    /// The bounds of each part.
    pub bounds: &'a [Box8],
    /// The values that the colour integers of each part would best have.
    pub ideals: &'a [ArrayVec<u8, 8>],
    /// The sums over the texels of each part.
    pub sums: &'a BlockSums,
}

/// The two colours of each partition at a level, and the distances of the texels from the lines
/// between these, in squares of 1/8.
#[derive(Drop)]
pub struct Lines {
    pub ends: ArrayVec<([u8; 4], [u8; 4]), 4>,
    pub distances: u64,
}

/// The data from which the candidates between some colours are drawn, by place: memory that a walk
/// owns, lends and writes again for other colours.
#[derive(Drop)]
pub struct DrawnLanes {
    /// The two colours of each place.
    pub colours: PlaceColours,
    /// The targets of the weights of the first plane, and sixteen bytes more.
    pub first: [u8; 160],
    /// The targets of the second plane; any for blocks with one plane.
    pub second: [u8; 160],
}

/// The data to draw the candidates between some colours.
#[derive(Drop)]
pub struct Drawing<'a> {
    /// The colours by place, and the targets of their weights.
    pub lanes: &'a DrawnLanes,
    /// The two colours of each part.
    pub ends: &'a [([u8; 4], [u8; 4])],
}

/// The lines of a shape at a level. Distances that are `enough` need not be whole.
pub fn lines_at<const W: usize, const H: usize>(
    layout: &SourceShape,
    level: Level,
    enough: u64,
    goal: &Goal<W, H>,
) -> Lines
    requires layout { IsSourceShape W H goal.now layout.now }
    requires six { 6 ≤ count_of level }
    ensures { AreLines W H goal.now layout.now level result }
{
    let shape = layout.shape;
    let ends = ends_at_level(shape, level, layout.ideals);
    let distances = distances(goal, shape.plane, layout.sums, ends.as_slice(), enough);
    Lines { ends, distances }
}

// The planes of the blocks of a shape.
fn planes_of(shape: &Recipe) -> u8
    ensures { result ≡ planes_of shape.now }
{
    if shape.plane == 0 { 1 } else { 2 }
}

impl DrawnLanes {
    /// No data yet.
    pub fn new() -> DrawnLanes {
        DrawnLanes {
            colours: PlaceColours::new(),
            first: [0; 160],
            second: [0; 160],
        }
    }

    /// Puts those of the candidates of a shape between these colours.
    #[inline(never)]
    pub fn put<const W: usize, const H: usize>(
        &mut self,
        layout: &SourceShape,
        ends: &[([u8; 4], [u8; 4])],
        source: &SourceLanes,
        goal: &Goal<W, H>,
    )
        requires layout { IsSourceShape W H goal.now layout.now }
        requires few { length ends.now ≤ 4 }
        requires parts { (p : ℕ) → p < W * H
            → slice_index layout.now.parts.now p < length ends.now }
        requires source { AreSourceLanes goal.now.places goal.now.weights (W * H) source.now }
        ensures { AreDrawnLanes W H goal.now layout.now.shape.now ends.now self.new }
    {
        self.colours
            .put::<W, H>(layout.partitions, &EndTables::of(ends));
        put_targets(&mut self.first, 0, layout, ends, source, goal);
        if layout.shape.plane > 0 {
            put_targets(&mut self.second, 1, layout, ends, source, goal);
        }
    }
}

/// The targets of the weights of the candidates of a shape between these colours.
pub fn targets_between<const W: usize, const H: usize>(
    layout: &SourceShape,
    ends: &[([u8; 4], [u8; 4])],
    goal: &Goal<W, H>,
) -> Targets
    requires layout { IsSourceShape W H goal.now layout.now }
    requires few { length ends.now ≤ 4 }
    requires parts { (p : ℕ) → p < W * H → slice_index layout.now.parts.now p < length ends.now }
    ensures { AreTargets layout.now.shape.now.plane (planes_of layout.now.shape.now)
        (part_map W H layout.now.shape.now.parts layout.now.shape.now.seed) ends.now
        goal.now.places (W * H) result }
{
    let shape = layout.shape;
    let places = goal.source().places();
    targets_of(shape.plane, planes_of(shape), layout.parts, ends, places)
}
