// The data that the shapes with one partitioning of a source share.
ghost use Rattle.std.specs.Prelude.{◌≡◌, ◌*◌, IsTrue, IfSome, None};
ghost use Rattle.recipes.specs.Shapes.{IsShape};
ghost use Rattle.listed_walk.specs.Partitionings.{IsPartitioned, IsOfShape};

use crate::levels::DrawnLanes;
use arrayvec::ArrayVec;
use astc_model::{Box8, Recipe};
use candidates::{bounds_by_part, part_map};
use line_floors::{BlockSums, sums_of};
use texel_error::{Goal, PartitionLanes};

/// The data that the shapes with one number of partitions and one seed share for a source.
#[derive(Drop)]
pub struct SourcePartitioning {
    /// The number of parts.
    pub count: u8,
    pub seed: u16,
    /// The partition of each place; the entries past the places are free.
    pub map: [u8; 144],
    /// The partition of each place on lanes.
    pub lanes: PartitionLanes,
    /// The bounds of each part.
    pub bounds: ArrayVec<Box8, 4>,
    /// The sums over the texels of each part.
    pub sums: BlockSums,
}

/// Memory of a walk that shapes use in turn.
#[derive(Drop)]
pub struct WalkScratch {
    /// The partitioning of the shape before.
    pub kept: Option<SourcePartitioning>,
    /// The data from which the candidates are drawn.
    pub lanes: DrawnLanes,
}

impl WalkScratch {
    /// Memory that no shape has used yet.
    pub fn new() -> WalkScratch
        ensures { result.kept ≡ None }
    {
        WalkScratch {
            kept: None,
            lanes: DrawnLanes::new(),
        }
    }
}

// The partitioning of a shape.
fn partitioning_of<const W: usize, const H: usize>(
    shape: &Recipe,
    goal: &Goal<W, H>,
) -> SourcePartitioning
    requires { IsShape shape.now }
    ensures is { IsPartitioned W H goal.now result }
    ensures count { result.count ≡ shape.now.parts }
    ensures seed { result.seed ≡ shape.now.seed }
{
    let places = goal.source().places();
    let map = part_map::<W, H>(shape.parts, shape.seed);
    let parts = &map[..W * H];
    let lanes = PartitionLanes::of::<W, H>(parts);
    let bounds = bounds_by_part(parts, shape.parts, places);
    let sums = sums_of(goal, parts);
    SourcePartitioning {
        count: shape.parts,
        seed: shape.seed,
        map,
        lanes,
        bounds,
        sums,
    }
}

// Whether this is that of a shape.
fn is_of_shape(kept: &Option<SourcePartitioning>, shape: &Recipe) -> bool
    ensures { IsTrue result → IsOfShape shape.now kept.now }
{
    match kept {
        None => false,
        Some(own) => own.count == shape.parts && own.seed == shape.seed,
    }
}

/// Makes the partitioning of a shape, if it is missing.
pub fn keep_partitioning<const W: usize, const H: usize>(
    kept: &mut Option<SourcePartitioning>,
    shape: &Recipe,
    goal: &Goal<W, H>,
)
    requires shape { IsShape shape.now }
    requires kept { IfSome kept.old (IsPartitioned W H goal.now) }
    ensures kept { IfSome kept.new (IsPartitioned W H goal.now) }
    ensures own { IsOfShape shape.now kept.new }
{
    if !is_of_shape(kept, shape) {
        *kept = Some(partitioning_of(shape, goal));
    }
}
