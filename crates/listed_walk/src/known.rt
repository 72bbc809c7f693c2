// The data that the walks over the listed blocks of a picture share, with any owner.
ghost use Rattle.std.specs.Prelude.{◌≡◌, ◌*◌, ◌<◌, IfSome, IsTrue, length};
ghost use Rattle.std.specs.List.{All};
ghost use Rattle.astc_model.specs.Footprints.{is_footprint};
ghost use Rattle.listed_walk.specs.Known.{AreKnown, AreOriginsAt, ArePatternGrids};

use crate::grids::{GridTable, Grids, grids_by_sides, origins_in};
use crate::kinds::KindModes;
use crate::origins::GridOrigins;
use crate::patterns::InsidePattern;
use arrayvec::ArrayVec;
use astc_model::Source;

/// The places of the points of the grids of blocks that are inside in a pattern.
#[derive(Drop)]
pub struct PatternGrids {
    pub pattern: InsidePattern,
    pub by_sides: GridTable,
}

impl Default for PatternGrids {
    fn default() -> Self {
        PatternGrids {
            pattern: InsidePattern {
                columns: 0,
                rows: 0,
            },
            by_sides: ArrayVec::new(),
        }
    }
}

impl PatternGrids {
    /// The grids of blocks whose inside places have this pattern.
    pub fn of<const W: usize, const H: usize>(pattern: InsidePattern) -> PatternGrids
        requires { IsTrue (is_footprint W H) }
        ensures { ArePatternGrids W H result }
    {
        let inside = pattern.places::<W, H>();
        PatternGrids {
            pattern,
            by_sides: grids_by_sides::<W, H>(&inside[..W * H]),
        }
    }
}

/// The data that the walks over the listed blocks of a picture share, with any owner: the block
/// modes by the kinds of blocks, and the grids by the patterns of the inside places. A walk
/// computes missing data when it needs them.
#[derive(Clone, Copy)]
pub struct WalkView<'a, const W: usize, const H: usize> {
    pub kinds: &'a [Option<KindModes<W, H>>],
    pub patterns: &'a [PatternGrids],
    /// The origins of weights, 121 per pattern, up to the end of the list.
    pub origins: &'a [GridOrigins],
    ghost known: { AreKnown W H patterns.now origins.now },
}

impl<'a, const W: usize, const H: usize> WalkView<'a, W, H> {
    ghost use Rattle.listed_walk.specs.Grids.{AreGrids, AreGridsWithin};
    ghost use Rattle.listed_walk.specs.Known.{pattern_at};

    /// Nothing.
    pub fn none() -> Self {
        WalkView {
            kinds: &[],
            patterns: &[],
            origins: &[],
        }
    }

    // The grids of blocks that are inside in the pattern at this place.
    fn grids_at(&self, i: usize) -> Grids<'a>
        requires { i < length self.now.patterns.now }
        ensures { AreGridsWithin W H (pattern_at self.now.patterns.now i) result.by_sides.now
            result.origins.now }
    {
        let first = i.saturating_mul(121).min(self.origins.len());
        Grids {
            by_sides: self.patterns[i].by_sides.as_slice(),
            origins: &self.origins[first..],
        }
    }

    /// The grids of a source, if they are kept.
    pub fn grids_for(&self, source: &Source<W, H>) -> Option<Grids<'a>>
        ensures { IfSome result
            (λ grids. AreGrids W H source.now grids.by_sides.now grids.origins.now) }
    {
        let places = source.places();
        for i in 0..self.patterns.len() {
            if self.patterns[i].pattern.is_of::<W, H>(places) {
                return Some(self.grids_at(i));
            }
        }
        None
    }
}

/// The grids of one source whose pattern is not kept, without the origins of weights.
#[derive(Drop)]
pub struct OwnGrids {
    by_sides: GridTable,
}

impl OwnGrids {
    ghost use Rattle.std.specs.Prelude.{[]};
    ghost use Rattle.listed_walk.specs.GridTables.{AreGridsTo};

    /// The grids of a source.
    pub fn of<const W: usize, const H: usize>(source: &Source<W, H>) -> OwnGrids
        ensures { AreGridsTo W H source.now 121 result.by_sides.items }
    {
        OwnGrids {
            by_sides: grids_by_sides::<W, H>(source.places()),
        }
    }

    /// The grids as a walk takes them.
    pub fn view(&self) -> Grids<'_>
        ensures sides { result.by_sides.now ≡ self.now.by_sides.items }
        ensures origins { result.origins.now ≡ [] }
    {
        Grids {
            by_sides: self.by_sides.as_slice(),
            origins: &[],
        }
    }
}

/// Whether blocks that are inside in a pattern have places, and its grids are not among these.
pub fn is_new(patterns: &[PatternGrids], pattern: InsidePattern) -> bool {
    pattern.columns > 0 && pattern.rows > 0 && patterns.iter().all(|known| known.pattern != pattern)
}

/// The origins of weights in grid `n` % 121 of pattern `n` / 121.
pub fn origins_at<const W: usize, const H: usize>(
    patterns: &[PatternGrids],
    n: usize,
) -> GridOrigins
    requires footprint { IsTrue (is_footprint W H) }
    requires patterns { All (ArePatternGrids W H) patterns.now }
    requires place { n < length patterns.now * 121 }
    ensures { AreOriginsAt W H patterns.now n result }
{
    let k = n % 121;
    let own = &patterns[n / 121].by_sides;
    origins_in::<W, H>(k as u8, own[k].as_slice())
}
