// The data that the walks over the listed blocks of a picture share.
ghost use Rattle.std.specs.Prelude.{◌≡◌, ◌*◌, ◌/◌, ◌%◌, ◌<◌, ◌≤◌, IfSome, IsTrue, length};
ghost use Rattle.astc_model.specs.Footprints.{is_footprint};
ghost use Rattle.recipes.specs.Shapes.{IsShape};
ghost use Rattle.listed_walk.specs.Known.{AreKnown};

use crate::kinds::{KindModes, is_new_kind};
use crate::known::{PatternGrids, WalkView, is_new, origins_at};
use crate::origins::GridOrigins;
use crate::patterns::{InsidePattern, patterns_of};
use arrayvec::ArrayVec;
use astc_model::{Footprint, Preset, Recipe};
use recipes::shapes_of;
use std::alloc::{AllocError, Global};

/// The data that the walks over the listed blocks of a picture share: the block modes by the kinds
/// of blocks that a preset lists, and the grids by the patterns of the inside places.
#[derive(Drop)]
pub struct WalkTables<const W: usize, const H: usize> {
    footprint: Footprint<W, H>,
    kinds: Vec<Option<KindModes<W, H>>>,
    patterns: Vec<PatternGrids>,
    origins: Vec<GridOrigins>,
    ghost known: { AreKnown W H patterns.items origins.items },
}

impl<const W: usize, const H: usize> WalkTables<W, H> {
    /// The tables of a preset, with the grids of blocks whose places are all inside.
    ///
    /// # Errors
    ///
    /// Out of memory.
    pub fn new(
        alloc: Global,
        footprint: Footprint<W, H>,
        preset: Preset,
    ) -> Result<Self, AllocError> {
        let mut tables = WalkTables {
            footprint,
            kinds: Vec::new(alloc),
            patterns: Vec::new(alloc),
            origins: Vec::new(alloc),
        };
        for shape in shapes_of(preset) {
            tables.add_kind(shape)?;
        }
        tables.prepare(W as u32, H as u32)?;
        Ok(tables)
    }

    /// Adds the grids of the blocks at the right and bottom edges of a picture of `width` columns
    /// and `height` rows, unless the preset lists no kind that has grids.
    ///
    /// # Errors
    ///
    /// Out of memory.
    pub fn prepare(&mut self, width: u32, height: u32) -> Result<(), AllocError> {
        if self.kinds.is_empty() {
            return Ok(());
        }
        for pattern in patterns_of::<W, H>(width, height) {
            self.add_pattern(pattern)?;
        }
        self.add_origins()
    }

    /// The data that the walks share.
    pub fn view(&self) -> WalkView<'_, W, H> {
        WalkView {
            kinds: self.kinds.as_slice(),
            patterns: self.patterns.as_slice(),
            origins: self.origins.as_slice(),
        }
    }

    // Adds the kind of a shape, if it is missing.
    fn add_kind(&mut self, shape: &Recipe) -> Result<(), AllocError>
        requires { IsShape shape.now }
    {
        if is_new_kind(self.kinds.as_slice(), shape) {
            self.kinds.push(Some(KindModes::of(shape)))?;
        }
        Ok(())
    }

    // Adds the grids of blocks whose inside places have a pattern, if they are missing.
    fn add_pattern(&mut self, pattern: InsidePattern) -> Result<(), AllocError> {
        if is_new(self.patterns.as_slice(), pattern) {
            self.patterns.push(PatternGrids::of::<W, H>(pattern))?;
        }
        Ok(())
    }

    // Adds the origins of weights in the grids that are there.
    fn add_origins(&mut self) -> Result<(), AllocError> {
        while self.origins.len() < self.patterns.len().saturating_mul(121) {
            let next = origins_at::<W, H>(self.patterns.as_slice(), self.origins.len());
            self.origins.push(next)?;
        }
        Ok(())
    }
}

/// The tables of one picture without memory, in some 1,500,000 bytes: for callers that have no
/// allocator.
#[derive(Drop)]
pub struct WalkArrays<const W: usize, const H: usize> {
    footprint: Footprint<W, H>,
    /// No preset lists more kinds.
    kinds: ArrayVec<Option<KindModes<W, H>>, 26>,
    /// No picture has more patterns.
    patterns: ArrayVec<PatternGrids, 4>,
    origins: ArrayVec<GridOrigins, 484>,
    ghost known: { AreKnown W H patterns.items origins.items },
}

impl<const W: usize, const H: usize> WalkArrays<W, H> {
    /// The tables of a preset, with the grids of the blocks of a picture of `width` columns and
    /// `height` rows.
    pub fn new(footprint: Footprint<W, H>, preset: Preset, width: u32, height: u32) -> Self {
        let mut tables = WalkArrays {
            footprint,
            kinds: ArrayVec::new(),
            patterns: ArrayVec::new(),
            origins: ArrayVec::new(),
        };
        for shape in shapes_of(preset) {
            tables.add_kind(shape);
        }
        if !tables.kinds.is_empty() {
            tables.add_grids(width, height);
        }
        tables
    }

    /// The data that the walks share.
    pub fn view(&self) -> WalkView<'_, W, H> {
        WalkView {
            kinds: self.kinds.as_slice(),
            patterns: self.patterns.as_slice(),
            origins: self.origins.as_slice(),
        }
    }

    // Adds the kind of a shape, if it is missing.
    fn add_kind(&mut self, shape: &Recipe)
        requires { IsShape shape.now }
    {
        if !self.kinds.is_full() && is_new_kind(self.kinds.as_slice(), shape) {
            self.kinds.push(Some(KindModes::of(shape)));
        }
    }

    // Adds the grids of a picture's blocks.
    fn add_grids(&mut self, width: u32, height: u32) {
        for pattern in patterns_of::<W, H>(width, height) {
            self.add_pattern(pattern);
        }
        self.add_origins();
    }

    // Adds the grids of blocks whose inside places have a pattern, if they are missing.
    fn add_pattern(&mut self, pattern: InsidePattern) {
        if !self.patterns.is_full() && is_new(self.patterns.as_slice(), pattern) {
            self.patterns.push(PatternGrids::of::<W, H>(pattern));
        }
    }

    // Adds the origins of weights in the grids that are there.
    fn add_origins(&mut self) {
        while self.origins.len() < self.patterns.len() * 121 {
            let next = origins_at::<W, H>(self.patterns.as_slice(), self.origins.len());
            self.origins.push(next);
        }
    }
}
