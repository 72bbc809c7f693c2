// The data that the searches for the blocks of a picture share.
use astc_model::{Footprint, Preset};
use block_fit::{FitArrays, FitTables, FitView};
use listed_walk::{WalkArrays, WalkTables, WalkView};
use std::alloc::{AllocError, Global};

/// The data that the searches for the blocks of a picture share, with any owner. A search computes
/// missing data when it needs them.
#[derive(Clone, Copy)]
pub struct SearchView<'a, const W: usize, const H: usize> {
    /// The data of the listed blocks.
    pub(crate) walk: WalkView<'a, W, H>,
    /// The data of the fitted blocks.
    pub(crate) fit: FitView<'a>,
}

impl<'a, const W: usize, const H: usize> SearchView<'a, W, H> {
    /// Nothing.
    pub fn none() -> Self {
        SearchView {
            walk: WalkView::none(),
            fit: FitView::none(),
        }
    }
}

/// The data that the searches for the blocks of a picture share, made once.
#[derive(Drop)]
pub struct SearchTables<const W: usize, const H: usize> {
    walk: WalkTables<W, H>,
    fit: FitTables,
}

impl<const W: usize, const H: usize> SearchTables<W, H> {
    /// The data that the searches under a preset share.
    ///
    /// # Errors
    ///
    /// Out of memory.
    pub fn new(
        alloc: Global,
        footprint: Footprint<W, H>,
        preset: Preset,
    ) -> Result<Self, AllocError> {
        let walk = WalkTables::new(alloc, footprint, preset)?;
        let fit = FitTables::new(alloc, footprint)?;
        Ok(SearchTables { walk, fit })
    }

    /// Adds the data for the blocks at the right and bottom edges of a picture of `width` columns
    /// and `height` rows.
    ///
    /// # Errors
    ///
    /// Out of memory.
    pub fn prepare(&mut self, width: u32, height: u32) -> Result<(), AllocError> {
        self.walk.prepare(width, height)
    }

    /// The data that the searches share.
    pub fn view(&self) -> SearchView<'_, W, H> {
        SearchView {
            walk: self.walk.view(),
            fit: self.fit.view(),
        }
    }
}

/// The data for one picture without memory, in some 2,000,000 bytes: for callers that have no
/// allocator.
#[derive(Drop)]
pub struct SearchArrays<const W: usize, const H: usize> {
    walk: WalkArrays<W, H>,
    fit: FitArrays,
}

impl<const W: usize, const H: usize> SearchArrays<W, H> {
    /// The data that the searches under a preset share for the blocks of a picture of `width`
    /// columns and `height` rows.
    pub fn new(footprint: Footprint<W, H>, preset: Preset, width: u32, height: u32) -> Self {
        SearchArrays {
            walk: WalkArrays::new(footprint, preset, width, height),
            fit: FitArrays::new(footprint),
        }
    }

    /// The data that the searches share.
    pub fn view(&self) -> SearchView<'_, W, H> {
        SearchView {
            walk: self.walk.view(),
            fit: self.fit.view(),
        }
    }
}
