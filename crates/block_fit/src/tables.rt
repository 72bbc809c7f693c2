// The data that the fits for the blocks of a picture share.
use crate::levels::ColourLevels;
use crate::modes::{UsableModes, fill_grids, grid_count, modes_of};
use astc_model::Footprint;
use fit_layouts::{PartitioningArrays, PartitioningTables, PartitioningView};
use ideal_weights::WeightGrid;
use std::alloc::{AllocError, Global};

/// The modes of the blocks of a footprint, and the levels of their colours. The lists own no
/// memory, so that a fit without tables links no allocator.
#[derive(Drop)]
pub struct KindLists {
    modes: UsableModes,
    levels: ColourLevels,
}

impl KindLists {
    /// The lists of a footprint.
    pub fn new<const W: usize, const H: usize>() -> KindLists {
        KindLists {
            modes: modes_of::<W, H>(),
            levels: ColourLevels::new(),
        }
    }
}

/// The kinds of blocks of a footprint: their modes, the levels of their colours, and their grids if
/// these are kept.
#[derive(Clone, Copy)]
pub struct Kinds<'a> {
    pub modes: &'a UsableModes,
    pub levels: &'a ColourLevels,
    grids: &'a [WeightGrid],
}

impl<'a> Kinds<'a> {
    /// The grid at a place; None if it is not kept.
    pub fn grid(&self, at: u8) -> Option<&'a WeightGrid> {
        self.grids.get(usize::from(at))
    }
}

/// The data that the fits for the blocks of a footprint share, with any owner.
#[derive(Clone, Copy)]
pub struct FitView<'a> {
    pub(crate) lists: Option<&'a KindLists>,
    grids: &'a [WeightGrid],
    pub(crate) partitionings: PartitioningView<'a>,
}

impl<'a> FitView<'a> {
    /// Knows nothing.
    pub fn none() -> FitView<'a> {
        FitView {
            lists: None,
            grids: &[],
            partitionings: PartitioningView::none(),
        }
    }

    /// The kinds of blocks of lists, with the grids that are known.
    pub(crate) fn kinds(&self, lists: &'a KindLists) -> Kinds<'a> {
        Kinds {
            modes: &lists.modes,
            levels: &lists.levels,
            grids: self.grids,
        }
    }
}

/// The data that the fits for the blocks of a footprint share, made once.
#[derive(Drop)]
pub struct FitTables {
    lists: Box<KindLists>,
    grids: Vec<WeightGrid>,
    partitionings: PartitioningTables,
}

impl FitTables {
    /// # Errors
    ///
    /// Out of memory.
    pub fn new<const W: usize, const H: usize>(
        alloc: Global,
        footprint: Footprint<W, H>,
    ) -> Result<FitTables, AllocError> {
        let lists = Box::new(alloc, KindLists::new::<W, H>())?;
        let mut grids = Vec::new(alloc);
        grids.resize(grid_count(&lists.modes), WeightGrid::of::<W, H>(2, 2))?;
        fill_grids::<W, H>(grids.as_mut_slice(), &lists.modes);
        Ok(FitTables {
            lists,
            grids,
            partitionings: PartitioningTables::new(alloc, footprint)?,
        })
    }

    /// The view that all owners give.
    pub fn view(&self) -> FitView<'_> {
        FitView {
            lists: Some(&*self.lists),
            grids: self.grids.as_slice(),
            partitionings: self.partitionings.view(),
        }
    }
}

/// The same without memory, in 668,696 bytes whatever the footprint.
#[derive(Drop)]
pub struct FitArrays {
    lists: KindLists,
    grids: [WeightGrid; 88],
    partitionings: PartitioningArrays,
}

impl FitArrays {
    /// The tables of a footprint.
    pub fn new<const W: usize, const H: usize>(footprint: Footprint<W, H>) -> FitArrays {
        let mut arrays = FitArrays {
            lists: KindLists::new::<W, H>(),
            grids: [WeightGrid::of::<W, H>(2, 2); 88],
            partitionings: PartitioningArrays::new(footprint),
        };
        fill_grids::<W, H>(&mut arrays.grids, &arrays.lists.modes);
        arrays
    }

    /// The view that all owners give.
    pub fn view(&self) -> FitView<'_> {
        FitView {
            lists: Some(&self.lists),
            grids: &self.grids,
            partitionings: self.partitionings.view(),
        }
    }
}
