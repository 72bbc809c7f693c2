//! Candidates: the blocks that recipes make of a source, as a whole or from pieces that a search
//! shares among many candidates.
#![tactic(auto)]

mod assembly;
mod bounds;
mod colours;
mod laws;
mod legal;
mod level_colours;
mod sides;
mod targets;
mod weights;

pub use assembly::{candidate, candidate_with, coded_from};
pub use bounds::{bounds_by_part, part_map};
pub use colours::{Palette, palette_from};
pub use laws::{candidates_are_legal, walks_meet_candidates};
pub use legal::recipe_level;
pub use level_colours::{ends_at_level, ideals_of};
pub use targets::{Axis, target_along};
pub use weights::{Targets, axes_of, grid_places, target_map, targets_of, weights_from};
