//! The colours of a fit: least-squares endpoints of the partitions of a block for given weights,
//! the colour integers that encode them, and estimates of the error. Arithmetic wraps. The quality
//! of the results is measured, not proved.
#![tactic(auto)]

mod coding;
mod costs;
mod ends;
mod mixed;
mod scale;

pub use coding::{Coding, NO_COLOURS, WantedColours, has_scale, integers_of};
pub use costs::{Costs, ENDPOINT_MODES, NO_COSTS};
pub use ends::ColourEnds;
