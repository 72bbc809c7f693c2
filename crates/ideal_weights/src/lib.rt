//! The basis of a fit, which makes a block for a source by least squares instead of trying recipes:
//! the texels of a source in arrays, the main line of each partition with the ideal weights along
//! it, and the grid points that come closest to these weights. Arithmetic wraps. The quality of the
//! results is measured, not proved.
#![tactic(auto)]

mod grids;
mod ideal;
mod layouts;
mod numbers;
mod patterns;
mod points;
mod statistics;
mod texels;

pub use grids::{GridPoints, Interim, PointSums, Totals, WeightGrid};
pub use ideal::{IdealWeights, NO_IDEAL_WEIGHTS, NO_WANTS, Wants};
pub use layouts::{BlockLayout, WHOLE};
pub use numbers::{MOST, Number, byte, excess_bits, nearest_quotient, number, quotient};
pub use patterns::put_parts;
pub use points::{NO_PLACING, Placing, TargetWeights, greatest_of, put_sensitivities};
pub use statistics::{Products, dot, products_of, statistics_of, total};
pub use texels::{Lanes, NO_TEXELS, Texels, lanes, places};
