//! Operations on the texels of a block with SIMD vectors: table look-ups, weight infill,
//! interpolation of colours, and errors. A lane is one element of a vector, in most cases one
//! channel of a texel.
#![tactic(auto)]

mod errors;
mod infill;
mod lines;
mod loads;
mod look_ups;
mod mixing;

pub use errors::{squares, sum_of_squares};
pub use infill::{numerators, rounded, spread};
pub use lines::{along, quarters_of, rests_of};
pub use loads::{at_channel, four_texels_at, lanes_of, put_four_texels, texels_at};
pub use look_ups::{gathered, picked, values_at};
pub use mixing::{mixed, of_centred, of_repeated};
