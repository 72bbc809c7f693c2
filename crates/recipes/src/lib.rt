//! The list of recipes of each preset. A recipe says how the compressor makes a block from a
//! source; a recipe without its block mode is called a shape.
#![tactic(auto)]

mod laws;
mod listing;
mod shapes;
mod table;

pub use laws::walks_meet_recipes;
pub use listing::{recipe, recipe_count};
pub use shapes::shapes_of;
