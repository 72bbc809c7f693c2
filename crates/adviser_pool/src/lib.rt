//! Advisers, objects that propose blocks to the compressor, and a pool of up to four of them. A
//! proposal is 16 bytes; an adviser whose proposal is not a block leaves its pool at once.
#![tactic(auto)]

mod adviser;
mod ask;
mod last_adviser;
mod pool;

pub use adviser::Adviser;
pub use ask::{Ask, ask_of};
pub use last_adviser::LastAdviser;
pub use pool::Pool;
