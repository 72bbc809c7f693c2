use crate::Level;

/// A decoded block mode: the size of the weight grid, the level of the weights and the number of
/// planes (Khronos Data Format Specification, ASTC, "Block Mode").
#[derive(Clone, Copy, Debug, PartialEq, Eq)]
pub struct Mode {
    /// The columns of the weight grid, 2 to 12.
    pub across: u8,
    /// The rows of the weight grid, 2 to 12.
    pub down: u8,
    /// The level of the weights, at most 32.
    pub level: Level,
    /// The planes of weights, 1 or 2.
    pub planes: u8,
}
