use astc_model::{Flavour, FootprintName};

/// The shape of a texture of ASTC blocks: format, sides of level 0, array elements, faces and
/// levels.
#[derive(Clone, Copy, Debug, PartialEq, Eq)]
pub struct Shape {
    pub name: FootprintName,
    pub flavour: Flavour,
    /// The width of level 0 in texels, 1 to 8192.
    pub width: u32,
    /// The height of level 0 in texels, 1 to 8192.
    pub height: u32,
    /// The number of array elements, at most 2048; 0 without an array.
    pub elements: u32,
    /// 6 for a cube map, whose sides are then equal, else 1.
    pub faces: u32,
    /// The number of stored levels, at least 1.
    pub levels: u32,
}
