/// The sides, array elements, faces and levels of a texture, in blocks or not.
#[derive(Clone, Copy, Debug, PartialEq, Eq)]
pub struct Extent {
    /// The width of level 0 in texels, 1 to 8192.
    pub width: u32,
    /// The height of level 0 in texels, 1 to 8192.
    pub height: u32,
    /// The number of array elements, at most 2048; 0 without an array.
    pub elements: u32,
    /// 6 for a cube map, else 1.
    pub faces: u32,
    /// The number of stored levels, at least 1.
    pub levels: u32,
}
