/// The place of an image of a texture: its level, its array element and its face, each from 0 on.
#[derive(Clone, Copy, Debug, PartialEq, Eq)]
pub struct ImagePlace {
    pub level: u32,
    pub element: u32,
    pub face: u32,
}

/// The place of a block of a texture: its image, and its row and its column in the image, each from
/// 0 on.
#[derive(Clone, Copy, Debug, PartialEq, Eq)]
pub struct BlockPlace {
    pub image: ImagePlace,
    pub row: u32,
    pub column: u32,
}
