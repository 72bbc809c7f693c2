use texture::ImagePlace;

/// The report on an image: its place, the number of its blocks, and the number of unreadable ones.
#[derive(Clone, Copy, Debug, PartialEq, Eq)]
pub struct UnpackedImage {
    pub place: ImagePlace,
    pub blocks: u32,
    pub illegal: u32,
}
