// The report on the images of a texture.
ghost use Rattle.std.specs.Prelude.{◌≡◌, ◌≤◌, ◌<◌, ◌^◌, ◌+◌, ◌++◌, ◌∷◌, [], OnOk};

use std::alloc::{AllocError, Global};
use texture::ImagePlace;

/// The report on an image: its place, the number of its blocks, and the sum of their errors.
#[derive(Clone, Copy, Debug, PartialEq, Eq)]
pub struct PackedImage {
    pub place: ImagePlace,
    pub blocks: u32,
    pub error: u64,
}

/// The report on images, and the sum of their errors.
#[derive(Drop)]
pub struct ImageSums {
    pub images: Vec<PackedImage>,
    pub total: u64,
}

impl ImageSums {
    /// A report on no image.
    pub fn new(alloc: Global) -> ImageSums
        ensures images { result.images.items ≡ [] }
        ensures total { result.total ≡ 0 }
    {
        ImageSums {
            images: Vec::new(alloc),
            total: 0,
        }
    }

    /// Adds an image.
    ///
    /// # Errors
    ///
    /// Out of memory.
    pub fn add(&mut self, image: PackedImage) -> Result<(), AllocError>
        requires { self.old.total + image.error < 2 ^ 64 }
        ensures images { OnOk result (self.new.images.items ≡ self.old.images.items ++ image ∷ []) }
        ensures total { OnOk result (self.new.total ≡ self.old.total + image.error) }
    {
        self.images.push(image)?;
        self.total += image.error;
        Ok(())
    }
}
