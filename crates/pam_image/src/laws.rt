// Laws of the definitions that the reader meets.
ghost use Rattle.std.specs.Prelude.{◌≡◌, length, Ok};
ghost use Rattle.std.specs.List.{AllByRecursion};
ghost use Rattle.images.specs.Pictures.{Pictures, IsValid};
ghost use Rattle.pam_image.specs.Reading.{images_of, IsWanted};
ghost use Rattle.pam_image.specs.Written.{written};

use crate::Want;

/// One image, written as its header and raster, reads as that image, for every request that the
/// image fits.
pub fn written_images_read_back()
    ensures reads_back { (want : Want) (images : Pictures) → images.count ≡ 1 → IsValid images
        → IsWanted want images
        → AllByRecursion (λ texel. length texel ≡ 4) images.texels → images_of want (written images)
        ≡ Ok images }
{}
