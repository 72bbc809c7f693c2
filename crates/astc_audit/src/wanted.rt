// The images that a texture was made of.
ghost use Rattle.std.specs.Prelude.{◌≡◌, ◌≤◌};
ghost use Rattle.astc_audit.specs.Ends.{want_of};

use pam_image::Want;
use texture::Layout;

/// The images that a texture of this layout was made of.
pub fn want_of(layout: &Layout) -> Want
    ensures exact { result ≡ want_of layout.now }
    ensures some { 1 ≤ result.count }
{
    let shape = layout.shape();
    Want {
        count: layout.image_count(),
        cube: shape.faces == 6,
        sides: Some((shape.width, shape.height)),
    }
}
