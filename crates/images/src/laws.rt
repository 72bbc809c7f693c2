// Laws of the levels of mip chains, and of digests.
ghost use Rattle.std.specs.Prelude.{◌≡◌, ◌≤◌, ℕ, [], codes};
ghost use Rattle.images.specs.Pictures.{Pictures, IsValid};
ghost use Rattle.images.specs.Chains.{images_at_level, IsLevel};
ghost use Rattle.images.specs.Digests.{digest_start, with_bytes};

/// A level of a mip chain has the sides of level 0, halved as often, rounded down and at least 1,
/// and the same number of images, and is valid if level 0 is.
pub fn levels_are_halved()
    ensures sides { (images : Pictures) (level : ℕ) → 1 ≤ images.width → 1 ≤ images.height
        → IsLevel images (images_at_level images level) level }
    ensures valid { (images : Pictures) (level : ℕ) → IsValid images
        → IsValid (images_at_level images level) }
{}

/// The published results of FNV-1a with 64 bits for three texts.
pub fn digests_are_published()
    ensures none { with_bytes digest_start [] ≡ 0xCBF29CE484222325 }
    ensures letter { with_bytes digest_start (codes "a") ≡ 0xAF63DC4C8601EC8C }
    ensures word { with_bytes digest_start (codes "foobar") ≡ 0x85944171F73967E8 }
{}
