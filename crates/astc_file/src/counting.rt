// How many blocks cover an image.
ghost use Rattle.std.specs.Prelude.{◌≡◌, ◌≤◌, ◌+◌, ◌-◌, ◌/◌};
ghost use Rattle.astc_model.specs.Limits.{most_texels};
ghost use Rattle.astc_file.specs.Counting.{AreFileSides, block_count};

use astc_model::FootprintName;
use texture::covering;

/// The blocks of an image of these sides in texels: rows times columns.
#[tactic(auto, unfolding(crate::specs::Counting::block_count))]
pub fn block_count(name: FootprintName, width: u32, height: u32) -> u32
    requires { AreFileSides width height }
    ensures exact { result ≡ block_count name width height }
    ensures most { result ≤ most_texels }
{
    let (block_width, block_height) = name.sides();
    covering(height, block_height) * covering(width, block_width)
}
