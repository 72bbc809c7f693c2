// Encodes void-extent blocks.
ghost use Rattle.std.specs.Prelude.{◌≡◌, ℕ};
ghost use Rattle.astc_model.specs.Blocks.{IsLegalConstant};
ghost use Rattle.astc_model.specs.Reading.{read_bits};

use crate::packing::packed;
use astc_model::{Block, Constant};

// Encodes a legal void-extent block. The reader decodes an equal block for all sides of a block.
pub(crate) fn constant_bits(constant: &Constant) -> u128
    requires { IsLegalConstant constant.now }
    ensures { (w h : ℕ) → read_bits w h result ≡ Ok (Block.Constant constant.now) }
{
    let [s_low, s_high, t_low, t_high] = constant.extent;
    let [red, green, blue, alpha] = constant.rgba;
    packed(
        &[9, 1, 2, 13, 13, 13, 13, 16, 16, 16, 16],
        &[
            0x1FC,
            0,
            3,
            s_low as u128,
            s_high as u128,
            t_low as u128,
            t_high as u128,
            red as u128,
            green as u128,
            blue as u128,
            alpha as u128,
        ],
    )
}
