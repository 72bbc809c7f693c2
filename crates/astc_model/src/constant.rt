// Encodes a void-extent block.
ghost use Rattle.std.specs.Prelude.{◌≡◌, ℕ, Ok};
ghost use Rattle.astc_model.specs.Blocks.{constant_of};
ghost use Rattle.astc_model.specs.Reading.{read, constant_block_bytes};

/// Returns the bytes of the void-extent block that has no extent and the 16-bit values `rgba`
/// (Khronos Data Format Specification, ASTC, "Void-Extent Blocks"). Under every footprint the bytes
/// are read back as that block.
pub fn constant_bytes(rgba: [u16; 4]) -> [u8; 16]
    ensures bytes { result ≡ constant_block_bytes rgba }
    ensures reads_back { (w h : ℕ) → read w h result ≡ Ok (constant_of rgba) }
{
    let red = rgba[0].to_le_bytes();
    let green = rgba[1].to_le_bytes();
    let blue = rgba[2].to_le_bytes();
    let alpha = rgba[3].to_le_bytes();
    [
        0xFC, 0xFD, 0xFF, 0xFF, 0xFF, 0xFF, 0xFF, 0xFF, red[0], red[1], green[0], green[1],
        blue[0], blue[1], alpha[0], alpha[1],
    ]
}
