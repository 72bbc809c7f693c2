// The fault of a file.
ghost use Rattle.std.specs.Prelude.{◌≡◌};
ghost use Rattle.astc_file.specs.Files.{block_fault};
ghost use Rattle.tex_shelf.specs.declared.stop.Stop.TheVariants.{Fault as IsFault};

use tex_shelf::{PieceFault, Stop};
use thiserror::Error;

/// The fault of a file, in the order of the tests. The first five are in the first 16 bytes.
#[derive(Clone, Copy, Debug, PartialEq, Eq, Error)]
pub enum AstcFault {
    /// The file has this number of bytes, fewer than 16.
    #[error(".astc: fault 1")]
    ShortHeader(u64),
    /// The first byte of the magic number that differs.
    #[error(".astc: fault 2")]
    BadMagic(u64),
    /// Width, height and depth of the blocks. The depth is not 1, or width by height is not a
    /// footprint.
    #[error(".astc: fault 3")]
    BadFootprint(u64, u64, u64),
    /// Width, height and depth of the image. The depth is not 1, or a side is not 1 to 8192.
    #[error(".astc: fault 4")]
    BadSides(u64, u64, u64),
    /// The texels, over 33,554,432.
    #[error(".astc: fault 5")]
    TooManyTexels(u64),
    /// The file ends after this number of bytes, 16 or more, inside the blocks.
    #[error(".astc: fault 6")]
    ShortData(u64),
    /// A byte follows the last block.
    #[error(".astc: fault 7")]
    TrailingBytes,
}

impl From<PieceFault> for AstcFault {
    ghost from_gives = { λ fault astc. astc ≡ block_fault fault };

    fn from(fault: PieceFault) -> Self {
        match fault {
            PieceFault::ShortData(n) => AstcFault::ShortData(n),
            PieceFault::TrailingBytes => AstcFault::TrailingBytes,
        }
    }
}

/// Why no file was read.
pub type AstcStop = Stop<AstcFault>;

impl From<AstcFault> for AstcStop {
    ghost from_gives = { λ fault now. now ≡ IsFault fault };

    fn from(fault: AstcFault) -> Self {
        Stop::Fault(fault)
    }
}
