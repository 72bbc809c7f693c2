// The fault of a part file.
ghost use Rattle.std.specs.Prelude.{◌≡◌};
ghost use Rattle.part_file.specs.Faults.{part_fault};
ghost use Rattle.part_file.specs.Files.{piece_fault};
ghost use Rattle.tex_shelf.specs.declared.stop.Stop.TheVariants.{Fault as IsFault};

use ktx_file::KtxFault;
use tex_shelf::{PieceFault, Stop};
use thiserror::Error;

/// The fault of a part file, in the order of the tests, except that a file of fewer than 132 bytes
/// which is neither a texture nor a picture is short, whatever the bytes are. The first six are in
/// the first 132 bytes.
#[derive(Clone, Copy, Debug, PartialEq, Eq, Error)]
pub enum PartFault {
    /// The file begins as a KTX file.
    #[error("a whole texture, no part")]
    WholeTexture,
    /// The file begins as a PAM image.
    #[error("a picture, no part")]
    Picture,
    /// The first byte that is not that of the identifier of part files.
    #[error("no part file")]
    NoPart(u64),
    /// A fault of the header as that of a KTX file, whose first byte is byte 16.
    #[error("{0}")]
    Header(KtxFault),
    /// The first of the bytes 16 to 107 that is not that of the header which is written for the
    /// shape.
    #[error("part: byte {0}, in the header, is wrong")]
    OtherHeader(u64),
    /// The place and the number of parts. The place is not below the number, or that is over
    /// 65,536.
    #[error("part: {0} is no place among {1} parts")]
    BadPlace(u64, u64),
    /// The file ends after this number of bytes, inside its first 132 or inside the blocks and
    /// errors.
    #[error("part: ends after {0} bytes")]
    ShortData(u64),
    /// A byte follows the last error.
    #[error("part: bytes after the last block")]
    TrailingBytes,
}

impl From<KtxFault> for PartFault {
    ghost from_gives = { λ fault part. part ≡ part_fault fault };

    fn from(fault: KtxFault) -> Self {
        PartFault::Header(fault)
    }
}

impl From<PieceFault> for PartFault {
    ghost from_gives = { λ fault part. part ≡ piece_fault fault };

    fn from(fault: PieceFault) -> Self {
        match fault {
            PieceFault::ShortData(n) => PartFault::ShortData(n),
            PieceFault::TrailingBytes => PartFault::TrailingBytes,
        }
    }
}

/// Why no part file was read.
pub type PartStop = Stop<PartFault>;

impl From<PartFault> for PartStop {
    ghost from_gives = { λ fault now. now ≡ IsFault fault };

    fn from(fault: PartFault) -> Self {
        Stop::Fault(fault)
    }
}
