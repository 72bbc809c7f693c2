// The fault of a file.
ghost use Rattle.std.specs.Prelude.{◌≡◌};
ghost use Rattle.ktx_file.specs.Faults.{ktx_fault, data_fault};
ghost use Rattle.tex_shelf.specs.declared.stop.Stop.TheVariants.{Fault as IsFault};

use ktx_header::{DataFault, HeaderFault};
use tex_shelf::Stop;
use thiserror::Error;

/// The fault of a file, in the order of the tests. The first thirteen are in the first 64 bytes.
#[derive(Clone, Copy, Debug, PartialEq, Eq, Error)]
pub enum KtxFault {
    /// The file has this number of bytes, fewer than 64.
    #[error("KTX: only {0} bytes")]
    ShortHeader(u64),
    /// The first byte of the identifier that differs.
    #[error("KTX: byte {0} of the identifier is wrong")]
    BadIdentifier(u64),
    /// The endianness, read with its low byte first.
    #[error("KTX: endianness {0}")]
    BadEndian(u64),
    /// glType and glFormat, of which one is not 0.
    #[error("KTX: type {0} format {1} is not compressed")]
    NotCompressed(u64, u64),
    /// A glInternalFormat that no footprint has.
    #[error("KTX: unknown format {0}")]
    UnknownFormat(u64),
    /// Width and height, of which one is not 1 to 8192.
    #[error("KTX: sides {0} x {1} are not 1 to 8192")]
    BadSides(u64, u64),
    /// The depth, over 1.
    #[error("KTX: depth {0}")]
    HasDepth(u64),
    /// The array elements, over 2048.
    #[error("KTX: {0} elements are more than 2048")]
    TooManyElements(u64),
    /// The faces, neither 1 nor 6.
    #[error("KTX: {0} faces")]
    BadFaces(u64),
    /// Width and height of six faces, which differ.
    #[error("KTX: faces {0} x {1} are not square")]
    FacesNotSquare(u64, u64),
    /// The levels, over those of the full chain.
    #[error("KTX: too many levels {0}")]
    TooManyLevels(u64),
    /// The bytes of keys, over 1,048,576.
    #[error("KTX: {0} bytes of keys are more than 1048576")]
    KeysTooLong(u64),
    /// The texels of level 0, over 33,554,432.
    #[error("{0} texels are more than 33554432")]
    TooLarge(u64),
    /// The imageSize of a level that was found, which differs from the expected one.
    #[error("KTX: level {level} has size {found} and not {wanted}")]
    BadImageSize { level: u64, found: u64, wanted: u64 },
    /// The file ends after this number of bytes, 64 or more, inside keys, a size or blocks.
    #[error("KTX: ends after {0} bytes")]
    ShortData(u64),
    /// A byte follows the last block.
    #[error("KTX: bytes after the last block")]
    TrailingBytes,
}

impl From<HeaderFault> for KtxFault {
    ghost from_gives = { λ fault ktx. ktx ≡ ktx_fault fault };

    fn from(fault: HeaderFault) -> Self {
        match fault {
            HeaderFault::ShortHeader(n) => KtxFault::ShortHeader(n),
            HeaderFault::BadIdentifier(place) => KtxFault::BadIdentifier(place),
            HeaderFault::BadEndian(n) => KtxFault::BadEndian(n),
            HeaderFault::BadSides(width, height) => KtxFault::BadSides(width, height),
            HeaderFault::HasDepth(n) => KtxFault::HasDepth(n),
            HeaderFault::TooManyElements(n) => KtxFault::TooManyElements(n),
            HeaderFault::BadFaces(n) => KtxFault::BadFaces(n),
            HeaderFault::FacesNotSquare(width, height) => KtxFault::FacesNotSquare(width, height),
            HeaderFault::TooManyLevels(n) => KtxFault::TooManyLevels(n),
            HeaderFault::KeysTooLong(n) => KtxFault::KeysTooLong(n),
            HeaderFault::TooLarge(n) => KtxFault::TooLarge(n),
        }
    }
}

impl From<DataFault> for KtxFault {
    ghost from_gives = { λ fault ktx. ktx ≡ data_fault fault };

    fn from(fault: DataFault) -> Self {
        match fault {
            DataFault::BadImageSize {
                level,
                found,
                wanted,
            } => KtxFault::BadImageSize {
                level,
                found,
                wanted,
            },
            DataFault::ShortData(n) => KtxFault::ShortData(n),
            DataFault::TrailingBytes => KtxFault::TrailingBytes,
        }
    }
}

/// Why no file was read.
pub type KtxStop = Stop<KtxFault>;

impl From<KtxFault> for KtxStop {
    ghost from_gives = { λ fault now. now ≡ IsFault fault };

    fn from(fault: KtxFault) -> Self {
        Stop::Fault(fault)
    }
}
